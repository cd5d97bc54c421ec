// One turn of a run: a step of the session, and its text behind the text that waits.
ghost use Rattle.std.specs.Prelude.{◌+◌, ◌≤◌, ◌≡◌, length};
ghost use Rattle.session_listing.specs.Text.{entry_says, text};
ghost use Rattle.session_listing.specs.Room.{room_of};
ghost use Rattle.session_answers.specs.Status.{step_outcome};
ghost use Rattle.session.specs.Lent.{rooms_of};
ghost use Rattle.session.specs.Done.{session_with};
ghost use Rattle.replay.specs.Inner.{turned_to};
ghost use Rattle.replay.specs.Run.{run_of, going_after, added_by, put_behind, has_room, turned};

use crate::course::{Course, Going};
use chip::change::Change;
use chip::state::State;
use session::step::record_step;
use session_answers::StepAnswer;
use session_listing::entry::ListingEntry;
use session_listing::render::{FIRST_LINE_ROOM, PIXEL_ROOM, render};
use session_rooms::Counts;

// What a turn leaves.
#[derive(Drop)]
pub(crate) struct Turned {
    // What becomes of the chip's state.
    pub(crate) change: Change,
    // How many bytes of table and rows are there.
    pub(crate) counts: Counts,
    // How many records stood before the next one.
    pub(crate) records: u32,
    // How far the run is.
    pub(crate) course: Course,
}

// Whether lines have room behind a place for the longest entry that an output can show.
fn has_room(lines: usize, put: usize, output: usize) -> bool
    ensures { result ≡ has_room lines put output }
{
    put <= lines
        && FIRST_LINE_ROOM <= lines - put
        && output <= (lines - put - FIRST_LINE_ROOM) / PIXEL_ROOM
}

// How the run goes on after an answer.
fn going_after(answer: StepAnswer) -> Going
    ensures { result ≡ going_after (step_outcome answer) }
{
    if answer.over() {
        return Going::Over;
    }
    match answer {
        StepAnswer::More => Going::Read,
        _ => Going::On,
    }
}

// Puts an entry's text behind the text that waits. Answers where it ends.
fn put_entry(entry: ListingEntry, output: &[u32], lines: &mut [u8], put: usize) -> usize
    requires { put + room_of (length output.now) ≤ length lines.old }
    ensures { (result, lines.new) ≡ put_behind lines.old put (text (entry_says entry) output.now) }
{
    render(entry, output, lines, put).unwrap_or(put)
}

// Puts the text that an answer adds behind the text that waits. Answers where it ends.
fn put_added(answer: StepAnswer, output: &[u32], lines: &mut [u8], put: usize) -> usize
    requires { put + room_of (length output.now) ≤ length lines.old }
    ensures { (result, lines.new) ≡ put_behind lines.old put (added_by output.now (step_outcome answer)) }
{
    match answer.adds() {
        Some(entry) => put_entry(entry, output, lines, put),
        None => put,
    }
}

// Steps once on the unread bytes, where the text has room for whatever is listed. Else asks to write it out first.
pub(crate) fn turn(
    state: State,
    counts: Counts,
    records: u32,
    course: Course,
    input: &[u8],
    lines: &mut [u8],
    store: &mut [u32],
    table: &mut [u8],
    normal: &mut [u8],
    overlay: &mut [u8],
    output: &mut [u32],
) -> Turned
    requires { course.to ≤ length input.now }
    ensures { run_of result.course (turned_to state result) (rooms_of store.new table.new normal.new overlay.new output.new) input.now lines.new ≡ turned (run_of course (session_with state counts records) (rooms_of store.old table.old normal.old overlay.old output.old) input.now lines.old) }
{
    if !has_room(lines.len(), course.put, output.len()) {
        return Turned {
            change: state.unchanged(),
            counts,
            records,
            course: course.going_so(Going::Full),
        };
    }
    let done = record_step(
        state,
        counts,
        records,
        &input[..course.to],
        course.from,
        course.last,
        store,
        table,
        normal,
        overlay,
        output,
    );
    let change = done.change;
    let held = done.counts;
    let answer = done.answer;
    let end = put_added(answer, output, lines, course.put);
    Turned {
        change,
        counts: held,
        records: done.records,
        course: Course {
            from: done.place,
            put: end,
            going: going_after(answer),
            ..course
        },
    }
}

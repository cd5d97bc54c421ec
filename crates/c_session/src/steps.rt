// What C calls on a session: one record at a time, and its text.
ghost use Rattle.std.specs.Prelude.{◌≡◌, not, eqb};
ghost use Rattle.rules.specs.Checked.{verdict};
ghost use Rattle.session_listing.specs.Text.{entry_says};
ghost use Rattle.session_answers.specs.Status.{step_outcome};
ghost use Rattle.session_rooms.specs.Rooms.{lent_faults};
ghost use Rattle.session.specs.Held.{nothing_held};
ghost use Rattle.session.specs.Lent.{rooms_of, session_of};
ghost use Rattle.c_session.specs.Steps.{entry_refusal, status_in_numbers, step_in_numbers};
ghost use Rattle.c_session.specs.Inner.{put_entry, put_text, or_text};

use c_numbers::{Refused, nothing, refused_by};
use chip::change::QueueChange;
use session::session::Session;
use session::step::record_step;
use session_answers::StepAnswer;
use session_listing::entry::ListingEntry;
use session_listing::render::{FIRST_LINE_ROOM, PIXEL_ROOM, render};
use session_rooms::{Counts, LONGEST_LINE, step_check};

// How many bytes of text are lent at least: every entry has room in them.
pub const TEXT_ROOM: usize = FIRST_LINE_ROOM + PIXEL_ROOM * LONGEST_LINE;

// The call is refused, and all is as it was.
pub const STATUS_REFUSED: u32 = 0;

// A record was run, and its entry is the text.
pub const STATUS_LISTED: u32 = 1;

// The end record is reached.
pub const STATUS_END: u32 = 2;

// The bytes end before or within a record, and the file goes on.
pub const STATUS_MORE: u32 = 3;

// A fault of the file, which the text lists.
pub const STATUS_STOPPED: u32 = 4;

// What a step answers.
#[repr(C)]
#[derive(Drop)]
pub struct SteppedNumbers {
    // The session after it.
    pub session: Session,
    // Where the next record starts.
    pub next: usize,
    // How many bytes of text were put.
    pub text: usize,
    // The refusal that it lists or is answered by.
    pub refusal: Refused,
    // What it comes to.
    pub status: u32,
}

// A step's status and refusal, for C.
#[derive(Drop)]
pub struct StatusNumbers {
    // What it comes to.
    pub status: u32,
    // The refusal that it lists or is answered by.
    pub refusal: Refused,
}

// A session before its first record.
pub fn bulitampaw_fresh_session() -> Session
    ensures { result ≡ session_of nothing_held }
{
    Session::new()
}

// The refusal that an entry lists.
fn entry_refusal(entry: ListingEntry) -> Refused
    ensures { result ≡ entry_refusal (entry_says entry) }
{
    match entry {
        ListingEntry::Ok => nothing(),
        ListingEntry::At { x: _, y: _ } => nothing(),
        ListingEntry::Line { y: _, width: _ } => nothing(),
        ListingEntry::Refused(refusal) => refused_by(refusal),
    }
}

// What an answer comes to, and the refusal in it.
fn status_in_numbers(answer: StepAnswer) -> StatusNumbers
    ensures { result ≡ status_in_numbers (step_outcome answer) }
{
    match answer {
        StepAnswer::Refused(refusal) => StatusNumbers {
            status: STATUS_REFUSED,
            refusal: refused_by(refusal),
        },
        StepAnswer::Listed(entry) => StatusNumbers {
            status: STATUS_LISTED,
            refusal: entry_refusal(entry),
        },
        StepAnswer::End => StatusNumbers {
            status: STATUS_END,
            refusal: nothing(),
        },
        StepAnswer::More => StatusNumbers {
            status: STATUS_MORE,
            refusal: nothing(),
        },
        StepAnswer::Stopped(refusal) => StatusNumbers {
            status: STATUS_STOPPED,
            refusal: refused_by(refusal),
        },
    }
}

// An entry's text at the front, where there is room. Answers how many bytes were put.
fn put_entry(entry: ListingEntry, output: &[u32], text: &mut [u8]) -> usize
    ensures { (result, text.new) ≡ put_entry (entry_says entry) output.now text.old }
{
    render(entry, output, text, 0).unwrap_or(0)
}

// The text of what an answer lists, where there is room. Answers how many bytes were put.
fn put_text(answer: StepAnswer, output: &[u32], text: &mut [u8]) -> usize
    ensures { (result, text.new) ≡ put_text (step_outcome answer) output.now text.old }
{
    match answer {
        StepAnswer::Listed(entry) => put_entry(entry, output, text),
        StepAnswer::Stopped(refusal) => put_entry(ListingEntry::Refused(refusal), output, text),
        StepAnswer::End => 0,
        StepAnswer::More => 0,
        StepAnswer::Refused(_) => 0,
    }
}

// Why a step whose text is too short is refused: 11 and 5 by the rooms, else 5 at place 6.
fn short_of_text(
    counts: Counts,
    store: usize,
    table: usize,
    normal: usize,
    overlay: usize,
    output: usize,
) -> Refused
    ensures { result ≡ or_text (verdict (lent_faults counts store table normal overlay output)) }
{
    match step_check(counts, store, table, normal, overlay, output) {
        Err(refusal) => refused_by(refusal),
        Ok(()) => Refused {
            number: 5,
            place: 6,
        },
    }
}

// The record at a place of some bytes, on the lent store, table, rows and output, and its text. A last other than 0 says that the file ends with these bytes.
pub fn bulitampaw_step(
    session: Session,
    bytes: &[u8],
    place: usize,
    last: u32,
    store: &mut [u32],
    table: &mut [u8],
    normal: &mut [u8],
    overlay: &mut [u8],
    output: &mut [u32],
    text: &mut [u8],
) -> SteppedNumbers
    ensures { (result, (rooms_of store.new table.new normal.new overlay.new output.new, text.new)) ≡ step_in_numbers session (rooms_of store.old table.old normal.old overlay.old output.old) text.old bytes.now place (not (eqb last 0)) }
{
    if text.len() < TEXT_ROOM {
        let counts = session.counts;
        let refusal = short_of_text(
            counts,
            store.len(),
            table.len(),
            normal.len(),
            overlay.len(),
            output.len(),
        );
        return SteppedNumbers {
            session,
            next: place,
            text: 0,
            refusal,
            status: STATUS_REFUSED,
        };
    }
    let state = session.state;
    let counts = session.counts;
    let done = record_step(
        state,
        counts,
        session.records,
        bytes,
        place,
        last != 0,
        store,
        table,
        normal,
        overlay,
        output,
    );
    let change = done.change;
    let held = done.counts;
    let answer = done.answer;
    let put = put_text(answer, output, text);
    let status = status_in_numbers(answer);
    let refusal = status.refusal;
    let becomes = change.queue;
    // Apart from the rest, so that a queue that stays is copied once.
    if let QueueChange::Same = becomes {
        return SteppedNumbers {
            session: Session {
                state: state.beside_queue(change),
                counts: held,
                records: done.records,
            },
            next: done.place,
            text: put,
            refusal,
            status: status.status,
        };
    }
    SteppedNumbers {
        session: Session {
            state: state.changed(change),
            counts: held,
            records: done.records,
        },
        next: done.place,
        text: put,
        refusal,
        status: status.status,
    }
}

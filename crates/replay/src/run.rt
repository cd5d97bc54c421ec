// A file is run, turn by turn.
ghost use Rattle.std.specs.Prelude.{◌≤◌, ◌<◌, ◌≡◌, length};
ghost use Rattle.session.specs.Held.{nothing_held};
ghost use Rattle.session.specs.Lent.{rooms_of, session_of};
ghost use Rattle.session_listing.specs.Room.{room_of};
ghost use Rattle.session_rooms.specs.Rooms.{longest_line};
ghost use Rattle.session_files.specs.Calls.{Zeroed, RightLengths};
ghost use Rattle.replay.specs.Run.{begun, run_of, unread_in};
ghost use Rattle.replay.specs.Inner.{AfterBoth, AfterServing};
ghost use Rattle.replay.specs.Runs.{RunsOut};
ghost use Rattle.replay.specs.declared.course.Going.TheVariants.{Read};

use crate::course::{Course, Going};
use crate::input::read_on;
use crate::messages::tell;
use crate::streams::{Source, Streams};
use crate::text::{write_out, written};
use crate::turn::turn;
use chip::change::QueueChange;
use chip::state::State;
use chip_registers::STORE_WORDS;
use session::session::Session;
use session_records::{LONGEST_NORMAL, LONGEST_OVERLAY, LONGEST_TABLE};
use session_rooms::{Counts, LONGEST_LINE};
use std::io;
use std::io::ErrorKind;

// How many bytes of the file are read at most before a step: nearly twice as many as a record can have.
const INPUT_ROOM: usize = 131072;

// How many bytes of text wait at most: four times as many as an entry can have.
const TEXT_ROOM: usize = 65536;

// What the turns of a run leave.
#[derive(Drop)]
struct Ended {
    // The session after the last of them.
    session: Session,
    // How far the run is.
    course: Course,
}

// Writes out the text that waits, and then reads on.
fn read_after(streams: &mut Streams, input: &mut [u8], lines: &[u8], course: Course) -> Course
    requires { (course.to ≤ length input.old) × (length (unread_in course input.old) < length input.old) }
    ensures { AfterBoth course input.old result input.new }
{
    if write_out(streams, lines, course.put) {
        return read_on(streams, input, course.written_out(Going::Read));
    }
    course.going_so(Going::Unwritten)
}

// Does what a turn asks for: the text is written out where it leaves no room, before a read, which may wait, and at the end.
fn served(streams: &mut Streams, input: &mut [u8], lines: &[u8], course: Course) -> Course
    requires { (course.to ≤ length input.old) × (course.going ≡ Read → length (unread_in course input.old) < length input.old) }
    ensures { AfterServing course.going course input.old result input.new }
{
    match course.going {
        Going::On | Going::Unread | Going::Unwritten => course,
        Going::Full => written(streams, lines, course, Going::On),
        Going::Read => read_after(streams, input, lines, course),
        Going::Over => written(streams, lines, course, Going::Over),
    }
}

// Makes turns, and does after each what it asks for. A proved loop has to end, and nothing says that a file does, so the turns are counted.
fn run_turns(
    streams: &mut Streams,
    input: &mut [u8],
    lines: &mut [u8],
    store: &mut [u32],
    table: &mut [u8],
    normal: &mut [u8],
    overlay: &mut [u8],
    output: &mut [u32],
) -> Ended
    requires { (65538 ≤ length input.old) × (room_of longest_line ≤ length lines.old) × Zeroed (rooms_of store.old table.old normal.old overlay.old output.old) × RightLengths (rooms_of store.old table.old normal.old overlay.old output.old) }
    ensures { RunsOut (run_of begun (session_of nothing_held) (rooms_of store.old table.old normal.old overlay.old output.old) input.old lines.old) (run_of result.course result.session (rooms_of store.new table.new normal.new overlay.new output.new) input.new lines.new) }
{
    let mut state = State::new();
    let mut counts = Counts {
        table: 0,
        normal: 0,
        overlay: 0,
    };
    let mut records = 0;
    let mut course = Course::start();
    for _ in 0..u64::MAX {
        if !course.goes_on() {
            break;
        }
        let turned = turn(
            state, counts, records, course, input, lines, store, table, normal, overlay, output,
        );
        let asks = turned.course;
        course = served(streams, input, lines, asks);
        counts = turned.counts;
        records = turned.records;
        // As `State::changed` has it, but in place, so that a queue that stays is not copied each turn.
        let change = turned.change;
        let control = change.control;
        let at = change.at;
        let queue = change.queue;
        state.control = control;
        state.at = at;
        if let QueueChange::Same = queue {
            continue;
        }
        state = state.queue_changed(queue);
    }
    Ended {
        session: Session {
            state,
            counts,
            records,
        },
        course,
    }
}

// Says why a file could not be read. Answers with the error by which no more can be written, where there is one.
fn finish(rt: &HostRuntime, name: &[u8], going: Going, fault: io::Error) -> io::Result<()> {
    match going {
        Going::Unwritten => return Err(fault),
        Going::Unread => tell(rt, name, fault),
        _ => {}
    }
    Ok(())
}

// Lists what comes from a source, which messages call by this name. Answers with the error by which no more can be written, where there is one.
pub(crate) fn run_file(rt: &HostRuntime, source: Source, name: &[u8]) -> io::Result<()> {
    let mut streams = Streams {
        source,
        listing: rt.stdout(),
        fault: io::Error::from(ErrorKind::Other),
    };
    // The rooms, made anew for each file.
    let mut input = [0u8; INPUT_ROOM];
    let mut lines = [0u8; TEXT_ROOM];
    let mut store = [0u32; STORE_WORDS];
    let mut table = [0u8; LONGEST_TABLE];
    let mut normal = [0u8; LONGEST_NORMAL];
    let mut overlay = [0u8; LONGEST_OVERLAY];
    let mut output = [0u32; LONGEST_LINE];
    let left = run_turns(
        &mut streams,
        &mut input,
        &mut lines,
        &mut store,
        &mut table,
        &mut normal,
        &mut overlay,
        &mut output,
    );
    finish(rt, name, left.course.going, streams.fault)
}

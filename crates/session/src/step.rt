// One record of a session.
ghost use Rattle.std.specs.Prelude.{◌≡◌};
ghost use Rattle.session_answers.specs.Status.{step_outcome};
ghost use Rattle.session.specs.Lent.{rooms_of};
ghost use Rattle.session.specs.Step.{session_step};
ghost use Rattle.session.specs.Done.{session_with, session_by};
ghost use Rattle.chip.specs.Change.{Tells};

use crate::acts::act;
use crate::session::Session;
use chip::change::Change;
use chip::state::State;
use session_answers::StepAnswer;
use session_records::record::{Context, RecordAt};
use session_rooms::{Counts, step_check};

// What a step leaves besides the lent memory, and what it answers.
#[derive(Drop)]
pub struct Done {
    // What becomes of the chip's state.
    pub change: Change,
    // How many bytes of table and rows are there.
    pub counts: Counts,
    // How many records stood before the next one.
    pub records: u32,
    // The place of the next record.
    pub place: usize,
    // What it answers.
    pub answer: StepAnswer,
}

// What a step leaves and answers.
#[derive(Drop)]
pub struct Stepped {
    // The session after it.
    pub session: Session,
    // The place of the next record.
    pub place: usize,
    // What it answers.
    pub answer: StepAnswer,
}

// What the record at a place of the bytes changes, on the lent store, table, rows and output. `last` says that the file ends with these bytes.
pub fn record_step(
    state: State,
    counts: Counts,
    records: u32,
    bytes: &[u8],
    place: usize,
    last: bool,
    store: &mut [u32],
    table: &mut [u8],
    normal: &mut [u8],
    overlay: &mut [u8],
    output: &mut [u32],
) -> Done
    ensures { ((((session_by state result, result.place), rooms_of store.new table.new normal.new overlay.new output.new), step_outcome result.answer) ≡ session_step (session_with state counts records) (rooms_of store.old table.old normal.old overlay.old output.old) bytes.now place last) × Tells state.queue result.change.queue }
{
    let allowed = step_check(
        counts,
        store.len(),
        table.len(),
        normal.len(),
        overlay.len(),
        output.len(),
    );
    if let Err(refusal) = allowed {
        return Done {
            change: state.unchanged(),
            counts,
            records,
            place,
            answer: StepAnswer::Refused(refusal),
        };
    }
    let context = Context {
        number: records,
        table: counts.table,
        last,
    };
    let found = session_reader::read(bytes, place, context);
    match found {
        RecordAt::Is { record, length } => {
            let start = place + 3;
            let end = start + length;
            let acted = act(
                state,
                counts,
                records,
                record,
                &bytes[start..end],
                store,
                table,
                normal,
                overlay,
                output,
            );
            let change = acted.change;
            let held = acted.counts;
            let answer = acted.answer;
            Done {
                change,
                counts: held,
                records: acted.records,
                place: end,
                answer,
            }
        }
        RecordAt::More => Done {
            change: state.unchanged(),
            counts,
            records,
            place,
            answer: StepAnswer::More,
        },
        RecordAt::Refused(refusal) => Done {
            change: state.unchanged(),
            counts,
            records,
            place,
            answer: StepAnswer::Stopped(refusal),
        },
    }
}

// The record at a place of the bytes, on the lent store, table, rows and output. `last` says that the file ends with these bytes.
pub fn step(
    session: Session,
    bytes: &[u8],
    place: usize,
    last: bool,
    store: &mut [u32],
    table: &mut [u8],
    normal: &mut [u8],
    overlay: &mut [u8],
    output: &mut [u32],
) -> Stepped
    ensures { (((result.session, result.place), rooms_of store.new table.new normal.new overlay.new output.new), step_outcome result.answer) ≡ session_step session (rooms_of store.old table.old normal.old overlay.old output.old) bytes.now place last }
{
    let state = session.state;
    let counts = session.counts;
    let done = record_step(
        state,
        counts,
        session.records,
        bytes,
        place,
        last,
        store,
        table,
        normal,
        overlay,
        output,
    );
    let change = done.change;
    let held = done.counts;
    let answer = done.answer;
    Stepped {
        session: Session {
            state: state.changed(change),
            counts: held,
            records: done.records,
        },
        place: done.place,
        answer,
    }
}

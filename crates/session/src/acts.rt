// What each record does.
ghost use Rattle.std.specs.Prelude.{◌<◌, ◌≡◌, take};
ghost use Rattle.refusals.specs.Refusal.{outcome_of};
ghost use Rattle.chip.specs.Change.{Tells};
ghost use Rattle.chip.specs.Write.{written};
ghost use Rattle.chip.specs.Dots.{ran};
ghost use Rattle.session_records.specs.Tags.{most_records};
ghost use Rattle.session_listing.specs.Text.{entry_says, says_line};
ghost use Rattle.session_listing.specs.Text.{says_ok};
ghost use Rattle.session_answers.specs.Status.{step_outcome};
ghost use Rattle.line_setup.specs.Controls.{controls_of};
ghost use Rattle.line.specs.Cells.{lent_of};
ghost use Rattle.line.specs.Request.{request_of};
ghost use Rattle.line.specs.Drawn.{drawn};
ghost use Rattle.session.specs.Record.{entry_of, at_position};
ghost use Rattle.session.specs.Lent.{rooms_of};
ghost use Rattle.session.specs.Done.{session_with};
ghost use Rattle.session.specs.Inner.{left_by, listed_as, asked_in, HeldWithin, BodyFits, acted_in};

use crate::keep::keep;
use chip::change::Change;
use chip::state::State;
use line::request::Request;
use line_setup::controls::Controls;
use refusals::Refusal;
use session_answers::StepAnswer;
use session_listing::entry::ListingEntry;
use session_records::record::Record;
use session_rooms::Counts;

// What a record leaves besides the lent memory, and what it answers.
#[derive(Drop)]
pub struct Acted {
    // What becomes of the chip's state.
    pub change: Change,
    // How many bytes of table and rows are there.
    pub counts: Counts,
    // How many records stood before the next one.
    pub records: u32,
    // What it answers.
    pub answer: StepAnswer,
}

// The entry of a call: this one where it is done, else its refusal.
fn entry_of<A: Drop>(answer: Result<A, Refusal>, done: ListingEntry) -> ListingEntry
    ensures { entry_says result ≡ entry_of (entry_says done) (outcome_of answer) }
{
    match answer {
        Ok(_) => done,
        Err(refusal) => ListingEntry::Refused(refusal),
    }
}

// The active width.
fn width(state: State) -> usize
    ensures { result ≡ (controls_of state.control).width }
{
    Controls::from(state.control).width as usize
}

// After one more record, which changed this and lists this entry.
fn listed(change: Change, counts: Counts, records: u32, entry: ListingEntry) -> Acted
    requires { records < most_records }
    ensures { result ≡ listed_as change counts records entry }
{
    Acted {
        change,
        counts,
        records: records + 1,
        answer: StepAnswer::Listed(entry),
    }
}

// A write.
fn write(
    state: State,
    counts: Counts,
    records: u32,
    store: &mut [u32],
    address: u32,
    value: u32,
) -> Acted
    requires { records < most_records }
    ensures { (((left_by state result, store.new), step_outcome result.answer) ≡ asked_in (session_with state counts records) says_ok (written (state, store.old) address value)) × Tells state.queue result.change.queue }
{
    let wrote = state.write_change(store, address, value);
    let entry = entry_of(wrote.answer, ListingEntry::Ok);
    listed(wrote.change, counts, records, entry)
}

// Some dots.
fn dots(state: State, counts: Counts, records: u32, store: &mut [u32], count: u32) -> Acted
    requires { records < most_records }
    ensures { (((left_by state result, store.new), step_outcome result.answer) ≡ asked_in (session_with state counts records) (at_position (ran (state, store.old) count).0.0.at) (ran (state, store.old) count)) × Tells state.queue result.change.queue }
{
    let ran = state.dots_change(store, count);
    let at = ran.change.at;
    let entry = entry_of(ran.answer, ListingEntry::At { x: at.x, y: at.y });
    listed(ran.change, counts, records, entry)
}

// A line.
fn line(
    state: State,
    counts: Counts,
    records: u32,
    y: u32,
    store: &[u32],
    table: &[u8],
    normal: &[u8],
    overlay: &[u8],
    output: &mut [u32],
) -> Acted
    requires records_lt_most_records { records < most_records }
    requires held_within { HeldWithin (session_with state counts records) (rooms_of store.now table.now normal.now overlay.now output.old) }
    ensures { (((left_by state result, output.new), step_outcome result.answer) ≡ asked_in (session_with state counts records) (says_line y (controls_of state.control).width) (drawn (request_of state y) (lent_of store.now (take counts.table table.now) (take counts.normal normal.now) (take counts.overlay overlay.now)) output.old)) × Tells state.queue result.change.queue }
{
    let table_end = counts.table;
    let normal_end = counts.normal;
    let overlay_end = counts.overlay;
    let request = Request { state, y };
    let drawn = line::draw::draw(
        request,
        store,
        &table[0..table_end],
        &normal[0..normal_end],
        &overlay[0..overlay_end],
        output,
    );
    let answer = drawn.answer;
    listed(
        state.unchanged(),
        counts,
        records,
        entry_of(
            answer,
            ListingEntry::Line {
                y,
                width: width(state),
            },
        ),
    )
}

// A record with this body.
pub(crate) fn act(
    state: State,
    counts: Counts,
    records: u32,
    which: Record,
    body: &[u8],
    store: &mut [u32],
    table: &mut [u8],
    normal: &mut [u8],
    overlay: &mut [u8],
    output: &mut [u32],
) -> Acted
    requires records_lt_most_records { records < most_records }
    requires held_within { HeldWithin (session_with state counts records) (rooms_of store.old table.old normal.old overlay.old output.old) }
    requires body_fits { BodyFits (session_with state counts records) (rooms_of store.old table.old normal.old overlay.old output.old) which body.now }
    ensures { (((left_by state result, rooms_of store.new table.new normal.new overlay.new output.new), step_outcome result.answer) ≡ acted_in (session_with state counts records) (rooms_of store.old table.old normal.old overlay.old output.old) which body.now) × Tells state.queue result.change.queue }
{
    let mut held = counts;
    match which {
        Record::End => Acted {
            change: state.unchanged(),
            counts,
            records,
            answer: StepAnswer::End,
        },
        Record::Write { address, value } => write(state, counts, records, store, address, value),
        Record::Dots(count) => dots(state, counts, records, store, count),
        Record::Table => {
            keep(table, held.table, body);
            held.table += body.len();
            listed(state.unchanged(), held, records, ListingEntry::Ok)
        }
        Record::Normal => {
            keep(normal, 0, body);
            held.normal = body.len();
            listed(state.unchanged(), held, records, ListingEntry::Ok)
        }
        Record::Overlay => {
            keep(overlay, 0, body);
            held.overlay = body.len();
            listed(state.unchanged(), held, records, ListingEntry::Ok)
        }
        Record::Line(y) => line(
            state, counts, records, y, store, table, normal, overlay, output,
        ),
    }
}

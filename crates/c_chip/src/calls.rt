// What C calls on the chip: the state goes and comes by value, memory is lent, and a refusal is its number and place, or 0 and 0.
ghost use Rattle.std.specs.Prelude.{◌≡◌};
ghost use Rattle.refusals.specs.Refusal.{outcome_of};
ghost use Rattle.chip.specs.State.{fresh};
ghost use Rattle.line.specs.Cells.{lent_of};
ghost use Rattle.line.specs.Request.{request_of};
ghost use Rattle.c_chip.specs.Calls.{written_in_numbers, read_in_numbers, dots_answer, dotted_in_numbers, ran_in_numbers, drawn_in_numbers};

use crate::numbers::{Reported, refusal_of};
use c_numbers::Refused;
use chip::change::QueueChange;
use chip::state::State;
use chip_timing::Signals;
use line::request::Request;
use refusals::Refusal;

// What a write answers.
#[repr(C)]
#[derive(Drop)]
pub struct WrittenNumbers {
    // the state after the write
    pub state: State,
    // why it was refused, or 0 and 0
    pub refusal: Refused,
}

// What a read answers: the word that the register shows, or 0.
#[repr(C)]
#[derive(Drop)]
pub struct ReadBackNumbers {
    // the state, as it was
    pub state: State,
    // why it was refused, or 0 and 0
    pub refusal: Refused,
    // the word that the register shows; 0 where the read is refused
    pub word: u32,
}

// What dots answer, one or many.
#[repr(C)]
#[derive(Drop)]
pub struct DottedNumbers {
    // the state after the last dot
    pub state: State,
    // why they were refused, or 0 and 0
    pub refusal: Refused,
    // what the last dot reported
    pub signals: Reported,
}

// What a line answers.
#[repr(C)]
#[derive(Drop)]
pub struct DrawnNumbers {
    // the state, as it was
    pub state: State,
    // why it was refused, or 0 and 0
    pub refusal: Refused,
}

// A fresh state: all zero, its queue empty.
pub fn bulitampaw_fresh() -> State
    ensures { result ≡ fresh }
{
    State::new()
}

// One register write.
#[tactic(auto, unfolding(crate::specs::Calls::written_in_numbers))]
pub fn bulitampaw_write(state: State, store: &mut [u32], address: u32, value: u32) -> WrittenNumbers
    ensures { (result, store.new) ≡ written_in_numbers (state, store.old) address value }
{
    let wrote = state.write_change(store, address, value);
    let change = wrote.change;
    let refusal = refusal_of(wrote.answer);
    // Apart from the rest, so that a queue that stays is copied once.
    if matches!(change.queue, QueueChange::Same) {
        return WrittenNumbers {
            state: state.beside_queue(change),
            refusal,
        };
    }
    WrittenNumbers {
        state: state.changed(change),
        refusal,
    }
}

// One register read. It changes nothing, so the state that came goes back.
#[tactic(auto, using(chip::proofs::Readings::read_same), unfolding(crate::specs::Calls::read_in_numbers))]
pub fn bulitampaw_read(state: State, store: &[u32], address: u32) -> ReadBackNumbers
    ensures { result ≡ read_in_numbers (state, store.now) address }
{
    let answer = state.read(store, address).answer;
    ReadBackNumbers {
        state,
        refusal: refusal_of(answer),
        word: answer.unwrap_or(0),
    }
}

// What dots answer, one or many, by the state after them. In line, so that the state is copied no more often.
#[inline(always)]
fn dotted_numbers(state: State, answer: Result<Option<Signals>, Refusal>) -> DottedNumbers
    ensures { result ≡ dots_answer state (outcome_of answer) }
{
    DottedNumbers {
        state,
        refusal: refusal_of(answer),
        signals: Reported::from(answer.unwrap_or(None)),
    }
}

// One dot.
#[tactic(auto, unfolding(crate::specs::Calls::dotted_in_numbers))]
pub fn bulitampaw_dot(state: State, store: &mut [u32]) -> DottedNumbers
    ensures { (result, store.new) ≡ dotted_in_numbers (state, store.old) }
{
    let made = state.dot_change(store);
    let change = made.change;
    // Apart from the rest, so that a queue that stays is copied once.
    if matches!(change.queue, QueueChange::Same) {
        return dotted_numbers(state.beside_queue(change), made.answer);
    }
    dotted_numbers(state.changed(change), made.answer)
}

// So many dots.
#[tactic(auto, unfolding(crate::specs::Calls::ran_in_numbers))]
pub fn bulitampaw_dots(state: State, store: &mut [u32], count: u32) -> DottedNumbers
    ensures { (result, store.new) ≡ ran_in_numbers (state, store.old) count }
{
    let made = state.dots_change(store, count);
    let change = made.change;
    // Apart from the rest, so that a queue that stays is copied once.
    if matches!(change.queue, QueueChange::Same) {
        return dotted_numbers(state.beside_queue(change), made.answer);
    }
    dotted_numbers(state.changed(change), made.answer)
}

// One drawn line. It changes no state, so the one that came goes back.
#[tactic(auto, unfolding(crate::specs::Calls::drawn_in_numbers, line::specs::Drawn::drawn))]
pub fn bulitampaw_line(
    state: State,
    y: u32,
    store: &[u32],
    table: &[u8],
    normal: &[u8],
    overlay: &[u8],
    output: &mut [u32],
) -> DrawnNumbers
    ensures { (result, output.new) ≡ drawn_in_numbers (request_of state y) (lent_of store.now table.now normal.now overlay.now) output.old }
{
    let request = Request { state, y };
    let drawn = line::draw::draw(request, store, table, normal, overlay, output);
    DrawnNumbers {
        state,
        refusal: refusal_of(drawn.answer),
    }
}

// What a call on the chip hands back with its answer: the state, or what it changes of it.
ghost use Rattle.std.specs.Prelude.{◌≡◌, Err};
ghost use Rattle.chip.specs.Change.{unchanged, changed_by};

use crate::change::Change;
use crate::state::State;
use refusals::Refusal;

// The state that a call hands back, and its answer.
#[derive(Drop)]
pub struct Answered<A> {
    // the state after the call; as it was where that is refused
    pub state: State,
    // what was asked for, or why the call is refused
    pub answer: Result<A, Refusal>,
}

// What a call changes of the state, and its answer.
#[derive(Drop)]
pub struct ChangeAnswered<A> {
    // what it changes
    pub change: Change,
    // what was asked for, or why the call is refused
    pub answer: Result<A, Refusal>,
}

impl<A> ChangeAnswered<A> {
    // A refused call, which changes nothing.
    pub(crate) fn refused(state: State, refusal: Refusal) -> Self
        ensures { result ≡ record { change = unchanged state; answer = Err refusal } }
    {
        Self {
            change: state.unchanged(),
            answer: Err(refusal),
        }
    }

    // The state after the change in the change's place, with the same answer.
    pub(crate) fn applied(self, before: State) -> Answered<A>
        ensures { result ≡ record { state = changed_by before self.change; answer = self.answer } }
    {
        Answered {
            state: before.changed(self.change),
            answer: self.answer,
        }
    }
}

// One dot.
ghost use Rattle.std.specs.Prelude.{◌≡◌};
ghost use Rattle.refusals.specs.Refusal.{outcome_of};
ghost use Rattle.chip_timing.specs.Signals.{signals_at};
ghost use Rattle.chip.specs.State.{windows_of};
ghost use Rattle.chip.specs.Change.{changed_by, Tells};
ghost use Rattle.chip.specs.Dot.{dotted};

use crate::answered::{Answered, ChangeAnswered};
use crate::state::State;
use chip_timing::{Position, Signals};

impl State {
    // The signals at a position.
    pub(crate) fn signals(self, at: Position) -> Signals
        ensures { result ≡ signals_at (windows_of self) at }
    {
        self.windows().signals(at)
    }

    // What one dot changes: what a run of one does.
    #[tactic(auto, using(crate::proofs::Runs::one_dot))]
    pub fn dot_change(self, store: &mut [u32]) -> ChangeAnswered<Option<Signals>>
        ensures { (((changed_by self result.change, store.new), outcome_of result.answer) ≡ dotted (self, store.old)) × Tells self.queue result.change.queue }
    {
        self.run_change(store, 1)
    }

    // One dot.
    pub fn dot(self, store: &mut [u32]) -> Answered<Option<Signals>>
        ensures { ((result.state, store.new), outcome_of result.answer) ≡ dotted (self, store.old) }
    {
        self.dot_change(store).applied(self)
    }
}

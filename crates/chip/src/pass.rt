// How far some dots come, which their writes do not change, and what that leaves.
ghost use Rattle.std.specs.Prelude.{ℕ, ◌≤◌, ◌≡◌, true, ◌&&◌, List, ltb, length};
ghost use Rattle.chip_timing.specs.Signals.{signals_at};
ghost use Rattle.chip_registers.specs.Store.{store_length};
ghost use Rattle.chip_queue.specs.Good.{good_queue};
ghost use Rattle.chip.specs.State.{good_state, windows_of};
ghost use Rattle.chip.specs.Change.{changed_by, Tells};
ghost use Rattle.chip.specs.Dot.{after_dot};
ghost use Rattle.chip.specs.Inner.{stored_by, behind};

use crate::change::{Change, QueueChange};
use crate::state::State;
use chip_queue::Queue;
use chip_timing::Position;

// How far some dots come.
#[derive(Clone, Copy)]
pub(crate) struct Pass {
    // where the beam is
    pub(crate) at: Position,
    // how many of the oldest writes they apply
    pub(crate) taken: u32,
}

// Whether a dot applies a write: it is blanked and something waits.
fn drains(blank: bool, waiting: u32) -> bool
    ensures { result ≡ (blank && ltb 0 waiting) }
{
    blank && 0 < waiting
}

// So many of the oldest writes go into their places in the store.
#[tactic(auto, using(crate::proofs::Stored::stored_none, crate::proofs::Stored::stored_length, crate::proofs::Stored::few_wait, crate::proofs::Stored::taken_inside, crate::proofs::Stored::stored_more))]
fn apply(queue: Queue, store: &mut [u32], taken: u32)
    requires { (good_queue queue ≡ true) × (taken ≤ queue.waiting) × (length store.old ≡ store_length) }
    ensures { store.new ≡ stored_by taken queue store.old }
{
    for write in &queue.slots[..taken as usize] {
        store[write.target()] = write.value;
    }
}

impl State {
    // One dot more: it applies a write, if it is blanked and something waits; then it moves.
    #[tactic(auto, using(crate::proofs::Passes::more_wait, crate::proofs::Passes::one_taken, crate::proofs::Passes::none_taken))]
    pub(crate) fn one_more(self, pass: Pass, blank: bool) -> Pass
        requires { (pass.taken ≤ self.queue.waiting) × ((signals_at (windows_of self) pass.at).blank ≡ blank) }
        ensures { (result.taken ≤ self.queue.waiting) × ((store : List ℕ) → behind (self, store) result ≡ after_dot (behind (self, store) pass)) }
    {
        let at = pass.at.next(self.control[1]);
        let taken = if drains(blank, self.queue.waiting - pass.taken) {
            pass.taken + 1
        } else {
            pass.taken
        };
        Pass { at, taken }
    }

    // What dots that come so far change, when the writes that they take are in the store.
    #[tactic(auto, using(crate::proofs::Good::good_says, crate::proofs::Passes::none_leave))]
    pub(crate) fn passing(self, store: &mut [u32], pass: Pass) -> Change
        requires { (good_state self ≡ true) × (pass.taken ≤ self.queue.waiting) × (length store.old ≡ store_length) }
        ensures { ((changed_by self result, store.new) ≡ behind (self, store.old) pass) × Tells self.queue result.queue }
    {
        let queue = if pass.taken == 0 {
            QueueChange::Same
        } else {
            apply(self.queue, store, pass.taken);
            QueueChange::Drained(pass.taken)
        };
        let control = self.control;
        Change {
            control,
            at: pass.at,
            queue,
        }
    }
}

// Many dots at once.
ghost use Rattle.std.specs.Prelude.{ℕ, ◌≤◌, ◌≡◌, List};
ghost use Rattle.refusals.specs.Refusal.{outcome_of};
ghost use Rattle.chip.specs.Change.{changed_by, Tells};
ghost use Rattle.chip.specs.Dots.{after_dots, ran};
ghost use Rattle.chip.specs.Inner.{behind, WalksOn};

use crate::answered::{Answered, ChangeAnswered};
use crate::pass::Pass;
use crate::state::State;
use chip_timing::{Signals, Walk};

impl State {
    // On over dots that only move: all of them where nothing waits any more, else those before the next blanked one.
    #[tactic(auto, using(crate::proofs::Passes::walks_all, crate::proofs::Passes::walks_to_blank))]
    fn walk(self, pass: Pass, count: u32) -> Walk
        requires { pass.taken ≤ self.queue.waiting }
        ensures { WalksOn self pass count result }
    {
        let at = pass.at;
        let total = self.control[1];
        if self.queue.waiting == pass.taken {
            return Walk {
                at: at.after(count, total),
                left: 0,
            };
        }
        self.windows().to_blank(at, total, count)
    }

    // How far so many dots come: those that only move are passed over at once.
    #[tactic(auto, unfolding(crate::specs::Dots::after_dots, chip_queue::specs::Queue::without, crate::specs::Inner::stored_by))]
    fn pass(self, count: u32) -> Pass
        ensures { (result.taken ≤ self.queue.waiting) × ((store : List ℕ) → behind (self, store) result ≡ after_dots count (self, store)) }
    {
        let at = self.at;
        let mut pass = Pass { at, taken: 0 };
        let mut left = count;
        while 0 < left {
            let walk = self.walk(pass, left);
            let at = walk.at;
            let there = Pass {
                at,
                taken: pass.taken,
            };
            if walk.left == 0 {
                return there;
            }
            pass = self.one_more(there, true);
            left = walk.left - 1;
        }
        pass
    }

    // What a run of dots changes. In line, so that one dot, which is a run of one, copies the state no more often.
    #[inline(always)]
    #[tactic(auto, using(crate::proofs::CallCheck::allowed_says, crate::proofs::Runs::dots_unfit, crate::proofs::Runs::dots_none, crate::proofs::Runs::dots_some))]
    pub(crate) fn run_change(self, store: &mut [u32], count: u32) -> ChangeAnswered<Option<Signals>>
        ensures { (((changed_by self result.change, store.new), outcome_of result.answer) ≡ ran (self, store.old) count) × Tells self.queue result.change.queue }
    {
        if let Err(refusal) = self.call_check(store.len()) {
            return ChangeAnswered::refused(self, refusal);
        }
        if count == 0 {
            return ChangeAnswered {
                change: self.unchanged(),
                answer: Ok(None),
            };
        }
        let before = self.pass(count - 1);
        let signals = self.signals(before.at);
        let pass = self.one_more(before, signals.blank);
        ChangeAnswered {
            change: self.passing(store, pass),
            answer: Ok(Some(signals)),
        }
    }

    // What so many dots change. A function of its own and not in line, so that where it is called the state is not copied for it.
    pub fn dots_change(self, store: &mut [u32], count: u32) -> ChangeAnswered<Option<Signals>>
        ensures { (((changed_by self result.change, store.new), outcome_of result.answer) ≡ ran (self, store.old) count) × Tells self.queue result.change.queue }
    {
        self.run_change(store, count)
    }

    // So many dots.
    pub fn dots(self, store: &mut [u32], count: u32) -> Answered<Option<Signals>>
        ensures { ((result.state, store.new), outcome_of result.answer) ≡ ran (self, store.old) count }
    {
        self.dots_change(store, count).applied(self)
    }
}

// Register writes.
ghost use Rattle.std.specs.Prelude.{◌<◌, ◌≡◌, ◌++◌, false, ◌&&◌, length};
ghost use Rattle.rules.specs.Checked.{verdict};
ghost use Rattle.refusals.specs.Refusal.{outcome_of};
ghost use Rattle.chip_registers.specs.Blocks.{count};
ghost use Rattle.chip_registers.specs.Named.{named};
ghost use Rattle.chip_registers.specs.Store.{store_length};
ghost use Rattle.chip_registers.specs.Access.{read_only, waits};
ghost use Rattle.chip_queue.specs.Queue.{full};
ghost use Rattle.chip.specs.Call.{call_faults};
ghost use Rattle.chip.specs.Change.{changed_by, Tells};
ghost use Rattle.chip.specs.Write.{address_faults, put, written};
ghost use Rattle.chip.specs.Inner.{Judged};

use crate::answered::{Answered, ChangeAnswered};
use crate::change::{Change, QueueChange};
use crate::state::State;
use chip_queue::Waiting;
use chip_registers::Register;
use refusals::Refusal;

impl State {
    // The register that a write goes to, or why it is refused.
    fn judged(self, words: usize, address: u32, value: u32) -> Result<Register, Refusal>
        ensures { Judged (verdict (call_faults self words ++ address_faults (full self.queue) address value)) (named address) result }
    {
        self.call_check(words)?;
        let place = chip_registers::place(address);
        let register = Register::at(address).ok_or(Refusal::NoRegister(place))?;
        if register.read_only() {
            return Err(Refusal::ReadOnly(place));
        }
        if !register.fits(value) {
            return Err(Refusal::StrayBits(place));
        }
        if register.waits() && self.queue.full() {
            return Err(Refusal::QueueFull(place));
        }
        Ok(register)
    }

    // What a write to a register changes: it joins the queue where it waits; else its value goes into the store or into a control word.
    fn put(self, store: &mut [u32], register: Register, value: u32) -> Change
        requires { (read_only register ≡ false) × (register.word < count register.block) × (length store.old ≡ store_length) × ((waits register && full self.queue) ≡ false) }
        ensures { ((changed_by self result, store.new) ≡ put (self, store.old) register value) × Tells self.queue result.queue }
    {
        let mut control = self.control;
        let at = self.at;
        if register.waits() {
            let word = register.word;
            return Change {
                control,
                at,
                queue: QueueChange::Joined(Waiting { word, value }),
            };
        }
        match register.store_place() {
            Some(index) => store[index] = value,
            None => control[register.word as usize] = value,
        }
        Change {
            control,
            at,
            queue: QueueChange::Same,
        }
    }

    // What one register write changes.
    #[tactic(auto, using(crate::proofs::Writes::write_refused, crate::proofs::Writes::write_goes, crate::proofs::Writes::goes_says, chip_registers::proofs::Naming::named_word))]
    pub fn write_change(self, store: &mut [u32], address: u32, value: u32) -> ChangeAnswered<()>
        ensures { (((changed_by self result.change, store.new), outcome_of result.answer) ≡ written (self, store.old) address value) × Tells self.queue result.change.queue }
    {
        match self.judged(store.len(), address, value) {
            Ok(register) => ChangeAnswered {
                change: self.put(store, register, value),
                answer: Ok(()),
            },
            Err(refusal) => ChangeAnswered::refused(self, refusal),
        }
    }

    // One register write.
    pub fn write(self, store: &mut [u32], address: u32, value: u32) -> Answered<()>
        ensures { ((result.state, store.new), outcome_of result.answer) ≡ written (self, store.old) address value }
    {
        self.write_change(store, address, value).applied(self)
    }
}

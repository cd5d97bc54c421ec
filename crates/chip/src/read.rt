// Register reads.
ghost use Rattle.std.specs.Prelude.{◌≤◌, ◌<◌, ◌≡◌, true, length};
ghost use Rattle.refusals.specs.Refusal.{outcome_of};
ghost use Rattle.chip_registers.specs.Blocks.{count};
ghost use Rattle.chip_registers.specs.Store.{store_length};
ghost use Rattle.chip.specs.State.{good_state};
ghost use Rattle.chip.specs.Read.{control_shows_by, control_shows, register_shows, read_back};

use crate::answered::Answered;
use crate::state::State;
use chip_registers::Register;
use chip_timing::Position;
use refusals::Refusal;

// What a control word shows, by the words that are stored, the room in the queue and the position.
#[tactic(auto, unfolding(crate::specs::Read::control_shows_by))]
fn shown_by(control: [u32; 9], room: u32, at: Position, word: u32) -> u32
    requires { (at.x ≤ 4095) × (at.y ≤ 4095) × (word < 11) }
    ensures { result ≡ control_shows_by control room at word }
{
    match word {
        9 => room,
        10 => at.y * 65536 + at.x,
        _ => control[word as usize],
    }
}

impl State {
    // What a control word shows.
    #[tactic(auto, using(crate::proofs::Good::good_says))]
    fn shown_of_control(self, word: u32) -> u32
        requires { (good_state self ≡ true) × (word < 11) }
        ensures { result ≡ control_shows self word }
    {
        shown_by(self.control, self.queue.room(), self.at, word)
    }

    // What a register shows.
    #[tactic(auto, using(chip_registers::proofs::Store::place_below, chip_registers::proofs::Store::nowhere_control))]
    fn shown(self, store: &[u32], register: Register) -> u32
        requires { (good_state self ≡ true) × (register.word < count register.block) × (length store.now ≡ store_length) }
        ensures { result ≡ register_shows (self, store.now) register }
    {
        match register.store_place() {
            Some(index) => register.kept(store[index]),
            None => self.shown_of_control(register.word),
        }
    }

    // What a read answers.
    #[tactic(auto, using(crate::proofs::CallCheck::allowed_says, crate::proofs::Readings::read_unfit, crate::proofs::Readings::read_nowhere, crate::proofs::Readings::read_shown, chip_registers::proofs::Naming::named_word))]
    fn read_answer(self, store: &[u32], address: u32) -> Result<u32, Refusal>
        ensures { ((self, store.now), outcome_of result) ≡ read_back (self, store.now) address }
    {
        self.call_check(store.len())?;
        let place = chip_registers::place(address);
        let register = Register::at(address).ok_or(Refusal::NoRegister(place))?;
        Ok(self.shown(store, register))
    }

    // One register read.
    pub fn read(self, store: &[u32], address: u32) -> Answered<u32>
        ensures { ((result.state, store.now), outcome_of result.answer) ≡ read_back (self, store.now) address }
    {
        Answered {
            state: self,
            answer: self.read_answer(store, address),
        }
    }
}

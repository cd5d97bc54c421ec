// The state: control words, position and queue, passed by value.
ghost use Rattle.std.specs.Prelude.{◌≡◌};
ghost use Rattle.rules.specs.Checked.{verdict};
ghost use Rattle.refusals.specs.Refusal.{outcome_of};
ghost use Rattle.chip.specs.State.{fresh, good_words, good_state, windows_of};
ghost use Rattle.chip.specs.Call.{call_faults};

use chip_queue::Queue;
use chip_registers::{Block, Register};
use chip_timing::{Position, Windows};
use refusals::Refusal;

// All that the chip holds besides the store.
#[repr(C)]
#[derive(Clone, Copy)]
pub struct State {
    // control words 0 to 8, which are stored
    pub control: [u32; 9],
    // where the beam is
    pub at: Position,
    // the colour writes that wait
    pub queue: Queue,
}

// Whether no control word has stray bits.
fn good_words(control: [u32; 9]) -> bool
    ensures { result ≡ good_words 0 control }
{
    for (word, value) in control.iter().enumerate() {
        let register = Register {
            block: Block::Control,
            word: word as u32,
        };
        if !register.fits(*value) {
            return false;
        }
    }
    true
}

impl State {
    // A fresh state: all zero, its queue empty.
    pub fn new() -> Self
        ensures { result ≡ fresh }
    {
        Self {
            control: [0; 9],
            at: Position { x: 0, y: 0 },
            queue: Queue::new(),
        }
    }

    // Whether the state keeps its rule.
    #[tactic(auto, using(chip_queue::proofs::Rule::none_good), unfolding(crate::specs::State::good_state))]
    pub fn good(self) -> bool
        ensures { result ≡ good_state self }
    {
        good_words(self.control)
            && self.at.x <= 4095
            && self.at.y <= 4095
            && (self.queue.waiting == 0 || self.queue.good())
    }

    // Whether a call may go on with this state and a store of so many words.
    pub(crate) fn call_check(self, words: usize) -> Result<(), Refusal>
        ensures { outcome_of result ≡ verdict (call_faults self words) }
    {
        if !self.good() {
            return Err(Refusal::BadState);
        }
        if words != chip_registers::STORE_WORDS {
            return Err(Refusal::StoreLength);
        }
        Ok(())
    }

    // Control words 2 to 5.
    pub(crate) fn windows(self) -> Windows
        ensures { result ≡ windows_of self }
    {
        Windows {
            hsync: self.control[2],
            vsync: self.control[3],
            hblank: self.control[4],
            vblank: self.control[5],
        }
    }
}

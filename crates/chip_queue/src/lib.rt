// The queue of colour writes: up to 64 that wait, the oldest first.
#![tactic(auto)]

ghost use Rattle.std.specs.Prelude.{◌-◌, ◌≡◌};
ghost use Rattle.chip_queue.specs.Waiting.{good_write, target};
ghost use Rattle.chip_queue.specs.Queue.{empty_queue, room, full, pushed, popped, without};
ghost use Rattle.chip_queue.specs.Good.{all_good, good_queue};

use chip_registers::{COLOUR_BITS, COLOUR_MAP_START, COLOUR_MAP_WORDS};

// How many writes can wait.
pub const MOST_WAITING: u32 = 64;

// How many slots the queue has.
pub const SLOTS: usize = MOST_WAITING as usize;

// The last slot.
const LAST_SLOT: usize = SLOTS - 1;

// How many values a colour can have.
const COLOURS: u32 = 1 << COLOUR_BITS;

// A colour write that waits.
#[repr(C)]
#[derive(Clone, Copy)]
pub struct Waiting {
    // the word of the colour map that it is for
    pub word: u32,
    // what it writes there
    pub value: u32,
}

// The writes that wait stand in the first `waiting` slots, the oldest in slot 0.
#[repr(C)]
#[derive(Clone, Copy)]
pub struct Queue {
    // how many writes wait
    pub waiting: u32,
    // the writes that wait, and behind them slots that do not count
    pub slots: [Waiting; SLOTS],
}

impl Waiting {
    // Whether there is such a word, and the write has no bits but those that it keeps.
    #[tactic(auto, using(chip_registers::proofs::Kept::colour_fits), unfolding(crate::specs::Waiting::good_write))]
    pub fn good(self) -> bool
        ensures { result ≡ good_write self }
    {
        self.word < COLOUR_MAP_WORDS && self.value < COLOURS
    }

    // Where it goes in the store.
    pub fn target(self) -> usize
        ensures { result ≡ target self }
    {
        COLOUR_MAP_START + (self.word as usize)
    }
}

// Whether every one of some writes is good.
fn all_good(writes: &[Waiting]) -> bool
    ensures { result ≡ all_good writes.now }
{
    writes.iter().all(|write| write.good())
}

impl Queue {
    // Nothing waits, and every slot is zero.
    pub fn new() -> Self
        ensures { result ≡ empty_queue }
    {
        Self {
            waiting: 0,
            slots: [Waiting { word: 0, value: 0 }; SLOTS],
        }
    }

    // How many more writes can wait.
    pub fn room(self) -> u32
        ensures { result ≡ room self }
    {
        MOST_WAITING.saturating_sub(self.waiting)
    }

    // Whether 64 wait.
    #[tactic(auto, unfolding(crate::specs::Queue::full))]
    pub fn full(self) -> bool
        ensures { result ≡ full self }
    {
        MOST_WAITING <= self.waiting
    }

    // With one more write at the end, where there is room.
    #[tactic(auto, unfolding(crate::specs::Queue::full, crate::specs::Queue::pushed))]
    pub fn pushed(mut self, write: Waiting) -> Self
        ensures { result ≡ pushed self write }
    {
        if !self.full() {
            let end = self.waiting as usize;
            self.slots[end] = write;
            self.waiting += 1;
        }
        self
    }

    // Lets the oldest write go: the others move up, and the last slot becomes zero.
    #[tactic(auto, using(crate::proofs::Slots::turned))]
    fn pop(&mut self)
        ensures { self.new ≡ popped self.old }
    {
        self.slots.rotate_left(1);
        self.slots[LAST_SLOT] = Waiting { word: 0, value: 0 };
        self.waiting = self.waiting.saturating_sub(1);
    }

    // Without so many of the oldest writes: for each the others move up, and the last slot becomes zero.
    #[tactic(auto, unfolding(crate::specs::Queue::without))]
    pub fn without(mut self, count: u32) -> Self
        ensures { result ≡ without self count }
    {
        for _ in 0..count {
            self.pop();
        }
        self
    }

    // Whether at most 64 wait, and every write that waits is good. Slots beyond them do not count.
    #[tactic(auto, unfolding(crate::specs::Good::good_queue))]
    pub fn good(self) -> bool
        ensures { result ≡ good_queue self }
    {
        self.waiting <= MOST_WAITING && all_good(&self.slots[..self.waiting as usize])
    }
}

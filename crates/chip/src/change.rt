// What a call changes of the state.
ghost use Rattle.std.specs.Prelude.{◌≡◌};
ghost use Rattle.chip_queue.specs.Queue.{pushed, without};
ghost use Rattle.chip.specs.State.{with_queue};
ghost use Rattle.chip.specs.Change.{unchanged, beside_queue, queue_by, changed_by};

use crate::state::State;
use chip_queue::Waiting;
use chip_timing::Position;

// What becomes of the queue.
#[derive(Clone, Copy)]
pub enum QueueChange {
    // it stays
    Same,
    // a write joins it
    Joined(Waiting),
    // so many of the oldest writes leave it
    Drained(u32),
}

// What becomes of the state.
#[derive(Clone, Copy)]
pub struct Change {
    // the control words after the call
    pub control: [u32; 9],
    // where the beam then is
    pub at: Position,
    // what becomes of the queue
    pub queue: QueueChange,
}

impl State {
    // The state stays as it is.
    pub fn unchanged(self) -> Change
        ensures { result ≡ unchanged self }
    {
        let control = self.control;
        Change {
            control,
            at: self.at,
            queue: QueueChange::Same,
        }
    }

    // A write joins the queue.
    fn with_waiting(mut self, write: Waiting) -> Self
        ensures { result ≡ with_queue self (pushed self.queue write) }
    {
        self.queue = self.queue.pushed(write);
        self
    }

    // So many of the oldest writes leave the queue.
    fn drained(mut self, taken: u32) -> Self
        ensures { result ≡ with_queue self (without self.queue taken) }
    {
        self.queue = self.queue.without(taken);
        self
    }

    // The state after what becomes of its queue.
    pub fn queue_changed(self, change: QueueChange) -> Self
        ensures { result ≡ with_queue self (queue_by self.queue change) }
    {
        match change {
            QueueChange::Same => self,
            QueueChange::Joined(write) => self.with_waiting(write),
            QueueChange::Drained(taken) => self.drained(taken),
        }
    }

    // The state with the control words and the position of a change; the queue stays.
    pub fn beside_queue(mut self, change: Change) -> Self
        ensures { result ≡ beside_queue self change }
    {
        let control = change.control;
        self.control = control;
        self.at = change.at;
        self
    }

    // The state after a change.
    pub fn changed(self, change: Change) -> Self
        ensures { result ≡ changed_by self change }
    {
        let beside = self.beside_queue(change);
        // Apart from the rest, so that a queue that stays is not copied.
        if matches!(change.queue, QueueChange::Same) {
            return beside;
        }
        beside.queue_changed(change.queue)
    }
}

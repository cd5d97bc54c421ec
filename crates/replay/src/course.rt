// How far a file is run.
ghost use Rattle.std.specs.Prelude.{◌≡◌};
ghost use Rattle.replay.specs.Run.{begun, going_so, goes_on_turning, written_out};

// How a run goes on.
#[derive(Clone, Copy)]
pub enum Going {
    // With the next turn.
    On,
    // The text that waits leaves no room: it has to be written out.
    Full,
    // The next record is not all there: more bytes have to be read.
    Read,
    // It is over.
    Over,
    // It breaks off: no more can be read.
    Unread,
    // It breaks off: no more can be written.
    Unwritten,
}

// How far a run is. What is smaller than a word stands last, so that there is no gap between the fields.
#[derive(Clone, Copy)]
pub struct Course {
    // Where the bytes of the input that wait start.
    pub from: usize,
    // Where they end.
    pub to: usize,
    // Where the text that waits ends.
    pub put: usize,
    // Whether the file ends with the bytes that wait.
    pub last: bool,
    // How the run goes on.
    pub going: Going,
}

impl Course {
    // Before the first byte is read.
    pub(crate) fn start() -> Self
        ensures { result ≡ begun }
    {
        Self {
            from: 0,
            to: 0,
            last: false,
            put: 0,
            going: Going::On,
        }
    }

    // Goes on so.
    pub(crate) fn going_so(self, going: Going) -> Self
        ensures { result ≡ going_so self going }
    {
        Self { going, ..self }
    }

    // With no text that waits, goes on so.
    pub(crate) fn written_out(self, going: Going) -> Self
        ensures { result ≡ written_out self going }
    {
        Self {
            put: 0,
            going,
            ..self
        }
    }

    // Whether another turn can be made.
    pub(crate) fn goes_on(self) -> bool
        ensures { result ≡ goes_on_turning self.going }
    {
        matches!(self.going, Going::On)
    }
}

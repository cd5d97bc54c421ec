// What a line is asked for.
use chip::state::State;

// The state that the line goes by, and which line it is.
#[derive(Clone, Copy)]
pub struct Request {
    // The chip's state, which is handed back as it was.
    pub state: State,
    // The line's number, counted from the top of the picture.
    pub y: u32,
}

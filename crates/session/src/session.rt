// What a session holds besides its lent memory.
ghost use Rattle.std.specs.Prelude.{◌≡◌};
ghost use Rattle.session.specs.Held.{nothing_held};
ghost use Rattle.session.specs.Lent.{session_of};

use chip::state::State;
use session_rooms::Counts;

// A session between two records.
#[repr(C)]
#[derive(Drop)]
pub struct Session {
    // The chip's state.
    pub state: State,
    // How many bytes of the lent table and rows are there.
    pub counts: Counts,
    // How many records stood before the next one.
    pub records: u32,
}

impl Session {
    // A session before its first record: a fresh chip, table and rows empty. Its store is all zero.
    pub fn new() -> Self
        ensures { result ≡ session_of nothing_held }
    {
        let state = State::new();
        let counts = Counts {
            table: 0,
            normal: 0,
            overlay: 0,
        };
        Self {
            state,
            counts,
            records: 0,
        }
    }
}

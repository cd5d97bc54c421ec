// What a step of a session is lent: how much is held, and how long each room is.
#![tactic(auto)]

ghost use Rattle.std.specs.Prelude.{◌≡◌, [], ◌∷◌};
ghost use Rattle.rules.specs.Checked.{verdict};
ghost use Rattle.refusals.specs.Refusal.{fault, outcome_of};
ghost use Rattle.session_rooms.specs.Rooms.{too_much_held, wrong_room, room_faults, lent_faults};

use chip_registers::STORE_WORDS;
use refusals::Refusal;
use session_records::{LONGEST_NORMAL, LONGEST_OVERLAY, LONGEST_TABLE};

// How many words the longest line has: the active width less 1 has 11 bits.
pub const LONGEST_LINE: usize = 2048;

// How many bytes of the lent table and rows are there.
#[repr(C)]
#[derive(Clone, Copy)]
pub struct Counts {
    // Of the ID table.
    pub table: usize,
    // Of the normal row.
    pub normal: usize,
    // Of the overlay row.
    pub overlay: usize,
}

// Whether more bytes of table and rows are there than there is room for.
#[tactic(auto, unfolding(crate::specs::Rooms::too_much_held))]
fn too_much_held(counts: Counts) -> bool
    ensures { result ≡ too_much_held counts.table counts.normal counts.overlay }
{
    LONGEST_TABLE < counts.table
        || LONGEST_NORMAL < counts.normal
        || LONGEST_OVERLAY < counts.overlay
}

// Whether a room has the length that is wanted; else it is refused so.
fn room_check(lent: usize, wanted: usize, refusal: Refusal) -> Result<(), Refusal>
    ensures { outcome_of result ≡ verdict (fault refusal (wrong_room lent wanted) ∷ []) }
{
    if lent != wanted {
        return Err(refusal);
    }
    Ok(())
}

// The lengths of the rooms, at the lowest place: 5.
#[tactic(auto, unfolding(crate::specs::Rooms::room_faults))]
fn rooms_check(
    store: usize,
    table: usize,
    normal: usize,
    overlay: usize,
    output: usize,
) -> Result<(), Refusal>
    ensures { outcome_of result ≡ verdict (room_faults store table normal overlay output) }
{
    room_check(store, STORE_WORDS, Refusal::StoreLength)?;
    room_check(table, LONGEST_TABLE, Refusal::TableLength)?;
    room_check(normal, LONGEST_NORMAL, Refusal::NormalLength)?;
    room_check(overlay, LONGEST_OVERLAY, Refusal::OverlayLength)?;
    room_check(output, LONGEST_LINE, Refusal::OutputLength)
}

// Whether a step may go on with what it is lent: 11, and then 5.
pub fn step_check(
    counts: Counts,
    store: usize,
    table: usize,
    normal: usize,
    overlay: usize,
    output: usize,
) -> Result<(), Refusal>
    ensures { outcome_of result ≡ verdict (lent_faults counts store table normal overlay output) }
{
    if too_much_held(counts) {
        return Err(Refusal::BadState);
    }
    rooms_check(store, table, normal, overlay, output)
}

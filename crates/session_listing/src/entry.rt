// What a record lists.
use refusals::Refusal;

// One entry of the listing.
#[derive(Clone, Copy)]
pub enum ListingEntry {
    // What was asked is done.
    Ok,
    // The position after some dots.
    At { x: u32, y: u32 },
    // A drawn line, with its active width.
    Line { y: u32, width: usize },
    // A refusal.
    Refused(Refusal),
}

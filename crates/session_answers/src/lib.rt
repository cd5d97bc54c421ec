// What a step of a session answers, and what that asks of whoever called it.
#![tactic(auto)]

ghost use Rattle.std.specs.Prelude.{◌≡◌};
ghost use Rattle.session_answers.specs.Answers.{adds, over};

use refusals::Refusal;
use session_listing::entry::ListingEntry;

// What a step answers.
#[derive(Clone, Copy)]
pub enum StepAnswer {
    // A record was run, and this is its entry in the listing.
    Listed(ListingEntry),
    // The end record is reached.
    End,
    // The bytes end before or within a record, and the file goes on.
    More,
    // A fault of the file, which stops the run.
    Stopped(Refusal),
    // The call is refused: it is lent the wrong things.
    Refused(Refusal),
}

impl StepAnswer {
    // The entry that it adds to the listing, where it adds one.
    pub fn adds(self) -> Option<ListingEntry>
        ensures { result ≡ adds self }
    {
        match self {
            Self::Listed(entry) => Some(entry),
            Self::Stopped(refusal) | Self::Refused(refusal) => Some(ListingEntry::Refused(refusal)),
            Self::End | Self::More => None,
        }
    }

    // Whether the run is over with it.
    pub fn over(self) -> bool
        ensures { result ≡ over self }
    {
        matches!(self, Self::End | Self::Stopped(_) | Self::Refused(_))
    }
}

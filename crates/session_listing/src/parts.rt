// The first line of an entry, in parts.
ghost use Rattle.std.specs.Prelude.{◌≡◌};
ghost use Rattle.session_listing.specs.Text.{entry_says};
ghost use Rattle.session_listing.specs.Inner.{letters_of, PartsOf};

use crate::entry::ListingEntry;

// The word of a first line.
#[derive(Clone, Copy)]
pub(crate) enum Word {
    // `ok`.
    Ok,
    // `at`.
    At,
    // `line`.
    Line,
    // `refused`.
    Refused,
}

// The numbers behind a word.
#[derive(Clone, Copy)]
pub(crate) enum Numbers {
    // There is none.
    Nothing,
    // One number.
    One(u32),
    // A number, and one behind it.
    Two(u32, u32),
}

// A first line: its word, and the numbers behind it. And how many pixels follow.
#[derive(Clone, Copy)]
pub(crate) struct Parts {
    // The word.
    pub(crate) word: Word,
    // The numbers behind it.
    pub(crate) numbers: Numbers,
    // How many pixels the entry shows.
    pub(crate) pixels: usize,
}

impl Word {
    // Its letters.
    pub(crate) fn letters(self) -> &'static [u8]
        ensures { result.now ≡ letters_of self }
    {
        match self {
            Word::Ok => b"ok",
            Word::At => b"at",
            Word::Line => b"line",
            Word::Refused => b"refused",
        }
    }
}

impl Parts {
    // The parts of an entry, where the output has so many pixels.
    pub(crate) fn of(entry: ListingEntry, count: usize) -> Self
        ensures { PartsOf (entry_says entry) count result }
    {
        match entry {
            ListingEntry::Ok => Self {
                word: Word::Ok,
                numbers: Numbers::Nothing,
                pixels: 0,
            },
            ListingEntry::At { x, y } => Self {
                word: Word::At,
                numbers: Numbers::Two(x, y),
                pixels: 0,
            },
            ListingEntry::Line { y, width } => Self {
                word: Word::Line,
                numbers: Numbers::One(y),
                pixels: width.min(count),
            },
            ListingEntry::Refused(refusal) => Self {
                word: Word::Refused,
                numbers: Numbers::Two(refusal.number(), refusal.place()),
                pixels: 0,
            },
        }
    }
}

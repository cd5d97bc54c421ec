// The tags, and the lengths of a body that each allows.
ghost use Rattle.std.specs.Prelude.{◌≡◌};
ghost use Rattle.session_records.specs.Tags.{just, up_to, number_of, IsTagOf, lengths_of, allows};

use crate::{LONGEST_BODY, LONGEST_NORMAL, LONGEST_OVERLAY};

// A tag, by its number.
#[derive(Clone, Copy)]
pub(crate) enum Tag {
    // 0: the end of the run.
    End,
    // 1: a write.
    Write,
    // 2: some dots.
    Dots,
    // 3: bytes of the ID table.
    Table,
    // 4: a normal row.
    Normal,
    // 5: an overlay row.
    Overlay,
    // 6: a line.
    Line,
}

// The shortest and the longest body.
#[derive(Drop)]
pub struct BodyLengths {
    // Of the shortest.
    pub least: usize,
    // Of the longest.
    pub most: usize,
}

// One length alone.
fn just(length: usize) -> BodyLengths
    ensures { result ≡ just length }
{
    BodyLengths {
        least: length,
        most: length,
    }
}

// Every length up to one.
fn up_to(length: usize) -> BodyLengths
    ensures { result ≡ up_to length }
{
    BodyLengths {
        least: 0,
        most: length,
    }
}

impl Tag {
    // The tag of a byte, where there is such a tag.
    pub(crate) fn of(byte: u8) -> Option<Self>
        ensures { IsTagOf byte result }
    {
        match byte {
            0 => Some(Self::End),
            1 => Some(Self::Write),
            2 => Some(Self::Dots),
            3 => Some(Self::Table),
            4 => Some(Self::Normal),
            5 => Some(Self::Overlay),
            6 => Some(Self::Line),
            _ => None,
        }
    }

    // The lengths that it allows.
    fn lengths(self) -> BodyLengths
        ensures { result ≡ lengths_of (number_of self) }
    {
        match self {
            Self::End => just(0),
            Self::Write => just(8),
            Self::Dots => just(4),
            Self::Table => up_to(LONGEST_BODY),
            Self::Normal => up_to(LONGEST_NORMAL),
            Self::Overlay => up_to(LONGEST_OVERLAY),
            Self::Line => just(2),
        }
    }
}

// The lengths that a byte allows: those of its tag, and without one an empty body.
fn lengths_of(byte: u8) -> BodyLengths
    ensures { result ≡ lengths_of byte }
{
    match Tag::of(byte) {
        Some(tag) => tag.lengths(),
        None => just(0),
    }
}

// Whether a byte allows a length.
#[tactic(auto, unfolding(crate::specs::Tags::allows))]
pub(crate) fn allows(byte: u8, length: usize) -> bool
    ensures { result ≡ allows byte length }
{
    let lengths = lengths_of(byte);
    lengths.least <= length && length <= lengths.most
}

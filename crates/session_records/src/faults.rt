// The three faults of a record at the front of some bytes.
ghost use Rattle.std.specs.Prelude.{◌≡◌};
ghost use Rattle.session_records.specs.Faults.{unknown_tag, wrong_length, too_many_dots, wrong, too_many_records, too_long_table, too_much, missing};

use crate::parts::length_of;
use crate::record::Context;
use crate::tags::{Tag, allows};
use crate::{LONGEST_TABLE, MOST_DOTS, MOST_RECORDS};

// Whether there is no such tag.
fn unknown_tag(bytes: &[u8]) -> bool
    ensures { result ≡ unknown_tag bytes.now }
{
    !bytes.is_empty() && Tag::of(bytes[0]).is_none()
}

// Whether the tag doesn't allow the length.
fn wrong_length(bytes: &[u8]) -> bool
    ensures { result ≡ wrong_length bytes.now }
{
    3 <= bytes.len() && !allows(bytes[0], length_of(bytes))
}

// Whether a count of dots is above 16,777,216.
fn too_many_dots(bytes: &[u8]) -> bool
    ensures { result ≡ too_many_dots bytes.now }
{
    7 <= bytes.len()
        && matches!(Tag::of(bytes[0]), Some(Tag::Dots))
        && MOST_DOTS < words::be32(bytes, 3)
}

// Whether the record is wrong: 12.
#[tactic(auto, unfolding(crate::specs::Faults::wrong))]
pub(crate) fn wrong(bytes: &[u8]) -> bool
    ensures { result ≡ wrong bytes.now }
{
    unknown_tag(bytes) || wrong_length(bytes) || too_many_dots(bytes)
}

// Whether 1,000,000 records stand before this one.
fn too_many_records(bytes: &[u8], number: u32) -> bool
    ensures { result ≡ too_many_records number bytes.now }
{
    !bytes.is_empty() && MOST_RECORDS <= number
}

// Whether the table has more than 65,536 bytes with these.
fn too_long_table(bytes: &[u8], table: usize) -> bool
    ensures { result ≡ too_long_table table bytes.now }
{
    3 <= bytes.len()
        && matches!(Tag::of(bytes[0]), Some(Tag::Table))
        && (LONGEST_TABLE < table || LONGEST_TABLE - table < length_of(bytes))
}

// Whether the record is too much: 14.
#[tactic(auto, unfolding(crate::specs::Faults::too_much))]
pub(crate) fn too_much(bytes: &[u8], context: Context) -> bool
    ensures { result ≡ too_much context bytes.now }
{
    too_many_records(bytes, context.number) || too_long_table(bytes, context.table)
}

// Whether bytes are missing: 13.
#[tactic(auto, unfolding(crate::specs::Faults::missing))]
pub(crate) fn missing(bytes: &[u8]) -> bool
    ensures { result ≡ missing bytes.now }
{
    bytes.len() < 3 || bytes.len() - 3 < length_of(bytes)
}

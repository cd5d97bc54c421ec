// The parts of a record at the front of some bytes.
ghost use Rattle.std.specs.Prelude.{◌+◌, ◌≤◌, ◌<◌, ◌≡◌, length};
ghost use Rattle.session_records.specs.Tags.{lengths_of};
ghost use Rattle.session_records.specs.Parts.{tag_of, length_of, record_of};

use crate::record::Record;
use crate::tags::Tag;

// The body's length.
pub(crate) fn length_of(bytes: &[u8]) -> usize
    requires { 3 ≤ length bytes.now }
    ensures { (result ≡ length_of bytes.now) × (result < 65536) }
{
    words::be16(bytes, 1) as usize
}

// The record: the shortest body of it is there. A byte that is no tag, which is refused before, counts as an end.
pub(crate) fn record_of(bytes: &[u8]) -> Record
    requires { 3 + (lengths_of (tag_of bytes.now)).least ≤ length bytes.now }
    ensures { result ≡ record_of bytes.now }
{
    match Tag::of(bytes[0]) {
        Some(Tag::End) | None => Record::End,
        Some(Tag::Write) => Record::Write {
            address: words::be32(bytes, 3),
            value: words::be32(bytes, 7),
        },
        Some(Tag::Dots) => Record::Dots(words::be32(bytes, 3)),
        Some(Tag::Table) => Record::Table,
        Some(Tag::Normal) => Record::Normal,
        Some(Tag::Overlay) => Record::Overlay,
        Some(Tag::Line) => Record::Line(words::be16(bytes, 3)),
    }
}

// The reader: bytes that are lent, with a place in them.
#![tactic(auto)]

ghost use Rattle.std.specs.Prelude.{◌≡◌, drop};
ghost use Rattle.session_records.specs.RecordAt.{record_at};

use session_records::record::{Context, RecordAt, record_at};

// Lent bytes, and a place among them.
#[derive(Drop)]
pub struct Reader<'a> {
    // The bytes.
    pub bytes: &'a [u8],
    // The place.
    pub place: usize,
}

impl<'a> Reader<'a> {
    // A reader at a place of the bytes.
    pub fn at(bytes: &'a [u8], place: usize) -> Self
        ensures { (result.bytes ≡ bytes.entry) × (result.place ≡ place) }
    {
        Self { bytes, place }
    }

    // What stands at its place.
    pub fn next(self, context: Context) -> RecordAt
        ensures { result ≡ record_at context (drop self.entry.place self.entry.bytes.now) }
    {
        record_at(self.bytes, self.place, context)
    }
}

// What stands at a place of the bytes, as a reader there finds it.
pub fn read(bytes: &[u8], place: usize, context: Context) -> RecordAt
    ensures { result ≡ record_at context (drop place bytes.now) }
{
    Reader::at(bytes, place).next(context)
}

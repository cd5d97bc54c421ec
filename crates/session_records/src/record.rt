// A record at a place of some bytes: which it is, or why there is none.
ghost use Rattle.std.specs.Prelude.{◌≡◌, true, false, drop};
ghost use Rattle.session_records.specs.Faults.{wrong, missing};
ghost use Rattle.session_records.specs.RecordAt.{record_at};

use crate::faults::{missing, too_much, wrong};
use crate::parts::{length_of, record_of};
use refusals::Refusal;

// A record, with the numbers in its body. The bytes of a table or a row stay where they are.
#[derive(Drop)]
pub enum Record {
    // The end of the run.
    End,
    // A write of a value to an address.
    Write { address: u32, value: u32 },
    // So many dots.
    Dots(u32),
    // Bytes of the ID table, behind those that are there.
    Table,
    // A normal row.
    Normal,
    // An overlay row.
    Overlay,
    // The line at this y.
    Line(u32),
}

// What a record is judged by besides its bytes.
#[derive(Clone, Copy)]
pub struct Context {
    // Its number: how many records stand before it.
    pub number: u32,
    // How many table bytes stand before it.
    pub table: usize,
    // Whether the file ends with the bytes that are lent.
    pub last: bool,
}

// What stands at a place.
#[derive(Drop)]
pub enum RecordAt {
    // A record, whose body has so many bytes.
    Is { record: Record, length: usize },
    // The beginning of one: the bytes end, and the file goes on.
    More,
    // A fault of the file.
    Refused(Refusal),
}

// What stands at the front of bytes that end before their record does.
#[tactic(auto, unfolding(crate::specs::RecordAt::record_at))]
fn beginning(bytes: &[u8], context: Context) -> RecordAt
    requires { (wrong bytes.now ≡ false) × (missing bytes.now ≡ true) }
    ensures { result ≡ record_at context bytes.now }
{
    if !context.last {
        return RecordAt::More;
    }
    if too_much(bytes, context) {
        return RecordAt::Refused(Refusal::TooMuch(context.number));
    }
    RecordAt::Refused(Refusal::FileEnds(context.number))
}

// What stands at the front of the bytes.
#[tactic(auto, unfolding(crate::specs::RecordAt::record_at))]
fn front(bytes: &[u8], context: Context) -> RecordAt
    ensures { result ≡ record_at context bytes.now }
{
    if wrong(bytes) {
        return RecordAt::Refused(Refusal::WrongRecord(context.number));
    }
    if missing(bytes) {
        return beginning(bytes, context);
    }
    if too_much(bytes, context) {
        return RecordAt::Refused(Refusal::TooMuch(context.number));
    }
    RecordAt::Is {
        record: record_of(bytes),
        length: length_of(bytes),
    }
}

// What stands at a place of the bytes; past their end no bytes are there.
pub fn record_at(bytes: &[u8], place: usize, context: Context) -> RecordAt
    ensures { result ≡ record_at context (drop place bytes.now) }
{
    let from = place.min(bytes.len());
    front(&bytes[from..], context)
}

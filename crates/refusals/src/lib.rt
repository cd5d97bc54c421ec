// The refusals of every call on the chip and of a session's records, and the paper's number and place of each.
#![tactic(auto)]

ghost use Rattle.std.specs.Prelude.{◌≡◌};
ghost use Rattle.refusals.specs.Refusal.{refusal_number, refusal_place};

// Why a call is refused. NoRegister to QueueFull hold the address, 24 bits of it; BelowActive and NoFrameEntry the line; NoLineEntry and
// UndefinedEntry the pixel; WrongRecord, FileEnds and TooMuch the record's number.
#[derive(Clone, Copy)]
pub enum Refusal {
    // no register stands at the address
    NoRegister(u32),
    // the register at the address can only be read
    ReadOnly(u32),
    // the value has bits that the register at the address does not keep
    StrayBits(u32),
    // the write to the address would wait, and the queue is full
    QueueFull(u32),
    // the store does not have its length
    StoreLength,
    // the table is longer than 65,536 bytes
    TableLength,
    // the normal row does not have its length
    NormalLength,
    // the overlay row does not have its length
    OverlayLength,
    // the output is shorter than a line
    OutputLength,
    // the line is at or past the active height
    BelowActive(u32),
    // the table has no frame entry for the line
    NoFrameEntry(u32),
    // the table has no line entry for the pixel
    NoLineEntry(u32),
    // the window entry of the pixel is not defined
    UndefinedEntry(u32),
    // origin and size together are above the total, across or down
    AboveTotal,
    // the state does not keep its rule
    BadState,
    // the record has an unknown tag, or a length or dot count that its tag does not allow
    WrongRecord(u32),
    // the file ends before the record does
    FileEnds(u32),
    // the record is one more, or has more table bytes, than a session takes
    TooMuch(u32),
}

impl Refusal {
    // The paper's number of it.
    pub fn number(self) -> u32
        ensures { result ≡ refusal_number self }
    {
        match self {
            Refusal::NoRegister(_) => 1,
            Refusal::ReadOnly(_) => 2,
            Refusal::StrayBits(_) => 3,
            Refusal::QueueFull(_) => 4,
            Refusal::StoreLength => 5,
            Refusal::TableLength => 5,
            Refusal::NormalLength => 5,
            Refusal::OverlayLength => 5,
            Refusal::OutputLength => 5,
            Refusal::BelowActive(_) => 6,
            Refusal::NoFrameEntry(_) => 7,
            Refusal::NoLineEntry(_) => 8,
            Refusal::UndefinedEntry(_) => 9,
            Refusal::AboveTotal => 10,
            Refusal::BadState => 11,
            Refusal::WrongRecord(_) => 12,
            Refusal::FileEnds(_) => 13,
            Refusal::TooMuch(_) => 14,
        }
    }

    // The paper's place of it.
    pub fn place(self) -> u32
        ensures { result ≡ refusal_place self }
    {
        match self {
            Refusal::NoRegister(address) => address,
            Refusal::ReadOnly(address) => address,
            Refusal::StrayBits(address) => address,
            Refusal::QueueFull(address) => address,
            Refusal::StoreLength => 1,
            Refusal::TableLength => 2,
            Refusal::NormalLength => 3,
            Refusal::OverlayLength => 4,
            Refusal::OutputLength => 5,
            Refusal::BelowActive(y) => y,
            Refusal::NoFrameEntry(y) => y,
            Refusal::NoLineEntry(x) => x,
            Refusal::UndefinedEntry(x) => x,
            Refusal::AboveTotal => 0,
            Refusal::BadState => 0,
            Refusal::WrongRecord(record) => record,
            Refusal::FileEnds(record) => record,
            Refusal::TooMuch(record) => record,
        }
    }
}

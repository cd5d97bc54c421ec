// Words: fields of a word, big-endian numbers in lent bytes, and the three channels of a colour.
#![tactic(auto)]

ghost use Rattle.std.specs.Prelude.{◌+◌, ◌-◌, ◌≤◌, ◌<◌, ◌^◌, ◌≡◌, length};
ghost use Rattle.words.specs.Field.{bits, field};
ghost use Rattle.words.specs.Bytes.{big_endian};
ghost use Rattle.words.specs.Channels.{channels_of, word_of};

// Some bits of a word, from bit low up.
pub fn bits(word: u32, low: u32, count: u32) -> u32
    requires { (low < 32) × (count ≤ 32) }
    ensures { (result ≡ bits word low count) × (result < 2 ^ count) }
{
    let above = (word >> low) as u64;
    (above % (1 << count)) as u32
}

// The bits high..low of a word.
pub fn field(word: u32, high: u32, low: u32) -> u32
    requires { (low ≤ high) × (high < 32) }
    ensures { (result ≡ field word high low) × (result < 2 ^ (high + 1 - low)) }
{
    bits(word, low, high + 1 - low)
}

// The 16-bit number at a place of lent bytes.
pub fn be16(bytes: &[u8], at: usize) -> u32
    requires { at + 2 ≤ length bytes.now }
    ensures { (result ≡ big_endian bytes.now at 2) × (result < 2 ^ 16) }
{
    let high = u32::from(bytes[at]);
    let low = u32::from(bytes[at + 1]);
    high * 256 + low
}

// The 32-bit number at a place of lent bytes.
pub fn be32(bytes: &[u8], at: usize) -> u32
    requires { at + 4 ≤ length bytes.now }
    ensures { (result ≡ big_endian bytes.now at 4) × (result < 2 ^ 32) }
{
    let high = be16(bytes, at);
    let low = be16(bytes, at + 2);
    high * 65536 + low
}

// A colour of three channels.
#[derive(Clone, Copy)]
pub struct Rgb {
    // Red, in bits 23..16 of a word.
    pub red: u8,
    // Green, in bits 15..8.
    pub green: u8,
    // Blue, in bits 7..0.
    pub blue: u8,
}

impl From<u32> for Rgb {
    ghost from_gives = { λ word colour. colour ≡ channels_of word };

    // The channels of a map, gamma or output word.
    fn from(word: u32) -> Self
        ensures { result ≡ channels_of word }
    {
        Self {
            red: field(word, 23, 16) as u8,
            green: field(word, 15, 8) as u8,
            blue: field(word, 7, 0) as u8,
        }
    }
}

impl From<Rgb> for u32 {
    ghost from_gives = { λ colour word. (word ≡ word_of colour) × (word < 2 ^ 24) };

    // The channels as a word, its top byte 0.
    fn from(colour: Rgb) -> Self
        ensures { (result ≡ word_of colour) × (result < 2 ^ 24) }
    {
        u32::from(colour.red) * 65536 + u32::from(colour.green) * 256 + u32::from(colour.blue)
    }
}

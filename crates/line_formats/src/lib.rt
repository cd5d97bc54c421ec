// Pixel formats: a type for each, with its bits.
#![tactic(auto)]

mod channel;

ghost use Rattle.std.specs.Prelude.{ℕ, ◌≡◌};
ghost use Rattle.std.proofs.Common.{rules};
ghost use Rattle.line_formats.specs.Table.{format_of_number, widths_of, part_at, has_depth, has_buffer, has_bank, value_of, entry_in_bank, colour_in_format, HasWidths, HasChannels};
ghost use Rattle.line_formats.specs.declared.Format.{Format};
ghost use Rattle.line_formats.specs.declared.Format.TheVariants.{Index8 as FormatIndex8, Index12 as FormatIndex12, Rgb332 as Format332, Rgb444 as Format444, Rgb555 as Format555, Rgb888 as Format888};

use words::Rgb;

// A pixel format, with its bits.
pub trait PixelFormat {
    // Which format of the table it is.
    ghost format: { Format };

    // The bits of a sample.
    const BITS: u32;

    // The bits of its red, from bit 0 up.
    const RED: u32;

    // The bits of its green, above red.
    const GREEN: u32;

    // The bits of its blue, above green.
    const BLUE: u32;

    ghost BITS: { ℕ };

    ghost RED: { ℕ };

    ghost GREEN: { ℕ };

    ghost BLUE: { ℕ };

    // The bits of a sample and of its channels.
    fn widths() -> Widths
        ensures { result ≡ widths_of format }
    {
        Widths {
            bits: Self::BITS,
            red: Self::RED,
            green: Self::GREEN,
            blue: Self::BLUE,
        }
    }

    // The table says the same bits.
    ghost listed: { HasWidths format BITS RED GREEN BLUE };
}

// A format whose samples have three channels.
pub trait RgbFormat: PixelFormat {
    // The colour of a sample.
    fn colour(sample: u32) -> Rgb
        ensures { result ≡ colour_in_format Self.format sample }
    {
        channel::colour(sample, Self::RED, Self::GREEN, Self::BLUE)
    }

    // Each channel has 1 to 8 bits.
    ghost channels: { HasChannels Self.RED Self.GREEN Self.BLUE };
}

// Format 0: an 8-bit index within a bank of the map.
#[derive(Clone, Copy)]
pub struct Index8;

impl PixelFormat for Index8 {
    ghost format = { FormatIndex8 };

    const BITS: u32 = 8;

    const RED: u32 = 0;

    const GREEN: u32 = 0;

    const BLUE: u32 = 0;

    ghost BITS = { 8 };

    ghost RED = { 0 };

    ghost GREEN = { 0 };

    ghost BLUE = { 0 };

    ghost listed = { Prim.search rules };
}

impl Index8 {
    // The entries of a bank.
    pub const BANK_ENTRIES: u32 = 256;

    // The last bank.
    pub const LAST_BANK: u32 = 17;

    // The map entry of a sample, in a bank.
    pub fn map_entry(bank: u8, sample: u32) -> u32
        ensures { result ≡ entry_in_bank bank (value_of Format.Index8 sample) }
    {
        Self::BANK_ENTRIES * u32::from(bank) + words::bits(sample, 0, Self::BITS)
    }
}

// Format 1: a 12-bit index of the map.
#[derive(Clone, Copy)]
pub struct Index12;

impl PixelFormat for Index12 {
    ghost format = { FormatIndex12 };

    const BITS: u32 = 12;

    const RED: u32 = 0;

    const GREEN: u32 = 0;

    const BLUE: u32 = 0;

    ghost BITS = { 12 };

    ghost RED = { 0 };

    ghost GREEN = { 0 };

    ghost BLUE = { 0 };

    ghost listed = { Prim.search rules };
}

impl Index12 {
    // The map entry of a sample.
    pub fn map_entry(sample: u32) -> u32
        ensures { result ≡ value_of Format.Index12 sample }
    {
        words::bits(sample, 0, Self::BITS)
    }
}

// Format 2: RGB 3-3-2.
#[derive(Clone, Copy)]
pub struct Rgb332;

impl PixelFormat for Rgb332 {
    ghost format = { Format332 };

    const BITS: u32 = 8;

    const RED: u32 = 3;

    const GREEN: u32 = 3;

    const BLUE: u32 = 2;

    ghost BITS = { 8 };

    ghost RED = { 3 };

    ghost GREEN = { 3 };

    ghost BLUE = { 2 };

    ghost listed = { Prim.search rules };
}

impl RgbFormat for Rgb332 {
    ghost channels = { Prim.search rules };
}

// Format 3: RGB 4-4-4.
#[derive(Clone, Copy)]
pub struct Rgb444;

impl PixelFormat for Rgb444 {
    ghost format = { Format444 };

    const BITS: u32 = 12;

    const RED: u32 = 4;

    const GREEN: u32 = 4;

    const BLUE: u32 = 4;

    ghost BITS = { 12 };

    ghost RED = { 4 };

    ghost GREEN = { 4 };

    ghost BLUE = { 4 };

    ghost listed = { Prim.search rules };
}

impl RgbFormat for Rgb444 {
    ghost channels = { Prim.search rules };
}

// Format 4: RGB 5-5-5.
#[derive(Clone, Copy)]
pub struct Rgb555;

impl PixelFormat for Rgb555 {
    ghost format = { Format555 };

    const BITS: u32 = 15;

    const RED: u32 = 5;

    const GREEN: u32 = 5;

    const BLUE: u32 = 5;

    ghost BITS = { 15 };

    ghost RED = { 5 };

    ghost GREEN = { 5 };

    ghost BLUE = { 5 };

    ghost listed = { Prim.search rules };
}

impl RgbFormat for Rgb555 {
    ghost channels = { Prim.search rules };
}

// Format 5: RGB 8-8-8.
#[derive(Clone, Copy)]
pub struct Rgb888;

impl PixelFormat for Rgb888 {
    ghost format = { Format888 };

    const BITS: u32 = 24;

    const RED: u32 = 8;

    const GREEN: u32 = 8;

    const BLUE: u32 = 8;

    ghost BITS = { 24 };

    ghost RED = { 8 };

    ghost GREEN = { 8 };

    ghost BLUE = { 8 };

    ghost listed = { Prim.search rules };
}

impl RgbFormat for Rgb888 {
    ghost channels = { Prim.search rules };
}

// The bits of a format; an index has channels of 0 bits.
#[derive(Clone, Copy)]
pub struct Widths {
    // The bits of a sample.
    pub bits: u32,
    // The bits of its red, from bit 0 up.
    pub red: u32,
    // The bits of its green, above red.
    pub green: u32,
    // The bits of its blue, above green.
    pub blue: u32,
}

// How much of a pixel a format uses at a depth.
#[derive(Clone, Copy)]
pub enum Part {
    // Half of it, so that it has two buffers.
    Half,
    // All of it, as buffer 0.
    Whole,
    // The table doesn't list the format at the depth.
    Unlisted,
}

impl Part {
    // Whether the depth is one that the format has.
    pub fn has_depth(self) -> bool
        ensures { result ≡ has_depth self }
    {
        match self {
            Part::Half => true,
            Part::Whole => true,
            Part::Unlisted => false,
        }
    }

    // Whether a buffer is one that the format has: of a whole pixel there is buffer 0 alone.
    pub fn has_buffer(self, buffer: u32) -> bool
        ensures { result ≡ has_buffer self buffer }
    {
        match self {
            Part::Half => true,
            Part::Whole => buffer == 0,
            Part::Unlisted => false,
        }
    }
}

// The formats that the table lists.
#[derive(Clone, Copy)]
pub enum Format {
    // 0: an 8-bit index within a bank of the map.
    Index8,
    // 1: a 12-bit index of the map.
    Index12,
    // 2: RGB 3-3-2.
    Rgb332,
    // 3: RGB 4-4-4.
    Rgb444,
    // 4: RGB 5-5-5.
    Rgb555,
    // 5: RGB 8-8-8.
    Rgb888,
}

impl Format {
    // The format of an entry's number; a number above 5 names none.
    pub fn from_number(number: u32) -> Option<Self>
        ensures { result ≡ format_of_number number }
    {
        match number {
            0 => Some(Format::Index8),
            1 => Some(Format::Index12),
            2 => Some(Format::Rgb332),
            3 => Some(Format::Rgb444),
            4 => Some(Format::Rgb555),
            5 => Some(Format::Rgb888),
            _ => None,
        }
    }

    // The bits of the format.
    pub fn widths(self) -> Widths
        ensures { result ≡ widths_of self }
    {
        match self {
            Format::Index8 => Index8::widths(),
            Format::Index12 => Index12::widths(),
            Format::Rgb332 => Rgb332::widths(),
            Format::Rgb444 => Rgb444::widths(),
            Format::Rgb555 => Rgb555::widths(),
            Format::Rgb888 => Rgb888::widths(),
        }
    }

    // Whether a bank is one that the format has.
    pub fn has_bank(self, bank: u32) -> bool
        ensures { result ≡ has_bank self bank }
    {
        match self {
            Format::Index8 => bank <= Index8::LAST_BANK,
            Format::Index12 => true,
            Format::Rgb332 => true,
            Format::Rgb444 => true,
            Format::Rgb555 => true,
            Format::Rgb888 => true,
        }
    }

    // How much of a pixel the format uses at a depth: a half where its bits fit one, else the whole where they fit that.
    pub fn part(self, depth: u32) -> Part
        ensures { result ≡ part_at self depth }
    {
        let bits = self.widths().bits;
        match depth {
            16 | 32 => {
                if bits <= depth / 2 {
                    Part::Half
                } else if bits <= depth {
                    Part::Whole
                } else {
                    Part::Unlisted
                }
            }
            _ => Part::Unlisted,
        }
    }
}

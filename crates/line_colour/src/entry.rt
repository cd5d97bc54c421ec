// Window entries: what an entry says at a depth, and what a sample then shows.
ghost use Rattle.std.specs.Prelude.{◌≡◌};
ghost use Rattle.line_formats.specs.Table.{format_of_number};
ghost use Rattle.line_colour.specs.Entry.{format_of, low_of, defined_as, decoded};
ghost use Rattle.line_colour.specs.Shown.{shown_of};

use line_formats::{Format, Index8, Index12, Rgb332, Rgb444, Rgb555, Rgb888, RgbFormat};
use words::Rgb;

// What a defined entry says.
#[derive(Clone, Copy)]
pub struct WindowEntry {
    // The format of its pixels.
    pub format: Format,
    // The lowest bit of its buffer in a pixel: 0, or half the depth.
    pub low: u32,
    // The bank of the map that format 0 uses.
    pub bank: u8,
    // Whether its normal and overlay colours bypass gamma.
    pub bypass: bool,
    // Whether overlay is allowed over it.
    pub overlay: bool,
}

// What a sample shows.
#[derive(Clone, Copy)]
pub enum Shown {
    // The entry of the colour map with this number.
    MapEntry(u32),
    // A colour of its own.
    Colour(Rgb),
}

// The lowest bit of a buffer.
fn low_bit(depth: u32, buffer: u32) -> u32
    ensures { result ≡ low_of depth buffer }
{
    if buffer == 0 { 0 } else { depth / 2 }
}

// The format that an entry names, if any, whether the entry is defined or not.
pub fn format_of(entry: u32) -> Option<Format>
    ensures { result ≡ format_of_number (format_of entry) }
{
    Format::from_number(words::field(entry, 3, 1))
}

// What an entry says at a depth; none where a spare bit is set, or the format, depth, buffer or bank isn't listed.
#[tactic(auto, using(crate::proofs::Decode::spare_bits, crate::proofs::Decode::no_format, crate::proofs::Decode::no_depth, crate::proofs::Decode::no_buffer, crate::proofs::Decode::no_bank, crate::proofs::Decode::decoded_defined))]
pub fn decode(entry: u32, depth: u32) -> Option<WindowEntry>
    ensures { result ≡ decoded entry depth }
{
    let buffer = words::field(entry, 0, 0);
    let bank = words::field(entry, 8, 4);
    let spare = words::field(entry, 12, 11);
    if spare != 0 {
        return None;
    }
    let format = format_of(entry)?;
    let part = format.part(depth);
    if !part.has_depth() {
        return None;
    }
    if !part.has_buffer(buffer) {
        return None;
    }
    if !format.has_bank(bank) {
        return None;
    }
    Some(WindowEntry::of(format, entry, depth))
}

impl WindowEntry {
    // What an entry says at a depth, if it has this format and is defined there; neither is tested.
    pub fn of(format: Format, entry: u32, depth: u32) -> Self
        ensures { result ≡ defined_as entry depth format }
    {
        Self {
            format,
            low: low_bit(depth, words::field(entry, 0, 0)),
            bank: words::field(entry, 8, 4) as u8,
            bypass: words::field(entry, 9, 9) == 1,
            overlay: words::field(entry, 10, 10) == 1,
        }
    }

    // What a sample shows.
    pub fn shown(self, sample: u32) -> Shown
        ensures { result ≡ shown_of self sample }
    {
        let format = self.format;
        match format {
            Format::Index8 => Shown::MapEntry(Index8::map_entry(self.bank, sample)),
            Format::Index12 => Shown::MapEntry(Index12::map_entry(sample)),
            Format::Rgb332 => Shown::Colour(Rgb332::colour(sample)),
            Format::Rgb444 => Shown::Colour(Rgb444::colour(sample)),
            Format::Rgb555 => Shown::Colour(Rgb555::colour(sample)),
            Format::Rgb888 => Shown::Colour(Rgb888::colour(sample)),
        }
    }
}

// Runs in RGB: each colour is worked out for its pixel, in 4-4-4, 5-5-5 and 8-8-8 of its bytes as they are loaded, so that a turn of the loop does many pixels at once.
ghost use Rattle.std.specs.Prelude.{◌+◌, ◌*◌, ◌/◌, ◌%◌, ◌≤◌, ◌<◌, ◌≡◌, ◌⊎◌, length};
ghost use Rattle.words.specs.Bytes.{big_endian};
ghost use Rattle.words.specs.Channels.{word_of};
ghost use Rattle.line_formats.specs.Table.{colour_in_format};
ghost use Rattle.line_pixels.specs.Colour.{normal_at};
ghost use Rattle.line_pixels.specs.Source.{PlainReaches, Drawn};

use crate::bytes::{le16, le32};
use crate::rgb_332::colour_332;
use crate::runs::OneByOne;
use crate::source::Source;
use line_formats::Format;

// The colour in RGB 4-4-4 of two bytes, the first here the lowest: one product widens all channels.
fn word_444(half: u32) -> u32
    requires { half < 65536 }
    ensures { result ≡ word_of (colour_in_format Format.Rgb444 (half % 256 * 256 + half / 256)) }
{
    17 * (half / 256 % 16 * 65536 + half / 4096 * 256 + half % 16)
}

// The channels in RGB 5-5-5 of two bytes, the first here the lowest: each where the lowest bits of its byte stand in a colour.
fn spread_555(half: u32) -> u32
    requires { half < 65536 }
    ensures { result ≡ half / 256 % 32 * 65536 + (half % 4 * 8 + half / 8192) * 256 + half / 4 % 32 }
{
    half / 256 % 32 * 65536 + (half % 4 * 8 + half / 8192) * 256 + half / 4 % 32
}

// Three channels of five bits that stand so, all widened at once: the three top bits of each are repeated below it.
fn widened_5(spread: u32) -> u32
    requires { spread < 2097152 }
    ensures { result ≡ 8 * spread + (spread / 4 % 8 + spread / 1024 % 8 * 256 + spread / 262144 % 8 * 65536) }
{
    8 * spread + (spread / 4 % 8 + spread / 1024 % 8 * 256 + spread / 262144 % 8 * 65536)
}

// The colour in RGB 5-5-5 of two bytes, the first here the lowest.
fn word_555(half: u32) -> u32
    requires { half < 65536 }
    ensures { result ≡ word_of (colour_in_format Format.Rgb555 (half % 256 * 256 + half / 256)) }
{
    widened_5(spread_555(half))
}

// The colour in RGB 4-4-4 of the two bytes at a place.
fn colour_444(normal: &[u8], at: usize) -> u32
    requires { at + 2 ≤ length normal.now }
    ensures { result ≡ word_of (colour_in_format Format.Rgb444 (big_endian normal.now at 2)) }
{
    word_444(le16(normal, at))
}

// The colour in RGB 5-5-5 of the two bytes at a place.
fn colour_555(normal: &[u8], at: usize) -> u32
    requires { at + 2 ≤ length normal.now }
    ensures { result ≡ word_of (colour_in_format Format.Rgb555 (big_endian normal.now at 2)) }
{
    word_555(le16(normal, at))
}

// The colour in RGB 8-8-8 of the four bytes at a place: the channels stand as in a colour once the first byte is dropped.
fn colour_888(normal: &[u8], at: usize) -> u32
    requires { at + 4 ≤ length normal.now }
    ensures { result ≡ word_of (colour_in_format Format.Rgb888 (big_endian normal.now at 4)) }
{
    le32(normal, at) / 256
}

impl Source<'_> {
    // The normal colours of a run in RGB.
    pub(crate) fn fill_rgb(&self, x: usize, out: &mut [u32])
        requires { PlainReaches self.now (x + length out.old) × ((self.now.entry.format ≡ Format.Rgb332) ⊎ (self.now.entry.format ≡ Format.Rgb444) ⊎ (self.now.entry.format ≡ Format.Rgb555) ⊎ (self.now.entry.format ≡ Format.Rgb888)) }
        ensures { Drawn self.now (normal_at self.now.screen.depth self.now.entry) x out.old out.new }
    {
        match self.entry.format {
            Format::Rgb332 => {
                self.fill_held::<OneByOne, 1, _>(x, colour_332, out);
            }
            Format::Rgb444 => {
                self.fill_held::<OneByOne, 2, _>(x, colour_444, out);
            }
            Format::Rgb555 => {
                self.fill_held::<OneByOne, 2, _>(x, colour_555, out);
            }
            // RGB 8-8-8 is all that is left.
            Format::Rgb888 | Format::Index8 | Format::Index12 => {
                self.fill_held::<OneByOne, 4, _>(x, colour_888, out);
            }
        }
    }
}

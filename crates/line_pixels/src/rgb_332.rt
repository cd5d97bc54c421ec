// RGB 3-3-2: the colour of a sample, and those of all 256.
ghost use Rattle.std.specs.Prelude.{ℕ, ◌+◌, ◌*◌, ◌≤◌, ◌<◌, ◌≡◌, length, get_or};
ghost use Rattle.words.specs.Bytes.{big_endian};
ghost use Rattle.words.specs.Channels.{word_of};
ghost use Rattle.line_formats.specs.Table.{colour_in_format};

use crate::runs::{OneByOne, Stepping};
use crate::sums::sum_rows;
use line_formats::{Format, Rgb332, RgbFormat};

// The colour of the byte at a place.
pub(crate) fn colour_332(normal: &[u8], at: usize) -> u32
    requires { at + 1 ≤ length normal.now }
    ensures { result ≡ word_of (colour_in_format Format.Rgb332 (big_endian normal.now at 1)) }
{
    u32::from(Rgb332::colour(u32::from(normal[at])))
}

// The colours of all samples: the eight of red alone, each together with the 32 that have no red.
pub(crate) fn colours_332(colours: &mut [u32; 256])
    ensures { (sample : ℕ) → sample < 256 → get_or colours.new sample 0 ≡ word_of (colour_in_format Format.Rgb332 sample) }
{
    let mut reds = [0; 8];
    let mut others = [0; 32];
    OneByOne::fill(|red| u32::from(Rgb332::colour(red as u32)), &mut reds);
    OneByOne::fill(
        |other| u32::from(Rgb332::colour(8 * other as u32)),
        &mut others,
    );
    sum_rows(&reds, &others, colours);
}

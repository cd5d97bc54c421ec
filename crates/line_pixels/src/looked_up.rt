// Long runs whose samples have 8 bits: the colours of all 256 samples are made once, through gamma, and looked up for each pixel.
ghost use Rattle.std.specs.Prelude.{ℕ, ◌+◌, ◌≤◌, ◌<◌, ◌≡◌, ◌⊎◌, length, get_or};
ghost use Rattle.line_colour.specs.Shown.{shown_of};
ghost use Rattle.line_pixels.specs.Colour.{SaidAt, shown_colour};
ghost use Rattle.line_pixels.specs.Inner.{OverStore};
ghost use Rattle.line_pixels.specs.Source.{PlainReaches, PlainDrawn};

use crate::correction::correct;
use crate::mapped::map_colours;
use crate::rgb_332::colours_332;
use crate::runs::FourByFour;
use crate::source::Source;
use line_formats::{Format, Index8};

// The colour of the sample at a place.
fn colour_at(colours: &[u32; 256], normal: &[u8], at: usize) -> u32
    requires { at < length normal.now }
    ensures { result ≡ get_or colours.now (get_or normal.now at 0) 0 }
{
    colours[normal[at] as usize]
}

impl Source<'_> {
    // The normal colours of all 8-bit samples.
    fn normal_colours(&self, colours: &mut [u32; 256])
        requires { SaidAt self.now.screen.depth self.now.entry × ((self.now.entry.format ≡ Format.Index8) ⊎ (self.now.entry.format ≡ Format.Rgb332)) }
        ensures { (sample : ℕ) → sample < 256 → OverStore self.now.store.now (shown_colour (shown_of self.now.entry sample)) (get_or colours.new sample 0) }
    {
        match self.entry.format {
            Format::Rgb332 => colours_332(colours),
            // An 8-bit index is all that is left.
            Format::Index8 | Format::Index12 | Format::Rgb444 | Format::Rgb555 | Format::Rgb888 => {
                map_colours(self.store, Index8::map_entry(self.entry.bank, 0), colours);
            }
        }
    }

    // A plain run of 8-bit samples.
    pub(crate) fn fill_looked_up(&self, x: usize, out: &mut [u32])
        requires { PlainReaches self.now (x + length out.old) × ((self.now.entry.format ≡ Format.Index8) ⊎ (self.now.entry.format ≡ Format.Rgb332)) }
        ensures { PlainDrawn self.now x out.old out.new }
    {
        let mut colours = [0; 256];
        self.normal_colours(&mut colours);
        correct(self.store, self.entry.bypass, &mut colours);
        self.fill_held::<FourByFour, 1, _>(x, |normal, at| colour_at(&colours, normal, at), out);
    }
}

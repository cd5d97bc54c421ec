// Colours of the map: those of 256 entries, and runs of indices.
ghost use Rattle.std.specs.Prelude.{ℕ, ◌+◌, ◌≤◌, ◌<◌, ◌≡◌, ◌⊎◌, length, get_or};
ghost use Rattle.rules.specs.Rule.{get, value};
ghost use Rattle.chip_registers.specs.Blocks.{count};
ghost use Rattle.chip_registers.specs.Store.{store_length};
ghost use Rattle.line_pixels.specs.Cells.{map_entry};
ghost use Rattle.line_pixels.specs.Colour.{plain_at};
ghost use Rattle.line_pixels.specs.Inner.{OverStore, CountedFrom};
ghost use Rattle.line_pixels.specs.Source.{view_of, PlainReaches, PlainDrawn};
ghost use Rattle.line_formats.specs.Table.{widths_of};

use crate::index_12::is_index_12;
use crate::layers::{mapped, through_gamma};
use crate::lengths::SPLIT_WORDS;
use crate::runs::{OneByOne, Stepping};
use crate::source::Source;
use chip_registers::{Block, STORE_WORDS};
use line_colour::entry::WindowEntry;
use line_formats::{Format, Index8};

// The 256 colours of the map from entry `first` on.
pub(crate) fn map_colours(store: &[u32; STORE_WORDS], first: u32, colours: &mut [u32; 256])
    requires { first + 256 ≤ count Block.ColourMap }
    ensures { (k : ℕ) → k < 256 → OverStore store.now (get (map_entry (first + k))) (get_or colours.new k 0) }
{
    OneByOne::fill(|k| mapped(store, first + k as u32), colours);
}

// The map entry from which the indices under an entry are counted.
fn first_entry(entry: WindowEntry) -> u32
    requires { (entry.format ≡ Format.Index8) ⊎ (entry.format ≡ Format.Index12) }
    ensures { CountedFrom entry result }
{
    match entry.format {
        Format::Index12 => 0,
        // An 8-bit index is all that is left.
        Format::Index8 | Format::Rgb332 | Format::Rgb444 | Format::Rgb555 | Format::Rgb888 => {
            Index8::map_entry(entry.bank, 0)
        }
    }
}

impl Source<'_> {
    // The plain colour of a pixel whose index has so many bits and is counted from map entry `first`.
    fn indexed_at(&self, bits: u32, first: u32, x: usize) -> u32
        requires { PlainReaches self.now (x + 1) × (bits ≡ (widths_of self.now.entry.format).bits) × CountedFrom self.now.entry first }
        ensures { result ≡ value (view_of self.now) (plain_at self.now.screen.depth self.now.entry x) }
    {
        let index = self.sample_at(bits, x);
        through_gamma(
            self.store,
            self.entry.bypass,
            mapped(self.store, first + index),
        )
    }

    // A plain run of a few indices, pixel by pixel. How many bits they have and from where they are counted is looked up once.
    fn fill_few(&self, x: usize, out: &mut [u32])
        requires { PlainReaches self.now (x + length out.old) × ((self.now.entry.format ≡ Format.Index8) ⊎ (self.now.entry.format ≡ Format.Index12)) }
        ensures { PlainDrawn self.now x out.old out.new }
    {
        let bits = self.entry.format.widths().bits;
        let first = first_entry(self.entry);
        // A copy of its own, of which the loop need not read anything again.
        let source = *self;
        OneByOne::fill(|i| source.indexed_at(bits, first, x + i), out);
    }

    // A plain run of indices.
    pub(crate) fn fill_mapped(&self, x: usize, out: &mut [u32])
        requires { PlainReaches self.now (x + length out.old) × ((self.now.entry.format ≡ Format.Index8) ⊎ (self.now.entry.format ≡ Format.Index12)) }
        ensures { PlainDrawn self.now x out.old out.new }
    {
        let index_12 = is_index_12(self.entry.format);
        if index_12 && self.entry.bypass {
            self.fill_bypassed(x, out);
        } else if index_12 && SPLIT_WORDS <= out.len() {
            self.fill_corrected(x, out);
        } else {
            self.fill_few(x, out);
        }
    }
}

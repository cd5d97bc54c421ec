// Runs of pixels with one window entry, each filled into words that are lent from its first pixel on.
ghost use Rattle.std.specs.Prelude.{◌+◌, ◌≤◌, ◌≡◌, true, false, ◌⊎◌, length};
ghost use Rattle.rules.specs.Rule.{value};
ghost use Rattle.rules.specs.Lists.{filled};
ghost use Rattle.line_pixels.specs.Cells.{pixel_view};
ghost use Rattle.line_pixels.specs.Colour.{plain_at, under_cursor, colour_of_pixel};
ghost use Rattle.line_pixels.specs.Inner.{PixelsLent};
ghost use Rattle.line_pixels.specs.Source.{PlainReaches, PixelsReach, Drawn, PlainDrawn};

use crate::Screen;
use crate::correction::correct;
use crate::lengths::{LAYERED_RUN, PAIRED_RUN, shortest_looked_up};
use crate::paired::is_paired;
use crate::runs::{OneByOne, Stepping};
use crate::source::Source;
use crate::store::whole;
use line_colour::entry::WindowEntry;
use line_formats::Format;

// Whether the samples of a format are indices.
fn indexed(format: Format) -> bool
    ensures { (result ≡ true → (format ≡ Format.Index8) ⊎ (format ≡ Format.Index12)) × (result ≡ false → (format ≡ Format.Rgb332) ⊎ (format ≡ Format.Rgb444) ⊎ (format ≡ Format.Rgb555) ⊎ (format ≡ Format.Rgb888)) }
{
    matches!(format, Format::Index8 | Format::Index12)
}

// Whether the samples of a format have 8 bits.
fn samples_of_8(format: Format) -> bool
    ensures { result ≡ true → (format ≡ Format.Index8) ⊎ (format ≡ Format.Rgb332) }
{
    matches!(format, Format::Index8 | Format::Rgb332)
}

impl Source<'_> {
    // A run's colours where neither cursor nor overlay shows.
    fn fill_plain(&self, x: usize, out: &mut [u32])
        requires { PlainReaches self.now (x + length out.old) }
        ensures { PlainDrawn self.now x out.old out.new }
    {
        let entry = self.entry;
        if shortest_looked_up(entry.bypass) <= out.len() && samples_of_8(entry.format) {
            self.fill_looked_up(x, out);
        } else if PAIRED_RUN <= out.len() && is_paired(entry) {
            self.fill_paired(x, out);
        } else if indexed(entry.format) {
            self.fill_mapped(x, out);
        } else {
            self.fill_rgb(x, out);
            correct(self.store, entry.bypass, out);
        }
    }

    // A run, pixel by pixel.
    fn fill_pixels(&self, x: usize, out: &mut [u32])
        requires { PixelsReach self.now (x + length out.old) × (x + length out.old ≤ 65536) }
        ensures { Drawn self.now (colour_of_pixel self.now.screen self.now.entry) x out.old out.new }
    {
        OneByOne::fill(|i| self.colour_of_pixel(x + i), out);
    }

    // A run without the cursor: its plain colours, and overlay over them where it counts.
    fn fill_under_cursor(&self, x: usize, out: &mut [u32])
        requires { PixelsReach self.now (x + length out.old) }
        ensures { Drawn self.now (under_cursor self.now.screen self.now.entry) x out.old out.new }
    {
        self.fill_plain(x, out);
        if self.screen.overlay_counts(self.entry) {
            self.lay_overlay(x, out);
        }
    }

    // A run, layer by layer: what is under the cursor, and the cursor over it.
    fn fill_layers(&self, x: usize, out: &mut [u32])
        requires { PixelsReach self.now (x + length out.old) × (x + length out.old ≤ 65536) }
        ensures { Drawn self.now (colour_of_pixel self.now.screen self.now.entry) x out.old out.new }
    {
        self.fill_under_cursor(x, out);
        self.lay_cursor(x, out);
    }
}

impl Screen {
    // A run of so many pixels from x on.
    pub fn fill(
        self,
        entry: WindowEntry,
        store: &[u32],
        normal: &[u8],
        overlay: &[u8],
        x: usize,
        count: usize,
        out: &mut [u32],
    )
        requires { PixelsLent self entry store.now normal.now overlay.now (x + count) × (x + count ≤ 65536) × (count ≤ length out.old) }
        ensures { out.new ≡ filled (λ p. value (pixel_view store.now normal.now overlay.now) (colour_of_pixel self entry p)) x out.old count }
    {
        let source = Source {
            screen: self,
            entry,
            store: whole(store),
            normal,
            overlay,
        };
        let run = &mut out[..count];
        if count < LAYERED_RUN {
            source.fill_pixels(x, run);
        } else {
            source.fill_layers(x, run);
        }
    }
}

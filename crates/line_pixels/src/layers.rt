// The layers: normal, overlay and cursor, and gamma.
ghost use Rattle.std.specs.Prelude.{◌+◌, ◌*◌, ◌/◌, ◌^◌, ◌≤◌, ◌<◌, ◌≡◌, ◌⊎◌, length};
ghost use Rattle.rules.specs.Rule.{value};
ghost use Rattle.chip_registers.specs.Blocks.{count};
ghost use Rattle.chip_registers.specs.Store.{stored};
ghost use Rattle.line_pixels.specs.Cells.{pixel_word, pixel_view};
ghost use Rattle.line_pixels.specs.Colour.{cursor_skips_gamma, through_gamma, normal_at, plain_at, overlaid, overlay_counts, overlay_at, under_cursor, cursor_shown, colour_of_pixel};
ghost use Rattle.line_pixels.specs.Inner.{OverlayLent, OverStore};
ghost use Rattle.line_pixels.specs.Source.{view_of, PlainReaches, PixelsReach};
ghost use Rattle.line_formats.specs.Table.{widths_of};
ghost use Rattle.line_colour.specs.Shown.{sample_of};

use crate::Screen;
use crate::source::Source;
use crate::store::stored;
use chip_registers::{
    Block, COLOUR_MAP_START, GAMMA_MAP_END, GAMMA_MAP_START, Register, STORE_WORDS,
};
use line_colour::entry::{Shown, WindowEntry};
use words::Rgb;

// The map entry of overlay byte 0: the overlay colours stand from it on.
pub(crate) const OVERLAY_COLOURS: u32 = 4352;

// A pixel of the normal row, all bits of it.
pub(crate) fn pixel_word(depth: u32, normal: &[u8], x: usize) -> u32
    requires { ((depth ≡ 16) ⊎ (depth ≡ 32)) × ((x + 1) * (depth / 8) ≤ length normal.now) }
    ensures { result ≡ pixel_word depth normal.now x }
{
    if depth == 32 {
        return words::be32(normal, 4 * x);
    }
    words::be16(normal, 2 * x)
}

// A word of the colour map, 24 bits of it.
pub(crate) fn mapped(store: &[u32; STORE_WORDS], entry: u32) -> u32
    requires { entry < count Block.ColourMap }
    ensures { result ≡ stored store.now (record { block = Block.ColourMap; word = entry }) }
{
    store[COLOUR_MAP_START + entry as usize] % 16777216
}

// A colour through gamma, unless it skips it.
pub(crate) fn through_gamma(store: &[u32; STORE_WORDS], skips: bool, word: u32) -> u32
    ensures { OverStore store.now (through_gamma skips word) result }
{
    if skips {
        return word;
    }
    let corrected = line_colour::gamma::corrected(
        &store[GAMMA_MAP_START..GAMMA_MAP_END],
        Rgb::from(word),
    );
    u32::from(corrected)
}

impl Screen {
    // Whether overlay is looked at over a window entry: the control word and the entry both say so.
    pub(crate) fn overlay_counts(self, entry: WindowEntry) -> bool
        ensures { result ≡ overlay_counts self entry }
    {
        self.overlay && entry.overlay
    }

    // Whether a cursor colour over a window entry is shown as it is stored: each is.
    fn cursor_skips_gamma(self, entry: WindowEntry) -> bool
        ensures { result ≡ cursor_skips_gamma self entry }
    {
        true
    }
}

impl Source<'_> {
    // The sample of a pixel, of so many bits: the used bits of the chosen buffer.
    pub(crate) fn sample_at(&self, bits: u32, x: usize) -> u32
        requires { PlainReaches self.now (x + 1) × (bits ≡ (widths_of self.now.entry.format).bits) }
        ensures { (result ≡ sample_of self.now.entry (pixel_word self.now.screen.depth self.now.normal.now x)) × (result < 2 ^ bits) }
    {
        let pixel = pixel_word(self.screen.depth, self.normal, x);
        words::bits(pixel, self.entry.low, bits)
    }

    // The normal colour of a pixel.
    fn normal_at(&self, x: usize) -> u32
        requires { PlainReaches self.now (x + 1) }
        ensures { result ≡ value (view_of self.now) (normal_at self.now.screen.depth self.now.entry x) }
    {
        let bits = self.entry.format.widths().bits;
        match self.entry.shown(self.sample_at(bits, x)) {
            Shown::MapEntry(number) => mapped(self.store, number),
            Shown::Colour(colour) => u32::from(colour),
        }
    }

    // The colour of a pixel where neither cursor nor overlay shows.
    fn plain_at(&self, x: usize) -> u32
        requires { PlainReaches self.now (x + 1) }
        ensures { result ≡ value (view_of self.now) (plain_at self.now.screen.depth self.now.entry x) }
    {
        through_gamma(self.store, self.entry.bypass, self.normal_at(x))
    }

    // The colour of an overlay byte.
    pub(crate) fn overlay_shown(&self, byte: u8) -> u32
        ensures { result ≡ value (view_of self.now) (overlaid self.now.entry byte) }
    {
        through_gamma(
            self.store,
            self.entry.bypass,
            mapped(self.store, OVERLAY_COLOURS + u32::from(byte)),
        )
    }

    // The overlay byte of a pixel, 0 where overlay doesn't count.
    #[tactic(auto, unfolding(crate::specs::Colour::overlay_at))]
    fn overlay_at(&self, x: usize) -> u8
        requires { OverlayLent self.now.screen self.now.entry self.now.overlay.now (x + 1) }
        ensures { result ≡ value (view_of self.now) (overlay_at self.now.screen self.now.entry x) }
    {
        if self.screen.overlay_counts(self.entry) {
            return self.overlay[x];
        }
        0
    }

    // The colour of a pixel where the cursor doesn't show.
    #[tactic(auto, using(rules::proofs::Value::value_then), unfolding(crate::specs::Colour::under_cursor))]
    fn under_cursor(&self, x: usize) -> u32
        requires { PixelsReach self.now (x + 1) }
        ensures { result ≡ value (view_of self.now) (under_cursor self.now.screen self.now.entry x) }
    {
        let byte = self.overlay_at(x);
        if byte == 0 {
            return self.plain_at(x);
        }
        self.overlay_shown(byte)
    }

    // A cursor colour.
    pub(crate) fn cursor_shown(&self, number: u32) -> u32
        requires { (1 ≤ number) × (number < 4) }
        ensures { result ≡ value (view_of self.now) (cursor_shown self.now.screen self.now.entry number) }
    {
        let register = Register {
            block: Block::CursorColours,
            word: number - 1,
        };
        let colour = stored(self.store, register);
        through_gamma(
            self.store,
            self.screen.cursor_skips_gamma(self.entry),
            colour,
        )
    }

    // The colour of a pixel.
    #[tactic(auto, using(rules::proofs::Value::value_then), unfolding(crate::specs::Colour::colour_of_pixel))]
    pub(crate) fn colour_of_pixel(&self, x: usize) -> u32
        requires { PixelsReach self.now (x + 1) }
        ensures { result ≡ value (view_of self.now) (colour_of_pixel self.now.screen self.now.entry x) }
    {
        let number = self.cursor_at(x);
        if number == 0 {
            return self.under_cursor(x);
        }
        self.cursor_shown(number)
    }
}

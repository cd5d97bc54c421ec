// The cursor and the cross-hair.
ghost use Rattle.std.specs.Prelude.{◌+◌, ◌≤◌, ◌<◌, ◌≡◌, length};
ghost use Rattle.chip_registers.specs.Store.{store_length};
ghost use Rattle.line_pixels.specs.Cells.{glyph_cell};
ghost use Rattle.line_pixels.specs.Cursor.{cursor_at};
ghost use Rattle.line_pixels.specs.Inner.{Among, cursor_or};
ghost use Rattle.line_pixels.specs.Source.{view_of, Laid};
ghost use Rattle.rules.specs.Rule.{value};
ghost use Rattle.line_pixels.specs.Spans.{CommonSpan, NoneBeside};

use crate::Screen;
use crate::source::Source;
use crate::store::stored;
use chip_registers::{Block, Register, STORE_WORDS};
use std::ops::Range;

// The columns and the rows of the glyph.
const GLYPH_SIDE: usize = 32;

// The last column and the last row of the glyph.
const GLYPH_LAST: usize = 31;

// The cells in a word of the glyph.
const WORD_CELLS: usize = 16;

// The number in a cell of the glyph.
fn glyph_cell(store: &[u32; STORE_WORDS], row: usize, column: usize) -> u32
    requires { (row < 32) × (column < 32) }
    ensures { (result ≡ glyph_cell store.now row column) × (result < 4) }
{
    let register = Register {
        block: Block::CursorGlyph,
        word: (2 * row + column / WORD_CELLS) as u32,
    };
    let low = (30 - 2 * (column % WORD_CELLS)) as u32;
    words::bits(stored(store, register), low, 2)
}

// Whether a place is one of so many from first on.
fn among(place: usize, first: usize, count: usize) -> bool
    ensures { Among place first count result }
{
    first <= place && place - first < count
}

// The pixels of a run of so many from x on that are neither before one pixel nor behind another.
fn common_span(x: usize, count: usize, first: usize, last: usize) -> Range<usize>
    requires { count ≤ 65536 }
    ensures { CommonSpan x count first last result }
{
    if last < x {
        return 0..0;
    }
    let end = (last - x).saturating_add(1).min(count);
    first.saturating_sub(x).min(end)..end
}

impl Screen {
    // Where a cursor colour can show among so many pixels from x on.
    #[tactic(auto, unfolding(crate::specs::Cursor::cursor_at, crate::specs::Cursor::in_glyph, crate::specs::Cursor::on_cross_hair))]
    fn cursor_span(self, x: usize, count: usize) -> Range<usize>
        requires { x + count ≤ 65536 }
        ensures { NoneBeside self x count result }
    {
        if !self.cursor {
            return 0..0;
        }
        if self.crosshair {
            if self.y == self.cy {
                return 0..count;
            }
            return common_span(x, count, self.cx, self.cx);
        }
        if !among(self.cy, self.y, GLYPH_SIDE) {
            return 0..0;
        }
        common_span(x, count, self.cx.saturating_sub(GLYPH_LAST), self.cx)
    }
}

impl Source<'_> {
    // Which cursor colour shows at a pixel, 0 for none.
    #[tactic(auto, unfolding(crate::specs::Cursor::cursor_at, crate::specs::Cursor::in_glyph, crate::specs::Cursor::on_cross_hair))]
    pub(crate) fn cursor_at(&self, x: usize) -> u32
        ensures { (result ≡ value (view_of self.now) (cursor_at self.now.screen x)) × (result < 4) }
    {
        let screen = self.screen;
        if !screen.cursor {
            return 0;
        }
        if screen.crosshair {
            return u32::from(x == screen.cx || screen.y == screen.cy);
        }
        if !(among(screen.cx, x, GLYPH_SIDE) && among(screen.cy, screen.y, GLYPH_SIDE)) {
            return 0;
        }
        glyph_cell(
            self.store,
            GLYPH_LAST - (screen.cy - screen.y),
            GLYPH_LAST - (screen.cx - x),
        )
    }

    // The cursor colour of a pixel, or what is under it where none shows.
    #[tactic(auto, using(rules::proofs::Value::value_then), unfolding(crate::specs::Inner::cursor_or))]
    fn cursor_or(&self, x: usize, under: u32) -> u32
        ensures { result ≡ value (view_of self.now) (cursor_or self.now.screen self.now.entry x under) }
    {
        let number = self.cursor_at(x);
        if number == 0 {
            return under;
        }
        self.cursor_shown(number)
    }

    // The cursor over a run that is drawn already: only pixels at which it can show are looked at.
    pub(crate) fn lay_cursor(&self, x: usize, out: &mut [u32])
        requires { x + length out.old ≤ 65536 }
        ensures { Laid self.now (cursor_or self.now.screen self.now.entry) x out.old out.new }
    {
        let span = self.screen.cursor_span(x, out.len());
        for i in span.start..span.end {
            out[i] = self.cursor_or(x + i, out[i]);
        }
    }
}

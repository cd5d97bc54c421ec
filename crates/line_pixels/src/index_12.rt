// Runs of 12-bit indices: each is looked up in the map as it is loaded, and through gamma by three tables, four pixels a turn.
ghost use Rattle.std.specs.Prelude.{◌+◌, ◌*◌, ◌/◌, ◌%◌, ◌≤◌, ◌<◌, ◌≡◌, true, false, length};
ghost use Rattle.line_pixels.specs.Inner.{index_in, indexed_colour};
ghost use Rattle.line_pixels.specs.Source.{PlainReaches, PlainDrawn};

use crate::bytes::le16;
use crate::correction::GammaTables;
use crate::layers::mapped;
use crate::runs::FourByFour;
use crate::source::Source;
use chip_registers::STORE_WORDS;
use line_formats::Format;

// Whether the samples of a format are 12-bit indices.
pub(crate) fn is_index_12(format: Format) -> bool
    ensures { result ≡ true → format ≡ Format.Index12 }
{
    matches!(format, Format::Index12)
}

// A number of two bytes, with its bytes swapped. It stands alone, since it then becomes one step of the machine.
fn swapped(half: u32) -> u32
    requires { half < 65536 }
    ensures { result ≡ half % 256 * 256 + half / 256 }
{
    half % 256 * 256 + half / 256
}

// The 12-bit index in two bytes.
fn index_at(normal: &[u8], at: usize) -> u32
    requires { at + 2 ≤ length normal.now }
    ensures { (result ≡ index_in normal.now at) × (result < 4096) }
{
    swapped(le16(normal, at)) % 4096
}

// The colour of the index in two bytes.
fn colour_at(store: &[u32; STORE_WORDS], normal: &[u8], at: usize) -> u32
    requires { at + 2 ≤ length normal.now }
    ensures { result ≡ indexed_colour store.now normal.now at }
{
    mapped(store, index_at(normal, at))
}

impl Source<'_> {
    // A plain run of 12-bit indices past gamma.
    pub(crate) fn fill_bypassed(&self, x: usize, out: &mut [u32])
        requires { PlainReaches self.now (x + length out.old) × (self.now.entry.format ≡ Format.Index12) × (self.now.entry.bypass ≡ true) }
        ensures { PlainDrawn self.now x out.old out.new }
    {
        let store = self.store;
        self.fill_held::<FourByFour, 2, _>(x, |normal, at| colour_at(store, normal, at), out);
    }

    // A plain run of 12-bit indices through gamma.
    pub(crate) fn fill_corrected(&self, x: usize, out: &mut [u32])
        requires { PlainReaches self.now (x + length out.old) × (self.now.entry.format ≡ Format.Index12) × (self.now.entry.bypass ≡ false) }
        ensures { PlainDrawn self.now x out.old out.new }
    {
        let store = self.store;
        let tables = GammaTables::of(store);
        self.fill_held::<FourByFour, 2, _>(
            x,
            |normal, at| tables.through(colour_at(store, normal, at)),
            out,
        );
    }
}

// Entries rendered into lent bytes.
ghost use Rattle.std.specs.Prelude.{◌+◌, ◌*◌, ◌≤◌, ◌≡◌, length, take};
ghost use Rattle.session_listing.specs.Text.{entry_says};
ghost use Rattle.session_listing.specs.Room.{room_of, rendered};
ghost use Rattle.session_listing.specs.Inner.{Put, parts_text};

use crate::entry::ListingEntry;
use crate::parts::Parts;
use crate::pixel_lines::put_pixels;
use crate::put::put_parts;

// How many bytes a first line is granted, with its end.
pub const FIRST_LINE_ROOM: usize = 32;

// How many bytes a pixel has: six digits, and the line's end.
pub const PIXEL_ROOM: usize = 7;

// A first line and the pixels that follow it.
fn put_entry(parts: Parts, output: &[u32], lent: &mut [u8], at: usize) -> usize
    requires { (parts.pixels ≤ length output.now) × (at + room_of parts.pixels ≤ length lent.old) }
    ensures { Put lent.old at (parts_text parts (take parts.pixels output.now)) lent.new result }
{
    let last = put_parts(lent, at, parts);
    lent[last] = b'\n';
    put_pixels(lent, last + 1, &output[..parts.pixels])
}

// An entry's text from a place on, where there is room: the place behind its end. Without room nothing is put.
pub fn render(entry: ListingEntry, output: &[u32], text: &mut [u8], at: usize) -> Option<usize>
    ensures { (result, text.new) ≡ rendered (entry_says entry) output.now text.old at }
{
    let parts = Parts::of(entry, output.len());
    let room = text.len().checked_sub(at)?;
    if room < FIRST_LINE_ROOM + PIXEL_ROOM * parts.pixels {
        return None;
    }
    Some(put_entry(parts, output, text, at))
}

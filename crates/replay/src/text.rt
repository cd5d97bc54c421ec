// Text of the listing, which waits until it is written out.
ghost use Rattle.replay.specs.Inner.{AfterWriting};

use crate::course::{Course, Going};
use crate::streams::Streams;
use std::io;
use std::io::{ErrorKind, Write};
use std::rt::Stdout;

// Writes all of a text. A write that fails is not made again, even where it was only interrupted.
fn write_all(listing: &mut Stdout, text: &[u8]) -> io::Result<()> {
    let mut done = 0;
    while done < text.len() {
        let count = listing.write(&text[done..])?;
        if count == 0 {
            return Err(io::Error::from(ErrorKind::WriteZero));
        }
        done += count;
    }
    Ok(())
}

// Writes out the text up to a place. Answers whether all of it was written.
pub(crate) fn write_out(streams: &mut Streams, lines: &[u8], put: usize) -> bool {
    if put <= lines.len() {
        match write_all(&mut streams.listing, &lines[0..put]) {
            Ok(()) => return true,
            Err(error) => streams.fault = error,
        }
    }
    false
}

// Writes out the text that waits, and goes on so. Breaks off where not all of it could be written.
pub(crate) fn written(streams: &mut Streams, lines: &[u8], course: Course, going: Going) -> Course
    ensures { AfterWriting course going result }
{
    if write_out(streams, lines, course.put) {
        return course.written_out(going);
    }
    course.going_so(Going::Unwritten)
}

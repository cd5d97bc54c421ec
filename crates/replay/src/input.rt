// Bytes of a file, read into the input.
ghost use Rattle.std.specs.Prelude.{◌+◌, ◌^◌, ◌≤◌, ◌<◌, ◌≡◌, ◌⊎◌, IfOk, length, take};
ghost use Rattle.std.proofs.Math.Seq.{slice};
ghost use Rattle.replay.specs.Run.{to_front, taken_in, nothing_read, unread_in};
ghost use Rattle.replay.specs.Inner.{AfterReading};
ghost use Rattle.replay.specs.declared.course.Going.TheVariants.{On, Unread};

use crate::course::{Course, Going};
use crate::streams::{Source, Streams};
use std::io;
use std::io::ErrorKind;

// Moves the bytes from a place to an end to the front. Answers how many they are.
fn to_front(input: &mut [u8], from: usize, to: usize) -> usize
    requires { to ≤ length input.old }
    ensures { (result, input.new) ≡ to_front input.old (slice from to input.old) }
{
    if from == 0 {
        return to;
    }
    let start = from.min(to);
    input.copy_within(start..to, 0);
    to - start
}

// After a read of so many bytes behind those kept.
fn taken_in(course: Course, kept: usize, count: usize) -> Course
    requires { kept + count < 2 ^ 64 }
    ensures { result ≡ taken_in course kept count }
{
    Course {
        from: 0,
        to: kept + count,
        last: count == 0,
        put: course.put,
        going: Going::On,
    }
}

// Reads into the input behind the bytes kept. Answers how many bytes it put there.
fn read_behind(source: &mut Source, input: &mut [u8], kept: usize) -> io::Result<usize>
    requires { kept ≤ length input.old }
    ensures keeps { take kept input.new ≡ take kept input.old }
    ensures inside { IfOk result (λ count. kept + count ≤ length input.new) }
{
    source.read(&mut input[kept..])
}

// How a run goes on after a read that failed: one that was only interrupted is made again, since the bytes that wait are still too few.
fn going_unread(error: io::Error) -> Going
    ensures { (result ≡ On) ⊎ (result ≡ Unread) }
{
    if error.kind() == ErrorKind::Interrupted {
        return Going::On;
    }
    Going::Unread
}

// After a read that failed.
fn nothing_read(course: Course, kept: usize, going: Going) -> Course
    ensures { result ≡ nothing_read course kept going }
{
    Course {
        from: 0,
        to: kept,
        last: false,
        put: course.put,
        going,
    }
}

// Moves the bytes that wait to the front, and reads more behind them. Where none come, the file is at its end.
pub(crate) fn read_on(streams: &mut Streams, input: &mut [u8], course: Course) -> Course
    requires { (course.to ≤ length input.old) × (length (unread_in course input.old) < length input.old) }
    ensures { AfterReading course input.old result input.new }
{
    let kept = to_front(input, course.from, course.to);
    match read_behind(&mut streams.source, input, kept) {
        Ok(count) => taken_in(course, kept, count),
        Err(error) => {
            streams.fault = error;
            nothing_read(course, kept, going_unread(error))
        }
    }
}

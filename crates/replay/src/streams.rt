// What a run reads, and where its listing goes.
ghost use Rattle.std.specs.Io.{ReadsAtMost};

use std::fs::File;
use std::io;
use std::io::Read;
use std::rt::{Stdin, Stdout};

// Where a session comes from.
#[derive(Drop)]
pub(crate) enum Source {
    // Standard input.
    Input(Stdin),
    // An open file.
    File(File),
}

// The streams of a run, and the last error of a read or a write.
#[derive(Drop)]
pub(crate) struct Streams {
    // Where the session comes from.
    pub(crate) source: Source,
    // Where the listing goes.
    pub(crate) listing: Stdout,
    // Why a read or a write failed, where one did.
    pub(crate) fault: io::Error,
}

impl Source {
    // Reads once. Answers how many bytes it put there.
    pub(crate) fn read(&mut self, bytes: &mut [u8]) -> io::Result<usize>
        ensures { ReadsAtMost result bytes.new }
    {
        match self {
            Source::Input(input) => input.read(bytes),
            Source::File(file) => file.read(bytes),
        }
    }
}

// Lists the session files that the arguments name, one after the other, or standard input where there is no argument.
#![tactic(auto)]

mod course;
mod input;
mod messages;
mod run;
mod streams;
mod text;
mod turn;

use messages::tell;
use run::run_file;
use std::env::FillError;
use std::fs::File;
use std::io::ErrorKind;
use std::process::ExitCode;
use std::rt::Env;
use std::{io, str};
use streams::Source;

// How many bytes of a name are looked at: more than the system opens a file by.
const NAME_ROOM: usize = 4096;

// Linux's number for a name that is too long.
const NAME_TOO_LONG: i32 = 36;

// The exit status where the listing's reader went away: a shell's for a program that the closed pipe's signal ends.
const READER_GONE: u8 = 141;

// How many arguments there are, the program's own name among them.
fn arg_count(rt: &HostRuntime) -> usize {
    for number in 0..usize::MAX {
        let mut start = [0u8; 1];
        if let Err(FillError::NotPresent) = rt.arg(number, &mut start) {
            return number;
        }
    }
    usize::MAX
}

// Opens the file of a name. The library takes names of UTF-8 alone.
fn open_read(rt: &HostRuntime, name: &[u8]) -> io::Result<File> {
    match str::from_utf8(name) {
        Ok(path) => File::open(rt, path),
        Err(_) => Err(io::Error::new(ErrorKind::InvalidFilename, "The name is not UTF-8")),
    }
}

// The file of a name. Answers with the error by which no more can be written, where there is one.
fn run_named(rt: &HostRuntime, name: &[u8]) -> io::Result<()> {
    match open_read(rt, name) {
        Ok(file) => run_file(rt, Source::File(file), name),
        Err(error) => {
            tell(rt, name, error);
            Ok(())
        }
    }
}

// The file that an argument names. Answers with the error by which no more can be written, where there is one.
fn run_argument(rt: &HostRuntime, number: usize) -> io::Result<()> {
    let mut name = [0u8; NAME_ROOM];
    match rt.arg(number, &mut name) {
        Ok(length) => run_named(rt, &name[..length]),
        Err(_) => {
            tell(rt, &name, io::Error::from_raw_os_error(NAME_TOO_LONG));
            Ok(())
        }
    }
}

// The files that the arguments name, as long as more can be written.
fn run_arguments(rt: &HostRuntime, count: usize) -> io::Result<()> {
    for number in 1..count {
        run_argument(rt, number)?;
    }
    Ok(())
}

// All that is to be listed. Answers with the error by which no more can be written, where there is one.
fn run_all(rt: &HostRuntime) -> io::Result<()> {
    let count = arg_count(rt);
    if count < 2 {
        return run_file(rt, Source::Input(rt.stdin()), b"standard input");
    }
    run_arguments(rt, count)
}

// Says why no more can be written. Where the listing's reader went away there is nobody to tell.
fn end_unwritten(rt: &HostRuntime, error: io::Error) -> ExitCode {
    if error.kind() == ErrorKind::BrokenPipe {
        return ExitCode::from(READER_GONE);
    }
    tell(rt, b"standard output", error);
    ExitCode::SUCCESS
}

fn main(rt: HostRuntime) -> ExitCode {
    match run_all(&rt) {
        Ok(()) => ExitCode::SUCCESS,
        Err(error) => end_unwritten(&rt, error),
    }
}

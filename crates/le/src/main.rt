//! The program `le`: a document on standard input, a report on standard output.
#![tactic(auto)]

mod streams;

use std::env;
use std::io::ErrorKind;
use std::process::ExitCode;
use streams::{StreamSink, StreamSource};

/// The status where memory for the words of the command line isn't found.
const NO_MEMORY: u8 = 7;

/// The status where the system doesn't give the words of the command line.
const NO_WORDS: u8 = 11;

fn main(rt: HostRuntime) -> ExitCode {
    let words = match env::args(&rt) {
        Ok(words) => words,
        Err(error) if error.kind() == ErrorKind::OutOfMemory => return ExitCode::from(NO_MEMORY),
        Err(_) => return ExitCode::from(NO_WORDS),
    };
    let Ok(words) = words.skip(1).collect::<Vec<String>>(rt.alloc()) else {
        return ExitCode::from(NO_MEMORY);
    };
    let mut input = StreamSource::new(rt.stdin());
    let mut output = StreamSink::new(rt.stdout());
    let status = le_tool::run(rt.alloc(), &words, &mut input, &mut output);
    ExitCode::from(status)
}

//! The program: words and files in, a report and one line of refusal out.
#![tactic(auto)]

use arc_io::{ErrSink, FileShelf, OutSink};
use arc_program::run;
use std::process::ExitCode;
use std::{env, io};

/// The status where the words of the command line could not be had.
const NO_WORDS: u8 = 10;

/// The status where no memory was left for them.
const NO_MEMORY: u8 = 7;

fn words_of_command_line(rt: &HostRuntime) -> io::Result<Vec<String>> {
    let mut words = Vec::new(rt.alloc());
    for word in env::args(rt)?.skip(1) {
        words.push(word)?;
    }
    Ok(words)
}

fn main(rt: HostRuntime) -> ExitCode {
    let words = match words_of_command_line(&rt) {
        Ok(words) => words,
        Err(error) if error.kind() == io::ErrorKind::OutOfMemory => {
            return ExitCode::from(NO_MEMORY);
        }
        Err(_) => return ExitCode::from(NO_WORDS),
    };
    let mut shelf = FileShelf::new(&rt, rt.alloc());
    let mut out = OutSink::new(&rt, rt.alloc());
    let mut err = ErrSink::new(&rt, rt.alloc());
    let mut made = None;
    let status = run(
        &rt,
        rt.alloc(),
        words.as_slice(),
        &mut shelf,
        &mut out,
        &mut err,
        &mut made,
    );
    ExitCode::from(status.code())
}

//! The program: `run` over real files and the standard streams.
#![tactic(auto)]

use exchange_cli::{end_without_memory, run};
use shelf_core::{FileShelf, StdSink};
use std::io::ErrorKind;
use std::process::ExitCode;
use std::rt::Env;
use std::{env, io};

fn main(rt: HostRuntime) -> ExitCode {
    let mut out = StdSink::new(rt.stdout());
    let mut err = StdSink::new(rt.stderr());
    let mut shelf = FileShelf::new(&rt);
    let words = match words_of(&rt) {
        Ok(words) => words,
        Err(error) if error.kind() == ErrorKind::OutOfMemory => {
            return ExitCode::from(end_without_memory(&mut err));
        }
        // A word is no text, so the words are no command's.
        Err(_) => Vec::new(rt.alloc()),
    };
    ExitCode::from(run(rt.alloc(), &words, &mut shelf, &mut out, &mut err))
}

// The words after the program's name.
fn words_of(rt: &(impl Env + AllocGlobal)) -> io::Result<Vec<String>> {
    let mut words = Vec::new(rt.alloc());
    for word in env::args(rt)?.skip(1) {
        words.push(word)?;
    }
    Ok(words)
}

//! The program `uvl MODEL < SCRIPT`: the top call over the files of the host, standard input and
//! standard output.
#![tactic(auto)]

use std::alloc::AllocError;
use std::env;
use std::io::ErrorKind;
use std::process::ExitCode;
use uvl_outside::{HostFiles, StdSink, StdSource};
use uvl_run::{Status, run};

fn main(rt: HostRuntime) -> ExitCode {
    let status = match words(&rt) {
        Ok(words) => answer(rt, &words),
        Err(AllocError) => Status::NoMemory,
    };
    ExitCode::from(status.number())
}

/// The words behind the program's name. Where one of them is no UTF-8 there are none, and none are
/// refused like any other words that name no model.
fn words(rt: &HostRuntime) -> Result<Vec<String>, AllocError> {
    let mut words = Vec::new(rt.alloc());
    match env::args(rt) {
        Ok(arguments) => {
            for word in arguments.skip(1) {
                words.push(word)?;
            }
        }
        Err(error) if error.kind() == ErrorKind::OutOfMemory => return Err(AllocError),
        Err(_) => {}
    }
    Ok(words)
}

fn answer(rt: HostRuntime, words: &[String]) -> Status {
    let Ok(words) = lent(rt, words) else {
        return Status::NoMemory;
    };
    let mut files = HostFiles::new(rt);
    let mut input = StdSource::new(rt.stdin());
    let mut out = StdSink::new(rt.stdout());
    run(rt.alloc(), &words, &mut files, &mut input, &mut out)
}

/// The words, lent as texts.
fn lent(rt: HostRuntime, words: &[String]) -> Result<Vec<&str>, AllocError> {
    words.iter().map(|word| word.as_str()).collect(rt.alloc())
}

//! The program `pbgl`: the words of the command line, the system's files and streams, and one call.
#![tactic(auto)]

use pg_base::{OpenGate, Status};
use pg_outside::{FileInputs, StdSink};
use pg_top::command;
use std::alloc::{AllocError, Global};
use std::env;
use std::io::ErrorKind;
use std::process::ExitCode;

/// Ends with the number of the status that [`command`] answers, and with that of `NoMemory` where there
/// is no memory for the words.
fn main(rt: HostRuntime) -> ExitCode {
    let Ok(words) = words(&rt) else {
        return ExitCode::from(Status::NoMemory.number());
    };
    let mut out = StdSink::output(rt.stdout());
    let mut errs = StdSink::errors(rt.stderr());
    let alloc = rt.alloc();
    let mut inputs = FileInputs::new(rt);
    let answer = command(
        &rt,
        alloc,
        &words,
        &mut inputs,
        &mut out,
        &mut errs,
        &OpenGate,
    );
    ExitCode::from(answer.status.number())
}

/// The words after the program's name. Words that are no text are as none: no command line has them.
fn words(rt: &HostRuntime) -> Result<Vec<String>, AllocError> {
    let mut words = Vec::new(rt.alloc());
    match env::args(rt) {
        Ok(args) => {
            for word in args.skip(1) {
                words.push(word)?;
            }
        }
        Err(error) if error.kind() == ErrorKind::InvalidData => {}
        Err(_) => return Err(AllocError),
    }
    Ok(words)
}

//! The program: it makes the real folder and standard output, and ends with the number of the check's status.
#![tactic(auto)]

use lrat_check::lrat_run;
use rsfq_outside::{DiskFolder, Status, StdoutSink};
use std::io::ErrorKind;
use std::process::ExitCode;
use std::{env, io};

/// The exit number where the system does not give the words, for another cause than memory.
const NO_WORDS: u8 = 7;

// The arguments without the program's own name.
fn given_words(rt: &HostRuntime) -> io::Result<Vec<String>> {
    Ok(env::args(rt)?.skip(1).collect(rt.alloc())?)
}

// Checks with the real objects, and answers the exit number.
fn check(rt: &HostRuntime) -> u8 {
    let words = match given_words(rt) {
        Ok(words) => words,
        Err(error) => {
            return match error.kind() {
                ErrorKind::OutOfMemory => Status::Memory.exit_number(),
                _ => NO_WORDS,
            };
        }
    };
    let mut folder = DiskFolder::new(rt.alloc(), rt);
    let mut out = StdoutSink::new(rt);
    lrat_run(rt.alloc(), &words, &mut folder, &mut out).exit_number()
}

fn main(rt: HostRuntime) -> ExitCode {
    ExitCode::from(check(&rt))
}

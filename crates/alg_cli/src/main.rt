//! The program `alg`: reads a file of declarations and goals, answers each goal, and writes the file
//! back with its answers; or reads a file with answers, and reports on each. Nothing stands above this
//! crate: `top::run` is what the program does. `specs/Commands.antt` says what the words ask for,
//! `specs/Replies.antt` what is replied, `specs/Checked.antt` what reports say, and `specs/Runs.antt`
//! what a run writes and what its status says of that.
#![tactic(auto)]

mod checked;
pub mod command;
pub mod laws;
mod load;
pub mod status;
#[cfg(test)]
mod tests;
pub mod top;

use alg_outside::{StdSink, StdSource};
use alg_universe::Rats;
use std::process::ExitCode;
use std::{env, io};

/// The words after the program's name. Fails where one of them is no text, or there is no memory.
fn words_of(rt: &HostRuntime) -> io::Result<Vec<String>> {
    let mut words = Vec::new(rt.alloc());
    for word in env::args(rt)?.skip(1) {
        words.push(word)?;
    }
    Ok(words)
}

fn main(rt: HostRuntime) -> ExitCode {
    let words = match words_of(&rt) {
        Ok(words) => words,
        // A word that is no text is none that `run` knows.
        Err(error) if error.kind() == io::ErrorKind::InvalidData => Vec::new(rt.alloc()),
        Err(_) => return ExitCode::from(status::Status::NoMemory.code()),
    };
    let mut source = StdSource::new(rt.reader());
    let mut sink = StdSink::new(io::writer(&rt));
    let status = top::run::<Rats, _, _>(rt.alloc(), words.as_slice(), &mut source, &mut sink);
    ExitCode::from(status.code())
}

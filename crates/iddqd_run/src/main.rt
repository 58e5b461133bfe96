//! Runs the lines of commands on standard input on a map, and writes the line of each reply to standard output.
#![tactic(auto)]

#[cfg(test)]
mod tests;

use iddqd_text::from_read::FromRead;
use iddqd_text::outcome::{asked, ending};
use iddqd_text::run::run_text;
use iddqd_text::to_write::ToWrite;
use std::process::ExitCode;
use std::{env, io};

/// The exit status is 0 if each line was run, 1 at a fault, and 2 if a line is malformed or the arguments do not name
/// one kind.
fn main(rt: HostRuntime) -> ExitCode {
    let (status, message) = match asked(arguments(&rt)) {
        Err(fault) => ending(&Err(fault)),
        Ok(None) => (2, "usage: iddqd_run bi|tri"),
        Ok(Some(kind)) => {
            let mut source = FromRead::new(rt.stdin());
            let mut out = ToWrite::new(rt.stdout());
            ending(&run_text(rt.alloc(), kind, &mut source, &mut out))
        }
    };
    if !message.is_empty() {
        // If writing to standard error fails too, the exit status alone can say what happened.
        let _ = eprintln!(rt; "{message}");
    }
    ExitCode::from(status)
}

/// Returns the arguments after the program's name. It fails if one is not UTF-8, or if memory runs out.
fn arguments(rt: &HostRuntime) -> io::Result<Vec<String>> {
    let mut arguments = Vec::new(rt.alloc());
    for argument in env::args(rt)?.skip(1) {
        arguments.push(argument)?;
    }
    Ok(arguments)
}

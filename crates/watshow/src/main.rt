//! The program `watshow MODE`: reads a text from standard input, and lists its value on standard
//! output.
#![tactic(auto)]

use std::io::Write;
use std::process::ExitCode;
use std::rt::Env;
use std::{env, io};
use wat_show::{Mode, RunError, Watched, run};

/// The message for arguments that name no mode.
const USAGE: &str = "usage: watshow functype|expr|folded|module";

/// The mode that the only argument names, or None for other arguments.
fn mode_of_arguments(rt: &(impl Env + Alloc)) -> io::Result<Option<Mode>> {
    let mut words = env::args(rt)?.skip(1);
    let word = match words.next() {
        Some(word) => word,
        None => return Ok(None),
    };
    if words.next().is_some() {
        return Ok(None);
    }
    Ok(Mode::of(word.as_str()))
}

/// Prints a message on standard error, and returns the status 2.
fn say(rt: &impl Eprint, words: &str) -> ExitCode {
    let _ = eprintln!(rt; "{words}");
    ExitCode::from(2)
}

/// Prints on standard error why there is no listing, and returns the status 2.
fn failed(rt: &impl Eprint, error: RunError) -> ExitCode {
    let _ = eprintln!(rt; "watshow: {error}");
    ExitCode::from(2)
}

fn main(rt: HostRuntime) -> ExitCode {
    let mode = match mode_of_arguments(&rt) {
        Ok(Some(mode)) => mode,
        Err(error) if error.kind() == io::ErrorKind::OutOfMemory => {
            return failed(&rt, RunError::Memory);
        }
        Ok(None) | Err(_) => return say(&rt, USAGE),
    };
    let mut reader = Watched::new(rt.stdin());
    let mut writer = Watched::new(rt.stdout());
    match run(rt.alloc(), mode, &mut reader, &mut writer) {
        Ok(status) => match writer.flush() {
            Ok(()) => ExitCode::from(status),
            Err(_) => failed(&rt, RunError::Write),
        },
        Err(error) => failed(&rt, error),
    }
}

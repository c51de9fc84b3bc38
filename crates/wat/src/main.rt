//! The program `wat`: checks, lists, prints and formats texts in the WebAssembly text format.
#![tactic(auto)]

mod command;
mod diff;
mod directory;
mod formatting;
mod help;
mod hint;
mod paint;
mod reading;
mod replace;
mod report;
mod run;
mod source;
mod terminal;

use crate::command::{
    Color, Command, Message, check_task, command_of, inputs_of, is_option, joined, stdin_name,
    takes_value,
};
use crate::directory::{Found, Wanted, inputs_found};
use crate::formatting::Formatting;
use crate::help::{USAGE, help_of};
use crate::hint::meant_command;
use crate::reading::{Options, Reading};
use crate::run::{Work, run};
use crate::source::SystemInputs;
use crate::terminal::Terminal;
use std::alloc::AllocError;
use std::io::{IsTerminal, Write};
use std::process::ExitCode;
use std::rt::Env;
use std::{env, io};
use wat_answers::{Task, VERSION};
use wat_show::Watched;

const NO_MEMORY: &str = "wat: memory ran out\n";

const CANNOT_WRITE: &str = "wat: cannot write\n";

/// Returns the arguments after the program's name.
fn arguments<R: Env + AllocGlobal>(rt: &R) -> io::Result<Vec<String>> {
    let mut words = Vec::new(rt.alloc());
    for word in env::args(rt)?.skip(1) {
        words.push(word)?;
    }
    Ok(words)
}

/// Prints an error on standard error. Returns status 2.
fn fail(rt: &HostRuntime, error: &str) -> ExitCode {
    let _ = eprint!(rt; "{error}");
    ExitCode::from(2)
}

/// Prints what is wrong with the arguments, and the usage, on standard error. Returns status 2.
fn refuse(rt: &HostRuntime, reason: &str, word: &str) -> ExitCode {
    let _ = eprint!(rt; "wat: {reason}{word}\n{USAGE}");
    ExitCode::from(2)
}

/// Prints that a command is unknown, which command may be meant, and the usage, on standard error.
/// Returns status 2.
fn refuse_command(rt: &HostRuntime, word: &str) -> ExitCode {
    match meant_command(rt.alloc(), word) {
        Ok(Some(meant)) => {
            let _ = eprint!(rt;
                "wat: unknown command {word}\nhint: did you mean `{meant}`?\n{USAGE}"
            );
            ExitCode::from(2)
        }
        _ => refuse(rt, "unknown command ", word),
    }
}

/// Prints two texts on standard output.
fn print(rt: &HostRuntime, text: &str, more: &str) -> ExitCode {
    match print!(rt; "{text}{more}") {
        Ok(()) => ExitCode::SUCCESS,
        Err(_) => fail(rt, CANNOT_WRITE),
    }
}

/// Prints the message, or what is wrong with the arguments.
fn print_message(rt: &HostRuntime, message: Message, words: &[String]) -> ExitCode {
    let index = match message {
        Message::UnknownOption(at) => at.saturating_add(1),
        _ => 0,
    };
    let word = words.get(index).map_or("", |word| word.as_str());
    match message {
        Message::Help(topic) => {
            let (text, more) = help_of(topic);
            print(rt, text, more)
        }
        Message::Version => print(rt, VERSION, "\n"),
        Message::NoCommand => refuse(rt, "no command", ""),
        Message::UnknownCommand if !is_option(word) => refuse_command(rt, word),
        Message::UnknownOption(_) if takes_value(word) => refuse(rt, "no value after ", word),
        Message::UnknownCommand | Message::UnknownOption(_) => refuse(rt, "unknown option ", word),
    }
}

/// Does the work on the inputs, and writes the output for each to standard output.
fn work_on<J: Work + Drop>(
    rt: &HostRuntime,
    work: J,
    found: &Found,
    watcher: &mut Terminal,
) -> ExitCode {
    let mut work = work;
    let mut writer = Watched::new(rt.stdout());
    match run(rt.alloc(), &mut work, &found.names, &mut writer, watcher) {
        Ok(status) => match writer.flush() {
            Ok(()) => {
                watcher.end(found.names.len());
                ExitCode::from(if found.is_whole { status } else { 2 })
            }
            Err(_) => fail(rt, CANNOT_WRITE),
        },
        Err(_) => fail(rt, CANNOT_WRITE),
    }
}

/// Finds the inputs of a command that the arguments after it name.
fn find_inputs(
    rt: &HostRuntime,
    command: Command,
    words: &[String],
    watcher: &Terminal,
) -> Result<Found, AllocError> {
    let names = inputs_of(rt.alloc(), words)?;
    match command {
        Command::Checks(_) => inputs_found(rt, Wanted::Wat, names, watcher),
        Command::Lists | Command::Prints(_) => Ok(Found {
            names,
            is_whole: true,
        }),
        Command::Formats(_) => inputs_found(rt, Wanted::WatAndWast, names, watcher),
    }
}

/// Returns whether a command's reports have colors.
fn has_colors(rt: &HostRuntime, command: Command) -> bool {
    let Command::Checks(options) = command else {
        return false;
    };
    match options.color {
        Color::Always => true,
        Color::Never => false,
        Color::Auto => {
            rt.stdout().is_terminal()
                && env::var(rt, "NO_COLOR").map_or(true, |value| value.is_empty())
        }
    }
}

/// Runs a command with the arguments after it.
fn run_command(rt: &HostRuntime, command: Command, words: &[String]) -> ExitCode {
    let stdin = stdin_name(words);
    let mut watcher = Terminal::new(rt);
    let found = match find_inputs(rt, command, words, &watcher) {
        Ok(found) => found,
        Err(AllocError) => return fail(rt, NO_MEMORY),
    };
    let sources = SystemInputs { rt };
    let task = match command {
        Command::Checks(options) => check_task(options),
        Command::Lists => Task::Listing,
        Command::Prints(layout) => Task::Print(layout),
        Command::Formats(mode) => {
            let inputs = sources;
            let work = Formatting {
                mode,
                inputs,
                stdin,
            };
            return work_on(rt, work, &found, &mut watcher);
        }
    };
    let color = has_colors(rt, command);
    let options = Options { task, color };
    let work = Reading {
        options,
        sources,
        stdin,
    };
    work_on(rt, work, &found, &mut watcher)
}

fn main(rt: HostRuntime) -> ExitCode {
    let words = match arguments(&rt) {
        Ok(words) => words,
        Err(error) if error.kind() == io::ErrorKind::OutOfMemory => return fail(&rt, NO_MEMORY),
        Err(_) => return fail(&rt, "wat: an argument isn't UTF-8\n"),
    };
    let words = match joined(rt.alloc(), &words) {
        Ok(words) => words,
        Err(AllocError) => return fail(&rt, NO_MEMORY),
    };
    match command_of(&words) {
        Ok(command) => run_command(&rt, command, words.get(1..).unwrap_or(&[])),
        Err(message) => print_message(&rt, message, &words),
    }
}

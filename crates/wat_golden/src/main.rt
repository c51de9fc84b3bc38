//! A table of tests: reads rows `KIND | TEXT` from standard input, one per line, parses the text of
//! each, and prints the result. The expected results are this crate's `stdout`.
//!
//! The result of a row is the row, and below it lines of these forms:
//!
//! - `= VALUE`: the value of the text, as Debug prints it, or a summary of the value; for a
//!   repetition, the numbers of members with which it was parsed;
//! - `! FAULT at OFFSET`: the error of the text, with its offset in bytes; `! REASON`: the reason why
//!   a value can't be printed;
//! - `> TEXT`: the value printed on one line; `: LINE`: each line of the value printed on more than
//!   one line;
//! - `- LINE`: a line of a report, or of the output of the program;
//! - `? WORDS`: a failure, for example a printed text that doesn't parse back to the value.
//!
//! In a text, `␊` is a line feed and `␍` a carriage return. The kind of a row may be followed by
//! words: `plain` (no annotation is known), `spans` (the spans of instructions are kept), `times` (a
//! repetition, see the module `repeated`), and a number, if the kind takes one. A line that isn't a
//! row is copied to the output.
//!
//! A kind is a type, or one of `peek`, `values`, `signatures`, `section`, `pushed`, `regrouped`,
//! `names`, `report`, `show`, `line` and `nearest`, whose results are more than a value: their modules
//! describe them.
#![tactic(auto)]

mod copies;
mod fields;
mod instruction;
mod links;
mod names;
mod operand;
mod operands;
mod printers;
mod readers;
mod repeated;
mod row;
mod texts;
mod tokens;
mod types;

use crate::row::{Row, characters};
use bumpalo::Bump;
use std::alloc::{AllocError, Global};
use std::io;
use std::process::ExitCode;

/// Adds the result of a row of any kind.
fn add_row(out: &mut String, row: &Row<'_>) -> Result<(), AllocError> {
    let found = tokens::add_row(out, row)?
        || types::add_row(out, row)?
        || operands::add_row(out, row)?
        || instruction::add_row(out, row)?
        || links::add_row(out, row)?
        || fields::add_row(out, row)?
        || names::add_row(out, row)?
        || texts::add_row(out, row)?;
    if !found {
        out.push_str("? there is no such kind\n")?;
    }
    Ok(())
}

/// Adds a line, and its result if it is a row.
fn add_line(out: &mut String, line: &str) -> Result<(), AllocError> {
    out.push_str(line)?;
    out.push_str("\n")?;
    let Some((kind, text)) = line.split_once(" | ") else {
        return Ok(());
    };
    let alloc = *out.allocator();
    let arena = Bump::new(alloc);
    let text = characters(alloc, text, &arena)?;
    add_row(out, &Row::of(alloc, kind, text, &arena))
}

/// Returns the results of all lines.
fn answers(alloc: Global, lines: &str) -> Result<String, AllocError> {
    let mut out = String::new(alloc);
    for line in lines.lines() {
        add_line(&mut out, line)?;
    }
    Ok(out)
}

fn main(rt: HostRuntime) -> ExitCode {
    let Ok(lines) = io::read_to_string(rt.alloc(), rt.stdin()) else {
        return ExitCode::from(2);
    };
    match answers(rt.alloc(), &lines) {
        Ok(out) => match print!(rt; "{out}") {
            Ok(()) => ExitCode::SUCCESS,
            Err(_) => ExitCode::from(2),
        },
        Err(AllocError) => ExitCode::from(2),
    }
}

//! Compares the parser with the plain programs of `wat_plain`, for words and for texts.
//!
//! **Words.** `find` and `find_by_list` look up each mnemonic, three words that are one letter off
//! it, and some other words.
//!
//! **Texts.** Rows are lines `KIND | TEXT` of standard input, as `wat_golden` reads them. The text of
//! an instruction or an expression is parsed as an expression, and read by `read_items`. The text of
//! a folded instruction is parsed as `FoldedInstruction`, and read by `read_folded`. Instructions,
//! hints and refusals are compared; spans, faults and offsets aren't. A row whose kind is followed by
//! `times` is left out.
//!
//! The plain programs take from the parser:
//!
//! - the words of the instructions: the table `OPS`;
//! - tokens: the lexer cuts the text, and a `Parser` hides groups of unknown annotations, takes
//!   single tokens and looks at the next ones;
//! - instructions with their operands: `Instruction::parse` reads each, and `is_block`, `is_if` and
//!   `is_br_if` return its kind.
//!
//! They do by themselves: search the table entry by entry; read items, groups, arms and hints, each
//! by a recursive call; refuse what isn't such a list; put instructions into flat order with `else`
//! and `end`; count the index of each hint. Instructions are compared by the texts that the printer
//! returns. So a mistake of the lexer, of `Parser`, of `Instruction::parse` or of the printer isn't
//! found here.
//!
//! The program prints each word and each row for which the two differ after a `?`. Last it prints how
//! many words both find, how many neither finds, how many texts both accept and how many both refuse.
#![tactic(auto)]

mod texts;
mod words;

use crate::texts::{Kind, Outcome, Text};
use crate::words::compared;
use bumpalo::Bump;
use std::alloc::Global;
use std::io;
use std::process::ExitCode;
use wat_tokens::{Parser, Result};

/// The numbers of texts that were compared.
#[derive(Clone, Copy)]
struct Totals {
    /// Both accept the text.
    accepted: usize,
    /// Both refuse the text.
    refused: usize,
}

/// Returns what a text of this kind is read as, or None if such texts aren't compared.
fn kind_of(kind: &str) -> Option<Kind> {
    match kind {
        "instruction" | "expression" | "regrouped" => Some(Kind::Expression),
        "folded" => Some(Kind::Folded),
        _ => None,
    }
}

/// Returns the text with line feeds and carriage returns in place of their signs.
fn characters<'a>(alloc: Global, text: &str, arena: &'a Bump) -> Result<&'a str> {
    let mut out = String::new(alloc);
    for character in text.chars() {
        match character {
            '␊' => out.push('\n')?,
            '␍' => out.push('\r')?,
            other => out.push(other)?,
        }
    }
    let text: &'a str = arena.try_alloc_str(&out)?;
    Ok(text)
}

/// Compares a line if it is a row, and adds it to the output if the results differ.
fn add_line(out: &mut String, totals: &mut Totals, line: &str) -> Result<()> {
    let Some((kind, text)) = line.split_once(" | ") else {
        return Ok(());
    };
    let (kind, words) = kind.split_once(' ').unwrap_or((kind, ""));
    if words == "times" {
        return Ok(());
    }
    let Some(kind) = kind_of(kind) else {
        return Ok(());
    };
    let alloc = *out.allocator();
    let arena = Bump::new(alloc);
    let text = Text {
        text: characters(alloc, text, &arena)?,
        kind,
        known: words != "plain",
        arena: &arena,
        alloc,
    };
    match text.compared()? {
        Outcome::Accepted => totals.accepted = totals.accepted.wrapping_add(1),
        Outcome::Refused => totals.refused = totals.refused.wrapping_add(1),
        Outcome::Different => write!(out, "? {line}\n")?,
    }
    Ok(())
}

/// Returns the rows that differ, and the totals.
fn answers(alloc: Global, lines: &str) -> Result<String> {
    let mut out = String::new(alloc);
    let mut totals = Totals {
        accepted: 0,
        refused: 0,
    };
    for line in lines.lines() {
        add_line(&mut out, &mut totals, line)?;
    }
    let arena = Bump::new(alloc);
    let words = compared(&mut out, &mut Parser::new(alloc, "", &arena)?)?;
    let (found, missing) = (words.found, words.missing);
    let (accepted, refused) = (totals.accepted, totals.refused);
    write!(
        out,
        "{found} words found by both\n{missing} words found by neither\n"
    )?;
    write!(
        out,
        "{accepted} texts accepted by both\n{refused} texts refused by both\n"
    )?;
    Ok(out)
}

fn main(rt: HostRuntime) -> ExitCode {
    let Ok(lines) = io::read_to_string(rt.alloc(), rt.stdin()) else {
        return ExitCode::from(2);
    };
    match answers(rt.alloc(), &lines) {
        Ok(out) => match print!(rt; "{out}") {
            Ok(()) => ExitCode::SUCCESS,
            Err(_) => ExitCode::from(2),
        },
        Err(_) => ExitCode::from(2),
    }
}

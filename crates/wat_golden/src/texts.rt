//! Rows of the answers for texts: reports, listings, places.

use crate::row::{Row, add_refusal};
use std::alloc::{AllocError, Global};
use wat_core::read_module;
use wat_report::{add_report, line_at, line_column, nearest_mnemonics};
use wat_show::Mode;

/// Adds lines, each after a mark.
fn add_marked(out: &mut String, mark: &str, bytes: &[u8]) -> Result<bool, AllocError> {
    match str::from_utf8(bytes) {
        Ok(text) => {
            for line in text.lines() {
                write!(out, "{mark} {line}\n")?;
            }
        }
        Err(_) => out.push_str("? not UTF-8\n")?,
    }
    Ok(true)
}

/// Adds the report of a text, where it is no module.
fn add_reported(out: &mut String, row: &Row<'_>) -> Result<bool, AllocError> {
    let mut report = Vec::new(row.alloc);
    match read_module(row.alloc, row.text, row.arena) {
        Ok(_module) => {}
        Err(error) => add_report(&mut report, "a.wat", row.text, error)?,
    }
    add_marked(out, "-", &report)
}

/// Adds what the program shows of a text in a mode, and its status.
fn add_shown(out: &mut String, row: &Row<'_>) -> Result<bool, AllocError> {
    let Some(mode) = Mode::of(row.words) else {
        out.push_str("? there is no such mode\n")?;
        return Ok(true);
    };
    let (shown, status) = mode.show(row.alloc, row.text.as_bytes())?;
    add_marked(out, "-", &shown)?;
    write!(out, "= {status}\n")?;
    Ok(true)
}

/// Adds the line, the column and the line's text of an offset, the row's number.
fn add_place(out: &mut String, row: &Row<'_>) -> Result<bool, AllocError> {
    let offset = row.number() as usize;
    let place = line_column(row.text, offset);
    let (line, column) = (place.line, place.column);
    let content = line_at(row.text, offset);
    write!(out, "= {line}:{column} {content:?}\n")?;
    Ok(true)
}

/// Adds the mnemonics that are nearest to a word.
fn add_nearest(out: &mut String, row: &Row<'_>) -> Result<bool, AllocError> {
    out.push_str("=")?;
    for op in &nearest_mnemonics(row.alloc, row.text)? {
        let word = op.word();
        write!(out, " {word}")?;
    }
    out.push_str("\n")?;
    Ok(true)
}

/// Adds the result of a row of the answer for a text.
pub fn add_row(out: &mut String, row: &Row<'_>) -> Result<bool, AllocError> {
    match row.kind {
        "report" => add_reported(out, row),
        "show" => add_shown(out, row),
        "line" => add_place(out, row),
        "nearest" => add_nearest(out, row),
        _ => Ok(false),
    }
}

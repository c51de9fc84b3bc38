//! Rows of repetitions: a text with a member that is read 0, 1, 2 and 1,000 times.
//!
//! `KIND times | TEXT => PRINTED => PRINTED OF NONE`: in each of the three a member is enclosed in
//! `{` and `}`, and the number of the member replaces its first `#`. PRINTED is the text that is
//! printed of the value on one line, or what Debug writes of it if its kind isn't printed, without
//! spaces at its ends. It is the same text if it is left out. PRINTED OF NONE replaces it where
//! there are no members. A row of the kind `signatures` has no second text: its module, `links`,
//! prints a line for each number of members.

use crate::copies::Copier;
use crate::printers::Printer;
use crate::readers::Reader;
use crate::row::{Row, add_copy, add_refusal, read};
use std::alloc::{AllocError, Global};
use std::fmt::Debug;
use std::mem::forget;
use wat_print::Layout;

/// The numbers of members.
pub const COUNTS: [usize; 4] = [0, 1, 2, 1000];

/// Adds a member with its number.
fn add_member(out: &mut String, member: &str, number: usize) -> Result<(), AllocError> {
    match member.split_once('#') {
        Some((start, end)) => write!(out, "{start}{number}{end}"),
        None => out.push_str(member),
    }
}

/// Adds a piece of a pattern: so many members and the text after them, or text alone.
fn add_piece(out: &mut String, piece: &str, count: usize) -> Result<(), AllocError> {
    let Some((member, rest)) = piece.split_once('}') else {
        return out.push_str(piece);
    };
    for number in 0..count {
        add_member(out, member, number)?;
    }
    out.push_str(rest)
}

/// The text of a pattern with so many members.
pub fn expanded(alloc: Global, pattern: &str, count: usize) -> Result<String, AllocError> {
    let mut out = String::new(alloc);
    for piece in pattern.split('{') {
        add_piece(&mut out, piece, count)?;
    }
    Ok(out)
}

/// The patterns of a row: its text, and what is printed of so many members.
fn patterns<'t>(row: &'t str, count: usize) -> (&'t str, &'t str) {
    let Some((text, printed)) = row.split_once(" => ") else {
        return (row, row);
    };
    match printed.split_once(" => ") {
        Some((_, none)) if count == 0 => (text, none),
        Some((some, _)) => (text, some),
        None => (text, printed),
    }
}

/// Adds what is printed of a value where it isn't as wanted, and what a copy is shown as where it
/// isn't shown as the value is.
fn add_wrong<T: Debug + Drop, P: Printer<T>, C: Copier<T>>(
    out: &mut String,
    row: &Row<'_>,
    value: &T,
    wanted: &str,
) -> Result<(), AllocError> {
    match P::print(row.alloc, value, Layout::Line) {
        Some(Ok(printed)) => {
            if printed.as_str() != wanted {
                write!(out, "? printed as {printed}\n")?;
            }
        }
        Some(Err(refused)) => write!(out, "? refused by the printer: {refused:?}\n")?,
        None => {
            let shown = format!(in row.alloc; "{value:?}")?;
            if shown.as_str() != wanted {
                write!(out, "? shown as {shown}\n")?;
            }
        }
    }
    add_copy::<T, C>(out, row, value)
}

/// Adds what is wrong with the value that so many members are.
fn add_count<'a, T: Debug + Drop, R: Reader<'a, T>, P: Printer<T>, C: Copier<T>>(
    out: &mut String,
    row: &Row<'a>,
    count: usize,
) -> Result<(), AllocError> {
    let (text, wanted) = patterns(row.text, count);
    let text: &'a str = row.arena.try_alloc_str(&expanded(row.alloc, text, count)?)?;
    let wanted = expanded(row.alloc, wanted, count)?;
    match read::<T, R>(row, text, false) {
        Ok(value) => {
            let done = add_wrong::<T, P, C>(out, row, &value, wanted.trim());
            forget(value);
            done
        }
        Err(error) => add_refusal(out, error),
    }
}

/// Adds the result of a row of a repetition.
pub fn add_repeated<'a, T: Debug + Drop, R: Reader<'a, T>, P: Printer<T>, C: Copier<T>>(
    out: &mut String,
    row: &Row<'a>,
) -> Result<bool, AllocError> {
    out.push_str("=")?;
    for count in COUNTS {
        write!(out, " {count}")?;
    }
    out.push_str("\n")?;
    for count in COUNTS {
        add_count::<T, R, P, C>(out, row, count)?;
    }
    Ok(true)
}

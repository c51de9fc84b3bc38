//! A row, and its result.

use crate::copies::Copier;
use crate::printers::Printer;
use crate::readers::Reader;
use crate::repeated::add_repeated;
use bumpalo::Bump;
use std::alloc::{AllocError, Global};
use std::fmt::Debug;
use std::mem::forget;
use wat_core::{Error, Fault, Parser};
use wat_print::Layout;

/// A row of the table.
#[derive(Clone, Copy)]
pub struct Row<'a> {
    /// The first word of its kind.
    pub kind: &'a str,
    /// The words after that.
    pub words: &'a str,
    /// The text that is read.
    pub text: &'a str,
    /// Where what isn't a slice of the text is kept.
    pub arena: &'a Bump,
    /// The allocator.
    pub alloc: Global,
}

impl<'a> Row<'a> {
    /// The row of a kind with its words, and a text.
    pub fn of(alloc: Global, kind: &'a str, text: &'a str, arena: &'a Bump) -> Row<'a> {
        let (kind, words) = kind.split_once(' ').unwrap_or((kind, ""));
        Row {
            kind,
            words,
            text,
            arena,
            alloc,
        }
    }

    /// The number that the words are, or 0.
    pub fn number(&self) -> u64 {
        self.words.parse::<u64>().unwrap_or(0)
    }

    /// A parser in front of a text; whether the standard annotations are known may be turned.
    pub fn parser(&self, text: &'a str, is_turned: bool) -> Result<Parser<'a>, Error> {
        let mut parser = Parser::new(self.alloc, text, self.arena)?;
        parser.with_standard_annotations((self.words != "plain") != is_turned);
        parser.track_instr_spans(self.words == "spans");
        Ok(parser)
    }
}

/// Returns the text with line feeds and carriage returns in place of their signs.
pub fn characters<'a>(alloc: Global, text: &str, arena: &'a Bump) -> Result<&'a str, AllocError> {
    let mut out = String::new(alloc);
    for character in text.chars() {
        match character {
            '␊' => out.push('\n')?,
            '␍' => out.push('\r')?,
            other => out.push(other)?,
        }
    }
    let text: &'a str = arena.try_alloc_str(&out)?;
    Ok(text)
}

/// Reads the value that a whole text is; what is known of annotations may be turned.
pub fn read<'a, T: Drop, R: Reader<'a, T>>(
    row: &Row<'a>,
    text: &'a str,
    is_turned: bool,
) -> Result<T, Error> {
    let mut parser = row.parser(text, is_turned)?;
    let value = R::read(row, &mut parser)?;
    if parser.at_end() {
        return Ok(value);
    }
    forget(value);
    Err(parser.unexpected())
}

/// Adds why a text is refused.
pub fn add_refusal(out: &mut String, error: Error) -> Result<(), AllocError> {
    let name = error.fault.name();
    let offset = error.span.offset();
    write!(out, "! {name} at {offset}\n")
}

/// Whether a text is refused with a fault at an offset.
fn is_refused<'a, T: Drop, R: Reader<'a, T>>(
    row: &Row<'a>,
    text: &'a str,
    is_turned: bool,
    wanted: (Fault, usize),
) -> bool {
    match read::<T, R>(row, text, is_turned) {
        Ok(value) => {
            forget(value);
            false
        }
        Err(error) => (error.fault, error.span.offset()) == wanted,
    }
}

/// Adds a line if a text that is refused isn't refused three bytes later after three blanks, or, for
/// a text without annotations, isn't refused in the same way with the other annotations known.
fn add_elsewhere<'a, T: Drop, R: Reader<'a, T>>(
    out: &mut String,
    row: &Row<'a>,
    error: Error,
) -> Result<(), AllocError> {
    let offset = error.span.offset();
    let shifted = format!(in row.alloc; "   {}", row.text)?;
    let shifted: &'a str = row.arena.try_alloc_str(&shifted)?;
    let further = (error.fault, offset.wrapping_add(3));
    if !is_refused::<T, R>(row, shifted, false, further) {
        out.push_str("? refused otherwise behind blanks\n")?;
    }
    let is_bare = !row.text.contains("(@");
    if is_bare && !is_refused::<T, R>(row, row.text, true, (error.fault, offset)) {
        out.push_str("? refused otherwise with other annotations known\n")?;
    }
    Ok(())
}

/// Adds what is printed of a value that was printed, where that isn't the same.
fn add_again<'a, T: Drop, R: Reader<'a, T>, P: Printer<T>>(
    out: &mut String,
    row: &Row<'a>,
    printed: &str,
    layout: Layout,
) -> Result<(), AllocError> {
    let text: &'a str = row.arena.try_alloc_str(printed)?;
    match read::<T, R>(row, text, false) {
        Ok(value) => {
            let again = P::print(row.alloc, &value, layout);
            forget(value);
            match again {
                Some(Ok(same)) if same.as_str() == printed => Ok(()),
                _ => out.push_str("? printed again as another text\n"),
            }
        }
        Err(_) => out.push_str("? not read again\n"),
    }
}

/// Adds a text that is printed in a layout: one of one line as it is.
fn add_lines(out: &mut String, printed: &str, layout: Layout) -> Result<(), AllocError> {
    match layout {
        Layout::Line => write!(out, "> {printed}\n")?,
        Layout::Indented => {
            if printed.contains('\n') {
                for line in printed.lines() {
                    write!(out, ": {line}\n")?;
                }
            }
        }
    }
    Ok(())
}

/// Adds what is printed of a value in a layout, where its type is printed.
fn add_printed<'a, T: Drop, R: Reader<'a, T>, P: Printer<T>>(
    out: &mut String,
    row: &Row<'a>,
    value: &T,
    layout: Layout,
) -> Result<(), AllocError> {
    match P::print(row.alloc, value, layout) {
        Some(Ok(printed)) => {
            add_lines(out, &printed, layout)?;
            add_again::<T, R, P>(out, row, &printed, layout)
        }
        Some(Err(refused)) => write!(out, "? refused by the printer: {refused:?}\n"),
        None => Ok(()),
    }
}

/// Whether Debug writes the same of two values.
fn is_shown_alike<T: Debug>(alloc: Global, value: &T, other: &T) -> Result<bool, AllocError> {
    let shown = format!(in alloc; "{value:?}")?;
    let again = format!(in alloc; "{other:?}")?;
    Ok(shown == again)
}

/// Adds a line where a copy isn't shown as the value is.
pub fn add_copy<T: Debug + Drop, C: Copier<T>>(
    out: &mut String,
    row: &Row<'_>,
    value: &T,
) -> Result<(), AllocError> {
    match C::copy(value) {
        Some(Ok(copy)) => {
            let is_same = is_shown_alike(row.alloc, value, &copy);
            forget(copy);
            if !is_same? {
                out.push_str("? copied as another value\n")?;
            }
        }
        Some(Err(_)) => out.push_str("? not copied\n")?,
        None => {}
    }
    Ok(())
}

/// Adds a value, what is printed of it, and what a copy of it is.
fn add_value<'a, T: Debug + Drop, R: Reader<'a, T>, P: Printer<T>, C: Copier<T>>(
    out: &mut String,
    row: &Row<'a>,
    value: &T,
) -> Result<(), AllocError> {
    write!(out, "= {value:?}\n")?;
    add_printed::<T, R, P>(out, row, value, Layout::Line)?;
    add_printed::<T, R, P>(out, row, value, Layout::Indented)?;
    add_copy::<T, C>(out, row, value)
}

/// Adds the result of a row. The parsed value isn't dropped, since the
/// drop of each type would be proved here again.
pub fn add<'a, T: Debug + Drop, R: Reader<'a, T>, P: Printer<T>, C: Copier<T>>(
    out: &mut String,
    row: &Row<'a>,
) -> Result<bool, AllocError> {
    if row.words == "times" {
        return add_repeated::<T, R, P, C>(out, row);
    }
    match read::<T, R>(row, row.text, false) {
        Ok(value) => {
            let done = add_value::<T, R, P, C>(out, row, &value);
            forget(value);
            done?;
        }
        Err(error) => {
            add_refusal(out, error)?;
            add_elsewhere::<T, R>(out, row, error)?;
        }
    }
    Ok(true)
}

//! The lines of a report of `wat check`.

ghost use Rattle.std.specs.Prelude.{◌≤◌, ◌<◌, length};

use crate::diff::first_line_len;

/// What a line of a report is.
#[derive(Clone, Copy, Debug, PartialEq, Eq)]
pub(crate) enum Form {
    /// `NAME:LINE:COLUMN: error: MESSAGE`.
    Place,
    /// `NAME: error: COUNT more fields are invalid`.
    More,
    /// The line of the text, after that of its error.
    Source,
    /// The line with the caret, after the line of the text.
    Caret,
    /// Any other: a hint, or what was expected.
    Beside,
}

/// Returns what a line is that isn't a line of the text or a caret.
fn form_beside(name: &str, line: &[u8]) -> Form {
    match line.strip_prefix(name.as_bytes()) {
        Some([b':', b' ', ..]) => Form::More,
        Some([b':', b'0'..=b'9', ..]) => Form::Place,
        _ => Form::Beside,
    }
}

/// Returns what the first line of a part of a report is, after a line of that form.
pub(crate) fn form_after(last: Form, name: &str, report: &[u8]) -> Form {
    match last {
        Form::Place => Form::Source,
        Form::Source => Form::Caret,
        Form::More | Form::Caret | Form::Beside => form_beside(name, report),
    }
}

/// Returns the number of bytes of the first line, with its line break. Line breaks in the name of
/// the input don't end it.
pub(crate) fn line_len(form: Form, name: &str, report: &[u8]) -> usize
    ensures within { result ≤ length report.now }
    ensures some { 0 < length report.now → 0 < result }
{
    let named = match form {
        Form::Place | Form::More => name.len().min(report.len()),
        Form::Source | Form::Caret | Form::Beside => 0,
    };
    named + first_line_len(&report[named..])
}

/// Returns the number of bytes of the name, the line and the column at the beginning of a line.
pub(crate) fn place_len(name: &str, line: &[u8]) -> usize
    ensures { result ≤ length line.now }
{
    let mut len = name.len().min(line.len());
    for byte in &line[len..] {
        if !byte.is_ascii_digit() && *byte != b':' {
            return len.min(line.len());
        }
        len = len.saturating_add(1);
    }
    len.min(line.len())
}

/// Returns the number that a text begins with, or 0.
fn number_at(text: &[u8]) -> usize {
    let mut number: usize = 0;
    for byte in text {
        if !byte.is_ascii_digit() {
            return number;
        }
        let digit = usize::from(byte.saturating_sub(b'0'));
        number = number.saturating_mul(10).saturating_add(digit);
    }
    number
}

/// Returns how many errors a line of a report is about.
fn errors_in(form: Form, name: &str, line: &[u8]) -> usize {
    let message = &line[place_len(name, line)..];
    match (form, message.strip_prefix(b" error: ".as_slice())) {
        (Form::Place, Some(_)) => 1,
        (Form::More, Some(words)) => number_at(words),
        _ => 0,
    }
}

/// Returns the number of errors in a report of the input with that name.
pub(crate) fn error_count(name: &str, report: &[u8]) -> usize {
    let mut count: usize = 0;
    let mut form = Form::Beside;
    let mut left = report;
    while !left.is_empty() {
        form = form_after(form, name, left);
        let (line, rest) = left.split_at(line_len(form, name, left));
        count = count.saturating_add(errors_in(form, name, line));
        left = rest;
    }
    count
}

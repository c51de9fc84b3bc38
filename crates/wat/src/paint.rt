//! A report with colors.

ghost use Rattle.std.specs.Prelude.{◌≡◌, ◌++◌, ◌≤◌, IfOk, OnOk, length};
ghost use Rattle.wat.specs.Paints.{IsColored, IsPainted, Paints, end_of, start_of, styled};

use crate::report::{Form, form_after, line_len, place_len};
use std::alloc::{AllocError, Global};

/// The style of a part of a report.
#[derive(Clone, Copy, Debug, PartialEq, Eq)]
pub(crate) enum Style {
    Plain,
    /// A position: bold.
    Bold,
    /// The word `error`: bold and red.
    Severe,
    /// The word `hint` or `expected`: bold and cyan.
    Label,
    /// The caret: red.
    Mark,
}

/// Returns the control sequence before a text of that style.
fn start_of(style: Style) -> &'static [u8]
    ensures { result.now ≡ start_of style }
{
    match style {
        Style::Plain => b"",
        Style::Bold => b"\x1b[1m",
        Style::Severe => b"\x1b[1;31m",
        Style::Label => b"\x1b[1;36m",
        Style::Mark => b"\x1b[31m",
    }
}

/// Returns the control sequence after a text of that style.
fn end_of(style: Style) -> &'static [u8]
    ensures { result.now ≡ end_of style }
{
    match style {
        Style::Plain => b"",
        Style::Bold | Style::Severe | Style::Label | Style::Mark => b"\x1b[0m",
    }
}

/// Adds a text in a style.
#[tactic(auto, unfolding(crate::specs::Paints::styled))]
fn add_styled(out: &mut Vec<u8>, style: Style, text: &[u8]) -> Result<(), AllocError>
    ensures { OnOk result (out.new.items ≡ out.old.items ++ styled style text.now) }
{
    out.extend_from_slice(start_of(style))?;
    out.extend_from_slice(text)?;
    out.extend_from_slice(end_of(style))
}

/// Adds a text whose bytes from `start` to `end` are in a style.
fn add_middle(
    out: &mut Vec<u8>,
    style: Style,
    text: &[u8],
    start: usize,
    end: usize,
) -> Result<(), AllocError>
    ensures { OnOk result (Paints text.now out.old.items out.new.items) }
{
    let (front, back) = text.split_at(end.min(text.len()));
    let (front, middle) = front.split_at(start.min(front.len()));
    add_styled(out, Style::Plain, front)?;
    add_styled(out, style, middle)?;
    add_styled(out, Style::Plain, back)
}

/// Adds the line with the position and the message of an error.
fn add_first_line(out: &mut Vec<u8>, name: &str, line: &[u8]) -> Result<(), AllocError>
    ensures { OnOk result (Paints line.now out.old.items out.new.items) }
{
    let (place, message) = line.split_at(place_len(name, line));
    add_middle(out, Style::Bold, place, 0, place.len())?;
    add_middle(out, Style::Severe, message, b" ".len(), b" error".len())
}

/// Returns the number of spaces and tabs at the beginning of a line.
fn blank_len(line: &[u8]) -> usize {
    line.iter()
        .take_while(|byte| **byte == b' ' || **byte == b'\t')
        .count()
}

/// Returns the number of bytes of the word with which a line begins, and `:` after it.
fn label_len(line: &[u8]) -> usize {
    if line.starts_with(b"hint:".as_slice()) {
        b"hint:".len()
    } else if line.starts_with(b"expected:".as_slice()) {
        b"expected:".len()
    } else {
        0
    }
}

/// Adds a line of a report.
fn add_line(out: &mut Vec<u8>, form: Form, name: &str, line: &[u8]) -> Result<(), AllocError>
    ensures { OnOk result (Paints line.now out.old.items out.new.items) }
{
    match form {
        Form::Place | Form::More => add_first_line(out, name, line),
        Form::Source => add_middle(out, Style::Plain, line, 0, line.len()),
        Form::Caret => {
            let end = line.len().saturating_sub(b"\n".len());
            add_middle(out, Style::Mark, line, blank_len(line), end)
        }
        Form::Beside => add_middle(out, Style::Label, line, 0, label_len(line)),
    }
}

/// Returns a report of the input with that name, with colors.
fn painted(alloc: Global, name: &str, report: &[u8]) -> Result<Vec<u8>, AllocError>
    ensures { IfOk result (λ output. IsPainted report.now output.items) }
{
    let mut out = Vec::new(alloc);
    let mut form = Form::Beside;
    let mut left = report;
    while !left.is_empty() {
        form = form_after(form, name, left);
        let (line, rest) = left.split_at(line_len(form, name, left));
        add_line(&mut out, form, name, line)?;
        left = rest;
    }
    Ok(out)
}

/// Returns a report of the input with that name: with colors if they are on, unless memory runs
/// out.
pub(crate) fn colored(alloc: Global, color: bool, name: &str, report: Vec<u8>) -> Vec<u8>
    ensures { IsColored color report.items result.items }
{
    if !color {
        return report;
    }
    match painted(alloc, name, &report) {
        Ok(output) => output,
        Err(AllocError) => report,
    }
}

//! The report of a fault.

ghost use Rattle.std.specs.Prelude.{◌≡◌, ◌++◌, OnOk};
ghost use Rattle.wat_lexer.specs.Offset.{offset_of};
ghost use Rattle.wat_report.specs.Report.{AddsReport, first_line, further_lines, heading_text, labelled_line, report_text};

use crate::diagnostic::{Diagnostic, diagnostic_of};
use crate::lines::LineColumn;
use crate::write::{add, add_number};
use std::alloc::AllocError;
use wat_tokens::{Error, Fault};

/// Adds the name, the line and the column.
fn add_heading(out: &mut Vec<u8>, name: &str, place: LineColumn) -> Result<(), AllocError>
    ensures { OnOk result (out.new.items ≡ out.old.items ++ heading_text name.now place) }
{
    add(out, name)?;
    add(out, ":")?;
    add_number(out, place.line)?;
    add(out, ":")?;
    add_number(out, place.column)?;
    add(out, ": error: ")
}

/// Adds a line of words after a label. Adds nothing if there are no words.
#[tactic(auto, using(crate::proofs::Labels::labelled))]
fn add_labelled(out: &mut Vec<u8>, label: &str, words: &[u8]) -> Result<(), AllocError>
    ensures { OnOk result (out.new.items ≡ out.old.items ++ labelled_line label.now words.now) }
{
    if words.is_empty() {
        return Ok(());
    }
    add(out, label)?;
    out.extend_from_slice(words)?;
    add(out, "\n")
}

/// Adds the line of the place and the message.
fn add_first_line(out: &mut Vec<u8>, name: &str, diagnostic: &Diagnostic) -> Result<(), AllocError>
    ensures { OnOk result (out.new.items ≡ out.old.items ++ first_line name.now diagnostic.now) }
{
    add_heading(out, name, diagnostic.place)?;
    out.extend_from_slice(&diagnostic.message)?;
    add(out, "\n")
}

/// Adds the lines after the first one.
fn add_further_lines(out: &mut Vec<u8>, diagnostic: &Diagnostic) -> Result<(), AllocError>
    ensures { OnOk result (out.new.items ≡ out.old.items ++ further_lines diagnostic.now) }
{
    out.extend_from_slice(&diagnostic.shown)?;
    add_labelled(out, "hint: ", &diagnostic.hint)?;
    add_labelled(out, "expected: ", &diagnostic.expected)
}

/// Adds the report of a diagnostic for a text of that name.
///
/// The report has a line `NAME:LINE:COLUMN: error: MESSAGE`, the line of the text, a line with a
/// caret below each underlined character, and, for some faults, a line `hint: ..` or `expected: ..`.
/// Of the line of the text, it shows about 100 bytes before the place and 100 bytes from the place
/// on, with `..` on each side where there is more.
///
/// The error is AllocError if memory runs out. Then a prefix of the report may have been added.
#[tactic(auto, unfolding(crate::specs::Report::report_text))]
pub fn add_diagnostic(
    out: &mut Vec<u8>,
    name: &str,
    diagnostic: &Diagnostic,
) -> Result<(), AllocError>
    ensures { OnOk result (out.new.items ≡ out.old.items ++ report_text name.now diagnostic.now) }
{
    add_first_line(out, name, diagnostic)?;
    add_further_lines(out, diagnostic)
}

/// Adds the report of an error in a text of that name: the report of the error's diagnostic. The
/// report of Memory is the line `NAME: error: memory ran out`.
///
/// The error is AllocError if memory runs out. Then a prefix of the report may have been added.
#[tactic(auto, unfolding(crate::specs::Report::IsReport))]
pub fn add_report(out: &mut Vec<u8>, name: &str, text: &str, error: Error) -> Result<(), AllocError>
    ensures { OnOk result (AddsReport name.now text.now (offset_of error.span) error.fault
        out.old.items out.new.items) }
{
    if error.fault == Fault::Memory {
        add(out, name)?;
        return add(out, ": error: memory ran out\n");
    }
    let diagnostic = diagnostic_of(*out.allocator(), text, error)?;
    add_diagnostic(out, name, &diagnostic)
}

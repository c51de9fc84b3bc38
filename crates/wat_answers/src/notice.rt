//! The notices of a check.

ghost use Rattle.std.specs.Prelude.{◌≡◌, ◌++◌, IfOk, OnOk, flat_map};
ghost use Rattle.wat_answers.specs.Notices.{error_head, further_line, further_words, more_json, more_line, more_words, notice_json, notice_report};

use std::alloc::{AllocError, Global};
use wat_report::{Diagnostic, add_diagnostic, add_json, add_json_head, add_json_number};

/// A part of the answer for a text that isn't a module.
#[derive(Drop)]
pub enum Notice {
    /// The diagnostic of an error.
    Found(Diagnostic),
    /// The number of invalid fields after the first 20. These fields have no diagnostic.
    More(usize),
    /// The number of errors of names, blocks and imports after the first 20. These errors have no
    /// diagnostic.
    Further(usize),
}

/// Adds `N more fields are invalid`, without a line break.
///
/// The error is AllocError if memory runs out.
pub fn add_more_words(out: &mut Vec<u8>, count: usize) -> Result<(), AllocError>
    ensures { OnOk result (out.new.items ≡ out.old.items ++ more_words count) }
{
    let words = format!(in *out.allocator(); "{count} more fields are invalid")?;
    out.extend_from_slice(words.as_bytes())
}

/// Adds `N more errors in names, blocks and imports`, without a line break.
///
/// The error is AllocError if memory runs out.
pub fn add_further_words(out: &mut Vec<u8>, count: usize) -> Result<(), AllocError>
    ensures { OnOk result (out.new.items ≡ out.old.items ++ further_words count) }
{
    let words = format!(in *out.allocator(); "{count} more errors in names, blocks and imports")?;
    out.extend_from_slice(words.as_bytes())
}

/// Adds `NAME: error: `, which begins a line of a report without a position.
fn add_error_head(out: &mut Vec<u8>, name: &str) -> Result<(), AllocError>
    ensures { OnOk result (out.new.items ≡ out.old.items ++ error_head name.now) }
{
    out.extend_from_slice(name.as_bytes())?;
    out.extend_from_slice(b": error: ")
}

/// Adds the line of a report with the number of further invalid fields.
fn add_more_line(out: &mut Vec<u8>, name: &str, count: usize) -> Result<(), AllocError>
    ensures { OnOk result (out.new.items ≡ out.old.items ++ more_line name.now count) }
{
    add_error_head(out, name)?;
    add_more_words(out, count)?;
    out.extend_from_slice(b"\n")
}

/// Adds the line of a report with the number of further errors of names, blocks and imports.
fn add_further_line(out: &mut Vec<u8>, name: &str, count: usize) -> Result<(), AllocError>
    ensures { OnOk result (out.new.items ≡ out.old.items ++ further_line name.now count) }
{
    add_error_head(out, name)?;
    add_further_words(out, count)?;
    out.extend_from_slice(b"\n")
}

/// Adds a line with the number of further invalid fields, or of further errors, as a JSON object.
fn add_more_json(out: &mut Vec<u8>, file: &str, count: usize) -> Result<(), AllocError>
    ensures { OnOk result (out.new.items ≡ out.old.items ++ more_json file.now count) }
{
    add_json_head(out, file)?;
    add_json_number(out, "more", count)?;
    out.extend_from_slice(b"}\n")
}

/// Adds a notice to a report.
#[tactic(auto, unfolding(crate::specs::Notices::notice_report))]
fn add_to_report(out: &mut Vec<u8>, name: &str, notice: &Notice) -> Result<(), AllocError>
    ensures { OnOk result (out.new.items ≡ out.old.items ++ notice_report name.now notice.now) }
{
    match notice {
        Notice::Found(diagnostic) => add_diagnostic(out, name, diagnostic),
        Notice::More(count) => add_more_line(out, name, *count),
        Notice::Further(count) => add_further_line(out, name, *count),
    }
}

/// Adds a notice as JSON.
#[tactic(auto, unfolding(crate::specs::Notices::notice_json))]
fn add_to_json(out: &mut Vec<u8>, file: &str, notice: &Notice) -> Result<(), AllocError>
    ensures { OnOk result (out.new.items ≡ out.old.items ++ notice_json file.now notice.now) }
{
    match notice {
        Notice::Found(diagnostic) => add_json(out, file, diagnostic),
        Notice::More(count) => add_more_json(out, file, *count),
        Notice::Further(count) => add_more_json(out, file, *count),
    }
}

/// Returns the report of notices for a text of that name.
pub(crate) fn report_of(
    alloc: Global,
    name: &str,
    notices: &[Notice],
) -> Result<Vec<u8>, AllocError>
    ensures { IfOk result (λ output. output.items ≡ flat_map (notice_report name.now) notices.now) }
{
    let mut report = Vec::new(alloc);
    for notice in notices {
        add_to_report(&mut report, name, notice)?;
    }
    Ok(report)
}

/// Returns notices for a text of that name as JSON, with one object on each line.
pub(crate) fn json_of(alloc: Global, file: &str, notices: &[Notice]) -> Result<Vec<u8>, AllocError>
    ensures { IfOk result (λ output. output.items ≡ flat_map (notice_json file.now) notices.now) }
{
    let mut json = Vec::new(alloc);
    for notice in notices {
        add_to_json(&mut json, file, notice)?;
    }
    Ok(json)
}

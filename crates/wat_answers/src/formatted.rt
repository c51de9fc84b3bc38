//! The formatting of a text.

ghost use Rattle.std.specs.Prelude.{IfOk, MatchResult};
ghost use Rattle.std.specs.String.{string_bytes};
ghost use Rattle.wat_answers.specs.Formatted.{IsFormatted, ReportsBytes, ReportsFault};

use crate::outcome::{refused, report_of_one};
use std::alloc::{AllocError, Global};
use wat_format::format::format;
use wat_report::text_or_diagnostic;

/// Formats a text. The inner error is the report of the first invalid token.
fn text_formatted(
    alloc: Global,
    name: &str,
    text: &str,
) -> Result<Result<String, Vec<u8>>, AllocError>
    ensures { IfOk result (λ done. MatchResult done
        (λ answer. IsFormatted text.now (string_bytes answer))
        (λ report. ReportsFault name.now text.now report.items)) }
{
    match format(alloc, text) {
        Ok(answer) => Ok(Ok(answer)),
        Err(error) => Ok(Err(refused(alloc, name, text, error)?.0)),
    }
}

/// Formats a text of that name. The inner error is the report of the first byte that isn't UTF-8, or
/// of the first invalid token. The outer error is AllocError if memory runs out.
#[tactic(auto, unfolding(crate::specs::Formatted::ReportsBytes))]
pub fn bytes_formatted(
    alloc: Global,
    name: &str,
    bytes: &[u8],
) -> Result<Result<String, Vec<u8>>, AllocError>
    ensures { IfOk result (λ done. MatchResult done
        (λ answer. IsFormatted bytes.now (string_bytes answer))
        (λ report. ReportsBytes name.now bytes.now report.items)) }
{
    match text_or_diagnostic(alloc, bytes)? {
        Ok(text) => text_formatted(alloc, name, text),
        Err(diagnostic) => Ok(Err(report_of_one(alloc, name, &diagnostic)?)),
    }
}

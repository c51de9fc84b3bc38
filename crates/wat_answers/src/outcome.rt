//! The answers for one text.

ghost use Rattle.std.specs.Prelude.{◌≡◌, ◌≢◌, IfOk};
ghost use Rattle.wat_answers.specs.Prelude.{module_view, Memory, offset_of};
ghost use Rattle.wat_answers.specs.Outcomes.{AnswersBytes, AnswersFound, AnswersText, AnswersReadBytes, IsAnswer, WasRead};
ghost use Rattle.wat_answers.specs.Notices.{notice_json, notice_report};
ghost use Rattle.wat_answers.specs.declared.task.Task.TheVariants.{Print};
ghost use Rattle.wat_report.specs.Report.{IsReport, report_text};

use crate::checked::checked_bytes;
use crate::notice::{json_of, report_of};
use crate::reading::module_of;
use crate::task::{Extent, Task};
use bumpalo::Bump;
use std::alloc::{AllocError, Global};
use wat_core::{Error, Fault, Module};
use wat_print::{Layout, Refused};
use wat_print_module::print_module;
use wat_report::{Diagnostic, add_diagnostic, add_report, text_or_diagnostic};
use wat_show::modules::add_module;

/// Returns the printed text of a module, and a line break.
fn printed(alloc: Global, layout: Layout, module: &Module) -> Result<Vec<u8>, AllocError>
    requires { WasRead (module_view «module».now) }
    ensures { IfOk result (λ output. IsAnswer (Print layout) (module_view «module».now) output.items) }
{
    match print_module(alloc, module, layout) {
        Ok(mut text) => {
            text.push_str("\n")?;
            Ok(text.into_bytes())
        }
        Err(refused) => match refused.reason {
            Refused::Memory => Err(AllocError),
            // (a text spells the module, so printing it has no other error)
            _ => unreachable!(),
        },
    }
}

/// Returns the answer for a text that is a module.
#[tactic(auto, unfolding(crate::specs::Outcomes::IsAnswer))]
fn answer_for_module(alloc: Global, task: Task, module: &Module) -> Result<Vec<u8>, AllocError>
    requires { WasRead (module_view «module».now) }
    ensures { IfOk result (λ output. IsAnswer task (module_view «module».now) output.items) }
{
    let mut listing = Vec::new(alloc);
    match task {
        Task::Check(_) | Task::Json(_) => {}
        Task::Listing => add_module(&mut listing, module)?,
        Task::Print(layout) => return printed(alloc, layout, module),
    }
    Ok(listing)
}

/// Returns the report of the error of a text, and the status 1.
pub(crate) fn refused(
    alloc: Global,
    name: &str,
    text: &str,
    error: Error,
) -> Result<(Vec<u8>, u8), AllocError>
    ensures fault { IfOk result (λ output. error.fault ≢ Memory) }
    ensures report { IfOk result (λ output. IsReport name.now text.now (offset_of error.span)
        error.fault output.0.items) }
    ensures status { IfOk result (λ output. output.1 ≡ 1) }
{
    if error.fault == Fault::Memory {
        return Err(AllocError);
    }
    let mut report = Vec::new(alloc);
    add_report(&mut report, name, text, error)?;
    Ok((report, 1))
}

/// Returns the listing or the print of a text, and the status 0; or the report of its error, and the
/// status 1.
#[tactic(auto, unfolding(crate::specs::Outcomes::AnswersText))]
fn answer_for_text(
    alloc: Global,
    task: Task,
    name: &str,
    text: &str,
) -> Result<(Vec<u8>, u8), AllocError>
    ensures { IfOk result (λ output. AnswersText task name.now text.now output.0.items output.1) }
{
    let arena = Bump::new(alloc);
    match module_of(alloc, text, &arena) {
        Ok(module) => Ok((answer_for_module(alloc, task, &module)?, 0)),
        Err(error) => refused(alloc, name, text, error),
    }
}

/// Returns the report of a diagnostic for a text of that name.
pub(crate) fn report_of_one(
    alloc: Global,
    name: &str,
    diagnostic: &Diagnostic,
) -> Result<Vec<u8>, AllocError>
    ensures { IfOk result (λ output. output.items ≡ report_text name.now diagnostic.now) }
{
    let mut report = Vec::new(alloc);
    add_diagnostic(&mut report, name, diagnostic)?;
    Ok(report)
}

/// Returns the listing or the print of bytes of that name, and the status.
#[tactic(auto, unfolding(crate::specs::Outcomes::AnswersReadBytes))]
fn answer_for_bytes(
    alloc: Global,
    task: Task,
    name: &str,
    bytes: &[u8],
) -> Result<(Vec<u8>, u8), AllocError>
    ensures { IfOk result (λ output. AnswersReadBytes task name.now bytes.now output.0.items output.1) }
{
    match text_or_diagnostic(alloc, bytes)? {
        Ok(text) => answer_for_text(alloc, task, name, text),
        Err(diagnostic) => Ok((report_of_one(alloc, name, &diagnostic)?, 1)),
    }
}

/// Checks bytes of that name. Returns the report of the notices, and the status.
fn reported(
    alloc: Global,
    extent: Extent,
    name: &str,
    bytes: &[u8],
) -> Result<(Vec<u8>, u8), AllocError>
    ensures { IfOk result (λ output. AnswersFound (notice_report name.now) extent bytes.now
        output.0.items output.1) }
{
    let (notices, status) = checked_bytes(alloc, extent, bytes)?;
    Ok((report_of(alloc, name, &notices)?, status))
}

/// Checks bytes of that name. Returns the notices as JSON, and the status.
fn reported_as_json(
    alloc: Global,
    extent: Extent,
    name: &str,
    bytes: &[u8],
) -> Result<(Vec<u8>, u8), AllocError>
    ensures { IfOk result (λ output. AnswersFound (notice_json name.now) extent bytes.now
        output.0.items output.1) }
{
    let (notices, status) = checked_bytes(alloc, extent, bytes)?;
    Ok((json_of(alloc, name, &notices)?, status))
}

/// Returns the answer for bytes of that name, and the status: 0 if they are the text of a module
/// without errors, else 1. With status 1 the answer is the report of the errors, or for [`Task::Json`] the errors as
/// JSON.
///
/// The error is AllocError if memory runs out.
#[tactic(auto, unfolding(crate::specs::Outcomes::AnswersBytes))]
pub fn answer_for(
    alloc: Global,
    task: Task,
    name: &str,
    bytes: &[u8],
) -> Result<(Vec<u8>, u8), AllocError>
    ensures { IfOk result (λ output. AnswersBytes task name.now bytes.now output.0.items output.1) }
{
    match task {
        Task::Check(extent) => reported(alloc, extent, name, bytes),
        Task::Json(extent) => reported_as_json(alloc, extent, name, bytes),
        Task::Listing | Task::Print(_) => answer_for_bytes(alloc, task, name, bytes),
    }
}

//! The check whether a text is a module, and the errors of a text that isn't a module.

ghost use Rattle.std.specs.Prelude.{◌≡◌, ◌++◌, ◌∷◌, [], List, IfOk, OnOk};
ghost use Rattle.wat_core.specs.View.{AreSkips};
ghost use Rattle.wat_answers.specs.Prelude.{ModuleModel, SpellsModule};
ghost use Rattle.wat_masked.specs.Prelude.{option_to_list, FirstFault, IsCut, offset_of, Placed, IfFault, placed};
ghost use Rattle.wat_answers.specs.Checked.{AddsDiagnosed, AddsFound, AreNotices, ChecksBytes, ChecksModule, ChecksText, ChecksMasked, FindsFaults, FindsUncut, IsDiagnosticOf, beside_of, has_error_at, lead_of, may_expect, more_notices};
ghost use Rattle.wat_answers.specs.declared.notice.Notice.TheVariants.{Found};

use crate::expected::expected_at;
use crate::named::checked_module;
use crate::notice::Notice;
use crate::reading::module_of_tokens;
use crate::task::Extent;
use bumpalo::Bump;
use std::alloc::{AllocError, Global};
use wat_core::wat_lexer::cut::cut;
use wat_core::wat_lexer::tokens::Tokens;
use wat_core::{Error, Fault, FieldFaults, module_faults};
use wat_masked::masked::masked_if_changed;
use wat_report::{Diagnostic, diagnostic_in, diagnostic_of, text_or_diagnostic};

/// The number of invalid fields, or of errors in names, blocks and imports, that are reported.
pub(crate) const MOST: usize = 20;

/// Returns whether one of the errors is at the offset.
#[tactic(auto, using(crate::proofs::Found::no_error_at))]
fn has_error_at(errors: &[Error], offset: usize) -> bool
    ensures { result ≡ has_error_at errors.now offset }
{
    for error in errors {
        if error.span.offset() == offset {
            return true;
        }
    }
    false
}

/// Returns the first error of the text, unless one of the errors of the fields is at its offset.
fn lead_of(first: Error, errors: &[Error]) -> Option<Error>
    ensures { result ≡ lead_of first errors.now }
{
    if has_error_at(errors, first.span.offset()) {
        return None;
    }
    Some(first)
}

/// Returns the error after the fields, unless another reported error is at its offset.
fn beside_of(first: Error, errors: &[Error], beside: Option<Error>) -> Option<Error>
    ensures { result ≡ beside_of first errors.now beside }
{
    let error = beside?;
    let offset = error.span.offset();
    if first.span.offset() == offset || has_error_at(errors, offset) {
        return None;
    }
    Some(error)
}

/// Returns whether another token in place of the token with the error could be valid.
fn may_expect(fault: Fault) -> bool
    ensures { result ≡ may_expect fault }
{
    matches!(fault, Fault::Unexpected | Fault::Operator)
}

/// Returns the diagnostic of an error in a text with these tokens and this masked text.
#[tactic(auto, unfolding(crate::specs::Checked::MayExpect))]
fn diagnostic_with_expected(
    alloc: Global,
    text: &str,
    tokens: &Tokens,
    read: &str,
    error: Error,
) -> Result<Diagnostic, AllocError>
    requires { IsCut text.now (placed tokens.now) }
    ensures { IfOk result (λ d. IsDiagnosticOf text.now error d) }
{
    let mut diagnostic = diagnostic_in(alloc, text, tokens, error)?;
    if diagnostic.hint.is_empty() && may_expect(error.fault) {
        diagnostic.expected = expected_at(alloc, read, tokens, error.span.offset())?;
    }
    Ok(diagnostic)
}

/// Adds the diagnostic of an error.
fn add_error(
    notices: &mut Vec<Notice>,
    text: &str,
    tokens: &Tokens,
    read: &str,
    error: Error,
) -> Result<(), AllocError>
    requires { IsCut text.now (placed tokens.now) }
    ensures { OnOk result (AddsFound (IsDiagnosticOf text.now) error notices.old.items notices.new.items) }
{
    let alloc = *notices.allocator();
    let diagnostic = diagnostic_with_expected(alloc, text, tokens, read, error)?;
    notices.push(Notice::Found(diagnostic))?;
    Ok(())
}

/// Adds the diagnostic of an error, if there is one.
#[tactic(auto, using(crate::proofs::Found::adds_one))]
fn add_optional(
    notices: &mut Vec<Notice>,
    text: &str,
    tokens: &Tokens,
    read: &str,
    error: Option<Error>,
) -> Result<(), AllocError>
    requires { IsCut text.now (placed tokens.now) }
    ensures { OnOk result (AddsDiagnosed (IsDiagnosticOf text.now) (option_to_list error) notices.old.items
        notices.new.items) }
{
    match error {
        Some(error) => add_error(notices, text, tokens, read, error),
        None => Ok(()),
    }
}

/// Adds the diagnostics of errors, one after the other.
#[tactic(auto, using(crate::proofs::Found::adds_none))]
fn add_errors(
    notices: &mut Vec<Notice>,
    text: &str,
    tokens: &Tokens,
    read: &str,
    errors: &[Error],
) -> Result<(), AllocError>
    requires { IsCut text.now (placed tokens.now) }
    ensures { OnOk result (AddsDiagnosed (IsDiagnosticOf text.now) errors.now notices.old.items
        notices.new.items) }
{
    for error in errors {
        add_error(notices, text, tokens, read, *error)?;
    }
    Ok(())
}

/// Adds the number of further invalid fields, if there are any.
fn add_more(notices: &mut Vec<Notice>, count: usize) -> Result<(), AllocError>
    ensures { OnOk result (notices.new.items ≡ notices.old.items ++ more_notices count) }
{
    if count > 0 {
        notices.push(Notice::More(count))?;
    }
    Ok(())
}

/// Returns the notices for the errors that were found in a text with these tokens and this masked
/// text.
fn notices_of_found(
    alloc: Global,
    text: &str,
    tokens: &Tokens,
    read: &str,
    first: Error,
    found: &FieldFaults,
) -> Result<Vec<Notice>, AllocError>
    requires { IsCut text.now (placed tokens.now) }
    ensures { IfOk result (λ ns. AreNotices text.now first found.now ns.items) }
{
    let faults = found.faults.as_slice();
    let mut notices = Vec::new(alloc);
    add_optional(&mut notices, text, tokens, read, lead_of(first, faults))?;
    add_errors(&mut notices, text, tokens, read, faults)?;
    add_more(&mut notices, found.count.saturating_sub(faults.len()))?;
    let beside = beside_of(first, faults, found.beside);
    add_optional(&mut notices, text, tokens, read, beside)?;
    Ok(notices)
}

/// Returns the notices for a text with these tokens, whose masked text isn't a module. `first` is
/// the first error of the masked text.
fn notices_of_faults(
    alloc: Global,
    text: &str,
    tokens: &Tokens,
    read: &str,
    first: Error,
) -> Result<Vec<Notice>, AllocError>
    requires text { IsCut text.now (placed tokens.now) }
    requires cut { (ts : List Placed) × IsCut read.now ts }
    ensures { IfOk result (λ ns. FindsFaults text.now read.now first ns.items) }
{
    let arena = Bump::new(alloc);
    match module_faults(alloc, read, &arena, MOST) {
        Ok(found) => notices_of_found(alloc, text, tokens, read, first, &found),
        Err(error) => match error.fault {
            Fault::Memory => Err(AllocError),
            // (the masked text has a cut, so module_faults has no other error)
            _ => unreachable!(),
        },
    }
}

/// Returns the notices for a text, whose masked text isn't a module. `first` is the first error of
/// the masked text.
fn notices_of_first(
    alloc: Global,
    text: &str,
    read: &str,
    first: Error,
) -> Result<Vec<Notice>, AllocError>
    requires text { (ts : List Placed) × IsCut text.now ts }
    requires cut { (ts : List Placed) × IsCut read.now ts }
    ensures { IfOk result (λ ns. FindsFaults text.now read.now first ns.items) }
{
    let arena = Bump::new(alloc);
    match cut(alloc, text, &arena) {
        Ok(tokens) => notices_of_faults(alloc, text, &tokens, read, first),
        Err(error) => match error.fault {
            Fault::Memory => Err(AllocError),
            // (the text has a cut)
            _ => unreachable!(),
        },
    }
}

/// Returns the notices for a text with this masked text, which isn't a module, and the status.
/// `first` is the first error of the masked text.
fn notices_of_error(
    alloc: Global,
    extent: Extent,
    text: &str,
    read: &str,
    first: Error,
) -> Result<(Vec<Notice>, u8), AllocError>
    requires text { (ts : List Placed) × IsCut text.now ts }
    requires cut { (ts : List Placed) × IsCut read.now ts }
    requires none { IfFault first ((m : ModuleModel) → SpellsModule read.now m → ⊥) }
    ensures { IfOk result (λ found. ChecksMasked extent text.now read.now found.0.items found.1) }
{
    match first.fault {
        Fault::Memory => Err(AllocError),
        _ => Ok((notices_of_first(alloc, text, read, first)?, 1)),
    }
}

/// Returns the notices for a text with this masked text, which has these tokens, and the status.
fn notices_of_cut(
    alloc: Global,
    extent: Extent,
    text: &str,
    read: &str,
    tokens: Tokens,
) -> Result<(Vec<Notice>, u8), AllocError>
    requires text { (ts : List Placed) × IsCut text.now ts }
    requires cut { IsCut read.now (placed tokens) }
    requires skips { AreSkips tokens }
    ensures { IfOk result (λ found. ChecksMasked extent text.now read.now found.0.items found.1) }
{
    match module_of_tokens(alloc, read, tokens) {
        Ok(module) => checked_module(alloc, extent, text, &module),
        Err(first) => notices_of_error(alloc, extent, text, read, first),
    }
}

/// Returns the notices for a text with this masked text, and the status.
fn notices_of_masked(
    alloc: Global,
    extent: Extent,
    text: &str,
    read: &str,
) -> Result<(Vec<Notice>, u8), AllocError>
    requires text { (ts : List Placed) × IsCut text.now ts }
    requires cut { (ts : List Placed) × IsCut read.now ts }
    ensures { IfOk result (λ found. ChecksMasked extent text.now read.now found.0.items found.1) }
{
    let arena = Bump::new(alloc);
    match cut(alloc, read, &arena) {
        Ok(tokens) => notices_of_cut(alloc, extent, text, read, tokens),
        Err(error) => match error.fault {
            Fault::Memory => Err(AllocError),
            // (the masked text has a cut)
            _ => unreachable!(),
        },
    }
}

/// Returns the one notice of a diagnostic.
fn one_notice(alloc: Global, diagnostic: Diagnostic) -> Result<Vec<Notice>, AllocError>
    ensures { IfOk result (λ ns. ns.items ≡ Found diagnostic ∷ []) }
{
    let mut notices = Vec::new(alloc);
    notices.push(Notice::Found(diagnostic))?;
    Ok(notices)
}

/// Returns the notices for a text without a cut, and the status. `error` is the first error of the
/// text.
fn notices_of_uncut(
    alloc: Global,
    text: &str,
    error: Error,
) -> Result<(Vec<Notice>, u8), AllocError>
    requires first { IfFault error (FirstFault text.now error.fault (offset_of error.span)) }
    requires uncut { IfFault error ((ts : List Placed) → IsCut text.now ts → ⊥) }
    ensures { IfOk result (λ found. FindsUncut text.now found.0.items found.1) }
{
    match error.fault {
        Fault::Memory => Err(AllocError),
        _ => {
            let diagnostic = diagnostic_of(alloc, text, error)?;
            Ok((one_notice(alloc, diagnostic)?, 1))
        }
    }
}

/// Returns the notices for a text with these tokens, and the status.
fn notices_of_tokens(
    alloc: Global,
    extent: Extent,
    text: &str,
    tokens: Tokens,
) -> Result<(Vec<Notice>, u8), AllocError>
    requires cut { IsCut text.now (placed tokens) }
    requires skips { AreSkips tokens }
    ensures { IfOk result (λ found. ChecksText extent text.now found.0.items found.1) }
{
    match masked_if_changed(alloc, text, &tokens)? {
        Some(read) => {
            drop(tokens);
            notices_of_masked(alloc, extent, text, read.as_str())
        }
        None => notices_of_cut(alloc, extent, text, text, tokens),
    }
}

/// Returns the notices for a text, and the status.
#[tactic(auto, unfolding(crate::specs::Checked::ChecksText))]
fn notices_of_text(
    alloc: Global,
    extent: Extent,
    text: &str,
) -> Result<(Vec<Notice>, u8), AllocError>
    ensures { IfOk result (λ found. ChecksText extent text.now found.0.items found.1) }
{
    let arena = Bump::new(alloc);
    match cut(alloc, text, &arena) {
        Ok(tokens) => notices_of_tokens(alloc, extent, text, tokens),
        Err(error) => notices_of_uncut(alloc, text, error),
    }
}

/// Checks bytes. Returns the notices and the status.
///
/// If the bytes are the text of a module, the notices are, with [`Extent::Names`], the first 20
/// errors of its names, blocks and imports, in the order of the text, and the number of further
/// errors, if there are any. The status is 0 if there is no notice. A float literal is checked by
/// its spelling only.
///
/// Otherwise the status is 1. If the bytes aren't UTF-8, the notice is the first wrong byte. If the
/// text has invalid tokens, the notice is the first error of the text. Otherwise the notices are, in
/// order:
///
/// - the first error of the text, unless it is the error of a field;
/// - an error in each of the first 20 invalid fields;
/// - the number of further invalid fields, if there are any;
/// - an error after the fields, if there is one.
///
/// The error is AllocError if memory runs out.
#[tactic(auto, unfolding(crate::specs::Checked::ChecksBytes))]
pub fn checked_bytes(
    alloc: Global,
    extent: Extent,
    bytes: &[u8],
) -> Result<(Vec<Notice>, u8), AllocError>
    ensures { IfOk result (λ found. ChecksBytes extent bytes.now found.0.items found.1) }
{
    match text_or_diagnostic(alloc, bytes)? {
        Ok(text) => notices_of_text(alloc, extent, text),
        Err(diagnostic) => Ok((one_notice(alloc, diagnostic)?, 1)),
    }
}

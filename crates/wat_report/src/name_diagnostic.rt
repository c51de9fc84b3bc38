//! Diagnostics of faults of names, blocks and imports.

ghost use Rattle.std.specs.Prelude.{◌≡◌, ◌≤◌, IfOk, length};
ghost use Rattle.std.specs.Str.{IsCharBoundary};
ghost use Rattle.wat_report.specs.NameDiagnostic.{IsNameDiagnostic};
ghost use Rattle.wat_report.specs.NameHints.{name_hint};
ghost use Rattle.wat_report.specs.NameRules.{name_message};

use crate::diagnostic::{Diagnostic, diagnostic_with};
use crate::found::add_marked_text;
use crate::kind::Kind;
use crate::lines::char_start;
use crate::name_hint::add_name_hint;
use crate::name_rules::{names_id, words_after, words_before};
use crate::write::add;
use std::alloc::{AllocError, Global};
use wat_scopes::{Name, NameFault};

/// Returns the message of a fault at an offset.
fn name_message(
    alloc: Global,
    text: &str,
    at: usize,
    fault: &NameFault<'_>,
) -> Result<Vec<u8>, AllocError>
    requires within { at ≤ length text.now }
    requires boundary { IsCharBoundary text.now at }
    ensures { IfOk result (λ said. said.items ≡ name_message text.now at fault.now) }
{
    let mut message = Vec::new(alloc);
    add(&mut message, words_before(fault.kind, fault.space))?;
    if names_id(fault.kind) {
        add_marked_text(&mut message, text, at)?;
    }
    add(&mut message, words_after(fault.kind))?;
    Ok(message)
}

/// Returns the words of the hint for a fault at an offset. They are empty if there is no hint.
fn name_hint(
    alloc: Global,
    text: &str,
    at: usize,
    fault: &NameFault<'_>,
    names: &[Name<'_>],
) -> Result<Vec<u8>, AllocError>
    requires within { at ≤ length text.now }
    requires boundary { IsCharBoundary text.now at }
    ensures { IfOk result (λ said. said.items ≡ name_hint text.now at fault.now names.now) }
{
    let mut hint = Vec::new(alloc);
    add_name_hint(&mut hint, text, at, fault, names)?;
    Ok(hint)
}

/// Returns the diagnostic of a fault of names, blocks or imports in a text. `names` are the names
/// that the module defines, in order. The words of `expected` are empty.
///
/// The hint of an unknown identifier is another index space of the module that defines it, or up to
/// three similar identifiers of its index space. The hints of other faults are lines and labels.
/// Offsets of `fault` and `names` are in bytes: an offset inside a character counts as that of the
/// character, and an offset after the end of the text as that of the end. The error is AllocError
/// if memory runs out.
pub fn diagnostic_of_name(
    alloc: Global,
    text: &str,
    fault: &NameFault<'_>,
    names: &[Name<'_>],
) -> Result<Diagnostic, AllocError>
    ensures { IfOk result (λ d. IsNameDiagnostic text.now fault.now names.now d) }
{
    let at = char_start(text, fault.span.offset());
    let message = name_message(alloc, text, at, fault)?;
    let hint = name_hint(alloc, text, at, fault, names)?;
    diagnostic_with(alloc, text, at, Kind::Names(fault.kind), message, hint)
}

//! The parts of a report.

ghost use Rattle.std.specs.Prelude.{◌≡◌, ◌≤◌, [], IfOk, length};
ghost use Rattle.wat_mnemonics.specs.Prelude.{IsCharBoundary, IsCut, placed, offset_of};
ghost use Rattle.wat_report.specs.Diagnostic.{IsDiagnostic, IsFaultAt, IsPlaced, message_text};
ghost use Rattle.wat_report.specs.HintWords.{hint_words};
ghost use Rattle.wat_report.specs.Hints.{hint_of};
ghost use Rattle.wat_report.specs.Shown.{shown_line};

use crate::caret::add_line;
use crate::found::{add_found, is_word_at, marked_len};
use crate::front::{Groups, groups_before};
use crate::hint_words::add_hint;
use crate::kind::Kind;
use crate::lines::{LineColumn, char_start, position_of_char};
use crate::rules::{names_token, rule};
use crate::write::add;
use bumpalo::Bump;
use std::alloc::{AllocError, Global};
use wat_lexer::cut::cut;
use wat_lexer::tokens::Tokens;
use wat_tokens::{Error, Fault};

/// An error in a text: its position, message and hint. Offsets and lengths are in bytes.
#[derive(Drop)]
pub struct Diagnostic {
    /// The offset of the error, from the start of the text.
    pub offset: usize,
    /// The number of bytes to underline from the offset on: a word, an identifier, a number, a
    /// string, or else one character; 0 at the end of the text.
    pub length: usize,
    /// The line and the column of the offset.
    pub place: LineColumn,
    /// The kind of the error.
    pub kind: Kind,
    /// The message, in UTF-8.
    pub message: Vec<u8>,
    /// The line of the text and the line with the carets, each with a line break.
    pub shown: Vec<u8>,
    /// The words after `hint: `. It is empty if the report has no such line.
    pub hint: Vec<u8>,
    /// The words after `expected: `. It is empty if the report has no such line.
    pub expected: Vec<u8>,
}

/// Returns the message of a fault at an offset.
fn message_of(alloc: Global, text: &str, at: usize, fault: Fault) -> Result<Vec<u8>, AllocError>
    ensures { IfOk result (λ said. said.items ≡ message_text text.now at fault) }
{
    let mut message = Vec::new(alloc);
    add(&mut message, rule(fault, is_word_at(text, at)))?;
    if names_token(fault) {
        add_found(&mut message, text, at)?;
    }
    Ok(message)
}

/// Returns the line of the text that contains the offset, and below it the carets.
fn shown_of(alloc: Global, text: &str, at: usize) -> Result<Vec<u8>, AllocError>
    requires within { at ≤ length text.now }
    requires boundary { IsCharBoundary text.now at }
    ensures { IfOk result (λ said. said.items ≡ shown_line text.now at) }
{
    let mut shown = Vec::new(alloc);
    add_line(&mut shown, text, at)?;
    Ok(shown)
}

/// Returns the words of the hint for a fault. They are empty if there is no hint.
fn hint_at(
    alloc: Global,
    text: &str,
    groups: Option<Groups>,
    at: usize,
    fault: Fault,
) -> Result<Vec<u8>, AllocError>
    requires within { at ≤ length text.now }
    requires boundary { IsCharBoundary text.now at }
    ensures { IfOk result (λ said. said.items ≡ hint_words text.now groups
        at (hint_of text.now groups at fault)) }
{
    let mut hint = Vec::new(alloc);
    add_hint(&mut hint, text, groups, at, fault)?;
    Ok(hint)
}

/// Returns the diagnostic at an offset where a character begins, with this message and this hint.
pub(crate) fn diagnostic_with(
    alloc: Global,
    text: &str,
    at: usize,
    kind: Kind,
    message: Vec<u8>,
    hint: Vec<u8>,
) -> Result<Diagnostic, AllocError>
    requires within { at ≤ length text.now }
    requires boundary { IsCharBoundary text.now at }
    ensures placed { IfOk result (λ d. IsPlaced text.now at kind message.items
        hint.items d) }
    ensures none_expected { IfOk result (λ d. d.expected.items ≡ []) }
{
    Ok(Diagnostic {
        offset: at,
        length: marked_len(text, at),
        place: position_of_char(text, at),
        kind,
        message,
        shown: shown_of(alloc, text, at)?,
        hint,
        expected: Vec::new(alloc),
    })
}

/// Returns the diagnostic of a fault at an offset where a character begins. `groups` counts the
/// groups before the offset.
fn diagnostic_at(
    alloc: Global,
    text: &str,
    groups: Option<Groups>,
    at: usize,
    fault: Fault,
) -> Result<Diagnostic, AllocError>
    requires within { at ≤ length text.now }
    requires boundary { IsCharBoundary text.now at }
    ensures placed { IfOk result (λ d. IsFaultAt text.now groups at fault d) }
    ensures none_expected { IfOk result (λ d. d.expected.items ≡ []) }
{
    let message = message_of(alloc, text, at, fault)?;
    let hint = hint_at(alloc, text, groups, at, fault)?;
    diagnostic_with(alloc, text, at, Kind::Parse(fault), message, hint)
}

/// Returns the diagnostic of an error in a text with these tokens. The words of `expected` are
/// empty. The error is AllocError if memory runs out.
pub fn diagnostic_in(
    alloc: Global,
    text: &str,
    tokens: &Tokens,
    error: Error,
) -> Result<Diagnostic, AllocError>
    requires { IsCut text.now (placed tokens.now) }
    ensures found { IfOk result (λ d. IsDiagnostic text.now (offset_of error.span) error.fault d) }
    ensures none_expected { IfOk result (λ d. d.expected.items ≡ []) }
{
    let at = char_start(text, error.span.offset());
    let groups = groups_before(tokens, at);
    diagnostic_at(alloc, text, Some(groups), at, error.fault)
}

/// Returns the diagnostic of an error in a text. The words of `expected` are empty.
///
/// An offset inside a character counts as that of the character, and an offset after the end of the
/// text as that of the end. The error is AllocError if memory runs out.
pub fn diagnostic_of(alloc: Global, text: &str, error: Error) -> Result<Diagnostic, AllocError>
    ensures found { IfOk result (λ d. IsDiagnostic text.now (offset_of error.span) error.fault d) }
    ensures none_expected { IfOk result (λ d. d.expected.items ≡ []) }
{
    let arena = Bump::new(alloc);
    match cut(alloc, text, &arena) {
        Ok(tokens) => diagnostic_in(alloc, text, &tokens, error),
        Err(uncut) => match uncut.fault {
            Fault::Memory => Err(AllocError),
            _ => {
                let at = char_start(text, error.span.offset());
                diagnostic_at(alloc, text, None, at, error.fault)
            }
        },
    }
}

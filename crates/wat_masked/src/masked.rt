//! The masked text.

ghost use Rattle.std.specs.Prelude.{string_bytes, ◌≡◌, ◌+◌, ◌++◌, ◌≤◌, ◌<◌, List, IfOk, IfErr, OnOk, MatchOption, is_some, not, true, false, length, replicate};
ghost use Rattle.wat_lexer.specs.Prelude.{IsCharBoundary, AreSkips};
ghost use Rattle.wat_masked.specs.Prelude.{FirstFault, IsCut, offset_of, Placed, IfFault, placed, tokens_of, visible_tokens, has_none, IsMasked, is_changed};
ghost use Rattle.wat_masked.specs.Written.{written, written_to, size_of};

use crate::change::{Change, change_of, is_changed};
use bumpalo::Bump;
use std::alloc::{AllocError, Global};
use wat_lexer::cut::cut;
use wat_lexer::fault::Error;
use wat_lexer::hidden::next_visible;
use wat_lexer::tokens::Tokens;

fn put_spaces(out: &mut String, times: usize) -> Result<(), AllocError>
    ensures { OnOk result (string_bytes out.new ≡ string_bytes out.old ++ replicate times 32) }
{
    'turns: for _ in 0..times {
        out.push_str(" ")?;
    }
    Ok(())
}

/// If the token at `at` changes, writes the text from `done` up to the token, and then the change.
/// Returns the offset up to which the text is written.
fn put(
    out: &mut String,
    text: &str,
    done: usize,
    at: usize,
    change: Change,
) -> Result<usize, AllocError>
    requires order { done ≤ at }
    requires begins { IsCharBoundary text.now done }
    requires ends { is_changed change ≡ true → IsCharBoundary text.now at }
    requires within { at + size_of change ≤ length text.now }
    requires some { is_changed change ≡ true → 0 < size_of change }
    ensures state { IfOk result (λ d. d ≡ written_to done at change) }
    ensures wrote { OnOk result (string_bytes out.new ≡ string_bytes out.old
        ++ written text.now done at change) }
{
    match change {
        Change::Keep => Ok(done),
        Change::Word => {
            out.push_str(&text[done..at])?;
            out.push_str("i")?;
            Ok(at + 1)
        }
        Change::Literal(len) => {
            out.push_str(&text[done..at])?;
            out.push_str("0")?;
            put_spaces(out, len - 1)?;
            Ok(at + len)
        }
    }
}

/// Returns the [masked](masked) text of a text with these tokens, or None if no token changes: then
/// the text is its own masked text, and nothing is allocated.
pub fn masked_if_changed(
    alloc: Global,
    text: &str,
    tokens: &Tokens,
) -> Result<Option<String>, AllocError>
    requires cut { IsCut text.now (placed tokens.now) }
    requires skips { AreSkips tokens.now }
    ensures masked { IfOk result (λ found. MatchOption found (IsMasked text.now text.now)
        (λ a. IsMasked text.now (string_bytes a))) }
    // A token changes exactly if a visible float literal directly follows a word that takes floats.
    ensures changed { IfOk result (λ found. is_some found
        ≡ not (has_none false (visible_tokens false (tokens_of (placed tokens.now))))) }
{
    let mut out = String::new(alloc);
    let mut done = 0;
    let mut opened = false;
    let mut row = false;
    let mut i = next_visible(tokens, 0, false);
    while i < tokens.len() {
        let next = next_visible(tokens, i + 1, false);
        let change = change_of(tokens, i, next, opened, row);
        done = put(&mut out, text, done, tokens.offset(i), change)?;
        opened = tokens.opens(i);
        row = is_changed(change);
        i = next;
    }
    if done == 0 {
        return Ok(None);
    }
    out.push_str(&text[done..])?;
    Ok(Some(out))
}

/// Returns the masked text: a text of the same length, with integers in place of float literals.
///
/// - Each of `f32.const`, `f64.const`, `f32x4` and `f64x2`, and `f32` and `f64` directly after a
///   `(`, gets an `i` for its `f` if the next token is a float literal.
/// - That literal and the float literals directly after it become `0` and spaces.
///
/// All other bytes stay, and each token keeps its offset. Integers are float literals too. Ranges
/// of literals aren't checked.
///
/// Blanks, comments and annotation groups between these tokens don't count. All annotation groups
/// are hidden, and their content stays. A reader of the masked text may know the five standard
/// annotations:
/// by the grammar, their groups have no float literal.
///
/// Errors are those of `cut`, with the same offsets: LexChar, LexString, LexComment, LexAnnotation
/// and Memory. The time is linear in the length of the text. WebAssembly Core Specification, Text
/// Format, Values, Floating-Point; Lexical Format, Annotations.
pub fn masked(alloc: Global, text: &str) -> Result<String, Error>
    ensures masked { IfOk result (λ a. IsMasked text.now (string_bytes a)) }
    ensures size { IfOk result (λ a. length (string_bytes a) ≡ length text.now) }
    // The text has no cut. The fault is its first from the left. LexAnnotation comes only without
    // any other fault.
    ensures refused { IfErr result (λ e. IfFault e (FirstFault text.now e.fault (offset_of e.span)
        × ((ts : List Placed) → IsCut text.now ts → ⊥))) }
{
    let arena = Bump::new(alloc);
    match cut(alloc, text, &arena) {
        Err(e) => Err(e),
        Ok(tokens) => match masked_if_changed(alloc, text, &tokens)? {
            Some(changed) => Ok(changed),
            None => Ok(String::from_str(alloc, text)?),
        },
    }
}

//! Decodes strings.

ghost use Rattle.std.specs.Prelude.{◌≡◌, ◌+◌, ◌-◌, ◌≤◌, ◌<◌, ◌++◌, false, option_map, IfOk, IfSome, OnOk, None, Some, length, drop, slice_range, slice_index, if◌then◌else◌};
ghost use Rattle.wat_lexer.specs.Cut.{is_raw};
ghost use Rattle.wat_lexer.specs.Scan.{string_at, spelled, with_front, Raw};

use crate::string::{Escaped, escape, raw_end, raw_end_behind};
use bumpalo::Bump;
use std::alloc::{AllocError, Global};

/// Decodes strings with escapes into the arena.
#[derive(Drop)]
pub(crate) struct Decoder<'a> {
    arena: &'a Bump,
    /// The decoded content of the last string with escapes.
    buffer: Vec<u8>,
}

/// Appends the bytes that an escape spells.
#[inline(always)]
fn put_escaped(out: &mut Vec<u8>, escaped: Escaped) -> Result<(), AllocError>
    ensures { OnOk result (out.new.items ≡ out.old.items ++ spelled escaped) }
{
    match escaped {
        Escaped::Byte(b) => out.push(b)?,
        Escaped::Char(c) => out.extend_from_slice(c.encode_utf8(&mut [0; 4]).as_bytes())?,
    }
    Ok(())
}

/// Appends the content of the rest of a string from `from` on, where the next byte isn't raw.
/// Returns the offset after the closing quote, or `None` if the string is invalid.
// Inlining this function slows the cut of texts without strings.
#[inline(never)]
#[tactic(auto, using(crate::proofs::Steps::content_steps))]
fn decode(text: &[u8], from: usize, out: &mut Vec<u8>) -> Result<Option<usize>, AllocError>
    requires within { from ≤ length text.now }
    requires no_raw { from < length text.now → is_raw (slice_index text.now from) ≡ false }
    ensures within { IfOk result (λ s. IfSome s (λ end. (from < end) × (end ≤ length text.now))) }
    ensures quote { IfOk result (λ s. IfSome s (λ end. slice_index text.now (end - 1) ≡ 34)) }
    ensures value { IfOk result (λ s. option_map (λ end. (out.new.items, drop end text.now)) s
        ≡ with_front out.old.items (string_at Raw (drop from text.now))) }
{
    let mut i = from;
    while let Some((escaped, behind)) = escape(text, i) {
        put_escaped(out, escaped)?;
        i = raw_end_behind(text, behind);
        if behind < i {
            out.extend_from_slice(&text[behind..i])?;
        }
    }
    if i < text.len() && text[i] == b'"' {
        Ok(Some(i + 1))
    } else {
        Ok(None)
    }
}

impl<'a> Decoder<'a> {
    pub fn new(alloc: Global, arena: &'a Bump) -> Decoder<'a> {
        Decoder {
            arena,
            buffer: Vec::new(alloc),
        }
    }

    /// Returns the offset after a string's closing quote, or `None` if the string is invalid.
    /// `from` is the offset after the opening quote. The flag is true if the content is the bytes
    /// between the quotes. If it is false, the buffer has the content.
    #[tactic(auto, using(crate::proofs::Steps::quote_steps))]
    pub fn string_end(
        &mut self,
        text: &[u8],
        from: usize,
    ) -> Result<Option<(usize, bool)>, AllocError>
        requires { from ≤ length text.now }
        ensures within { IfOk result (λ s. IfSome s (λ end. (from < end.0)
            × (end.0 ≤ length text.now))) }
        ensures quote { IfOk result (λ s. IfSome s (λ end. slice_index text.now (end.0 - 1) ≡ 34)) }
        ensures value { IfOk result (λ s. option_map (λ end. (
          if end.1 then slice_range text.now
              from (end.0 - 1) else self.new.buffer.items,
          drop end.0 text.now,
        )) s ≡ string_at Raw
            (drop from text.now)) }
    {
        let raw = raw_end(text, from);
        if raw < text.len() && text[raw] == b'"' {
            return Ok(Some((raw + 1, true)));
        }
        self.buffer.clear();
        self.buffer.extend_from_slice(&text[from..raw])?;
        match decode(text, raw, &mut self.buffer)? {
            Some(end) => Ok(Some((end, false))),
            None => Ok(None),
        }
    }

    /// The content of the string that `string_end` found last.
    pub fn content(
        &self,
        text: &'a [u8],
        from: usize,
        end: usize,
        plain: bool,
    ) -> Result<&'a [u8], AllocError>
        requires order { from < end }
        requires within { end ≤ length text.now }
        ensures { IfOk result (λ v. v.now ≡ (if plain then slice_range text.now from (end - 1)
            else self.now.buffer.items)) }
    {
        if plain {
            Ok(&text[from..end - 1])
        } else {
            Ok(self.arena.try_alloc_slice_copy(&self.buffer)?)
        }
    }
}

//! Where tokens, comments and white space end.

ghost use Rattle.std.specs.Prelude.{◌≡◌, ◌+◌, ◌-◌, ◌≤◌, ◌<◌, true, false, option_map, IfOk, IfSome, length, drop, slice_range, slice_index};
ghost use Rattle.wat_lexer.specs.Bytes.{is_idchar, is_space};
ghost use Rattle.wat_lexer.specs.Scan.{behind_comment, behind_line, behind_run, behind_spaces, all_idchars, Between, RunEndIs};

use crate::byte_table::{IDCHARS, IN_COMMENT, IN_LINE, SPACES, is_marked, marked_end};
use crate::string::string_end;

/// Returns whether the byte is a space, a tab, LF or CR (WebAssembly Core Specification, Text
/// Format, Lexical Format, White Space).
#[inline(always)]
#[tactic(auto, using(crate::proofs::Tables::space_at))]
pub fn is_space(b: u8) -> bool
    ensures { result ≡ is_space b }
{
    is_marked(&SPACES, b)
}

/// Returns whether the byte is an `idchar`: a letter, a digit or one of the symbols that names have
/// (WebAssembly Core Specification, Text Format, Values, Identifiers).
#[inline(always)]
#[tactic(auto, using(crate::proofs::Tables::idchar_at))]
pub fn is_idchar(b: u8) -> bool
    ensures { result ≡ is_idchar b }
{
    is_marked(&IDCHARS, b)
}

/// Returns the offset after a block comment, or `None` if it isn't closed. `from` is the offset
/// after its `(;`. Offsets are in bytes (WebAssembly Core Specification, Text Format, Lexical
/// Format, Comments).
#[tactic(auto, using(crate::proofs::Steps::comment_step, crate::proofs::Steps::comment_none))]
pub fn comment_end(text: &[u8], from: usize) -> Option<usize>
    requires { from ≤ length text.now }
    ensures within { IfSome result (λ end. (from ≤ end) × (end ≤ length text.now)) }
    ensures value { option_map (λ end. drop end text.now) result ≡ behind_comment 0
        (drop from text.now) }
{
    let mut depth: usize = 0;
    let mut i = from;
    while i + 1 < text.len() {
        let a = text[i];
        let b = text[i + 1];
        if a == b'(' && b == b';' {
            depth += 1;
            i += 2;
        } else if a == b';' && b == b')' {
            i += 2;
            if depth == 0 {
                return Some(i);
            }
            depth -= 1;
        } else {
            i = marked_end(&IN_COMMENT, text, i + 1);
        }
    }
    None
}

/// Returns the offset of the LF or CR that ends a line comment, or the text's length. `from` is the
/// offset after its `;;`. Offsets are in bytes (WebAssembly Core Specification, Text Format, Lexical
/// Format, Comments).
pub fn line_end(text: &[u8], from: usize) -> usize
    requires { from ≤ length text.now }
    ensures within { (from ≤ result) × (result ≤ length text.now) }
    ensures value { drop result text.now ≡ behind_line (drop from text.now) }
{
    marked_end(&IN_LINE, text, from)
}

/// Returns the offset, in bytes, of the first byte from `from` on that isn't a space, or the text's
/// length. Tabs, LF and CR are spaces too.
#[inline(always)]
pub fn spaces_end(text: &[u8], from: usize) -> usize
    requires { from ≤ length text.now }
    ensures within { (from ≤ result) × (result ≤ length text.now) }
    ensures value { drop result text.now ≡ behind_spaces (drop from text.now) }
{
    marked_end(&SPACES, text, from)
}

/// Returns the offset, in bytes, of the first byte from `from` on that isn't an `idchar`, or the
/// text's length.
#[inline(always)]
pub fn plain_end(text: &[u8], from: usize) -> usize
    requires { from ≤ length text.now }
    ensures within { (from ≤ result) × (result ≤ length text.now) }
    ensures all { all_idchars (slice_range text.now from result) ≡ true }
    ensures run { behind_run Between (drop from text.now) ≡ behind_run Between
        (drop result text.now) }
    ensures stops { result < length text.now → is_idchar (slice_index text.now result) ≡ false }
{
    marked_end(&IDCHARS, text, from)
}

/// As `run_end`, from a quote on.
// Few runs have a string, so this function isn't inlined.
#[inline(never)]
#[tactic(auto, using(crate::proofs::Steps::run_steps))]
fn strings_end(text: &[u8], from: usize) -> Result<usize, usize>
    requires place { from < length text.now }
    requires quote { slice_index text.now from ≡ 34 }
    ensures within { IfOk result (λ end. (from ≤ end) × (end ≤ length text.now)) }
    ensures ascii { IfOk result (λ end. slice_index text.now (end - 1) < 128) }
    ensures value { RunEndIs text.now result (behind_run Between (drop from text.now)) }
{
    let mut i = from;
    while i < text.len() && text[i] == b'"' {
        match string_end(text, i + 1) {
            Some(end) => i = plain_end(text, end),
            None => return Err(i),
        }
    }
    Ok(i)
}

/// Returns the offset after the longest run of `idchar`s and strings from `from` on. If the run has
/// an invalid string, `Err` is the offset of its opening quote. Offsets are in bytes (WebAssembly
/// Core Specification, Text Format, Lexical Format, Tokens).
#[inline(always)]
#[tactic(auto, using(crate::proofs::Steps::run_steps))]
pub fn run_end(text: &[u8], from: usize) -> Result<usize, usize>
    requires { from ≤ length text.now }
    ensures within { IfOk result (λ end. (from ≤ end) × (end ≤ length text.now)) }
    ensures ascii { IfOk result (λ end. from < end → slice_index text.now (end - 1) < 128) }
    ensures value { RunEndIs text.now result (behind_run Between (drop from text.now)) }
{
    let end = plain_end(text, from);
    if end < text.len() && text[end] == b'"' {
        return strings_end(text, end);
    }
    Ok(end)
}

//! Strings and their escapes.

ghost use Rattle.std.specs.Prelude.{◌≡◌, ◌+◌, ◌-◌, ◌≤◌, ◌<◌, option_map, IfSome, MatchOption, None, Some, false, length, drop, encode_utf8, slice_range, slice_index};
ghost use Rattle.std.specs.Char.{digit_char, digit_value};
ghost use Rattle.wat_lexer.specs.Cut.{is_raw, short_escape};
ghost use Rattle.wat_lexer.specs.Scan.{string_at, rest_at, with_front, spelled, closing, Raw, Escape, Digits};

use crate::byte_table::{DIGIT_VALUES, RAW, marked_end};

/// The bytes that an escape in a string spells.
///
/// This type is public because definitions of specs/Scan.antt name it. No public function takes or
/// returns an `Escaped`.
#[derive(Clone, Copy, Drop)]
pub enum Escaped {
    /// One byte.
    Byte(u8),
    /// The UTF-8 bytes of the character.
    Char(char),
}

/// Returns the value of a byte as a digit: 0 to 9 for a digit, 10 to 35 for a letter of either case,
/// 36 for any other byte.
#[inline(always)]
#[tactic(auto, using(crate::proofs::Tables::digit_value_at))]
pub fn digit_value(b: u8) -> u8
    ensures value { result ≡ digit_value b }
    ensures small { result ≤ 36 }
{
    DIGIT_VALUES[usize::from(b)]
}

/// Returns the hexadecimal digit of a number below 16, from `0` to `9` or from `a` to `f`.
pub fn hex_digit(value: u8) -> u8
    requires { value < 16 }
    ensures value { result ≡ digit_char value }
    ensures ascii { result < 128 }
{
    if value < 10 {
        b'0' + value
    } else {
        b'a' + (value - 10)
    }
}

/// The byte that a backslash and this letter spell, or `None` if they aren't an escape.
fn short_escape(b: u8) -> Option<u8>
    ensures { result ≡ short_escape b }
{
    match b {
        b't' => Some(9),
        b'n' => Some(10),
        b'r' => Some(13),
        b'"' | b'\'' | b'\\' => Some(b),
        _ => None,
    }
}

/// The offset of the first byte from `from` on that isn't raw, or the text's length.
pub(crate) fn raw_end(text: &[u8], from: usize) -> usize
    requires { from ≤ length text.now }
    ensures within { (from ≤ result) × (result ≤ length text.now) }
    ensures same { string_at Raw (drop from text.now) ≡ with_front
        (slice_range text.now from result) (string_at Raw (drop result text.now)) }
    ensures stops { result < length text.now → is_raw (slice_index text.now result) ≡ false }
{
    marked_end(&RAW, text, from)
}

/// As `raw_end`, for an offset after an escape.
// Often another escape follows directly.
#[inline(always)]
pub(crate) fn raw_end_behind(text: &[u8], from: usize) -> usize
    requires { from ≤ length text.now }
    ensures within { (from ≤ result) × (result ≤ length text.now) }
    ensures same { string_at Raw (drop from text.now) ≡ with_front
        (slice_range text.now from result) (string_at Raw (drop result text.now)) }
    ensures stops { result < length text.now → is_raw (slice_index text.now result) ≡ false }
{
    if from < text.len() && text[from] == b'\\' {
        from
    } else {
        raw_end(text, from)
    }
}

/// The character of a `\u{..}` escape, and the offset after its `}`. `from` is the offset after the
/// `{`. Returns `None` if the escape is invalid.
#[tactic(auto, using(crate::proofs::Steps::digits_steps))]
fn code_point(text: &[u8], from: usize) -> Option<(char, usize)>
    requires { from ≤ length text.now }
    ensures within { IfSome result (λ c. (from < c.1) × (c.1 ≤ length text.now)) }
    ensures value { MatchOption result (string_at (Digits 0 false) (drop from text.now) ≡ None)
        (λ c. string_at (Digits 0 false) (drop from text.now) ≡ with_front (encode_utf8 c.0)
        (string_at Raw (drop c.1 text.now))) }
{
    let mut n: u32 = 0;
    let mut behind = false;
    let mut i = from;
    while i < text.len() {
        let b = text[i];
        let digit = digit_value(b);
        if digit < 16 {
            n = n * 16 + digit as u32;
            behind = true;
            if n >= 0x110000 {
                return None;
            }
        } else if !behind {
            return None;
        } else if b == b'_' {
            behind = false;
        } else if b == b'}' {
            return match char::from_u32(n) {
                Some(c) => Some((c, i + 1)),
                None => None,
            };
        } else {
            return None;
        }
        i += 1;
    }
    None
}

/// The value of an escape, and the offset after the escape. `at` is the offset after the backslash.
/// Returns `None` if the escape is invalid.
#[inline(always)]
#[tactic(auto, using(crate::proofs::Steps::escape_steps))]
fn behind_backslash(text: &[u8], at: usize) -> Option<(Escaped, usize)>
    requires { at ≤ length text.now }
    ensures within { IfSome result (λ e. (at < e.1) × (e.1 ≤ length text.now)) }
    ensures value { MatchOption result (string_at Escape (drop at text.now) ≡ None)
        (λ e. string_at Escape (drop at text.now) ≡ with_front (spelled e.0) (string_at Raw
        (drop e.1 text.now))) }
{
    if at >= text.len() {
        return None;
    }
    let b = text[at];
    let high = digit_value(b);
    if high < 16 {
        if at + 1 >= text.len() {
            return None;
        }
        let low = digit_value(text[at + 1]);
        if low >= 16 {
            return None;
        }
        return Some((Escaped::Byte(high * 16 + low), at + 2));
    }
    if b == b'u' {
        if at + 1 >= text.len() || text[at + 1] != b'{' {
            return None;
        }
        return match code_point(text, at + 2) {
            Some((c, end)) => Some((Escaped::Char(c), end)),
            None => None,
        };
    }
    match short_escape(b) {
        Some(v) => Some((Escaped::Byte(v), at + 1)),
        None => None,
    }
}

/// The value of the escape at `at`, and the offset after the escape. Returns `None` if no valid
/// escape is at `at`.
#[inline(always)]
#[tactic(auto, using(crate::proofs::Steps::closing_steps))]
pub(crate) fn escape(text: &[u8], at: usize) -> Option<(Escaped, usize)>
    requires within { at ≤ length text.now }
    requires no_raw { at < length text.now → is_raw (slice_index text.now at) ≡ false }
    ensures within { IfSome result (λ e. (at < e.1) × (e.1 ≤ length text.now)) }
    ensures value { MatchOption result (string_at Raw (drop at text.now) ≡ closing
        (drop at text.now)) (λ e. string_at Raw (drop at text.now) ≡ with_front (spelled e.0)
        (string_at Raw (drop e.1 text.now))) }
{
    if at < text.len() && text[at] == b'\\' {
        behind_backslash(text, at + 1)
    } else {
        None
    }
}

/// The offset after a string's closing quote, or `None` if the string is invalid. `from` is the
/// offset after the opening quote.
#[tactic(auto, using(crate::proofs::Steps::string_steps))]
pub(crate) fn string_end(text: &[u8], from: usize) -> Option<usize>
    requires { from ≤ length text.now }
    ensures within { IfSome result (λ end. (from < end) × (end ≤ length text.now)) }
    ensures quote { IfSome result (λ end. slice_index text.now (end - 1) ≡ 34) }
    ensures rest { option_map (λ end. drop end text.now) result ≡ rest_at (drop from text.now) }
{
    let mut i = raw_end(text, from);
    while let Some((_, behind)) = escape(text, i) {
        i = raw_end_behind(text, behind);
    }
    if i < text.len() && text[i] == b'"' {
        Some(i + 1)
    } else {
        None
    }
}

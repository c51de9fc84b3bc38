//! Integer literals: their text, their sign and their values.

ghost use Rattle.std.specs.Prelude.{◌≡◌, ◌+◌, ◌-◌, ◌*◌, ◌^◌, ◌≤◌, ◌<◌, IsTrue, IfSome, is_some, length, drop, pos, neg_ℤ, MatchOption};
ghost use Rattle.wat_lexer.specs.Number.{number, begins_hex, magnitude, sign_of, without_sign, is_integer, is_width, up_to, unsigned_value, twos_complement, signed_value};

use crate::string::digit_value;

/// The sign of an integer literal.
#[derive(Clone, Copy, Debug, PartialEq, Eq)]
pub enum Sign {
    /// `+`
    Plus,
    /// `-`
    Minus,
}

/// An integer literal: an optional sign, then decimal digits, or `0x` and hexadecimal digits, with
/// single underscores between digits (WebAssembly Core Specification, Text Format, Values,
/// Integers).
#[derive(Clone, Copy, Debug)]
pub struct Integer<'a> {
    text: &'a str,
}

impl<'a> Integer<'a> {
    ghost use Rattle.wat_lexer.specs.Integer.{text_of};

    /// Returns the text as an integer literal, or `None` if the whole text isn't an integer literal
    /// (WebAssembly Core Specification, Text Format, Values, Integers).
    pub fn of(text: &'a str) -> Option<Integer<'a>>
        ensures whole { is_some result ≡ is_integer text.now }
        ensures same { IfSome result (λ i. text_of i ≡ text.now) }
    {
        if is_integer(text.as_bytes()) {
            Some(Integer { text })
        } else {
            None
        }
    }

    /// Wraps a text that is an integer literal.
    pub(crate) fn over(text: &'a str) -> Integer<'a>
        ensures { text_of result ≡ text.now }
    {
        Integer { text }
    }

    /// Returns the text, with the sign, the `0x` and the underscores.
    pub fn text(self) -> &'a str
        ensures { result.now ≡ text_of self.entry }
    {
        self.text
    }

    /// Returns the sign, or `None` if the literal has no sign.
    pub fn sign(self) -> Option<Sign>
        ensures { result ≡ sign_of (text_of self.entry) }
    {
        sign_of(self.text.as_bytes())
    }

    /// Returns the value as an unsigned number of 8, 16, 32 or 64 bits. `None` if the sign is `-`,
    /// also for `-0`, or if the value is above 2^bits - 1 (WebAssembly Core Specification, Text
    /// Format, Values, Integers).
    pub fn unsigned(self, bits: u32) -> Option<u64>
        requires { IsTrue (is_width bits) }
        ensures { result ≡ unsigned_value bits (text_of self.entry) }
    {
        let half = half_range(bits);
        match self.sign() {
            Some(Sign::Minus) => None,
            Some(Sign::Plus) | None => magnitude_up_to(self.text.as_bytes(), half - 1 + half),
        }
    }

    /// Returns the value as a signed number of 8, 16, 32 or 64 bits. Without a `-` the unsigned
    /// value is converted by two's complement, so `0xff` in 8 bits is -1. `None` if the value is
    /// above 2^bits - 1, or, after a `-`, above 2^(bits - 1) (WebAssembly Core Specification, Text
    /// Format, Values, Integers).
    pub fn signed(self, bits: u32) -> Option<i64>
        requires { IsTrue (is_width bits) }
        ensures { result ≡ signed_value bits (text_of self.entry) }
    {
        let text = self.text.as_bytes();
        let half = half_range(bits);
        match self.sign() {
            Some(Sign::Minus) => {
                let magnitude = magnitude_up_to(text, half)?;
                Some(negative(magnitude))
            }
            Some(Sign::Plus) | None => {
                let value = magnitude_up_to(text, half - 1 + half)?;
                Some(twos_complement(bits, value))
            }
        }
    }
}

/// 2^(bits - 1): the first number of `bits` bits that is negative by two's complement.
fn half_range(bits: u32) -> u64
    requires { IsTrue (is_width bits) }
    ensures value { result ≡ 2 ^ (bits - 1) }
    ensures twice { 2 ^ bits ≡ result + result }
    ensures positive { 0 < result }
    ensures small { result ≤ 2 ^ 63 }
{
    if bits == 8 {
        0x80
    } else if bits == 16 {
        0x8000
    } else if bits == 32 {
        0x8000_0000
    } else {
        0x8000_0000_0000_0000
    }
}

/// The signed number that has the same bits as `value`.
fn twos_complement(bits: u32, value: u64) -> i64
    requires width { IsTrue (is_width bits) }
    requires fits { value < 2 ^ bits }
    ensures { result ≡ twos_complement bits value }
{
    let half = half_range(bits);
    if value < half {
        value as i64
    } else {
        negative(half - (value - half))
    }
}

fn negative(magnitude: u64) -> i64
    requires { magnitude ≤ 2 ^ 63 }
    ensures { result ≡ neg_ℤ (pos magnitude) }
{
    if magnitude == 0 {
        0
    } else {
        -((magnitude - 1) as i64) - 1
    }
}

/// The value after the sign, or `None` if the value is above the limit.
#[tactic(auto, using(crate::proofs::Plain::hex_after))]
fn magnitude_up_to(text: &[u8], limit: u64) -> Option<u64>
    ensures value { result ≡ up_to limit (magnitude (without_sign text.now)) }
    ensures small { IfSome result (λ n. n ≤ limit) }
{
    let from = sign_length(text);
    if begins_hex(text, from) {
        number_up_to(text, from + 2, 16, limit)
    } else {
        number_up_to(text, from, 10, limit)
    }
}

/// The value of a number with one more digit, or `None` if the value is above the limit.
fn with_digit(value: u64, base: u8, digit: u8, limit: u64) -> Option<u64>
    ensures { MatchOption result (limit < value * base + digit) (λ n. (n ≡ value * base + digit)
        × (n ≤ limit)) }
{
    let shifted = value.checked_mul(u64::from(base))?;
    let found = shifted.checked_add(u64::from(digit))?;
    if found > limit {
        return None;
    }
    Some(found)
}

/// The value of the digits of the base from `from` on, with single underscores between digits.
/// Returns `None` if the value is above the limit, or the text from `from` on isn't such digits.
#[tactic(auto, using(crate::proofs::Values::value_steps))]
fn number_up_to(text: &[u8], from: usize, base: u8, limit: u64) -> Option<u64>
    requires within { from ≤ length text.now }
    requires low { 2 ≤ base }
    requires high { base ≤ 16 }
    ensures value { result ≡ up_to limit (number base (drop from text.now)) }
    ensures small { IfSome result (λ n. n ≤ limit) }
{
    let mut n: u64 = 0;
    let mut behind = false;
    let mut i = from;
    while i < text.len() {
        let digit = digit_value(text[i]);
        if digit < base {
            n = with_digit(n, base, digit, limit)?;
            behind = true;
        } else {
            if !behind {
                return None;
            }
            if text[i] != b'_' {
                return None;
            }
            behind = false;
        }
        i += 1;
    }
    if behind { Some(n) } else { None }
}

fn sign_of(text: &[u8]) -> Option<Sign>
    ensures { result ≡ sign_of text.now }
{
    if text.is_empty() {
        None
    } else if text[0] == b'+' {
        Some(Sign::Plus)
    } else if text[0] == b'-' {
        Some(Sign::Minus)
    } else {
        None
    }
}

/// The length of the sign in bytes: 0 or 1.
fn sign_length(text: &[u8]) -> usize
    ensures within { result ≤ length text.now }
    ensures rest { drop result text.now ≡ without_sign text.now }
{
    if !text.is_empty() && (text[0] == b'+' || text[0] == b'-') {
        1
    } else {
        0
    }
}

#[tactic(auto, using(crate::proofs::Plain::hex_at, crate::proofs::Plain::hex_short))]
fn begins_hex(text: &[u8], from: usize) -> bool
    requires { from ≤ length text.now }
    ensures { result ≡ begins_hex (drop from text.now) }
{
    from + 1 < text.len() && text[from] == b'0' && text[from + 1] == b'x'
}

fn is_integer(text: &[u8]) -> bool
    ensures { result ≡ is_integer text.now }
{
    is_magnitude(text, sign_length(text))
}

#[tactic(auto, using(crate::proofs::Plain::hex_after))]
fn is_magnitude(text: &[u8], from: usize) -> bool
    requires { from ≤ length text.now }
    ensures { result ≡ is_some (magnitude (drop from text.now)) }
{
    if begins_hex(text, from) {
        is_number(text, from + 2, 16)
    } else {
        is_number(text, from, 10)
    }
}

/// Whether the text from `from` on is digits of the base, with single underscores between digits.
#[tactic(auto, using(crate::proofs::Plain::number_steps))]
fn is_number(text: &[u8], from: usize, base: u8) -> bool
    requires { from ≤ length text.now }
    ensures { result ≡ is_some (number base (drop from text.now)) }
{
    let mut i = from;
    let mut behind = false;
    while i < text.len() {
        let b = text[i];
        if digit_value(b) < base {
            behind = true;
        } else if behind && b == b'_' {
            behind = false;
        } else {
            return false;
        }
        i += 1;
    }
    behind
}

//! Float literals, by their spelling.

ghost use Rattle.std.specs.Prelude.{◌≡◌, ◌≤◌, length, drop};
ghost use Rattle.wat_lexer.specs.Prelude.{bytes_eq, without_sign};
ghost use Rattle.wat_masked.specs.Float.{is_digit, is_mark, is_hex_at, behind_digit, behind_other, next, is_last, is_whole, state_after, is_nan, is_magnitude, is_float};

use wat_lexer::string::digit_value;

/// A state within a number.
#[derive(Clone, Copy)]
pub(crate) enum FloatState {
    /// Before the first digit.
    Start,
    /// After a digit before the point.
    Whole,
    /// After a `_` before the point.
    WholeGap,
    /// Directly after the point.
    Point,
    /// After a digit of the fraction.
    Fraction,
    /// After a `_` of the fraction.
    FractionGap,
    /// Directly after the `e` or `p`.
    Mark,
    /// After the sign of the exponent.
    Sign,
    /// After a digit of the exponent.
    Exponent,
    /// After a `_` of the exponent.
    ExponentGap,
    /// After bytes that begin no number.
    Wrong,
}

fn is_digit(hex: bool, b: u8) -> bool
    ensures { result ≡ is_digit hex b }
{
    let value = digit_value(b);
    if hex { value < 16 } else { value < 10 }
}

fn is_mark(hex: bool, b: u8) -> bool
    ensures { result ≡ is_mark hex b }
{
    if hex {
        b == b'p' || b == b'P'
    } else {
        b == b'e' || b == b'E'
    }
}

/// Whether digits at a state are hexadecimal. The digits of an exponent are decimal.
fn is_hex_at(hex: bool, state: FloatState) -> bool
    ensures { result ≡ is_hex_at hex state }
{
    match state {
        FloatState::Mark | FloatState::Sign | FloatState::Exponent | FloatState::ExponentGap =>
            false,
        _ => hex,
    }
}

/// The state after a digit.
fn behind_digit(state: FloatState) -> FloatState
    ensures { result ≡ behind_digit state }
{
    match state {
        FloatState::Start | FloatState::Whole | FloatState::WholeGap => FloatState::Whole,
        FloatState::Point | FloatState::Fraction | FloatState::FractionGap => FloatState::Fraction,
        FloatState::Mark | FloatState::Sign | FloatState::Exponent | FloatState::ExponentGap =>
            FloatState::Exponent,
        FloatState::Wrong => FloatState::Wrong,
    }
}

/// The state after a byte that isn't a digit.
fn behind_other(hex: bool, state: FloatState, b: u8) -> FloatState
    ensures { result ≡ behind_other hex state b }
{
    match state {
        FloatState::Whole if b == b'_' => FloatState::WholeGap,
        FloatState::Whole if b == b'.' => FloatState::Point,
        FloatState::Fraction if b == b'_' => FloatState::FractionGap,
        FloatState::Whole | FloatState::Point | FloatState::Fraction if is_mark(hex, b) =>
            FloatState::Mark,
        FloatState::Mark if b == b'+' || b == b'-' => FloatState::Sign,
        FloatState::Exponent if b == b'_' => FloatState::ExponentGap,
        _ => FloatState::Wrong,
    }
}

/// The state after a byte.
fn next(hex: bool, state: FloatState, b: u8) -> FloatState
    ensures { result ≡ next hex state b }
{
    if is_digit(is_hex_at(hex, state), b) {
        behind_digit(state)
    } else {
        behind_other(hex, state, b)
    }
}

/// The state after the bytes from offset `from` on.
fn state_after(hex: bool, x: &[u8], from: usize) -> FloatState
    requires { from ≤ length x.now }
    ensures { result ≡ state_after hex FloatState.Start (drop from x.now) }
{
    let mut state = FloatState::Start;
    let mut i = from;
    while i < x.len() {
        state = next(hex, state, x[i]);
        i += 1;
    }
    state
}

/// Whether a number may end at a state.
fn is_last(state: FloatState) -> bool
    ensures { result ≡ is_last state }
{
    matches!(
        state,
        FloatState::Whole | FloatState::Point | FloatState::Fraction | FloatState::Exponent
    )
}

/// Whether a state is after a digit before the point.
fn is_whole(state: FloatState) -> bool
    ensures { result ≡ is_whole state }
{
    matches!(state, FloatState::Whole)
}

fn is_same(x: &[u8], y: &[u8]) -> bool
    ensures { result ≡ bytes_eq x.now y.now }
{
    x == y
}

/// Whether the bytes are `nan:0x` and digits.
fn is_nan(x: &[u8]) -> bool
    ensures { result ≡ is_nan x.now }
{
    if x.len() < 6 {
        return false;
    }
    is_same(&x[..6], b"nan:0x") && is_whole(state_after(true, x, 6))
}

/// Whether the bytes are a float without a sign.
fn is_magnitude(x: &[u8]) -> bool
    ensures { result ≡ is_magnitude x.now }
{
    if is_same(x, b"inf") || is_same(x, b"nan") || is_nan(x) {
        return true;
    }
    if x.len() >= 2 && x[0] == b'0' && x[1] == b'x' {
        is_last(state_after(true, x, 2))
    } else {
        is_last(state_after(false, x, 0))
    }
}

/// The bytes after the sign, or all bytes if there is no sign.
fn without_sign(x: &[u8]) -> &[u8]
    ensures { result.now ≡ without_sign x.now }
{
    if x.len() > 0 && (x[0] == b'+' || x[0] == b'-') {
        &x[1..]
    } else {
        x
    }
}

/// Whether the bytes are a float literal of the standard.
#[tactic(auto, unfolding(crate::specs::Float::is_float))]
pub(crate) fn is_float(x: &[u8]) -> bool
    ensures { result ≡ is_float x.now }
{
    is_magnitude(without_sign(x))
}

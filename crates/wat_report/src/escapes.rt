//! Invalid escapes in a string.

ghost use Rattle.std.specs.Prelude.{◌≡◌, ◌≤◌, ◌+◌, drop, length, slice_index};
ghost use Rattle.wat_report.specs.Escapes.{escapes_end, escapes_len, is_escape};

use wat_lexer::string::digit_value;

/// Returns whether a backslash followed by the two bytes is a valid escape.
fn is_escape(first: u8, second: u8) -> bool
    ensures { result ≡ is_escape first second }
{
    matches!(first, b't' | b'n' | b'r' | b'u' | b'"' | b'\'' | b'\\')
        || digit_value(first) < 16 && digit_value(second) < 16
}

/// Returns the byte at an offset, or 0 at the end.
fn byte_at(bytes: &[u8], at: usize) -> u8
    ensures { result ≡ slice_index bytes.now at }
{
    if at < bytes.len() { bytes[at] } else { 0 }
}

/// Returns the offset, from an offset in a string on, of the first quote or invalid escape.
#[tactic(auto, using(crate::proofs::Escape::steps))]
fn escapes_end_from(bytes: &[u8], from: usize) -> usize
    requires { from ≤ length bytes.now }
    ensures { result ≡ from + escapes_len (drop from bytes.now) }
{
    let mut end = from;
    while end + 1 < bytes.len() {
        if bytes[end] == b'\\' {
            if !is_escape(bytes[end + 1], byte_at(bytes, end + 2)) {
                return end;
            }
            end += 2;
        } else if bytes[end] == b'"' {
            return end;
        } else {
            end += 1;
        }
    }
    end
}

/// Returns the offset of the first quote after the one at `at`, or of the first invalid escape.
#[tactic(auto, unfolding(crate::specs::Escapes::escapes_end), using(crate::proofs::Escape::steps))]
pub(crate) fn escapes_end(text: &str, at: usize) -> usize
    requires { at ≤ length text.now }
    ensures { result ≡ escapes_end text.now at }
{
    if at < text.len() {
        return escapes_end_from(text.as_bytes(), at + 1);
    }
    at + 1
}

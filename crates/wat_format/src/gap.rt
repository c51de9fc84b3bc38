//! The blanks between two pieces (Text Format, Lexical Format, "White Space").

ghost use Rattle.std.specs.Prelude.{string_bytes, ◌≡◌, ◌++◌, ◌&&◌, List, ℕ, true, OnOk, replicate};
ghost use Rattle.wat_format.specs.Shapes.{is_opening, gap_bytes, Separates, follows, no_gap, gap_first};

use crate::piece::Shape;
use std::alloc::AllocError;

/// Blanks to write: line ends, LF each, and then spaces.
#[derive(Clone, Copy, Debug)]
pub(crate) struct Gap {
    pub lines: usize,
    pub spaces: usize,
}

/// Whether the piece was `(`.
fn opens(shape: Shape) -> bool
    ensures { result ≡ is_opening shape }
{
    matches!(shape, Shape::Open)
}

/// Whether a byte can be directly after a piece. A byte that could extend the piece, or make it
/// another piece, is refused.
fn may_follow(last: Shape, first: u8) -> bool
    ensures { result ≡ true → follows last first ≡ true }
{
    match last {
        Shape::Line => first == b'\n',
        Shape::Block | Shape::Close => true,
        Shape::Open => first != b';',
        Shape::Word => matches!(first, b' ' | b'\n' | b'(' | b')' | b';'),
    }
}

/// The first byte of a gap and the byte after the gap.
fn first_byte(gap: Gap, first: u8) -> u8
    ensures { result ≡ gap_first gap.lines gap.spaces first }
{
    if gap.lines > 0 {
        b'\n'
    } else if gap.spaces > 0 {
        b' '
    } else {
        first
    }
}

/// Whether a gap can be between a piece and the first byte of the next piece. `directly` is whether
/// the text has nothing between the two. A `@` stays directly after a `(`, or away from it.
fn fits(gap: Gap, last: Shape, directly: bool, first: u8) -> bool
    ensures follows { result ≡ true → follows last (gap_first gap.lines gap.spaces first) ≡ true }
    ensures flag { result ≡ true → first ≡ 64 → no_gap gap.lines gap.spaces && is_opening last
        ≡ directly && is_opening last }
{
    let none = gap.lines == 0 && gap.spaces == 0;
    if first == b'@' && opens(last) && none != directly {
        return false;
    }
    may_follow(last, first_byte(gap, first))
}

fn put_lines(out: &mut String, times: usize) -> Result<(), AllocError>
    ensures { OnOk result (string_bytes out.new ≡ string_bytes out.old ++ replicate times 10) }
{
    'turns: for _ in 0..times {
        out.push_str("\n")?;
    }
    Ok(())
}

fn put_spaces(out: &mut String, times: usize) -> Result<(), AllocError>
    ensures { OnOk result (string_bytes out.new ≡ string_bytes out.old ++ replicate times 32) }
{
    'turns: for _ in 0..times {
        out.push_str(" ")?;
    }
    Ok(())
}

fn put_gap(out: &mut String, gap: Gap) -> Result<(), AllocError>
    ensures { OnOk result (string_bytes out.new
        ≡ string_bytes out.old ++ gap_bytes gap.lines gap.spaces) }
{
    put_lines(out, gap.lines)?;
    put_spaces(out, gap.spaces)
}

/// Writes the wanted gap between a piece and the first byte of the next piece. Writes the blanks of
/// the text if no gap is wanted, or if the wanted gap doesn't fit.
pub(crate) fn put_blanks(
    out: &mut String,
    wanted: Option<Gap>,
    blanks: &str,
    last: Shape,
    first: u8,
) -> Result<(), AllocError>
    requires { Separates last blanks.now first blanks.now }
    ensures { OnOk result ((x : List ℕ) × Separates last blanks.now first x
        × (string_bytes out.new ≡ string_bytes out.old ++ x)) }
{
    if let Some(gap) = wanted {
        if fits(gap, last, blanks.is_empty(), first) {
            return put_gap(out, gap);
        }
    }
    out.push_str(blanks)
}

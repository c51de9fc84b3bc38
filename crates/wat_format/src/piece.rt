//! The piece of a text at an offset: a token or a comment (Text Format, Lexical Format, "Tokens",
//! "Comments").

ghost use Rattle.std.specs.Prelude.{◌≡◌, ◌+◌, ◌-◌, ◌≤◌, ◌<◌, ◌==◌, ◌&&◌, false, nat_lt, IfOk, IfErr, length, drop, slice_range, slice_index};
ghost use Rattle.wat_lexer.specs.Bytes.{is_space};
ghost use Rattle.wat_format.specs.Shapes.{IsOfShape, Follows, IsEdge, WrongAt};

use wat_lexer::fault::{Error, Fault, fault_at};
use wat_lexer::scan::{comment_end, line_end, run_end};

/// The kind of a piece.
#[derive(Clone, Copy, Debug)]
pub(crate) enum Shape {
    /// A comment up to the end of the line.
    Line,
    /// A comment between `(;` and `;)`.
    Block,
    /// `(`
    Open,
    /// `)`
    Close,
    /// Any other token.
    Word,
}

/// A piece, and the byte offset of its end.
#[derive(Clone, Copy, Debug)]
pub(crate) struct Piece {
    pub shape: Shape,
    pub end: usize,
}

/// Whether the byte at an offset is `;`.
fn is_mark(text: &[u8], at: usize) -> bool
    ensures { result ≡ (nat_lt at (length text.now) && (slice_index text.now at == 59)) }
{
    at < text.len() && text[at] == b';'
}

/// Returns the block comment at an offset.
fn block_comment(text: &[u8], at: usize) -> Result<Piece, Error>
    requires inside { at + 1 < length text.now }
    requires first { slice_index text.now at ≡ 40 }
    requires second { slice_index text.now (at + 1) ≡ 59 }
    ensures within { IfOk result (λ p. (at < p.end) × (p.end ≤ length text.now)) }
    ensures stands { IfOk result (λ p. IsOfShape p.shape (slice_range text.now at p.end)) }
    ensures follows { IfOk result (λ p. Follows p.shape (drop p.end text.now)) }
    ensures edge { IfOk result (λ p. IsEdge text.now p.end) }
    ensures wrong { IfErr result (λ e. WrongAt text.now at e) }
{
    match comment_end(text, at + 2) {
        Some(end) => Ok(Piece {
            shape: Shape::Block,
            end,
        }),
        None => Err(fault_at(Fault::LexComment, at)),
    }
}

/// Returns the line comment at an offset.
fn line_comment(text: &[u8], at: usize) -> Piece
    requires inside { at + 1 < length text.now }
    requires first { slice_index text.now at ≡ 59 }
    requires second { slice_index text.now (at + 1) ≡ 59 }
    ensures within { (at < result.end) × (result.end ≤ length text.now) }
    ensures stands { IsOfShape result.shape (slice_range text.now at result.end) }
    ensures follows { Follows result.shape (drop result.end text.now) }
    ensures edge { IsEdge text.now result.end }
{
    Piece {
        shape: Shape::Line,
        end: line_end(text, at + 2),
    }
}

/// Returns the run at an offset.
fn word(text: &[u8], at: usize) -> Result<Piece, Error>
    requires inside { at < length text.now }
    requires no_space { is_space (slice_index text.now at) ≡ false }
    requires no_open { (slice_index text.now at == 40) ≡ false }
    requires no_close { (slice_index text.now at == 41) ≡ false }
    requires no_mark { (slice_index text.now at == 59) ≡ false }
    ensures within { IfOk result (λ p. (at < p.end) × (p.end ≤ length text.now)) }
    ensures stands { IfOk result (λ p. IsOfShape p.shape (slice_range text.now at p.end)) }
    ensures follows { IfOk result (λ p. Follows p.shape (drop p.end text.now)) }
    ensures edge { IfOk result (λ p. IsEdge text.now p.end) }
    ensures wrong { IfErr result (λ e. WrongAt text.now at e) }
{
    match run_end(text, at) {
        Ok(end) => {
            if end == at {
                Err(fault_at(Fault::LexChar, at))
            } else {
                Ok(Piece {
                    shape: Shape::Word,
                    end,
                })
            }
        }
        Err(quote) => Err(fault_at(Fault::LexString, quote)),
    }
}

/// Returns the piece at an offset whose byte isn't a space.
pub(crate) fn piece_at(text: &[u8], at: usize) -> Result<Piece, Error>
    requires inside { at < length text.now }
    requires no_space { is_space (slice_index text.now at) ≡ false }
    ensures within { IfOk result (λ p. (at < p.end) × (p.end ≤ length text.now)) }
    ensures stands { IfOk result (λ p. IsOfShape p.shape (slice_range text.now at p.end)) }
    ensures follows { IfOk result (λ p. Follows p.shape (drop p.end text.now)) }
    ensures edge { IfOk result (λ p. IsEdge text.now p.end) }
    ensures wrong { IfErr result (λ e. WrongAt text.now at e) }
{
    let b = text[at];
    let marked = is_mark(text, at + 1);
    if b == b'(' {
        if marked {
            return block_comment(text, at);
        }
        return Ok(Piece {
            shape: Shape::Open,
            end: at + 1,
        });
    }
    if b == b')' {
        return Ok(Piece {
            shape: Shape::Close,
            end: at + 1,
        });
    }
    if b == b';' {
        if marked {
            return Ok(line_comment(text, at));
        }
        return Err(fault_at(Fault::LexChar, at));
    }
    word(text, at)
}

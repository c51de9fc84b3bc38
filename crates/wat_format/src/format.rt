//! Formats a text.
//!
//! The formatter reads tokens and comments one by one, and writes them with other white space
//! between them. Besides the result it keeps only the open groups in memory. If a group is open at
//! the end, the whole text is cut too.

ghost use Rattle.std.specs.Prelude.{string_bytes, ◌≡◌, ◌<◌, IfOk, IfErr, List};
ghost use Rattle.wat_format.specs.Prelude.{FirstFault, IsCut, offset_of, Placed, tokens_of, IfFault, SameButSpaces};
ghost use Rattle.wat_lexer.specs.View.{FailsAt};

use crate::gap::put_blanks;
use crate::layout::Layout;
use crate::piece::{Shape, piece_at};
use bumpalo::Bump;
use std::alloc::Global;
use wat_lexer::cut::cut;
use wat_lexer::fault::Error;
use wat_lexer::scan::spaces_end;

/// The written text, and the number of open groups at its end.
#[derive(Drop)]
struct Written {
    text: String,
    groups: usize,
}

/// Writes the text's pieces with other blanks between them. If no group is open at the end, each
/// annotation's group is closed, so the text has a cut.
fn write(alloc: Global, text: &str) -> Result<Written, Error>
    ensures same { IfOk result (λ w. SameButSpaces text.now (string_bytes w.text)) }
    ensures closed { IfOk result (λ w. w.groups ≡ 0 → (ts : List Placed) × IsCut text.now ts) }
    ensures fails { IfErr result (λ e. IfFault e (FailsAt text.now e)) }
{
    let bytes = text.as_bytes();
    let mut out = String::new(alloc);
    let mut layout = Layout::new(alloc);
    let mut last = Shape::Block;
    let mut end = 0;
    'pieces: loop {
        let at = spaces_end(bytes, end);
        if at >= bytes.len() {
            break;
        }
        let piece = match piece_at(bytes, at) {
            Err(e) => return Err(e),
            Ok(piece) => piece,
        };
        let blanks = &text[end..at];
        let gap = layout.gap(bytes, blanks.as_bytes(), at, piece);
        put_blanks(&mut out, gap, blanks, last, bytes[at])?;
        out.push_str(&text[at..piece.end])?;
        layout.pass(bytes, at, piece)?;
        last = piece.shape;
        end = piece.end;
    }
    if end > 0 {
        out.push_str("\n")?;
    }
    Ok(Written {
        text: out,
        groups: layout.groups(),
    })
}

/// Returns a text with other white space. Tokens and comments stay, byte for byte and in order. Line
/// breaks stay where the author put them. Lines are indented by the number of open groups and open
/// flat blocks. A result that isn't empty ends in one LF.
///
/// Returns the errors of `cut`, at the same offsets: LexChar, LexString, LexComment, LexAnnotation
/// and Memory. The text is read once, or twice if a group is open at the end. WebAssembly Core
/// Specification, Text Format, Lexical Format, White Space, Comments and Annotations.
pub fn format(alloc: Global, text: &str) -> Result<String, Error>
    ensures same { IfOk result (λ a. SameButSpaces text.now (string_bytes a)) }
    // Both texts have cuts, with the same tokens.
    ensures tokens { IfOk result (λ a. (ts : List Placed) × (us : List Placed) × IsCut text.now ts
        × IsCut (string_bytes a) us × (tokens_of us ≡ tokens_of ts)) }
    // If the fault isn't Memory, the text has no cut, and the fault is the first from the left.
    ensures refused { IfErr result (λ e. IfFault e (FirstFault text.now e.fault (offset_of e.span)
        × ((ts : List Placed) → IsCut text.now ts → ⊥))) }
{
    let written = match write(alloc, text) {
        Err(e) => return Err(e),
        Ok(written) => written,
    };
    if written.groups > 0 {
        let arena = Bump::new(alloc);
        match cut(alloc, text, &arena) {
            Err(e) => return Err(e),
            Ok(_) => {}
        }
    }
    Ok(written.text)
}

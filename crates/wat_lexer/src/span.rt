//! Positions in a text.

ghost use Rattle.std.specs.Prelude.{◌≡◌};

/// A position in a text: an offset in bytes from its start.
#[derive(Clone, Copy, Debug, PartialEq, Eq, Hash)]
pub struct Span {
    offset: usize,
}

impl Span {
    ghost use Rattle.wat_lexer.specs.Offset.{offset_of};

    /// Returns the position at this offset, in bytes.
    pub fn from_offset(offset: usize) -> Span
        ensures { offset_of result ≡ offset }
    {
        Span { offset }
    }

    /// Returns the offset, in bytes from the start of the text.
    pub fn offset(self) -> usize
        ensures { result ≡ offset_of self }
    {
        self.offset
    }
}

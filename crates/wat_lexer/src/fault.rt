//! Errors of a text.

ghost use Rattle.std.specs.Prelude.{◌≡◌};
ghost use Rattle.wat_lexer.specs.Offset.{offset_of};
ghost use Rattle.wat_lexer.specs.Faults.{fault_number, fault_name};

use crate::span::Span;
use std::alloc::{AllocError, AllocFailed};
use thiserror::Error;

/// The kind of an error in a text. Each fault has a number from 1 to 21. Offsets are in bytes from
/// the start of the text.
#[derive(Clone, Copy, Debug, PartialEq, Eq, Hash)]
pub enum Fault {
    /// Out of memory, or a text of 2^48 bytes or more. The offset is 0.
    Memory = 1,
    /// A character outside strings and comments that begins no token and no blank. The offset is
    /// that of the character.
    LexChar = 2,
    /// A string that isn't closed, or that has an invalid character or escape. The offset is that
    /// of its opening quote.
    LexString = 3,
    /// A block comment that isn't closed. The offset is that of the `(` of the outermost comment.
    LexComment = 4,
    /// An annotation group that isn't closed. The offset is that of the `(` of the first such
    /// group.
    LexAnnotation = 5,
    /// A token other than the expected token. The offset is that of the token, or the text's length
    /// if the text ends there.
    Unexpected = 6,
    /// A number out of range. The offset is that of its token.
    Range = 7,
    /// A string that must be UTF-8 and isn't. The offset is that of the string.
    Utf8 = 8,
    /// A floating-point literal: the parser doesn't support them. The offset is that of its token.
    FloatLiteral = 9,
    /// An alignment that isn't a power of two. The offset is that of the word `align=`.
    Alignment = 10,
    /// A page size that isn't a power of two. The offset is that of the number.
    PageSize = 11,
    /// A token other than the mnemonic that is expected. The offset is that of the token, or the
    /// text's length if the text ends there.
    Operator = 12,
    /// A parameter after a result. The offset is that of the word `param`.
    ParamAfterResult = 13,
    /// An `if` without a `then`. The offset is that of the `)` that closes the `if`.
    IfWithoutThen = 14,
    /// Another group after the `else` of an `if`. The offset is that of the token after its `(`.
    IfTooMany = 15,
    /// A branch hint whose string isn't one byte, 0 or 1. The offset is that of the string.
    HintValue = 16,
    /// A second branch hint for one instruction. The offset is that of its string.
    HintTwice = 17,
    /// A branch hint with no instruction after it. The offset is that of the `)` or the word `then`
    /// there, or the text's length.
    HintPlace = 18,
    /// Import items of two kinds in one import. The offset is that of the word `item` of the first
    /// item of another kind.
    ImportMixed = 19,
    /// An identifier where an import can't have one. The offset is that of the identifier.
    ImportId = 20,
    /// An instruction after a branch hint that is neither `br_if` nor `if`. The offset is that of
    /// its mnemonic.
    HintTarget = 21,
}

impl Fault {
    /// Returns the number of the fault, from 1 to 21.
    pub fn number(self) -> u8
        ensures { result ≡ fault_number self }
    {
        self as u8
    }

    /// Returns the name of the fault: the name of its variant.
    pub fn name(self) -> &'static str
        ensures { result.now ≡ fault_name self }
    {
        match self {
            Fault::Memory => "Memory",
            Fault::LexChar => "LexChar",
            Fault::LexString => "LexString",
            Fault::LexComment => "LexComment",
            Fault::LexAnnotation => "LexAnnotation",
            Fault::Unexpected => "Unexpected",
            Fault::Range => "Range",
            Fault::Utf8 => "Utf8",
            Fault::FloatLiteral => "FloatLiteral",
            Fault::Alignment => "Alignment",
            Fault::PageSize => "PageSize",
            Fault::Operator => "Operator",
            Fault::ParamAfterResult => "ParamAfterResult",
            Fault::IfWithoutThen => "IfWithoutThen",
            Fault::IfTooMany => "IfTooMany",
            Fault::HintValue => "HintValue",
            Fault::HintTwice => "HintTwice",
            Fault::HintPlace => "HintPlace",
            Fault::ImportMixed => "ImportMixed",
            Fault::ImportId => "ImportId",
            Fault::HintTarget => "HintTarget",
        }
    }
}

/// An error: its kind and its position in the text.
#[derive(Clone, Copy, Debug, Error)]
#[error("{} at byte {}", .fault.name(), .span.offset())]
pub struct Error {
    /// The kind of the error.
    pub fault: Fault,
    /// The position, with offset 0 for Memory.
    pub span: Span,
}

impl Error {
    /// Returns the error of this kind at this position.
    pub fn at(fault: Fault, span: Span) -> Error
        ensures fault { result.fault ≡ fault }
        ensures span { result.span ≡ span }
    {
        Error { fault, span }
    }
}

impl From<AllocError> for Error {
    ghost use Rattle.wat_lexer.specs.Faults.{no_memory};

    ghost from_gives = { λ _ e. e ≡ no_memory };

    fn from(_e: AllocError) -> Error {
        Error::at(Fault::Memory, Span::from_offset(0))
    }
}

impl<T: Drop> From<AllocFailed<T>> for Error {
    ghost use Rattle.wat_lexer.specs.Faults.{no_memory};

    ghost from_gives = { λ _ e. e ≡ no_memory };

    fn from(_e: AllocFailed<T>) -> Error {
        Error::at(Fault::Memory, Span::from_offset(0))
    }
}

/// Returns the error of this kind at this offset, in bytes.
pub fn fault_at(fault: Fault, offset: usize) -> Error
    ensures fault { result.fault ≡ fault }
    ensures place { offset_of result.span ≡ offset }
{
    Error::at(fault, Span::from_offset(offset))
}

//! The reasons to refuse a value.

ghost use Rattle.std.specs.Prelude.{◌≡◌};
ghost use Rattle.wat_print.specs.Refusal.{refused_number};

use std::alloc::AllocError;
use thiserror::Error;

/// The reason why a value is refused. Each reason has a number, from 1 to 13.
///
/// If the reason is not Memory, no text spells the value.
#[derive(Clone, Copy, Debug, PartialEq, Eq, Hash, Error)]
pub enum Refused {
    /// Out of memory: an allocation failed.
    #[error("out of memory")]
    Memory = 1,
    /// An identifier is empty (Text Format, "Identifiers").
    #[error("an identifier is empty")]
    EmptyName = 2,
    /// A parameter that may have no label has an identifier or a name (Text Format, "Type Uses").
    /// Or a local in a group of several locals has an identifier or a name. Or a signature that
    /// several items share has an identifier.
    #[error("an identifier or a name isn't allowed here")]
    Label = 3,
    /// A page has 2^k bytes, and k is 32 or more, so the page size has more than 32 bits (Text
    /// Format, Types, "Memory Types", with the size of a page).
    #[error("a page size has more than 32 bits")]
    PageSize = 4,
    /// A definition has supertypes but no `sub` (Text Format, Types, "Recursive Types").
    #[error("a definition without `sub` has supertypes")]
    Parents = 5,
    /// The alignment of an access is neither a power of two nor the default alignment of its
    /// instruction (Text Format, Instructions, "Memory Instructions").
    #[error("an alignment isn't a power of two")]
    Alignment = 6,
    /// An access has an ordering that its instruction can't have (Text Format, Instructions,
    /// "Memory Instructions", with the proposals on threads).
    #[error("an instruction can't have this memory ordering")]
    Ordering = 7,
    /// No text is read as the floating-point number.
    #[error("no text is read as a floating-point number")]
    Float = 8,
    /// A hint is at an instruction other than `br_if` or `if`, its value is neither 0 nor 1, or its
    /// index isn't the index of an instruction. Or the indices of the hints don't increase (Branch
    /// Hinting, Custom Annotation `@metadata.code.branch_hint`).
    #[error("a branch hint has a wrong index, order or value")]
    Hint = 9,
    /// A table (Text Format, Modules, "Tables") that no text is read as:
    ///
    /// - a shared 64-bit table with inline elements;
    /// - a table whose inline elements have another type than the table;
    /// - a table whose inline elements are a list that is read as another list;
    /// - a table whose initial value has no instruction.
    #[error("no text is read as the table")]
    Table = 10,
    /// The entries of a `producers` section aren't in the order of its fields, or a field has no
    /// entry. Or the entries of a `dylink.0` section aren't grouped as parsing groups them.
    #[error("no text is read as the custom section")]
    Section = 11,
    /// The text of an integer isn't the text of an integer (Text Format, Values, "Integers"). An
    /// integer that was parsed never has this error.
    #[error("the text of an integer isn't an integer")]
    Integer = 12,
    /// A folded instruction contains no instruction. Or its last instruction is `try_table`, its
    /// first is `catch` or `catch_all`, and each instruction between them is one of these three
    /// (Text Format, Instructions, "Folded Instructions").
    #[error("no folded instruction has these instructions")]
    Folded = 13,
}

impl Refused {
    /// The number, from 1 to 13.
    pub fn number(self) -> u8
        ensures { result ≡ refused_number self }
    {
        self as u8
    }
}

impl From<AllocError> for Refused {
    ghost use Rattle.std.specs.Prelude.{◌≡◌};
    ghost use Rattle.wat_print.specs.declared.fault.Refused.TheVariants.{Memory};

    ghost from_gives = { λ _ e. e ≡ Memory };

    fn from(_e: AllocError) -> Refused {
        Refused::Memory
    }
}

//! The steps of an expression: what its instructions do with blocks and labels (Text Format, "Labels"
//! and "Control Instructions").

ghost use Rattle.std.specs.Prelude.{◌≡◌};
ghost use Rattle.wat_scopes.specs.Blocks.{allows_else, allows_catch, allows_delegate};

use wat_tokens::Id;

/// A part of a block. It determines which clause may follow in the block.
#[derive(Clone, Copy, Debug, PartialEq, Eq)]
pub enum Part {
    /// The body of a `block`, a `loop` or a `try_table`.
    Body,
    /// The part of an `if` before its `else`.
    Then,
    /// The part of an `if` after its `else`.
    Otherwise,
    /// The part of a `try` before its first clause.
    Try,
    /// The part of a `try` after a `catch`.
    Catch,
    /// The part of a `try` after its `catch_all`.
    CatchAll,
}

impl Part {
    /// Returns whether an `else` may follow.
    pub fn allows_else(self) -> bool
        ensures { result ≡ allows_else self }
    {
        match self {
            Part::Then => true,
            _ => false,
        }
    }

    /// Returns whether a `catch` or a `catch_all` may follow.
    pub fn allows_catch(self) -> bool
        ensures { result ≡ allows_catch self }
    {
        match self {
            Part::Try => true,
            Part::Catch => true,
            _ => false,
        }
    }

    /// Returns whether a `delegate` may follow.
    pub fn allows_delegate(self) -> bool
        ensures { result ≡ allows_delegate self }
    {
        match self {
            Part::Try => true,
            _ => false,
        }
    }
}

/// What an instruction does with blocks and labels.
#[derive(Clone, Copy, Debug)]
pub enum Act<'a> {
    /// Begins a block, perhaps with a label. The part is the block's first.
    Begin(Part, Option<Id<'a>>),
    /// Uses the label of an enclosing block.
    Refer(Id<'a>),
    /// `else`, perhaps with the label of the block.
    Else(Option<Id<'a>>),
    /// `end`, perhaps with the label of the block.
    End(Option<Id<'a>>),
    /// `catch` of a `try`.
    Catch,
    /// `catch_all` of a `try`.
    CatchAll,
    /// `delegate`, which ends a `try`.
    Delegate,
}

/// One act of an instruction. An instruction can have several.
#[derive(Clone, Copy, Debug)]
pub struct Step<'a> {
    /// What the instruction does.
    pub act: Act<'a>,
    /// The index of the instruction.
    pub at: usize,
}

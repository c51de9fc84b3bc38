//! The faults of names, blocks and imports.

ghost use Rattle.std.specs.Prelude.{◌≡◌};
ghost use Rattle.wat_scopes.specs.Faults.{fault_number, fault_name};

use crate::space::Space;
use wat_tokens::{Id, Span};

/// The kind of a fault of names, blocks or imports, from 101 to 109. The numbers of the kinds of
/// [`wat_tokens::Fault`] are smaller. The sections are those of the WebAssembly Core Specification,
/// Text Format.
#[derive(Clone, Copy, Debug, PartialEq, Eq, Hash)]
pub enum FaultKind {
    /// An identifier that isn't defined in its index space ("Contexts").
    UnknownName = 101,
    /// An identifier that is defined a second time in its index space ("Contexts").
    DoubledName = 102,
    /// A label that no enclosing block has ("Labels").
    UnknownLabel = 103,
    /// A label after `else` or `end` that isn't the label of the block ("Control Instructions").
    OtherLabel = 104,
    /// An `end` that ends no block ("Control Instructions").
    SurplusEnd = 105,
    /// A block without its `end` ("Control Instructions").
    UnclosedBlock = 106,
    /// An `else` that isn't directly in an `if`, or a second `else` ("Control Instructions").
    MisplacedElse = 107,
    /// A `catch`, `catch_all` or `delegate` that isn't directly in a `try`. Or one that the clauses
    /// before it exclude: no clause can follow `catch_all`, and no `catch` can precede `delegate`.
    MisplacedCatch = 108,
    /// An import after the definition of a function, table, memory, global or tag ("Modules").
    LateImport = 109,
}

impl FaultKind {
    /// Returns the number of the kind, from 101 to 109.
    pub fn number(self) -> u8
        ensures { result ≡ fault_number self }
    {
        self as u8
    }

    /// Returns the name of the kind: the name of its variant.
    pub fn name(self) -> &'static str
        ensures { result.now ≡ fault_name self }
    {
        match self {
            FaultKind::UnknownName => "UnknownName",
            FaultKind::DoubledName => "DoubledName",
            FaultKind::UnknownLabel => "UnknownLabel",
            FaultKind::OtherLabel => "OtherLabel",
            FaultKind::SurplusEnd => "SurplusEnd",
            FaultKind::UnclosedBlock => "UnclosedBlock",
            FaultKind::MisplacedElse => "MisplacedElse",
            FaultKind::MisplacedCatch => "MisplacedCatch",
            FaultKind::LateImport => "LateImport",
        }
    }
}

/// What else a report says of a fault: where to look for its reason.
#[derive(Clone, Copy, Debug)]
pub enum Note<'a> {
    /// Nothing.
    Nothing,
    /// The position of the first function, table, memory, global or tag that is defined in the
    /// module, for LateImport.
    First(Span),
    /// The innermost block that is open before the instruction: its label, and the position of the
    /// instruction that begins it. For OtherLabel, MisplacedElse and MisplacedCatch.
    Block(Option<Id<'a>>, Span),
    /// The labels of the enclosing blocks that have one, the innermost first, at most three. For
    /// UnknownLabel.
    Labels(Option<Id<'a>>, Option<Id<'a>>, Option<Id<'a>>),
}

/// A fault of names, blocks or imports: its kind, its subject and its position in the text.
#[derive(Clone, Copy, Debug)]
pub struct NameFault<'a> {
    /// The kind of the fault.
    pub kind: FaultKind,
    /// The index space of the identifier, for UnknownName and DoubledName.
    pub space: Option<Space<'a>>,
    /// The identifier or the label, if the fault is about one.
    pub id: Option<Id<'a>>,
    /// The position: of the identifier or the label; of the instruction, if the fault is about no
    /// label and spans are kept; otherwise of the field.
    pub span: Span,
    /// What else a report says.
    pub note: Note<'a>,
}

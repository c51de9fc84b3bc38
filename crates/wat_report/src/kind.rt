//! The kinds of errors that a diagnostic reports.

ghost use Rattle.std.specs.Prelude.{◌≡◌};
ghost use Rattle.wat_report.specs.Kinds.{kind_name, kind_number};

use wat_scopes::FaultKind;
use wat_tokens::Fault;

/// The kind of an error in a text.
#[derive(Clone, Copy, Debug, PartialEq, Eq, Hash)]
pub enum Kind {
    /// An error of the parser: the text isn't a module.
    Parse(Fault),
    /// A fault of names, blocks or imports: the text is a module that isn't well-formed (Core
    /// Specification, Text Format, "Contexts", "Labels" and "Modules").
    Names(FaultKind),
}

impl Kind {
    /// Returns the number of the kind: from 1 to 21 for Parse, and from 101 to 109 for Names.
    pub fn number(self) -> u8
        ensures { result ≡ kind_number self }
    {
        match self {
            Kind::Parse(fault) => fault.number(),
            Kind::Names(kind) => kind.number(),
        }
    }

    /// Returns the name of the kind: the name of the variant of [`Fault`] or [`FaultKind`].
    pub fn name(self) -> &'static str
        ensures { result.now ≡ kind_name self }
    {
        match self {
            Kind::Parse(fault) => fault.name(),
            Kind::Names(kind) => kind.name(),
        }
    }
}

//! The message of each fault of names, blocks and imports.

ghost use Rattle.std.specs.Prelude.{◌≡◌};
ghost use Rattle.wat_report.specs.NameRules.{a_noun, doubled_rule, names_id, unknown_rule, words_after, words_before};

use wat_scopes::{FaultKind, Space};

/// Returns what an identifier of an index space denotes, with its article.
pub(crate) fn a_noun(space: Space<'_>) -> &'static str
    ensures { result.now ≡ a_noun space.entry }
{
    match space {
        Space::Type => "a type",
        Space::Func => "a function",
        Space::Table => "a table",
        Space::Memory => "a memory",
        Space::Global => "a global",
        Space::Tag => "a tag",
        Space::Elem => "an element segment",
        Space::Data => "a data segment",
        Space::Local(_) => "a local",
        Space::FieldAt(_) => "a field",
        Space::FieldOf(_) => "a field",
    }
}

/// Returns the words before an identifier that its index space doesn't define.
fn unknown_rule(space: Option<Space<'_>>) -> &'static str
    ensures { result.now ≡ unknown_rule space.entry }
{
    let Some(space) = space else {
        return "no definition is called ";
    };
    match space {
        Space::Type => "no type is called ",
        Space::Func => "no function is called ",
        Space::Table => "no table is called ",
        Space::Memory => "no memory is called ",
        Space::Global => "no global is called ",
        Space::Tag => "no tag is called ",
        Space::Elem => "no element segment is called ",
        Space::Data => "no data segment is called ",
        Space::Local(_) => "no local is called ",
        Space::FieldAt(_) => "the structure type has no field ",
        Space::FieldOf(_) => "the structure type has no field ",
    }
}

/// Returns the words before an identifier that its index space defines twice.
fn doubled_rule(space: Option<Space<'_>>) -> &'static str
    ensures { result.now ≡ doubled_rule space.entry }
{
    let Some(space) = space else {
        return "two definitions are called ";
    };
    match space {
        Space::Type => "two types are called ",
        Space::Func => "two functions are called ",
        Space::Table => "two tables are called ",
        Space::Memory => "two memories are called ",
        Space::Global => "two globals are called ",
        Space::Tag => "two tags are called ",
        Space::Elem => "two element segments are called ",
        Space::Data => "two data segments are called ",
        Space::Local(_) => "two locals are called ",
        Space::FieldAt(_) => "two fields are called ",
        Space::FieldOf(_) => "two fields are called ",
    }
}

/// Returns whether the message of a fault has the identifier or the label that the fault is about.
pub(crate) fn names_id(kind: FaultKind) -> bool
    ensures { result ≡ names_id kind }
{
    matches!(
        kind,
        FaultKind::UnknownName
            | FaultKind::DoubledName
            | FaultKind::UnknownLabel
            | FaultKind::OtherLabel
    )
}

/// Returns the words of a message before the identifier. Returns the whole message if it has no
/// identifier.
pub(crate) fn words_before(kind: FaultKind, space: Option<Space<'_>>) -> &'static str
    ensures { result.now ≡ words_before kind space.entry }
{
    match kind {
        FaultKind::UnknownName => unknown_rule(space),
        FaultKind::DoubledName => doubled_rule(space),
        FaultKind::UnknownLabel => "no enclosing block has the label ",
        FaultKind::OtherLabel => "",
        FaultKind::SurplusEnd => "this `end` closes no block",
        FaultKind::UnclosedBlock => "this block has no `end`",
        FaultKind::MisplacedElse => "this `else` belongs to no `if`",
        FaultKind::MisplacedCatch => "this clause belongs to no `try`",
        FaultKind::LateImport => {
            "an import must come before the definitions of functions, tables, memories, globals and tags"
        }
    }
}

/// Returns the words of a message after the identifier.
pub(crate) fn words_after(kind: FaultKind) -> &'static str
    ensures { result.now ≡ words_after kind }
{
    match kind {
        FaultKind::OtherLabel => " isn't the label of this block",
        _ => "",
    }
}

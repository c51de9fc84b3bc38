//! The words of the hint for a fault of names, blocks or imports.

ghost use Rattle.std.specs.Prelude.{◌≡◌, ◌++◌, ◌≤◌, IfOk, OnOk, filter, length};
ghost use Rattle.std.specs.Str.{IsCharBoundary};
ghost use Rattle.std.specs.List.{find, list_all};
ghost use Rattle.wat_mnemonics.specs.Prelude.{is_idchar};
ghost use Rattle.wat_scopes.specs.Known.{same_names};
ghost use Rattle.wat_report.specs.NameHints.{doubled_hint, doubled_words, elsewhere_words, equal_words, in_space, is_candidate, is_elsewhere, is_of_module, name_hint, name_in_space, similar_words, unknown_hint, unknown_words};

use crate::found::add_marked_text;
use crate::hint_words::add_nearest_to;
use crate::label_hint::{
    add_block_hint, add_import_hint, add_innermost_hint, add_labels_hint, add_line_of,
};
use crate::name_rules::a_noun;
use crate::write::add;
use std::alloc::{AllocError, Global};
use wat_lexer::scan::is_idchar;
use wat_scopes::{FaultKind, Name, NameFault, Space};
use wat_tokens::{Id, Span};

/// Returns whether the name is in the index space.
fn in_space(space: Space<'_>, name: &Name<'_>) -> bool
    ensures { result ≡ in_space space.entry name.now }
{
    name.space == space
}

/// Returns whether the index space has definitions of the whole module: it isn't one of locals or
/// of fields.
fn is_of_module(space: Space<'_>) -> bool
    ensures { result ≡ is_of_module space.entry }
{
    match space {
        Space::Local(_) => false,
        Space::FieldAt(_) => false,
        Space::FieldOf(_) => false,
        _ => true,
    }
}

/// Returns whether the name has the same identifier, in another index space of the module.
fn is_elsewhere(name: Name<'_>, other: &Name<'_>) -> bool
    ensures { result ≡ is_elsewhere name.entry other.now }
{
    is_of_module(other.space) && other.id == name.id && !in_space(name.space, other)
}

/// Returns whether the identifier is written without quotes.
fn is_plain(identifier: &str) -> bool
    ensures { result ≡ list_all is_idchar identifier.now }
{
    identifier.as_bytes().iter().all(|b| is_idchar(*b))
}

/// Returns whether the name is in the index space, and its identifier is written without quotes.
fn is_candidate(space: Space<'_>, name: &Name<'_>) -> bool
    ensures { result ≡ is_candidate space.entry name.now }
{
    in_space(space, name) && is_plain(name.id.name())
}

/// Returns the first of the names that has the same identifier in another index space.
fn elsewhere<'a>(name: Name<'a>, names: &[Name<'a>]) -> Option<Name<'a>>
    ensures { result ≡ find (is_elsewhere name.entry) names.now }
{
    names
        .iter()
        .copied()
        .find(|other| is_elsewhere(name, other))
}

/// Returns the first of the names that is equal.
fn first_equal<'a>(name: Name<'a>, names: &[Name<'a>]) -> Option<Name<'a>>
    ensures { result ≡ find (λ m. same_names m name.entry) names.now }
{
    names.iter().copied().find(|other| *other == name)
}

/// Returns the names with which an unknown name may be confused.
fn candidates<'a>(
    alloc: Global,
    space: Space<'a>,
    names: &[Name<'a>],
) -> Result<Vec<Name<'a>>, AllocError>
    ensures { IfOk result (λ found. found.items ≡ filter (is_candidate space.entry) names.now) }
{
    names
        .iter()
        .copied()
        .filter(|name| is_candidate(space, name))
        .collect(alloc)
}

/// Adds that the identifier at the offset is one of the index space `other`, and not of `space`.
#[tactic(auto, unfolding(crate::specs::NameHints::elsewhere_words))]
fn add_elsewhere(
    out: &mut Vec<u8>,
    text: &str,
    at: usize,
    space: Space<'_>,
    other: Space<'_>,
) -> Result<(), AllocError>
    requires within { at ≤ length text.now }
    requires boundary { IsCharBoundary text.now at }
    ensures { OnOk result (out.new.items ≡ out.old.items ++ elsewhere_words text.now at space.entry
        other.entry) }
{
    add_marked_text(out, text, at)?;
    add(out, " is ")?;
    add(out, a_noun(other))?;
    add(out, ", not ")?;
    add(out, a_noun(space))
}

/// Adds the question for the nearest identifiers of the index space of the name.
fn add_similar(out: &mut Vec<u8>, name: Name<'_>, names: &[Name<'_>]) -> Result<(), AllocError>
    ensures { OnOk result (out.new.items ≡ out.old.items ++ similar_words name.entry names.now) }
{
    let near = candidates(*out.allocator(), name.space, names)?;
    add_nearest_to(out, "$", &near, name.id.name())
}

/// Adds the words for an unknown name.
fn add_unknown(
    out: &mut Vec<u8>,
    text: &str,
    at: usize,
    name: Name<'_>,
    names: &[Name<'_>],
) -> Result<(), AllocError>
    requires within { at ≤ length text.now }
    requires boundary { IsCharBoundary text.now at }
    ensures { OnOk result (out.new.items ≡ out.old.items ++ unknown_words text.now at name.entry
        names.now (find (is_elsewhere name.entry) names.now)) }
{
    match elsewhere(name, names) {
        None => add_similar(out, name, names),
        Some(other) => add_elsewhere(out, text, at, name.space, other.space),
    }
}

/// Adds the line of the first name that is equal.
#[tactic(auto, unfolding(crate::specs::NameHints::equal_words))]
fn add_equal(out: &mut Vec<u8>, text: &str, at: usize, first: Span) -> Result<(), AllocError>
    requires within { at ≤ length text.now }
    requires boundary { IsCharBoundary text.now at }
    ensures { OnOk result (out.new.items ≡ out.old.items ++ equal_words text.now at first) }
{
    add(out, "the first ")?;
    add_marked_text(out, text, at)?;
    add_line_of(out, text, " is in line ", first)
}

/// Adds the words for a name that is defined twice.
fn add_doubled(
    out: &mut Vec<u8>,
    text: &str,
    at: usize,
    name: Name<'_>,
    names: &[Name<'_>],
) -> Result<(), AllocError>
    requires within { at ≤ length text.now }
    requires boundary { IsCharBoundary text.now at }
    ensures { OnOk result (out.new.items ≡ out.old.items ++ doubled_words text.now at
        (find (λ m. same_names m name.entry) names.now)) }
{
    match first_equal(name, names) {
        None => Ok(()),
        Some(first) => add_equal(out, text, at, first.id.span()),
    }
}

/// Returns the identifier and the index space that a fault is about, if it has both.
fn name_in_space<'a>(space: Option<Space<'a>>, id: Option<Id<'a>>) -> Option<Name<'a>>
    ensures { result ≡ name_in_space space.entry id.entry }
{
    match space {
        None => None,
        Some(space) => match id {
            None => None,
            Some(id) => Some(Name { space, id }),
        },
    }
}

/// Adds the hint for an unknown name, if the fault is about one.
fn add_unknown_hint(
    out: &mut Vec<u8>,
    text: &str,
    at: usize,
    name: Option<Name<'_>>,
    names: &[Name<'_>],
) -> Result<(), AllocError>
    requires within { at ≤ length text.now }
    requires boundary { IsCharBoundary text.now at }
    ensures { OnOk result (out.new.items ≡ out.old.items ++ unknown_hint text.now at name.entry
        names.now) }
{
    match name {
        None => Ok(()),
        Some(name) => add_unknown(out, text, at, name, names),
    }
}

/// Adds the hint for a name that is defined twice, if the fault is about one.
fn add_doubled_hint(
    out: &mut Vec<u8>,
    text: &str,
    at: usize,
    name: Option<Name<'_>>,
    names: &[Name<'_>],
) -> Result<(), AllocError>
    requires within { at ≤ length text.now }
    requires boundary { IsCharBoundary text.now at }
    ensures { OnOk result (out.new.items ≡ out.old.items ++ doubled_hint text.now at name.entry
        names.now) }
{
    match name {
        None => Ok(()),
        Some(name) => add_doubled(out, text, at, name, names),
    }
}

/// Adds the words of the hint for a fault at an offset where a character begins. Adds nothing if
/// there is no hint. `names` are the names that the module defines.
pub(crate) fn add_name_hint(
    out: &mut Vec<u8>,
    text: &str,
    at: usize,
    fault: &NameFault<'_>,
    names: &[Name<'_>],
) -> Result<(), AllocError>
    requires within { at ≤ length text.now }
    requires boundary { IsCharBoundary text.now at }
    ensures { OnOk result (out.new.items ≡ out.old.items ++ name_hint text.now at fault.now
        names.now) }
{
    match fault.kind {
        FaultKind::UnknownName => {
            add_unknown_hint(out, text, at, name_in_space(fault.space, fault.id), names)
        }
        FaultKind::DoubledName => {
            add_doubled_hint(out, text, at, name_in_space(fault.space, fault.id), names)
        }
        FaultKind::UnknownLabel => add_labels_hint(out, text, fault.note),
        FaultKind::OtherLabel => add_block_hint(out, text, fault.note),
        FaultKind::SurplusEnd => add(out, "a folded `(block ..)` needs no `end`"),
        FaultKind::UnclosedBlock => add(
            out,
            "a block ends with `end`, unless it is folded, as in `(block ..)`",
        ),
        FaultKind::MisplacedElse => add_innermost_hint(out, text, fault.note),
        FaultKind::MisplacedCatch => add_innermost_hint(out, text, fault.note),
        FaultKind::LateImport => add_import_hint(out, text, fault.note),
    }
}

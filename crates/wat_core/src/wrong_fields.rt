//! The errors of a module's fields.

ghost use Rattle.std.specs.Prelude.{◌≡◌, ◌≢◌, ◌≤◌, ◌<◌, ◌+◌, ℕ, List, [], ◌∷◌, ◌++◌, take, length, IfOk, IfErr, OnOk, MatchOption, Option};
ghost use Rattle.wat_fields.specs.Prelude.{FirstFault, IsCut, offset_of, Placed, IfFault, Memory};
ghost use Rattle.wat_core.specs.WrongFields.{IsField, IsFaultOf, AreFaultsOf, Tells};
ghost use Rattle.wat_core.specs.Field.{module_field};
ghost use Rattle.wat_core.specs.ModuleGroups.{GroupsTo, HasGroups, IsPart, IsWithin, bytes_of};
ghost use Rattle.wat_core.specs.ModuleHead.{IsUnexpected};

use crate::field::ModuleField;
use crate::module_group::{Group, next_group};
use crate::module_head::{pass_head, wrong_end};
use bumpalo::Bump;
use std::alloc::{AllocError, Global};
use wat_lexer::fault::{Error, Fault, fault_at};
use wat_tokens::enclosed::Grouped;
use wat_tokens::parser::Parser;
use wat_tokens::traits::Parse;
use wat_tokens::whole_text::read_text;

/// The errors of a module's fields, and an error after them.
#[derive(Debug, Drop)]
pub struct FieldFaults {
    /// An error in each invalid group, in order, up to the number that the caller gave.
    pub faults: Vec<Error>,
    /// The number of invalid groups.
    pub count: usize,
    /// The number of groups.
    pub groups: usize,
    /// The error after the groups, if they aren't followed by the module's `)` and then the end of
    /// the text.
    pub beside: Option<Error>,
}

/// The bytes of a group.
fn part(text: &str, group: Group) -> &str
    requires { IsPart text.now group }
    ensures { result.now ≡ bytes_of text.now group }
{
    &text[group.from..group.end]
}

/// Returns a fault if a text isn't a T in parentheses; None if the text is a T in parentheses. The
/// only error is Memory.
fn fault_of<'a, T: Parse<'a> + Drop>(
    alloc: Global,
    text: &'a str,
    arena: &'a Bump,
) -> Result<Option<Error>, Error>
    ensures told { IfOk result (λ o. MatchOption o (IsField T.grammar text.now)
        (λ e. (e.fault ≢ Memory) × (IsField T.grammar text.now → ⊥))) }
    ensures memory { IfErr result (λ e. e.fault ≡ Memory) }
{
    let error = match read_text::<Grouped<T>>(alloc, text, arena, true) {
        Ok(_) => return Ok(None),
        Err(error) => error,
    };
    match error.fault {
        Fault::Memory => Err(error),
        _ => Ok(Some(error)),
    }
}

/// Moves a fault from its offset in the group to its offset in the whole text.
fn moved(error: Error, group: Group) -> Error
    requires order { group.from ≤ group.end }
    requires fault { error.fault ≢ Memory }
    ensures { IsFaultOf group result }
{
    let within = error.span.offset().min(group.end - group.from);
    fault_at(error.fault, group.from + within)
}

/// Keeps the fault of a group, unless `most` faults are kept already.
fn keep(faults: &mut Vec<Error>, most: usize, group: Group, error: Error) -> Result<(), AllocError>
    requires order { group.from ≤ group.end }
    requires fault { error.fault ≢ Memory }
    ensures { OnOk result ((wrong : List Group) → AreFaultsOf (take most wrong) faults.old.items
        → AreFaultsOf (take most (wrong ++ group ∷ [])) faults.new.items) }
{
    if faults.len() >= most {
        return Ok(());
    }
    faults.push(moved(error, group))?;
    Ok(())
}

impl FieldFaults {
    /// The result for a text without groups.
    fn none(alloc: Global) -> FieldFaults
        ensures faults { result.faults.items ≡ [] }
        ensures count { result.count ≡ 0 }
        ensures groups { result.groups ≡ 0 }
        ensures beside { result.beside ≡ None }
    {
        FieldFaults {
            faults: Vec::new(alloc),
            count: 0,
            groups: 0,
            beside: None,
        }
    }
}

/// Reads a group, and adds it to the results of the groups before.
fn check<'a, T: Parse<'a> + Drop>(
    alloc: Global,
    text: &'a str,
    arena: &'a Bump,
    group: Group,
    most: usize,
    found: &mut FieldFaults,
) -> Result<(), Error>
    requires part { IsPart text.now group }
    requires room { found.old.groups < usize.MAX }
    requires order { found.old.count ≤ found.old.groups }
    ensures tells { OnOk result ((gs : List Group)
        → Tells (IsField T.grammar) text.now most gs found.old
        → Tells (IsField T.grammar) text.now most (gs ++ group ∷ []) found.new) }
    ensures groups { OnOk result (found.new.groups ≡ found.old.groups + 1) }
    ensures order { OnOk result (found.new.count ≤ found.new.groups) }
    ensures memory { IfErr result (λ e. e.fault ≡ Memory) }
{
    let fault = match fault_of::<T>(alloc, part(text, group), arena) {
        Err(e) => return Err(e),
        Ok(fault) => fault,
    };
    found.groups += 1;
    match fault {
        None => Ok(()),
        Some(error) => {
            found.count += 1;
            keep(&mut found.faults, most, group, error)?;
            Ok(())
        }
    }
}

/// Reads the groups that are next, and returns their results.
fn check_all<'a, T: Parse<'a> + Drop>(
    alloc: Global,
    text: &'a str,
    arena: &'a Bump,
    parser: &mut Parser<'a>,
    most: usize,
) -> Result<FieldFaults, Error>
    requires within { IsWithin text.now parser.old }
    requires few { length parser.old.rest ≤ usize.MAX }
    ensures found { IfOk result (λ f. (gs : List Group)
        × GroupsTo (length text.now) parser.old.rest gs parser.new.rest
        × Tells (IsField T.grammar) text.now most gs f) }
    ensures within { IfOk result (λ _. IsWithin text.now parser.new) }
    ensures memory { IfErr result (λ e. e.fault ≡ Memory) }
{
    let mut found = FieldFaults::none(alloc);
    'groups: loop {
        let group = match next_group(parser, text) {
            None => return Ok(found),
            Some(group) => group,
        };
        match check::<T>(alloc, text, arena, group, most, &mut found) {
            Err(e) => return Err(e),
            Ok(()) => {}
        }
    }
}

/// Lists an error in each invalid field of a module, in order, and an error after the fields. A
/// group is valid if it is a `T` in parentheses.
///
/// The groups start after the module's head: `(`, the keyword `module`, an optional identifier, an
/// optional group `(@name ..)`. The contents of the group `(@name ..)` aren't checked. A text has
/// no groups if it lacks that head, or if the keyword `binary` follows the head (WebAssembly Core
/// Specification, Text Format, "Modules").
///
/// Each group is parsed as a separate text, up to its `)`, or to the end of the text if the group
/// isn't closed. So an error never hides the next field. The five standard annotations are known.
/// Names and strings without escapes are slices of the text. Names and strings with escapes are in
/// the arena.
///
/// All invalid groups are counted. `faults` has one error for each of the first `most` invalid
/// groups, with its offset in bytes from the start of the text. `beside` is Unexpected:
///
/// - at the token after the groups, if that token isn't `)`;
/// - at the token after that `)`, if another visible token follows;
/// - at the length of the text, if the `)` is missing.
///
/// A text with none of these errors can still be invalid: its head can be missing, or its name
/// annotation can be invalid, as in `(module (@name 1))`. [`read_module`](crate::read_module)
/// decides whether a text is a module.
///
/// Returns an error if the text has invalid tokens, as [`Parser::new`] does: LexChar, LexString,
/// LexComment or LexAnnotation, at its offset; or Memory.
pub fn field_faults<'a, T: Parse<'a> + Drop>(
    alloc: Global,
    text: &'a str,
    arena: &'a Bump,
    most: usize,
) -> Result<FieldFaults, Error>
    // The result describes the groups after the head of the text's cut, and the tokens after the
    // groups.
    ensures found { IfOk result (λ f. (ts : List Placed) × (gs : List Group) × (beside : Option ℕ)
        × IsCut text.now ts × HasGroups (length text.now) ts gs beside
        × Tells (IsField T.grammar) text.now most gs f × IsUnexpected f.beside beside) }
    // If the fault isn't Memory, the text has no cut, and the fault is the first from the left.
    ensures refused { IfErr result (λ e. IfFault e (FirstFault text.now e.fault (offset_of e.span)
        × ((ts : List Placed) → IsCut text.now ts → ⊥))) }
{
    let mut parser = match Parser::new(alloc, text, arena) {
        Err(e) => return Err(e),
        Ok(parser) => parser,
    };
    if !pass_head(&mut parser) {
        return Ok(FieldFaults::none(alloc));
    }
    let mut found = match check_all::<T>(alloc, text, arena, &mut parser, most) {
        Err(e) => return Err(e),
        Ok(found) => found,
    };
    found.beside = wrong_end(&mut parser, text.len());
    Ok(found)
}

/// Lists an error in each invalid field of a module, and an error after the fields:
/// [`field_faults`] for the type [`ModuleField`].
pub fn module_faults<'a>(
    alloc: Global,
    text: &'a str,
    arena: &'a Bump,
    most: usize,
) -> Result<FieldFaults, Error>
    ensures found { IfOk result (λ f. (ts : List Placed) × (gs : List Group) × (beside : Option ℕ)
        × IsCut text.now ts × HasGroups (length text.now) ts gs beside
        × Tells (IsField module_field) text.now most gs f × IsUnexpected f.beside beside) }
    ensures refused { IfErr result (λ e. IfFault e (FirstFault text.now e.fault (offset_of e.span)
        × ((ts : List Placed) → IsCut text.now ts → ⊥))) }
{
    field_faults::<ModuleField>(alloc, text, arena, most)
}

//! Whether each name that is used is defined, and none is defined twice (Text Format, "Contexts").

ghost use Rattle.std.specs.Prelude.{◌≡◌, ◌++◌, ◌&&◌, [], List, IfOk, OnOk};
ghost use Rattle.wat_tokens.specs.Prelude.{no_items};
ghost use Rattle.wat_scopes.specs.Known.{HasNames, names, distinct, all_known};
ghost use Rattle.wat_scopes.specs.NameFaults.{fault_if, doubled_faults, unknown_faults};
ghost use Rattle.wat_scopes.specs.Spaces.{NameModel};

use crate::fault::{FaultKind, NameFault, Note};
use crate::space::Name;
use std::alloc::AllocError;
use std::collections::HashSet;

/// Appends the fault of the name if `is_fault`.
fn add_if<'a>(
    out: &mut Vec<NameFault<'a>>,
    is_fault: bool,
    kind: FaultKind,
    name: &Name<'a>,
) -> Result<(), AllocError>
    ensures { OnOk result (out.new.items ≡ out.old.items ++ fault_if is_fault kind name.now) }
{
    if is_fault {
        out.push(NameFault {
            kind,
            space: Some(name.space),
            id: Some(name.id),
            span: name.id.span(),
            note: Note::Nothing,
        })?;
    }
    Ok(())
}

/// Returns the set of the names. Appends a fault for each that equals an earlier one.
fn define<'a>(
    out: &mut Vec<NameFault<'a>>,
    defined: &[Name<'a>],
) -> Result<HashSet<Name<'a>>, AllocError>
    ensures known { IfOk result (λ s. HasNames s (names defined.now)) }
    ensures faults { OnOk result (out.new.items ≡ out.old.items
        ++ doubled_faults [] defined.now) }
{
    let mut known = HashSet::new(*out.allocator());
    for name in defined {
        let is_new = known.insert(*name)?;
        add_if(out, !is_new, FaultKind::DoubledName, name)?;
    }
    Ok(known)
}

/// Adds the aliases to the known names.
fn add_aliases<'a>(known: &mut HashSet<Name<'a>>, aliases: &[Name<'a>]) -> Result<(), AllocError>
    ensures { OnOk result ((ns : List NameModel) → HasNames known.old ns
        → HasNames known.new (ns ++ names aliases.now)) }
{
    for name in aliases {
        known.insert(*name)?;
    }
    Ok(())
}

/// Appends a fault for each used name that isn't known.
fn look_up<'a>(
    out: &mut Vec<NameFault<'a>>,
    known: &HashSet<Name<'a>>,
    used: &[Name<'a>],
) -> Result<(), AllocError>
    ensures { OnOk result ((ns : List NameModel) → HasNames known.now ns
        → out.new.items ≡ out.old.items ++ unknown_faults ns used.now) }
{
    for name in used {
        let is_known = known.contains(name);
        add_if(out, !is_known, FaultKind::UnknownName, name)?;
    }
    Ok(())
}

/// Appends a fault for each defined name that equals an earlier one (DoubledName), and then one for
/// each used name that is neither defined nor an alias (UnknownName). An alias is another way to
/// refer to a definition. Aliases may be equal.
pub fn check_names<'a>(
    out: &mut Vec<NameFault<'a>>,
    defined: &[Name<'a>],
    aliases: &[Name<'a>],
    used: &[Name<'a>],
) -> Result<(), AllocError>
    ensures faults { OnOk result (out.new.items ≡ out.old.items ++ (doubled_faults [] defined.now
        ++ unknown_faults (names defined.now ++ names aliases.now) used.now)) }
    ensures none { OnOk result (no_items out.new.items ≡ (no_items out.old.items
        && (distinct (names defined.now)
        && all_known (names defined.now ++ names aliases.now) (names used.now)))) }
{
    let mut known = define(out, defined)?;
    add_aliases(&mut known, aliases)?;
    look_up(out, &known, used)
}

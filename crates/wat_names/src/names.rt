//! The faults of the names and blocks of a module.

ghost use Rattle.std.specs.Prelude.{◌≡◌, ◌++◌, ◌↔◌, [], IfOk, OnOk};
ghost use Rattle.wat_core.specs.Prelude.{fields_view, module_view};
ghost use Rattle.wat_scopes.specs.FaultModels.{doubled, faults_view, late, marks_view, unknown};
ghost use Rattle.wat_scopes.specs.Known.{names};
ghost use Rattle.wat_names.specs.Defined.{aliases, defined};
ghost use Rattle.wat_names.specs.Bodies.{expressions_faults, expressions_in};
ghost use Rattle.wat_names.specs.Found.{Returns};
ghost use Rattle.wat_names.specs.Marks.{marks};
ghost use Rattle.wat_names.specs.Names.{WellNamed, all_faults, faults_in, names_in, used};

use crate::bodies::Bodies;
use crate::defined::{alias_all, define_all};
use crate::marks::add_marks;
use crate::uses::use_fields;
use std::alloc::{AllocError, Global};
use wat_core::{Module, ModuleField, ModuleKind};
use wat_scopes::{Mark, Name, NameFault, check_imports, check_names};

/// The faults of the names and blocks of a module.
#[derive(Drop)]
pub struct NameFaults<'a> {
    /// The first faults in the order of their positions, at most as many as the caller asked for.
    pub faults: Vec<NameFault<'a>>,
    /// The number of all faults.
    pub count: usize,
    /// The names that the module defines: types and their fields, then those of the other fields of
    /// the module, in order.
    pub names: Vec<Name<'a>>,
}

/// Returns the faults of the expressions of fields, and all names that the fields use.
fn check_bodies<'a>(alloc: Global, fields: &[ModuleField<'a>]) -> Result<Bodies<'a>, AllocError>
    ensures faults { IfOk result (λ b. faults_view b.faults.items
        ≡ expressions_faults (expressions_in (fields_view fields.now))) }
    ensures used { IfOk result (λ b. names b.used.items ≡ used (fields_view fields.now)) }
{
    let mut bodies = Bodies {
        faults: Vec::new(alloc),
        used: Vec::new(alloc),
    };
    use_fields(&mut bodies.used, fields)?;
    bodies.check_fields(fields)?;
    Ok(bodies)
}

/// Appends the faults of names that are defined again, and of used names that are neither defined nor
/// an alias.
fn add_name_faults<'a>(
    out: &mut Vec<NameFault<'a>>,
    known: &[Name<'a>],
    others: &[Name<'a>],
    used: &[Name<'a>],
) -> Result<(), AllocError>
    ensures { OnOk result (faults_view out.new.items ≡ faults_view out.old.items
        ++ (doubled [] (names known.now)
        ++ unknown (names known.now ++ names others.now) (names used.now))) }
{
    check_names(out, known, others, used)
}

/// Appends the faults of names. `known` are the names that the fields define, and `used` those that
/// they use.
fn check_uses<'a>(
    out: &mut Vec<NameFault<'a>>,
    known: &[Name<'a>],
    used: &[Name<'a>],
    fields: &[ModuleField<'a>],
) -> Result<(), AllocError>
    ensures { OnOk result (faults_view out.new.items ≡ faults_view out.old.items
        ++ (doubled [] (names known.now)
        ++ unknown (names known.now ++ aliases (fields_view fields.now)) (names used.now))) }
{
    let mut others = Vec::new(*out.allocator());
    alias_all(&mut others, fields)?;
    add_name_faults(out, known, &others, used)
}

/// Appends the faults of imports after a definition.
fn add_import_faults<'a>(out: &mut Vec<NameFault<'a>>, marks: &[Mark]) -> Result<(), AllocError>
    ensures { OnOk result (faults_view out.new.items ≡ faults_view out.old.items
        ++ late (marks_view marks.now)) }
{
    check_imports(out, marks)
}

/// Appends the faults of the order of imports.
fn check_order<'a>(
    out: &mut Vec<NameFault<'a>>,
    fields: &[ModuleField<'a>],
) -> Result<(), AllocError>
    ensures { OnOk result (faults_view out.new.items ≡ faults_view out.old.items
        ++ late (marks (fields_view fields.now))) }
{
    let mut marks = Vec::new(*out.allocator());
    add_marks(&mut marks, fields)?;
    add_import_faults(out, &marks)
}

/// Returns all faults of fields. `known` are the names that the fields define.
fn check_fields<'a>(
    alloc: Global,
    known: &[Name<'a>],
    fields: &[ModuleField<'a>],
) -> Result<Vec<NameFault<'a>>, AllocError>
    requires { names known.now ≡ defined (fields_view fields.now) }
    ensures { IfOk result (λ v. faults_view v.items ≡ all_faults (fields_view fields.now)) }
{
    let Bodies { mut faults, used } = check_bodies(alloc, fields)?;
    check_uses(&mut faults, known, &used, fields)?;
    check_order(&mut faults, fields)?;
    Ok(faults)
}

/// Returns the names that a module defines.
fn defined_names<'a>(alloc: Global, module: &Module<'a>) -> Result<Vec<Name<'a>>, AllocError>
    ensures { IfOk result (λ v. names v.items ≡ names_in (module_view «module».now)) }
{
    let mut out = Vec::new(alloc);
    match &module.kind {
        ModuleKind::Text(fields) => define_all(&mut out, fields)?,
        ModuleKind::Binary(_) => {}
    }
    Ok(out)
}

/// Returns all faults of a module. `known` are the names that it defines.
fn all_faults<'a>(
    alloc: Global,
    known: &[Name<'a>],
    module: &Module<'a>,
) -> Result<Vec<NameFault<'a>>, AllocError>
    requires { names known.now ≡ names_in (module_view «module».now) }
    ensures { IfOk result (λ v. faults_view v.items ≡ faults_in (module_view «module».now)) }
{
    match &module.kind {
        ModuleKind::Text(fields) => check_fields(alloc, known, fields),
        ModuleKind::Binary(_) => Ok(Vec::new(alloc)),
    }
}

/// Returns the faults of the names and blocks of a module: the first `most` of them, and their
/// number. A module in the binary format has none. The only error is that an allocation failed.
pub fn name_faults<'a>(
    alloc: Global,
    module: &Module<'a>,
    most: usize,
) -> Result<NameFaults<'a>, AllocError>
    // There is no fault exactly if the module is well named.
    ensures exact { IfOk result (λ f. (f.count ≡ 0) ↔ WellNamed (module_view «module».now)) }
    // Some order of all faults begins with the returned faults.
    ensures faults { IfOk result (λ f. Returns (faults_in (module_view «module».now)) most f) }
    ensures names { IfOk result (λ f. names f.names.items ≡ names_in (module_view «module».now)) }
{
    let names = defined_names(alloc, module)?;
    let mut faults = all_faults(alloc, &names, module)?;
    let count = faults.len();
    faults.sort_by_key(|fault| fault.span.offset())?;
    faults.truncate(most);
    Ok(NameFaults {
        faults,
        count,
        names,
    })
}

//! The notices for the names, blocks and imports of a module.

ghost use Rattle.std.specs.Prelude.{◌≡◌, ◌++◌, IfOk, OnOk};
ghost use Rattle.wat_answers.specs.Prelude.{module_view};
ghost use Rattle.wat_answers.specs.Checked.{AddsDiagnosed, AreNamed, IsNamed, ChecksModule, ChecksNames, further_notices, status_of};

use crate::checked::MOST;
use crate::notice::Notice;
use crate::task::Extent;
use std::alloc::{AllocError, Global};
use wat_core::Module;
use wat_names::{Name, NameFault, NameFaults, name_faults};
use wat_report::diagnostic_of_name;

/// Adds the diagnostics of faults, one after the other. `names` are the names that the module
/// defines.
#[tactic(auto, using(crate::proofs::Found::adds_none))]
fn add_named(
    notices: &mut Vec<Notice>,
    text: &str,
    faults: &[NameFault],
    names: &[Name],
) -> Result<(), AllocError>
    ensures { OnOk result (AddsDiagnosed (IsNamed text.now names.now) faults.now
        notices.old.items notices.new.items) }
{
    let alloc = *notices.allocator();
    for fault in faults {
        let diagnostic = diagnostic_of_name(alloc, text, fault, names)?;
        notices.push(Notice::Found(diagnostic))?;
    }
    Ok(())
}

/// Adds the number of further errors, if there are any.
fn add_further(notices: &mut Vec<Notice>, count: usize) -> Result<(), AllocError>
    ensures { OnOk result (notices.new.items ≡ notices.old.items ++ further_notices count) }
{
    if count > 0 {
        notices.push(Notice::Further(count))?;
    }
    Ok(())
}

/// Returns the notices for the faults of a module.
fn notices_of_named(
    alloc: Global,
    text: &str,
    found: &NameFaults,
) -> Result<Vec<Notice>, AllocError>
    ensures { IfOk result (λ ns. AreNamed text.now found.now ns.items) }
{
    let mut notices = Vec::new(alloc);
    add_named(&mut notices, text, &found.faults, &found.names)?;
    add_further(&mut notices, found.count.saturating_sub(found.faults.len()))?;
    Ok(notices)
}

/// Returns the status for a number of faults.
fn status_of(count: usize) -> u8
    ensures { result ≡ status_of count }
{
    if count == 0 { 0 } else { 1 }
}

/// Returns the notices for the names, blocks and imports of a module, and the status: 0 if there
/// are none, else 1.
fn checked_names(
    alloc: Global,
    text: &str,
    module: &Module,
) -> Result<(Vec<Notice>, u8), AllocError>
    ensures { IfOk result (λ found. ChecksNames text.now (module_view «module».now) found.0.items
        found.1) }
{
    let found = name_faults(alloc, module, MOST)?;
    let notices = notices_of_named(alloc, text, &found)?;
    Ok((notices, status_of(found.count)))
}

/// Returns the notices for a module, and the status.
#[tactic(auto, unfolding(crate::specs::Checked::ChecksModule))]
pub(crate) fn checked_module(
    alloc: Global,
    extent: Extent,
    text: &str,
    module: &Module,
) -> Result<(Vec<Notice>, u8), AllocError>
    ensures { IfOk result (λ found. ChecksModule extent text.now (module_view «module».now)
        found.0.items found.1) }
{
    match extent {
        Extent::Syntax => Ok((Vec::new(alloc), 0)),
        Extent::Names => checked_names(alloc, text, module),
    }
}

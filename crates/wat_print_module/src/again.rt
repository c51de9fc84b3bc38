//! Printing a module and reading the text again.

ghost use Rattle.std.specs.Prelude.{◌≡◌, ◌≢◌, IfOk, IfErr};
ghost use Rattle.wat_print_module.specs.Prelude.{module_view, module_, NoneSpells, paren};
ghost use Rattle.wat_print.specs.declared.fault.Refused.TheVariants.{Memory};
ghost use Rattle.wat_print_module.specs.Module.{NonePart};

use crate::module::{ModuleRefused, print_module};
use bumpalo::Bump;
use std::alloc::Global;
use wat_core::{Fault, Module, read_module};
use wat_print::{Layout, Refused};

/// Prints the module in the layout and reads the text again: returns a copy that borrows only from
/// the arena.
///
/// It fails as [`print_module`] does, and with Memory if memory runs out. The reader never refuses
/// the printed text for another reason.
pub fn read_again<'a>(
    alloc: Global,
    module: &Module,
    layout: Layout,
    arena: &'a Bump,
) -> Result<Module<'a>, ModuleRefused>
    // The copy is the same module, spans aside.
    ensures same { IfOk result (λ again. module_view again ≡ module_view «module».now) }
    ensures refused { IfErr result (λ e. e.reason ≢ Memory
        → NoneSpells (paren module_) (module_view «module».now)) }
    // No text spells the field with the number; without a number, no text spells the identifier
    // and the name of the module.
    ensures field { IfErr result (λ e. e.reason ≢ Memory
        → NonePart (module_view «module».now) e.field) }
{
    let text = print_module(alloc, module, layout)?;
    let kept = arena.try_alloc_str(text.as_str())?;
    match read_module(alloc, kept, arena) {
        Ok(again) => Ok(again),
        Err(error) => match error.fault {
            Fault::Memory => Err(ModuleRefused::from(Refused::Memory)),
            // (the text spells the module, so there is no other fault)
            _ => unreachable!(),
        },
    }
}

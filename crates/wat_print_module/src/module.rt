//! Printing of modules.

ghost use Rattle.std.specs.Prelude.{string_bytes, ◌≡◌, ◌≢◌, OnOk, IfOk, IfErr, true, map, Some, None, refl};
ghost use Rattle.wat_print_instr.specs.Prelude.{printing_by, Memory};
ghost use Rattle.wat_print_module.specs.Prelude.{paren, field_view, ModuleModel, module_view, module_, SpellsModule, Writes, WroteLines, NoneSpells, printed_text, Line, field_form, spell_module_group, UnprintableField};
ghost use Rattle.wat_core.specs.Module.{binary, module_kind_view};
ghost use Rattle.wat_print_module.specs.Module.{module_kind_form, module_form, UnprintablePart, NonePart, fields_of_kind};
ghost use Rattle.wat_print_module.specs.Laws.Module.{module_prints};

use crate::field::write_field;
use crate::raw::write_pieces;
use crate::traits::PrintPart;
use std::alloc::{AllocError, Global};
use thiserror::Error;
use wat_core::{Module, ModuleField, ModuleKind, ModuleKindOf, VisibleModule};
use wat_print::label::write_label;
use wat_print::{Layout, Output, Refused};

/// The reason why a module can't be printed, and the field. Display writes the reason.
#[derive(Clone, Copy, Debug, PartialEq, Eq, Error)]
#[error("{reason}")]
pub struct ModuleRefused {
    /// The reason.
    pub reason: Refused,
    /// The number of the field that can't be printed, counted from 0; None for the identifier and
    /// the name of the module. If memory ran out: the field that was being written, or None.
    pub field: Option<usize>,
}

impl From<AllocError> for ModuleRefused {
    ghost use Rattle.std.specs.Prelude.{◌≡◌};
    ghost use Rattle.wat_print.specs.declared.fault.Refused.TheVariants.{Memory};

    ghost from_gives = { λ _ e. e.reason ≡ Memory };

    fn from(_e: AllocError) -> ModuleRefused {
        ModuleRefused {
            reason: Refused::Memory,
            field: None,
        }
    }
}

/// The reason without a field.
impl From<Refused> for ModuleRefused {
    ghost use Rattle.std.specs.Prelude.{◌≡◌, None};

    ghost from_gives = { λ r e. e ≡ record { reason = r; field = None } };

    fn from(reason: Refused) -> ModuleRefused {
        ModuleRefused {
            reason,
            field: None,
        }
    }
}

/// Writes fields, each on a separate line if the layout has lines.
#[tactic(auto, using(crate::proofs::Unprintable::unprintable_at))]
fn write_fields(out: &mut Output, fields: &[ModuleField]) -> Result<(), ModuleRefused>
    ensures wrote { OnOk result (WroteLines field_view field_form.spell field_form.printable
        fields.now out.old out.new) }
    ensures refused { IfErr result (λ e. e.reason ≢ Memory
        → UnprintableField (map field_view fields.now) e.field) }
{
    for number in 0..fields.len() {
        match write_field(out, &fields[number]) {
            Ok(()) => {}
            Err(reason) => {
                return Err(ModuleRefused {
                    reason,
                    field: Some(number),
                });
            }
        }
    }
    Ok(())
}

/// Writes the fields or the binary form of a module.
#[tactic(auto, using(crate::proofs::Grouped::on_lines))]
fn write_kind(out: &mut Output, kind: &ModuleKind) -> Result<(), ModuleRefused>
    ensures written { OnOk result (Writes (module_kind_form.spell (module_kind_view kind.now))
        out.old out.new) }
    ensures printable { OnOk result
        (module_kind_form.printable (module_kind_view kind.now) ≡ true) }
    ensures refused { IfErr result (λ e. e.reason ≢ Memory
        → UnprintableField (fields_of_kind (module_kind_view kind.now)) e.field) }
{
    match kind {
        ModuleKindOf::Text(fields) => {
            write_fields(out, fields)?;
            Ok(())
        }
        ModuleKindOf::Binary(pieces) => {
            out.word("binary")?;
            write_pieces(out, pieces)?;
            Ok(())
        }
    }
}

/// Writes a module without its parentheses.
#[tactic(auto, using(crate::proofs::Grouped::on_lines))]
fn write_content(out: &mut Output, value: &Module) -> Result<(), ModuleRefused>
    ensures written { OnOk result (Writes (module_form.spell (module_view value.now)) out.old
        out.new) }
    ensures printable { OnOk result (module_form.printable (module_view value.now) ≡ true) }
    ensures refused { IfErr result (λ e. e.reason ≢ Memory
        → UnprintablePart (module_view value.now) e.field) }
{
    out.word("module")?;
    write_label(out, &value.id, &value.name)?;
    write_kind(out, &value.kind)
}

/// Writes a module in parentheses (Text Format, "Modules"), each field on a separate line if the
/// layout has lines. It fails with the first reason that it meets.
#[tactic(auto, using(crate::proofs::Grouped::on_lines))]
pub fn write_module(out: &mut Output, value: &Module) -> Result<(), ModuleRefused>
    ensures written { OnOk result (Writes (spell_module_group (module_view value.now)) out.old
        out.new) }
    ensures printable { OnOk result (module_form.printable (module_view value.now) ≡ true) }
    ensures refused { IfErr result (λ e. e.reason ≢ Memory
        → UnprintablePart (module_view value.now) e.field) }
{
    out.open()?;
    write_content(out, value)?;
    out.close()?;
    Ok(())
}

/// Returns the text of a module in the layout. The text is one group `( module .. )`.
///
/// The tokens of the text spell the module, so [`read_module`](wat_core::read_module) returns it
/// again. If no text spells the module, it fails with the first reason that it meets and the number
/// of the field that no text spells. If memory runs out, it fails with Memory.
#[tactic(auto, using(crate::specs::Laws::Module::module_none, crate::specs::Laws::Module::part_none))]
pub fn print_module(alloc: Global, value: &Module, layout: Layout) -> Result<String, ModuleRefused>
    ensures reads_back { IfOk result (λ s. SpellsModule (string_bytes s)
        (module_view value.now)) }
    // In a layout of one line, the view of the module determines the text.
    ensures line { IfOk result (λ s. layout ≡ Line
        → string_bytes s ≡ printed_text (spell_module_group (module_view value.now))) }
    ensures refused { IfErr result (λ e. e.reason ≢ Memory
        → NoneSpells (paren module_) (module_view value.now)) }
    // No text spells the field with the number; without a number, no text spells the identifier
    // and the name of the module.
    ensures field { IfErr result (λ e. e.reason ≢ Memory
        → NonePart (module_view value.now) e.field) }
{
    let mut out = Output::new(alloc, layout);
    write_module(&mut out, value)?;
    Ok(out.into_text())
}

/// Printed without its parentheses, as it is parsed.
impl PrintPart for VisibleModule<'_> {
    ghost View = { ModuleModel };

    ghost view = { λ m. module_view m.0 };

    ghost grammar = { module_ };

    ghost printing = { printing_by module_form module_prints (λ m h. h) refl refl };

    #[tactic(auto, using(crate::specs::Laws::Module::part_unprintable))]
    fn write(&self, out: &mut Output) -> Result<(), Refused> {
        match write_content(out, &self.0) {
            Ok(()) => Ok(()),
            Err(refused) => Err(refused.reason),
        }
    }
}

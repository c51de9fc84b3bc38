//! Printing of globals.

ghost use Rattle.std.specs.Prelude.{refl};
ghost use Rattle.wat_print_instr.specs.Prelude.{printing_by, PrintedLines};
ghost use Rattle.wat_types.specs.Storage.{global_type_view};
ghost use Rattle.wat_fields.specs.Global.{GlobalModel, global_kind_view, global_view, global};
ghost use Rattle.wat_print_module.specs.Global.{defined_global_form, global_field_form};
ghost use Rattle.wat_print_module.specs.Laws.Global.{global_field_prints};

use crate::field_head::{write_head, write_inline_import};
use crate::traits::PrintPart;
use wat_fields::{Global, GlobalKind};
use wat_print::storage::write_global;
use wat_print::{Output, Refused};
use wat_print_instr::expression::write_constant;
use wat_types::GlobalType;

/// Writes the type of a global, and its import or its initial value.
#[tactic(auto, using(crate::proofs::Grouped::on_lines))]
fn write_defined(out: &mut Output, ty: &GlobalType, kind: &GlobalKind) -> Result<(), Refused>
    ensures { PrintedLines defined_global_form
        (global_type_view ty.now, global_kind_view kind.now) result out.old out.new }
{
    match kind {
        GlobalKind::Import(import) => {
            write_inline_import(out, import)?;
            write_global(out, ty)
        }
        GlobalKind::Inline(value) => {
            write_global(out, ty)?;
            write_constant(out, value)
        }
    }
}

/// Writes a global, without its parentheses (Text Format, Modules, "Globals"): its inline exports
/// and import, and each instruction of its initial value on a separate line.
#[tactic(auto, using(crate::proofs::Grouped::on_lines))]
pub fn write_global_field(out: &mut Output, global: &Global) -> Result<(), Refused>
    ensures { PrintedLines global_field_form (global_view global.now) result out.old out.new }
{
    out.word("global")?;
    write_head(out, &global.id, &global.name, &global.exports)?;
    write_defined(out, &global.ty, &global.kind)
}

impl PrintPart for Global<'_> {
    ghost View = { GlobalModel };

    ghost view = { global_view };

    ghost grammar = { global };

    ghost printing = { printing_by global_field_form global_field_prints (λ v h. h) refl refl };

    fn write(&self, out: &mut Output) -> Result<(), Refused> {
        write_global_field(out, self)
    }
}

//! Printing of functions.

ghost use Rattle.std.specs.Prelude.{refl};
ghost use Rattle.wat_print_instr.specs.Prelude.{printing_by, PrintedLines};
ghost use Rattle.wat_fields.specs.Func.{FuncModel, func_use_view, func_kind_view, func_view, func};
ghost use Rattle.wat_print_module.specs.Func.{defined_func_form, func_form};
ghost use Rattle.wat_print_module.specs.Laws.Func.{func_prints};

use crate::field_head::{write_head, write_inline_import};
use crate::item::write_exact_use;
use crate::local::write_locals;
use crate::traits::PrintPart;
use wat_fields::{Func, FuncKind};
use wat_print::type_use::write_use;
use wat_print::{Output, Refused};
use wat_print_instr::expression::write_expression;
use wat_types::{FunctionType, TypeUse};

/// Writes the type of a function, and its import or its locals and body.
#[tactic(auto, using(crate::proofs::Grouped::on_lines))]
fn write_defined(
    out: &mut Output,
    ty: &TypeUse<FunctionType>,
    kind: &FuncKind,
) -> Result<(), Refused>
    ensures { PrintedLines defined_func_form (func_use_view ty.now, func_kind_view kind.now) result
        out.old out.new }
{
    match kind {
        FuncKind::Import(import, is_exact) => {
            write_inline_import(out, import)?;
            write_exact_use(out, ty, *is_exact)
        }
        FuncKind::Inline { locals, expression } => {
            write_use(out, ty)?;
            write_locals(out, locals)?;
            write_expression(out, expression)
        }
    }
}

/// Writes a function, without its parentheses (Text Format, Modules, "Functions"): its inline
/// exports and import, each local in a separate group, and each instruction on a separate line.
#[tactic(auto, using(crate::proofs::Grouped::on_lines))]
pub fn write_func(out: &mut Output, func: &Func) -> Result<(), Refused>
    ensures { PrintedLines func_form (func_view func.now) result out.old out.new }
{
    out.word("func")?;
    write_head(out, &func.id, &func.name, &func.exports)?;
    write_defined(out, &func.ty, &func.kind)
}

impl PrintPart for Func<'_> {
    ghost View = { FuncModel };

    ghost view = { func_view };

    ghost grammar = { func };

    ghost printing = { printing_by func_form func_prints (λ v h. h) refl refl };

    fn write(&self, out: &mut Output) -> Result<(), Refused> {
        write_func(out, self)
    }
}

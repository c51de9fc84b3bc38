//! Printing of the fields of a module.

ghost use Rattle.std.specs.Prelude.{refl};
ghost use Rattle.wat_print_instr.specs.Prelude.{index_view, printing_by, PrintedLines};
ghost use Rattle.wat_print_module.specs.Prelude.{ModuleFieldModel, field_view, field_group, Printed, field_form};
ghost use Rattle.wat_print_module.specs.Field.{start_form, content_form};
ghost use Rattle.wat_print_module.specs.Laws.Field.{field_prints};

use crate::custom::write_custom;
use crate::data::write_data;
use crate::elem::write_elem;
use crate::export::write_export;
use crate::func::write_func;
use crate::global::write_global_field;
use crate::import::write_imports;
use crate::memory::write_memory;
use crate::table::write_table;
use crate::tag::write_tag;
use crate::traits::PrintPart;
use wat_core::{ModuleField, ModuleFieldOf};
use wat_print::define::{write_rec, write_type};
use wat_print::reference::write_index;
use wat_print::{Output, Refused};
use wat_tokens::Index;

/// Writes `start` and the index of the start function, without parentheses (Text Format, Modules,
/// "Start Function").
#[tactic(auto, using(wat_print::specs::Laws::Written::put_both))]
pub fn write_start(out: &mut Output, index: &Index) -> Result<(), Refused>
    ensures { Printed start_form (index_view index.now) result out.old out.new }
{
    out.word("start")?;
    write_index(out, index)
}

/// Writes a field without its parentheses.
#[tactic(auto, using(wat_print::specs::Laws::Written::puts_put))]
fn write_inside(out: &mut Output, field: &ModuleField) -> Result<(), Refused>
    ensures { PrintedLines content_form (field_view field.now) result out.old out.new }
{
    match field {
        ModuleFieldOf::Type(ty) => write_type(out, ty),
        ModuleFieldOf::Rec(group) => write_rec(out, group),
        ModuleFieldOf::Import(imports) => write_imports(out, imports),
        ModuleFieldOf::Func(func) => write_func(out, func),
        ModuleFieldOf::Table(table) => write_table(out, table),
        ModuleFieldOf::Memory(memory) => write_memory(out, memory),
        ModuleFieldOf::Global(global) => write_global_field(out, global),
        ModuleFieldOf::Export(export) => write_export(out, export),
        ModuleFieldOf::Start(index) => write_start(out, index),
        ModuleFieldOf::Elem(elem) => write_elem(out, elem),
        ModuleFieldOf::Data(data) => write_data(out, data),
        ModuleFieldOf::Tag(tag) => write_tag(out, tag),
        ModuleFieldOf::Custom(section) => write_custom(out, section),
    }
}

/// Writes a field in parentheses, on a separate line if the layout has lines (Text Format,
/// "Modules").
#[tactic(auto, using(crate::proofs::Grouped::puts_line_parens))]
pub fn write_field(out: &mut Output, field: &ModuleField) -> Result<(), Refused>
    ensures { PrintedLines field_form (field_view field.now) result out.old out.new }
{
    out.line()?;
    out.open()?;
    write_inside(out, field)?;
    out.close()
}

/// Printed with its parentheses, since an annotation follows a `(`.
impl PrintPart for ModuleField<'_> {
    ghost View = { ModuleFieldModel };

    ghost view = { field_view };

    ghost grammar = { field_group };

    ghost printing = { printing_by field_form field_prints (λ f h. h) refl refl };

    fn write(&self, out: &mut Output) -> Result<(), Refused> {
        write_field(out, self)
    }
}

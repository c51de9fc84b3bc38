//! Printing of data segments.

ghost use Rattle.std.specs.Prelude.{refl};
ghost use Rattle.wat_print_instr.specs.Laws.Prelude.{paren, index_view, expression_view, paren_form, printing_by, Printed, PrintedLines, paren_prints};
ghost use Rattle.wat_fields.specs.Data.{data_kind_view, DataModel, data_view, data_segment};
ghost use Rattle.wat_print_module.specs.Data.{offset_form, data_memory_form, data_kind_form, data_form};
ghost use Rattle.wat_print_module.specs.Laws.Data.{data_prints};

use crate::data_val::write_data_vals;
use crate::traits::PrintPart;
use wat_expr::Expression;
use wat_fields::{Data, DataKind};
use wat_print::label::write_label;
use wat_print::reference::write_index;
use wat_print::{Output, Refused};
use wat_print_instr::expression::write_constant;
use wat_print_instr::indices::is_index_0;
use wat_tokens::Index;

/// Writes `( offset Expression )`.
#[tactic(auto, using(crate::proofs::Grouped::puts_grouped))]
pub(crate) fn write_offset(out: &mut Output, offset: &Expression) -> Result<(), Refused>
    ensures { PrintedLines offset_form (expression_view offset.now) result out.old out.new }
{
    out.open()?;
    out.word("offset")?;
    write_constant(out, offset)?;
    out.close()
}

/// Writes `( memory idx )`, or nothing for memory 0.
#[tactic(auto, using(wat_print::specs::Laws::Written::put_both))]
fn write_memory(out: &mut Output, memory: &Index) -> Result<(), Refused>
    ensures { Printed data_memory_form (index_view memory.now) result out.old out.new }
{
    if is_index_0(memory) {
        return Ok(());
    }
    out.open()?;
    out.word("memory")?;
    write_index(out, memory)?;
    out.close()
}

/// Writes the memory and the offset of an active segment, or nothing for a passive one.
#[tactic(auto, using(crate::proofs::Grouped::in_order))]
fn write_data_kind(out: &mut Output, kind: &DataKind) -> Result<(), Refused>
    ensures { PrintedLines data_kind_form (data_kind_view kind.now) result out.old out.new }
{
    match kind {
        DataKind::Passive => Ok(()),
        DataKind::Active { memory, offset } => {
            write_memory(out, memory)?;
            write_offset(out, offset)
        }
    }
}

/// Writes a data segment, without its parentheses (Text Format, Modules, "Data Segments"). Memory 0
/// is omitted, and the offset is written as `( offset Expression )`.
#[tactic(auto, using(crate::proofs::Grouped::on_lines))]
pub fn write_data(out: &mut Output, segment: &Data) -> Result<(), Refused>
    ensures { PrintedLines data_form (data_view segment.now) result out.old out.new }
{
    out.word("data")?;
    write_label(out, &segment.id, &segment.name)?;
    write_data_kind(out, &segment.kind)?;
    write_data_vals(out, &segment.data)
}

/// Writes a data segment in its parentheses.
#[tactic(auto, using(crate::proofs::Grouped::puts_worded))]
pub fn write_grouped_data(out: &mut Output, segment: &Data) -> Result<(), Refused>
    ensures { PrintedLines (paren_form data_form) (data_view segment.now) result out.old
        out.new }
{
    out.open()?;
    write_data(out, segment)?;
    out.close()
}

/// Printed with its parentheses: only the `)` shows that a segment without values is passive.
impl PrintPart for Data<'_> {
    ghost View = { DataModel };

    ghost view = { data_view };

    ghost grammar = { paren data_segment };

    ghost printing = { printing_by (paren_form data_form) (paren_prints data_prints) (λ v h. h) refl
        refl };

    fn write(&self, out: &mut Output) -> Result<(), Refused> {
        write_grouped_data(out, self)
    }
}

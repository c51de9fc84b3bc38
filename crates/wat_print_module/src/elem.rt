//! Printing of element segments and their elements.

ghost use Rattle.std.specs.Prelude.{map, refl};
ghost use Rattle.wat_print_instr.specs.Prelude.{index_view, option_view, expression_view, any, option_form, printing_by, Printed, PrintedLines};
ghost use Rattle.wat_fields.specs.Elem.{elem_kind_view, ElemModel, elem_view, elem};
ghost use Rattle.wat_fields.specs.Payload.{payload_view};
ghost use Rattle.wat_print_module.specs.Elem.{elem_item_form, elem_items_form, elem_indices_form, payload_form, elem_table_form, elem_kind_form, elem_form};
ghost use Rattle.wat_print_module.specs.Laws.Elem.{elem_prints};

use crate::data::write_offset;
use crate::traits::PrintPart;
use wat_expr::Expression;
use wat_fields::{Elem, ElemKind, ElemPayload};
use wat_print::label::write_label;
use wat_print::reference::{write_index, write_ref};
use wat_print::{Output, Refused};
use wat_print_instr::expression::write_constant;
use wat_print_instr::traits::write_each;
use wat_tokens::Index;

/// Writes `( item Expression )`, on a separate line if the layout has lines.
#[tactic(auto, using(crate::proofs::Grouped::puts_line_grouped))]
fn write_item(out: &mut Output, item: &Expression) -> Result<(), Refused>
    ensures { PrintedLines elem_item_form (expression_view item.now) result out.old out.new }
{
    out.line()?;
    out.open()?;
    out.word("item")?;
    write_constant(out, item)?;
    out.close()
}

/// Writes items in order.
#[tactic(auto, using(wat_print::specs::Laws::Written::not_each_item))]
pub(crate) fn write_items(out: &mut Output, items: &[Expression]) -> Result<(), Refused>
    ensures { PrintedLines elem_items_form (map expression_view items.now) result out.old
        out.new }
{
    for item in items {
        write_item(out, item)?;
    }
    Ok(())
}

/// Writes indices in order.
pub(crate) fn write_indices(out: &mut Output, list: &[Index]) -> Result<(), Refused>
    ensures { Printed elem_indices_form (map index_view list.now) result out.old out.new }
{
    write_each(out, list)
}

/// Writes the elements of a segment (Text Format, Modules, "Element Segments"): `func` and indices,
/// or a type and items, each as `( item Expression )`.
#[tactic(auto, using(crate::proofs::Grouped::on_lines))]
pub fn write_payload(out: &mut Output, payload: &ElemPayload) -> Result<(), Refused>
    ensures { PrintedLines payload_form (payload_view payload.now) result out.old out.new }
{
    match payload {
        ElemPayload::Indices(list) => {
            out.word("func")?;
            write_indices(out, list)
        }
        ElemPayload::Exprs { ty, exprs } => {
            write_ref(out, ty)?;
            write_items(out, exprs)
        }
    }
}

/// Writes `( table idx )`, or nothing if no table is given.
#[tactic(auto, using(wat_print::specs::Laws::Written::put_both))]
fn write_elem_table(out: &mut Output, table: &Option<Index>) -> Result<(), Refused>
    ensures { Printed (option_form any elem_table_form) (option_view index_view table.now)
        result out.old out.new }
{
    match table {
        Some(table) => {
            out.open()?;
            out.word("table")?;
            write_index(out, table)?;
            out.close()
        }
        None => Ok(()),
    }
}

/// Writes the mode of a segment: nothing if it is passive, `declare`, or a table and an offset.
#[tactic(auto, using(crate::proofs::Grouped::in_order))]
fn write_elem_kind(out: &mut Output, kind: &ElemKind) -> Result<(), Refused>
    ensures { PrintedLines elem_kind_form (elem_kind_view kind.now) result out.old out.new }
{
    match kind {
        ElemKind::Passive => Ok(()),
        ElemKind::Declared => out.word("declare"),
        ElemKind::Active { table, offset } => {
            write_elem_table(out, table)?;
            write_offset(out, offset)
        }
    }
}

/// Writes an element segment, without its parentheses (Text Format, Modules, "Element Segments").
/// The table is written if the segment has one, and the offset as `( offset Expression )`.
#[tactic(auto, using(crate::proofs::Grouped::on_lines))]
pub fn write_elem(out: &mut Output, elem: &Elem) -> Result<(), Refused>
    ensures { PrintedLines elem_form (elem_view elem.now) result out.old out.new }
{
    out.word("elem")?;
    write_label(out, &elem.id, &elem.name)?;
    write_elem_kind(out, &elem.kind)?;
    write_payload(out, &elem.payload)
}

impl PrintPart for Elem<'_> {
    ghost View = { ElemModel };

    ghost view = { elem_view };

    ghost grammar = { elem };

    ghost printing = { printing_by elem_form elem_prints (λ v h. h) refl refl };

    fn write(&self, out: &mut Output) -> Result<(), Refused> {
        write_elem(out, self)
    }
}

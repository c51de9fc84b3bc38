//! Printing of tables.

ghost use Rattle.std.specs.Prelude.{◌≡◌, ◌&&◌, codes, map, refl};
ghost use Rattle.wat_core.specs.Prelude.{option_view, no_items, ref_view, expression_view, payload_view, exprs, is_funcref, inline, table_kind_view, TableModel, table};
ghost use Rattle.wat_print_instr.specs.Prelude.{group_form, printing_by, PrintedLines};
ghost use Rattle.wat_fields.specs.Table.{table_view};
ghost use Rattle.wat_print_module.specs.Table.{same_ref, elements_form, initial_form, table_kind_form, table_field_form};
ghost use Rattle.wat_print_module.specs.Laws.Table.{table_field_prints};

use crate::elem::{write_indices, write_items};
use crate::field_head::{write_head, write_inline_import};
use crate::traits::PrintPart;
use wat_expr::Expression;
use wat_fields::{ElemPayload, Table, TableKind, is_funcref};
use wat_print::limits::{write_flag, write_table_type};
use wat_print::reference::write_ref;
use wat_print::{Output, Refused};
use wat_print_instr::expression::write_constant;
use wat_types::RefType;

/// Whether two reference types are the same, spans aside.
fn same_type(a: &RefType, b: &RefType) -> bool
    ensures { result ≡ same_ref (ref_view a.now) (ref_view b.now) }
{
    a == b
}

/// Whether the type is `funcref`, and there is no expression.
fn is_empty_funcref(ty: &RefType, list: &[Expression]) -> bool
    ensures { result ≡ is_funcref (ref_view ty.now) && no_items
        (map expression_view list.now) }
{
    is_funcref(*ty) && list.is_empty()
}

/// Writes the elements of an inline table with the element type: indices or expressions. It fails
/// in these cases:
/// - there are indices, and the type isn't `funcref`;
/// - the expressions have another type;
/// - there is no expression, and the type is `funcref`.
#[tactic(auto, using(crate::specs::Laws::Table::items_written, crate::proofs::Grouped::on_lines))]
fn write_elements(out: &mut Output, ty: &RefType, payload: &ElemPayload) -> Result<(), Refused>
    ensures { PrintedLines (elements_form (ref_view ty.now)) (payload_view payload.now) result
        out.old out.new }
{
    match payload {
        ElemPayload::Indices(list) => {
            if !is_funcref(*ty) {
                return Err(Refused::Table);
            }
            write_indices(out, list)
        }
        ElemPayload::Exprs { ty: own, exprs } => {
            if !same_type(ty, own) || is_empty_funcref(ty, exprs) {
                return Err(Refused::Table);
            }
            write_items(out, exprs)
        }
    }
}

/// Writes `( elem elements )`.
#[tactic(auto, using(crate::proofs::Grouped::puts_grouped))]
fn write_elem_group(out: &mut Output, ty: &RefType, payload: &ElemPayload) -> Result<(), Refused>
    ensures { PrintedLines (group_form (codes "elem") (elements_form (ref_view ty.now)))
        (payload_view payload.now) result out.old out.new }
{
    out.open()?;
    out.word("elem")?;
    write_elements(out, ty, payload)?;
    out.close()
}

/// Writes the element type and the elements of an inline table. It fails if the table is both
/// shared and of 64 bits.
#[tactic(auto, using(crate::proofs::Grouped::puts_first))]
fn write_inline(
    out: &mut Output,
    elem: &RefType,
    is64: bool,
    shared: bool,
    payload: &ElemPayload,
) -> Result<(), Refused>
    ensures { PrintedLines table_kind_form
        (inline (ref_view elem.now) is64 shared (payload_view payload.now)) result out.old
        out.new }
{
    if shared && is64 {
        return Err(Refused::Table);
    }
    write_flag(out, "shared", shared)?;
    write_flag(out, "i64", is64)?;
    write_ref(out, elem)?;
    write_elem_group(out, elem, payload)
}

/// Writes the initial value of the elements, if the table has one. It fails if the value has no
/// instruction.
fn write_initial(out: &mut Output, value: &Option<Expression>) -> Result<(), Refused>
    ensures { PrintedLines initial_form (option_view expression_view value.now) result out.old
        out.new }
{
    match value {
        Some(value) => {
            if value.instrs.is_empty() {
                return Err(Refused::Table);
            }
            write_constant(out, value)
        }
        None => Ok(()),
    }
}

/// Writes the part of a table after its identifier, name and exports.
#[tactic(auto, using(crate::proofs::Grouped::on_lines))]
fn write_table_kind(out: &mut Output, kind: &TableKind) -> Result<(), Refused>
    ensures { PrintedLines table_kind_form (table_kind_view kind.now) result out.old out.new }
{
    match kind {
        TableKind::Import { import, ty } => {
            write_inline_import(out, import)?;
            write_table_type(out, ty)
        }
        TableKind::Normal { ty, init_expr } => {
            write_table_type(out, ty)?;
            write_initial(out, init_expr)
        }
        TableKind::Inline {
            elem,
            is64,
            shared,
            payload,
        } => write_inline(out, elem, *is64, *shared, payload),
    }
}

/// Writes a table, without its parentheses (Text Format, Modules, "Tables"), with its inline
/// exports, import and elements.
///
/// It fails in these cases:
/// - the inline elements have another type than the table;
/// - the inline elements are indices, and the type isn't `funcref`;
/// - the inline elements are an empty list of expressions, and the type is `funcref`;
/// - the table has inline elements, and is both shared and of 64 bits;
/// - the initial value has no instruction.
#[tactic(auto, using(crate::proofs::Grouped::on_lines))]
pub fn write_table(out: &mut Output, table: &Table) -> Result<(), Refused>
    ensures { PrintedLines table_field_form (table_view table.now) result out.old out.new }
{
    out.word("table")?;
    write_head(out, &table.id, &table.name, &table.exports)?;
    write_table_kind(out, &table.kind)
}

impl PrintPart for Table<'_> {
    ghost View = { TableModel };

    ghost view = { table_view };

    ghost grammar = { table };

    ghost printing = { printing_by table_field_form table_field_prints (λ v h. h) refl refl };

    fn write(&self, out: &mut Output) -> Result<(), Refused> {
        write_table(out, self)
    }
}

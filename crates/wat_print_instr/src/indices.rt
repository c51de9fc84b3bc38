//! Printing of operands that consist of indices, and of an array's type and length.
#![tactic(auto, using(wat_print::specs::Laws::Written::put_both))]

ghost use Rattle.std.specs.Prelude.{◌≡◌, ℕ, refl};
ghost use Rattle.wat_expr.specs.Prelude.{index, BrTableModel, br_table};
ghost use Rattle.wat_print_instr.specs.Laws.Prelude.{IndexModel, index_view, index_form, printing_by, Printed, index_prints, is_index_0, index_or_0_prints};
ghost use Rattle.wat_operands.specs.Aggregates.{array_of_length, struct_access_view, cont_bind_view, switch_view, array_fill_view, array_copy_view, array_init_view, array_new_fixed_view, array_new_data_view, array_new_elem_view};
ghost use Rattle.wat_operands.specs.Branch.{br_table_view};
ghost use Rattle.wat_operands.specs.Tables.{index_or_0, index_pair, init, copy, table_arg_view, memory_arg_view, table_init_view, memory_init_view, table_copy_view, memory_copy_view};
ghost use Rattle.wat_print_instr.specs.Indices.{index_or_0_form, pair_form, init_form, copy_form, br_table_form, sized_form};
ghost use Rattle.wat_print_instr.specs.Laws.Indices.{br_table_prints, copy_prints, init_prints, pair_prints, sized_prints};

use crate::traits::{PrintCode, write_each};
use wat_operands::{
    ArrayCopy, ArrayFill, ArrayInit, ArrayNewData, ArrayNewElem, ArrayNewFixed, BrTableIndices,
    ContBind, MemoryArg, MemoryCopy, MemoryInit, StructAccess, Switch, TableArg, TableCopy,
    TableInit,
};
use wat_print::reference::write_index;
use wat_print::{Output, Refused};
use wat_tokens::Index;

/// Whether the index is the number 0.
pub fn is_index_0(index: &Index) -> bool
    ensures { result ≡ is_index_0 (index_view index.now) }
{
    matches!(index, Index::Num(0, _))
}

/// Writes an index, or nothing for index 0.
pub fn write_index_or_0(out: &mut Output, index: &Index) -> Result<(), Refused>
    ensures { Printed index_or_0_form (index_view index.now) result out.old out.new }
{
    if is_index_0(index) {
        return Ok(());
    }
    write_index(out, index)
}

/// Writes two indices.
fn write_pair(out: &mut Output, first: &Index, second: &Index) -> Result<(), Refused>
    ensures { Printed pair_form (index_view first.now, index_view second.now) result out.old
        out.new }
{
    write_index(out, first)?;
    write_index(out, second)
}

/// Writes a target and a segment. Target 0 is omitted.
fn write_init(out: &mut Output, target: &Index, segment: &Index) -> Result<(), Refused>
    ensures { Printed init_form (index_view target.now, index_view segment.now) result out.old
        out.new }
{
    if is_index_0(target) {
        return write_index(out, segment);
    }
    write_pair(out, target, segment)
}

/// Writes a destination and a source, or nothing if both are 0.
fn write_copy(out: &mut Output, destination: &Index, source: &Index) -> Result<(), Refused>
    ensures { Printed copy_form (index_view destination.now, index_view source.now) result out.old
        out.new }
{
    if is_index_0(destination) && is_index_0(source) {
        return Ok(());
    }
    write_pair(out, destination, source)
}

impl PrintCode for Index<'_> {
    ghost View = { IndexModel };

    ghost view = { index_view };

    ghost grammar = { index };

    ghost printing = { printing_by index_form index_prints (λ v h. h) refl refl };

    fn write(&self, out: &mut Output) -> Result<(), Refused> {
        write_index(out, self)
    }
}

impl PrintCode for TableArg<'_> {
    ghost View = { IndexModel };

    ghost view = { table_arg_view };

    ghost grammar = { index_or_0 };

    ghost printing = { printing_by index_or_0_form index_or_0_prints (λ i h. h) refl refl };

    fn write(&self, out: &mut Output) -> Result<(), Refused> {
        write_index_or_0(out, &self.dst)
    }
}

impl PrintCode for MemoryArg<'_> {
    ghost View = { IndexModel };

    ghost view = { memory_arg_view };

    ghost grammar = { index_or_0 };

    ghost printing = { printing_by index_or_0_form index_or_0_prints (λ i h. h) refl refl };

    fn write(&self, out: &mut Output) -> Result<(), Refused> {
        write_index_or_0(out, &self.mem)
    }
}

impl PrintCode for TableInit<'_> {
    ghost View = { IndexModel × IndexModel };

    ghost view = { table_init_view };

    ghost grammar = { init };

    ghost printing = { printing_by init_form init_prints (λ p h. h) refl refl };

    fn write(&self, out: &mut Output) -> Result<(), Refused> {
        write_init(out, &self.table, &self.elem)
    }
}

impl PrintCode for MemoryInit<'_> {
    ghost View = { IndexModel × IndexModel };

    ghost view = { memory_init_view };

    ghost grammar = { init };

    ghost printing = { printing_by init_form init_prints (λ p h. h) refl refl };

    fn write(&self, out: &mut Output) -> Result<(), Refused> {
        write_init(out, &self.mem, &self.data)
    }
}

impl PrintCode for TableCopy<'_> {
    ghost View = { IndexModel × IndexModel };

    ghost view = { table_copy_view };

    ghost grammar = { copy };

    ghost printing = { printing_by copy_form copy_prints (λ p h. h) refl refl };

    fn write(&self, out: &mut Output) -> Result<(), Refused> {
        write_copy(out, &self.dst, &self.src)
    }
}

impl PrintCode for MemoryCopy<'_> {
    ghost View = { IndexModel × IndexModel };

    ghost view = { memory_copy_view };

    ghost grammar = { copy };

    ghost printing = { printing_by copy_form copy_prints (λ p h. h) refl refl };

    fn write(&self, out: &mut Output) -> Result<(), Refused> {
        write_copy(out, &self.dst, &self.src)
    }
}

impl PrintCode for StructAccess<'_> {
    ghost View = { IndexModel × IndexModel };

    ghost view = { struct_access_view };

    ghost grammar = { index_pair };

    ghost printing = { printing_by pair_form pair_prints (λ p h. h) refl refl };

    fn write(&self, out: &mut Output) -> Result<(), Refused> {
        write_pair(out, &self.struct_, &self.field)
    }
}

impl PrintCode for ContBind<'_> {
    ghost View = { IndexModel × IndexModel };

    ghost view = { cont_bind_view };

    ghost grammar = { index_pair };

    ghost printing = { printing_by pair_form pair_prints (λ p h. h) refl refl };

    fn write(&self, out: &mut Output) -> Result<(), Refused> {
        write_pair(out, &self.argument_index, &self.result_index)
    }
}

impl PrintCode for Switch<'_> {
    ghost View = { IndexModel × IndexModel };

    ghost view = { switch_view };

    ghost grammar = { index_pair };

    ghost printing = { printing_by pair_form pair_prints (λ p h. h) refl refl };

    fn write(&self, out: &mut Output) -> Result<(), Refused> {
        write_pair(out, &self.type_index, &self.tag_index)
    }
}

impl PrintCode for ArrayFill<'_> {
    ghost View = { IndexModel };

    ghost view = { array_fill_view };

    ghost grammar = { index };

    ghost printing = { printing_by index_form index_prints (λ v h. h) refl refl };

    fn write(&self, out: &mut Output) -> Result<(), Refused> {
        write_index(out, &self.array)
    }
}

impl PrintCode for ArrayCopy<'_> {
    ghost View = { IndexModel × IndexModel };

    ghost view = { array_copy_view };

    ghost grammar = { index_pair };

    ghost printing = { printing_by pair_form pair_prints (λ p h. h) refl refl };

    fn write(&self, out: &mut Output) -> Result<(), Refused> {
        write_pair(out, &self.dest_array, &self.src_array)
    }
}

impl PrintCode for ArrayInit<'_> {
    ghost View = { IndexModel × IndexModel };

    ghost view = { array_init_view };

    ghost grammar = { index_pair };

    ghost printing = { printing_by pair_form pair_prints (λ p h. h) refl refl };

    fn write(&self, out: &mut Output) -> Result<(), Refused> {
        write_pair(out, &self.array, &self.segment)
    }
}

impl PrintCode for ArrayNewFixed<'_> {
    ghost View = { IndexModel × ℕ };

    ghost view = { array_new_fixed_view };

    ghost grammar = { array_of_length };

    ghost printing = { printing_by sized_form sized_prints (λ p h. h) refl refl };

    fn write(&self, out: &mut Output) -> Result<(), Refused> {
        write_index(out, &self.array)?;
        out.number(u64::from(self.length))
    }
}

impl PrintCode for ArrayNewData<'_> {
    ghost View = { IndexModel × IndexModel };

    ghost view = { array_new_data_view };

    ghost grammar = { index_pair };

    ghost printing = { printing_by pair_form pair_prints (λ p h. h) refl refl };

    fn write(&self, out: &mut Output) -> Result<(), Refused> {
        write_pair(out, &self.array, &self.data_idx)
    }
}

impl PrintCode for ArrayNewElem<'_> {
    ghost View = { IndexModel × IndexModel };

    ghost view = { array_new_elem_view };

    ghost grammar = { index_pair };

    ghost printing = { printing_by pair_form pair_prints (λ p h. h) refl refl };

    fn write(&self, out: &mut Output) -> Result<(), Refused> {
        write_pair(out, &self.array, &self.elem_idx)
    }
}

impl PrintCode for BrTableIndices<'_> {
    ghost View = { BrTableModel };

    ghost view = { br_table_view };

    ghost grammar = { br_table };

    ghost printing = { printing_by br_table_form br_table_prints (λ b h. h) refl refl };

    fn write(&self, out: &mut Output) -> Result<(), Refused> {
        write_each(out, &self.labels)?;
        write_index(out, &self.default)
    }
}

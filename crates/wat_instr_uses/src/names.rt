//! The names that instructions use, apart from labels (Text Format, "Contexts" and "Instructions").

ghost use Rattle.std.specs.Prelude.{◌≡◌, ◌++◌, OnOk, map};
ghost use Rattle.wat_instr.specs.Prelude.{op_in, operand_in, instruction_view};
ghost use Rattle.wat_instr.specs.Instruction.{block_in};
ghost use Rattle.wat_tokens.specs.Prelude.{index_view, option_view};
ghost use Rattle.wat_scopes.specs.Known.{names};
ghost use Rattle.wat_scopes.specs.Spaces.{space_view, types};
ghost use Rattle.wat_type_uses.specs.Named.{by_two};
ghost use Rattle.wat_operand_uses.specs.Operands.{block_uses};
ghost use Rattle.wat_instr_uses.specs.Names.{indexed_space, ordered_space, segment_space, field_space, op_uses, instr_uses, instrs_uses};

use std::alloc::AllocError;
use wat_instr::{ArrayInitOp, IndexedOp, Instruction, OrderedIndexOp};
use wat_operand_uses::{
    add_call_indirect, add_cast_branch, add_mem_arg, add_resume, add_resume_throw,
    add_select_types, add_try_table,
};
use wat_operands::BlockType;
use wat_scopes::{Name, Space};
use wat_tokens::Index;
use wat_type_uses::{add_heap_type, add_index, add_ref_type, add_two_indices, add_type_use};

/// Returns the index space of the index of an instruction; None for a label. `local` is the number of
/// the space of locals.
fn indexed_space(op: IndexedOp, local: usize) -> Option<Space<'static>>
    ensures { option_view space_view result ≡ indexed_space local op }
{
    match op {
        IndexedOp::br => None,
        IndexedOp::br_if => None,
        IndexedOp::call => Some(Space::Func),
        IndexedOp::return_call => Some(Space::Func),
        IndexedOp::call_ref => Some(Space::Type),
        IndexedOp::return_call_ref => Some(Space::Type),
        IndexedOp::local_get => Some(Space::Local(local)),
        IndexedOp::local_set => Some(Space::Local(local)),
        IndexedOp::local_tee => Some(Space::Local(local)),
        IndexedOp::global_get => Some(Space::Global),
        IndexedOp::global_set => Some(Space::Global),
        IndexedOp::data_drop => Some(Space::Data),
        IndexedOp::elem_drop => Some(Space::Elem),
        IndexedOp::ref_func => Some(Space::Func),
        IndexedOp::br_on_null => None,
        IndexedOp::br_on_non_null => None,
        IndexedOp::struct_new => Some(Space::Type),
        IndexedOp::struct_new_default => Some(Space::Type),
        IndexedOp::array_new => Some(Space::Type),
        IndexedOp::array_new_default => Some(Space::Type),
        IndexedOp::array_get => Some(Space::Type),
        IndexedOp::array_get_s => Some(Space::Type),
        IndexedOp::array_get_u => Some(Space::Type),
        IndexedOp::array_set => Some(Space::Type),
        IndexedOp::throw => Some(Space::Tag),
        IndexedOp::catch => Some(Space::Tag),
        IndexedOp::rethrow => None,
        IndexedOp::delegate => None,
        IndexedOp::cont_new => Some(Space::Type),
        IndexedOp::suspend => Some(Space::Tag),
        IndexedOp::struct_new_desc => Some(Space::Type),
        IndexedOp::struct_new_default_desc => Some(Space::Type),
        IndexedOp::ref_get_desc => Some(Space::Type),
    }
}

/// Returns the index space of the index of an atomic access.
fn ordered_space(op: OrderedIndexOp) -> Space<'static>
    ensures { space_view result ≡ ordered_space op }
{
    match op {
        OrderedIndexOp::global_atomic_get
        | OrderedIndexOp::global_atomic_set
        | OrderedIndexOp::global_atomic_rmw_add
        | OrderedIndexOp::global_atomic_rmw_sub
        | OrderedIndexOp::global_atomic_rmw_and
        | OrderedIndexOp::global_atomic_rmw_or
        | OrderedIndexOp::global_atomic_rmw_xor
        | OrderedIndexOp::global_atomic_rmw_xchg
        | OrderedIndexOp::global_atomic_rmw_cmpxchg => Space::Global,
        _ => Space::Type,
    }
}

/// Returns the index space of the segment of `array.init_data` or `array.init_elem`.
fn segment_space(op: ArrayInitOp) -> Space<'static>
    ensures { space_view result ≡ segment_space op }
{
    match op {
        ArrayInitOp::array_init_data => Space::Data,
        ArrayInitOp::array_init_elem => Space::Elem,
    }
}

/// Returns the index space of the fields of the structure type with this index.
fn field_space<'a>(owner: &Index<'a>) -> Space<'a>
    ensures { space_view result ≡ field_space (index_view owner.now) }
{
    match owner {
        Index::Num(number, _) => Space::FieldAt(*number as usize),
        Index::Id(id) => Space::FieldOf(*id),
    }
}

/// Appends the names of a structure type and of one of its fields.
fn add_member<'a>(
    out: &mut Vec<Name<'a>>,
    owner: &Index<'a>,
    field: &Index<'a>,
) -> Result<(), AllocError>
    ensures { OnOk result (names out.new.items ≡ names out.old.items
        ++ by_two types (field_space (index_view owner.now)) (
          index_view owner.now,
          index_view field.now,
        )) }
{
    add_two_indices(out, Space::Type, owner, field_space(owner), field)
}

/// Appends the names that a block type uses.
fn add_block<'a>(
    out: &mut Vec<Name<'a>>,
    block: &Option<Box<BlockType<'a>>>,
) -> Result<(), AllocError>
    ensures { OnOk result (names out.new.items ≡ names out.old.items
        ++ block_uses (block_in block.now)) }
{
    match block {
        Some(block) => add_type_use(out, &block.ty),
        None => Ok(()),
    }
}

/// Appends the names that an instruction uses, apart from labels. `local` is the number of the space
/// of locals.
fn add_operand<'a>(
    out: &mut Vec<Name<'a>>,
    local: usize,
    instr: &Instruction<'a>,
) -> Result<(), AllocError>
    ensures { OnOk result (names out.new.items ≡ names out.old.items
        ++ op_uses local (op_in instr.now) (operand_in instr.now)) }
{
    match instr {
        Instruction::Block(_, block) => add_block(out, block),
        Instruction::Label(_, _) => Ok(()),
        Instruction::Scalar(_) => Ok(()),
        Instruction::Indexed(op, index) => match indexed_space(*op, local) {
            Some(space) => add_index(out, space, index),
            None => Ok(()),
        },
        Instruction::CallIndirect(_, call) => add_call_indirect(out, call),
        Instruction::Table(_, table) => add_index(out, Space::Table, &table.dst),
        Instruction::Access(_, access) => add_mem_arg(out, access),
        Instruction::Memory(_, memory) => add_index(out, Space::Memory, &memory.mem),
        Instruction::Struct(_, access) => add_member(out, &access.struct_, &access.field),
        Instruction::ArrayInit(op, init) => add_two_indices(
            out,
            Space::Type,
            &init.array,
            segment_space(*op),
            &init.segment,
        ),
        Instruction::AtomicAccess(_, access) => add_mem_arg(out, access),
        Instruction::RmwAccess(_, access) => add_mem_arg(out, access),
        Instruction::OrderedIndex(op, access) => add_index(out, ordered_space(*op), &access.inner),
        Instruction::OrderedTable(_, access) => add_index(out, Space::Table, &access.inner.dst),
        Instruction::OrderedStruct(_, access) => {
            add_member(out, &access.inner.struct_, &access.inner.field)
        }
        Instruction::LaneAccess(_, access) => add_mem_arg(out, &access.memarg),
        Instruction::Lane(_, _) => Ok(()),
        Instruction::Vector(_) => Ok(()),
        Instruction::br_table(_) => Ok(()),
        Instruction::select(select) => add_select_types(out, select),
        Instruction::memory_init(init) => {
            add_two_indices(out, Space::Memory, &init.mem, Space::Data, &init.data)
        }
        Instruction::memory_copy(copy) => {
            add_two_indices(out, Space::Memory, &copy.dst, Space::Memory, &copy.src)
        }
        Instruction::table_init(init) => {
            add_two_indices(out, Space::Table, &init.table, Space::Elem, &init.elem)
        }
        Instruction::table_copy(copy) => {
            add_two_indices(out, Space::Table, &copy.dst, Space::Table, &copy.src)
        }
        Instruction::ref_null(heap) => add_heap_type(out, heap),
        Instruction::array_new_fixed(new) => add_index(out, Space::Type, &new.array),
        Instruction::array_new_data(new) => {
            add_two_indices(out, Space::Type, &new.array, Space::Data, &new.data_idx)
        }
        Instruction::array_new_elem(new) => {
            add_two_indices(out, Space::Type, &new.array, Space::Elem, &new.elem_idx)
        }
        Instruction::array_fill(fill) => add_index(out, Space::Type, &fill.array),
        Instruction::array_copy(copy) => add_two_indices(
            out,
            Space::Type,
            &copy.dest_array,
            Space::Type,
            &copy.src_array,
        ),
        Instruction::ref_test(test) => add_ref_type(out, &test.type_),
        Instruction::ref_cast(cast) => add_ref_type(out, &cast.type_),
        Instruction::br_on_cast(cast) => add_cast_branch(out, &cast.from_type, &cast.to_type),
        Instruction::br_on_cast_fail(cast) => add_cast_branch(out, &cast.from_type, &cast.to_type),
        Instruction::i32_const(_) => Ok(()),
        Instruction::i64_const(_) => Ok(()),
        Instruction::f32_const(_) => Ok(()),
        Instruction::f64_const(_) => Ok(()),
        Instruction::atomic_fence(_) => Ok(()),
        Instruction::v128_const(_) => Ok(()),
        Instruction::i8x16_shuffle(_) => Ok(()),
        Instruction::try_table(table) => add_try_table(out, table),
        Instruction::cont_bind(bind) => add_two_indices(
            out,
            Space::Type,
            &bind.argument_index,
            Space::Type,
            &bind.result_index,
        ),
        Instruction::resume(resume) => {
            add_resume(out, &resume.type_index, &resume.table.handlers)
        }
        Instruction::resume_throw(resume) => add_resume_throw(
            out,
            &resume.type_index,
            &resume.tag_index,
            &resume.table.handlers,
        ),
        Instruction::resume_throw_ref(resume) => {
            add_resume(out, &resume.type_index, &resume.table.handlers)
        }
        Instruction::switch(switch) => add_two_indices(
            out,
            Space::Type,
            &switch.type_index,
            Space::Tag,
            &switch.tag_index,
        ),
        Instruction::ref_cast_desc_eq(cast) => add_ref_type(out, &cast.type_),
        Instruction::br_on_cast_desc_eq(cast) => add_cast_branch(
            out,
            &cast.from_type,
            &cast.to_type,
        ),
        Instruction::br_on_cast_desc_eq_fail(cast) => {
            add_cast_branch(out, &cast.from_type, &cast.to_type)
        }
    }
}

/// Appends the names that an instruction uses, by the number of its row.
#[tactic(auto, using(crate::proofs::Rows::uses_of))]
fn add_instruction<'a>(
    out: &mut Vec<Name<'a>>,
    local: usize,
    instr: &Instruction<'a>,
) -> Result<(), AllocError>
    ensures { OnOk result (names out.new.items ≡ names out.old.items
        ++ instr_uses local (instruction_view instr.now)) }
{
    add_operand(out, local, instr)
}

/// Appends the names that instructions use, apart from labels, in order. A local is in the space
/// `Space::Local(local)`.
pub fn add_names<'a>(
    out: &mut Vec<Name<'a>>,
    local: usize,
    instrs: &[Instruction<'a>],
) -> Result<(), AllocError>
    ensures { OnOk result (names out.new.items ≡ names out.old.items
        ++ instrs_uses local (map instruction_view instrs.now)) }
{
    for instr in instrs {
        add_instruction(out, local, instr)?;
    }
    Ok(())
}

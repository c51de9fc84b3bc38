//! What Debug writes of an instruction's operand.

use std::fmt;
use wat_core::Instruction;

/// Adds what Debug writes of the operand of an instruction that is of a kind with others.
fn add_shared<W: fmt::Write>(out: &mut fmt::Formatter<W>, found: &Instruction<'_>) -> fmt::Result {
    match found {
        Instruction::Block(_, Some(block)) => write!(out, "{block:?}")?,
        Instruction::Label(_, label) => write!(out, "{label:?}")?,
        Instruction::Indexed(_, index) => write!(out, "{index:?}")?,
        Instruction::CallIndirect(_, call) => write!(out, "{call:?}")?,
        Instruction::Table(_, table) => write!(out, "{table:?}")?,
        Instruction::Access(_, access) => write!(out, "{access:?}")?,
        Instruction::Memory(_, memory) => write!(out, "{memory:?}")?,
        Instruction::Struct(_, access) => write!(out, "{access:?}")?,
        Instruction::ArrayInit(_, init) => write!(out, "{init:?}")?,
        Instruction::AtomicAccess(_, access) => write!(out, "{access:?}")?,
        Instruction::RmwAccess(_, access) => write!(out, "{access:?}")?,
        Instruction::OrderedIndex(_, index) => write!(out, "{index:?}")?,
        Instruction::OrderedTable(_, table) => write!(out, "{table:?}")?,
        Instruction::OrderedStruct(_, access) => write!(out, "{access:?}")?,
        Instruction::LaneAccess(_, access) => write!(out, "{access:?}")?,
        Instruction::Lane(_, lane) => write!(out, "{lane:?}")?,
        _ => {}
    }
    Ok(())
}

/// Adds what Debug writes of the operand of a cast, a handler or a constant.
fn add_single<W: fmt::Write>(out: &mut fmt::Formatter<W>, found: &Instruction<'_>) -> fmt::Result {
    match found {
        Instruction::br_table(table) => write!(out, "{table:?}")?,
        Instruction::select(types) => write!(out, "{types:?}")?,
        Instruction::ref_test(test) => write!(out, "{test:?}")?,
        Instruction::ref_cast(cast) => write!(out, "{cast:?}")?,
        Instruction::br_on_cast(cast) => write!(out, "{cast:?}")?,
        Instruction::br_on_cast_fail(cast) => write!(out, "{cast:?}")?,
        Instruction::ref_cast_desc_eq(cast) => write!(out, "{cast:?}")?,
        Instruction::br_on_cast_desc_eq(cast) => write!(out, "{cast:?}")?,
        Instruction::br_on_cast_desc_eq_fail(cast) => write!(out, "{cast:?}")?,
        Instruction::try_table(table) => write!(out, "{table:?}")?,
        Instruction::cont_bind(bind) => write!(out, "{bind:?}")?,
        Instruction::resume(resume) => write!(out, "{resume:?}")?,
        Instruction::resume_throw(resume) => write!(out, "{resume:?}")?,
        Instruction::resume_throw_ref(resume) => write!(out, "{resume:?}")?,
        Instruction::switch(switch) => write!(out, "{switch:?}")?,
        Instruction::i32_const(number) => write!(out, "{number:?}")?,
        Instruction::i64_const(number) => write!(out, "{number:?}")?,
        _ => {}
    }
    Ok(())
}

/// Adds what Debug writes of the operand of one of the other instructions.
fn add_other<W: fmt::Write>(out: &mut fmt::Formatter<W>, found: &Instruction<'_>) -> fmt::Result {
    match found {
        Instruction::memory_init(init) => write!(out, "{init:?}")?,
        Instruction::memory_copy(copy) => write!(out, "{copy:?}")?,
        Instruction::table_init(init) => write!(out, "{init:?}")?,
        Instruction::table_copy(copy) => write!(out, "{copy:?}")?,
        Instruction::ref_null(heap) => write!(out, "{heap:?}")?,
        Instruction::array_new_fixed(array) => write!(out, "{array:?}")?,
        Instruction::array_new_data(array) => write!(out, "{array:?}")?,
        Instruction::array_new_elem(array) => write!(out, "{array:?}")?,
        Instruction::array_fill(array) => write!(out, "{array:?}")?,
        Instruction::array_copy(array) => write!(out, "{array:?}")?,
        Instruction::atomic_fence(ordering) => write!(out, "{ordering:?}")?,
        Instruction::v128_const(constant) => write!(out, "{constant:?}")?,
        Instruction::i8x16_shuffle(shuffle) => write!(out, "{shuffle:?}")?,
        _ => {}
    }
    Ok(())
}

/// Adds what Debug writes of the operand of an instruction.
pub fn add_operand<W: fmt::Write>(
    out: &mut fmt::Formatter<W>,
    found: &Instruction<'_>,
) -> fmt::Result {
    add_shared(out, found)?;
    add_single(out, found)?;
    add_other(out, found)
}

//! An instruction without its operand.

ghost use Rattle.std.specs.Prelude.{◌≡◌};
ghost use Rattle.wat_mnemonics.specs.Ops.{op_word, op_opcode};

use crate::access::{AccessOp, AtomicAccessOp, LaneAccessOp, RmwAccessOp};
use crate::indexed::{
    ArrayInitOp, BlockOp, CallIndirectOp, IndexedOp, LabelOp, LaneOp, MemoryOp, StructOp, TableOp,
};
use crate::opcode::Opcode;
use crate::ordered::{OrderedIndexOp, OrderedStructOp, OrderedTableOp};
use crate::scalar::ScalarOp;
use crate::vector::VectorOp;

/// An instruction without its operand (WebAssembly Core Specification, Text Format,
/// "Instructions").
///
/// Instructions with the same kind of operand share a variant, which holds an enumeration of their
/// mnemonics. If no other instruction has the same kind of operand, the instruction has its own
/// variant.
#[derive(Clone, Copy, Debug, PartialEq, Eq)]
#[allow(non_camel_case_types)]
pub enum Op {
    Block(BlockOp),
    Label(LabelOp),
    Scalar(ScalarOp),
    Indexed(IndexedOp),
    CallIndirect(CallIndirectOp),
    Table(TableOp),
    Access(AccessOp),
    Memory(MemoryOp),
    Struct(StructOp),
    ArrayInit(ArrayInitOp),
    AtomicAccess(AtomicAccessOp),
    RmwAccess(RmwAccessOp),
    OrderedIndex(OrderedIndexOp),
    OrderedTable(OrderedTableOp),
    OrderedStruct(OrderedStructOp),
    LaneAccess(LaneAccessOp),
    Lane(LaneOp),
    Vector(VectorOp),
    br_table,
    select,
    memory_init,
    memory_copy,
    table_init,
    table_copy,
    ref_null,
    array_new_fixed,
    array_new_data,
    array_new_elem,
    array_fill,
    array_copy,
    ref_test,
    ref_cast,
    br_on_cast,
    br_on_cast_fail,
    i32_const,
    i64_const,
    f32_const,
    f64_const,
    atomic_fence,
    v128_const,
    i8x16_shuffle,
    try_table,
    cont_bind,
    resume,
    resume_throw,
    resume_throw_ref,
    switch,
    ref_cast_desc_eq,
    br_on_cast_desc_eq,
    br_on_cast_desc_eq_fail,
}

impl Op {
    /// Returns the mnemonic.
    pub fn word(self) -> &'static str
        ensures { result.now ≡ op_word self }
    {
        match self {
            Op::Block(op) => op.word(),
            Op::Label(op) => op.word(),
            Op::Scalar(op) => op.word(),
            Op::Indexed(op) => op.word(),
            Op::CallIndirect(op) => op.word(),
            Op::Table(op) => op.word(),
            Op::Access(op) => op.word(),
            Op::Memory(op) => op.word(),
            Op::Struct(op) => op.word(),
            Op::ArrayInit(op) => op.word(),
            Op::AtomicAccess(op) => op.word(),
            Op::RmwAccess(op) => op.word(),
            Op::OrderedIndex(op) => op.word(),
            Op::OrderedTable(op) => op.word(),
            Op::OrderedStruct(op) => op.word(),
            Op::LaneAccess(op) => op.word(),
            Op::Lane(op) => op.word(),
            Op::Vector(op) => op.word(),
            Op::br_table => "br_table",
            Op::select => "select",
            Op::memory_init => "memory.init",
            Op::memory_copy => "memory.copy",
            Op::table_init => "table.init",
            Op::table_copy => "table.copy",
            Op::ref_null => "ref.null",
            Op::array_new_fixed => "array.new_fixed",
            Op::array_new_data => "array.new_data",
            Op::array_new_elem => "array.new_elem",
            Op::array_fill => "array.fill",
            Op::array_copy => "array.copy",
            Op::ref_test => "ref.test",
            Op::ref_cast => "ref.cast",
            Op::br_on_cast => "br_on_cast",
            Op::br_on_cast_fail => "br_on_cast_fail",
            Op::i32_const => "i32.const",
            Op::i64_const => "i64.const",
            Op::f32_const => "f32.const",
            Op::f64_const => "f64.const",
            Op::atomic_fence => "atomic.fence",
            Op::v128_const => "v128.const",
            Op::i8x16_shuffle => "i8x16.shuffle",
            Op::try_table => "try_table",
            Op::cont_bind => "cont.bind",
            Op::resume => "resume",
            Op::resume_throw => "resume_throw",
            Op::resume_throw_ref => "resume_throw_ref",
            Op::switch => "switch",
            Op::ref_cast_desc_eq => "ref.cast_desc_eq",
            Op::br_on_cast_desc_eq => "br_on_cast_desc_eq",
            Op::br_on_cast_desc_eq_fail => "br_on_cast_desc_eq_fail",
        }
    }

    /// Returns the opcode (WebAssembly Core Specification 2.0, "Index of Instructions"). The opcode
    /// is `Absent` if the instruction has an operand or isn't in that version.
    pub fn opcode(self) -> Opcode
        ensures { result ≡ op_opcode self }
    {
        match self {
            Op::Scalar(op) => op.opcode(),
            Op::Vector(op) => op.opcode(),
            _ => Opcode::Absent,
        }
    }
}

//! The mnemonic and the opcode of an instruction, and tests for blocks, `if` and `br_if`.

ghost use Rattle.std.specs.Prelude.{◌≡◌};
ghost use Rattle.wat_instr.specs.Prelude.{op_row, op_word, op_in, instruction_view, is_block, is_if, is_br_if};
ghost use Rattle.wat_mnemonics.specs.Ops.{op_opcode};
ghost use Rattle.wat_mnemonics.specs.Opcodes.{bytes, Appends};

use crate::instruction::{Instruction, InstructionOf};
use std::fmt;
use wat_mnemonics::{BlockOp, IndexedOp, Op};
use wat_tokens::Result;

impl<
    BlockType,
    Id,
    Index,
    CallIndirect,
    MemArg,
    SelectTypes,
    HeapType,
    RefTest,
    RefCast,
    BrOnCast,
    BrOnCastFail,
    TryTable,
    RefCastDescEq,
    BrOnCastDescEq,
    BrOnCastDescEqFail,
> InstructionOf<
    BlockType,
    Id,
    Index,
    CallIndirect,
    MemArg,
    SelectTypes,
    HeapType,
    RefTest,
    RefCast,
    BrOnCast,
    BrOnCastFail,
    TryTable,
    RefCastDescEq,
    BrOnCastDescEq,
    BrOnCastDescEqFail,
> {
    /// Returns the instruction without its operand.
    pub fn op(&self) -> Op
        ensures { result ≡ op_in self.now }
    {
        match self {
            InstructionOf::Block(op, _) => Op::Block(*op),
            InstructionOf::Label(op, _) => Op::Label(*op),
            InstructionOf::Scalar(op) => Op::Scalar(*op),
            InstructionOf::Indexed(op, _) => Op::Indexed(*op),
            InstructionOf::CallIndirect(op, _) => Op::CallIndirect(*op),
            InstructionOf::Table(op, _) => Op::Table(*op),
            InstructionOf::Access(op, _) => Op::Access(*op),
            InstructionOf::Memory(op, _) => Op::Memory(*op),
            InstructionOf::Struct(op, _) => Op::Struct(*op),
            InstructionOf::ArrayInit(op, _) => Op::ArrayInit(*op),
            InstructionOf::AtomicAccess(op, _) => Op::AtomicAccess(*op),
            InstructionOf::RmwAccess(op, _) => Op::RmwAccess(*op),
            InstructionOf::OrderedIndex(op, _) => Op::OrderedIndex(*op),
            InstructionOf::OrderedTable(op, _) => Op::OrderedTable(*op),
            InstructionOf::OrderedStruct(op, _) => Op::OrderedStruct(*op),
            InstructionOf::LaneAccess(op, _) => Op::LaneAccess(*op),
            InstructionOf::Lane(op, _) => Op::Lane(*op),
            InstructionOf::Vector(op) => Op::Vector(*op),
            InstructionOf::br_table(_) => Op::br_table,
            InstructionOf::select(_) => Op::select,
            InstructionOf::memory_init(_) => Op::memory_init,
            InstructionOf::memory_copy(_) => Op::memory_copy,
            InstructionOf::table_init(_) => Op::table_init,
            InstructionOf::table_copy(_) => Op::table_copy,
            InstructionOf::ref_null(_) => Op::ref_null,
            InstructionOf::array_new_fixed(_) => Op::array_new_fixed,
            InstructionOf::array_new_data(_) => Op::array_new_data,
            InstructionOf::array_new_elem(_) => Op::array_new_elem,
            InstructionOf::array_fill(_) => Op::array_fill,
            InstructionOf::array_copy(_) => Op::array_copy,
            InstructionOf::ref_test(_) => Op::ref_test,
            InstructionOf::ref_cast(_) => Op::ref_cast,
            InstructionOf::br_on_cast(_) => Op::br_on_cast,
            InstructionOf::br_on_cast_fail(_) => Op::br_on_cast_fail,
            InstructionOf::i32_const(_) => Op::i32_const,
            InstructionOf::i64_const(_) => Op::i64_const,
            InstructionOf::f32_const(_) => Op::f32_const,
            InstructionOf::f64_const(_) => Op::f64_const,
            InstructionOf::atomic_fence(_) => Op::atomic_fence,
            InstructionOf::v128_const(_) => Op::v128_const,
            InstructionOf::i8x16_shuffle(_) => Op::i8x16_shuffle,
            InstructionOf::try_table(_) => Op::try_table,
            InstructionOf::cont_bind(_) => Op::cont_bind,
            InstructionOf::resume(_) => Op::resume,
            InstructionOf::resume_throw(_) => Op::resume_throw,
            InstructionOf::resume_throw_ref(_) => Op::resume_throw_ref,
            InstructionOf::switch(_) => Op::switch,
            InstructionOf::ref_cast_desc_eq(_) => Op::ref_cast_desc_eq,
            InstructionOf::br_on_cast_desc_eq(_) => Op::br_on_cast_desc_eq,
            InstructionOf::br_on_cast_desc_eq_fail(_) => Op::br_on_cast_desc_eq_fail,
        }
    }

    /// Returns the mnemonic.
    pub fn mnemonic(&self) -> &'static str
        ensures { result.now ≡ op_word (op_in self.now) }
    {
        self.op().word()
    }
}

impl Instruction<'_> {
    /// Appends the bytes of the opcode to `out`, and returns their number (WebAssembly Core
    /// Specification 2.0, "Index of Instructions"). If the instruction has an operand or isn't in
    /// that version, it appends nothing and returns None.
    ///
    /// The only error is Memory: `out` can't grow. Then nothing was appended. If there is nothing
    /// to append, the call never fails.
    pub fn write_opcode(&self, out: &mut Vec<u8>) -> Result<Option<usize>>
        ensures { Appends (bytes (op_opcode (op_in self.now))) out.old.items out.new.items
            result }
    {
        self.op().opcode().write(out)
    }

    /// Returns whether the instruction is `if`.
    pub fn is_if(&self) -> bool
        ensures { result ≡ is_if (instruction_view self.now).row }
    {
        is_if(self.op())
    }

    /// Returns whether the instruction is `br_if`.
    pub fn is_br_if(&self) -> bool
        ensures { result ≡ is_br_if (instruction_view self.now).row }
    {
        is_br_if(self.op())
    }
}

/// Returns whether the instruction is `block`, `loop` or `try_table`. In folded form, the group of
/// such an instruction holds the instructions of the block.
#[inline(always)]
#[tactic(auto, using(crate::proofs::RowFamilies::block_rows))]
pub fn is_block(op: Op) -> bool
    ensures { result ≡ is_block (op_row op) }
{
    match op {
        Op::Block(op) => match op {
            BlockOp::block => true,
            BlockOp::loop_ => true,
            BlockOp::if_ => false,
            BlockOp::try_ => false,
        },
        Op::try_table => true,
        _ => false,
    }
}

/// Returns whether the instruction is `if`.
#[inline(always)]
#[tactic(auto, using(crate::proofs::RowFamilies::if_rows))]
pub fn is_if(op: Op) -> bool
    ensures { result ≡ is_if (op_row op) }
{
    match op {
        Op::Block(op) => match op {
            BlockOp::if_ => true,
            BlockOp::block => false,
            BlockOp::loop_ => false,
            BlockOp::try_ => false,
        },
        _ => false,
    }
}

/// Returns whether the instruction is `br_if`.
#[inline(always)]
#[tactic(auto, using(crate::proofs::RowFamilies::br_if_rows))]
pub fn is_br_if(op: Op) -> bool
    ensures { result ≡ is_br_if (op_row op) }
{
    match op {
        Op::Indexed(op) => match op {
            IndexedOp::br_if => true,
            _ => false,
        },
        _ => false,
    }
}

/// Prints the mnemonic.
impl<
    BlockType,
    Id,
    Index,
    CallIndirect,
    MemArg,
    SelectTypes,
    HeapType,
    RefTest,
    RefCast,
    BrOnCast,
    BrOnCastFail,
    TryTable,
    RefCastDescEq,
    BrOnCastDescEq,
    BrOnCastDescEqFail,
> fmt::Debug
    for InstructionOf<
        BlockType,
        Id,
        Index,
        CallIndirect,
        MemArg,
        SelectTypes,
        HeapType,
        RefTest,
        RefCast,
        BrOnCast,
        BrOnCastFail,
        TryTable,
        RefCastDescEq,
        BrOnCastDescEq,
        BrOnCastDescEqFail,
    > {
    fn fmt<W: fmt::Write>(&self, f: &mut fmt::Formatter<W>) -> fmt::Result {
        f.write_str(self.mnemonic())
    }
}

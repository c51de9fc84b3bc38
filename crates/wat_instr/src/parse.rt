//! The parser of instructions.

ghost use Rattle.std.specs.Prelude.{◌≡◌, ◌+◌, ◌≤◌, ◌∷◌, ℕ, List, None, IfErr};
ghost use Rattle.wat_instr.specs.Prelude.{ReadsAt, Token, Keyword, owning, InstructionModel, instruction_view, instruction, ReadsOperand};
ghost use Rattle.wat_instr.specs.Instruction.{heapless_instruction};
ghost use Rattle.wat_tokens.specs.Cost.{words_too};
ghost use Rattle.wat_mnemonics.specs.Probes.{AtMostTen};
ghost use Rattle.wat_mnemonics.specs.Mnemonic.{mnemonic};

use crate::families::*;
use crate::instruction::Instruction;
use crate::operand::{read_operand, read_rare_operand};
use crate::sink::Sink;
use wat_mnemonics::Op;
use wat_operands::{
    ArrayCopy, ArrayFill, ArrayInit, ArrayNewData, ArrayNewElem, ArrayNewFixed, BrOnCast,
    BrOnCastDescEq, BrOnCastDescEqFail, BrOnCastFail, BrTableIndices, ContBind, I8x16Shuffle,
    LaneArg, MemoryArg, MemoryCopy, MemoryInit, Ordered, Ordering, RefCast, RefCastDescEq, RefTest,
    Resume, ResumeThrow, ResumeThrowRef, SelectTypes, StructAccess, Switch, TableArg, TableCopy,
    TableInit, TryTable, V128Const,
};
use wat_tokens::{F32, F64, Fault, Index, Parse, Parser, Result};
use wat_types::HeapType;

impl<'a> Instruction<'a> {
    /// Parses the operand of an instruction after its mnemonic, and appends the instruction to
    /// `out`, which has room for it.
    ///
    /// The error is the first error in the operand. Memory is possible only if the operand owns
    /// memory: a box, or a list that isn't empty. After an error, `out` is unchanged.
    #[inline(always)]
    pub fn read_operand<P: Sink<'a>>(op: Op, parser: &mut Parser<'a>, out: &mut P) -> Result<()>
        requires { P.has_room out.old }
        ensures { ReadsOperand op (P.seen out.old) (P.seen out.new) result parser.old parser.new }
    {
        match op {
            Op::Block(op) => read_block(op, parser, out),
            Op::Label(op) => read_label(op, parser, out),
            Op::Scalar(op) => put_scalar(op, parser, out),
            Op::Indexed(op) => read_operand::<_, Index, _>(op, parser, out),
            Op::CallIndirect(op) => read_call_indirect(op, parser, out),
            Op::Table(op) => read_rare_operand::<_, TableArg, _>(op, parser, out),
            Op::Access(op) => read_access(op, parser, out),
            Op::Memory(op) => read_rare_operand::<_, MemoryArg, _>(op, parser, out),
            Op::Struct(op) => read_rare_operand::<_, StructAccess, _>(op, parser, out),
            Op::ArrayInit(op) => read_rare_operand::<_, ArrayInit, _>(op, parser, out),
            Op::AtomicAccess(op) => read_atomic_access(op, parser, out),
            Op::RmwAccess(op) => read_rmw_access(op, parser, out),
            Op::OrderedIndex(op) => read_rare_operand::<_, Ordered<Index>, _>(op, parser, out),
            Op::OrderedTable(op) => read_rare_operand::<_, Ordered<TableArg>, _>(op, parser, out),
            Op::OrderedStruct(op) => read_rare_operand::<_, Ordered<StructAccess>, _>(
                op, parser, out,
            ),
            Op::LaneAccess(op) => read_lane_access(op, parser, out),
            Op::Lane(op) => read_rare_operand::<_, LaneArg, _>(op, parser, out),
            Op::Vector(op) => put_vector(op, parser, out),
            Op::br_table => read_rare_operand::<_, BrTableIndices, _>((), parser, out),
            Op::select => read_rare_operand::<_, SelectTypes, _>((), parser, out),
            Op::memory_init => read_rare_operand::<_, MemoryInit, _>((), parser, out),
            Op::memory_copy => read_rare_operand::<_, MemoryCopy, _>((), parser, out),
            Op::table_init => read_rare_operand::<_, TableInit, _>((), parser, out),
            Op::table_copy => read_rare_operand::<_, TableCopy, _>((), parser, out),
            Op::ref_null => read_rare_operand::<_, HeapType, _>((), parser, out),
            Op::array_new_fixed => read_rare_operand::<_, ArrayNewFixed, _>((), parser, out),
            Op::array_new_data => read_rare_operand::<_, ArrayNewData, _>((), parser, out),
            Op::array_new_elem => read_rare_operand::<_, ArrayNewElem, _>((), parser, out),
            Op::array_fill => read_rare_operand::<_, ArrayFill, _>((), parser, out),
            Op::array_copy => read_rare_operand::<_, ArrayCopy, _>((), parser, out),
            Op::ref_test => read_rare_operand::<_, RefTest, _>((), parser, out),
            Op::ref_cast => read_rare_operand::<_, RefCast, _>((), parser, out),
            Op::br_on_cast => read_rare_operand::<_, Box<BrOnCast>, _>((), parser, out),
            Op::br_on_cast_fail => read_rare_operand::<_, Box<BrOnCastFail>, _>((), parser, out),
            Op::i32_const => read_operand::<_, i32, _>((), parser, out),
            Op::i64_const => read_operand::<_, i64, _>((), parser, out),
            Op::f32_const => read_rare_operand::<_, F32, _>((), parser, out),
            Op::f64_const => read_rare_operand::<_, F64, _>((), parser, out),
            Op::atomic_fence => read_rare_operand::<_, Option<Ordering>, _>((), parser, out),
            Op::v128_const => read_rare_operand::<_, V128Const, _>((), parser, out),
            Op::i8x16_shuffle => read_rare_operand::<_, I8x16Shuffle, _>((), parser, out),
            Op::try_table => read_rare_operand::<_, TryTable, _>((), parser, out),
            Op::cont_bind => read_rare_operand::<_, ContBind, _>((), parser, out),
            Op::resume => read_rare_operand::<_, Resume, _>((), parser, out),
            Op::resume_throw => read_rare_operand::<_, Box<ResumeThrow>, _>((), parser, out),
            Op::resume_throw_ref => read_rare_operand::<_, ResumeThrowRef, _>((), parser, out),
            Op::switch => read_rare_operand::<_, Switch, _>((), parser, out),
            Op::ref_cast_desc_eq => read_rare_operand::<_, RefCastDescEq, _>((), parser, out),
            Op::br_on_cast_desc_eq => read_rare_operand::<_, Box<BrOnCastDescEq>, _>(
                (),
                parser,
                out,
            ),
            Op::br_on_cast_desc_eq_fail => read_rare_operand::<_, Box<BrOnCastDescEqFail>, _>(
                (),
                parser,
                out,
            ),
        }
    }
}

/// Parses a mnemonic, and then the operand.
///
/// If the next token is not a mnemonic, the error is Operator at that token. Otherwise the error is
/// the first error in the operand.
impl<'a> Parse<'a> for Instruction<'a> {
    ghost View = { InstructionModel };

    ghost view = { owning instruction_view heapless_instruction };

    ghost cost = { words_too };

    ghost grammar = { instruction };

    #[tactic(auto, unfolding(crate::specs::Reading::ReadsOperand, crate::specs::Instruction::instruction))]
    fn parse(parser: &mut Parser<'a>) -> Result<Self>
        // The call counts no turn and no height.
        ensures reads { ReadsAt words_too (owning instruction_view heapless_instruction) instruction
            result parser.old parser.new }
        // The call compares at most ten mnemonics, and at least one if a keyword is next.
        ensures probes { AtMostTen parser.old parser.new }
        ensures probed { (w : List ℕ) (r : List Token) → parser.old.left ≡ Keyword w ∷ r
            → parser.old.probes + 1 ≤ parser.new.probes }
        ensures word { mnemonic.reads parser.old.left ≡ None
            → IfErr result (λ e. e.fault ≡ Fault.Operator) }
    {
        let op = Op::take(parser)?;
        let mut slot = None;
        Instruction::read_operand(op, parser, &mut slot)?;
        Ok(slot.unwrap())
    }
}

//! Operands of instructions that share their kind of operand.
#![tactic(auto, unfolding(crate::specs::Reading::ReadsOperand, crate::specs::Operand::operand))]

ghost use Rattle.std.specs.Prelude.{◌≡◌, IfOk, IfErr, refl, true};
ghost use Rattle.wat_operands.specs.Prelude.{array_init_view, struct_access_view, block_view, ordered_view, memory_arg_view, table_arg_view, index_view};
ghost use Rattle.wat_instr.specs.Instruction.{block_in};
ghost use Rattle.wat_instr.specs.Operand.{operand, says_something};
ghost use Rattle.wat_instr.specs.OperandOf.{made_by};
ghost use Rattle.wat_instr.specs.Reading.{ReadsOperand};
ghost use Rattle.wat_instr.specs.Operand as operands;
ghost use Rattle.wat_mnemonics.specs.declared.op.Op.TheVariants as ops;

use crate::instruction::Instruction;
use crate::operand::OperandOf;
use crate::sink::Sink;
use std::alloc::Global;
use wat_mnemonics::{
    AccessOp, ArrayInitOp, AtomicAccessOp, BlockOp, CallIndirectOp, IndexedOp, LabelOp,
    LaneAccessOp, LaneOp, MemoryOp, OrderedIndexOp, OrderedStructOp, OrderedTableOp, RmwAccessOp,
    ScalarOp, StructOp, TableOp, VectorOp,
};
use wat_operands::{
    ArrayInit, BlockType, CallIndirect, LaneArg, LoadOrStoreLane, MemArg, MemoryArg, Ordered,
    StructAccess, TableArg,
};
use wat_tokens::ownership::discard;
use wat_tokens::{Fault, Id, Index, Parse, Parser, Result};

/// Returns whether a block has a label, a name or a type.
pub(crate) fn says_something(block: &BlockType) -> bool
    ensures { result ≡ says_something (block_view block.now) }
{
    let names = block.label.is_some() || block.label_name.is_some();
    names || block.ty.index.is_some() || block.ty.inline.is_some()
}

/// Returns the block type in a box, or None if it has no label, no name and no type. The only error
/// is Memory.
#[tactic(auto, using(crate::proofs::Blocks::nothing_said))]
fn boxed<'a>(alloc: Global, block: BlockType<'a>) -> Result<Option<Box<BlockType<'a>>>>
    ensures value { IfOk result (λ b. block_in b ≡ block_view block.entry) }
    ensures memory { IfErr result (λ e. (e.fault ≡ Fault.Memory)
        × (says_something (block_view block.entry) ≡ true)) }
{
    if says_something(&block) {
        return Ok(Some(Box::new(alloc, block)?));
    }
    discard(block);
    Ok(None)
}

/// Parses the block type of `block`, `loop`, `if` or `try`.
#[inline(always)]
#[tactic(auto, unfolding(crate::specs::Reading::ReadsOperand, crate::specs::Operand::operand), using(crate::proofs::Blocks::not_heapless))]
pub(crate) fn read_block<'a, P: Sink<'a>>(
    op: BlockOp,
    parser: &mut Parser<'a>,
    out: &mut P,
) -> Result<()>
    requires { P.has_room out.old }
    ensures { ReadsOperand (ops.Block op) (P.seen out.old) (P.seen out.new) result parser.old
        parser.new }
{
    match BlockType::parse(parser) {
        Ok(block) => match boxed(parser.alloc(), block) {
            Ok(operand) => {
                out.put(Instruction::Block(op, operand));
                Ok(())
            }
            Err(refused) => Err(refused),
        },
        Err(refused) => Err(refused),
    }
}

/// Parses the optional label of `else` or `end`.
#[inline(always)]
pub(crate) fn read_label<'a, P: Sink<'a>>(
    op: LabelOp,
    parser: &mut Parser<'a>,
    out: &mut P,
) -> Result<()>
    requires { P.has_room out.old }
    ensures { ReadsOperand (ops.Label op) (P.seen out.old) (P.seen out.new) result parser.old
        parser.new }
{
    match Option::<Id>::parse(parser) {
        Ok(operand) => {
            out.put(Instruction::Label(op, operand));
            Ok(())
        }
        Err(refused) => Err(refused),
    }
}

/// An instruction with an index.
impl<'a> OperandOf<'a, IndexedOp> for Index<'a> {
    ghost op_of = { λ op. ops.Indexed op };

    ghost seen = { λ x. operands.one_index (index_view x) };

    ghost is_operand = { λ op. made_by operands.one_index (λ t. unfold operand in refl)
        (λ v. refl) };

    #[inline(always)]
    fn instruction(self, op: IndexedOp) -> Instruction<'a> {
        Instruction::Indexed(op, self)
    }
}

/// An indirect call.
pub(crate) fn read_call_indirect<'a, P: Sink<'a>>(
    op: CallIndirectOp,
    parser: &mut Parser<'a>,
    out: &mut P,
) -> Result<()>
    requires { P.has_room out.old }
    ensures { ReadsOperand (ops.CallIndirect op) (P.seen out.old) (P.seen out.new) result parser.old
        parser.new }
{
    match Box::<CallIndirect>::parse(parser) {
        Ok(operand) => {
            out.put(Instruction::CallIndirect(op, operand));
            Ok(())
        }
        Err(refused) => Err(refused),
    }
}

/// An instruction with a table.
impl<'a> OperandOf<'a, TableOp> for TableArg<'a> {
    ghost op_of = { λ op. ops.Table op };

    ghost seen = { λ x. operands.one_index (table_arg_view x) };

    ghost is_operand = { λ op. made_by operands.one_index (λ t. unfold operand in refl)
        (λ v. refl) };

    #[inline(always)]
    fn instruction(self, op: TableOp) -> Instruction<'a> {
        Instruction::Table(op, self)
    }
}

/// A load, a store, a wait or a notify.
#[inline(always)]
pub(crate) fn read_access<'a, P: Sink<'a>>(
    op: AccessOp,
    parser: &mut Parser<'a>,
    out: &mut P,
) -> Result<()>
    requires { P.has_room out.old }
    ensures { ReadsOperand (ops.Access op) (P.seen out.old) (P.seen out.new) result parser.old
        parser.new }
{
    match MemArg::read(parser, op.align()) {
        Ok(operand) => {
            out.put(Instruction::Access(op, operand));
            Ok(())
        }
        Err(refused) => Err(refused),
    }
}

/// An instruction with a memory.
impl<'a> OperandOf<'a, MemoryOp> for MemoryArg<'a> {
    ghost op_of = { λ op. ops.Memory op };

    ghost seen = { λ x. operands.one_index (memory_arg_view x) };

    ghost is_operand = { λ op. made_by operands.one_index (λ t. unfold operand in refl)
        (λ v. refl) };

    #[inline(always)]
    fn instruction(self, op: MemoryOp) -> Instruction<'a> {
        Instruction::Memory(op, self)
    }
}

/// An access to a field of a structure.
impl<'a> OperandOf<'a, StructOp> for StructAccess<'a> {
    ghost op_of = { λ op. ops.Struct op };

    ghost seen = { λ x. operands.two_indices (struct_access_view x) };

    ghost is_operand = { λ op. made_by operands.two_indices (λ t. unfold operand in refl)
        (λ v. refl) };

    #[inline(always)]
    fn instruction(self, op: StructOp) -> Instruction<'a> {
        Instruction::Struct(op, self)
    }
}

/// `array.init_data` or `array.init_elem`.
impl<'a> OperandOf<'a, ArrayInitOp> for ArrayInit<'a> {
    ghost op_of = { λ op. ops.ArrayInit op };

    ghost seen = { λ x. operands.two_indices (array_init_view x) };

    ghost is_operand = { λ op. made_by operands.two_indices (λ t. unfold operand in refl)
        (λ v. refl) };

    #[inline(always)]
    fn instruction(self, op: ArrayInitOp) -> Instruction<'a> {
        Instruction::ArrayInit(op, self)
    }
}

/// An atomic load or store.
pub(crate) fn read_atomic_access<'a, P: Sink<'a>>(
    op: AtomicAccessOp,
    parser: &mut Parser<'a>,
    out: &mut P,
) -> Result<()>
    requires { P.has_room out.old }
    ensures { ReadsOperand (ops.AtomicAccess op) (P.seen out.old) (P.seen out.new) result parser.old
        parser.new }
{
    match MemArg::read_atomic(parser, op.align(), false) {
        Ok(operand) => {
            out.put(Instruction::AtomicAccess(op, operand));
            Ok(())
        }
        Err(refused) => Err(refused),
    }
}

/// An atomic read-modify-write instruction.
pub(crate) fn read_rmw_access<'a, P: Sink<'a>>(
    op: RmwAccessOp,
    parser: &mut Parser<'a>,
    out: &mut P,
) -> Result<()>
    requires { P.has_room out.old }
    ensures { ReadsOperand (ops.RmwAccess op) (P.seen out.old) (P.seen out.new) result parser.old
        parser.new }
{
    match MemArg::read_atomic(parser, op.align(), true) {
        Ok(operand) => {
            out.put(Instruction::RmwAccess(op, operand));
            Ok(())
        }
        Err(refused) => Err(refused),
    }
}

/// An atomic access to a global or to an element of an array.
impl<'a> OperandOf<'a, OrderedIndexOp> for Ordered<Index<'a>> {
    ghost op_of = { λ op. ops.OrderedIndex op };

    ghost seen = { λ x. operands.ordered_index (ordered_view index_view x) };

    ghost is_operand = { λ op. made_by operands.ordered_index (λ t. unfold operand in refl)
        (λ v. refl) };

    #[inline(always)]
    fn instruction(self, op: OrderedIndexOp) -> Instruction<'a> {
        Instruction::OrderedIndex(op, self)
    }
}

/// An atomic access to a table.
impl<'a> OperandOf<'a, OrderedTableOp> for Ordered<TableArg<'a>> {
    ghost op_of = { λ op. ops.OrderedTable op };

    ghost seen = { λ x. operands.ordered_index (ordered_view table_arg_view x) };

    ghost is_operand = { λ op. made_by operands.ordered_index (λ t. unfold operand in refl)
        (λ v. refl) };

    #[inline(always)]
    fn instruction(self, op: OrderedTableOp) -> Instruction<'a> {
        Instruction::OrderedTable(op, self)
    }
}

/// An atomic access to a field of a structure.
impl<'a> OperandOf<'a, OrderedStructOp> for Ordered<StructAccess<'a>> {
    ghost op_of = { λ op. ops.OrderedStruct op };

    ghost seen = { λ x. operands.ordered_indices (ordered_view struct_access_view x) };

    ghost is_operand = { λ op. made_by operands.ordered_indices (λ t. unfold operand in refl)
        (λ v. refl) };

    #[inline(always)]
    fn instruction(self, op: OrderedStructOp) -> Instruction<'a> {
        Instruction::OrderedStruct(op, self)
    }
}

/// A load or store of one lane.
pub(crate) fn read_lane_access<'a, P: Sink<'a>>(
    op: LaneAccessOp,
    parser: &mut Parser<'a>,
    out: &mut P,
) -> Result<()>
    requires { P.has_room out.old }
    ensures { ReadsOperand (ops.LaneAccess op) (P.seen out.old) (P.seen out.new) result parser.old
        parser.new }
{
    match LoadOrStoreLane::read(parser, op.align()) {
        Ok(operand) => {
            out.put(Instruction::LaneAccess(op, operand));
            Ok(())
        }
        Err(refused) => Err(refused),
    }
}

/// A lane to extract or to replace.
impl<'a> OperandOf<'a, LaneOp> for LaneArg {
    ghost op_of = { λ op. ops.Lane op };

    ghost seen = { operands.lane };

    ghost is_operand = { λ op. made_by operands.lane (λ t. unfold operand in refl) (λ v. refl) };

    #[inline(always)]
    fn instruction(self, op: LaneOp) -> Instruction<'a> {
        Instruction::Lane(op, self)
    }
}

/// Appends an instruction without an operand that is not a vector instruction.
#[inline(always)]
pub(crate) fn put_scalar<'a, P: Sink<'a>>(
    op: ScalarOp,
    parser: &mut Parser<'a>,
    out: &mut P,
) -> Result<()>
    requires { P.has_room out.old }
    ensures { ReadsOperand (ops.Scalar op) (P.seen out.old) (P.seen out.new) result parser.old
        parser.new }
{
    out.put(Instruction::Scalar(op));
    Ok(())
}

/// Appends a vector instruction without an operand.
#[inline(always)]
pub(crate) fn put_vector<'a, P: Sink<'a>>(
    op: VectorOp,
    parser: &mut Parser<'a>,
    out: &mut P,
) -> Result<()>
    requires { P.has_room out.old }
    ensures { ReadsOperand (ops.Vector op) (P.seen out.old) (P.seen out.new) result parser.old
        parser.new }
{
    out.put(Instruction::Vector(op));
    Ok(())
}

//! Printing of instructions.

ghost use Rattle.std.specs.Prelude.{[]};
ghost use Rattle.wat_print_instr.specs.Laws.Prelude.{name_of, option_view, InstructionModel, instruction_view, instruction, Printed, operand_form, printable_instruction, spell_instruction, ends_nothing, instruction_here, instruction_only, instruction_well_formed};
ghost use Rattle.wat_instr.specs.Instruction.{op_in, operand_in, block_in};
ghost use Rattle.wat_print.specs.Printed.{printing_at_end};
ghost use Rattle.wat_print_instr.specs.Access.{fence_form};
ghost use Rattle.wat_print_instr.specs.Control.{block_form, end_label_form};

use crate::access::{write_access, write_atomic, write_lane_access};
use crate::control::write_block;
use crate::traits::PrintCode;
use wat_instr::{Instruction, InstructionOf};
use wat_operands::{BlockType, Ordering};
use wat_print::reference::{write_heap, write_index};
use wat_print::{Output, Refused};
use wat_tokens::Id;

/// Writes the label of an `else` or `end`, if it has one.
fn write_end_label(out: &mut Output, label: &Option<Id>) -> Result<(), Refused>
    ensures { Printed end_label_form (option_view name_of label.now) result out.old out.new }
{
    match label {
        Some(label) => out.id(label.name()),
        None => Ok(()),
    }
}

/// Writes the ordering of a fence, if the fence has one.
fn write_fence(out: &mut Output, ordering: Option<Ordering>) -> Result<(), Refused>
    ensures { Printed fence_form (option_view (λ o. o) ordering) result out.old out.new }
{
    match ordering {
        Some(ordering) => ordering.write(out),
        None => Ok(()),
    }
}

/// Writes the label and the type of a block, or nothing if there is no box.
fn write_said(out: &mut Output, block: &Option<Box<BlockType>>) -> Result<(), Refused>
    ensures { Printed block_form (block_in block.now) result out.old out.new }
{
    match block {
        Some(block) => write_block(out, block),
        None => Ok(()),
    }
}

/// Writes the operand of an instruction, without its word.
fn write_operand(out: &mut Output, instr: &Instruction) -> Result<(), Refused>
    ensures { Printed (operand_form (op_in instr.now)) (operand_in instr.now) result out.old
        out.new }
{
    match instr {
        InstructionOf::Block(_, block) => write_said(out, block),
        InstructionOf::Label(_, label) => write_end_label(out, label),
        InstructionOf::Scalar(_) => Ok(()),
        InstructionOf::Indexed(_, index) => write_index(out, index),
        InstructionOf::CallIndirect(_, call) => call.write(out),
        InstructionOf::Table(_, table) => table.write(out),
        InstructionOf::Access(op, access) => write_access(out, access, op.align()),
        InstructionOf::Memory(_, memory) => memory.write(out),
        InstructionOf::Struct(_, access) => access.write(out),
        InstructionOf::ArrayInit(_, init) => init.write(out),
        InstructionOf::AtomicAccess(op, access) => write_atomic(out, access, op.align(), false),
        InstructionOf::RmwAccess(op, access) => write_atomic(out, access, op.align(), true),
        InstructionOf::OrderedIndex(_, index) => index.write(out),
        InstructionOf::OrderedTable(_, table) => table.write(out),
        InstructionOf::OrderedStruct(_, access) => access.write(out),
        InstructionOf::LaneAccess(op, lane) => write_lane_access(out, lane, op.align()),
        InstructionOf::Lane(_, lane) => lane.write(out),
        InstructionOf::Vector(_) => Ok(()),
        InstructionOf::br_table(table) => table.write(out),
        InstructionOf::select(types) => types.write(out),
        InstructionOf::memory_init(init) => init.write(out),
        InstructionOf::memory_copy(copy) => copy.write(out),
        InstructionOf::table_init(init) => init.write(out),
        InstructionOf::table_copy(copy) => copy.write(out),
        InstructionOf::ref_null(heap) => write_heap(out, heap),
        InstructionOf::array_new_fixed(array) => array.write(out),
        InstructionOf::array_new_data(array) => array.write(out),
        InstructionOf::array_new_elem(array) => array.write(out),
        InstructionOf::array_fill(array) => array.write(out),
        InstructionOf::array_copy(array) => array.write(out),
        InstructionOf::ref_test(test) => test.write(out),
        InstructionOf::ref_cast(cast) => cast.write(out),
        InstructionOf::br_on_cast(branch) => branch.write(out),
        InstructionOf::br_on_cast_fail(branch) => branch.write(out),
        InstructionOf::i32_const(number) => number.write(out),
        InstructionOf::i64_const(number) => number.write(out),
        InstructionOf::f32_const(_) => Err(Refused::Float),
        InstructionOf::f64_const(_) => Err(Refused::Float),
        InstructionOf::atomic_fence(ordering) => write_fence(out, *ordering),
        InstructionOf::v128_const(vector) => vector.write(out),
        InstructionOf::i8x16_shuffle(lanes) => lanes.write(out),
        InstructionOf::try_table(table) => table.write(out),
        InstructionOf::cont_bind(bind) => bind.write(out),
        InstructionOf::resume(resume) => resume.write(out),
        InstructionOf::resume_throw(resume) => resume.write(out),
        InstructionOf::resume_throw_ref(resume) => resume.write(out),
        InstructionOf::switch(switch) => switch.write(out),
        InstructionOf::ref_cast_desc_eq(cast) => cast.write(out),
        InstructionOf::br_on_cast_desc_eq(branch) => branch.write(out),
        InstructionOf::br_on_cast_desc_eq_fail(branch) => branch.write(out),
    }
}

/// It fails with Float for a floating-point constant. The type of each operand documents its other
/// errors.
impl PrintCode for Instruction<'_> {
    ghost View = { InstructionModel };

    ghost view = { instruction_view };

    ghost grammar = { instruction };

    ghost printing = { printing_at_end spell_instruction printable_instruction
        instruction_well_formed (λ v h. instruction_here v [] h ends_nothing) instruction_only };

    #[tactic(auto, using(crate::specs::Laws::Instruction::instruction_put))]
    fn write(&self, out: &mut Output) -> Result<(), Refused> {
        out.word(self.mnemonic())?;
        write_operand(out, self)
    }
}

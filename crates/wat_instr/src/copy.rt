//! Copies of instructions.

ghost use Rattle.wat_tokens.specs.Copies.{Copies};
ghost use Rattle.wat_tokens.specs.Views.{owning};
ghost use Rattle.wat_instr.specs.Instruction.{instruction_view, heapless_instruction};
ghost use Rattle.wat_instr.specs.Same.{SameInstruction};
ghost use Rattle.wat_instr.specs.declared.instruction.InstructionOf.TheVariants as code;

use crate::families::says_something;
use crate::instruction::Instruction;
use wat_mnemonics::{BlockOp, CallIndirectOp, IndexedOp, LabelOp};
use wat_operands::{
    BlockType, BrOnCast, BrOnCastDescEq, BrOnCastDescEqFail, BrOnCastFail, BrTableIndices,
    CallIndirect, Resume, ResumeThrow, ResumeThrowRef, SelectTypes, TryTable,
};
use wat_tokens::{Error, Id, Index, Result};

impl<'a> Instruction<'a> {
    /// Returns a copy. A copied block without a label, name or type has no box.
    ///
    /// The only error is Memory. It is possible only if the operand is in a box or has a list that
    /// isn't empty.
    pub fn clone(&self) -> Result<Instruction<'a>>
        ensures copies { Copies SameInstruction (owning instruction_view heapless_instruction)
            result
            self.now }
    {
        let same = match self {
            Instruction::Block(op, x) => return clone_block(*op, x),
            Instruction::Label(op, x) => return clone_label(*op, x),
            Instruction::Scalar(op) => Instruction::Scalar(*op),
            Instruction::Indexed(op, x) => return clone_indexed(*op, x),
            Instruction::CallIndirect(op, x) => return clone_call_indirect(*op, x),
            Instruction::Table(op, x) => match x.clone() {
                Ok(same) => Instruction::Table(*op, same),
                Err(refused) => return Err(Error::from(refused)),
            },
            Instruction::Access(op, x) => {
                return match x.clone() {
                    Ok(same) => Ok(Instruction::Access(*op, same)),
                    Err(refused) => Err(Error::from(refused)),
                };
            }
            Instruction::Memory(op, x) => match x.clone() {
                Ok(same) => Instruction::Memory(*op, same),
                Err(refused) => return Err(Error::from(refused)),
            },
            Instruction::Struct(op, x) => match x.clone() {
                Ok(same) => Instruction::Struct(*op, same),
                Err(refused) => return Err(Error::from(refused)),
            },
            Instruction::ArrayInit(op, x) => match x.clone() {
                Ok(same) => Instruction::ArrayInit(*op, same),
                Err(refused) => return Err(Error::from(refused)),
            },
            Instruction::AtomicAccess(op, x) => {
                return match x.clone() {
                    Ok(same) => Ok(Instruction::AtomicAccess(*op, same)),
                    Err(refused) => Err(Error::from(refused)),
                };
            }
            Instruction::RmwAccess(op, x) => {
                return match x.clone() {
                    Ok(same) => Ok(Instruction::RmwAccess(*op, same)),
                    Err(refused) => Err(Error::from(refused)),
                };
            }
            Instruction::OrderedIndex(op, x) => match x.clone() {
                Ok(same) => Instruction::OrderedIndex(*op, same),
                Err(refused) => return Err(Error::from(refused)),
            },
            Instruction::OrderedTable(op, x) => match x.clone() {
                Ok(same) => Instruction::OrderedTable(*op, same),
                Err(refused) => return Err(Error::from(refused)),
            },
            Instruction::OrderedStruct(op, x) => match x.clone() {
                Ok(same) => Instruction::OrderedStruct(*op, same),
                Err(refused) => return Err(Error::from(refused)),
            },
            Instruction::LaneAccess(op, x) => {
                return match x.clone() {
                    Ok(same) => Ok(Instruction::LaneAccess(*op, same)),
                    Err(refused) => Err(Error::from(refused)),
                };
            }
            Instruction::Lane(op, x) => match x.clone() {
                Ok(same) => Instruction::Lane(*op, same),
                Err(refused) => return Err(Error::from(refused)),
            },
            Instruction::Vector(op) => Instruction::Vector(*op),
            Instruction::br_table(x) => return clone_br_table(x),
            Instruction::select(x) => return clone_select(x),
            Instruction::memory_init(x) => match x.clone() {
                Ok(same) => Instruction::memory_init(same),
                Err(refused) => return Err(Error::from(refused)),
            },
            Instruction::memory_copy(x) => match x.clone() {
                Ok(same) => Instruction::memory_copy(same),
                Err(refused) => return Err(Error::from(refused)),
            },
            Instruction::table_init(x) => match x.clone() {
                Ok(same) => Instruction::table_init(same),
                Err(refused) => return Err(Error::from(refused)),
            },
            Instruction::table_copy(x) => match x.clone() {
                Ok(same) => Instruction::table_copy(same),
                Err(refused) => return Err(Error::from(refused)),
            },
            Instruction::ref_null(x) => Instruction::ref_null(*x),
            Instruction::array_new_fixed(x) => match x.clone() {
                Ok(same) => Instruction::array_new_fixed(same),
                Err(refused) => return Err(Error::from(refused)),
            },
            Instruction::array_new_data(x) => match x.clone() {
                Ok(same) => Instruction::array_new_data(same),
                Err(refused) => return Err(Error::from(refused)),
            },
            Instruction::array_new_elem(x) => match x.clone() {
                Ok(same) => Instruction::array_new_elem(same),
                Err(refused) => return Err(Error::from(refused)),
            },
            Instruction::array_fill(x) => match x.clone() {
                Ok(same) => Instruction::array_fill(same),
                Err(refused) => return Err(Error::from(refused)),
            },
            Instruction::array_copy(x) => match x.clone() {
                Ok(same) => Instruction::array_copy(same),
                Err(refused) => return Err(Error::from(refused)),
            },
            Instruction::ref_test(x) => match x.clone() {
                Ok(same) => Instruction::ref_test(same),
                Err(refused) => return Err(Error::from(refused)),
            },
            Instruction::ref_cast(x) => match x.clone() {
                Ok(same) => Instruction::ref_cast(same),
                Err(refused) => return Err(Error::from(refused)),
            },
            Instruction::br_on_cast(x) => return clone_br_on_cast(x),
            Instruction::br_on_cast_fail(x) => return clone_br_on_cast_fail(x),
            Instruction::i32_const(x) => Instruction::i32_const(*x),
            Instruction::i64_const(x) => Instruction::i64_const(*x),
            Instruction::f32_const(x) => Instruction::f32_const(*x),
            Instruction::f64_const(x) => Instruction::f64_const(*x),
            Instruction::atomic_fence(x) => Instruction::atomic_fence(*x),
            Instruction::v128_const(x) => {
                return match x.clone() {
                    Ok(same) => Ok(Instruction::v128_const(same)),
                    Err(refused) => Err(Error::from(refused)),
                };
            }
            Instruction::i8x16_shuffle(x) => {
                return match x.clone() {
                    Ok(same) => Ok(Instruction::i8x16_shuffle(same)),
                    Err(refused) => Err(Error::from(refused)),
                };
            }
            Instruction::try_table(x) => return clone_try_table(x),
            Instruction::cont_bind(x) => match x.clone() {
                Ok(same) => Instruction::cont_bind(same),
                Err(refused) => return Err(Error::from(refused)),
            },
            Instruction::resume(x) => return clone_resume(x),
            Instruction::resume_throw(x) => return clone_resume_throw(x),
            Instruction::resume_throw_ref(x) => return clone_resume_throw_ref(x),
            Instruction::switch(x) => match x.clone() {
                Ok(same) => Instruction::switch(same),
                Err(refused) => return Err(Error::from(refused)),
            },
            Instruction::ref_cast_desc_eq(x) => match x.clone() {
                Ok(same) => Instruction::ref_cast_desc_eq(same),
                Err(refused) => return Err(Error::from(refused)),
            },
            Instruction::br_on_cast_desc_eq(x) => return clone_br_on_cast_desc_eq(x),
            Instruction::br_on_cast_desc_eq_fail(x) => return clone_br_on_cast_desc_eq_fail(x),
        };
        Ok(same)
    }
}

/// Copies `block`, `loop`, `if` or `try` with its block type.
#[tactic(auto, using(crate::proofs::Blocks::nothing_said))]
fn clone_block<'a>(op: BlockOp, x: &Option<Box<BlockType<'a>>>) -> Result<Instruction<'a>>
    ensures copies { Copies SameInstruction (owning instruction_view heapless_instruction) result
        (code.Block op x.now) }
{
    match x {
        Some(x) if says_something(x) => {
            let same = BlockType::clone(x)?;
            Ok(Instruction::Block(op, Some(Box::new(*Box::allocator(x), same)?)))
        }
        _ => Ok(Instruction::Block(op, None)),
    }
}

/// Copies `else` or `end` with its label.
fn clone_label<'a>(op: LabelOp, x: &Option<Id<'a>>) -> Result<Instruction<'a>>
    ensures copies { Copies SameInstruction (owning instruction_view heapless_instruction) result
        (code.Label op x.now) }
{
    Ok(Instruction::Label(op, *x))
}

/// Copies an instruction with an index.
fn clone_indexed<'a>(op: IndexedOp, x: &Index<'a>) -> Result<Instruction<'a>>
    ensures copies { Copies SameInstruction (owning instruction_view heapless_instruction) result
        (code.Indexed op x.now) }
{
    Ok(Instruction::Indexed(op, *x))
}

/// Copies an indirect call.
fn clone_call_indirect<'a>(op: CallIndirectOp, x: &Box<CallIndirect<'a>>) -> Result<Instruction<'a>>
    ensures copies { Copies SameInstruction (owning instruction_view heapless_instruction) result
        (code.CallIndirect op x.now) }
{
    let same = CallIndirect::clone(x)?;
    Ok(Instruction::CallIndirect(op, Box::new(*Box::allocator(x), same)?))
}

/// Copies `br_table`.
fn clone_br_table<'a>(x: &BrTableIndices<'a>) -> Result<Instruction<'a>>
    ensures copies { Copies SameInstruction (owning instruction_view heapless_instruction) result
        (code.br_table x.now) }
{
    match x.clone() {
        Ok(same) => Ok(Instruction::br_table(same)),
        Err(refused) => Err(refused),
    }
}

/// Copies `select`.
fn clone_select<'a>(x: &SelectTypes<'a>) -> Result<Instruction<'a>>
    ensures copies { Copies SameInstruction (owning instruction_view heapless_instruction) result
        (code.select x.now) }
{
    match x.clone() {
        Ok(same) => Ok(Instruction::select(same)),
        Err(refused) => Err(refused),
    }
}

/// Copies `br_on_cast`.
fn clone_br_on_cast<'a>(x: &Box<BrOnCast<'a>>) -> Result<Instruction<'a>>
    ensures copies { Copies SameInstruction (owning instruction_view heapless_instruction) result
        (code.br_on_cast x.now) }
{
    match x.clone() {
        Ok(same) => Ok(Instruction::br_on_cast(same)),
        Err(refused) => Err(Error::from(refused)),
    }
}

/// Copies `br_on_cast_fail`.
fn clone_br_on_cast_fail<'a>(x: &Box<BrOnCastFail<'a>>) -> Result<Instruction<'a>>
    ensures copies { Copies SameInstruction (owning instruction_view heapless_instruction) result
        (code.br_on_cast_fail x.now) }
{
    match x.clone() {
        Ok(same) => Ok(Instruction::br_on_cast_fail(same)),
        Err(refused) => Err(Error::from(refused)),
    }
}

/// Copies `try_table`.
fn clone_try_table<'a>(x: &TryTable<'a>) -> Result<Instruction<'a>>
    ensures copies { Copies SameInstruction (owning instruction_view heapless_instruction) result
        (code.try_table x.now) }
{
    match x.clone() {
        Ok(same) => Ok(Instruction::try_table(same)),
        Err(refused) => Err(refused),
    }
}

/// Copies `resume`.
fn clone_resume<'a>(x: &Resume<'a>) -> Result<Instruction<'a>>
    ensures copies { Copies SameInstruction (owning instruction_view heapless_instruction) result
        (code.resume x.now) }
{
    match x.clone() {
        Ok(same) => Ok(Instruction::resume(same)),
        Err(refused) => Err(refused),
    }
}

/// Copies `resume_throw`.
fn clone_resume_throw<'a>(x: &Box<ResumeThrow<'a>>) -> Result<Instruction<'a>>
    ensures copies { Copies SameInstruction (owning instruction_view heapless_instruction) result
        (code.resume_throw x.now) }
{
    let same = ResumeThrow::clone(x)?;
    Ok(Instruction::resume_throw(Box::new(*Box::allocator(x), same)?))
}

/// Copies `resume_throw_ref`.
fn clone_resume_throw_ref<'a>(x: &ResumeThrowRef<'a>) -> Result<Instruction<'a>>
    ensures copies { Copies SameInstruction (owning instruction_view heapless_instruction) result
        (code.resume_throw_ref x.now) }
{
    match x.clone() {
        Ok(same) => Ok(Instruction::resume_throw_ref(same)),
        Err(refused) => Err(refused),
    }
}

/// Copies `br_on_cast_desc_eq`.
fn clone_br_on_cast_desc_eq<'a>(x: &Box<BrOnCastDescEq<'a>>) -> Result<Instruction<'a>>
    ensures copies { Copies SameInstruction (owning instruction_view heapless_instruction) result
        (code.br_on_cast_desc_eq x.now) }
{
    match x.clone() {
        Ok(same) => Ok(Instruction::br_on_cast_desc_eq(same)),
        Err(refused) => Err(Error::from(refused)),
    }
}

/// Copies `br_on_cast_desc_eq_fail`.
fn clone_br_on_cast_desc_eq_fail<'a>(x: &Box<BrOnCastDescEqFail<'a>>) -> Result<Instruction<'a>>
    ensures copies { Copies SameInstruction (owning instruction_view heapless_instruction) result
        (code.br_on_cast_desc_eq_fail x.now) }
{
    match x.clone() {
        Ok(same) => Ok(Instruction::br_on_cast_desc_eq_fail(same)),
        Err(refused) => Err(Error::from(refused)),
    }
}

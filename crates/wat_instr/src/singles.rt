//! Operands of instructions that don't share their kind of operand.

ghost use Rattle.std.specs.Prelude.{Some, None, refl};
ghost use Rattle.wat_instr.specs.Prelude.{operand_in, operand};
ghost use Rattle.wat_instr.specs.OperandOf.{made_by};
ghost use Rattle.wat_instr.specs.Operand as operands;
ghost use Rattle.wat_instr.specs.declared.instruction.InstructionOf.TheVariants as code;
ghost use Rattle.wat_mnemonics.specs.declared.op.Op.TheVariants as ops;

use crate::instruction::Instruction;
use crate::operand::OperandOf;
use wat_operands::{
    ArrayCopy, ArrayFill, ArrayNewData, ArrayNewElem, ArrayNewFixed, BrOnCast, BrOnCastDescEq,
    BrOnCastDescEqFail, BrOnCastFail, BrTableIndices, ContBind, I8x16Shuffle, MemoryCopy,
    MemoryInit, Ordering, RefCast, RefCastDescEq, RefTest, Resume, ResumeThrow, ResumeThrowRef,
    SelectTypes, Switch, TableCopy, TableInit, TryTable, V128Const,
};
use wat_tokens::{F32, F64};
use wat_types::HeapType;

/// `br_table`.
impl<'a> OperandOf<'a, ()> for BrTableIndices<'a> {
    ghost op_of = { λ _. ops.br_table };

    ghost seen = { λ x. operand_in (code.br_table x) };

    ghost is_operand = { λ _. made_by operands.branches (λ t. unfold operand in refl) (λ v. refl) };

    #[inline(always)]
    fn instruction(self, _: ()) -> Instruction<'a> {
        Instruction::br_table(self)
    }
}

/// `select`.
impl<'a> OperandOf<'a, ()> for SelectTypes<'a> {
    ghost op_of = { λ _. ops.select };

    ghost seen = { λ x. operand_in (code.select x) };

    ghost is_operand = { λ _. made_by operands.chosen (λ t. unfold operand in refl) (λ v. refl) };

    #[inline(always)]
    fn instruction(self, _: ()) -> Instruction<'a> {
        Instruction::select(self)
    }
}

/// `memory.init`.
impl<'a> OperandOf<'a, ()> for MemoryInit<'a> {
    ghost op_of = { λ _. ops.memory_init };

    ghost seen = { λ x. operand_in (code.memory_init x) };

    ghost is_operand = { λ _. made_by operands.two_indices (λ t. unfold operand in refl)
        (λ v. refl) };

    #[inline(always)]
    fn instruction(self, _: ()) -> Instruction<'a> {
        Instruction::memory_init(self)
    }
}

/// `memory.copy`.
impl<'a> OperandOf<'a, ()> for MemoryCopy<'a> {
    ghost op_of = { λ _. ops.memory_copy };

    ghost seen = { λ x. operand_in (code.memory_copy x) };

    ghost is_operand = { λ _. made_by operands.two_indices (λ t. unfold operand in refl)
        (λ v. refl) };

    #[inline(always)]
    fn instruction(self, _: ()) -> Instruction<'a> {
        Instruction::memory_copy(self)
    }
}

/// `table.init`.
impl<'a> OperandOf<'a, ()> for TableInit<'a> {
    ghost op_of = { λ _. ops.table_init };

    ghost seen = { λ x. operand_in (code.table_init x) };

    ghost is_operand = { λ _. made_by operands.two_indices (λ t. unfold operand in refl)
        (λ v. refl) };

    #[inline(always)]
    fn instruction(self, _: ()) -> Instruction<'a> {
        Instruction::table_init(self)
    }
}

/// `table.copy`.
impl<'a> OperandOf<'a, ()> for TableCopy<'a> {
    ghost op_of = { λ _. ops.table_copy };

    ghost seen = { λ x. operand_in (code.table_copy x) };

    ghost is_operand = { λ _. made_by operands.two_indices (λ t. unfold operand in refl)
        (λ v. refl) };

    #[inline(always)]
    fn instruction(self, _: ()) -> Instruction<'a> {
        Instruction::table_copy(self)
    }
}

/// `ref.null`.
impl<'a> OperandOf<'a, ()> for HeapType<'a> {
    ghost op_of = { λ _. ops.ref_null };

    ghost seen = { λ x. operand_in (code.ref_null x) };

    ghost is_operand = { λ _. made_by operands.heap (λ t. unfold operand in refl) (λ v. refl) };

    #[inline(always)]
    fn instruction(self, _: ()) -> Instruction<'a> {
        Instruction::ref_null(self)
    }
}

/// `array.new_fixed`.
impl<'a> OperandOf<'a, ()> for ArrayNewFixed<'a> {
    ghost op_of = { λ _. ops.array_new_fixed };

    ghost seen = { λ x. operand_in (code.array_new_fixed x) };

    ghost is_operand = { λ _. made_by operands.sized (λ t. unfold operand in refl) (λ v. refl) };

    #[inline(always)]
    fn instruction(self, _: ()) -> Instruction<'a> {
        Instruction::array_new_fixed(self)
    }
}

/// `array.new_data`.
impl<'a> OperandOf<'a, ()> for ArrayNewData<'a> {
    ghost op_of = { λ _. ops.array_new_data };

    ghost seen = { λ x. operand_in (code.array_new_data x) };

    ghost is_operand = { λ _. made_by operands.two_indices (λ t. unfold operand in refl)
        (λ v. refl) };

    #[inline(always)]
    fn instruction(self, _: ()) -> Instruction<'a> {
        Instruction::array_new_data(self)
    }
}

/// `array.new_elem`.
impl<'a> OperandOf<'a, ()> for ArrayNewElem<'a> {
    ghost op_of = { λ _. ops.array_new_elem };

    ghost seen = { λ x. operand_in (code.array_new_elem x) };

    ghost is_operand = { λ _. made_by operands.two_indices (λ t. unfold operand in refl)
        (λ v. refl) };

    #[inline(always)]
    fn instruction(self, _: ()) -> Instruction<'a> {
        Instruction::array_new_elem(self)
    }
}

/// `array.fill`.
impl<'a> OperandOf<'a, ()> for ArrayFill<'a> {
    ghost op_of = { λ _. ops.array_fill };

    ghost seen = { λ x. operand_in (code.array_fill x) };

    ghost is_operand = { λ _. made_by operands.one_index (λ t. unfold operand in refl)
        (λ v. refl) };

    #[inline(always)]
    fn instruction(self, _: ()) -> Instruction<'a> {
        Instruction::array_fill(self)
    }
}

/// `array.copy`.
impl<'a> OperandOf<'a, ()> for ArrayCopy<'a> {
    ghost op_of = { λ _. ops.array_copy };

    ghost seen = { λ x. operand_in (code.array_copy x) };

    ghost is_operand = { λ _. made_by operands.two_indices (λ t. unfold operand in refl)
        (λ v. refl) };

    #[inline(always)]
    fn instruction(self, _: ()) -> Instruction<'a> {
        Instruction::array_copy(self)
    }
}

/// `ref.test`.
impl<'a> OperandOf<'a, ()> for RefTest<'a> {
    ghost op_of = { λ _. ops.ref_test };

    ghost seen = { λ x. operand_in (code.ref_test x) };

    ghost is_operand = { λ _. made_by operands.reference (λ t. unfold operand in refl)
        (λ v. refl) };

    #[inline(always)]
    fn instruction(self, _: ()) -> Instruction<'a> {
        Instruction::ref_test(self)
    }
}

/// `ref.cast`.
impl<'a> OperandOf<'a, ()> for RefCast<'a> {
    ghost op_of = { λ _. ops.ref_cast };

    ghost seen = { λ x. operand_in (code.ref_cast x) };

    ghost is_operand = { λ _. made_by operands.reference (λ t. unfold operand in refl)
        (λ v. refl) };

    #[inline(always)]
    fn instruction(self, _: ()) -> Instruction<'a> {
        Instruction::ref_cast(self)
    }
}

/// `br_on_cast`.
impl<'a> OperandOf<'a, ()> for Box<BrOnCast<'a>> {
    ghost op_of = { λ _. ops.br_on_cast };

    ghost seen = { λ x. operand_in (code.br_on_cast x) };

    ghost is_operand = { λ _. made_by operands.cast (λ t. unfold operand in refl) (λ v. refl) };

    #[inline(always)]
    fn instruction(self, _: ()) -> Instruction<'a> {
        Instruction::br_on_cast(self)
    }
}

/// `br_on_cast_fail`.
impl<'a> OperandOf<'a, ()> for Box<BrOnCastFail<'a>> {
    ghost op_of = { λ _. ops.br_on_cast_fail };

    ghost seen = { λ x. operand_in (code.br_on_cast_fail x) };

    ghost is_operand = { λ _. made_by operands.cast (λ t. unfold operand in refl) (λ v. refl) };

    #[inline(always)]
    fn instruction(self, _: ()) -> Instruction<'a> {
        Instruction::br_on_cast_fail(self)
    }
}

/// `i32.const`.
impl<'a> OperandOf<'a, ()> for i32 {
    ghost op_of = { λ _. ops.i32_const };

    ghost seen = { λ x. operand_in (code.i32_const x) };

    ghost is_operand = { λ _. made_by operands.integer (λ t. unfold operand in refl) (λ v. refl) };

    #[inline(always)]
    fn instruction(self, _: ()) -> Instruction<'a> {
        Instruction::i32_const(self)
    }
}

/// `i64.const`.
impl<'a> OperandOf<'a, ()> for i64 {
    ghost op_of = { λ _. ops.i64_const };

    ghost seen = { λ x. operand_in (code.i64_const x) };

    ghost is_operand = { λ _. made_by operands.integer (λ t. unfold operand in refl) (λ v. refl) };

    #[inline(always)]
    fn instruction(self, _: ()) -> Instruction<'a> {
        Instruction::i64_const(self)
    }
}

/// `f32.const`. Every float literal is an error.
impl<'a> OperandOf<'a, ()> for F32 {
    ghost op_of = { λ _. ops.f32_const };

    ghost seen = { λ x. operand_in (code.f32_const x) };

    ghost is_operand = { λ _. made_by operands.float (λ t. unfold operand in refl) (λ v. refl) };

    #[inline(always)]
    fn instruction(self, _: ()) -> Instruction<'a> {
        Instruction::f32_const(self)
    }
}

/// `f64.const`. Every float literal is an error.
impl<'a> OperandOf<'a, ()> for F64 {
    ghost op_of = { λ _. ops.f64_const };

    ghost seen = { λ x. operand_in (code.f64_const x) };

    ghost is_operand = { λ _. made_by operands.float (λ t. unfold operand in refl) (λ v. refl) };

    #[inline(always)]
    fn instruction(self, _: ()) -> Instruction<'a> {
        Instruction::f64_const(self)
    }
}

/// `atomic.fence`.
impl<'a> OperandOf<'a, ()> for Option<Ordering> {
    ghost op_of = { λ _. ops.atomic_fence };

    ghost seen = { λ x. operand_in (code.atomic_fence x) };

    ghost is_operand = { λ _. record {
      make = operands.fence;
      reads = λ t. unfold operand in refl;
      sees = λ x. refl;
      heapless = elim [ Some v ↦ refl | None ↦ refl ];
      cost = refl;
    } };

    #[inline(always)]
    fn instruction(self, _: ()) -> Instruction<'a> {
        Instruction::atomic_fence(self)
    }
}

/// `v128.const`.
impl<'a> OperandOf<'a, ()> for V128Const {
    ghost op_of = { λ _. ops.v128_const };

    ghost seen = { λ x. operand_in (code.v128_const x) };

    ghost is_operand = { λ _. made_by operands.vector (λ t. unfold operand in refl) (λ v. refl) };

    #[inline(always)]
    fn instruction(self, _: ()) -> Instruction<'a> {
        Instruction::v128_const(self)
    }
}

/// `i8x16.shuffle`.
impl<'a> OperandOf<'a, ()> for I8x16Shuffle {
    ghost op_of = { λ _. ops.i8x16_shuffle };

    ghost seen = { λ x. operand_in (code.i8x16_shuffle x) };

    ghost is_operand = { λ _. made_by operands.shuffled (λ t. unfold operand in refl) (λ v. refl) };

    #[inline(always)]
    fn instruction(self, _: ()) -> Instruction<'a> {
        Instruction::i8x16_shuffle(self)
    }
}

/// `try_table`.
impl<'a> OperandOf<'a, ()> for TryTable<'a> {
    ghost op_of = { λ _. ops.try_table };

    ghost seen = { λ x. operand_in (code.try_table x) };

    ghost is_operand = { λ _. made_by operands.caught (λ t. unfold operand in refl) (λ v. refl) };

    #[inline(always)]
    fn instruction(self, _: ()) -> Instruction<'a> {
        Instruction::try_table(self)
    }
}

/// `cont.bind`.
impl<'a> OperandOf<'a, ()> for ContBind<'a> {
    ghost op_of = { λ _. ops.cont_bind };

    ghost seen = { λ x. operand_in (code.cont_bind x) };

    ghost is_operand = { λ _. made_by operands.two_indices (λ t. unfold operand in refl)
        (λ v. refl) };

    #[inline(always)]
    fn instruction(self, _: ()) -> Instruction<'a> {
        Instruction::cont_bind(self)
    }
}

/// `resume`.
impl<'a> OperandOf<'a, ()> for Resume<'a> {
    ghost op_of = { λ _. ops.resume };

    ghost seen = { λ x. operand_in (code.resume x) };

    ghost is_operand = { λ _. made_by operands.resumed (λ t. unfold operand in refl) (λ v. refl) };

    #[inline(always)]
    fn instruction(self, _: ()) -> Instruction<'a> {
        Instruction::resume(self)
    }
}

/// `resume_throw`.
impl<'a> OperandOf<'a, ()> for Box<ResumeThrow<'a>> {
    ghost op_of = { λ _. ops.resume_throw };

    ghost seen = { λ x. operand_in (code.resume_throw x) };

    ghost is_operand = { λ _. made_by operands.thrown (λ t. unfold operand in refl) (λ v. refl) };

    #[inline(always)]
    fn instruction(self, _: ()) -> Instruction<'a> {
        Instruction::resume_throw(self)
    }
}

/// `resume_throw_ref`.
impl<'a> OperandOf<'a, ()> for ResumeThrowRef<'a> {
    ghost op_of = { λ _. ops.resume_throw_ref };

    ghost seen = { λ x. operand_in (code.resume_throw_ref x) };

    ghost is_operand = { λ _. made_by operands.resumed (λ t. unfold operand in refl) (λ v. refl) };

    #[inline(always)]
    fn instruction(self, _: ()) -> Instruction<'a> {
        Instruction::resume_throw_ref(self)
    }
}

/// `switch`.
impl<'a> OperandOf<'a, ()> for Switch<'a> {
    ghost op_of = { λ _. ops.switch };

    ghost seen = { λ x. operand_in (code.switch x) };

    ghost is_operand = { λ _. made_by operands.two_indices (λ t. unfold operand in refl)
        (λ v. refl) };

    #[inline(always)]
    fn instruction(self, _: ()) -> Instruction<'a> {
        Instruction::switch(self)
    }
}

/// `ref.cast_desc_eq`.
impl<'a> OperandOf<'a, ()> for RefCastDescEq<'a> {
    ghost op_of = { λ _. ops.ref_cast_desc_eq };

    ghost seen = { λ x. operand_in (code.ref_cast_desc_eq x) };

    ghost is_operand = { λ _. made_by operands.reference (λ t. unfold operand in refl)
        (λ v. refl) };

    #[inline(always)]
    fn instruction(self, _: ()) -> Instruction<'a> {
        Instruction::ref_cast_desc_eq(self)
    }
}

/// `br_on_cast_desc_eq`.
impl<'a> OperandOf<'a, ()> for Box<BrOnCastDescEq<'a>> {
    ghost op_of = { λ _. ops.br_on_cast_desc_eq };

    ghost seen = { λ x. operand_in (code.br_on_cast_desc_eq x) };

    ghost is_operand = { λ _. made_by operands.cast (λ t. unfold operand in refl) (λ v. refl) };

    #[inline(always)]
    fn instruction(self, _: ()) -> Instruction<'a> {
        Instruction::br_on_cast_desc_eq(self)
    }
}

/// `br_on_cast_desc_eq_fail`.
impl<'a> OperandOf<'a, ()> for Box<BrOnCastDescEqFail<'a>> {
    ghost op_of = { λ _. ops.br_on_cast_desc_eq_fail };

    ghost seen = { λ x. operand_in (code.br_on_cast_desc_eq_fail x) };

    ghost is_operand = { λ _. made_by operands.cast (λ t. unfold operand in refl) (λ v. refl) };

    #[inline(always)]
    fn instruction(self, _: ()) -> Instruction<'a> {
        Instruction::br_on_cast_desc_eq_fail(self)
    }
}

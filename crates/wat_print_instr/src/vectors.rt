//! Printing of constants of 128 bits and of shuffled lanes.

ghost use Rattle.std.specs.Prelude.{refl};
ghost use Rattle.wat_operands.specs.Vector.{v128_const, shuffle};
ghost use Rattle.wat_print.specs.Printed.{printing_by};
ghost use Rattle.wat_print_instr.specs.Vectors.{shuffle_form, vector_form};
ghost use Rattle.wat_print_instr.specs.Laws.Vectors.{shuffle_prints, vector_prints};

use crate::traits::{PrintCode, write_each};
use wat_operands::{I8x16Shuffle, V128Const};
use wat_print::{Output, Refused};

/// It fails with Float for a constant of floating-point numbers.
impl PrintCode for V128Const {
    ghost use Rattle.wat_operands.specs.declared.vector.V128Const.{V128Const};

    ghost View = { V128Const };

    ghost view = { λ v. v };

    ghost grammar = { v128_const };

    ghost printing = { printing_by vector_form vector_prints (λ v h. h) refl refl };

    #[tactic(auto, using(wat_print::specs::Laws::Written::put_both))]
    fn write(&self, out: &mut Output) -> Result<(), Refused> {
        match self {
            V128Const::I8x16(lanes) => {
                out.word("i8x16")?;
                write_each(out, lanes)
            }
            V128Const::I16x8(lanes) => {
                out.word("i16x8")?;
                write_each(out, lanes)
            }
            V128Const::I32x4(lanes) => {
                out.word("i32x4")?;
                write_each(out, lanes)
            }
            V128Const::I64x2(lanes) => {
                out.word("i64x2")?;
                write_each(out, lanes)
            }
            V128Const::F32x4(_) => Err(Refused::Float),
            V128Const::F64x2(_) => Err(Refused::Float),
        }
    }
}

impl PrintCode for I8x16Shuffle {
    ghost use Rattle.wat_operands.specs.declared.vector.I8x16Shuffle.{I8x16Shuffle};

    ghost View = { I8x16Shuffle };

    ghost view = { λ s. s };

    ghost grammar = { shuffle };

    ghost printing = { printing_by shuffle_form shuffle_prints (λ s h. h) refl refl };

    fn write(&self, out: &mut Output) -> Result<(), Refused> {
        write_each(out, &self.lanes)
    }
}

//! Printing of numbers.

ghost use Rattle.std.specs.Prelude.{◌≡◌, ◌∷◌, [], ℕ, ℤ, OnOk, IfErr, refl};
ghost use Rattle.std.proofs.Common.{lit≤};
ghost use Rattle.wat_print_instr.specs.Laws.Prelude.{signed_decimal, Integer, signed, unsigned, printing_by, put, Memory, signed_form, unsigned_form, halves_32, halves_64, signed_prints, unsigned_prints};
ghost use Rattle.wat_print_instr.specs.Laws.Numbers.{halves_16, halves_8};
ghost use Rattle.wat_tokens.specs.Floats.{none};
ghost use Rattle.wat_print_instr.specs.Vectors.{never_form};
ghost use Rattle.wat_print_instr.specs.Laws.Vectors.{none_prints};

use crate::traits::PrintCode;
use wat_print::{Output, Refused};
use wat_tokens::{F32, F64};

/// Writes a signed number in decimal digits. It fails only with Memory.
pub fn write_signed(out: &mut Output, number: i64) -> Result<(), Refused>
    ensures written { OnOk result (out.new ≡ put out.old (Integer (signed_decimal number) ∷ [])) }
    ensures refused { IfErr result (λ e. e ≡ Memory) }
{
    out.signed(number)
}

impl PrintCode for i8 {
    ghost View = { ℤ };

    ghost view = { λ z. z };

    ghost grammar = { signed 8 };

    ghost printing = { printing_by (signed_form 8) (signed_prints 8 halves_8) (λ z h. h) refl
        refl };

    fn write(&self, out: &mut Output) -> Result<(), Refused> {
        write_signed(out, i64::from(*self))
    }
}

impl PrintCode for i16 {
    ghost View = { ℤ };

    ghost view = { λ z. z };

    ghost grammar = { signed 16 };

    ghost printing = { printing_by (signed_form 16) (signed_prints 16 halves_16) (λ z h. h) refl
        refl };

    fn write(&self, out: &mut Output) -> Result<(), Refused> {
        write_signed(out, i64::from(*self))
    }
}

impl PrintCode for i32 {
    ghost View = { ℤ };

    ghost view = { λ z. z };

    ghost grammar = { signed 32 };

    ghost printing = { printing_by (signed_form 32) (signed_prints 32 halves_32) (λ z h. h) refl
        refl };

    fn write(&self, out: &mut Output) -> Result<(), Refused> {
        write_signed(out, i64::from(*self))
    }
}

impl PrintCode for i64 {
    ghost View = { ℤ };

    ghost view = { λ z. z };

    ghost grammar = { signed 64 };

    ghost printing = { printing_by (signed_form 64) (signed_prints 64 halves_64) (λ z h. h) refl
        refl };

    fn write(&self, out: &mut Output) -> Result<(), Refused> {
        write_signed(out, *self)
    }
}

impl PrintCode for u8 {
    ghost View = { ℕ };

    ghost view = { λ n. n };

    ghost grammar = { unsigned 8 };

    ghost printing = { printing_by (unsigned_form 8) (unsigned_prints 8 (lit≤ tt) (lit≤ tt)) (λ n h.
        h) refl refl };

    fn write(&self, out: &mut Output) -> Result<(), Refused> {
        out.number(u64::from(*self))
    }
}

impl PrintCode for u16 {
    ghost View = { ℕ };

    ghost view = { λ n. n };

    ghost grammar = { unsigned 16 };

    ghost printing = { printing_by (unsigned_form 16) (unsigned_prints 16 (lit≤ tt) (lit≤ tt)) (λ n
        h. h) refl refl };

    fn write(&self, out: &mut Output) -> Result<(), Refused> {
        out.number(u64::from(*self))
    }
}

impl PrintCode for u32 {
    ghost View = { ℕ };

    ghost view = { λ n. n };

    ghost grammar = { unsigned 32 };

    ghost printing = { printing_by (unsigned_form 32) (unsigned_prints 32 (lit≤ tt) (lit≤ tt)) (λ n
        h. h) refl refl };

    fn write(&self, out: &mut Output) -> Result<(), Refused> {
        out.number(u64::from(*self))
    }
}

impl PrintCode for u64 {
    ghost View = { ℕ };

    ghost view = { λ n. n };

    ghost grammar = { unsigned 64 };

    ghost printing = { printing_by (unsigned_form 64) (unsigned_prints 64 (lit≤ tt) (lit≤ tt)) (λ n
        h. h) refl refl };

    fn write(&self, out: &mut Output) -> Result<(), Refused> {
        out.number(*self)
    }
}

/// It fails with Float: no text is read as a floating-point number.
impl PrintCode for F32 {
    ghost View = { ℕ };

    ghost view = { λ x. x.bits };

    ghost grammar = { none };

    ghost printing = { printing_by never_form none_prints (λ x h. h) refl refl };

    fn write(&self, out: &mut Output) -> Result<(), Refused> {
        let _ = out;
        Err(Refused::Float)
    }
}

/// It fails with Float: no text is read as a floating-point number.
impl PrintCode for F64 {
    ghost View = { ℕ };

    ghost view = { λ x. x.bits };

    ghost grammar = { none };

    ghost printing = { printing_by never_form none_prints (λ x h. h) refl refl };

    fn write(&self, out: &mut Output) -> Result<(), Refused> {
        let _ = out;
        Err(Refused::Float)
    }
}

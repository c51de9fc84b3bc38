//! Destinations of parsed instructions.

ghost use Rattle.std.specs.Prelude.{◌≡◌, ◌<◌, ◌++◌, ◌∷◌, [], List, None, map};
ghost use Rattle.wat_instr.specs.Prelude.{vec_len, vec_capacity, InstructionModel, instruction_view};
ghost use Rattle.wat_instr.specs.Reading.{in_slot};

use crate::instruction::Instruction;

/// A destination of parsed instructions. An instruction is built in place, without a move.
///
/// [`put`](Sink::put) doesn't allocate: the caller makes room first.
pub trait Sink<'a> {
    /// The instructions in the destination, in order.
    ghost seen: { Self → List InstructionModel };

    /// The destination has room for one more instruction.
    ghost has_room: { Self → Type 0 };

    /// Appends an instruction.
    fn put(&mut self, instr: Instruction<'a>)
        requires { has_room self.old }
        ensures { seen self.new ≡ seen self.old ++ instruction_view instr.entry ∷ [] };
}

/// A list has room after a call of [`reserve`](Vec::reserve).
impl<'a> Sink<'a> for Vec<Instruction<'a>> {
    ghost seen = { λ v. map instruction_view v.items };

    ghost has_room = { λ v. vec_len v < vec_capacity v };

    #[inline(always)]
    fn put(&mut self, instr: Instruction<'a>) {
        self.push_reserved(instr);
    }
}

/// An option has room if it is None.
impl<'a> Sink<'a> for Option<Instruction<'a>> {
    ghost seen = { in_slot };

    ghost has_room = { λ s. s ≡ None };

    #[inline(always)]
    fn put(&mut self, instr: Instruction<'a>) {
        *self = Some(instr);
    }
}

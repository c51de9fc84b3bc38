//! Operands that the parser of their type parses.
#![tactic(auto, unfolding(crate::specs::Reading::ReadsOperand))]

ghost use Rattle.std.specs.Prelude.{◌≡◌};
ghost use Rattle.wat_instr.specs.Prelude.{instr_of, instruction_view, Operand, ReadsOperand, Op};
ghost use Rattle.wat_instr.specs.OperandOf.{IsOperandOf};

use crate::instruction::Instruction;
use crate::sink::Sink;
use wat_tokens::{Parse, Parser, Result};

/// The type of the operand of each instruction in `Family`. If `Family` is `()`, it is the operand
/// of a single instruction.
pub(crate) trait OperandOf<'a, Family>: Parse<'a> {
    /// The instruction without its operand.
    ghost op_of: { Family → Op };

    /// The operand as contracts see it.
    ghost seen: { Self → Operand };

    /// Returns the instruction with this operand.
    fn instruction(self, op: Family) -> Instruction<'a>
        ensures { instruction_view result ≡ instr_of (op_of op) (seen self) };

    /// The tokens after the mnemonic are read by the type's grammar.
    ghost is_operand: { (op : Family) → IsOperandOf (op_of op) seen Self.cost Self.view
        Self.grammar };
}

/// Parses an operand, and appends the instruction to `out`.
#[inline(always)]
pub(crate) fn read_operand<'a, Family: Copy, T: OperandOf<'a, Family>, P: Sink<'a>>(
    op: Family,
    parser: &mut Parser<'a>,
    out: &mut P,
) -> Result<()>
    requires { P.has_room out.old }
    ensures { ReadsOperand (T.op_of op) (P.seen out.old) (P.seen out.new) result parser.old
        parser.new }
{
    match T::parse(parser) {
        Ok(operand) => {
            out.put(operand.instruction(op));
            Ok(())
        }
        Err(refused) => Err(refused),
    }
}

/// Calls `read_operand` without inlining, for rare instructions.
pub(crate) fn read_rare_operand<'a, Family: Copy, T: OperandOf<'a, Family>, P: Sink<'a>>(
    op: Family,
    parser: &mut Parser<'a>,
    out: &mut P,
) -> Result<()>
    requires { P.has_room out.old }
    ensures { ReadsOperand (T.op_of op) (P.seen out.old) (P.seen out.new) result parser.old
        parser.new }
{
    read_operand::<Family, T, P>(op, parser, out)
}

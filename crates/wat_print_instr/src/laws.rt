//! Laws of printed instructions.

ghost use Rattle.std.specs.Prelude.{◌≡◌, ◌∷◌, ℕ, List, codes, true, false};
ghost use Rattle.wat_print_instr.specs.Prelude.{bytes_eq, Token, LParen, Annotation, InstructionModel, instruction, spell_instruction, printable_instruction};
ghost use Rattle.wat_instr.specs.Follows.{MayFollow};

use wat_instr::laws::stands_before_what_may_follow;

/// The tokens written for an instruction parse back to it at any place in a list of instructions.
pub fn instruction_is_read_again()
    // They spell the instruction before a rest that is empty or begins with `)` or a mnemonic, if
    // the second token of the rest is none of the words `type`, `param` and `result`.
    ensures follow { (i : InstructionModel) (s : List Token) → printable_instruction i ≡ true →
        MayFollow s
        → instruction.spells i (spell_instruction i) s }
    // They also spell the instruction before a group that begins with an annotation other than
    // `@name`, for example a hint.
    ensures annotated { (i : InstructionModel) (n : List ℕ) (s : List Token) →
        printable_instruction i ≡ true
        → bytes_eq n (codes "name") ≡ false
        → instruction.spells i (spell_instruction i) (LParen ∷ Annotation n ∷ s) }
{
    stands_before_what_may_follow();
}

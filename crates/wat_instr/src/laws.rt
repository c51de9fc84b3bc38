//! Laws of instructions. The functions do nothing; their contracts are the laws.

ghost use Rattle.std.specs.Prelude.{List, ◌++◌};
ghost use Rattle.wat_instr.specs.Prelude.{MayFollow, InstructionModel, instruction, Token};

/// The tokens that spell an instruction don't depend on the rest after them, if that rest may
/// follow an instruction. A rest may follow if both hold:
///
/// - it begins with a mnemonic, begins with `)` or is empty;
/// - its second token is not one of the keywords `type`, `param` and `result`.
pub fn stands_before_what_may_follow()
    // If tokens spell an instruction before some rest, they spell it before each rest that may
    // follow.
    ensures stands { (v : InstructionModel) (c r s : List Token) → instruction.spells v c r →
        MayFollow s
        → instruction.spells v c s }
    // These tokens, with a rest after them that may follow, are also a rest that may follow.
    ensures follow { (v : InstructionModel) (c r s : List Token) → instruction.spells v c r →
        MayFollow s
        → MayFollow (c ++ s) }
{}

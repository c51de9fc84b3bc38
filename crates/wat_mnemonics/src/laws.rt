//! Laws of the table of mnemonics. The functions do nothing; their contracts are the laws.

ghost use Rattle.std.specs.Prelude.{◌≡◌, ◌<◌, ◌++◌, ℕ, List, Some, IsTrue, map};
ghost use Rattle.wat_mnemonics.specs.Prelude.{op_word, op_row, op_opcode, op_count, bytes, rises};
ghost use Rattle.wat_mnemonics.specs.declared.table.TheConstants.{OPS};
ghost use Rattle.wat_mnemonics.specs.declared.op.Op.{Op as AnyOp};

/// The mnemonics of the table are in strictly ascending byte order.
pub fn words_in_order()
    ensures { IsTrue (rises (map op_word OPS)) }
{}

/// Two different instructions have different mnemonics and different rows. Each number below the number of
/// instructions is the row of one.
pub fn one_mnemonic()
    // Two instructions with the same mnemonic are the same.
    ensures word { (x y : AnyOp) → op_word x ≡ op_word y → x ≡ y }
    // Two instructions with the same row are the same.
    ensures row { (x y : AnyOp) → op_row x ≡ op_row y → x ≡ y }
    // There are as many rows as instructions, and each row has an instruction.
    ensures below { (x : AnyOp) → op_row x < op_count }
    ensures each { (n : ℕ) → n < op_count → (x : AnyOp) × (op_row x ≡ n) }
{}

/// No opcode is a prefix of another instruction's opcode.
pub fn no_prefix()
    ensures { (x y : AnyOp) (b d : List ℕ) → bytes (op_opcode x) ≡ Some b
        → bytes (op_opcode y) ≡ Some (b ++ d) → x ≡ y }
{}

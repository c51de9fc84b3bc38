//! The instruction of a mnemonic.

ghost use Rattle.std.specs.Prelude.{◌≡◌};
ghost use Rattle.wat_mnemonics.specs.Word.{first_with, mnemonic_of};

use wat_mnemonics::Op;
use wat_mnemonics::table::OPS;

/// Returns the first of the instructions with the mnemonic.
fn first_with(word: &str, ops: &[Op]) -> Option<Op>
    ensures { result ≡ first_with word.now ops.now }
{
    match ops {
        [] => None,
        [op, rest @ ..] => {
            if op.word() == word {
                return Some(*op);
            }
            first_with(word, rest)
        }
    }
}

/// Returns the instruction with the mnemonic, or None if there is none. It compares the word with
/// every mnemonic in turn.
pub fn find_by_list(word: &str) -> Option<Op>
    ensures { result ≡ mnemonic_of word.now }
{
    first_with(word, &OPS)
}

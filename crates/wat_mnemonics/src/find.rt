//! The lookup of a mnemonic.

ghost use Rattle.std.specs.Prelude.{IfNone, ◌≡◌, ◌≢◌, ◌<◌, ◌≤◌, ◌+◌, ◌∷◌, ℕ, List, IfSome, IfErr};
ghost use Rattle.wat_mnemonics.specs.Prelude.{Token, Keyword, op_word, Carries};
ghost use Rattle.wat_mnemonics.specs.Probes.{ReadsWord, AtMostTen};
ghost use Rattle.wat_mnemonics.specs.declared.op.Op.{Op as AnyOp};

use crate::keys::{KEYS, key_of};
use crate::op::Op;
use crate::same_key::find_whole;
use crate::table::OPS;
use wat_tokens::{Error, Fault, Parser, Result};

/// Returns the instruction with the mnemonic `text`, or None if no instruction has this mnemonic.
///
/// The function is a binary search of the table of mnemonics. The search makes 1 to 10 comparisons
/// with entries. The parser counts the comparisons, and doesn't change otherwise.
pub fn find(parser: &mut Parser<'_>, text: &str) -> Option<Op>
    ensures found { IfSome result (λ op. op_word op ≡ text.now) }
    ensures missing { IfNone result ((op : AnyOp) → op_word op ≢ text.now) }
    ensures only { parser.new ≡ record parser.old { probes = parser.new.probes } }
    ensures counts { Carries parser.old parser.new }
    ensures probed { parser.old.probes + 1 ≤ parser.new.probes }
    ensures probes { parser.new.probes ≤ parser.old.probes + 10 }
{
    let key = key_of(text);
    let mut base = 0;
    let mut size = OPS.len() + 1;
    // (the entries before base are less, and the entries from base + size - 1 on are greater)
    'halves: while size > 1 {
        let half = size / 2;
        let entry = KEYS[base + half - 1];
        if entry == key {
            return find_whole(parser, base, size, key, text);
        }
        size -= half;
        parser.probe();
        base = if entry < key { base + half } else { base };
    }
    None
}

impl Op {
    /// Parses a mnemonic.
    ///
    /// Returns Operator, at the next token, if the next token isn't a mnemonic.
    #[inline(always)]
    #[tactic(auto, using(crate::proofs::WordReads::reads_nothing))]
    pub fn take(parser: &mut Parser<'_>) -> Result<Op>
        ensures reads { ReadsWord result parser.old parser.new }
        ensures probes { AtMostTen parser.old parser.new }
        ensures probed { (w : List ℕ) (r : List Token) → parser.old.left ≡ Keyword w ∷ r
            → parser.old.probes + 1 ≤ parser.new.probes }
        ensures fault { IfErr result (λ e. e.fault ≡ Fault.Operator) }
    {
        match parser.take_keyword() {
            Ok(word) => match find(parser, word) {
                Some(op) => Ok(op),
                None => Err(Error::at(Fault::Operator, parser.prev_span())),
            },
            Err(error) => Err(Error::at(Fault::Operator, error.span)),
        }
    }
}

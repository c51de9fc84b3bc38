//! Words, looked up by the parser and by the plain program.

use wat_mnemonics::find::find;
use wat_mnemonics::table::OPS;
use wat_plain::find_by_list;
use wat_tokens::{Parser, Result};

/// Words that aren't mnemonics: misspelled ones, and variants of `Op` whose names end in `_`.
const OTHERS: [&str; 8] = [
    "i32.ad", "i32.addx", "nop2", "else_", "return_", "if_", "loop_", "try_",
];

/// The numbers of words that were looked up.
#[derive(Clone, Copy)]
pub struct Words {
    /// The parser and the plain program find the same instruction.
    pub found: usize,
    /// Neither finds one.
    pub missing: usize,
}

impl Words {
    /// Looks up a word, and adds it to the output if the results differ.
    fn look_up(&mut self, out: &mut String, parser: &mut Parser<'_>, word: &str) -> Result<()> {
        match (find(parser, word), find_by_list(word)) {
            (None, None) => self.missing = self.missing.wrapping_add(1),
            (Some(op), Some(listed)) if op == listed => self.found = self.found.wrapping_add(1),
            _ => write!(out, "? {word}\n")?,
        }
        Ok(())
    }

    /// Looks up a mnemonic, and three words that are one letter off: without the last letter, with
    /// one letter more, and with another last letter.
    fn look_up_near(
        &mut self,
        out: &mut String,
        parser: &mut Parser<'_>,
        mnemonic: &str,
    ) -> Result<()> {
        self.look_up(out, parser, mnemonic)?;
        let mut word = String::new(*out.allocator());
        word.push_str(mnemonic)?;
        word.push('x')?;
        self.look_up(out, parser, &word)?;
        word.pop();
        let last = word.pop();
        self.look_up(out, parser, &word)?;
        if let Some(letter) = last {
            word.push(other(letter))?;
            self.look_up(out, parser, &word)?;
        }
        Ok(())
    }

    /// Looks up the words that aren't made from a mnemonic.
    fn look_up_others(&mut self, out: &mut String, parser: &mut Parser<'_>) -> Result<()> {
        for word in OTHERS {
            self.look_up(out, parser, word)?;
        }
        Ok(())
    }
}

/// Returns the next letter of the alphabet, or `a` after `z` and after any other character.
fn other(letter: char) -> char {
    match u8::try_from(letter) {
        Ok(byte @ b'a'..=b'y') => char::from(byte + 1),
        _ => 'a',
    }
}

/// Looks up each mnemonic, the words that are one letter off, and other words. Adds each word for
/// which the parser and the plain program differ to the output.
pub fn compared(out: &mut String, parser: &mut Parser<'_>) -> Result<Words> {
    let mut words = Words {
        found: 0,
        missing: 0,
    };
    for op in &OPS {
        words.look_up_near(out, parser, op.word())?;
    }
    words.look_up_others(out, parser)?;
    Ok(words)
}

//! Values that keywords name.

ghost use Rattle.std.specs.Prelude.{◌≡◌, ℕ, List, Some};
ghost use Rattle.wat_tokens.specs.Prelude.{run, at_listed, in_front, look_up, word_in};
ghost use Rattle.wat_tokens.specs.Reads.{Takes};

use crate::cursor::Cursor;
use crate::parser::Parser;
use wat_lexer::fault::{Error, Fault};

/// A type with values that keywords name (Text Format, "Tokens"). Each keyword names one value, and
/// each value has one keyword.
pub trait NamedByKeyword: Copy {
    /// Each keyword with the value that it names.
    ghost words: { List (List ℕ × Self) };

    /// The keyword of a value.
    ghost keyword: { Self → List ℕ };

    /// Each value is what its keyword names.
    ghost is_named: { (v : Self) → look_up words (keyword v) ≡ Some v };

    /// Returns the value that the keyword `word` names, or None if `word` names no value.
    fn named(word: &str) -> Option<Self>
        ensures { result ≡ look_up words word.now };

    /// Returns the keyword that names the value.
    fn word(self) -> &'static str
        ensures { result.now ≡ keyword self };
}

/// Takes the next keyword, and returns the value that it names. Returns Unexpected, at the next
/// token, if that token isn't a keyword, or is a keyword that names no value. Such a keyword is
/// taken.
#[tactic(auto, using(crate::specs::Laws::Begin::table_reads))]
pub fn take_named<'a, T: NamedByKeyword>(parser: &mut Parser<'a>) -> Result<T, Error>
    ensures reads { Takes (λ v. v) (word_in T.words) result parser.old parser.new }
{
    match T::named(parser.take_keyword()?) {
        Some(value) => Ok(value),
        None => Err(Error::at(Fault::Unexpected, parser.prev_span())),
    }
}

/// Returns whether the token at the cursor is a keyword that names a value.
#[tactic(auto, using(crate::specs::Laws::Begin::table_begins))]
pub fn begins_named<T: NamedByKeyword>(cursor: Cursor<'_>) -> bool
    ensures { result ≡ run (at_listed T.words) (in_front cursor.entry) }
{
    match cursor.keyword() {
        Some((word, _)) => T::named(word).is_some(),
        None => false,
    }
}

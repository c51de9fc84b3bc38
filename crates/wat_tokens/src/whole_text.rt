//! Values that are a whole text.

ghost use Rattle.std.specs.Prelude.{◌≡◌, IfOk, MatchResult};
ghost use Rattle.wat_tokens.specs.Prelude.{Memory, TextSpells};

use crate::parser::Parser;
use crate::traits::Parse;
use bumpalo::Bump;
use std::alloc::Global;
use wat_lexer::cut::one_cut;
use wat_lexer::fault::Error;

/// Reads the `T` that the whole text spells. If `known` is true, the five standard annotations are
/// known: `custom`, `producers`, `name`, `dylink.0` and `metadata.code.branch_hint`.
///
/// Names, and strings without escapes, are slices of the text; strings with escapes are decoded
/// into the arena.
///
/// If the text spells no `T`, returns the first error. If the text has no cut, that is the lexical
/// error (see [`Parser::new`]). Otherwise it is the error of `T`, or Unexpected at a token after
/// the value. Any text can return Memory.
pub fn read_text<'a, T: Parse<'a> + Drop>(
    alloc: Global,
    text: &'a str,
    arena: &'a Bump,
    known: bool,
) -> Result<T, Error>
    // The text spells the value that is returned.
    ensures found { IfOk result (λ v. TextSpells known T.grammar text.now (T.view.of v)) }
    // If the text spells a value, the call returns that value or Memory.
    ensures only { (v : T.View) → TextSpells known T.grammar text.now v
        → MatchResult result (λ w. T.view.of w ≡ v) (λ e. e.fault ≡ Memory) }
{
    // A text has one cut. This law does nothing when it runs.
    one_cut();
    let mut parser = Parser::new(alloc, text, arena)?;
    parser.with_standard_annotations(known);
    let value = parser.parse::<T>()?;
    if !parser.at_end() {
        return Err(parser.unexpected());
    }
    Ok(value)
}

//! The words of a hint.

ghost use Rattle.std.specs.Prelude.{◌≡◌, ◌++◌, ◌≤◌, [], OnOk, flat_map, length};
ghost use Rattle.wat_mnemonics.specs.Prelude.{IsCharBoundary, op_word};
ghost use Rattle.wat_mnemonics.specs.declared.table.TheConstants.{OPS};
ghost use Rattle.wat_report.specs.HintWords.{without_dollar_words, hint_words, in_backquotes, nearest_words, today_words, next_quoted, question_words, same_words, groups_words, unclosed_words, wrong_escape_words};
ghost use Rattle.wat_report.specs.Positions.{position_of_offset};
ghost use Rattle.wat_report.specs.Meant.{keyword_text};
ghost use Rattle.wat_report.specs.Escapes.{escapes_end};
ghost use Rattle.wat_report.specs.Hints.{hint_of, new_word};
ghost use Rattle.wat_report.specs.Nearest.{nearest_among};
ghost use Rattle.wat_report.specs.declared.meant.TheConstants.{FIELD_WORDS, TYPE_WORDS};

use crate::escapes::escapes_end;
use crate::found::word_at;
use crate::front::Groups;
use crate::hint::{Hint, hint_of, new_word};
use crate::lines::line_column;
use crate::meant::{FIELD_WORDS, TYPE_WORDS};
use crate::nearest::{Spelled, nearest_among};
use crate::write::{add, add_number};
use std::alloc::AllocError;
use wat_mnemonics::table::OPS;
use wat_tokens::Fault;

/// Adds the word of a value after a mark, between backquotes.
#[tactic(auto, unfolding(crate::specs::HintWords::in_backquotes))]
fn add_quoted<T: Spelled>(out: &mut Vec<u8>, mark: &str, one: T) -> Result<(), AllocError>
    ensures { OnOk result (out.new.items ≡ out.old.items ++ in_backquotes mark.now T.spelling
        one) }
{
    add(out, "`")?;
    add(out, mark)?;
    add(out, one.spelled())?;
    add(out, "`")
}

/// Adds further words, each after a comma.
fn add_further<T: Spelled>(out: &mut Vec<u8>, mark: &str, further: &[T]) -> Result<(), AllocError>
    ensures { OnOk result (out.new.items ≡ out.old.items ++ flat_map (next_quoted mark.now
        T.spelling) further.now) }
{
    for one in further {
        add(out, ", ")?;
        add_quoted(out, mark, *one)?;
    }
    Ok(())
}

/// Adds the question whether one of the words was meant.
#[tactic(auto, unfolding(crate::specs::HintWords::question_words))]
fn add_question<T: Spelled>(
    out: &mut Vec<u8>,
    mark: &str,
    first: T,
    further: &[T],
) -> Result<(), AllocError>
    ensures { OnOk result (out.new.items ≡ out.old.items ++ question_words mark.now T.spelling first
        further.now) }
{
    add(out, "did you mean ")?;
    add_quoted(out, mark, first)?;
    add_further(out, mark, further)?;
    add(out, "?")
}

/// Adds the question whether one of the words was meant. Adds nothing if there is no word.
#[tactic(auto, using(crate::proofs::Nearby::nearest_words_some))]
fn add_nearest<T: Spelled>(out: &mut Vec<u8>, mark: &str, found: &[T]) -> Result<(), AllocError>
    ensures { OnOk result (out.new.items ≡ out.old.items ++ nearest_words mark.now T.spelling
        found.now) }
{
    match found.split_first() {
        None => Ok(()),
        Some((first, further)) => add_question(out, mark, *first, further),
    }
}

/// Adds the question whether one of the values nearest to the word was meant. Each is written after
/// the mark.
pub(crate) fn add_nearest_to<T: Spelled>(
    out: &mut Vec<u8>,
    mark: &str,
    all: &[T],
    word: &str,
) -> Result<(), AllocError>
    ensures { OnOk result (out.new.items ≡ out.old.items ++ nearest_words mark.now T.spelling
        (nearest_among T.spelling word.now all.now)) }
{
    let found = nearest_among(*out.allocator(), all, word.as_bytes())?;
    add_nearest(out, mark, &found)
}

/// Adds the question for the mnemonics nearest to the word.
fn add_near_mnemonics(out: &mut Vec<u8>, word: &str) -> Result<(), AllocError>
    ensures { OnOk result (out.new.items ≡ out.old.items ++ nearest_words [] op_word
        (nearest_among op_word word.now OPS)) }
{
    add_nearest_to(out, "", &OPS, word)
}

/// Adds the question for the words of fields nearest to the word.
fn add_near_fields(out: &mut Vec<u8>, word: &str) -> Result<(), AllocError>
    ensures { OnOk result (out.new.items ≡ out.old.items ++ nearest_words [] keyword_text
        (nearest_among keyword_text word.now FIELD_WORDS)) }
{
    add_nearest_to(out, "", &FIELD_WORDS, word)
}

/// Adds the question for the types nearest to the word.
fn add_near_types(out: &mut Vec<u8>, word: &str) -> Result<(), AllocError>
    ensures { OnOk result (out.new.items ≡ out.old.items ++ nearest_words [] keyword_text
        (nearest_among keyword_text word.now TYPE_WORDS)) }
{
    add_nearest_to(out, "", &TYPE_WORDS, word)
}

/// Adds the word that replaced an old word.
fn add_new_word(out: &mut Vec<u8>, word: &str) -> Result<(), AllocError>
    ensures { OnOk result (out.new.items ≡ out.old.items ++ today_words (new_word word.now)) }
{
    let Some(new) = new_word(word) else {
        return Ok(());
    };
    add(out, "use `")?;
    add(out, new)?;
    add(out, "` instead")
}

/// Adds how many groups begin and end in a text with a missing `)`.
#[tactic(auto, unfolding(crate::specs::HintWords::groups_words))]
fn add_groups(out: &mut Vec<u8>, groups: Groups) -> Result<(), AllocError>
    ensures { OnOk result (out.new.items ≡ out.old.items ++ groups_words groups) }
{
    add(out, "a `)` may be missing: the text has ")?;
    add_number(out, groups.begun)?;
    add(out, " `(` and ")?;
    add_number(out, groups.ended)?;
    add(out, " `)`")
}

/// Adds the hint for a text that ends inside a group.
fn add_unclosed(out: &mut Vec<u8>, groups: Option<Groups>) -> Result<(), AllocError>
    ensures { OnOk result (out.new.items ≡ out.old.items ++ unclosed_words groups) }
{
    match groups {
        None => Ok(()),
        Some(groups) => add_groups(out, groups),
    }
}

/// Adds the hint for an identifier without its `$`.
#[tactic(auto, unfolding(crate::specs::HintWords::without_dollar_words))]
fn add_without_dollar(out: &mut Vec<u8>, word: &str) -> Result<(), AllocError>
    ensures { OnOk result (out.new.items ≡ out.old.items ++ without_dollar_words word.now) }
{
    add(out, "an identifier begins with `$`: `$")?;
    add(out, word)?;
    add(out, "`")
}

/// Adds the hint for an invalid escape in a column.
#[tactic(auto, unfolding(crate::specs::HintWords::wrong_escape_words))]
fn add_column(out: &mut Vec<u8>, column: usize) -> Result<(), AllocError>
    ensures { OnOk result (out.new.items ≡ out.old.items ++ wrong_escape_words column) }
{
    add(out, "the escape in column ")?;
    add_number(out, column)?;
    add(
        out,
        " is invalid: a backslash is written `\\\\`, and a byte as `\\` and two hexadecimal digits",
    )
}

/// Adds the hint for a string with an invalid escape.
fn add_wrong_escape(out: &mut Vec<u8>, text: &str, at: usize) -> Result<(), AllocError>
    requires { at ≤ length text.now }
    ensures { OnOk result (out.new.items ≡ out.old.items ++ wrong_escape_words
        ((position_of_offset text.now (escapes_end text.now at)).column)) }
{
    add_column(out, line_column(text, escapes_end(text, at)).column)
}

/// Returns the words of a hint that are the same for every text, and `""` for other hints.
fn same_words(hint: Hint) -> &'static str
    ensures { result.now ≡ same_words hint }
{
    match hint {
        Hint::ByteOrderMark => "the text begins with a byte order mark, which isn't allowed",
        Hint::SeqCst => "this ordering is written `seqcst`",
        Hint::ModuleGroup => "the fields of a module go inside `(module ..)`",
        Hint::SlashComment => {
            "a comment is written `;; ..` to the end of the line, or `(; .. ;)`"
        }
        Hint::Semicolon => "`;;` begins a comment, and instructions don't end with `;`",
        Hint::OpenString => {
            "no `\"` closes the string in this line, and a string can't contain a line break"
        }
        Hint::Escapes => {
            "a backslash is written `\\\\`, and a byte as `\\` and two hexadecimal digits"
        }
        Hint::BehindModule => "a text has one module, and this comes after it",
        Hint::NoModule => "the text has no module; a module is written `(module ..)`",
        Hint::OtherQuote => "a string is written between `\"`, not between `'`",
        Hint::Fraction => { "a number here must be an integer, without a `.` or an exponent" }
        _ => "",
    }
}

/// Adds the words of the hint for a fault. Adds nothing if there is no hint.
pub(crate) fn add_hint(
    out: &mut Vec<u8>,
    text: &str,
    groups: Option<Groups>,
    at: usize,
    fault: Fault,
) -> Result<(), AllocError>
    requires within { at ≤ length text.now }
    requires boundary { IsCharBoundary text.now at }
    ensures { OnOk result (out.new.items ≡ out.old.items ++ hint_words text.now groups
        at (hint_of text.now groups at fault)) }
{
    match hint_of(text, groups, at, fault) {
        None => Ok(()),
        Some(Hint::OldWord) => add_new_word(out, word_at(text, at)),
        Some(Hint::Unclosed) => add_unclosed(out, groups),
        Some(Hint::Nearest) => add_near_mnemonics(out, word_at(text, at)),
        Some(Hint::NearField) => add_near_fields(out, word_at(text, at)),
        Some(Hint::NearType) => add_near_types(out, word_at(text, at)),
        Some(Hint::WithoutDollar) => add_without_dollar(out, word_at(text, at)),
        Some(Hint::WrongEscape) => add_wrong_escape(out, text, at),
        Some(hint) => add(out, same_words(hint)),
    }
}

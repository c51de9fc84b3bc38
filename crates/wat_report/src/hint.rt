//! Hints: how an error may be mended.

ghost use Rattle.std.specs.Prelude.{◌≡◌, ◌≤◌, ◌+◌, length, option_map};
ghost use Rattle.std.specs.Str.{IsCharBoundary};
ghost use Rattle.wat_report.specs.Around.{past_word, opened_word};
ghost use Rattle.wat_report.specs.Found.{word_at};
ghost use Rattle.wat_report.specs.Hints.{begins_number, begins_with_mark, char_hint, count_in_line, count_of, has_no_group, has_wrong_escape, hint_of, is_without_dollar, is_field_place, is_field_word, is_first_field, is_fraction, is_fraction_at, is_head_word, is_other_quote, is_semicolon, is_slash_comment, is_string_word, is_type_place, is_types_word, is_unclosed, new_word, operator_hint, string_hint, token_hint, unexpected_hint};

use crate::around::{list_start, opened_word, past_word};
use crate::escapes::escapes_end;
use crate::found::{is_word_at, word_at, word_end};
use crate::front::{Groups, is_before_groups, is_behind_group, is_in_group, is_in_two};
use crate::lines::line_stop;
use crate::meant::FIELD_WORDS;
use crate::nearest::LONGEST;
use wat_tokens::Fault;

/// A hint: how an error may be mended.
#[derive(Clone, Copy, Debug, PartialEq, Eq)]
pub(crate) enum Hint {
    /// The text begins with a byte order mark.
    ByteOrderMark,
    /// `seq_cst` is written for `seqcst`.
    SeqCst,
    /// The fields of a module aren't inside `(module ..)`.
    ModuleGroup,
    /// The word is the name that an instruction or a type had before the format was standardized.
    OldWord,
    /// A comment begins with `//` or `/*`.
    SlashComment,
    /// A single `;` is between tokens.
    Semicolon,
    /// The string isn't closed on its line.
    OpenString,
    /// The string may have an invalid escape.
    Escapes,
    /// The string has an invalid escape.
    WrongEscape,
    /// The text ends inside a group: it has more `(` than `)`.
    Unclosed,
    /// An unknown instruction, which may be a misspelled one.
    Nearest,
    /// The text goes on after the module.
    BehindModule,
    /// The text has only white space and comments.
    NoModule,
    /// A string is written between `'` instead of `"`.
    OtherQuote,
    /// A number has a point or an exponent where an integer is needed.
    Fraction,
    /// An unknown word, which may be a misspelled field.
    NearField,
    /// An unknown word, which may be a misspelled type.
    NearType,
    /// A function's identifier is written without its `$`.
    WithoutDollar,
}

/// Returns whether the text begins with a byte order mark.
fn begins_with_mark(text: &str) -> bool
    ensures { result ≡ begins_with_mark text.now }
{
    let bytes = text.as_bytes();
    bytes.len() >= 3 && bytes[0] == 0xef && bytes[1] == 0xbb && bytes[2] == 0xbf
}

/// Returns whether a module's field begins with the word.
fn is_field_word(word: &str) -> bool
    ensures { result ≡ is_field_word word.now }
{
    FIELD_WORDS.iter().any(|field| field.word() == word)
}

/// Returns the word that replaced a word when the format was standardized.
#[tactic(auto, unfolding(crate::specs::Hints::new_word))]
pub(crate) fn new_word(word: &str) -> Option<&'static str>
    ensures { option_map (λ new. new.now) result ≡ new_word word.now }
{
    match word {
        "get_local" => Some("local.get"),
        "set_local" => Some("local.set"),
        "tee_local" => Some("local.tee"),
        "get_global" => Some("global.get"),
        "set_global" => Some("global.set"),
        "current_memory" => Some("memory.size"),
        "grow_memory" => Some("memory.grow"),
        "anyfunc" => Some("funcref"),
        _ => None,
    }
}

/// Returns whether a comment of other languages begins at the offset: `//` or `/*`.
fn is_slash_comment(text: &str, at: usize) -> bool
    ensures { result ≡ is_slash_comment text.now at }
{
    let bytes = text.as_bytes();
    at < bytes.len()
        && at + 1 < bytes.len()
        && bytes[at] == b'/'
        && (bytes[at + 1] == b'/' || bytes[at + 1] == b'*')
}

/// Returns whether a `;` is at the offset.
fn is_semicolon(text: &str, at: usize) -> bool
    ensures { result ≡ is_semicolon text.now at }
{
    let bytes = text.as_bytes();
    at < bytes.len() && bytes[at] == b';'
}

/// Returns whether the word of a field is at the offset, directly after the first `(` of the text.
fn is_first_field(text: &str, at: usize) -> bool
    requires within { at ≤ length text.now }
    requires boundary { IsCharBoundary text.now at }
    ensures { result ≡ is_first_field text.now at }
{
    let bytes = text.as_bytes();
    at > 0
        && bytes[at - 1] == b'('
        && is_field_word(word_at(text, at))
        && bytes[..at].iter().filter(|b| **b == b'(').count() == 1
}

/// Returns the number of occurrences of a byte in the text.
fn count_of(text: &str, byte: u8) -> usize
    ensures { result ≡ count_of text.now byte }
{
    text.bytes().filter(|b| *b == byte).count()
}

/// Returns whether the text ends at the offset, inside a group.
#[tactic(auto, unfolding(crate::specs::Hints::is_unclosed))]
fn is_unclosed(text: &str, groups: Option<Groups>, at: usize) -> bool
    ensures { result ≡ is_unclosed text.now groups at }
{
    text.len() <= at && is_in_group(groups)
}

/// Returns the number of occurrences of a byte from the offset to the end of its line.
#[tactic(auto, unfolding(crate::specs::Hints::count_in_line))]
fn count_in_line(text: &str, at: usize, byte: u8) -> usize
    requires { at ≤ length text.now }
    ensures { result ≡ count_in_line text.now at byte }
{
    let rest = &text.as_bytes()[at..line_stop(text, at)];
    rest.iter().filter(|b| **b == byte).count()
}

/// Returns whether the string at the offset has an invalid escape before the next quote.
#[tactic(auto, unfolding(crate::specs::Hints::has_wrong_escape))]
fn has_wrong_escape(text: &str, at: usize) -> bool
    requires { at ≤ length text.now }
    ensures { result ≡ has_wrong_escape text.now at }
{
    let bytes = text.as_bytes();
    let end = escapes_end(text, at);
    end < bytes.len() && bytes[end] == b'\\'
}

/// Returns the hint for an invalid string.
#[tactic(auto, unfolding(crate::specs::Hints::string_hint))]
fn string_hint(text: &str, at: usize) -> Option<Hint>
    requires { at ≤ length text.now }
    ensures { result ≡ string_hint text.now at }
{
    if count_in_line(text, at, b'"') < 2 {
        return Some(Hint::OpenString);
    }
    if has_wrong_escape(text, at) {
        return Some(Hint::WrongEscape);
    }
    if count_in_line(text, at, b'\\') > 0 {
        return Some(Hint::Escapes);
    }
    None
}

/// Returns the hint for a character that begins no token.
fn char_hint(text: &str, at: usize) -> Option<Hint>
    ensures { result ≡ char_hint text.now at }
{
    if at == 0 && begins_with_mark(text) {
        return Some(Hint::ByteOrderMark);
    }
    if is_semicolon(text, at) {
        return Some(Hint::Semicolon);
    }
    None
}

/// Returns the hint that the token itself gives, wherever it isn't expected.
#[tactic(auto, unfolding(crate::specs::Hints::token_hint))]
fn token_hint(text: &str, groups: Option<Groups>, at: usize) -> Option<Hint>
    requires within { at ≤ length text.now }
    requires boundary { IsCharBoundary text.now at }
    ensures { result ≡ token_hint text.now groups at }
{
    let word = word_at(text, at);
    if word == "seq_cst" {
        return Some(Hint::SeqCst);
    }
    if new_word(word).is_some() {
        return Some(Hint::OldWord);
    }
    if is_slash_comment(text, at) {
        return Some(Hint::SlashComment);
    }
    if is_unclosed(text, groups, at) {
        return Some(Hint::Unclosed);
    }
    None
}

/// Returns whether the text ends at the offset, and has no group before it.
#[tactic(auto, unfolding(crate::specs::Hints::has_no_group))]
fn has_no_group(text: &str, groups: Option<Groups>, at: usize) -> bool
    requires { at ≤ length text.now }
    ensures { result ≡ has_no_group text.now groups at }
{
    text.len() <= at && is_before_groups(groups)
}

/// Returns whether a string has to follow the word.
fn is_string_word(word: &str) -> bool
    ensures { result ≡ is_string_word word.now }
{
    matches!(word, "export" | "import")
}

/// Returns whether a `'` is at the offset, or follows a word there that needs a string after it.
#[tactic(auto, unfolding(crate::specs::Hints::is_other_quote))]
fn is_other_quote(text: &str, at: usize) -> bool
    requires within { at ≤ length text.now }
    requires boundary { IsCharBoundary text.now at }
    ensures { result ≡ is_other_quote text.now at }
{
    let bytes = text.as_bytes();
    if at < bytes.len() && bytes[at] == b'\'' {
        return true;
    }
    let behind = past_word(text, at);
    is_string_word(word_at(text, at)) && behind < bytes.len() && bytes[behind] == b'\''
}

/// Returns whether a number begins with the byte.
fn begins_number(byte: u8) -> bool
    ensures { result ≡ begins_number byte }
{
    b'0' <= byte && byte <= b'9' || byte == b'+' || byte == b'-'
}

/// Returns whether the word has a `.`, or an `e` and no `x`.
fn is_fraction(word: &str) -> bool
    ensures { result ≡ is_fraction word.now }
{
    count_of(word, b'.') > 0 || count_of(word, b'e') > 0 && count_of(word, b'x') == 0
}

/// Returns whether a number that isn't an integer is at the offset.
#[tactic(auto, unfolding(crate::specs::Hints::is_fraction_at))]
fn is_fraction_at(text: &str, at: usize) -> bool
    requires within { at ≤ length text.now }
    requires boundary { IsCharBoundary text.now at }
    ensures { result ≡ is_fraction_at text.now at }
{
    let bytes = text.as_bytes();
    at < bytes.len() && begins_number(bytes[at]) && is_fraction(word_at(text, at))
}

/// Returns whether a word is at the offset, directly after the `(` of a group at depth two.
#[tactic(auto, unfolding(crate::specs::Hints::is_field_place))]
fn is_field_place(text: &str, groups: Option<Groups>, at: usize) -> bool
    requires { at ≤ length text.now }
    ensures { result ≡ is_field_place text.now groups at }
{
    is_word_at(text, at) && at > 0 && text.as_bytes()[at - 1] == b'(' && is_in_two(groups)
}

/// Returns whether types follow the word.
fn is_types_word(word: &str) -> bool
    ensures { result ≡ is_types_word word.now }
{
    matches!(word, "param" | "result" | "local")
}

/// Returns whether a word is at the offset, in a group of types.
#[tactic(auto, unfolding(crate::specs::Hints::is_type_place))]
fn is_type_place(text: &str, at: usize) -> bool
    requires { at ≤ length text.now }
    ensures { result ≡ is_type_place text.now at }
{
    let start = list_start(text, at);
    is_word_at(text, at) && start < at && is_types_word(opened_word(text, start))
}

/// Returns whether a group that begins with the word comes before the instructions of a function.
fn is_head_word(word: &str) -> bool
    ensures { result ≡ is_head_word word.now }
{
    is_types_word(word) || is_string_word(word) || word == "type"
}

/// Returns whether the word at the offset is followed by a group that comes before the instructions
/// of a function.
fn is_before_head(text: &str, at: usize) -> bool
    requires { at ≤ length text.now }
    ensures { result ≡ is_head_word (opened_word text.now (past_word text.now at + 1)) }
{
    let open = past_word(text, at);
    open < text.len() && is_head_word(opened_word(text, open + 1))
}

/// Returns whether a word is at the offset, between `(func` and a group that comes before the
/// instructions of a function.
#[tactic(auto, unfolding(crate::specs::Hints::is_without_dollar))]
fn is_without_dollar(text: &str, at: usize) -> bool
    requires { at ≤ length text.now }
    ensures { result ≡ is_without_dollar text.now at }
{
    let start = list_start(text, at);
    is_word_at(text, at)
        && opened_word(text, start) == "func"
        && past_word(text, start) == at
        && word_end(text.as_bytes(), at) - at <= LONGEST
        && is_before_head(text, at)
}

/// Returns the hint for a token that isn't expected.
#[tactic(auto, unfolding(crate::specs::Hints::unexpected_hint))]
fn unexpected_hint(text: &str, groups: Option<Groups>, at: usize) -> Option<Hint>
    requires within { at ≤ length text.now }
    requires boundary { IsCharBoundary text.now at }
    ensures { result ≡ unexpected_hint text.now groups at }
{
    if is_first_field(text, at) {
        return Some(Hint::ModuleGroup);
    }
    if is_behind_group(groups) {
        return Some(Hint::BehindModule);
    }
    if has_no_group(text, groups, at) {
        return Some(Hint::NoModule);
    }
    if is_other_quote(text, at) {
        return Some(Hint::OtherQuote);
    }
    if is_fraction_at(text, at) {
        return Some(Hint::Fraction);
    }
    if is_field_place(text, groups, at) {
        return Some(Hint::NearField);
    }
    if is_type_place(text, at) {
        return Some(Hint::NearType);
    }
    None
}

/// Returns the hint for a token that isn't the expected instruction.
#[tactic(auto, unfolding(crate::specs::Hints::operator_hint))]
fn operator_hint(text: &str, at: usize) -> Option<Hint>
    requires within { at ≤ length text.now }
    requires boundary { IsCharBoundary text.now at }
    ensures { result ≡ operator_hint text.now at }
{
    if is_other_quote(text, at) {
        return Some(Hint::OtherQuote);
    }
    if is_without_dollar(text, at) {
        return Some(Hint::WithoutDollar);
    }
    if is_word_at(text, at) {
        return Some(Hint::Nearest);
    }
    None
}

/// Returns the hint for a fault at an offset where a character begins. `groups` counts the groups
/// before the offset.
pub(crate) fn hint_of(text: &str, groups: Option<Groups>, at: usize, fault: Fault) -> Option<Hint>
    requires within { at ≤ length text.now }
    requires boundary { IsCharBoundary text.now at }
    ensures { result ≡ hint_of text.now groups at fault }
{
    match fault {
        Fault::LexChar => char_hint(text, at),
        Fault::LexString => string_hint(text, at),
        Fault::Unexpected => token_hint(text, groups, at).or(unexpected_hint(text, groups, at)),
        Fault::Operator => token_hint(text, groups, at).or(operator_hint(text, at)),
        _ => None,
    }
}

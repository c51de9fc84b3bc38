//! The parts of a module besides its fields: the head, and the tokens after the fields (Text
//! Format, "Modules").

ghost use Rattle.std.specs.Prelude.{◌≡◌, ◌≤◌, true, length};
ghost use Rattle.wat_fields.specs.Prelude.{offset_of};
ghost use Rattle.wat_tokens.specs.Error.{Unexpected};
ghost use Rattle.wat_tokens.specs.Visible.{shown, seen};
ghost use Rattle.wat_core.specs.ModuleHead.{place_of, wrong_end, IsUnexpected, behind_id, behind_name, behind_head, has_head};

use wat_lexer::fault::{Error, Fault, fault_at};
use wat_tokens::index::Id;
use wat_tokens::parser::Parser;

/// Passes over an identifier, if an identifier is next.
fn pass_id(parser: &mut Parser<'_>)
    requires known { parser.old.known ≡ true }
    requires seen { parser.old.left ≡ seen true parser.old.rest }
    ensures { parser.new ≡ record parser.old {
      rest = behind_id parser.old.rest;
      left = seen true (behind_id parser.old.rest);
    } }
{
    if !parser.peek::<Id>() {
        return;
    }
    parser.pass_token();
}

/// Passes over a group that begins with the annotation `@name`, if such a group is next.
fn pass_name(parser: &mut Parser<'_>)
    requires known { parser.old.known ≡ true }
    requires seen { parser.old.left ≡ seen true parser.old.rest }
    ensures { parser.new ≡ record parser.old {
      rest = behind_name parser.old.rest;
      left = seen true (behind_name parser.old.rest);
    } }
{
    if !parser.annotation_is("name") {
        return;
    }
    parser.pass_group();
}

/// Passes over the module's head, and makes the five standard annotations known. Returns false if
/// the head is missing, or if the keyword `binary` follows the head.
pub(crate) fn pass_head(parser: &mut Parser<'_>) -> bool
    ensures value { result ≡ has_head parser.old.rest }
    ensures behind { result ≡ true → (parser.new.known ≡ true)
        × (parser.new.left ≡ seen true parser.new.rest)
        × (parser.new.rest ≡ behind_head parser.old.rest)
        × (length parser.new.rest ≤ usize.MAX) }
{
    parser.with_standard_annotations(false);
    if !parser.opens() {
        return false;
    }
    parser.pass_token();
    parser.with_standard_annotations(true);
    if !parser.next_is("module") {
        return false;
    }
    parser.pass_token();
    pass_id(parser);
    pass_name(parser);
    !parser.next_is("binary")
}

/// Returns the fault Unexpected at the next token, or at `end` if no token is left.
fn unexpected(parser: &Parser<'_>, end: usize) -> Error
    requires { parser.now.left ≡ seen parser.now.known parser.now.rest }
    ensures fault { result.fault ≡ Unexpected }
    ensures place { offset_of result.span
        ≡ place_of end (shown parser.now.known parser.now.rest) }
{
    if parser.at_end() {
        return fault_at(Fault::Unexpected, end);
    }
    Error::at(Fault::Unexpected, parser.cur_span())
}

/// Returns the error after the groups in a text of `end` bytes; None if only the module's `)`
/// follows.
pub(crate) fn wrong_end(parser: &mut Parser<'_>, end: usize) -> Option<Error>
    requires known { parser.old.known ≡ true }
    requires seen { parser.old.left ≡ seen true parser.old.rest }
    ensures { IsUnexpected result (wrong_end end parser.old.rest) }
{
    match parser.cursor().rparen() {
        None => return Some(unexpected(parser, end)),
        Some(_) => {}
    }
    parser.pass_token();
    parser.with_standard_annotations(false);
    if parser.at_end() {
        return None;
    }
    Some(unexpected(parser, end))
}

//! Name annotations (Appendix, "Custom Sections and Annotations", "Name Annotations").

ghost use Rattle.std.specs.Prelude.{◌≡◌, List, ℕ};
ghost use Rattle.wat_tokens.specs.Prelude.{in_front, at_name, name_annotation, begins_name, plain};

use crate::cursor::Cursor;
use crate::parser::Parser;
use crate::traits::{Parse, Peek};
use wat_lexer::fault::Error;

/// `( @name name )`: the name of a module, a field or the like (Appendix, "Custom Sections and
/// Annotations", "Name Annotations"). The parser reads name annotations only while the annotation
/// `name` is known.
#[derive(Clone, Copy, Debug)]
pub struct NameAnnotation<'a> {
    /// The name.
    pub name: &'a str,
}

/// Returns Unexpected if a token isn't the expected token, and Utf8, at the string, if the name
/// isn't UTF-8.
impl<'a> Parse<'a> for NameAnnotation<'a> {
    ghost View = { List ℕ };

    ghost view = { plain (λ a. a.name.now) };

    ghost grammar = { name_annotation };

    #[tactic(auto, unfolding(crate::specs::NameAnnotation::name_annotation))]
    fn parse(parser: &mut Parser<'a>) -> Result<Self, Error> {
        parser.open()?;
        parser.take_annotation("name")?;
        let name = <&str as Parse>::parse(parser)?;
        parser.close()?;
        Ok(NameAnnotation { name })
    }
}

/// A `(`, and the annotation `name`.
impl<'p> Peek for NameAnnotation<'p> {
    ghost begins = { at_name };

    fn peek(cursor: Cursor<'_>) -> bool
        ensures { result ≡ begins_name (in_front cursor.entry) }
    {
        cursor.annotation_is("name")
    }

    fn display() -> &'static str {
        "name annotation"
    }
}

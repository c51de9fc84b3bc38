//! Value types.

ghost use Rattle.std.specs.Prelude.{◌≡◌};
ghost use Rattle.wat_tokens.specs.Prelude.{in_front, plain};
ghost use Rattle.wat_types.specs.Value.{ValTypeModel, val_view, val_type, IsPlain, begins_plain, begins_val, at_val};

use crate::reference::{RefType, long_ref_at, shorthand_at};
use wat_tokens::{Cursor, Parse, Parser, Peek, Result};

/// A value type (WebAssembly Core Specification, Text Format, Types, "Value Types").
#[derive(Clone, Copy, Debug, PartialEq, Eq, Hash)]
pub enum ValType<'a> {
    /// `i32`
    I32,
    /// `i64`
    I64,
    /// `f32`
    F32,
    /// `f64`
    F64,
    /// `v128`
    V128,
    /// A reference type.
    Ref(RefType<'a>),
}

/// The number or vector type that a keyword names (Text Format, Types, "Number Types" and "Vector
/// Types").
fn plain<'a>(word: &str) -> Option<ValType<'a>>
    ensures { IsPlain word.now result }
{
    match word {
        "i32" => Some(ValType::I32),
        "i64" => Some(ValType::I64),
        "f32" => Some(ValType::F32),
        "f64" => Some(ValType::F64),
        "v128" => Some(ValType::V128),
        _ => None,
    }
}

/// Reads `i32`, `i64`, `f32`, `f64`, `v128`, or a [`RefType`].
impl<'a> Parse<'a> for ValType<'a> {
    ghost View = { ValTypeModel };

    ghost view = { plain val_view };

    ghost grammar = { val_type };

    #[tactic(auto, unfolding(crate::specs::Value::val_type))]
    fn parse(parser: &mut Parser<'a>) -> Result<Self> {
        let known = match parser.cursor().keyword() {
            Some((word, _)) => plain(word),
            None => None,
        };
        match known {
            Some(ty) => {
                parser.take_keyword()?;
                Ok(ty)
            }
            None => RefType::parse(parser).map(ValType::Ref),
        }
    }
}

/// Returns whether the next token is the keyword of a number or vector type.
#[tactic(auto, using(wat_tokens::specs::Laws::Begin::table_begins), unfolding(crate::specs::Value::at_plain))]
fn plain_at(cursor: Cursor<'_>) -> bool
    ensures { result ≡ begins_plain (in_front cursor.entry) }
{
    match cursor.keyword() {
        Some((word, _)) => plain(word).is_some(),
        None => false,
    }
}

/// A [`ValType`] begins at `i32`, `i64`, `f32`, `f64`, `v128`, or at a [`RefType`].
impl<'p> Peek for ValType<'p> {
    ghost begins = { at_val };

    fn peek(cursor: Cursor<'_>) -> bool
        ensures { result ≡ begins_val (in_front cursor.entry) }
    {
        plain_at(cursor) || shorthand_at(cursor) || long_ref_at(cursor)
    }

    fn display() -> &'static str {
        "valtype"
    }
}

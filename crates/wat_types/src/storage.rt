//! Storage types and global types.

ghost use Rattle.std.specs.Prelude.{◌≡◌};
ghost use Rattle.wat_tokens.specs.Views.{plain};
ghost use Rattle.wat_types.specs.Storage.{StorageTypeModel, storage_view, storage_type, GlobalTypeModel, global_type_view, global_type, long_global};

use crate::value::ValType;
use wat_tokens::{Parse, Parser, Result};

/// The type of a structure field or an array element (WebAssembly Core Specification, Text Format,
/// Types, "Composite Types").
#[derive(Clone, Copy, Debug, PartialEq, Eq, Hash)]
pub enum StorageType<'a> {
    /// `i8`
    I8,
    /// `i16`
    I16,
    /// A value type.
    Val(ValType<'a>),
}

/// A global type (WebAssembly Core Specification, Text Format, Types, "Global Types").
#[derive(Clone, Copy, Debug, PartialEq, Eq, Hash)]
pub struct GlobalType<'a> {
    /// The value type.
    pub ty: ValType<'a>,
    /// Whether the text has `mut`: the value can change.
    pub mutable: bool,
    /// Whether the text has `shared`: threads share the global.
    pub shared: bool,
}

/// Reads `i8`, `i16`, or a [`ValType`]. Returns Unexpected, at the next token, if the token begins
/// no such type.
impl<'a> Parse<'a> for StorageType<'a> {
    ghost View = { StorageTypeModel };

    ghost view = { plain storage_view };

    ghost grammar = { storage_type };

    #[tactic(auto, using(crate::proofs::Begun::no_value_type), unfolding(crate::specs::Storage::storage_type))]
    fn parse(parser: &mut Parser<'a>) -> Result<Self> {
        if parser.flag("i8") {
            return Ok(StorageType::I8);
        }
        if parser.flag("i16") {
            return Ok(StorageType::I16);
        }
        if parser.peek::<ValType>() {
            return ValType::parse(parser).map(StorageType::Val);
        }
        Err(parser.unexpected())
    }
}

/// Returns whether the second token is `shared` or `mut`, for any first token.
fn long_global_next(parser: &Parser<'_>) -> bool
    ensures { result ≡ long_global parser.now.left }
{
    parser.second_is("shared") || parser.second_is("mut")
}

/// Reads `( shared? mut? ValType )` if the second token is `shared` or `mut`, and otherwise a
/// [`ValType`]. So `(shared funcref)` is a shared global of type `funcref`, and `(mut (shared
/// funcref))` a mutable global of a shared reference type.
impl<'a> Parse<'a> for GlobalType<'a> {
    ghost View = { GlobalTypeModel };

    ghost view = { plain global_type_view };

    ghost grammar = { global_type };

    #[tactic(auto, unfolding(crate::specs::Storage::global_type))]
    fn parse(parser: &mut Parser<'a>) -> Result<Self> {
        if !long_global_next(parser) {
            return Ok(GlobalType {
                ty: ValType::parse(parser)?,
                mutable: false,
                shared: false,
            });
        }
        parser.open()?;
        let shared = parser.flag("shared");
        let mutable = parser.flag("mut");
        let ty = ValType::parse(parser)?;
        parser.close()?;
        Ok(GlobalType {
            ty,
            mutable,
            shared,
        })
    }
}

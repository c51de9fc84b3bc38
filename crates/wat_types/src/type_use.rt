//! Type uses.

ghost use Rattle.std.specs.Prelude.{◌≡◌, Some, None};
ghost use Rattle.wat_tokens.specs.Prelude.{Copies, owning, holding};
ghost use Rattle.wat_types.specs.Function.{function_view, unnamed_view, heapless_function};
ghost use Rattle.wat_types.specs.Use.{TypeUseModel, use_view, heapless_use, type_use, SameFunction, SameUnnamed, SameUse, with_names};

use crate::function::{FunctionType, FunctionTypeNoNames};
use wat_tokens::enclosed::in_word_group;
use wat_tokens::{Fault, Index, Parse, Parser, Peek, Result};

/// A type use: an index, an inline type, both or neither (WebAssembly Core Specification, Text
/// Format, "Type Uses").
#[derive(Debug, Drop)]
pub struct TypeUse<'a, T> {
    /// The index in `(type ..)`, if any.
    pub index: Option<Index<'a>>,
    /// The inline type, if any.
    pub inline: Option<T>,
}

impl<'a, T> TypeUse<'a, T> {
    /// Returns the type use with the index and without an inline type.
    pub fn new_with_index(idx: Index<'a>) -> TypeUse<'a, T>
        ensures index { result.index ≡ Some idx.entry }
        ensures inline { result.inline ≡ None }
    {
        TypeUse {
            index: Some(idx),
            inline: None,
        }
    }
}

/// Reads `( type idx )` if the second token is `type`, and then a T if the next tokens begin a T.
/// Returns Unexpected, at the first token, if the second token is `type` and the first isn't `(`.
impl<'a, T: Parse<'a> + Peek> Parse<'a> for TypeUse<'a, T> {
    ghost View = { TypeUseModel T.View };

    ghost view = { holding T.view (use_view T.view.of) (heapless_use T.view.heapless) };

    ghost cost = { T.cost };

    ghost grammar = { type_use T.begins T.grammar };

    #[tactic(auto, unfolding(crate::specs::Use::type_use))]
    fn parse(parser: &mut Parser<'a>) -> Result<Self> {
        let index = if parser.second_is("type") {
            Some(in_word_group::<Index>(parser, "type")?)
        } else {
            None
        };
        let inline = Option::<T>::parse(parser)?;
        Ok(TypeUse { index, inline })
    }
}

impl<'a> TypeUse<'a, FunctionType<'a>> {
    /// Returns a copy of the type use. Returns the error Memory only if the inline type has a
    /// parameter or a result.
    pub fn clone(&self) -> Result<Self>
        ensures copies { Copies (SameUse SameFunction) (owning (use_view function_view)
            (heapless_use heapless_function)) result self.now }
    {
        Ok(TypeUse {
            index: self.index,
            inline: self.inline.as_ref().map(FunctionType::clone).transpose()?,
        })
    }
}

impl<'a> TypeUse<'a, FunctionTypeNoNames<'a>> {
    /// Returns a copy of the type use. Returns the error Memory only if the inline type has a
    /// parameter or a result.
    pub fn clone(&self) -> Result<Self>
        ensures copies { Copies (SameUse SameUnnamed) (owning (use_view unnamed_view)
            (heapless_use heapless_function)) result self.now }
    {
        Ok(TypeUse {
            index: self.index,
            inline: self
                .inline
                .as_ref()
                .map(FunctionTypeNoNames::clone)
                .transpose()?,
        })
    }
}

/// The same type use, with the function type inside the inline type.
impl<'a> From<TypeUse<'a, FunctionTypeNoNames<'a>>> for TypeUse<'a, FunctionType<'a>> {
    ghost from_gives = { λ u v. v ≡ with_names u };

    fn from(value: TypeUse<'a, FunctionTypeNoNames<'a>>) -> TypeUse<'a, FunctionType<'a>> {
        TypeUse {
            index: value.index,
            inline: value.inline.map(|ty| ty.0),
        }
    }
}

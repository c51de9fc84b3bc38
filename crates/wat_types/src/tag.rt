//! Tag types.

ghost use Rattle.wat_tokens.specs.Prelude.{Copies, owning};
ghost use Rattle.wat_types.specs.Function.{heapless_function};
ghost use Rattle.wat_types.specs.Group.{FunctionTypeModel};
ghost use Rattle.wat_types.specs.Tag.{SameTag, tag_type_view, tag_type};
ghost use Rattle.wat_types.specs.Use.{TypeUseModel, heapless_use};

use crate::function::FunctionType;
use crate::type_use::TypeUse;
use wat_tokens::{Fault, Parse, Parser, Result};

/// A tag type (WebAssembly Core Specification, Text Format, "Tags" and "Type Uses").
#[derive(Debug, Drop)]
pub enum TagType<'a> {
    /// The tag of an exception. The parameters are the values that the exception carries.
    Exception(TypeUse<'a, FunctionType<'a>>),
}

impl<'a> TagType<'a> {
    /// Returns a copy of the tag type. Returns the error Memory only if the inline type has a
    /// parameter or a result.
    pub fn clone(&self) -> Result<TagType<'a>>
        ensures copies { Copies SameTag (owning tag_type_view (heapless_use heapless_function))
            result
            self.now }
    {
        match self {
            TagType::Exception(ty) => Ok(TagType::Exception(ty.clone()?)),
        }
    }
}

/// Reads a [`TypeUse`] of a [`FunctionType`].
impl<'a> Parse<'a> for TagType<'a> {
    ghost View = { TypeUseModel FunctionTypeModel };

    ghost view = { owning tag_type_view (heapless_use heapless_function) };

    ghost grammar = { tag_type };

    fn parse(parser: &mut Parser<'a>) -> Result<Self> {
        TypeUse::parse(parser).map(TagType::Exception)
    }
}

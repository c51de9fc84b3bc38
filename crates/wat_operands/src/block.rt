//! Block types.

ghost use Rattle.wat_types.specs.Prelude.{Copies, Reads, owning};
ghost use Rattle.wat_operands.specs.Block.{signature_view, heapless_signature, signature, BlockTypeModel, block_view, heapless_block, block_type, SameBlock};

use wat_tokens::{Fault, Id, NameAnnotation, Parse, Parser, Result};
use wat_types::{FunctionType, FunctionTypeNoNames, TypeUse, take_label};

/// The label and type of a block: of `block`, `loop`, `if`, `try` and `try_table` (WebAssembly Core
/// Specification, Text Format, Instructions, "Control Instructions").
#[derive(Debug, Drop)]
pub struct BlockType<'a> {
    /// The label, if the text has a label.
    pub label: Option<Id<'a>>,
    /// The name in the label's `@name` annotation, if the text has such an annotation.
    pub label_name: Option<NameAnnotation<'a>>,
    /// The type of the block. Its parameters have neither identifiers nor names.
    pub ty: TypeUse<'a, FunctionType<'a>>,
}

/// Parses a type use of a [`FunctionTypeNoNames`], and returns a type use of a [`FunctionType`].
#[tactic(auto, using(crate::proofs::ViewWithNames::view_with_names))]
pub(crate) fn read_signature<'a>(parser: &mut Parser<'a>) -> Result<TypeUse<'a, FunctionType<'a>>>
    ensures reads { Reads (owning signature_view heapless_signature) signature result parser.old
        parser.new }
{
    let found = TypeUse::<FunctionTypeNoNames>::parse(parser)?;
    Ok(TypeUse::from(found))
}

impl<'a> BlockType<'a> {
    /// Returns a copy. Returns Memory only if the inline type has a parameter or a result.
    pub fn clone(&self) -> Result<BlockType<'a>>
        ensures copies { Copies SameBlock (owning block_view heapless_block) result self.now }
    {
        Ok(BlockType {
            label: self.label,
            label_name: self.label_name,
            ty: self.ty.clone()?,
        })
    }
}

/// An optional label, an optional `@name` annotation, and a type use of a [`FunctionTypeNoNames`].
impl<'a> Parse<'a> for BlockType<'a> {
    ghost View = { BlockTypeModel };

    ghost view = { owning block_view heapless_block };

    ghost grammar = { block_type };

    #[tactic(auto, unfolding(crate::specs::Block::block_type))]
    fn parse(parser: &mut Parser<'a>) -> Result<Self> {
        let (label, label_name) = take_label(parser)?;
        let ty = read_signature(parser)?;
        Ok(BlockType {
            label,
            label_name,
            ty,
        })
    }
}

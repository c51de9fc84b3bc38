//! Operands of instructions on structures, arrays and continuations: indices, and a length.

ghost use Rattle.std.specs.Prelude.{ℕ};
ghost use Rattle.wat_types.specs.Prelude.{IndexModel, index, plain};
ghost use Rattle.wat_operands.specs.Aggregates.{struct_access_view, cont_bind_view, switch_view, array_fill_view, array_copy_view, array_init_view, array_new_fixed_view, array_new_data_view, array_new_elem_view, array_of_length};
ghost use Rattle.wat_operands.specs.Tables.{index_pair};

use crate::tables::index_pair;
use wat_tokens::{Index, Parse, Parser, Result};

/// The operands of an instruction on a field of a structure, as `struct.get`, with indices of type
/// `I` (WebAssembly Core Specification, Text Format, Instructions, "Aggregate Instructions").
#[derive(Clone, Debug, Drop)]
pub struct StructAccessOf<I> {
    /// The structure type.
    pub struct_: I,
    /// The field.
    pub field: I,
}

/// The operands of an instruction on a field of a structure, as `struct.get`.
pub type StructAccess<'a> = StructAccessOf<Index<'a>>;

/// The operands of `cont.bind`, with indices of type `I` (WebAssembly Core Specification, Text
/// Format, Instructions, "Control Instructions", with the proposal on stack switching).
#[derive(Clone, Debug, Drop)]
pub struct ContBindOf<I> {
    /// The type of the continuation argument.
    pub argument_index: I,
    /// The type of the continuation result.
    pub result_index: I,
}

/// The operands of `cont.bind`.
pub type ContBind<'a> = ContBindOf<Index<'a>>;

/// The operands of `switch`, with indices of type `I` (WebAssembly Core Specification, Text
/// Format, Instructions, "Control Instructions", with the proposal on stack switching).
#[derive(Clone, Debug, Drop)]
pub struct SwitchOf<I> {
    /// The continuation type.
    pub type_index: I,
    /// The tag.
    pub tag_index: I,
}

/// The operands of `switch`.
pub type Switch<'a> = SwitchOf<Index<'a>>;

/// The operand of `array.fill`, with an index of type `I` (WebAssembly Core Specification, Text
/// Format, Instructions, "Aggregate Instructions").
#[derive(Clone, Debug, Drop)]
pub struct ArrayFillOf<I> {
    /// The array type.
    pub array: I,
}

/// The operand of `array.fill`.
pub type ArrayFill<'a> = ArrayFillOf<Index<'a>>;

/// The operands of `array.copy`, with indices of type `I` (WebAssembly Core Specification, Text
/// Format, Instructions, "Aggregate Instructions").
#[derive(Clone, Debug, Drop)]
pub struct ArrayCopyOf<I> {
    /// The type of the destination array.
    pub dest_array: I,
    /// The type of the source array.
    pub src_array: I,
}

/// The operands of `array.copy`.
pub type ArrayCopy<'a> = ArrayCopyOf<Index<'a>>;

/// The operands of `array.init_data` and `array.init_elem`, with indices of type `I` (WebAssembly
/// Core Specification, Text Format, Instructions, "Aggregate Instructions").
#[derive(Clone, Debug, Drop)]
pub struct ArrayInitOf<I> {
    /// The array type.
    pub array: I,
    /// The segment to read.
    pub segment: I,
}

/// The operands of `array.init_data` and `array.init_elem`.
pub type ArrayInit<'a> = ArrayInitOf<Index<'a>>;

/// The operands of `array.new_fixed`, with an index of type `I` (WebAssembly Core Specification,
/// Text Format, Instructions, "Aggregate Instructions").
#[derive(Clone, Debug, Drop)]
pub struct ArrayNewFixedOf<I> {
    /// The array type.
    pub array: I,
    /// The number of elements.
    pub length: u32,
}

/// The operands of `array.new_fixed`.
pub type ArrayNewFixed<'a> = ArrayNewFixedOf<Index<'a>>;

/// The operands of `array.new_data`, with indices of type `I` (WebAssembly Core Specification,
/// Text Format, Instructions, "Aggregate Instructions").
#[derive(Clone, Debug, Drop)]
pub struct ArrayNewDataOf<I> {
    /// The array type.
    pub array: I,
    /// The data segment to read.
    pub data_idx: I,
}

/// The operands of `array.new_data`.
pub type ArrayNewData<'a> = ArrayNewDataOf<Index<'a>>;

/// The operands of `array.new_elem`, with indices of type `I` (WebAssembly Core Specification,
/// Text Format, Instructions, "Aggregate Instructions").
#[derive(Clone, Debug, Drop)]
pub struct ArrayNewElemOf<I> {
    /// The array type.
    pub array: I,
    /// The element segment to read.
    pub elem_idx: I,
}

/// The operands of `array.new_elem`.
pub type ArrayNewElem<'a> = ArrayNewElemOf<Index<'a>>;

/// A structure type, and a field.
impl<'a> Parse<'a> for StructAccess<'a> {
    ghost View = { IndexModel × IndexModel };

    ghost view = { plain struct_access_view };

    ghost grammar = { index_pair };

    fn parse(parser: &mut Parser<'a>) -> Result<Self> {
        let (struct_, field) = index_pair(parser)?;
        Ok(StructAccess { struct_, field })
    }
}

/// The continuation type of the argument, and the continuation type of the result.
impl<'a> Parse<'a> for ContBind<'a> {
    ghost View = { IndexModel × IndexModel };

    ghost view = { plain cont_bind_view };

    ghost grammar = { index_pair };

    fn parse(parser: &mut Parser<'a>) -> Result<Self> {
        let (argument_index, result_index) = index_pair(parser)?;
        Ok(ContBind {
            argument_index,
            result_index,
        })
    }
}

/// A continuation type, and a tag.
impl<'a> Parse<'a> for Switch<'a> {
    ghost View = { IndexModel × IndexModel };

    ghost view = { plain switch_view };

    ghost grammar = { index_pair };

    fn parse(parser: &mut Parser<'a>) -> Result<Self> {
        let (type_index, tag_index) = index_pair(parser)?;
        Ok(Switch {
            type_index,
            tag_index,
        })
    }
}

/// An array type.
impl<'a> Parse<'a> for ArrayFill<'a> {
    ghost View = { IndexModel };

    ghost view = { plain array_fill_view };

    ghost grammar = { index };

    fn parse(parser: &mut Parser<'a>) -> Result<Self> {
        let array = Index::parse(parser)?;
        Ok(ArrayFill { array })
    }
}

/// The destination array type, and the source array type.
impl<'a> Parse<'a> for ArrayCopy<'a> {
    ghost View = { IndexModel × IndexModel };

    ghost view = { plain array_copy_view };

    ghost grammar = { index_pair };

    fn parse(parser: &mut Parser<'a>) -> Result<Self> {
        let (dest_array, src_array) = index_pair(parser)?;
        Ok(ArrayCopy {
            dest_array,
            src_array,
        })
    }
}

/// An array type, and a segment.
impl<'a> Parse<'a> for ArrayInit<'a> {
    ghost View = { IndexModel × IndexModel };

    ghost view = { plain array_init_view };

    ghost grammar = { index_pair };

    fn parse(parser: &mut Parser<'a>) -> Result<Self> {
        let (array, segment) = index_pair(parser)?;
        Ok(ArrayInit { array, segment })
    }
}

/// An array type, and the length, an unsigned number of 32 bits. Returns Range, at the number, if
/// the number has a `-` or is too large.
impl<'a> Parse<'a> for ArrayNewFixed<'a> {
    ghost View = { IndexModel × ℕ };

    ghost view = { plain array_new_fixed_view };

    ghost grammar = { array_of_length };

    #[tactic(auto, unfolding(crate::specs::Aggregates::array_of_length))]
    fn parse(parser: &mut Parser<'a>) -> Result<Self> {
        let array = Index::parse(parser)?;
        let length = u32::parse(parser)?;
        Ok(ArrayNewFixed { array, length })
    }
}

/// An array type, and a data segment.
impl<'a> Parse<'a> for ArrayNewData<'a> {
    ghost View = { IndexModel × IndexModel };

    ghost view = { plain array_new_data_view };

    ghost grammar = { index_pair };

    fn parse(parser: &mut Parser<'a>) -> Result<Self> {
        let (array, data_idx) = index_pair(parser)?;
        Ok(ArrayNewData { array, data_idx })
    }
}

/// An array type, and an element segment.
impl<'a> Parse<'a> for ArrayNewElem<'a> {
    ghost View = { IndexModel × IndexModel };

    ghost view = { plain array_new_elem_view };

    ghost grammar = { index_pair };

    fn parse(parser: &mut Parser<'a>) -> Result<Self> {
        let (array, elem_idx) = index_pair(parser)?;
        Ok(ArrayNewElem { array, elem_idx })
    }
}

//! The operand of an indirect call.

ghost use Rattle.wat_types.specs.Prelude.{Copies, owning};
ghost use Rattle.wat_operands.specs.Call.{CallIndirectModel, call_view, heapless_call, call_indirect, SameCall};

use crate::block::read_signature;
use crate::tables::index_or_0;
use wat_tokens::{Fault, Index, Parse, Parser, Result};
use wat_types::{FunctionType, TypeUse};

/// The operand of `call_indirect` and `return_call_indirect` (WebAssembly Core Specification, Text
/// Format, Instructions, "Control Instructions").
#[derive(Debug, Drop)]
pub struct CallIndirect<'a> {
    /// The table that holds the function. If the text has no table index, this is table 0, with the
    /// span of the token before the operand.
    pub table: Index<'a>,
    /// The type of the function. Its parameters have neither identifiers nor names.
    pub ty: TypeUse<'a, FunctionType<'a>>,
}

impl<'a> CallIndirect<'a> {
    /// Returns a copy. Returns Memory only if the inline type has a parameter or a result.
    pub fn clone(&self) -> Result<CallIndirect<'a>>
        ensures copies { Copies SameCall (owning call_view heapless_call) result self.now }
    {
        Ok(CallIndirect {
            table: self.table,
            ty: self.ty.clone()?,
        })
    }
}

/// An optional index, and a type use of a function type without parameter names.
impl<'a> Parse<'a> for CallIndirect<'a> {
    ghost View = { CallIndirectModel };

    ghost view = { owning call_view heapless_call };

    ghost grammar = { call_indirect };

    #[tactic(auto, unfolding(crate::specs::Call::call_indirect))]
    fn parse(parser: &mut Parser<'a>) -> Result<Self> {
        let table = index_or_0(parser)?;
        let ty = read_signature(parser)?;
        Ok(CallIndirect { table, ty })
    }
}

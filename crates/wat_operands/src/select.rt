//! The operand of `select`.

ghost use Rattle.std.specs.Prelude.{List, Option};
ghost use Rattle.wat_types.specs.Prelude.{Copies, plain, owning, ValTypeModel, val_view};
ghost use Rattle.wat_operands.specs.Select.{select_view, heapless_select, result_follows, select_types, SameTypes};
ghost use Rattle.wat_operands.specs.ResultGroup.{result_group};

use wat_tokens::repeat::{Group, groups, rest_of_group};
use wat_tokens::{Fault, Parse, Parser, Result};
use wat_types::ValType;

/// The result types of a `select` (WebAssembly Core Specification, Text Format, Instructions,
/// "Parametric Instructions").
#[derive(Debug, Drop)]
pub struct SelectTypes<'a> {
    /// The types of all `( result .. )` groups, in order; None if the text has no group.
    pub tys: Option<Vec<ValType<'a>>>,
}

/// Groups `( result ValType* )`, as long as the second token is `result`.
struct ResultGroup;

impl<'a> Group<'a, ValType<'a>> for ResultGroup {
    ghost View = { ValTypeModel };

    ghost view = { plain val_view };

    ghost grammar = { result_group };

    ghost follows = { result_follows };

    fn follows(parser: &Parser<'a>) -> bool {
        parser.second_is("result")
    }

    #[tactic(auto, using(wat_types::specs::Laws::Value::val_type_consumes), unfolding(wat_types::specs::Group::val_types))]
    fn take(parser: &mut Parser<'a>, out: &mut Vec<ValType<'a>>) -> Result<()> {
        parser.open()?;
        parser.keyword("result")?;
        rest_of_group::<ValType>(parser, out)?;
        parser.close()?;
        Ok(())
    }
}

impl<'a> SelectTypes<'a> {
    /// Returns a copy. Returns Memory only if `tys` has a type.
    pub fn clone(&self) -> Result<SelectTypes<'a>>
        ensures copies { Copies (λ x y. SameTypes x.tys y.tys) (owning select_view heapless_select)
            result self.now }
    {
        match &self.tys {
            Some(types) => {
                let mut tys = Vec::new(*types.allocator());
                tys.extend_from_slice(types)?;
                Ok(SelectTypes { tys: Some(tys) })
            }
            None => Ok(SelectTypes { tys: None }),
        }
    }
}

/// Groups `( result ValType* )`, as long as the second token is `result`, for any first token.
/// `tys` is None if no group follows, and otherwise the types of all groups.
impl<'a> Parse<'a> for SelectTypes<'a> {
    ghost View = { Option (List ValTypeModel) };

    ghost view = { owning select_view heapless_select };

    ghost grammar = { select_types };

    #[tactic(auto, using(wat_tokens::specs::Laws::Joined::joined_reads, crate::specs::Laws::Select::result_group_consumes), unfolding(crate::specs::Select::select_types))]
    fn parse(parser: &mut Parser<'a>) -> Result<Self> {
        if !ResultGroup::follows(parser) {
            return Ok(SelectTypes { tys: None });
        }
        let mut tys = Vec::new(parser.alloc());
        groups::<_, ResultGroup>(parser, &mut tys)?;
        Ok(SelectTypes { tys: Some(tys) })
    }
}

//! Casts of references, and branches on them (WebAssembly Core Specification, Text Format,
//! Instructions, "Reference Instructions" and "Control Instructions").

ghost use Rattle.wat_types.specs.Prelude.{RefTypeModel, ref_type, Reads, plain};
ghost use Rattle.wat_operands.specs.Casts.{test_view, cast_view, cast_desc_eq_view, CastBranchModel, branch_view, branch_fail_view, branch_desc_eq_view, branch_desc_eq_fail_view, branch_between, cast_branch};

use wat_tokens::{Index, Parse, Parser, Result};
use wat_types::RefType;

/// The operand of `ref.test` ("Reference Instructions").
#[derive(Clone, Debug, Drop)]
pub struct RefTest<'a> {
    /// The type to test for.
    pub type_: RefType<'a>,
}

/// The operand of `ref.cast` ("Reference Instructions").
#[derive(Clone, Debug, Drop)]
pub struct RefCast<'a> {
    /// The type to cast to.
    pub type_: RefType<'a>,
}

/// The operand of `ref.cast_desc_eq` (proposal on custom descriptors).
#[derive(Clone, Debug, Drop)]
pub struct RefCastDescEq<'a> {
    /// The type to cast to.
    pub type_: RefType<'a>,
}

/// The operand of `br_on_cast` ("Control Instructions").
#[derive(Clone, Debug, Drop)]
pub struct BrOnCast<'a> {
    /// The label to branch to.
    pub label: Index<'a>,
    /// The type to cast from.
    pub from_type: RefType<'a>,
    /// The type to cast to.
    pub to_type: RefType<'a>,
}

/// The operand of `br_on_cast_fail` ("Control Instructions").
#[derive(Clone, Debug, Drop)]
pub struct BrOnCastFail<'a> {
    /// The label to branch to.
    pub label: Index<'a>,
    /// The type to cast from.
    pub from_type: RefType<'a>,
    /// The type to cast to.
    pub to_type: RefType<'a>,
}

/// The operand of `br_on_cast_desc_eq` (proposal on custom descriptors).
#[derive(Clone, Debug, Drop)]
pub struct BrOnCastDescEq<'a> {
    /// The label to branch to.
    pub label: Index<'a>,
    /// The type to cast from.
    pub from_type: RefType<'a>,
    /// The type to cast to.
    pub to_type: RefType<'a>,
}

/// The operand of `br_on_cast_desc_eq_fail` (proposal on custom descriptors).
#[derive(Clone, Debug, Drop)]
pub struct BrOnCastDescEqFail<'a> {
    /// The label to branch to.
    pub label: Index<'a>,
    /// The type to cast from.
    pub from_type: RefType<'a>,
    /// The type to cast to.
    pub to_type: RefType<'a>,
}

/// A reference type.
impl<'a> Parse<'a> for RefTest<'a> {
    ghost View = { RefTypeModel };

    ghost view = { plain test_view };

    ghost grammar = { ref_type };

    fn parse(parser: &mut Parser<'a>) -> Result<Self> {
        Ok(RefTest {
            type_: RefType::parse(parser)?,
        })
    }
}

/// A reference type.
impl<'a> Parse<'a> for RefCast<'a> {
    ghost View = { RefTypeModel };

    ghost view = { plain cast_view };

    ghost grammar = { ref_type };

    fn parse(parser: &mut Parser<'a>) -> Result<Self> {
        Ok(RefCast {
            type_: RefType::parse(parser)?,
        })
    }
}

/// A reference type.
impl<'a> Parse<'a> for RefCastDescEq<'a> {
    ghost View = { RefTypeModel };

    ghost view = { plain cast_desc_eq_view };

    ghost grammar = { ref_type };

    fn parse(parser: &mut Parser<'a>) -> Result<Self> {
        Ok(RefCastDescEq {
            type_: RefType::parse(parser)?,
        })
    }
}

/// Parses a label, the type to cast from and the type to cast to.
#[tactic(auto, unfolding(crate::specs::Casts::cast_branch))]
fn branch<'a>(parser: &mut Parser<'a>) -> Result<(Index<'a>, RefType<'a>, RefType<'a>)>
    ensures reads { Reads (plain (λ b. branch_between b.0 b.1 b.2)) cast_branch result parser.old
        parser.new }
{
    let label = Index::parse(parser)?;
    let from_type = RefType::parse(parser)?;
    let to_type = RefType::parse(parser)?;
    Ok((label, from_type, to_type))
}

/// A label, the type to cast from and the type to cast to.
impl<'a> Parse<'a> for BrOnCast<'a> {
    ghost View = { CastBranchModel };

    ghost view = { plain branch_view };

    ghost grammar = { cast_branch };

    fn parse(parser: &mut Parser<'a>) -> Result<Self> {
        let (label, from_type, to_type) = branch(parser)?;
        Ok(BrOnCast {
            label,
            from_type,
            to_type,
        })
    }
}

/// A label, the type to cast from and the type to cast to.
impl<'a> Parse<'a> for BrOnCastFail<'a> {
    ghost View = { CastBranchModel };

    ghost view = { plain branch_fail_view };

    ghost grammar = { cast_branch };

    fn parse(parser: &mut Parser<'a>) -> Result<Self> {
        let (label, from_type, to_type) = branch(parser)?;
        Ok(BrOnCastFail {
            label,
            from_type,
            to_type,
        })
    }
}

/// A label, the type to cast from and the type to cast to.
impl<'a> Parse<'a> for BrOnCastDescEq<'a> {
    ghost View = { CastBranchModel };

    ghost view = { plain branch_desc_eq_view };

    ghost grammar = { cast_branch };

    fn parse(parser: &mut Parser<'a>) -> Result<Self> {
        let (label, from_type, to_type) = branch(parser)?;
        Ok(BrOnCastDescEq {
            label,
            from_type,
            to_type,
        })
    }
}

/// A label, the type to cast from and the type to cast to.
impl<'a> Parse<'a> for BrOnCastDescEqFail<'a> {
    ghost View = { CastBranchModel };

    ghost view = { plain branch_desc_eq_fail_view };

    ghost grammar = { cast_branch };

    fn parse(parser: &mut Parser<'a>) -> Result<Self> {
        let (label, from_type, to_type) = branch(parser)?;
        Ok(BrOnCastDescEqFail {
            label,
            from_type,
            to_type,
        })
    }
}

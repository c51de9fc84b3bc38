//! The memory ordering of atomic accesses.

ghost use Rattle.wat_tokens.specs.Views.{plain, holding};
ghost use Rattle.wat_operands.specs.Ordering.{ordering, at_ordering, ordered_view, ordered};

use wat_tokens::{Cursor, Parse, Parser, Peek, Result};

/// The memory ordering of an atomic access (WebAssembly Core Specification, Text Format,
/// Instructions, "Memory Instructions", with the proposals on threads).
#[derive(Clone, Copy, Debug, PartialEq, Eq, Hash)]
pub enum Ordering {
    /// `acqrel`: acquire and release. A load acquires; a store releases.
    AcqRel,
    /// `seqcst`: sequentially consistent. The same as `acqrel`, and all threads see all accesses
    /// with this ordering in the same order.
    SeqCst,
}

/// The memory ordering of an atomic access, and its operand (WebAssembly Core Specification, Text
/// Format, "Instructions", with the proposals on threads).
#[derive(Clone, Debug, Drop)]
pub struct Ordered<T> {
    /// The ordering.
    pub ordering: Ordering,
    /// The operand.
    pub inner: T,
}

/// `seqcst` or `acqrel`.
impl<'a> Parse<'a> for Ordering {
    ghost use Rattle.wat_operands.specs.declared.ordering.Ordering.{Ordering};

    ghost View = { Ordering };

    ghost view = { plain (λ o. o) };

    ghost grammar = { ordering };

    #[tactic(auto, unfolding(crate::specs::Ordering::ordering))]
    fn parse(parser: &mut Parser<'a>) -> Result<Self> {
        if parser.flag("seqcst") {
            return Ok(Ordering::SeqCst);
        }
        parser.keyword("acqrel")?;
        Ok(Ordering::AcqRel)
    }
}

/// `seqcst` or `acqrel`.
impl Peek for Ordering {
    ghost begins = { at_ordering };

    fn peek(cursor: Cursor<'_>) -> bool {
        cursor.keyword_is("seqcst") || cursor.keyword_is("acqrel")
    }

    fn display() -> &'static str {
        "ordering"
    }
}

/// An ordering, and then an operand.
impl<'a, T: Parse<'a> + Drop> Parse<'a> for Ordered<T> {
    ghost use Rattle.wat_operands.specs.declared.ordering.Ordering.{Ordering};

    ghost View = { Ordering × T.View };

    ghost view = { holding T.view (ordered_view T.view.of) (λ v. T.view.heapless v.1) };

    ghost cost = { T.cost };

    ghost grammar = { ordered T.grammar };

    fn parse(parser: &mut Parser<'a>) -> Result<Self> {
        let ordering = Ordering::parse(parser)?;
        let inner = T::parse(parser)?;
        Ok(Ordered { ordering, inner })
    }
}

//! The operand of `try_table`, with its catch clauses.

ghost use Rattle.std.specs.Prelude.{◌≡◌, false};
ghost use Rattle.wat_types.specs.Prelude.{option_map, sem, Copies, index_view, Reads, plain, owning};
ghost use Rattle.wat_operands.specs.Catches.{caught_tag, LendsTag, catch_kind_view, catch_view, begins_catch, TryTableModel, try_view, try_table, SameTry};
ghost use Rattle.wat_operands.specs.CatchClause.{CatchModel, catch_kind, catch_clause};

use crate::block::BlockType;
use wat_tokens::repeat::{Part, parts};
use wat_tokens::{Fault, Index, Parse, Parser, Result};

/// The exceptions that a catch clause catches, with a tag of type `I` (WebAssembly Core
/// Specification, Text Format, Instructions, "Control Instructions").
#[derive(Clone, Debug, Drop)]
pub enum CatchKind<I> {
    /// `catch`: exceptions with this tag, without a reference to the exception.
    Catch(I),
    /// `catch_ref`: exceptions with this tag, with a reference to the exception.
    CatchRef(I),
    /// `catch_all`: every exception, without a reference to the exception.
    CatchAll,
    /// `catch_all_ref`: every exception, with a reference to the exception.
    CatchAllRef,
}

/// The exceptions that a clause of a `try_table` catches.
pub type TryTableCatchKind<'a> = CatchKind<Index<'a>>;

impl<I> CatchKind<I> {
    /// Returns the tag of `Catch` or `CatchRef`, or None for the other variants. A write through
    /// the reference changes only the tag.
    pub fn tag_index_mut(&mut self) -> Option<&mut I>
        ensures* writes_back { sem 𝓛 (LendsTag I.row self.entry result) }
        ensures value { caught_tag self.old ≡ option_map (λ r. r.now) result }
    {
        match self {
            CatchKind::Catch(tag) => Some(tag),
            CatchKind::CatchRef(tag) => Some(tag),
            CatchKind::CatchAll => None,
            CatchKind::CatchAllRef => None,
        }
    }
}

/// A catch clause of a `try_table` (WebAssembly Core Specification, Text Format, Instructions,
/// "Control Instructions").
#[derive(Clone, Debug, Drop)]
pub struct TryTableCatch<'a> {
    /// The exceptions that the clause catches.
    pub kind: TryTableCatchKind<'a>,
    /// The label that the clause branches to.
    pub label: Index<'a>,
}

/// The operand of `try_table`: a block type and catch clauses (WebAssembly Core Specification, Text
/// Format, Instructions, "Control Instructions").
#[derive(Debug, Drop)]
pub struct TryTable<'a> {
    /// The block type.
    pub block: Box<BlockType<'a>>,
    /// The catch clauses, in order.
    pub catches: Vec<TryTableCatch<'a>>,
}

/// Parses the keyword of a clause, and the tag for `catch` and `catch_ref`.
#[tactic(auto, unfolding(crate::specs::CatchClause::catch_kind))]
fn read_catch_kind<'a>(parser: &mut Parser<'a>) -> Result<TryTableCatchKind<'a>>
    ensures reads { Reads (plain (catch_kind_view index_view)) catch_kind result parser.old
        parser.new }
{
    if parser.flag("catch") {
        return Index::parse(parser).map(CatchKind::Catch);
    }
    if parser.flag("catch_ref") {
        return Index::parse(parser).map(CatchKind::CatchRef);
    }
    if parser.flag("catch_all") {
        return Ok(CatchKind::CatchAll);
    }
    parser.keyword("catch_all_ref")?;
    Ok(CatchKind::CatchAllRef)
}

/// `( catch idx idx )`, `( catch_ref idx idx )`, `( catch_all idx )` or `( catch_all_ref idx )`,
/// as long as a group begins with one of these words: the tag first, the label last.
struct Clause;

impl<'a> Part<'a, TryTableCatch<'a>> for Clause {
    ghost View = { CatchModel };

    ghost view = { plain catch_view };

    ghost grammar = { catch_clause };

    ghost follows = { begins_catch };

    fn follows(parser: &Parser<'a>) -> bool {
        (parser.group_is("catch") || parser.group_is("catch_ref"))
            || (parser.group_is("catch_all") || parser.group_is("catch_all_ref"))
    }

    #[tactic(auto, unfolding(crate::specs::CatchClause::catch_clause))]
    fn take(parser: &mut Parser<'a>) -> Result<TryTableCatch<'a>> {
        parser.open()?;
        let kind = read_catch_kind(parser)?;
        let label = Index::parse(parser)?;
        parser.close()?;
        Ok(TryTableCatch { kind, label })
    }
}

impl<'a> TryTable<'a> {
    /// Returns a copy. Can return Memory, because the block type is in a box.
    pub fn clone(&self) -> Result<TryTable<'a>>
        ensures copies { Copies SameTry (owning try_view (λ _. false)) result self.now }
    {
        let alloc = *self.catches.allocator();
        let block = BlockType::clone(&self.block)?;
        let block = Box::new(alloc, block)?;
        let mut catches = Vec::new(alloc);
        catches.extend_with_clones(&self.catches)?;
        Ok(TryTable { block, catches })
    }
}

/// A [`BlockType`], and then all groups that begin with `catch`, `catch_ref`, `catch_all` or
/// `catch_all_ref`. It is an error if such a group isn't a valid clause, for example if its label
/// is missing.
impl<'a> Parse<'a> for TryTable<'a> {
    ghost View = { TryTableModel };

    ghost view = { owning try_view (λ _. false) };

    ghost grammar = { try_table };

    #[tactic(auto, using(crate::specs::Laws::Catches::catch_clause_consumes), unfolding(crate::specs::Catches::try_table))]
    fn parse(parser: &mut Parser<'a>) -> Result<Self> {
        let block = Box::<BlockType>::parse(parser)?;
        let mut catches = Vec::new(parser.alloc());
        parts::<_, Clause>(parser, &mut catches)?;
        Ok(TryTable { block, catches })
    }
}

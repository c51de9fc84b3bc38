//! The open groups of an expression.

ghost use Rattle.std.specs.Prelude.{◌≡◌, ◌<◌, ◌∷◌, ◌++◌, [], List, MatchBool, MatchResult, length};
ghost use Rattle.wat_instr.specs.Prelude.{vec_len, vec_capacity, Steady};
ghost use Rattle.wat_expr.specs.Closed.{Pops, Releases};
ghost use Rattle.wat_expr.specs.Flat.{flat};
ghost use Rattle.wat_expr.specs.OpenGroups.{heads_in, open_groups, waiting, TopIs};
ghost use Rattle.wat_expr.specs.Progress.{TakesPlain};
ghost use Rattle.wat_expr.specs.Taken.{ReadsBehind};

use crate::expression::Expression;
use crate::take::{make_room, read_behind, refuse};
use std::alloc::Global;
use std::marker::Model;
use wat_instr::{Instruction, Op};
use wat_tokens::{Fault, Parser, Result, Span};

/// The kind of an open group.
#[derive(Clone, Copy, Debug)]
pub(crate) enum Kind {
    /// A folded instruction. In the flat list, it comes after the contents of its group.
    Folded,
    /// A block. An `end` is added at its `)`.
    Block,
    /// An `if`, before its `( then`.
    If,
    /// An `if`, after its `( then .. )`.
    AfterThen,
    /// An `if`, after its `( else .. )`.
    AfterElse,
    /// A `( then` or `( else`.
    Arm,
}

impl Kind {
    /// Returns whether an instruction waits in the group.
    #[inline(always)]
    fn holds(self) -> bool
        ensures { MatchBool result (waiting (self ∷ []) ≡ 1) (waiting (self ∷ []) ≡ 0) }
    {
        match self {
            Kind::Folded => true,
            Kind::If => true,
            Kind::Block => false,
            Kind::AfterThen => false,
            Kind::AfterElse => false,
            Kind::Arm => false,
        }
    }
}

/// The span and the hint of an instruction that waits for the end of its operands.
#[derive(Clone, Copy, Debug)]
pub(crate) struct Mark {
    /// The span of the instruction's keyword.
    pub span: Span,
    /// The hint directly before the instruction's item.
    pub hint: Option<u32>,
}

/// The open groups. Contracts see them as a list, the innermost group first.
///
/// Kinds and instructions are in separate lists, because most groups hold no instruction.
/// Instructions and marks are in separate lists, because an instruction is built in place.
#[derive(Drop)]
pub(crate) struct OpenGroups<'a> {
    kinds: Vec<Kind>,
    heads: Vec<Instruction<'a>>,
    marks: Vec<Mark>,
}

impl<'a> Model for OpenGroups<'a> {
    ghost use Rattle.std.specs.Prelude.{List, map, reverse};
    ghost use Rattle.wat_instr.specs.Instruction.{instruction_view};
    ghost use Rattle.wat_expr.specs.OpenGroups.{OpenGroup, open_groups, EachHolds};

    ghost Value = { List OpenGroup };

    ghost view = { λ s. open_groups (reverse s.kinds.items) (reverse (map instruction_view
        s.heads.items)) (reverse s.marks.items) };

    ghost invariant = { λ s. EachHolds (reverse s.kinds.items) (reverse (map instruction_view
        s.heads.items)) (reverse s.marks.items) };
}

/// Moves the last waiting instruction to the end of `out`, with its hint and span. `out` has room
/// for the instruction. The only error is Memory, for the hint or the span.
#[inline(always)]
fn release<'a>(
    heads: &mut Vec<Instruction<'a>>,
    marks: &mut Vec<Mark>,
    out: &mut Expression<'a>,
) -> Result<()>
    requires heads { 0 < length heads.old.items }
    requires marks { 0 < length marks.old.items }
    requires room { vec_len out.old.instrs < vec_capacity out.old.instrs }
    ensures { Releases result heads.old.items heads.new.items marks.old.items marks.new.items
        (flat out.old) (flat out.new) }
{
    let mark = marks.pop().unwrap();
    out.push_reserved(mark.hint, heads.pop().unwrap(), mark.span)
}

impl<'a> OpenGroups<'a> {
    /// Returns an empty list of open groups.
    pub(crate) fn new(alloc: Global) -> OpenGroups<'a>
        ensures { result ≡ [] }
    {
        OpenGroups {
            kinds: Vec::new(alloc),
            heads: Vec::new(alloc),
            marks: Vec::new(alloc),
        }
    }

    /// Returns whether no group is open.
    #[tactic(auto, using(crate::proofs::OpenGroups::top_some))]
    pub(crate) fn is_empty(&self) -> bool
        ensures { MatchBool result (self.now ≡ []) (self.now ≡ [] → ⊥) }
    {
        match self.top() {
            None => true,
            Some(_) => false,
        }
    }

    /// Returns the number of open groups.
    #[tactic(auto, using(crate::proofs::OpenGroups::height_is))]
    pub(crate) fn height(&self) -> usize
        ensures { result ≡ length self.now }
    {
        self.kinds.len()
    }

    /// Returns the number of waiting instructions.
    #[tactic(auto, using(crate::proofs::OpenGroups::held_is))]
    pub(crate) fn held(&self) -> usize
        ensures { result ≡ heads_in self.now }
    {
        self.heads.len()
    }

    /// Returns the kind of the innermost group, or None if no group is open.
    pub(crate) fn top(&self) -> Option<Kind>
        ensures { TopIs result self.now }
    {
        self.kinds.last().copied()
    }

    /// Returns whether an instruction outside parentheses can be directly in the innermost group.
    pub(crate) fn takes_plain(&self) -> bool
        ensures { MatchBool result (TakesPlain self.now) (TakesPlain self.now → ⊥) }
    {
        match self.top() {
            Some(Kind::If) => false,
            Some(Kind::AfterThen) => false,
            Some(Kind::AfterElse) => false,
            _ => true,
        }
    }

    /// Removes the innermost group, and returns its kind. If an instruction waits in the group, it
    /// is appended to `out`. The only error is Memory.
    #[inline(always)]
    #[tactic(auto, using(crate::proofs::OpenGroups::some_kind))]
    pub(crate) fn pop(&mut self, out: &mut Expression<'a>) -> Result<Kind>
        requires { self.old ≡ [] → ⊥ }
        ensures { Pops result self.old self.new (flat out.old) (flat out.new) }
    {
        make_room(&mut out.instrs)?;
        let kind = self.kinds.pop().unwrap();
        if kind.holds() {
            match release(&mut self.heads, &mut self.marks, out) {
                Ok(()) => return Ok(kind),
                Err(refused) => return Err(refused),
            }
        }
        Ok(kind)
    }

    /// Opens a group of a kind that holds no instruction. The only error is Memory.
    #[inline(always)]
    pub(crate) fn enter(&mut self, kind: Kind) -> Result<()>
        requires { waiting (kind ∷ []) ≡ 0 }
        ensures { MatchResult result (λ _. self.new ≡ open_groups (kind ∷ []) [] [] ++ self.old)
            (λ e. e.fault ≡ Fault.Memory) }
    {
        self.kinds.push(kind)?;
        Ok(())
    }

    /// Opens a group of a kind that holds an instruction. The keyword of the instruction was taken;
    /// its operand is read here, and the instruction waits in the group. The error is the first
    /// error of the operand, or Memory.
    #[inline(always)]
    pub(crate) fn hold(
        &mut self,
        kind: Kind,
        op: Op,
        parser: &mut Parser<'a>,
        mark: Mark,
    ) -> Result<()>
        requires { waiting (kind ∷ []) ≡ 1 }
        ensures exact { ReadsBehind op (λ i. self.new ≡ open_groups (kind ∷ []) (i ∷ [])
            (mark ∷ []) ++ self.old) result parser.old.left parser.new.left }
        ensures steady { Steady parser.old parser.new }
    {
        self.kinds.reserve(1)?;
        self.marks.reserve(1)?;
        match read_behind(op, parser, &mut self.heads) {
            Ok(()) => {
                self.kinds.push_reserved(kind);
                self.marks.push_reserved(mark);
                Ok(())
            }
            Err(refused) => refuse(refused),
        }
    }
}

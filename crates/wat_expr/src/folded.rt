//! Folded instructions of any kind, for the elements of element segments and inline tables.

ghost use Rattle.std.specs.Prelude.{◌≡◌, ◌∷◌, ℕ, List, Option, IfOk};
ghost use Rattle.wat_instr.specs.Prelude.{Accepts, Steady};
ghost use Rattle.wat_expr.specs.Prelude.{ExpressionModel, expression_view, heapless_expression, SpansAre, flat, Groups, folded_value, is_folded, folded_instruction, group_state, OpenGroup, InFolded, InstructionModel, turns_too, SameSettings, Gives, Token, owning};
ghost use Rattle.wat_expr.specs.GroupTurn.{GroupTurn, OpensBehind};
ghost use Rattle.wat_tokens.specs.Counts.{Counted};
ghost use Rattle.wat_expr.specs.ItemsRead.{IsFolded};

use crate::expression::Expression;
use crate::open_groups::{Kind, Mark, OpenGroups};
use crate::take::{take_close, take_op, take_open};
use wat_tokens::{Parse, Parser, Result};

/// Opens a group after its `(`. The next instruction waits in the group.
#[inline(always)]
fn open_group<'a>(open_groups: &mut OpenGroups<'a>, parser: &mut Parser<'a>) -> Result<()>
    ensures exact { OpensBehind result open_groups.old open_groups.new parser.old.left
        parser.new.left }
    ensures steady { Steady parser.old parser.new }
{
    match take_op(parser) {
        Ok(op) => {
            let span = parser.prev_span();
            let mark = Mark { span, hint: None };
            open_groups.hold(Kind::Folded, op, parser, mark)
        }
        Err(refused) => Err(refused),
    }
}

/// One turn in a folded group: either a group opens, or the innermost group closes. If the group
/// closes, its instruction is appended to `out`.
fn turn<'a>(
    open_groups: &mut OpenGroups<'a>,
    out: &mut Expression<'a>,
    parser: &mut Parser<'a>,
) -> Result<()>
    requires { (i : InstructionModel) × (h : Option ℕ) × (s : List OpenGroup)
        × (open_groups.old ≡ InFolded i h ∷ s) }
    ensures turned { GroupTurn result (group_state open_groups.old parser.old.left (flat out.old))
        (group_state open_groups.new parser.new.left (flat out.new)) }
    ensures steady { Steady parser.old parser.new }
{
    if take_open(parser) {
        return open_group(open_groups, parser);
    }
    if !take_close(parser) {
        return Err(parser.unexpected());
    }
    open_groups.pop(out)?;
    Ok(())
}

impl<'a> Expression<'a> {
    /// Parses one folded instruction: `(`, an instruction of any kind, folded instructions, `)`
    /// (WebAssembly Core Specification, Text Format, "Folded Instructions"). An element of an
    /// element segment can be abbreviated to such an instruction.
    ///
    /// In the flat list, an instruction comes after the other instructions of its group. A block
    /// gets no `end`. Hints are not allowed.
    ///
    /// The errors, each at the next token:
    ///
    /// - Operator: an instruction's keyword is needed, and something else is next;
    /// - Unexpected: `(` or `)` is needed, and something else is next;
    /// - the errors of operands;
    /// - Memory.
    pub fn parse_folded_instruction(parser: &mut Parser<'a>) -> Result<Expression<'a>>
        // The result is the expression that the next tokens spell, and the tokens after them are
        // left. If the next tokens spell an expression, the only error is Memory.
        ensures exact { Gives (owning expression_view heapless_expression) result
            (folded_instruction.reads parser.old.left) parser.new.left }
        // If the next tokens list one group, the result is that group. The only error is then
        // Memory.
        ensures only { (i : InstructionModel) (gs : Groups) (r : List Token) → is_folded i gs
            parser.old.left r
            → Accepts (owning expression_view heapless_expression) result (folded_value i gs)
            parser.new.left r }
        // The taken tokens are one group. The counters cover its number and depth of groups.
        ensures listed { IfOk result (λ e. IsFolded parser.old parser.new e) }
        ensures spans { IfOk result (λ e. SpansAre parser.old.tracks e) }
        ensures counts { Counted result parser.old parser.new }
        ensures settings { SameSettings parser.old parser.new }
    {
        let mut open_groups = OpenGroups::new(parser.alloc());
        let mut out = Expression::empty(parser.alloc(), parser.tracks());
        parser.open()?;
        open_group(&mut open_groups, parser)?;
        parser.note_height(open_groups.height());
        parser.note_held(open_groups.held());
        'groups: while !open_groups.is_empty() {
            parser.tick();
            turn(&mut open_groups, &mut out, parser)?;
            parser.note_height(open_groups.height());
            parser.note_held(open_groups.held());
        }
        out.instrs.shrink_to_fit();
        Ok(out)
    }
}

/// The expression of one folded instruction of any kind, parsed by
/// [`Expression::parse_folded_instruction`].
#[derive(Drop)]
pub struct FoldedInstruction<'a>(pub Expression<'a>);

impl<'a> Parse<'a> for FoldedInstruction<'a> {
    ghost View = { ExpressionModel };

    ghost view = { owning (λ folded. expression_view folded.0) heapless_expression };

    ghost cost = { turns_too };

    ghost grammar = { folded_instruction };

    fn parse(parser: &mut Parser<'a>) -> Result<Self> {
        Expression::parse_folded_instruction(parser).map(FoldedInstruction)
    }
}

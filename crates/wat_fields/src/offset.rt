//! The offset of an active data segment.

ghost use Rattle.std.specs.Prelude.{false, ◌&&◌, codes, IfOk};
ghost use Rattle.wat_expr.specs.Prelude.{turns_too, expression_view, heapless_expression, SpansAre, expression, seq, ReadsAt, begins_word, owning};
ghost use Rattle.wat_fields.specs.Offset.{head_last, offset_inside};
ghost use Rattle.wat_fields.specs.Spans.{OffsetSpansAre};

use wat_expr::Expression;
use wat_instr::Instruction;
use wat_tokens::{Parse, Parser, Result};

/// Parses a value, and the expression directly after the value.
///
/// The value's type is a parameter, as in [`wat_tokens::enclosed`]: the proof of a body is slow if
/// the body holds a value of a large type across a call that can refuse.
fn read_before_items<'a, T: Parse<'a> + Drop>(
    parser: &mut Parser<'a>,
) -> Result<(T, Expression<'a>)>
    ensures reads { ReadsAt turns_too (owning (λ v. (T.view.of v.0, expression_view v.1))
        (λ v. T.view.heapless v.0 && heapless_expression v.1)) (seq T.grammar expression) result
        parser.old
        parser.new }
    ensures spans { IfOk result (λ v. SpansAre parser.old.tracks v.1) }
{
    let value = T::parse(parser)?;
    let items = Expression::parse(parser)?;
    Ok((value, items))
}

/// Parses an instruction and items, up to the end of the group. In the expression the instruction
/// comes after the instructions of the items, and its span after their spans. Without items, the
/// expression has one instruction and no spans.
#[tactic(auto, using(crate::proofs::Heads::never_heapless), unfolding(crate::specs::Offset::head_last))]
fn read_head_last<'a>(parser: &mut Parser<'a>) -> Result<Expression<'a>>
    ensures reads { ReadsAt turns_too (owning expression_view heapless_expression) head_last result
        parser.old parser.new }
    ensures spans { IfOk result (λ e. OffsetSpansAre false parser.old.tracks e) }
{
    let span = parser.cur_span();
    let (head, mut offset) = read_before_items::<Instruction>(parser)?;
    if offset.instrs.is_empty() {
        offset.instr_spans = None;
    }
    offset.put_last(head, span)?;
    Ok(offset)
}

/// Parses the contents of an offset's group: `offset` and an expression, or the abbreviation, an
/// instruction and items.
#[tactic(auto, unfolding(crate::specs::Offset::offset_inside))]
pub(crate) fn read_offset<'a>(parser: &mut Parser<'a>) -> Result<Expression<'a>>
    ensures reads { ReadsAt turns_too (owning expression_view heapless_expression) offset_inside
        result
        parser.old parser.new }
    ensures spans { IfOk result (λ e. OffsetSpansAre (begins_word (codes "offset") parser.old.left)
        parser.old.tracks e) }
{
    if parser.flag("offset") {
        return Expression::parse(parser);
    }
    read_head_last(parser)
}

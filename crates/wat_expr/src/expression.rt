//! Expressions and branch hints.

ghost use Rattle.std.specs.Prelude.{◌≡◌, ◌<◌, [], ◌∷◌, ◌++◌, List, Option, map, None, true, IfOk, IfErr, MatchResult};
ghost use Rattle.wat_instr.specs.Prelude.{vec_len, vec_capacity, instruction_view, end_instr, turns_too, Accepts, ReadsAt, Steady, ends, Token, owning};
ghost use Rattle.wat_expr.specs.Expression.{ExpressionModel, hint_view, expression_view, heapless_expression, value_of, SpansAre, kept_spans, and_span};
ghost use Rattle.wat_expr.specs.Flat.{span_count, flat, no_output, one_more, push};
ghost use Rattle.wat_expr.specs.Items.{Items, lists, mark};
ghost use Rattle.wat_expr.specs.ItemsRead.{IsListed};
ghost use Rattle.wat_expr.specs.Taken.{ReadsBehind};
ghost use Rattle.wat_expr.specs.ExpressionProduction.{expression};

use crate::reader::Reader;
use crate::take::read_behind;
use std::alloc::Global;
use wat_instr::{Instruction, LabelOp, Op};
use wat_tokens::ownership::push_into;
use wat_tokens::{Error, Fault, Parse, Parser, Result, Span};

/// A branch hint: whether a branch is likely to be taken (Branch Hinting, Custom Annotation
/// `@metadata.code.branch_hint`).
#[derive(Debug, Drop)]
pub struct BranchHint {
    /// The index of the hint's instruction in [`Expression::instrs`].
    pub instr_index: usize,
    /// 1 if the branch is likely to be taken, 0 if it isn't.
    pub value: u32,
}

/// Instructions as one flat list (WebAssembly Core Specification, Text Format, Instructions,
/// "Expressions").
///
/// A folded instruction comes after its operands. A block or an `if` that was written as a group is
/// followed by an added `end` (Text Format, "Folded Instructions").
#[derive(Debug)]
pub struct Expression<'a> {
    /// The instructions, in order.
    pub instrs: Vec<Instruction<'a>>,
    /// The branch hints, in rising order of their instructions.
    pub branch_hints: Vec<BranchHint>,
    /// The span of each instruction if the parser keeps spans
    /// ([`Parser::track_instr_spans`]), else `None`. A span is the byte offset of the instruction's
    /// keyword from the start of the text. An added `end` has the span of the `)` of its group.
    pub instr_spans: Option<Vec<Span>>,
}

/// This implementation is not derived, so that it is proved once, here. With a derived one, each
/// crate that drops an expression would prove the drop of each part again.
impl Drop for Expression<'_> {
    fn drop(self) {
        let Expression {
            instrs: _,
            branch_hints: _,
            instr_spans: _,
        } = self;
    }
}

/// Appends a hint, if any, for the instruction at `index`. The only error is Memory.
fn add_hint(hints: &mut Vec<BranchHint>, hint: Option<u32>, index: usize) -> Result<()>
    ensures { MatchResult result (λ _. map hint_view hints.new.items
        ≡ map hint_view hints.old.items ++ mark hint index) (λ e. e.fault ≡ Fault.Memory) }
{
    match hint {
        Some(value) => {
            hints.push(BranchHint {
                instr_index: index,
                value,
            })?;
            Ok(())
        }
        None => Ok(()),
    }
}

/// Appends a span if spans are kept. The only error is Memory. After the error, the kept spans are
/// unchanged.
fn add_span(spans: &mut Option<Vec<Span>>, span: Span) -> Result<()>
    ensures kept { MatchResult result (λ _. kept_spans spans.new ≡ and_span span
        (kept_spans spans.old)) (λ e. (e.fault ≡ Fault.Memory)
        × (kept_spans spans.new ≡ kept_spans spans.old)) }
    ensures number { MatchResult result (λ _. span_count spans.new ≡ one_more
        (span_count spans.old)) (λ e. e.fault ≡ Fault.Memory) }
{
    match spans {
        Some(kept) => {
            kept.push(span)?;
            Ok(())
        }
        None => Ok(()),
    }
}

/// Removes the last span if spans are kept.
fn drop_span(spans: &mut Option<Vec<Span>>)
    ensures { (l : Option (List Span)) (s : Span) → kept_spans spans.old ≡ and_span s l
        → kept_spans spans.new ≡ l }
{
    if let Some(kept) = spans {
        kept.pop();
    }
}

impl<'a> Expression<'a> {
    /// Returns an expression of one instruction, without hints and spans. The only error is Memory.
    pub fn one(alloc: Global, instr: Instruction<'a>) -> Result<Expression<'a>>
        ensures value { IfOk result (λ e. e.instrs.items ≡ instr.entry ∷ []) }
        ensures hints { IfOk result (λ e. e.branch_hints.items ≡ []) }
        ensures spans { IfOk result (λ e. e.instr_spans ≡ None) }
        ensures memory { IfErr result (λ e. e.fault ≡ Fault.Memory) }
    {
        let mut instrs = Vec::new(alloc);
        push_into(&mut instrs, instr)?;
        Ok(Expression {
            instrs,
            branch_hints: Vec::new(alloc),
            instr_spans: None,
        })
    }

    /// Returns the fields: the instructions, the branch hints and the spans. This is the only way
    /// to move a field out of an expression.
    pub fn into_parts(self) -> (Vec<Instruction<'a>>, Vec<BranchHint>, Option<Vec<Span>>)
        ensures { result ≡ (self.entry.instrs, self.entry.branch_hints, self.entry.instr_spans) }
    {
        let Expression {
            instrs,
            branch_hints,
            instr_spans,
        } = self;
        (instrs, branch_hints, instr_spans)
    }

    /// Appends an instruction without a hint, and its span if spans are kept. The only error is
    /// Memory. After the error, the expression is unchanged.
    pub fn put_last(&mut self, instr: Instruction<'a>, span: Span) -> Result<()>
        ensures instrs { MatchResult result (λ _. self.new.instrs.items
            ≡ self.old.instrs.items ++ instr.entry ∷ []) (λ _. self.new.instrs.items
            ≡ self.old.instrs.items) }
        ensures spans { MatchResult result (λ _. kept_spans self.new.instr_spans ≡ and_span span
            (kept_spans self.old.instr_spans)) (λ _. kept_spans self.new.instr_spans
            ≡ kept_spans self.old.instr_spans) }
        ensures hints { self.new.branch_hints ≡ self.old.branch_hints }
        ensures memory { IfErr result (λ e. e.fault ≡ Fault.Memory) }
    {
        add_span(&mut self.instr_spans, span)?;
        match push_into(&mut self.instrs, instr) {
            Ok(()) => Ok(()),
            Err(error) => {
                drop_span(&mut self.instr_spans);
                Err(error)
            }
        }
    }

    /// Returns an expression without instructions. Spans are kept if `tracks` is true.
    pub(crate) fn empty(alloc: Global, tracks: bool) -> Expression<'a>
        ensures { flat result ≡ no_output tracks }
    {
        Expression {
            instrs: Vec::new(alloc),
            branch_hints: Vec::new(alloc),
            instr_spans: if tracks { Some(Vec::new(alloc)) } else { None },
        }
    }

    /// Appends an instruction, the hint directly before its item, and its span. The expression has
    /// room for the instruction. The only error is Memory, for the hint or the span.
    #[inline(always)]
    pub(crate) fn push_reserved(
        &mut self,
        hint: Option<u32>,
        instr: Instruction<'a>,
        span: Span,
    ) -> Result<()>
        requires { vec_len self.old.instrs < vec_capacity self.old.instrs }
        ensures { MatchResult result (λ _. flat self.new ≡ push hint (instruction_view instr.entry)
            (flat self.old)) (λ e. e.fault ≡ Fault.Memory) }
    {
        let index = self.instrs.len();
        self.instrs.push_reserved(instr);
        add_hint(&mut self.branch_hints, hint, index)?;
        add_span(&mut self.instr_spans, span)?;
        Ok(())
    }

    /// Appends an instruction without a hint, and its span. The only error is Memory.
    pub(crate) fn push(&mut self, instr: Instruction<'a>, span: Span) -> Result<()>
        ensures { MatchResult result (λ _. flat self.new ≡ push None (instruction_view instr.entry)
            (flat self.old)) (λ e. e.fault ≡ Fault.Memory) }
    {
        self.instrs.reserve(1)?;
        self.push_reserved(None, instr, span)
    }

    /// Parses the operand of an instruction after its keyword. Appends the instruction, the hint
    /// directly before its item, and its span. The error is the first error of the operand, or
    /// Memory.
    #[inline(always)]
    pub(crate) fn read(
        &mut self,
        op: Op,
        parser: &mut Parser<'a>,
        hint: Option<u32>,
        span: Span,
    ) -> Result<()>
        ensures exact { ReadsBehind op (λ i. flat self.new ≡ push hint i (flat self.old)) result
            parser.old.left parser.new.left }
        ensures steady { Steady parser.old parser.new }
    {
        let index = self.instrs.len();
        match read_behind(op, parser, &mut self.instrs) {
            Ok(()) => {
                add_hint(&mut self.branch_hints, hint, index)?;
                add_span(&mut self.instr_spans, span)?;
                Ok(())
            }
            Err(refused) => Err(refused),
        }
    }

    /// Appends an `end`. `span` is the span of the `)` of its group. The only error is Memory.
    pub(crate) fn push_end(&mut self, span: Span) -> Result<()>
        ensures { MatchResult result (λ _. flat self.new ≡ push None end_instr (flat self.old))
            (λ e. e.fault ≡ Fault.Memory) }
    {
        self.push(Instruction::Label(LabelOp::end, None), span)
    }
}

/// Parses items up to the end of the group or of the text (WebAssembly Core Specification, Text
/// Format, Instructions, "Expressions").
///
/// An item is one of:
///
/// - an instruction;
/// - a block: `(`, its instruction, items, `)`;
/// - an `if`: `(`, its instruction, groups, `( then` items `)`, `( else` items `)` or nothing, `)`;
/// - a folded instruction: `(`, the instruction, items, `)`.
///
/// If the standard annotations are known, a branch hint `(@metadata.code.branch_hint "v")` can
/// precede an item whose instruction is `br_if` or `if`. `v` is the byte 0 or 1.
///
/// The errors, each at the next token if no other place is named:
///
/// - Operator: an instruction's keyword is needed, and something else is next; or the text ends in
///   an open group;
/// - IfWithoutThen: an `if` closes without `( then`;
/// - IfTooMany: a group follows the `( else .. )` of an `if`;
/// - HintValue, at the string of a hint: the string isn't the byte 0 or 1;
/// - HintTwice, at the string of a hint: another hint directly precedes the hint;
/// - HintPlace: no item follows a hint;
/// - HintTarget, at the keyword of the instruction after a hint: the keyword is neither `br_if` nor
///   `if`. An error in the operand of the instruction comes first;
/// - the errors of operands (see [`Instruction`]);
/// - Memory, but never for an expression without instructions;
/// - Unexpected: anything else.
impl<'a> Parse<'a> for Expression<'a> {
    ghost View = { ExpressionModel };

    ghost view = { owning expression_view heapless_expression };

    ghost cost = { turns_too };

    ghost grammar = { expression };

    fn parse(parser: &mut Parser<'a>) -> Result<Self>
        ensures reads { ReadsAt turns_too (owning expression_view heapless_expression) expression
            result
            parser.old parser.new }
        // The taken tokens list items. The result has the unfolded instructions and the hints of
        // the items. The counters cover the number and depth of the items.
        ensures listed { IfOk result (λ e. IsListed parser.old parser.new e) }
        // If the next tokens list items up to the end, the result is the value of these items. The
        // only error is then Memory.
        ensures only { (xs : Items) (r : List Token) → lists xs parser.old.left r → ends r ≡ true
            → Accepts (owning expression_view heapless_expression) result (value_of xs)
            parser.new.left
            r }
        ensures spans { IfOk result (λ e. SpansAre parser.old.tracks e) }
    {
        let mut reader = Reader::new(parser.alloc(), parser.tracks());
        'turns: while !reader.is_done(parser) {
            parser.tick();
            reader.turn(parser)?;
            parser.note_height(reader.open_groups.height());
            parser.note_held(reader.open_groups.held());
        }
        match reader.pending {
            Some(_) => Err(Error::at(Fault::HintPlace, parser.cur_span())),
            None => {
                reader.out.instrs.shrink_to_fit();
                Ok(reader.out)
            }
        }
    }
}

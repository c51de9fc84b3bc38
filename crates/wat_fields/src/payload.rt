//! The elements of an element segment.

ghost use Rattle.std.specs.Prelude.{◌≡◌, ◌&&◌, false, map, All, IfOk, IfErr};
ghost use Rattle.wat_expr.specs.Prelude.{tokens_alone, turns_too, index_view, made, Reads, ReadsAt, begins_lparen, owning, no_items, ref_view, ExpressionModel, expression_view, heapless_expression, SpansAre};
ghost use Rattle.wat_fields.specs.Payload.{payload_view, heapless_payload, item_list, index_list, ref_func_of, is_funcref, of_type, elem_list, typed_elems, payload, payload_or_indices};
ghost use Rattle.wat_fields.specs.Item.{written_or_folded, item};
ghost use Rattle.wat_fields.specs.RefFuncs.{ref_funcs_of, plain_indices, indices_of};
ghost use Rattle.wat_fields.specs.RefFunc.{ref_func};
ghost use Rattle.wat_fields.specs.Spans.{PayloadSpansAre};

use crate::spanned::{Spanned, all_spanned};
use std::alloc::Global;
use wat_expr::Expression;
use wat_instr::{IndexedOp, Instruction};
use wat_tokens::repeat::all_to_end;
use wat_tokens::{Fault, Index, Parse, Parser, Result};
use wat_types::{AbstractHeapType, HeapType, RefType};

/// The elements of an element segment or of a table (WebAssembly Core Specification, Text Format,
/// Modules, "Element Segments").
#[derive(Debug, Drop)]
pub enum ElemPayload<'a> {
    /// Functions, by their indices.
    Indices(Vec<Index<'a>>),
    /// Expressions, one for each element.
    Exprs {
        /// The type of each element.
        ty: RefType<'a>,
        /// The expressions.
        exprs: Vec<Expression<'a>>,
    },
}

/// Parses `( word Expression )` if the second token is the word, otherwise a folded instruction.
#[tactic(auto, unfolding(crate::specs::Item::written_or_folded))]
pub(crate) fn read_written_or_folded<'a>(
    parser: &mut Parser<'a>,
    word: &str,
) -> Result<Expression<'a>>
    ensures reads { ReadsAt turns_too (owning expression_view heapless_expression)
        (written_or_folded word.now) result parser.old parser.new }
    ensures spans { IfOk result (λ e. SpansAre parser.old.tracks e) }
{
    if !parser.second_is(word) {
        return Expression::parse_folded_instruction(parser);
    }
    parser.open()?;
    parser.keyword(word)?;
    let value = Expression::parse(parser)?;
    parser.close()?;
    Ok(value)
}

/// An item: `( item Expression )` if the second token is `item`, otherwise a folded instruction.
struct Item;

impl<'a> Spanned<'a, Expression<'a>> for Item {
    ghost View = { ExpressionModel };

    ghost view = { owning expression_view heapless_expression };

    ghost cost = { turns_too };

    ghost grammar = { item };

    ghost keeps = { λ tracks e. SpansAre tracks e };

    #[tactic(auto, unfolding(crate::specs::Item::item))]
    fn take(parser: &mut Parser<'a>) -> Result<Expression<'a>> {
        read_written_or_folded(parser, "item")
    }
}

/// Parses items up to the end of the group.
#[tactic(auto, using(crate::proofs::Lists::consumes), unfolding(crate::specs::Payload::item_list))]
fn read_items<'a>(parser: &mut Parser<'a>) -> Result<Vec<Expression<'a>>>
    ensures reads { ReadsAt turns_too (owning (λ v. map expression_view v.items) no_items) item_list
        result parser.old parser.new }
    ensures spans { IfOk result (λ v. All (λ e. SpansAre parser.old.tracks e) v.items) }
{
    all_spanned::<_, Item>(parser)
}

/// Parses indices up to the end of the group.
#[tactic(auto, unfolding(crate::specs::Payload::index_list))]
fn read_indices<'a>(parser: &mut Parser<'a>) -> Result<Vec<Index<'a>>>
    ensures reads { Reads (owning (λ v. map index_view v.items) no_items) index_list result
        parser.old parser.new }
{
    all_to_end::<Index>(parser)
}

/// An expression of the single instruction `ref.func` of an index.
fn ref_func_at<'a>(alloc: Global, index: Index<'a>) -> Result<Expression<'a>>
    ensures value { IfOk result (λ e. expression_view e ≡ ref_func_of (index_view index.entry)) }
    ensures spans { IfOk result (λ e. SpansAre false e) }
    ensures memory { IfErr result (λ e. e.fault ≡ Fault.Memory) }
{
    Expression::one(alloc, Instruction::Indexed(IndexedOp::ref_func, index))
}

/// An index, as an expression of the single instruction `ref.func` of that index.
struct RefFunc;

impl<'a> Spanned<'a, Expression<'a>> for RefFunc {
    ghost View = { ExpressionModel };

    ghost view = { owning expression_view heapless_expression };

    ghost cost = { tokens_alone };

    ghost grammar = { ref_func };

    ghost keeps = { λ _ e. SpansAre false e };

    #[tactic(auto, unfolding(crate::specs::RefFunc::ref_func))]
    fn take(parser: &mut Parser<'a>) -> Result<Expression<'a>> {
        let index = Index::parse(parser)?;
        ref_func_at(parser.alloc(), index)
    }
}

/// Parses indices up to the end of the group, each as an expression `ref.func`, as a payload of the
/// type.
#[tactic(auto, using(crate::proofs::Lists::consumes), unfolding(crate::specs::RefFuncs::ref_funcs_of, crate::specs::RefFuncs::ref_funcs))]
fn read_ref_funcs<'a>(parser: &mut Parser<'a>, ty: RefType<'a>) -> Result<ElemPayload<'a>>
    ensures reads { Reads (owning payload_view heapless_payload) (ref_funcs_of (ref_view ty.entry))
        result parser.old parser.new }
    ensures spans { IfOk result (λ p. PayloadSpansAre false p) }
{
    let exprs = all_spanned::<_, RefFunc>(parser)?;
    Ok(ElemPayload::Exprs { ty, exprs })
}

/// Parses indices up to the end of the group, as a payload of indices.
#[tactic(auto, unfolding(crate::specs::RefFuncs::plain_indices))]
fn read_plain_indices<'a>(parser: &mut Parser<'a>) -> Result<ElemPayload<'a>>
    ensures reads { Reads (owning payload_view heapless_payload) plain_indices result parser.old
        parser.new }
    ensures spans { IfOk result (λ p. PayloadSpansAre false p) }
{
    read_indices(parser).map(ElemPayload::Indices)
}

/// Returns whether a reference type is `funcref`, that is, `(ref null func)`.
pub fn is_funcref(ty: RefType<'_>) -> bool
    ensures { result ≡ is_funcref (ref_view ty.entry) }
{
    match ty.heap {
        HeapType::Abstract {
            shared: false,
            ty: AbstractHeapType::Func,
        } => ty.nullable,
        _ => false,
    }
}

/// Parses indices up to the end of the group, as a payload of the type: of indices if the type is
/// `funcref`, otherwise of expressions `ref.func`.
#[tactic(auto, using(crate::proofs::RefFuncs::indices_are, crate::proofs::RefFuncs::ref_funcs_are))]
fn read_indices_of<'a>(parser: &mut Parser<'a>, ty: RefType<'a>) -> Result<ElemPayload<'a>>
    ensures reads { Reads (owning payload_view heapless_payload) (indices_of (ref_view ty.entry))
        result
        parser.old parser.new }
    ensures spans { IfOk result (λ p. PayloadSpansAre false p) }
{
    if is_funcref(ty) {
        return read_plain_indices(parser);
    }
    read_ref_funcs(parser, ty)
}

/// Parses items if `(` is next, otherwise indices, as a payload of the type. An index stays an
/// index if the type is `funcref`. Otherwise it becomes an expression of the single instruction
/// `ref.func`.
#[tactic(auto, unfolding(crate::specs::Payload::elem_list, crate::specs::RefFuncs::indices_of))]
pub(crate) fn read_listed<'a>(parser: &mut Parser<'a>, ty: RefType<'a>) -> Result<ElemPayload<'a>>
    ensures reads { ReadsAt turns_too (owning payload_view heapless_payload)
        (made (of_type (ref_view ty.entry)) elem_list) result parser.old parser.new }
    ensures spans { IfOk result (λ p. PayloadSpansAre (begins_lparen parser.old.left
        && parser.old.tracks) p) }
{
    if parser.opens() {
        let exprs = read_items(parser)?;
        return Ok(ElemPayload::Exprs { ty, exprs });
    }
    read_indices_of(parser, ty)
}

/// Parses a reference type, and items up to the end of the group.
#[tactic(auto, unfolding(crate::specs::Payload::typed_elems))]
fn read_typed_items<'a>(parser: &mut Parser<'a>) -> Result<ElemPayload<'a>>
    ensures reads { ReadsAt turns_too (owning payload_view heapless_payload) typed_elems result
        parser.old parser.new }
    ensures spans { IfOk result (λ p. PayloadSpansAre parser.old.tracks p) }
{
    let ty = RefType::parse(parser)?;
    let exprs = read_items(parser)?;
    Ok(ElemPayload::Exprs { ty, exprs })
}

/// Parses `func` and indices, or a reference type and items.
#[tactic(auto, unfolding(crate::specs::Payload::payload))]
pub(crate) fn read_payload<'a>(parser: &mut Parser<'a>) -> Result<ElemPayload<'a>>
    ensures reads { ReadsAt turns_too (owning payload_view heapless_payload) payload result
        parser.old
        parser.new }
    ensures spans { IfOk result (λ p. PayloadSpansAre parser.old.tracks p) }
{
    if parser.flag("func") {
        return read_indices(parser).map(ElemPayload::Indices);
    }
    read_typed_items(parser)
}

/// Parses `func` and indices, a reference type and items, or indices alone.
#[tactic(auto, unfolding(crate::specs::Payload::payload_or_indices))]
pub(crate) fn read_payload_or_indices<'a>(parser: &mut Parser<'a>) -> Result<ElemPayload<'a>>
    ensures reads { ReadsAt turns_too (owning payload_view heapless_payload) payload_or_indices
        result
        parser.old parser.new }
    ensures spans { IfOk result (λ p. PayloadSpansAre parser.old.tracks p) }
{
    if parser.flag("func") {
        return read_indices(parser).map(ElemPayload::Indices);
    }
    if parser.peek::<RefType>() {
        return read_typed_items(parser);
    }
    read_indices(parser).map(ElemPayload::Indices)
}

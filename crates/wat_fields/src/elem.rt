//! Element segments.

ghost use Rattle.std.specs.Prelude.{◌≡◌, IfOk};
ghost use Rattle.wat_expr.specs.Prelude.{turns_too, index_view, Reads, ReadsAt, plain, owning, option_view, expression_view, heapless_expression, SpansAre};
ghost use Rattle.wat_fields.specs.Elem.{segment_view, heapless_segment, elem_offset, in_table, table_number, in_some_table, declared_segment, passive_segment, begins_active, active_segment, segment, ElemModel, elem_view, heapless_elem, elem};
ghost use Rattle.wat_fields.specs.Spans.{ElemSpansAre};

use crate::payload::{ElemPayload, read_payload, read_payload_or_indices, read_written_or_folded};
use wat_expr::Expression;
use wat_tokens::enclosed::in_word_group;
use wat_tokens::{Fault, Id, Index, NameAnnotation, Parse, Parser, Result, Span};
use wat_types::{RefType, take_label};

/// An element segment of a module (WebAssembly Core Specification, Text Format, Modules, "Element
/// Segments").
#[derive(Debug, Drop)]
pub struct Elem<'a> {
    /// The place of the keyword `elem`.
    pub span: Span,
    /// The identifier.
    pub id: Option<Id<'a>>,
    /// The name from a `(@name ..)` annotation.
    pub name: Option<NameAnnotation<'a>>,
    /// The mode of the segment.
    pub kind: ElemKind<'a>,
    /// The elements.
    pub payload: ElemPayload<'a>,
}

/// The mode of an element segment: passive, declared or active (WebAssembly Core Specification,
/// Text Format, Modules, "Element Segments").
#[derive(Debug, Drop)]
pub enum ElemKind<'a> {
    /// The segment is copied by instructions alone.
    Passive,
    /// The segment is never copied: it only declares references to functions.
    Declared,
    /// The segment is copied into a table when the module is instantiated.
    Active {
        /// The table, if a table is written. A number without the keyword `table` has the span of
        /// the keyword `elem`.
        table: Option<Index<'a>>,
        /// The offset in the table.
        offset: Expression<'a>,
    },
}

/// The mode and the elements of a segment.
type Segment<'a> = (ElemKind<'a>, ElemPayload<'a>);

/// Parses `( offset Expression )` if the second token is `offset`, otherwise a folded instruction.
#[tactic(auto, unfolding(crate::specs::Elem::elem_offset))]
fn read_offset<'a>(parser: &mut Parser<'a>) -> Result<Expression<'a>>
    ensures reads { ReadsAt turns_too (owning expression_view heapless_expression) elem_offset
        result
        parser.old parser.new }
    ensures spans { IfOk result (λ e. SpansAre parser.old.tracks e) }
{
    read_written_or_folded(parser, "offset")
}

/// Parses `( table idx )`, an offset and a payload.
#[tactic(auto, unfolding(crate::specs::Elem::in_table))]
fn read_in_table<'a>(parser: &mut Parser<'a>) -> Result<Segment<'a>>
    ensures reads { ReadsAt turns_too (owning segment_view heapless_segment) in_table result
        parser.old
        parser.new }
    ensures spans { IfOk result (λ s. ElemSpansAre parser.old.tracks s) }
{
    let table = Some(in_word_group(parser, "table")?);
    let offset = read_offset(parser)?;
    let payload = read_payload(parser)?;
    Ok((ElemKind::Active { table, offset }, payload))
}

/// Parses the number of a table, if an integer is next. The index gets `span` as its span.
#[tactic(auto, unfolding(crate::specs::Elem::table_number))]
fn read_table_number<'a>(parser: &mut Parser<'a>, span: Span) -> Result<Option<Index<'a>>>
    ensures reads { Reads (plain (λ o. option_view index_view o)) table_number result parser.old
        parser.new }
{
    if !parser.peek::<u32>() {
        return Ok(None);
    }
    let number = u32::parse(parser)?;
    Ok(Some(Index::Num(number, span)))
}

/// Parses the number of a table or nothing, an offset, and a payload, which can be indices alone.
#[tactic(auto, unfolding(crate::specs::Elem::in_some_table))]
fn read_in_some_table<'a>(parser: &mut Parser<'a>, span: Span) -> Result<Segment<'a>>
    ensures reads { ReadsAt turns_too (owning segment_view heapless_segment) in_some_table result
        parser.old parser.new }
    ensures spans { IfOk result (λ s. ElemSpansAre parser.old.tracks s) }
{
    let table = read_table_number(parser, span)?;
    let offset = read_offset(parser)?;
    let payload = read_payload_or_indices(parser)?;
    Ok((ElemKind::Active { table, offset }, payload))
}

/// Parses the contents of an active segment.
#[tactic(auto, unfolding(crate::specs::Elem::active_segment))]
fn read_active<'a>(parser: &mut Parser<'a>, span: Span) -> Result<Segment<'a>>
    ensures reads { ReadsAt turns_too (owning segment_view heapless_segment) active_segment result
        parser.old parser.new }
    ensures spans { IfOk result (λ s. ElemSpansAre parser.old.tracks s) }
{
    if parser.group_is("table") {
        return read_in_table(parser);
    }
    read_in_some_table(parser, span)
}

/// Parses `declare` and a payload.
#[tactic(auto, unfolding(crate::specs::Elem::declared_segment))]
fn read_declared<'a>(parser: &mut Parser<'a>) -> Result<Segment<'a>>
    ensures reads { ReadsAt turns_too (owning segment_view heapless_segment) declared_segment result
        parser.old parser.new }
    ensures spans { IfOk result (λ s. ElemSpansAre parser.old.tracks s) }
{
    parser.keyword("declare")?;
    let payload = read_payload(parser)?;
    Ok((ElemKind::Declared, payload))
}

/// Parses a payload alone.
#[tactic(auto, unfolding(crate::specs::Elem::passive_segment))]
fn read_passive<'a>(parser: &mut Parser<'a>) -> Result<Segment<'a>>
    ensures reads { ReadsAt turns_too (owning segment_view heapless_segment) passive_segment result
        parser.old parser.new }
    ensures spans { IfOk result (λ s. ElemSpansAre parser.old.tracks s) }
{
    let payload = read_payload(parser)?;
    Ok((ElemKind::Passive, payload))
}

/// Whether an integer is next, or a `(` that doesn't begin a reference type.
fn active_next(parser: &Parser<'_>) -> bool
    ensures { result ≡ begins_active parser.now.left }
{
    if parser.peek::<u32>() {
        return true;
    }
    parser.opens() && !parser.peek::<RefType>()
}

/// Parses the mode and the elements of a segment. `span` is the place of the keyword `elem`.
#[tactic(auto, unfolding(crate::specs::Elem::segment))]
fn read_segment<'a>(parser: &mut Parser<'a>, span: Span) -> Result<Segment<'a>>
    ensures reads { ReadsAt turns_too (owning segment_view heapless_segment) segment result
        parser.old
        parser.new }
    ensures spans { IfOk result (λ s. ElemSpansAre parser.old.tracks s) }
{
    if parser.next_is("declare") {
        return read_declared(parser);
    }
    if active_next(parser) {
        return read_active(parser, span);
    }
    read_passive(parser)
}

/// Parses `elem`, an optional identifier, an optional name annotation, a mode, and the elements up
/// to the end of the group.
///
/// The next token decides the mode:
///
/// - `declare`: the segment is declared;
/// - an integer, or a `(` that doesn't begin a reference type: the segment is active. Its table is
///   the number, the index of `( table idx )`, or not written. Its offset is
///   `( offset Expression )` or a folded instruction;
/// - anything else: the segment is passive.
///
/// The elements are `func` and indices, or a reference type and items. An item is
/// `( item Expression )` or a folded instruction. After an offset without `( table idx )` the
/// elements can also be indices alone.
///
/// The errors, each at the next token: Range for an index or a table's number that is out of range;
/// Operator if an instruction's keyword is needed and another token is next; the errors of
/// [`Expression`] and of a reference type; Memory; and Unexpected for anything else.
impl<'a> Parse<'a> for Elem<'a> {
    ghost View = { ElemModel };

    ghost view = { owning elem_view heapless_elem };

    ghost cost = { turns_too };

    ghost grammar = { elem };

    #[tactic(auto, unfolding(crate::specs::Elem::elem))]
    fn parse(parser: &mut Parser<'a>) -> Result<Self>
        ensures reads { ReadsAt turns_too (owning elem_view heapless_elem) elem result parser.old
            parser.new }
        ensures spans { IfOk result (λ e. ElemSpansAre parser.old.tracks (e.kind, e.payload)) }
    {
        let span = parser.keyword("elem")?;
        let (id, name) = take_label(parser)?;
        let (kind, payload) = read_segment(parser, span)?;
        Ok(Elem {
            span,
            id,
            name,
            kind,
            payload,
        })
    }
}

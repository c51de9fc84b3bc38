//! Data segments.

ghost use Rattle.std.specs.Prelude.{◌≡◌, IfOk};
ghost use Rattle.wat_links.specs.Prelude.{turns_too, index_view, Reads, ReadsAt, plain, owning};
ghost use Rattle.wat_fields.specs.Data.{data_kind_view, heapless_data_kind, begins_passive, data_memory, data_active, data_kind, DataModel, data_view, heapless_data, data_segment};
ghost use Rattle.wat_fields.specs.Spans.{DataSpansAre, offset_behind, is_offset_written};

use crate::data_val::{DataVal, read_vals};
use crate::numbers::numbers_next;
use crate::offset::read_offset;
use wat_expr::Expression;
use wat_tokens::enclosed::in_word_group;
use wat_tokens::{Fault, Id, Index, NameAnnotation, Parse, Parser, Result, Span};
use wat_types::take_label;

/// A data segment of a module (WebAssembly Core Specification, Text Format, Modules, "Data
/// Segments").
#[derive(Debug, Drop)]
pub struct Data<'a> {
    /// The place of the keyword `data`.
    pub span: Span,
    /// The identifier.
    pub id: Option<Id<'a>>,
    /// The name from a `(@name ..)` annotation.
    pub name: Option<NameAnnotation<'a>>,
    /// Whether the segment is active, that is, copied into a memory when the module is
    /// instantiated.
    pub kind: DataKind<'a>,
    /// The values of the segment. The bytes of the segment are the bytes of these values, in order.
    pub data: Vec<DataVal<'a>>,
}

/// The mode of a data segment: passive or active (WebAssembly Core Specification, Text Format,
/// Modules, "Data Segments").
#[derive(Debug, Drop)]
pub enum DataKind<'a> {
    /// The segment is copied by instructions alone.
    Passive,
    /// The segment is copied when the module is instantiated.
    Active {
        /// The memory; memory 0 if no memory is written. An index in `( memory idx )` has its own
        /// span. A number alone, or memory 0 that isn't written, has the span of the keyword
        /// `data`.
        memory: Index<'a>,
        /// The offset in the memory.
        offset: Expression<'a>,
    },
}

/// Parses the memory of an active segment. A number alone, or memory 0 that isn't written, gets
/// `span` as its span.
#[tactic(auto, unfolding(crate::specs::Data::data_memory))]
fn read_memory<'a>(parser: &mut Parser<'a>, span: Span) -> Result<Index<'a>>
    ensures reads { Reads (plain index_view) data_memory result parser.old parser.new }
{
    if parser.peek::<u32>() {
        let number = u32::parse(parser)?;
        return Ok(Index::Num(number, span));
    }
    if !parser.second_is("memory") {
        return Ok(Index::Num(0, span));
    }
    in_word_group(parser, "memory")
}

/// Whether the segment is passive: `)`, a string, or a group of numbers is next.
fn passive_next(parser: &Parser<'_>) -> bool
    ensures { result ≡ begins_passive parser.now.left }
{
    let cursor = parser.cursor();
    cursor.rparen().is_some() || cursor.string().is_some() || numbers_next(parser)
}

/// Parses a memory and an offset.
#[tactic(auto, unfolding(crate::specs::Data::data_active))]
fn read_active<'a>(parser: &mut Parser<'a>, span: Span) -> Result<DataKind<'a>>
    ensures reads { ReadsAt turns_too (owning data_kind_view heapless_data_kind) data_active result
        parser.old parser.new }
    ensures spans { IfOk result (λ k. DataSpansAre (offset_behind
        (data_memory.reads parser.old.left)) parser.old.tracks k) }
{
    let memory = read_memory(parser, span)?;
    parser.open()?;
    let offset = read_offset(parser)?;
    parser.close()?;
    Ok(DataKind::Active { memory, offset })
}

/// Parses the mode of a segment: nothing if the segment is passive, otherwise a memory and an
/// offset.
#[tactic(auto, unfolding(crate::specs::Data::data_kind))]
fn read_data_kind<'a>(parser: &mut Parser<'a>, span: Span) -> Result<DataKind<'a>>
    ensures reads { ReadsAt turns_too (owning data_kind_view heapless_data_kind) data_kind result
        parser.old parser.new }
    ensures spans { IfOk result (λ k. DataSpansAre (offset_behind
        (data_memory.reads parser.old.left)) parser.old.tracks k) }
{
    if passive_next(parser) {
        return Ok(DataKind::Passive);
    }
    read_active(parser, span)
}

/// Parses `data`, an optional identifier, an optional name annotation, a mode, and values up to the
/// end of the group.
///
/// The segment is passive if the values begin directly: `)`, a string or a group of numbers is
/// next. Otherwise it is active, and these come first:
///
/// - the memory: its number, `( memory idx )`, or nothing;
/// - the offset: `( offset` expression `)`, or its abbreviation, `(` instruction, items `)`.
///
/// In the expression of an abbreviated offset the instruction comes after the items. Without items,
/// the expression has no spans.
///
/// The errors: Range at an index that is out of range; Operator if an abbreviated offset needs an
/// instruction's keyword and another token is next; the errors of [`Expression`] and of
/// [`DataVal`]; Memory; and Unexpected for anything else.
impl<'a> Parse<'a> for Data<'a> {
    ghost View = { DataModel };

    ghost view = { owning data_view heapless_data };

    ghost cost = { turns_too };

    ghost grammar = { data_segment };

    #[tactic(auto, unfolding(crate::specs::Data::data_segment))]
    fn parse(parser: &mut Parser<'a>) -> Result<Self>
        ensures reads { ReadsAt turns_too (owning data_view heapless_data) data_segment result
            parser.old parser.new }
        ensures spans { IfOk result (λ d. DataSpansAre (is_offset_written parser.old.left)
            parser.old.tracks d.kind) }
    {
        let span = parser.keyword("data")?;
        let (id, name) = take_label(parser)?;
        let kind = read_data_kind(parser, span)?;
        let data = read_vals(parser)?;
        Ok(Data {
            span,
            id,
            name,
            kind,
            data,
        })
    }
}

//! Operands with tables, memories and segments.

ghost use Rattle.std.specs.Prelude.{◌≡◌};
ghost use Rattle.wat_types.specs.Prelude.{IndexModel, number, index_view, Reads, plain};
ghost use Rattle.wat_operands.specs.Tables.{index_or_0, index_pair, table_arg_view, memory_arg_view, init, table_init_view, memory_init_view, copy, table_copy_view, memory_copy_view};

use wat_tokens::{Index, Parse, Parser, Result};

/// The operand of an instruction on one table, with an index of type `I` (WebAssembly Core
/// Specification, Text Format, Instructions, "Table Instructions").
#[derive(Clone, Debug, Drop)]
pub struct TableArgOf<I> {
    /// The table; 0 if the text has no table index.
    pub dst: I,
}

/// The operand of an instruction on one table.
pub type TableArg<'a> = TableArgOf<Index<'a>>;

/// The operand of an instruction on one memory, with an index of type `I` (WebAssembly Core
/// Specification, Text Format, Instructions, "Memory Instructions").
#[derive(Clone, Debug, Drop)]
pub struct MemoryArgOf<I> {
    /// The memory; 0 if the text has no memory index.
    pub mem: I,
}

/// The operand of an instruction on one memory.
pub type MemoryArg<'a> = MemoryArgOf<Index<'a>>;

/// The operands of `table.init`, with indices of type `I` (WebAssembly Core Specification, Text
/// Format, Instructions, "Table Instructions").
#[derive(Clone, Debug, Drop)]
pub struct TableInitOf<I> {
    /// The table to write to; 0 if the text has no table index.
    pub table: I,
    /// The element segment to read.
    pub elem: I,
}

/// The operands of `table.init`.
pub type TableInit<'a> = TableInitOf<Index<'a>>;

/// The operands of `memory.init`, with indices of type `I` (WebAssembly Core Specification, Text
/// Format, Instructions, "Memory Instructions").
#[derive(Clone, Debug, Drop)]
pub struct MemoryInitOf<I> {
    /// The data segment to read.
    pub data: I,
    /// The memory to write to; 0 if the text has no memory index.
    pub mem: I,
}

/// The operands of `memory.init`.
pub type MemoryInit<'a> = MemoryInitOf<Index<'a>>;

/// The operands of `table.copy`, with indices of type `I` (WebAssembly Core Specification, Text
/// Format, Instructions, "Table Instructions").
#[derive(Clone, Debug, Drop)]
pub struct TableCopyOf<I> {
    /// The destination table; 0 if the text has no indices.
    pub dst: I,
    /// The source table; 0 if the text has no indices.
    pub src: I,
}

/// The operands of `table.copy`.
pub type TableCopy<'a> = TableCopyOf<Index<'a>>;

/// The operands of `memory.copy`, with indices of type `I` (WebAssembly Core Specification, Text
/// Format, Instructions, "Memory Instructions").
#[derive(Clone, Debug, Drop)]
pub struct MemoryCopyOf<I> {
    /// The source memory; 0 if the text has no indices.
    pub src: I,
    /// The destination memory; 0 if the text has no indices.
    pub dst: I,
}

/// The operands of `memory.copy`.
pub type MemoryCopy<'a> = MemoryCopyOf<Index<'a>>;

/// Returns the default index 0, with the span of the last token that was taken.
pub(crate) fn zero<'a>(parser: &Parser<'a>) -> Index<'a>
    ensures { index_view result ≡ number 0 }
{
    Index::Num(0, parser.prev_span())
}

/// Parses an index if the next token is an index. Otherwise returns 0.
#[tactic(auto, unfolding(crate::specs::Tables::index_or_0))]
pub(crate) fn index_or_0<'a>(parser: &mut Parser<'a>) -> Result<Index<'a>>
    ensures reads { Reads (plain index_view) index_or_0 result parser.old parser.new }
{
    if parser.peek::<Index>() {
        Index::parse(parser)
    } else {
        Ok(zero(parser))
    }
}

/// Parses two indices.
#[tactic(auto, unfolding(crate::specs::Tables::index_pair))]
pub(crate) fn index_pair<'a>(parser: &mut Parser<'a>) -> Result<(Index<'a>, Index<'a>)>
    ensures reads { Reads (plain (λ p. (index_view p.0, index_view p.1))) index_pair result
        parser.old parser.new }
{
    let first = Index::parse(parser)?;
    let second = Index::parse(parser)?;
    Ok((first, second))
}

/// Parses a target and a segment if the second token is an index. Otherwise parses a segment, and
/// the target is 0.
#[tactic(auto, unfolding(crate::specs::Tables::init))]
fn target_and_segment<'a>(parser: &mut Parser<'a>) -> Result<(Index<'a>, Index<'a>)>
    ensures reads { Reads (plain (λ p. (index_view p.0, index_view p.1))) init result parser.old
        parser.new }
{
    if parser.peek2::<Index>() {
        return index_pair(parser);
    }
    let target = zero(parser);
    let segment = Index::parse(parser)?;
    Ok((target, segment))
}

/// Parses a destination and a source if the next token is an index. Otherwise both are 0.
#[tactic(auto, unfolding(crate::specs::Tables::copy))]
fn destination_and_source<'a>(parser: &mut Parser<'a>) -> Result<(Index<'a>, Index<'a>)>
    ensures reads { Reads (plain (λ p. (index_view p.0, index_view p.1))) copy result parser.old
        parser.new }
{
    if !parser.peek::<Index>() {
        return Ok((zero(parser), zero(parser)));
    }
    index_pair(parser)
}

/// An optional index; the default is table 0.
impl<'a> Parse<'a> for TableArg<'a> {
    ghost View = { IndexModel };

    ghost view = { plain table_arg_view };

    ghost grammar = { index_or_0 };

    fn parse(parser: &mut Parser<'a>) -> Result<Self> {
        Ok(TableArg {
            dst: index_or_0(parser)?,
        })
    }
}

/// An optional index; the default is memory 0.
impl<'a> Parse<'a> for MemoryArg<'a> {
    ghost View = { IndexModel };

    ghost view = { plain memory_arg_view };

    ghost grammar = { index_or_0 };

    fn parse(parser: &mut Parser<'a>) -> Result<Self> {
        Ok(MemoryArg {
            mem: index_or_0(parser)?,
        })
    }
}

/// A table and an element segment if the second token is an identifier or an integer. Otherwise an
/// element segment; the table is 0.
impl<'a> Parse<'a> for TableInit<'a> {
    ghost View = { IndexModel × IndexModel };

    ghost view = { plain table_init_view };

    ghost grammar = { init };

    fn parse(parser: &mut Parser<'a>) -> Result<Self> {
        let (table, elem) = target_and_segment(parser)?;
        Ok(TableInit { table, elem })
    }
}

/// A memory and a data segment if the second token is an identifier or an integer. Otherwise a data
/// segment; the memory is 0.
impl<'a> Parse<'a> for MemoryInit<'a> {
    ghost View = { IndexModel × IndexModel };

    ghost view = { plain memory_init_view };

    ghost grammar = { init };

    fn parse(parser: &mut Parser<'a>) -> Result<Self> {
        let (mem, data) = target_and_segment(parser)?;
        Ok(MemoryInit { data, mem })
    }
}

/// A destination and a source. If the next token isn't an index, both are table 0.
impl<'a> Parse<'a> for TableCopy<'a> {
    ghost View = { IndexModel × IndexModel };

    ghost view = { plain table_copy_view };

    ghost grammar = { copy };

    fn parse(parser: &mut Parser<'a>) -> Result<Self> {
        let (dst, src) = destination_and_source(parser)?;
        Ok(TableCopy { dst, src })
    }
}

/// A destination and a source. If the next token isn't an index, both are memory 0.
impl<'a> Parse<'a> for MemoryCopy<'a> {
    ghost View = { IndexModel × IndexModel };

    ghost view = { plain memory_copy_view };

    ghost grammar = { copy };

    fn parse(parser: &mut Parser<'a>) -> Result<Self> {
        let (dst, src) = destination_and_source(parser)?;
        Ok(MemoryCopy { src, dst })
    }
}

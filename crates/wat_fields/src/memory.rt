//! Memories.

ghost use Rattle.std.specs.Prelude.{◌≡◌};
ghost use Rattle.wat_links.specs.Prelude.{Reads, owning};
ghost use Rattle.wat_fields.specs.Memory.{MemoryModel, memory_kind_view, heapless_memory_kind, inline_memory, memory_kind, begins_inline_data, memory_view, heapless_memory, memory};

use crate::data_val::{DataVal, read_vals};
use wat_links::{FieldHead, InlineExport, InlineImport};
use wat_tokens::{Fault, Id, NameAnnotation, Parse, Parser, Result, Span};
use wat_types::limits::take_is64;
use wat_types::{MemoryType, page_size};

/// A memory of a module (WebAssembly Core Specification, Text Format, Modules, "Memories").
#[derive(Debug, Drop)]
pub struct Memory<'a> {
    /// The place of the keyword `memory`.
    pub span: Span,
    /// The identifier.
    pub id: Option<Id<'a>>,
    /// The name from a `(@name ..)` annotation.
    pub name: Option<NameAnnotation<'a>>,
    /// The inline exports.
    pub exports: InlineExport<'a>,
    /// The definition.
    pub kind: MemoryKind<'a>,
}

/// The definition of a memory (WebAssembly Core Specification, Text Format, Modules, "Memories",
/// Abbreviations).
#[derive(Debug, Drop)]
pub enum MemoryKind<'a> {
    /// An inline import.
    Import {
        /// The module and the name of the import.
        import: InlineImport<'a>,
        /// The type of the memory.
        ty: MemoryType,
    },
    /// A type alone.
    Normal(MemoryType),
    /// The initial contents, from address 0 on. They determine the size of the memory.
    Inline {
        /// Whether addresses have 64 bits.
        is64: bool,
        /// The initial contents.
        data: Vec<DataVal<'a>>,
        /// The base-2 logarithm of the page size in bytes, if a page size is written.
        page_size_log2: Option<u32>,
    },
}

/// Whether `(` is next, or `i32` or `i64` and then `(`.
fn inline_next(parser: &Parser<'_>) -> bool
    ensures { result ≡ begins_inline_data parser.now.left }
{
    let cursor = parser.cursor();
    if cursor.lparen().is_some() {
        return true;
    }
    match cursor.keyword() {
        Some((word, rest)) => (word == "i32" || word == "i64") && rest.lparen().is_some(),
        None => false,
    }
}

/// Parses the inline contents of a memory: `i32`, `i64` or neither, an optional page size, and
/// `( data` values `)`.
#[tactic(auto, unfolding(crate::specs::Memory::inline_memory))]
fn read_inline<'a>(parser: &mut Parser<'a>) -> Result<MemoryKind<'a>>
    ensures reads { Reads (owning memory_kind_view heapless_memory_kind) inline_memory result
        parser.old
        parser.new }
{
    let is64 = take_is64(parser)?;
    let page_size_log2 = page_size(parser)?;
    parser.open()?;
    parser.keyword("data")?;
    let data = read_vals(parser)?;
    parser.close()?;
    Ok(MemoryKind::Inline {
        is64,
        data,
        page_size_log2,
    })
}

/// Parses the definition of a memory, after its head.
#[tactic(auto, unfolding(crate::specs::Memory::memory_kind))]
fn read_memory_kind<'a>(parser: &mut Parser<'a>) -> Result<MemoryKind<'a>>
    ensures reads { Reads (owning memory_kind_view heapless_memory_kind) memory_kind result
        parser.old
        parser.new }
{
    if parser.peek::<InlineImport>() {
        let import = InlineImport::parse(parser)?;
        let ty = MemoryType::parse(parser)?;
        return Ok(MemoryKind::Import { import, ty });
    }
    if inline_next(parser) {
        return read_inline(parser);
    }
    Ok(MemoryKind::Normal(MemoryType::parse(parser)?))
}

/// Parses `memory`, a [`FieldHead`], and then one of:
///
/// - if `(`, `import`, two strings and `)` are next: that inline import and a memory type;
/// - if `(` is next, or `i32` or `i64` and then `(`: that keyword or none, an optional page size,
///   and `( data` values `)`;
/// - otherwise a memory type.
///
/// The errors: Range at a number that is out of range; PageSize at a page size that isn't a power
/// of two; the errors of [`DataVal`]; Memory; and Unexpected for anything else.
impl<'a> Parse<'a> for Memory<'a> {
    ghost View = { MemoryModel };

    ghost view = { owning memory_view heapless_memory };

    ghost grammar = { memory };

    #[tactic(auto, unfolding(crate::specs::Memory::memory))]
    fn parse(parser: &mut Parser<'a>) -> Result<Self> {
        let span = parser.keyword("memory")?;
        let FieldHead { id, name, exports } = FieldHead::parse(parser)?;
        let kind = read_memory_kind(parser)?;
        Ok(Memory {
            span,
            id,
            name,
            exports,
            kind,
        })
    }
}

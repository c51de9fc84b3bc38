//! Limits, table types and memory types.

ghost use Rattle.std.specs.Prelude.{◌≡◌};
ghost use Rattle.wat_tokens.specs.Prelude.{Reads, plain};
ghost use Rattle.wat_types.specs.Exponent.{exponent};
ghost use Rattle.wat_types.specs.Limits.{is_64, page_exponent, pagesize_or_none, TableTypeModel, table_type_view, table_type};

use crate::reference::RefType;
use wat_tokens::{Error, Fault, Parse, Parser, Result};

/// The minimum and the maximum size of a table or a memory (WebAssembly Core Specification, Text
/// Format, Types, "Limits").
#[derive(Clone, Copy, Debug, PartialEq, Eq, Hash)]
pub struct Limits {
    /// Whether addresses have 64 bits: `i64`.
    pub is64: bool,
    /// The minimum size, in elements or pages.
    pub min: u64,
    /// The maximum size, in elements or pages, if any.
    pub max: Option<u64>,
}

/// A table type (WebAssembly Core Specification, Text Format, Types, "Table Types").
#[derive(Clone, Copy, Debug, PartialEq, Eq, Hash)]
pub struct TableType<'a> {
    /// The size, in elements.
    pub limits: Limits,
    /// The element type.
    pub elem: RefType<'a>,
    /// Whether the text has `shared`: threads share the table.
    pub shared: bool,
}

/// A memory type (WebAssembly Core Specification, Text Format, Types, "Memory Types").
#[derive(Clone, Copy, Debug, PartialEq, Eq, Hash)]
pub struct MemoryType {
    /// The size, in pages.
    pub limits: Limits,
    /// Whether the text has `shared`: threads share the memory.
    pub shared: bool,
    /// The page size, as the exponent k of 2^k bytes, if the text has a page size.
    pub page_size_log2: Option<u32>,
}

/// Reads an optional `i64` or `i32`, and returns true for `i64` (WebAssembly Core Specification,
/// Text Format, Types, "Limits").
#[tactic(auto, unfolding(crate::specs::Limits::is_64))]
pub fn take_is64<'a>(parser: &mut Parser<'a>) -> Result<bool>
    ensures reads { Reads (plain (λ b. b)) is_64 result parser.old parser.new }
{
    if parser.flag("i64") {
        return Ok(true);
    }
    parser.flag("i32");
    Ok(false)
}

/// Reads an optional `i32` or `i64`, and one or two numbers. Returns Range, at the number, if a
/// number has a `-` or needs more than 64 bits.
impl<'a> Parse<'a> for Limits {
    ghost use Rattle.wat_types.specs.declared.limits.Limits.{Limits};
    ghost use Rattle.wat_types.specs.Limits.{limits_type};

    ghost View = { Limits };

    ghost view = { plain (λ l. l) };

    ghost grammar = { limits_type };

    #[tactic(auto, unfolding(crate::specs::Limits::limits_type))]
    fn parse(parser: &mut Parser<'a>) -> Result<Self> {
        let is64 = take_is64(parser)?;
        let min = u64::parse(parser)?;
        let max = if parser.peek::<u64>() {
            Some(u64::parse(parser)?)
        } else {
            None
        };
        Ok(Limits { is64, min, max })
    }
}

/// Returns the exponent k of the number 2^k.
#[tactic(auto, using(crate::proofs::ExponentFound::exponent_of_none))]
fn exponent(number: u32) -> Option<u32>
    ensures { result ≡ exponent number }
{
    if number == 0 {
        return None;
    }
    let k = number.ilog2();
    if 2u32.pow(k) == number { Some(k) } else { None }
}

/// Reads a 32-bit power of two, and returns its exponent. Returns PageSize, at the number, if the
/// number isn't a power of two.
#[tactic(auto, unfolding(crate::specs::Limits::page_exponent))]
fn take_exponent<'a>(parser: &mut Parser<'a>) -> Result<u32>
    ensures reads { Reads (plain (λ k. k)) page_exponent result parser.old parser.new }
{
    let span = parser.cur_span();
    match exponent(u32::parse(parser)?) {
        Some(k) => Ok(k),
        None => Err(Error::at(Fault::PageSize, span)),
    }
}

/// Reads `( pagesize number )` if `( pagesize` is next, and returns the exponent k of the number
/// 2^k (WebAssembly Core Specification, Text Format, Types, "Memory Types", with the proposal
/// "Custom Page Sizes"). Otherwise takes no token and returns None.
///
/// Returns PageSize, at the number, if the number isn't a power of two. Returns Range, at the
/// number, if the number has a `-` or needs more than 32 bits.
#[tactic(auto, unfolding(crate::specs::Limits::pagesize_or_none, crate::specs::Limits::pagesize))]
pub fn page_size<'a>(parser: &mut Parser<'a>) -> Result<Option<u32>>
    ensures reads { Reads (plain (λ k. k)) pagesize_or_none result parser.old parser.new }
{
    if !parser.group_is("pagesize") {
        return Ok(None);
    }
    parser.open()?;
    parser.keyword("pagesize")?;
    let k = take_exponent(parser)?;
    parser.close()?;
    Ok(Some(k))
}

/// Reads an optional `shared`, [`Limits`], and the element type.
impl<'a> Parse<'a> for TableType<'a> {
    ghost View = { TableTypeModel };

    ghost view = { plain table_type_view };

    ghost grammar = { table_type };

    #[tactic(auto, unfolding(crate::specs::Limits::table_type))]
    fn parse(parser: &mut Parser<'a>) -> Result<Self> {
        let shared = parser.flag("shared");
        let limits = Limits::parse(parser)?;
        let elem = RefType::parse(parser)?;
        Ok(TableType {
            limits,
            elem,
            shared,
        })
    }
}

/// Reads [`Limits`], an optional `shared`, and an optional page size, by [`page_size`].
impl<'a> Parse<'a> for MemoryType {
    ghost use Rattle.wat_types.specs.declared.limits.MemoryType.{MemoryType};
    ghost use Rattle.wat_types.specs.Limits.{memory_type};

    ghost View = { MemoryType };

    ghost view = { plain (λ m. m) };

    ghost grammar = { memory_type };

    #[tactic(auto, unfolding(crate::specs::Limits::memory_type))]
    fn parse(parser: &mut Parser<'a>) -> Result<Self> {
        let limits = Limits::parse(parser)?;
        let shared = parser.flag("shared");
        let page_size_log2 = page_size(parser)?;
        Ok(MemoryType {
            limits,
            shared,
            page_size_log2,
        })
    }
}

//! The operand of a memory access: its target, offset, alignment and memory ordering.

ghost use Rattle.std.specs.Prelude.{◌≡◌, ◌≢◌, None, Some, option_map, MatchResult};
ghost use Rattle.wat_types.specs.Prelude.{in_front, unsigned_value, Reads, plain, past_front};
ghost use Rattle.wat_operands.specs.Memory.{target_view, target, begins_with, offset_or_0, align, align_or, mem_arg_view, mem_arg, atomic_mem_arg};
ghost use Rattle.wat_operands.specs.Align.{field};

use crate::ordering::Ordering;
use crate::tables::index_or_0;
use wat_tokens::enclosed::in_word_group;
use wat_tokens::{Cursor, Error, Fault, Index, Integer, Parse, Parser, Result, Span};

/// The target of a memory access (WebAssembly Core Specification, Text Format, Instructions,
/// "Memory Instructions"; an array as a target is a proposal).
#[derive(Clone, Debug, Drop)]
pub enum MemArgTarget<'a> {
    /// A memory.
    Memory(Index<'a>),
    /// An array of this type.
    Array(Index<'a>),
}

/// The memory ordering of an atomic access, and the kind of the instruction (WebAssembly Core
/// Specification, Text Format, Instructions, "Memory Instructions", with the proposals on threads).
#[derive(Clone, Copy, Debug, PartialEq, Eq, Hash)]
pub enum MemArgOrdering {
    /// The ordering of an atomic load or store.
    Op(Ordering),
    /// The ordering of a read-modify-write instruction.
    Rmw(Ordering),
}

/// The operand of a memory access (WebAssembly Core Specification, Text Format, Instructions,
/// "Memory Instructions").
#[derive(Clone, Debug, Drop)]
pub struct MemArg<'a> {
    /// The alignment in bytes as written, a power of two and not its exponent. If the text has no
    /// alignment, this is the default.
    pub align: u64,
    /// The offset in bytes; 0 if the text has no offset.
    pub offset: u64,
    /// The target; memory 0 if the text has no target.
    pub target: MemArgTarget<'a>,
    /// The memory ordering, if the text has an ordering.
    pub ordering: Option<MemArgOrdering>,
}

/// Returns the text after the prefix `front`, or None if the text doesn't begin with `front`.
fn past_front<'a>(text: &'a str, front: &str) -> Option<&'a str>
    ensures { option_map (λ x. x.now) result ≡ past_front front.now text.entry.now }
{
    text.strip_prefix(front)
}

/// Returns whether the next token is a keyword that begins with `start`.
pub(crate) fn begins_with(cursor: Cursor<'_>, start: &str) -> bool
    ensures { result ≡ begins_with start.now (in_front cursor.entry) }
{
    match cursor.keyword() {
        Some((word, _)) => past_front(word, start).is_some(),
        None => false,
    }
}

/// Returns the text as an unsigned number of 64 bits. Returns Unexpected, at `span`, if the text
/// isn't an integer, and Range, at `span`, if the integer has a `-` or is too large.
fn number(text: &str, span: Span) -> Result<u64>
    ensures { MatchResult result (λ n. unsigned_value 64 text.now ≡ Some n) (λ e.
        (unsigned_value 64 text.now ≡ None) × (e.fault ≢ Fault.Memory)) }
{
    match Integer::of(text) {
        Some(integer) => match integer.unsigned(64) {
            Some(number) => Ok(number),
            None => Err(Error::at(Fault::Range, span)),
        },
        None => Err(Error::at(Fault::Unexpected, span)),
    }
}

/// Parses a keyword that begins with `front`, and returns the number after it.
#[tactic(auto, unfolding(crate::specs::Align::field))]
fn take_field(parser: &mut Parser<'_>, front: &str) -> Result<u64>
    ensures reads { Reads (plain (λ n. n)) (field front.now) result parser.old parser.new }
{
    let span = parser.cur_span();
    let word = parser.take_keyword()?;
    match past_front(word, front) {
        Some(text) => number(text, span),
        None => Err(Error::at(Fault::Unexpected, span)),
    }
}

/// Parses the offset if the next token is an offset. Otherwise returns 0.
#[tactic(auto, unfolding(crate::specs::Memory::offset_or_0))]
fn read_offset(parser: &mut Parser<'_>) -> Result<u64>
    ensures reads { Reads (plain (λ n. n)) offset_or_0 result parser.old parser.new }
{
    if begins_with(parser.cursor(), "offset=") {
        take_field(parser, "offset=")
    } else {
        Ok(0)
    }
}

/// Parses an alignment.
#[tactic(auto, unfolding(crate::specs::Memory::align))]
fn take_align(parser: &mut Parser<'_>) -> Result<u64>
    ensures reads { Reads (plain (λ n. n)) align result parser.old parser.new }
{
    let span = parser.cur_span();
    let align = take_field(parser, "align=")?;
    if align.is_power_of_two() {
        Ok(align)
    } else {
        Err(Error::at(Fault::Alignment, span))
    }
}

/// Parses the alignment if the next token is an alignment. Otherwise returns the default.
#[tactic(auto, unfolding(crate::specs::Memory::align_or))]
fn read_align(parser: &mut Parser<'_>, default: u64) -> Result<u64>
    ensures reads { Reads (plain (λ n. n)) (align_or default) result parser.old parser.new }
{
    if begins_with(parser.cursor(), "align=") {
        take_align(parser)
    } else {
        Ok(default)
    }
}

/// Parses the target: an array if the second token is `type`, otherwise an optional memory.
#[tactic(auto, unfolding(crate::specs::Memory::target))]
fn read_target<'a>(parser: &mut Parser<'a>) -> Result<MemArgTarget<'a>>
    ensures reads { Reads (plain target_view) target result parser.old parser.new }
{
    if !parser.second_is("type") {
        return index_or_0(parser).map(MemArgTarget::Memory);
    }
    in_word_group(parser, "type").map(MemArgTarget::Array)
}

impl<'a> MemArg<'a> {
    /// Parses the operand of a memory access: a target, an offset and an alignment, each optional
    /// (WebAssembly Core Specification, Text Format, Instructions, "Memory Instructions"). `align`
    /// is the default alignment in bytes. Never returns Memory.
    ///
    /// - If the second token is `type`, the target is an array, `( type idx )`. Otherwise the
    ///   target is a memory: an index, or 0 if the next token isn't an index.
    /// - The offset is a keyword such as `offset=8`. The default is 0.
    /// - The alignment is a keyword such as `align=4`.
    ///
    /// An invalid keyword that begins with `offset=` or `align=` is an error at that keyword:
    /// Unexpected if no integer follows the `=`, Range if the integer has a `-` or is too large for
    /// 64 bits, Alignment if the alignment isn't a power of two.
    #[tactic(auto, unfolding(crate::specs::Memory::mem_arg))]
    pub fn read(parser: &mut Parser<'a>, align: u64) -> Result<MemArg<'a>>
        ensures reads { Reads (plain mem_arg_view) (mem_arg align) result parser.old parser.new }
    {
        let target = read_target(parser)?;
        let offset = read_offset(parser)?;
        let align = read_align(parser, align)?;
        Ok(MemArg {
            align,
            offset,
            target,
            ordering: None,
        })
    }

    /// Parses the operand of an atomic access: the same as [`MemArg::read`], and then an optional
    /// memory ordering (WebAssembly Core Specification, Text Format, Instructions, "Memory
    /// Instructions", with the proposals on threads).
    ///
    /// `rmw` is true for a read-modify-write instruction. The ordering is returned as
    /// [`MemArgOrdering::Rmw`] if `rmw` is true, and as [`MemArgOrdering::Op`] otherwise.
    #[tactic(auto, unfolding(crate::specs::Memory::atomic_mem_arg))]
    pub fn read_atomic(parser: &mut Parser<'a>, align: u64, rmw: bool) -> Result<MemArg<'a>>
        ensures reads { Reads (plain mem_arg_view) (atomic_mem_arg align rmw) result parser.old
            parser.new }
    {
        let mut access = MemArg::read(parser, align)?;
        access.ordering = match Option::<Ordering>::parse(parser)? {
            Some(ordering) if rmw => Some(MemArgOrdering::Rmw(ordering)),
            Some(ordering) => Some(MemArgOrdering::Op(ordering)),
            None => None,
        };
        Ok(access)
    }
}

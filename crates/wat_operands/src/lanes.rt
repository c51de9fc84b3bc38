//! Lanes of vectors, and the operands of loads and stores of one lane.

ghost use Rattle.std.specs.Prelude.{◌≡◌};
ghost use Rattle.wat_types.specs.Prelude.{in_front, Reads, plain};
ghost use Rattle.wat_operands.specs.Lanes.{lane_arg, goes_on, is_alone, lane_access_view, lane_access};

use crate::memory::{MemArg, MemArgTarget, begins_with};
use crate::tables::zero;
use wat_tokens::{Cursor, Error, Fault, Parse, Parser, Result};

/// The index of a lane of a vector (WebAssembly Core Specification, Text Format, Instructions,
/// "Vector Instructions").
#[derive(Clone, Debug, Drop)]
pub struct LaneArg {
    /// The index of the lane.
    pub lane: u8,
}

/// The operands of a load or store of one lane, with a memory access of type `M` (WebAssembly Core
/// Specification, Text Format, Instructions, "Memory Instructions").
#[derive(Clone, Debug, Drop)]
pub struct LaneOf<M> {
    /// The memory access.
    pub memarg: M,
    /// The lane.
    pub lane: LaneArg,
}

/// The operands of a load or store of one lane.
pub type LoadOrStoreLane<'a> = LaneOf<MemArg<'a>>;

/// An integer without a sign, 0 to 255. Returns Unexpected, at the integer, if the integer has a
/// sign, and Range, at the integer, if it is too large.
impl<'a> Parse<'a> for LaneArg {
    ghost use Rattle.wat_operands.specs.declared.lanes.LaneArg.{LaneArg};

    ghost View = { LaneArg };

    ghost view = { plain (λ l. l) };

    ghost grammar = { lane_arg };

    #[tactic(auto, unfolding(crate::specs::Lanes::lane_arg))]
    fn parse(parser: &mut Parser<'a>) -> Result<Self> {
        let span = parser.cur_span();
        let integer = parser.take_integer()?;
        if integer.sign().is_some() {
            return Err(Error::at(Fault::Unexpected, span));
        }
        match integer.unsigned(8) {
            Some(lane) => Ok(LaneArg { lane: lane as u8 }),
            None => Err(Error::at(Fault::Range, span)),
        }
    }
}

/// Returns whether the next token is an integer or a keyword that begins with `offset=` or
/// `align=`.
fn goes_on(cursor: Cursor<'_>) -> bool
    ensures { result ≡ goes_on (in_front cursor.entry) }
{
    cursor.integer().is_some() || begins_with(cursor, "offset=") || begins_with(cursor, "align=")
}

/// Returns whether the next token is an integer, and that integer is a lane and not a memory.
fn is_alone(cursor: Cursor<'_>) -> bool
    ensures { result ≡ is_alone (in_front cursor.entry) }
{
    match cursor.integer() {
        Some((_, rest)) => !goes_on(rest),
        None => false,
    }
}

impl<'a> LoadOrStoreLane<'a> {
    /// Parses the operands of a load or store of one lane (WebAssembly Core Specification, Text
    /// Format, Instructions, "Memory Instructions"). `align` is the default alignment in bytes.
    /// Never returns Memory.
    ///
    /// The operand is only a lane if the first token is an integer, and the second is neither an
    /// integer nor a keyword that begins with `offset=` or `align=`. Then the memory and the offset
    /// are 0. Otherwise the operand is a memory access, as [`MemArg::read`] parses it, and then a
    /// lane. The errors are those of the memory access and of the lane.
    #[tactic(auto, unfolding(crate::specs::Lanes::lane_access))]
    pub fn read(parser: &mut Parser<'a>, align: u64) -> Result<LoadOrStoreLane<'a>>
        ensures reads { Reads (plain lane_access_view) (lane_access align) result parser.old
            parser.new }
    {
        let memarg = if is_alone(parser.cursor()) {
            MemArg {
                align,
                offset: 0,
                target: MemArgTarget::Memory(zero(parser)),
                ordering: None,
            }
        } else {
            MemArg::read(parser, align)?
        };
        let lane = LaneArg::parse(parser)?;
        Ok(LaneOf { memarg, lane })
    }
}

//! Values of data segments.

ghost use Rattle.std.specs.Prelude.{◌≡◌, ◌+◌, ◌++◌, length, false, IfOk, IfErr, MatchResult};
ghost use Rattle.wat_links.specs.Prelude.{Reads, owning, no_items};
ghost use Rattle.wat_fields.specs.DataVal.{DataValModel, bytes_in, data_val_view, data_vals_view, heapless_val, data_val};
ghost use Rattle.wat_fields.specs.DataVals.{data_vals};

use crate::numbers::{append, read_numbers};
use wat_tokens::repeat::all_to_end;
use wat_tokens::{Fault, Parse, Parser, Result};

/// A value of a data segment: a string or a list of numbers (WebAssembly Core Specification, Text
/// Format, Modules, "Data Segments"; the numbers are those of the proposal "Numeric Values in WAT
/// Data Segments").
#[derive(Debug, Drop)]
pub enum DataVal<'a> {
    /// The bytes of a string.
    String(&'a [u8]),
    /// The bytes of numbers, in order. Each number is little-endian.
    Integral(Vec<u8>),
}

impl<'a> DataVal<'a> {
    /// Returns the number of bytes.
    pub fn len(&self) -> usize
        ensures { result ≡ length (bytes_in (data_val_view self.now)) }
    {
        match self {
            DataVal::String(bytes) => bytes.len(),
            DataVal::Integral(bytes) => bytes.len(),
        }
    }

    /// Returns whether there are no bytes.
    pub fn is_empty(&self) -> bool
        ensures { result ≡ no_items (bytes_in (data_val_view self.now)) }
    {
        match self {
            DataVal::String(bytes) => bytes.is_empty(),
            DataVal::Integral(bytes) => bytes.is_empty(),
        }
    }

    /// Appends the bytes to a list. The only error is Memory, and only if there are bytes to
    /// append; the list is then unchanged.
    pub fn push_onto(&self, dst: &mut Vec<u8>) -> Result<()>
        ensures put { MatchResult result (λ _. dst.new.items ≡ dst.old.items ++ bytes_in
            (data_val_view self.now)) (λ e. (e.fault ≡ Fault.Memory)
            × (dst.new.items ≡ dst.old.items)) }
        // The list grows by `len` bytes.
        ensures grows { IfOk result (λ _. length dst.new.items ≡ length dst.old.items + length
            (bytes_in (data_val_view self.now))) }
        ensures some { IfErr result (λ _. no_items (bytes_in (data_val_view self.now)) ≡ false) }
    {
        match self {
            DataVal::String(bytes) => append(dst, bytes),
            DataVal::Integral(bytes) => append(dst, bytes),
        }
    }
}

/// Parses a string, or a group of numbers: `(`, one of `i8`, `i16`, `i32`, `i64`, `f32`, `f64` and
/// `v128`, numbers of that type, `)`.
///
/// An integer can have a sign. A vector is parsed as [`V128Const`](wat_operands::V128Const) is. No
/// floating-point number is parsed.
///
/// The errors: Range at an integer that is out of range; FloatLiteral at a floating-point number;
/// the errors of [`V128Const`](wat_operands::V128Const); Memory, but never for a string or a group
/// without numbers; and Unexpected for anything else.
impl<'a> Parse<'a> for DataVal<'a> {
    ghost View = { DataValModel };

    ghost view = { owning data_val_view heapless_val };

    ghost grammar = { data_val };

    #[tactic(auto, unfolding(crate::specs::DataVal::data_val))]
    fn parse(parser: &mut Parser<'a>) -> Result<Self> {
        if !parser.opens() {
            return Ok(DataVal::String(parser.take_string()?));
        }
        parser.open()?;
        let bytes = read_numbers(parser)?;
        parser.close()?;
        Ok(DataVal::Integral(bytes))
    }
}

/// Parses values up to the end of the group.
#[tactic(auto, using(crate::proofs::Lists::consumes), unfolding(crate::specs::DataVals::data_vals))]
pub(crate) fn read_vals<'a>(parser: &mut Parser<'a>) -> Result<Vec<DataVal<'a>>>
    ensures reads { Reads (owning (λ v. data_vals_view v.items) no_items) data_vals result
        parser.old parser.new }
{
    all_to_end::<DataVal>(parser)
}

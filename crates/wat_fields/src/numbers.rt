//! Numbers of data segments, as their bytes.

ghost use Rattle.std.specs.Prelude.{◌≡◌, ◌++◌, ℕ, false, IfErr, MatchResult};
ghost use Rattle.wat_links.specs.Prelude.{w8, w16, w32, w64, Reads, more, plain, owning, no_items};
ghost use Rattle.wat_fields.specs.Numbers.{integer_as_bytes, float_as_bytes, other_numbers, wide_numbers, number_list, begins_integers, begins_numbers};
ghost use Rattle.wat_fields.specs.VectorBytes.{vector_as_bytes};

use wat_operands::V128Const;
use wat_tokens::repeat::{Group, all_groups};
use wat_tokens::{F32, F64, Fault, Parse, Parser, Result};

/// Appends bytes to a list. The only error is Memory, and only if there are bytes to append; the
/// list is then unchanged.
pub(crate) fn append(out: &mut Vec<u8>, bytes: &[u8]) -> Result<()>
    ensures put { MatchResult result (λ _. out.new.items ≡ out.old.items ++ bytes.now) (λ e.
        (e.fault ≡ Fault.Memory) × (out.new.items ≡ out.old.items)) }
    ensures some { IfErr result (λ _. no_items bytes.now ≡ false) }
{
    out.extend_from_slice(bytes)?;
    Ok(())
}

/// Integers of 8 bits.
struct I8Bytes;

impl<'a> Group<'a, u8> for I8Bytes {
    ghost View = { ℕ };

    ghost view = { plain (λ b. b) };

    ghost grammar = { integer_as_bytes w8 8 };

    ghost follows = { more };

    fn follows(parser: &Parser<'a>) -> bool {
        !parser.is_empty()
    }

    #[tactic(auto, using(crate::proofs::Lists::bytes_put))]
    fn take(parser: &mut Parser<'a>, out: &mut Vec<u8>) -> Result<()> {
        let number = i8::parse(parser)?;
        append(out, &number.cast_unsigned().to_le_bytes())
    }
}

/// Integers of 16 bits.
struct I16Bytes;

impl<'a> Group<'a, u8> for I16Bytes {
    ghost View = { ℕ };

    ghost view = { plain (λ b. b) };

    ghost grammar = { integer_as_bytes w16 16 };

    ghost follows = { more };

    fn follows(parser: &Parser<'a>) -> bool {
        !parser.is_empty()
    }

    #[tactic(auto, using(crate::proofs::Lists::bytes_put))]
    fn take(parser: &mut Parser<'a>, out: &mut Vec<u8>) -> Result<()> {
        let number = i16::parse(parser)?;
        append(out, &number.cast_unsigned().to_le_bytes())
    }
}

/// Integers of 32 bits.
struct I32Bytes;

impl<'a> Group<'a, u8> for I32Bytes {
    ghost View = { ℕ };

    ghost view = { plain (λ b. b) };

    ghost grammar = { integer_as_bytes w32 32 };

    ghost follows = { more };

    fn follows(parser: &Parser<'a>) -> bool {
        !parser.is_empty()
    }

    #[tactic(auto, using(crate::proofs::Lists::bytes_put))]
    fn take(parser: &mut Parser<'a>, out: &mut Vec<u8>) -> Result<()> {
        let number = i32::parse(parser)?;
        append(out, &number.cast_unsigned().to_le_bytes())
    }
}

/// Integers of 64 bits.
struct I64Bytes;

impl<'a> Group<'a, u8> for I64Bytes {
    ghost View = { ℕ };

    ghost view = { plain (λ b. b) };

    ghost grammar = { integer_as_bytes w64 64 };

    ghost follows = { more };

    fn follows(parser: &Parser<'a>) -> bool {
        !parser.is_empty()
    }

    #[tactic(auto, using(crate::proofs::Lists::bytes_put))]
    fn take(parser: &mut Parser<'a>, out: &mut Vec<u8>) -> Result<()> {
        let number = i64::parse(parser)?;
        append(out, &number.cast_unsigned().to_le_bytes())
    }
}

/// Floating-point numbers of 32 bits.
struct F32Bytes;

impl<'a> Group<'a, u8> for F32Bytes {
    ghost View = { ℕ };

    ghost view = { plain (λ b. b) };

    ghost grammar = { float_as_bytes w32 };

    ghost follows = { more };

    fn follows(parser: &Parser<'a>) -> bool {
        !parser.is_empty()
    }

    #[tactic(auto, using(crate::proofs::Lists::bytes_put))]
    fn take(parser: &mut Parser<'a>, out: &mut Vec<u8>) -> Result<()> {
        let number = F32::parse(parser)?;
        append(out, &number.bits.to_le_bytes())
    }
}

/// Floating-point numbers of 64 bits.
struct F64Bytes;

impl<'a> Group<'a, u8> for F64Bytes {
    ghost View = { ℕ };

    ghost view = { plain (λ b. b) };

    ghost grammar = { float_as_bytes w64 };

    ghost follows = { more };

    fn follows(parser: &Parser<'a>) -> bool {
        !parser.is_empty()
    }

    #[tactic(auto, using(crate::proofs::Lists::bytes_put))]
    fn take(parser: &mut Parser<'a>, out: &mut Vec<u8>) -> Result<()> {
        let number = F64::parse(parser)?;
        append(out, &number.bits.to_le_bytes())
    }
}

/// Vector constants of 128 bits.
struct V128Bytes;

impl<'a> Group<'a, u8> for V128Bytes {
    ghost View = { ℕ };

    ghost view = { plain (λ b. b) };

    ghost grammar = { vector_as_bytes };

    ghost follows = { more };

    fn follows(parser: &Parser<'a>) -> bool {
        !parser.is_empty()
    }

    #[tactic(auto, using(crate::proofs::Lists::bytes_put))]
    fn take(parser: &mut Parser<'a>, out: &mut Vec<u8>) -> Result<()> {
        let constant = V128Const::parse(parser)?;
        append(out, &constant.to_le_bytes())
    }
}

/// Parses `v128` and constants, or `f32` or `f64` without a number: no floating-point number can be
/// read.
#[tactic(auto, using(crate::proofs::Lists::joins), unfolding(crate::specs::Numbers::other_numbers))]
fn read_other<'a>(parser: &mut Parser<'a>) -> Result<Vec<u8>>
    ensures reads { Reads (owning (λ v. v.items) no_items) other_numbers result parser.old
        parser.new }
{
    if parser.flag("f32") {
        return all_groups::<u8, F32Bytes>(parser);
    }
    if parser.flag("f64") {
        return all_groups::<u8, F64Bytes>(parser);
    }
    parser.keyword("v128")?;
    all_groups::<u8, V128Bytes>(parser)
}

/// Parses `i32` or `i64` and integers of that width, or the numbers of `read_other`.
#[tactic(auto, using(crate::proofs::Lists::joins), unfolding(crate::specs::Numbers::wide_numbers))]
fn read_wide<'a>(parser: &mut Parser<'a>) -> Result<Vec<u8>>
    ensures reads { Reads (owning (λ v. v.items) no_items) wide_numbers result parser.old
        parser.new }
{
    if parser.flag("i32") {
        return all_groups::<u8, I32Bytes>(parser);
    }
    if parser.flag("i64") {
        return all_groups::<u8, I64Bytes>(parser);
    }
    read_other(parser)
}

/// Parses the keyword of a number type, and numbers of that type up to the end of the group.
/// Returns all bytes of the numbers, in order.
///
/// An integer can have a sign. The errors: Range at an integer that is out of range; FloatLiteral
/// for a number after `f32` or `f64`; Unexpected at another keyword.
#[tactic(auto, using(crate::proofs::Lists::joins), unfolding(crate::specs::Numbers::number_list))]
pub(crate) fn read_numbers<'a>(parser: &mut Parser<'a>) -> Result<Vec<u8>>
    ensures reads { Reads (owning (λ v. v.items) no_items) number_list result parser.old
        parser.new }
{
    if parser.flag("i8") {
        return all_groups::<u8, I8Bytes>(parser);
    }
    if parser.flag("i16") {
        return all_groups::<u8, I16Bytes>(parser);
    }
    read_wide(parser)
}

/// Whether a group of integers is next.
fn integers_next(parser: &Parser<'_>) -> bool
    ensures { result ≡ begins_integers parser.now.left }
{
    parser.group_is("i8")
        || parser.group_is("i16")
        || parser.group_is("i32")
        || parser.group_is("i64")
}

/// Whether a group of numbers is next.
pub(crate) fn numbers_next(parser: &Parser<'_>) -> bool
    ensures { result ≡ begins_numbers parser.now.left }
{
    integers_next(parser)
        || parser.group_is("f32")
        || parser.group_is("f64")
        || parser.group_is("v128")
}

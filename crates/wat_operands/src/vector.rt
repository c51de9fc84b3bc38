//! The operands of `v128.const` and `i8x16.shuffle`.

ghost use Rattle.std.specs.Prelude.{◌≡◌, ◌%◌, [], ◌∷◌, ◌++◌, map, flat_map};
ghost use Rattle.wat_types.specs.Prelude.{w16, w32, w64, to_le_bytes, Reads, ReadsAt, plain, holding};
ghost use Rattle.wat_operands.specs.Vector.{two, four, eight, sixteen, all_heapless, float_const, wide_const, v128_const, bytes_of, lane_bits, SameShape, shuffle};
ghost use Rattle.wat_operands.specs.declared.vector.V128Const.{V128Const};

use wat_tokens::{F32, F64, Parse, Parser, Result};

/// The operand of `v128.const`: a constant of 128 bits, as lanes of a shape (WebAssembly Core
/// Specification, Text Format, Instructions, "Vector Instructions").
#[derive(Clone, Debug, Drop)]
pub enum V128Const {
    /// 16 integers of 8 bits.
    I8x16([i8; 16]),
    /// 8 integers of 16 bits.
    I16x8([i16; 8]),
    /// 4 integers of 32 bits.
    I32x4([i32; 4]),
    /// 2 integers of 64 bits.
    I64x2([i64; 2]),
    /// 4 floating-point numbers of 32 bits. The parser never returns this variant: `f32x4` is an
    /// error.
    F32x4([F32; 4]),
    /// 2 floating-point numbers of 64 bits. The parser never returns this variant: `f64x2` is an
    /// error.
    F64x2([F64; 2]),
}

/// The operand of `i8x16.shuffle` (WebAssembly Core Specification, Text Format, Instructions,
/// "Vector Instructions").
#[derive(Clone, Debug, Drop)]
pub struct I8x16Shuffle {
    /// For each lane of the result, the index of the input lane to take.
    pub lanes: [u8; 16],
}

/// Returns the items of `a`, and then the items of `b`.
fn join_2<T: Copy>(a: [T; 2], b: [T; 2]) -> [T; 4]
    ensures { result ≡ a ++ b }
{
    let [a0, a1] = a;
    let [b0, b1] = b;
    [a0, a1, b0, b1]
}

/// Returns the items of `a`, and then the items of `b`.
fn join_4<T: Copy>(a: [T; 4], b: [T; 4]) -> [T; 8]
    ensures { result ≡ a ++ b }
{
    let [a0, a1, a2, a3] = a;
    let [b0, b1, b2, b3] = b;
    [a0, a1, a2, a3, b0, b1, b2, b3]
}

/// Returns the items of `a`, and then the items of `b`.
fn join_8<T: Copy>(a: [T; 8], b: [T; 8]) -> [T; 16]
    ensures { result ≡ a ++ b }
{
    let [a0, a1, a2, a3, a4, a5, a6, a7] = a;
    let [b0, b1, b2, b3, b4, b5, b6, b7] = b;
    [
        a0, a1, a2, a3, a4, a5, a6, a7, b0, b1, b2, b3, b4, b5, b6, b7,
    ]
}

/// Parses two values.
#[tactic(auto, unfolding(crate::specs::Vector::two))]
fn two<'a, T: Parse<'a> + Copy>(parser: &mut Parser<'a>) -> Result<[T; 2]>
    ensures reads { ReadsAt T.cost (holding T.view (map T.view.of) (all_heapless T.view.heapless))
        (two T.grammar) result parser.old parser.new }
{
    let first = T::parse(parser)?;
    let second = T::parse(parser)?;
    Ok([first, second])
}

/// Parses four values.
#[tactic(auto, using(crate::proofs::Again::map_both), unfolding(crate::specs::Vector::four))]
fn four<'a, T: Parse<'a> + Copy>(parser: &mut Parser<'a>) -> Result<[T; 4]>
    ensures reads { ReadsAt T.cost (holding T.view (map T.view.of) (all_heapless T.view.heapless))
        (four T.grammar) result parser.old parser.new }
{
    let first = two::<T>(parser)?;
    let second = two::<T>(parser)?;
    Ok(join_2(first, second))
}

/// Parses eight values.
#[tactic(auto, using(crate::proofs::Again::map_both), unfolding(crate::specs::Vector::eight))]
fn eight<'a, T: Parse<'a> + Copy>(parser: &mut Parser<'a>) -> Result<[T; 8]>
    ensures reads { ReadsAt T.cost (holding T.view (map T.view.of) (all_heapless T.view.heapless))
        (eight T.grammar) result parser.old parser.new }
{
    let first = four::<T>(parser)?;
    let second = four::<T>(parser)?;
    Ok(join_4(first, second))
}

/// Parses sixteen values.
#[tactic(auto, using(crate::proofs::Again::map_both), unfolding(crate::specs::Vector::sixteen))]
fn sixteen<'a, T: Parse<'a> + Copy>(parser: &mut Parser<'a>) -> Result<[T; 16]>
    ensures reads { ReadsAt T.cost (holding T.view (map T.view.of) (all_heapless T.view.heapless))
        (sixteen T.grammar) result parser.old parser.new }
{
    let first = eight::<T>(parser)?;
    let second = eight::<T>(parser)?;
    Ok(join_8(first, second))
}

/// Parses the shape of floating-point lanes, and fails at the first number, since float literals
/// aren't supported.
#[tactic(auto, using(crate::proofs::Again::lanes), unfolding(crate::specs::Vector::float_const))]
fn read_floats<'a>(parser: &mut Parser<'a>) -> Result<V128Const>
    ensures reads { Reads (plain (λ v. v)) float_const result parser.old parser.new }
{
    if parser.flag("f32x4") {
        return Ok(V128Const::F32x4(four::<F32>(parser)?));
    }
    parser.keyword("f64x2")?;
    Ok(V128Const::F64x2(two::<F64>(parser)?))
}

/// Parses a constant whose lanes have 32 or 64 bits.
#[tactic(auto, using(crate::proofs::Again::lanes), unfolding(crate::specs::Vector::wide_const))]
fn read_wide<'a>(parser: &mut Parser<'a>) -> Result<V128Const>
    ensures reads { Reads (plain (λ v. v)) wide_const result parser.old parser.new }
{
    if parser.flag("i32x4") {
        return Ok(V128Const::I32x4(four::<i32>(parser)?));
    }
    if parser.flag("i64x2") {
        return Ok(V128Const::I64x2(two::<i64>(parser)?));
    }
    read_floats(parser)
}

/// A shape and its lanes: `i8x16` and 16 integers of 8 bits, `i16x8` and 8 integers of 16 bits,
/// `i32x4` and 4 integers of 32 bits, or `i64x2` and 2 integers of 64 bits.
///
/// Returns Range, at the integer, if an integer is out of the range of its signed or unsigned type.
/// Returns FloatLiteral, at the first number, after `f32x4` or `f64x2`.
impl<'a> Parse<'a> for V128Const {
    ghost use Rattle.wat_operands.specs.declared.vector.V128Const.{V128Const};

    ghost View = { V128Const };

    ghost view = { plain (λ v. v) };

    ghost grammar = { v128_const };

    #[tactic(auto, using(crate::proofs::Again::lanes), unfolding(crate::specs::Vector::v128_const))]
    fn parse(parser: &mut Parser<'a>) -> Result<Self> {
        if parser.flag("i8x16") {
            return Ok(V128Const::I8x16(sixteen::<i8>(parser)?));
        }
        if parser.flag("i16x8") {
            return Ok(V128Const::I16x8(eight::<i16>(parser)?));
        }
        read_wide(parser)
    }
}

/// 16 unsigned numbers of 8 bits. Returns Range, at the number, if a number has a `-` or is too
/// large.
impl<'a> Parse<'a> for I8x16Shuffle {
    ghost use Rattle.wat_operands.specs.declared.vector.I8x16Shuffle.{I8x16Shuffle};

    ghost View = { I8x16Shuffle };

    ghost view = { plain (λ s. s) };

    ghost grammar = { shuffle };

    #[tactic(auto, using(crate::proofs::Again::lanes), unfolding(crate::specs::Vector::shuffle))]
    fn parse(parser: &mut Parser<'a>) -> Result<Self> {
        let lanes = sixteen::<u8>(parser)?;
        Ok(I8x16Shuffle { lanes })
    }
}

/// The bytes of two numbers, each with its lowest byte first.
fn bytes_of_2(a: u64, b: u64) -> [u8; 16]
    ensures { result ≡ flat_map (to_le_bytes w64) (a ∷ (b ∷ [])) }
{
    join_8(a.to_le_bytes(), b.to_le_bytes())
}

/// The bytes of four numbers, each with its lowest byte first.
fn bytes_of_4(a: u32, b: u32, c: u32, d: u32) -> [u8; 16]
    ensures { result ≡ flat_map (to_le_bytes w32) (a ∷ (b ∷ (c ∷ (d ∷ [])))) }
{
    let first = join_4(a.to_le_bytes(), b.to_le_bytes());
    let second = join_4(c.to_le_bytes(), d.to_le_bytes());
    join_8(first, second)
}

/// The bytes of four numbers, each with its lowest byte first.
fn bytes_of_half(a: u16, b: u16, c: u16, d: u16) -> [u8; 8]
    ensures { result ≡ flat_map (to_le_bytes w16) (a ∷ (b ∷ (c ∷ (d ∷ [])))) }
{
    let first = join_2(a.to_le_bytes(), b.to_le_bytes());
    let second = join_2(c.to_le_bytes(), d.to_le_bytes());
    join_4(first, second)
}

/// The one byte of a number of 8 bits.
fn only_byte(bits: u8) -> u8
    ensures { result ≡ bits % 256 }
{
    let [byte] = bits.to_le_bytes();
    byte
}

/// The bytes of lanes of 8 bits.
fn i8x16_bytes(lanes: [i8; 16]) -> [u8; 16]
    ensures { result ≡ bytes_of (V128Const.I8x16 lanes) }
{
    lanes.map(|lane| only_byte(lane.cast_unsigned()))
}

/// The bytes of lanes of 16 bits.
fn i16x8_bytes(lanes: [i16; 8]) -> [u8; 16]
    ensures { result ≡ bytes_of (V128Const.I16x8 lanes) }
{
    let [a, b, c, d, e, f, g, h] = lanes.map(|lane| lane.cast_unsigned());
    join_8(bytes_of_half(a, b, c, d), bytes_of_half(e, f, g, h))
}

/// The bytes of integer lanes of 32 bits.
fn i32x4_bytes(lanes: [i32; 4]) -> [u8; 16]
    ensures { result ≡ bytes_of (V128Const.I32x4 lanes) }
{
    let [a, b, c, d] = lanes.map(|lane| lane.cast_unsigned());
    bytes_of_4(a, b, c, d)
}

/// The bytes of integer lanes of 64 bits.
fn i64x2_bytes(lanes: [i64; 2]) -> [u8; 16]
    ensures { result ≡ bytes_of (V128Const.I64x2 lanes) }
{
    let [a, b] = lanes.map(|lane| lane.cast_unsigned());
    bytes_of_2(a, b)
}

/// The bytes of floating-point lanes of 32 bits.
fn f32x4_bytes(lanes: [F32; 4]) -> [u8; 16]
    ensures { result ≡ bytes_of (V128Const.F32x4 lanes) }
{
    let [a, b, c, d] = lanes;
    bytes_of_4(a.bits, b.bits, c.bits, d.bits)
}

/// The bytes of floating-point lanes of 64 bits.
fn f64x2_bytes(lanes: [F64; 2]) -> [u8; 16]
    ensures { result ≡ bytes_of (V128Const.F64x2 lanes) }
{
    let [a, b] = lanes;
    bytes_of_2(a.bits, b.bits)
}

impl V128Const {
    /// Returns the 16 bytes of the constant: the lanes in order, each in little-endian byte order
    /// (WebAssembly Core Specification, Text Format, Instructions, "Vector Instructions").
    pub fn to_le_bytes(&self) -> [u8; 16]
        ensures { result ≡ bytes_of self.now }
    {
        match self {
            V128Const::I8x16(lanes) => i8x16_bytes(*lanes),
            V128Const::I16x8(lanes) => i16x8_bytes(*lanes),
            V128Const::I32x4(lanes) => i32x4_bytes(*lanes),
            V128Const::I64x2(lanes) => i64x2_bytes(*lanes),
            V128Const::F32x4(lanes) => f32x4_bytes(*lanes),
            V128Const::F64x2(lanes) => f64x2_bytes(*lanes),
        }
    }
}

/// Law: if two constants of the same shape have equal bytes, their lanes have equal bits.
#[tactic(auto, using(crate::proofs::Bytes::same_bits))]
pub fn equal_bytes()
    ensures { (v w : V128Const) → SameShape v w → bytes_of v ≡ bytes_of w
        → lane_bits v ≡ lane_bits w }
{}

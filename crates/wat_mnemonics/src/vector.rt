//! Vector instructions without an operand.

ghost use Rattle.std.specs.Prelude.{◌≡◌};
ghost use Rattle.wat_mnemonics.specs.Vector.{vector_word, vector_opcode};

use crate::opcode::Opcode;

/// A vector instruction without an operand (WebAssembly Core Specification, Text Format,
/// Instructions, "Vector Instructions").
#[derive(Clone, Copy, Debug, PartialEq, Eq)]
#[allow(non_camel_case_types)]
pub enum VectorOp {
    i8x16_swizzle,
    i8x16_splat,
    i16x8_splat,
    i32x4_splat,
    i64x2_splat,
    f32x4_splat,
    f64x2_splat,
    i8x16_eq,
    i8x16_ne,
    i8x16_lt_s,
    i8x16_lt_u,
    i8x16_gt_s,
    i8x16_gt_u,
    i8x16_le_s,
    i8x16_le_u,
    i8x16_ge_s,
    i8x16_ge_u,
    i16x8_eq,
    i16x8_ne,
    i16x8_lt_s,
    i16x8_lt_u,
    i16x8_gt_s,
    i16x8_gt_u,
    i16x8_le_s,
    i16x8_le_u,
    i16x8_ge_s,
    i16x8_ge_u,
    i32x4_eq,
    i32x4_ne,
    i32x4_lt_s,
    i32x4_lt_u,
    i32x4_gt_s,
    i32x4_gt_u,
    i32x4_le_s,
    i32x4_le_u,
    i32x4_ge_s,
    i32x4_ge_u,
    i64x2_eq,
    i64x2_ne,
    i64x2_lt_s,
    i64x2_gt_s,
    i64x2_le_s,
    i64x2_ge_s,
    f32x4_eq,
    f32x4_ne,
    f32x4_lt,
    f32x4_gt,
    f32x4_le,
    f32x4_ge,
    f64x2_eq,
    f64x2_ne,
    f64x2_lt,
    f64x2_gt,
    f64x2_le,
    f64x2_ge,
    v128_not,
    v128_and,
    v128_andnot,
    v128_or,
    v128_xor,
    v128_bitselect,
    v128_any_true,
    i8x16_abs,
    i8x16_neg,
    i8x16_popcnt,
    i8x16_all_true,
    i8x16_bitmask,
    i8x16_narrow_i16x8_s,
    i8x16_narrow_i16x8_u,
    i8x16_shl,
    i8x16_shr_s,
    i8x16_shr_u,
    i8x16_add,
    i8x16_add_sat_s,
    i8x16_add_sat_u,
    i8x16_sub,
    i8x16_sub_sat_s,
    i8x16_sub_sat_u,
    i8x16_min_s,
    i8x16_min_u,
    i8x16_max_s,
    i8x16_max_u,
    i8x16_avgr_u,
    i16x8_extadd_pairwise_i8x16_s,
    i16x8_extadd_pairwise_i8x16_u,
    i16x8_abs,
    i16x8_neg,
    i16x8_q15mulr_sat_s,
    i16x8_all_true,
    i16x8_bitmask,
    i16x8_narrow_i32x4_s,
    i16x8_narrow_i32x4_u,
    i16x8_extend_low_i8x16_s,
    i16x8_extend_high_i8x16_s,
    i16x8_extend_low_i8x16_u,
    i16x8_extend_high_i8x16_u,
    i16x8_shl,
    i16x8_shr_s,
    i16x8_shr_u,
    i16x8_add,
    i16x8_add_sat_s,
    i16x8_add_sat_u,
    i16x8_sub,
    i16x8_sub_sat_s,
    i16x8_sub_sat_u,
    i16x8_mul,
    i16x8_min_s,
    i16x8_min_u,
    i16x8_max_s,
    i16x8_max_u,
    i16x8_avgr_u,
    i16x8_extmul_low_i8x16_s,
    i16x8_extmul_high_i8x16_s,
    i16x8_extmul_low_i8x16_u,
    i16x8_extmul_high_i8x16_u,
    i32x4_extadd_pairwise_i16x8_s,
    i32x4_extadd_pairwise_i16x8_u,
    i32x4_abs,
    i32x4_neg,
    i32x4_all_true,
    i32x4_bitmask,
    i32x4_extend_low_i16x8_s,
    i32x4_extend_high_i16x8_s,
    i32x4_extend_low_i16x8_u,
    i32x4_extend_high_i16x8_u,
    i32x4_shl,
    i32x4_shr_s,
    i32x4_shr_u,
    i32x4_add,
    i32x4_sub,
    i32x4_mul,
    i32x4_min_s,
    i32x4_min_u,
    i32x4_max_s,
    i32x4_max_u,
    i32x4_dot_i16x8_s,
    i32x4_extmul_low_i16x8_s,
    i32x4_extmul_high_i16x8_s,
    i32x4_extmul_low_i16x8_u,
    i32x4_extmul_high_i16x8_u,
    i64x2_abs,
    i64x2_neg,
    i64x2_all_true,
    i64x2_bitmask,
    i64x2_extend_low_i32x4_s,
    i64x2_extend_high_i32x4_s,
    i64x2_extend_low_i32x4_u,
    i64x2_extend_high_i32x4_u,
    i64x2_shl,
    i64x2_shr_s,
    i64x2_shr_u,
    i64x2_add,
    i64x2_sub,
    i64x2_mul,
    i64x2_extmul_low_i32x4_s,
    i64x2_extmul_high_i32x4_s,
    i64x2_extmul_low_i32x4_u,
    i64x2_extmul_high_i32x4_u,
    f32x4_ceil,
    f32x4_floor,
    f32x4_trunc,
    f32x4_nearest,
    f32x4_abs,
    f32x4_neg,
    f32x4_sqrt,
    f32x4_add,
    f32x4_sub,
    f32x4_mul,
    f32x4_div,
    f32x4_min,
    f32x4_max,
    f32x4_pmin,
    f32x4_pmax,
    f64x2_ceil,
    f64x2_floor,
    f64x2_trunc,
    f64x2_nearest,
    f64x2_abs,
    f64x2_neg,
    f64x2_sqrt,
    f64x2_add,
    f64x2_sub,
    f64x2_mul,
    f64x2_div,
    f64x2_min,
    f64x2_max,
    f64x2_pmin,
    f64x2_pmax,
    i32x4_trunc_sat_f32x4_s,
    i32x4_trunc_sat_f32x4_u,
    f32x4_convert_i32x4_s,
    f32x4_convert_i32x4_u,
    i32x4_trunc_sat_f64x2_s_zero,
    i32x4_trunc_sat_f64x2_u_zero,
    f64x2_convert_low_i32x4_s,
    f64x2_convert_low_i32x4_u,
    f32x4_demote_f64x2_zero,
    f64x2_promote_low_f32x4,
    i8x16_relaxed_swizzle,
    i32x4_relaxed_trunc_f32x4_s,
    i32x4_relaxed_trunc_f32x4_u,
    i32x4_relaxed_trunc_f64x2_s_zero,
    i32x4_relaxed_trunc_f64x2_u_zero,
    f32x4_relaxed_madd,
    f32x4_relaxed_nmadd,
    f64x2_relaxed_madd,
    f64x2_relaxed_nmadd,
    i8x16_relaxed_laneselect,
    i16x8_relaxed_laneselect,
    i32x4_relaxed_laneselect,
    i64x2_relaxed_laneselect,
    f32x4_relaxed_min,
    f32x4_relaxed_max,
    f64x2_relaxed_min,
    f64x2_relaxed_max,
    i16x8_relaxed_q15mulr_s,
    i16x8_relaxed_dot_i8x16_i7x16_s,
    i32x4_relaxed_dot_i8x16_i7x16_add_s,
}

impl VectorOp {
    /// Returns the mnemonic.
    #[inline(always)]
    pub fn word(self) -> &'static str
        ensures { result.now ≡ vector_word self }
    {
        WORDS[self as usize]
    }

    /// Returns the opcode (WebAssembly Core Specification 2.0, "Index of Instructions").
    pub fn opcode(self) -> Opcode
        ensures { result ≡ vector_opcode self }
    {
        OPCODES[self as usize]
    }
}

/// The mnemonic of each variant, in the order of the variants.
static WORDS: [&str; 218] = [
    "i8x16.swizzle",
    "i8x16.splat",
    "i16x8.splat",
    "i32x4.splat",
    "i64x2.splat",
    "f32x4.splat",
    "f64x2.splat",
    "i8x16.eq",
    "i8x16.ne",
    "i8x16.lt_s",
    "i8x16.lt_u",
    "i8x16.gt_s",
    "i8x16.gt_u",
    "i8x16.le_s",
    "i8x16.le_u",
    "i8x16.ge_s",
    "i8x16.ge_u",
    "i16x8.eq",
    "i16x8.ne",
    "i16x8.lt_s",
    "i16x8.lt_u",
    "i16x8.gt_s",
    "i16x8.gt_u",
    "i16x8.le_s",
    "i16x8.le_u",
    "i16x8.ge_s",
    "i16x8.ge_u",
    "i32x4.eq",
    "i32x4.ne",
    "i32x4.lt_s",
    "i32x4.lt_u",
    "i32x4.gt_s",
    "i32x4.gt_u",
    "i32x4.le_s",
    "i32x4.le_u",
    "i32x4.ge_s",
    "i32x4.ge_u",
    "i64x2.eq",
    "i64x2.ne",
    "i64x2.lt_s",
    "i64x2.gt_s",
    "i64x2.le_s",
    "i64x2.ge_s",
    "f32x4.eq",
    "f32x4.ne",
    "f32x4.lt",
    "f32x4.gt",
    "f32x4.le",
    "f32x4.ge",
    "f64x2.eq",
    "f64x2.ne",
    "f64x2.lt",
    "f64x2.gt",
    "f64x2.le",
    "f64x2.ge",
    "v128.not",
    "v128.and",
    "v128.andnot",
    "v128.or",
    "v128.xor",
    "v128.bitselect",
    "v128.any_true",
    "i8x16.abs",
    "i8x16.neg",
    "i8x16.popcnt",
    "i8x16.all_true",
    "i8x16.bitmask",
    "i8x16.narrow_i16x8_s",
    "i8x16.narrow_i16x8_u",
    "i8x16.shl",
    "i8x16.shr_s",
    "i8x16.shr_u",
    "i8x16.add",
    "i8x16.add_sat_s",
    "i8x16.add_sat_u",
    "i8x16.sub",
    "i8x16.sub_sat_s",
    "i8x16.sub_sat_u",
    "i8x16.min_s",
    "i8x16.min_u",
    "i8x16.max_s",
    "i8x16.max_u",
    "i8x16.avgr_u",
    "i16x8.extadd_pairwise_i8x16_s",
    "i16x8.extadd_pairwise_i8x16_u",
    "i16x8.abs",
    "i16x8.neg",
    "i16x8.q15mulr_sat_s",
    "i16x8.all_true",
    "i16x8.bitmask",
    "i16x8.narrow_i32x4_s",
    "i16x8.narrow_i32x4_u",
    "i16x8.extend_low_i8x16_s",
    "i16x8.extend_high_i8x16_s",
    "i16x8.extend_low_i8x16_u",
    "i16x8.extend_high_i8x16_u",
    "i16x8.shl",
    "i16x8.shr_s",
    "i16x8.shr_u",
    "i16x8.add",
    "i16x8.add_sat_s",
    "i16x8.add_sat_u",
    "i16x8.sub",
    "i16x8.sub_sat_s",
    "i16x8.sub_sat_u",
    "i16x8.mul",
    "i16x8.min_s",
    "i16x8.min_u",
    "i16x8.max_s",
    "i16x8.max_u",
    "i16x8.avgr_u",
    "i16x8.extmul_low_i8x16_s",
    "i16x8.extmul_high_i8x16_s",
    "i16x8.extmul_low_i8x16_u",
    "i16x8.extmul_high_i8x16_u",
    "i32x4.extadd_pairwise_i16x8_s",
    "i32x4.extadd_pairwise_i16x8_u",
    "i32x4.abs",
    "i32x4.neg",
    "i32x4.all_true",
    "i32x4.bitmask",
    "i32x4.extend_low_i16x8_s",
    "i32x4.extend_high_i16x8_s",
    "i32x4.extend_low_i16x8_u",
    "i32x4.extend_high_i16x8_u",
    "i32x4.shl",
    "i32x4.shr_s",
    "i32x4.shr_u",
    "i32x4.add",
    "i32x4.sub",
    "i32x4.mul",
    "i32x4.min_s",
    "i32x4.min_u",
    "i32x4.max_s",
    "i32x4.max_u",
    "i32x4.dot_i16x8_s",
    "i32x4.extmul_low_i16x8_s",
    "i32x4.extmul_high_i16x8_s",
    "i32x4.extmul_low_i16x8_u",
    "i32x4.extmul_high_i16x8_u",
    "i64x2.abs",
    "i64x2.neg",
    "i64x2.all_true",
    "i64x2.bitmask",
    "i64x2.extend_low_i32x4_s",
    "i64x2.extend_high_i32x4_s",
    "i64x2.extend_low_i32x4_u",
    "i64x2.extend_high_i32x4_u",
    "i64x2.shl",
    "i64x2.shr_s",
    "i64x2.shr_u",
    "i64x2.add",
    "i64x2.sub",
    "i64x2.mul",
    "i64x2.extmul_low_i32x4_s",
    "i64x2.extmul_high_i32x4_s",
    "i64x2.extmul_low_i32x4_u",
    "i64x2.extmul_high_i32x4_u",
    "f32x4.ceil",
    "f32x4.floor",
    "f32x4.trunc",
    "f32x4.nearest",
    "f32x4.abs",
    "f32x4.neg",
    "f32x4.sqrt",
    "f32x4.add",
    "f32x4.sub",
    "f32x4.mul",
    "f32x4.div",
    "f32x4.min",
    "f32x4.max",
    "f32x4.pmin",
    "f32x4.pmax",
    "f64x2.ceil",
    "f64x2.floor",
    "f64x2.trunc",
    "f64x2.nearest",
    "f64x2.abs",
    "f64x2.neg",
    "f64x2.sqrt",
    "f64x2.add",
    "f64x2.sub",
    "f64x2.mul",
    "f64x2.div",
    "f64x2.min",
    "f64x2.max",
    "f64x2.pmin",
    "f64x2.pmax",
    "i32x4.trunc_sat_f32x4_s",
    "i32x4.trunc_sat_f32x4_u",
    "f32x4.convert_i32x4_s",
    "f32x4.convert_i32x4_u",
    "i32x4.trunc_sat_f64x2_s_zero",
    "i32x4.trunc_sat_f64x2_u_zero",
    "f64x2.convert_low_i32x4_s",
    "f64x2.convert_low_i32x4_u",
    "f32x4.demote_f64x2_zero",
    "f64x2.promote_low_f32x4",
    "i8x16.relaxed_swizzle",
    "i32x4.relaxed_trunc_f32x4_s",
    "i32x4.relaxed_trunc_f32x4_u",
    "i32x4.relaxed_trunc_f64x2_s_zero",
    "i32x4.relaxed_trunc_f64x2_u_zero",
    "f32x4.relaxed_madd",
    "f32x4.relaxed_nmadd",
    "f64x2.relaxed_madd",
    "f64x2.relaxed_nmadd",
    "i8x16.relaxed_laneselect",
    "i16x8.relaxed_laneselect",
    "i32x4.relaxed_laneselect",
    "i64x2.relaxed_laneselect",
    "f32x4.relaxed_min",
    "f32x4.relaxed_max",
    "f64x2.relaxed_min",
    "f64x2.relaxed_max",
    "i16x8.relaxed_q15mulr_s",
    "i16x8.relaxed_dot_i8x16_i7x16_s",
    "i32x4.relaxed_dot_i8x16_i7x16_add_s",
];

/// The opcode of each variant, in the order of the variants.
static OPCODES: [Opcode; 218] = [
    Opcode::Vector(14), // i8x16.swizzle
    Opcode::Vector(15), // i8x16.splat
    Opcode::Vector(16), // i16x8.splat
    Opcode::Vector(17), // i32x4.splat
    Opcode::Vector(18), // i64x2.splat
    Opcode::Vector(19), // f32x4.splat
    Opcode::Vector(20), // f64x2.splat
    Opcode::Vector(35), // i8x16.eq
    Opcode::Vector(36), // i8x16.ne
    Opcode::Vector(37), // i8x16.lt_s
    Opcode::Vector(38), // i8x16.lt_u
    Opcode::Vector(39), // i8x16.gt_s
    Opcode::Vector(40), // i8x16.gt_u
    Opcode::Vector(41), // i8x16.le_s
    Opcode::Vector(42), // i8x16.le_u
    Opcode::Vector(43), // i8x16.ge_s
    Opcode::Vector(44), // i8x16.ge_u
    Opcode::Vector(45), // i16x8.eq
    Opcode::Vector(46), // i16x8.ne
    Opcode::Vector(47), // i16x8.lt_s
    Opcode::Vector(48), // i16x8.lt_u
    Opcode::Vector(49), // i16x8.gt_s
    Opcode::Vector(50), // i16x8.gt_u
    Opcode::Vector(51), // i16x8.le_s
    Opcode::Vector(52), // i16x8.le_u
    Opcode::Vector(53), // i16x8.ge_s
    Opcode::Vector(54), // i16x8.ge_u
    Opcode::Vector(55), // i32x4.eq
    Opcode::Vector(56), // i32x4.ne
    Opcode::Vector(57), // i32x4.lt_s
    Opcode::Vector(58), // i32x4.lt_u
    Opcode::Vector(59), // i32x4.gt_s
    Opcode::Vector(60), // i32x4.gt_u
    Opcode::Vector(61), // i32x4.le_s
    Opcode::Vector(62), // i32x4.le_u
    Opcode::Vector(63), // i32x4.ge_s
    Opcode::Vector(64), // i32x4.ge_u
    Opcode::Vector(214), // i64x2.eq
    Opcode::Vector(215), // i64x2.ne
    Opcode::Vector(216), // i64x2.lt_s
    Opcode::Vector(217), // i64x2.gt_s
    Opcode::Vector(218), // i64x2.le_s
    Opcode::Vector(219), // i64x2.ge_s
    Opcode::Vector(65), // f32x4.eq
    Opcode::Vector(66), // f32x4.ne
    Opcode::Vector(67), // f32x4.lt
    Opcode::Vector(68), // f32x4.gt
    Opcode::Vector(69), // f32x4.le
    Opcode::Vector(70), // f32x4.ge
    Opcode::Vector(71), // f64x2.eq
    Opcode::Vector(72), // f64x2.ne
    Opcode::Vector(73), // f64x2.lt
    Opcode::Vector(74), // f64x2.gt
    Opcode::Vector(75), // f64x2.le
    Opcode::Vector(76), // f64x2.ge
    Opcode::Vector(77), // v128.not
    Opcode::Vector(78), // v128.and
    Opcode::Vector(79), // v128.andnot
    Opcode::Vector(80), // v128.or
    Opcode::Vector(81), // v128.xor
    Opcode::Vector(82), // v128.bitselect
    Opcode::Vector(83), // v128.any_true
    Opcode::Vector(96), // i8x16.abs
    Opcode::Vector(97), // i8x16.neg
    Opcode::Vector(98), // i8x16.popcnt
    Opcode::Vector(99), // i8x16.all_true
    Opcode::Vector(100), // i8x16.bitmask
    Opcode::Vector(101), // i8x16.narrow_i16x8_s
    Opcode::Vector(102), // i8x16.narrow_i16x8_u
    Opcode::Vector(107), // i8x16.shl
    Opcode::Vector(108), // i8x16.shr_s
    Opcode::Vector(109), // i8x16.shr_u
    Opcode::Vector(110), // i8x16.add
    Opcode::Vector(111), // i8x16.add_sat_s
    Opcode::Vector(112), // i8x16.add_sat_u
    Opcode::Vector(113), // i8x16.sub
    Opcode::Vector(114), // i8x16.sub_sat_s
    Opcode::Vector(115), // i8x16.sub_sat_u
    Opcode::Vector(118), // i8x16.min_s
    Opcode::Vector(119), // i8x16.min_u
    Opcode::Vector(120), // i8x16.max_s
    Opcode::Vector(121), // i8x16.max_u
    Opcode::Vector(123), // i8x16.avgr_u
    Opcode::Vector(124), // i16x8.extadd_pairwise_i8x16_s
    Opcode::Vector(125), // i16x8.extadd_pairwise_i8x16_u
    Opcode::Vector(128), // i16x8.abs
    Opcode::Vector(129), // i16x8.neg
    Opcode::Vector(130), // i16x8.q15mulr_sat_s
    Opcode::Vector(131), // i16x8.all_true
    Opcode::Vector(132), // i16x8.bitmask
    Opcode::Vector(133), // i16x8.narrow_i32x4_s
    Opcode::Vector(134), // i16x8.narrow_i32x4_u
    Opcode::Vector(135), // i16x8.extend_low_i8x16_s
    Opcode::Vector(136), // i16x8.extend_high_i8x16_s
    Opcode::Vector(137), // i16x8.extend_low_i8x16_u
    Opcode::Vector(138), // i16x8.extend_high_i8x16_u
    Opcode::Vector(139), // i16x8.shl
    Opcode::Vector(140), // i16x8.shr_s
    Opcode::Vector(141), // i16x8.shr_u
    Opcode::Vector(142), // i16x8.add
    Opcode::Vector(143), // i16x8.add_sat_s
    Opcode::Vector(144), // i16x8.add_sat_u
    Opcode::Vector(145), // i16x8.sub
    Opcode::Vector(146), // i16x8.sub_sat_s
    Opcode::Vector(147), // i16x8.sub_sat_u
    Opcode::Vector(149), // i16x8.mul
    Opcode::Vector(150), // i16x8.min_s
    Opcode::Vector(151), // i16x8.min_u
    Opcode::Vector(152), // i16x8.max_s
    Opcode::Vector(153), // i16x8.max_u
    Opcode::Vector(155), // i16x8.avgr_u
    Opcode::Vector(156), // i16x8.extmul_low_i8x16_s
    Opcode::Vector(157), // i16x8.extmul_high_i8x16_s
    Opcode::Vector(158), // i16x8.extmul_low_i8x16_u
    Opcode::Vector(159), // i16x8.extmul_high_i8x16_u
    Opcode::Vector(126), // i32x4.extadd_pairwise_i16x8_s
    Opcode::Vector(127), // i32x4.extadd_pairwise_i16x8_u
    Opcode::Vector(160), // i32x4.abs
    Opcode::Vector(161), // i32x4.neg
    Opcode::Vector(163), // i32x4.all_true
    Opcode::Vector(164), // i32x4.bitmask
    Opcode::Vector(167), // i32x4.extend_low_i16x8_s
    Opcode::Vector(168), // i32x4.extend_high_i16x8_s
    Opcode::Vector(169), // i32x4.extend_low_i16x8_u
    Opcode::Vector(170), // i32x4.extend_high_i16x8_u
    Opcode::Vector(171), // i32x4.shl
    Opcode::Vector(172), // i32x4.shr_s
    Opcode::Vector(173), // i32x4.shr_u
    Opcode::Vector(174), // i32x4.add
    Opcode::Vector(177), // i32x4.sub
    Opcode::Vector(181), // i32x4.mul
    Opcode::Vector(182), // i32x4.min_s
    Opcode::Vector(183), // i32x4.min_u
    Opcode::Vector(184), // i32x4.max_s
    Opcode::Vector(185), // i32x4.max_u
    Opcode::Vector(186), // i32x4.dot_i16x8_s
    Opcode::Vector(188), // i32x4.extmul_low_i16x8_s
    Opcode::Vector(189), // i32x4.extmul_high_i16x8_s
    Opcode::Vector(190), // i32x4.extmul_low_i16x8_u
    Opcode::Vector(191), // i32x4.extmul_high_i16x8_u
    Opcode::Vector(192), // i64x2.abs
    Opcode::Vector(193), // i64x2.neg
    Opcode::Vector(195), // i64x2.all_true
    Opcode::Vector(196), // i64x2.bitmask
    Opcode::Vector(199), // i64x2.extend_low_i32x4_s
    Opcode::Vector(200), // i64x2.extend_high_i32x4_s
    Opcode::Vector(201), // i64x2.extend_low_i32x4_u
    Opcode::Vector(202), // i64x2.extend_high_i32x4_u
    Opcode::Vector(203), // i64x2.shl
    Opcode::Vector(204), // i64x2.shr_s
    Opcode::Vector(205), // i64x2.shr_u
    Opcode::Vector(206), // i64x2.add
    Opcode::Vector(209), // i64x2.sub
    Opcode::Vector(213), // i64x2.mul
    Opcode::Vector(220), // i64x2.extmul_low_i32x4_s
    Opcode::Vector(221), // i64x2.extmul_high_i32x4_s
    Opcode::Vector(222), // i64x2.extmul_low_i32x4_u
    Opcode::Vector(223), // i64x2.extmul_high_i32x4_u
    Opcode::Vector(103), // f32x4.ceil
    Opcode::Vector(104), // f32x4.floor
    Opcode::Vector(105), // f32x4.trunc
    Opcode::Vector(106), // f32x4.nearest
    Opcode::Vector(224), // f32x4.abs
    Opcode::Vector(225), // f32x4.neg
    Opcode::Vector(227), // f32x4.sqrt
    Opcode::Vector(228), // f32x4.add
    Opcode::Vector(229), // f32x4.sub
    Opcode::Vector(230), // f32x4.mul
    Opcode::Vector(231), // f32x4.div
    Opcode::Vector(232), // f32x4.min
    Opcode::Vector(233), // f32x4.max
    Opcode::Vector(234), // f32x4.pmin
    Opcode::Vector(235), // f32x4.pmax
    Opcode::Vector(116), // f64x2.ceil
    Opcode::Vector(117), // f64x2.floor
    Opcode::Vector(122), // f64x2.trunc
    Opcode::Vector(148), // f64x2.nearest
    Opcode::Vector(236), // f64x2.abs
    Opcode::Vector(237), // f64x2.neg
    Opcode::Vector(239), // f64x2.sqrt
    Opcode::Vector(240), // f64x2.add
    Opcode::Vector(241), // f64x2.sub
    Opcode::Vector(242), // f64x2.mul
    Opcode::Vector(243), // f64x2.div
    Opcode::Vector(244), // f64x2.min
    Opcode::Vector(245), // f64x2.max
    Opcode::Vector(246), // f64x2.pmin
    Opcode::Vector(247), // f64x2.pmax
    Opcode::Vector(248), // i32x4.trunc_sat_f32x4_s
    Opcode::Vector(249), // i32x4.trunc_sat_f32x4_u
    Opcode::Vector(250), // f32x4.convert_i32x4_s
    Opcode::Vector(251), // f32x4.convert_i32x4_u
    Opcode::Vector(252), // i32x4.trunc_sat_f64x2_s_zero
    Opcode::Vector(253), // i32x4.trunc_sat_f64x2_u_zero
    Opcode::Vector(254), // f64x2.convert_low_i32x4_s
    Opcode::Vector(255), // f64x2.convert_low_i32x4_u
    Opcode::Vector(94), // f32x4.demote_f64x2_zero
    Opcode::Vector(95), // f64x2.promote_low_f32x4
    Opcode::Absent, // i8x16.relaxed_swizzle
    Opcode::Absent, // i32x4.relaxed_trunc_f32x4_s
    Opcode::Absent, // i32x4.relaxed_trunc_f32x4_u
    Opcode::Absent, // i32x4.relaxed_trunc_f64x2_s_zero
    Opcode::Absent, // i32x4.relaxed_trunc_f64x2_u_zero
    Opcode::Absent, // f32x4.relaxed_madd
    Opcode::Absent, // f32x4.relaxed_nmadd
    Opcode::Absent, // f64x2.relaxed_madd
    Opcode::Absent, // f64x2.relaxed_nmadd
    Opcode::Absent, // i8x16.relaxed_laneselect
    Opcode::Absent, // i16x8.relaxed_laneselect
    Opcode::Absent, // i32x4.relaxed_laneselect
    Opcode::Absent, // i64x2.relaxed_laneselect
    Opcode::Absent, // f32x4.relaxed_min
    Opcode::Absent, // f32x4.relaxed_max
    Opcode::Absent, // f64x2.relaxed_min
    Opcode::Absent, // f64x2.relaxed_max
    Opcode::Absent, // i16x8.relaxed_q15mulr_s
    Opcode::Absent, // i16x8.relaxed_dot_i8x16_i7x16_s
    Opcode::Absent, // i32x4.relaxed_dot_i8x16_i7x16_add_s
];

//! Instructions without an operand, except vector instructions.

ghost use Rattle.std.specs.Prelude.{◌≡◌};
ghost use Rattle.wat_mnemonics.specs.Scalar.{scalar_word, scalar_opcode};

use crate::opcode::Opcode;

/// An instruction without an operand that is not a vector instruction (WebAssembly Core
/// Specification, Text Format, "Instructions").
#[derive(Clone, Copy, Debug, PartialEq, Eq)]
#[allow(non_camel_case_types)]
pub enum ScalarOp {
    unreachable,
    nop,
    return_,
    drop,
    ref_is_null,
    ref_as_non_null,
    ref_eq,
    array_len,
    ref_i31,
    i31_get_s,
    i31_get_u,
    any_convert_extern,
    extern_convert_any,
    i32_clz,
    i32_ctz,
    i32_popcnt,
    i32_add,
    i32_sub,
    i32_mul,
    i32_div_s,
    i32_div_u,
    i32_rem_s,
    i32_rem_u,
    i32_and,
    i32_or,
    i32_xor,
    i32_shl,
    i32_shr_s,
    i32_shr_u,
    i32_rotl,
    i32_rotr,
    i64_clz,
    i64_ctz,
    i64_popcnt,
    i64_add,
    i64_sub,
    i64_mul,
    i64_div_s,
    i64_div_u,
    i64_rem_s,
    i64_rem_u,
    i64_and,
    i64_or,
    i64_xor,
    i64_shl,
    i64_shr_s,
    i64_shr_u,
    i64_rotl,
    i64_rotr,
    f32_abs,
    f32_neg,
    f32_ceil,
    f32_floor,
    f32_trunc,
    f32_nearest,
    f32_sqrt,
    f32_add,
    f32_sub,
    f32_mul,
    f32_div,
    f32_min,
    f32_max,
    f32_copysign,
    f64_abs,
    f64_neg,
    f64_ceil,
    f64_floor,
    f64_trunc,
    f64_nearest,
    f64_sqrt,
    f64_add,
    f64_sub,
    f64_mul,
    f64_div,
    f64_min,
    f64_max,
    f64_copysign,
    i32_eqz,
    i32_eq,
    i32_ne,
    i32_lt_s,
    i32_lt_u,
    i32_gt_s,
    i32_gt_u,
    i32_le_s,
    i32_le_u,
    i32_ge_s,
    i32_ge_u,
    i64_eqz,
    i64_eq,
    i64_ne,
    i64_lt_s,
    i64_lt_u,
    i64_gt_s,
    i64_gt_u,
    i64_le_s,
    i64_le_u,
    i64_ge_s,
    i64_ge_u,
    f32_eq,
    f32_ne,
    f32_lt,
    f32_gt,
    f32_le,
    f32_ge,
    f64_eq,
    f64_ne,
    f64_lt,
    f64_gt,
    f64_le,
    f64_ge,
    i32_wrap_i64,
    i32_trunc_f32_s,
    i32_trunc_f32_u,
    i32_trunc_f64_s,
    i32_trunc_f64_u,
    i64_extend_i32_s,
    i64_extend_i32_u,
    i64_trunc_f32_s,
    i64_trunc_f32_u,
    i64_trunc_f64_s,
    i64_trunc_f64_u,
    f32_convert_i32_s,
    f32_convert_i32_u,
    f32_convert_i64_s,
    f32_convert_i64_u,
    f32_demote_f64,
    f64_convert_i32_s,
    f64_convert_i32_u,
    f64_convert_i64_s,
    f64_convert_i64_u,
    f64_promote_f32,
    i32_reinterpret_f32,
    i64_reinterpret_f64,
    f32_reinterpret_i32,
    f64_reinterpret_i64,
    i32_trunc_sat_f32_s,
    i32_trunc_sat_f32_u,
    i32_trunc_sat_f64_s,
    i32_trunc_sat_f64_u,
    i64_trunc_sat_f32_s,
    i64_trunc_sat_f32_u,
    i64_trunc_sat_f64_s,
    i64_trunc_sat_f64_u,
    i32_extend8_s,
    i32_extend16_s,
    i64_extend8_s,
    i64_extend16_s,
    i64_extend32_s,
    pause,
    ref_i31_shared,
    throw_ref,
    catch_all,
    i64_add128,
    i64_sub128,
    i64_mul_wide_s,
    i64_mul_wide_u,
}

impl ScalarOp {
    /// Returns the mnemonic.
    #[inline(always)]
    pub fn word(self) -> &'static str
        ensures { result.now ≡ scalar_word self }
    {
        WORDS[self as usize]
    }

    /// Returns the opcode (WebAssembly Core Specification 2.0, "Index of Instructions").
    pub fn opcode(self) -> Opcode
        ensures { result ≡ scalar_opcode self }
    {
        OPCODES[self as usize]
    }
}

/// The mnemonic of each variant, in the order of the variants.
static WORDS: [&str; 157] = [
    "unreachable",
    "nop",
    "return",
    "drop",
    "ref.is_null",
    "ref.as_non_null",
    "ref.eq",
    "array.len",
    "ref.i31",
    "i31.get_s",
    "i31.get_u",
    "any.convert_extern",
    "extern.convert_any",
    "i32.clz",
    "i32.ctz",
    "i32.popcnt",
    "i32.add",
    "i32.sub",
    "i32.mul",
    "i32.div_s",
    "i32.div_u",
    "i32.rem_s",
    "i32.rem_u",
    "i32.and",
    "i32.or",
    "i32.xor",
    "i32.shl",
    "i32.shr_s",
    "i32.shr_u",
    "i32.rotl",
    "i32.rotr",
    "i64.clz",
    "i64.ctz",
    "i64.popcnt",
    "i64.add",
    "i64.sub",
    "i64.mul",
    "i64.div_s",
    "i64.div_u",
    "i64.rem_s",
    "i64.rem_u",
    "i64.and",
    "i64.or",
    "i64.xor",
    "i64.shl",
    "i64.shr_s",
    "i64.shr_u",
    "i64.rotl",
    "i64.rotr",
    "f32.abs",
    "f32.neg",
    "f32.ceil",
    "f32.floor",
    "f32.trunc",
    "f32.nearest",
    "f32.sqrt",
    "f32.add",
    "f32.sub",
    "f32.mul",
    "f32.div",
    "f32.min",
    "f32.max",
    "f32.copysign",
    "f64.abs",
    "f64.neg",
    "f64.ceil",
    "f64.floor",
    "f64.trunc",
    "f64.nearest",
    "f64.sqrt",
    "f64.add",
    "f64.sub",
    "f64.mul",
    "f64.div",
    "f64.min",
    "f64.max",
    "f64.copysign",
    "i32.eqz",
    "i32.eq",
    "i32.ne",
    "i32.lt_s",
    "i32.lt_u",
    "i32.gt_s",
    "i32.gt_u",
    "i32.le_s",
    "i32.le_u",
    "i32.ge_s",
    "i32.ge_u",
    "i64.eqz",
    "i64.eq",
    "i64.ne",
    "i64.lt_s",
    "i64.lt_u",
    "i64.gt_s",
    "i64.gt_u",
    "i64.le_s",
    "i64.le_u",
    "i64.ge_s",
    "i64.ge_u",
    "f32.eq",
    "f32.ne",
    "f32.lt",
    "f32.gt",
    "f32.le",
    "f32.ge",
    "f64.eq",
    "f64.ne",
    "f64.lt",
    "f64.gt",
    "f64.le",
    "f64.ge",
    "i32.wrap_i64",
    "i32.trunc_f32_s",
    "i32.trunc_f32_u",
    "i32.trunc_f64_s",
    "i32.trunc_f64_u",
    "i64.extend_i32_s",
    "i64.extend_i32_u",
    "i64.trunc_f32_s",
    "i64.trunc_f32_u",
    "i64.trunc_f64_s",
    "i64.trunc_f64_u",
    "f32.convert_i32_s",
    "f32.convert_i32_u",
    "f32.convert_i64_s",
    "f32.convert_i64_u",
    "f32.demote_f64",
    "f64.convert_i32_s",
    "f64.convert_i32_u",
    "f64.convert_i64_s",
    "f64.convert_i64_u",
    "f64.promote_f32",
    "i32.reinterpret_f32",
    "i64.reinterpret_f64",
    "f32.reinterpret_i32",
    "f64.reinterpret_i64",
    "i32.trunc_sat_f32_s",
    "i32.trunc_sat_f32_u",
    "i32.trunc_sat_f64_s",
    "i32.trunc_sat_f64_u",
    "i64.trunc_sat_f32_s",
    "i64.trunc_sat_f32_u",
    "i64.trunc_sat_f64_s",
    "i64.trunc_sat_f64_u",
    "i32.extend8_s",
    "i32.extend16_s",
    "i64.extend8_s",
    "i64.extend16_s",
    "i64.extend32_s",
    "pause",
    "ref.i31_shared",
    "throw_ref",
    "catch_all",
    "i64.add128",
    "i64.sub128",
    "i64.mul_wide_s",
    "i64.mul_wide_u",
];

/// The opcode of each variant, in the order of the variants.
static OPCODES: [Opcode; 157] = [
    Opcode::Single(0x00), // unreachable
    Opcode::Single(0x01), // nop
    Opcode::Single(0x0f), // return
    Opcode::Single(0x1a), // drop
    Opcode::Single(0xd1), // ref.is_null
    Opcode::Absent, // ref.as_non_null
    Opcode::Absent, // ref.eq
    Opcode::Absent, // array.len
    Opcode::Absent, // ref.i31
    Opcode::Absent, // i31.get_s
    Opcode::Absent, // i31.get_u
    Opcode::Absent, // any.convert_extern
    Opcode::Absent, // extern.convert_any
    Opcode::Single(0x67), // i32.clz
    Opcode::Single(0x68), // i32.ctz
    Opcode::Single(0x69), // i32.popcnt
    Opcode::Single(0x6a), // i32.add
    Opcode::Single(0x6b), // i32.sub
    Opcode::Single(0x6c), // i32.mul
    Opcode::Single(0x6d), // i32.div_s
    Opcode::Single(0x6e), // i32.div_u
    Opcode::Single(0x6f), // i32.rem_s
    Opcode::Single(0x70), // i32.rem_u
    Opcode::Single(0x71), // i32.and
    Opcode::Single(0x72), // i32.or
    Opcode::Single(0x73), // i32.xor
    Opcode::Single(0x74), // i32.shl
    Opcode::Single(0x75), // i32.shr_s
    Opcode::Single(0x76), // i32.shr_u
    Opcode::Single(0x77), // i32.rotl
    Opcode::Single(0x78), // i32.rotr
    Opcode::Single(0x79), // i64.clz
    Opcode::Single(0x7a), // i64.ctz
    Opcode::Single(0x7b), // i64.popcnt
    Opcode::Single(0x7c), // i64.add
    Opcode::Single(0x7d), // i64.sub
    Opcode::Single(0x7e), // i64.mul
    Opcode::Single(0x7f), // i64.div_s
    Opcode::Single(0x80), // i64.div_u
    Opcode::Single(0x81), // i64.rem_s
    Opcode::Single(0x82), // i64.rem_u
    Opcode::Single(0x83), // i64.and
    Opcode::Single(0x84), // i64.or
    Opcode::Single(0x85), // i64.xor
    Opcode::Single(0x86), // i64.shl
    Opcode::Single(0x87), // i64.shr_s
    Opcode::Single(0x88), // i64.shr_u
    Opcode::Single(0x89), // i64.rotl
    Opcode::Single(0x8a), // i64.rotr
    Opcode::Single(0x8b), // f32.abs
    Opcode::Single(0x8c), // f32.neg
    Opcode::Single(0x8d), // f32.ceil
    Opcode::Single(0x8e), // f32.floor
    Opcode::Single(0x8f), // f32.trunc
    Opcode::Single(0x90), // f32.nearest
    Opcode::Single(0x91), // f32.sqrt
    Opcode::Single(0x92), // f32.add
    Opcode::Single(0x93), // f32.sub
    Opcode::Single(0x94), // f32.mul
    Opcode::Single(0x95), // f32.div
    Opcode::Single(0x96), // f32.min
    Opcode::Single(0x97), // f32.max
    Opcode::Single(0x98), // f32.copysign
    Opcode::Single(0x99), // f64.abs
    Opcode::Single(0x9a), // f64.neg
    Opcode::Single(0x9b), // f64.ceil
    Opcode::Single(0x9c), // f64.floor
    Opcode::Single(0x9d), // f64.trunc
    Opcode::Single(0x9e), // f64.nearest
    Opcode::Single(0x9f), // f64.sqrt
    Opcode::Single(0xa0), // f64.add
    Opcode::Single(0xa1), // f64.sub
    Opcode::Single(0xa2), // f64.mul
    Opcode::Single(0xa3), // f64.div
    Opcode::Single(0xa4), // f64.min
    Opcode::Single(0xa5), // f64.max
    Opcode::Single(0xa6), // f64.copysign
    Opcode::Single(0x45), // i32.eqz
    Opcode::Single(0x46), // i32.eq
    Opcode::Single(0x47), // i32.ne
    Opcode::Single(0x48), // i32.lt_s
    Opcode::Single(0x49), // i32.lt_u
    Opcode::Single(0x4a), // i32.gt_s
    Opcode::Single(0x4b), // i32.gt_u
    Opcode::Single(0x4c), // i32.le_s
    Opcode::Single(0x4d), // i32.le_u
    Opcode::Single(0x4e), // i32.ge_s
    Opcode::Single(0x4f), // i32.ge_u
    Opcode::Single(0x50), // i64.eqz
    Opcode::Single(0x51), // i64.eq
    Opcode::Single(0x52), // i64.ne
    Opcode::Single(0x53), // i64.lt_s
    Opcode::Single(0x54), // i64.lt_u
    Opcode::Single(0x55), // i64.gt_s
    Opcode::Single(0x56), // i64.gt_u
    Opcode::Single(0x57), // i64.le_s
    Opcode::Single(0x58), // i64.le_u
    Opcode::Single(0x59), // i64.ge_s
    Opcode::Single(0x5a), // i64.ge_u
    Opcode::Single(0x5b), // f32.eq
    Opcode::Single(0x5c), // f32.ne
    Opcode::Single(0x5d), // f32.lt
    Opcode::Single(0x5e), // f32.gt
    Opcode::Single(0x5f), // f32.le
    Opcode::Single(0x60), // f32.ge
    Opcode::Single(0x61), // f64.eq
    Opcode::Single(0x62), // f64.ne
    Opcode::Single(0x63), // f64.lt
    Opcode::Single(0x64), // f64.gt
    Opcode::Single(0x65), // f64.le
    Opcode::Single(0x66), // f64.ge
    Opcode::Single(0xa7), // i32.wrap_i64
    Opcode::Single(0xa8), // i32.trunc_f32_s
    Opcode::Single(0xa9), // i32.trunc_f32_u
    Opcode::Single(0xaa), // i32.trunc_f64_s
    Opcode::Single(0xab), // i32.trunc_f64_u
    Opcode::Single(0xac), // i64.extend_i32_s
    Opcode::Single(0xad), // i64.extend_i32_u
    Opcode::Single(0xae), // i64.trunc_f32_s
    Opcode::Single(0xaf), // i64.trunc_f32_u
    Opcode::Single(0xb0), // i64.trunc_f64_s
    Opcode::Single(0xb1), // i64.trunc_f64_u
    Opcode::Single(0xb2), // f32.convert_i32_s
    Opcode::Single(0xb3), // f32.convert_i32_u
    Opcode::Single(0xb4), // f32.convert_i64_s
    Opcode::Single(0xb5), // f32.convert_i64_u
    Opcode::Single(0xb6), // f32.demote_f64
    Opcode::Single(0xb7), // f64.convert_i32_s
    Opcode::Single(0xb8), // f64.convert_i32_u
    Opcode::Single(0xb9), // f64.convert_i64_s
    Opcode::Single(0xba), // f64.convert_i64_u
    Opcode::Single(0xbb), // f64.promote_f32
    Opcode::Single(0xbc), // i32.reinterpret_f32
    Opcode::Single(0xbd), // i64.reinterpret_f64
    Opcode::Single(0xbe), // f32.reinterpret_i32
    Opcode::Single(0xbf), // f64.reinterpret_i64
    Opcode::Saturating(0), // i32.trunc_sat_f32_s
    Opcode::Saturating(1), // i32.trunc_sat_f32_u
    Opcode::Saturating(2), // i32.trunc_sat_f64_s
    Opcode::Saturating(3), // i32.trunc_sat_f64_u
    Opcode::Saturating(4), // i64.trunc_sat_f32_s
    Opcode::Saturating(5), // i64.trunc_sat_f32_u
    Opcode::Saturating(6), // i64.trunc_sat_f64_s
    Opcode::Saturating(7), // i64.trunc_sat_f64_u
    Opcode::Single(0xc0), // i32.extend8_s
    Opcode::Single(0xc1), // i32.extend16_s
    Opcode::Single(0xc2), // i64.extend8_s
    Opcode::Single(0xc3), // i64.extend16_s
    Opcode::Single(0xc4), // i64.extend32_s
    Opcode::Absent, // pause
    Opcode::Absent, // ref.i31_shared
    Opcode::Absent, // throw_ref
    Opcode::Absent, // catch_all
    Opcode::Absent, // i64.add128
    Opcode::Absent, // i64.sub128
    Opcode::Absent, // i64.mul_wide_s
    Opcode::Absent, // i64.mul_wide_u
];

//! Instructions with a memory access.

ghost use Rattle.std.specs.Prelude.{◌≡◌};
ghost use Rattle.wat_mnemonics.specs.Access.{access_word, access_align, atomic_access_word, atomic_access_align, rmw_access_word, rmw_access_align, lane_access_word, lane_access_align};

/// An instruction whose operand is a memory access: a load, a store, a wait or a notify
/// (WebAssembly Core Specification, Text Format, Instructions, "Memory Instructions").
#[derive(Clone, Copy, Debug, PartialEq, Eq)]
#[allow(non_camel_case_types)]
pub enum AccessOp {
    i32_load,
    i64_load,
    f32_load,
    f64_load,
    i32_load8_s,
    i32_load8_u,
    i32_load16_s,
    i32_load16_u,
    i64_load8_s,
    i64_load8_u,
    i64_load16_s,
    i64_load16_u,
    i64_load32_s,
    i64_load32_u,
    i32_store,
    i64_store,
    f32_store,
    f64_store,
    i32_store8,
    i32_store16,
    i64_store8,
    i64_store16,
    i64_store32,
    memory_atomic_notify,
    memory_atomic_wait32,
    memory_atomic_wait64,
    v128_load,
    v128_load8x8_s,
    v128_load8x8_u,
    v128_load16x4_s,
    v128_load16x4_u,
    v128_load32x2_s,
    v128_load32x2_u,
    v128_load8_splat,
    v128_load16_splat,
    v128_load32_splat,
    v128_load64_splat,
    v128_load32_zero,
    v128_load64_zero,
    v128_store,
}

impl AccessOp {
    /// Returns the mnemonic.
    #[inline(always)]
    pub fn word(self) -> &'static str
        ensures { result.now ≡ access_word self }
    {
        match self {
            AccessOp::i32_load => "i32.load",
            AccessOp::i64_load => "i64.load",
            AccessOp::f32_load => "f32.load",
            AccessOp::f64_load => "f64.load",
            AccessOp::i32_load8_s => "i32.load8_s",
            AccessOp::i32_load8_u => "i32.load8_u",
            AccessOp::i32_load16_s => "i32.load16_s",
            AccessOp::i32_load16_u => "i32.load16_u",
            AccessOp::i64_load8_s => "i64.load8_s",
            AccessOp::i64_load8_u => "i64.load8_u",
            AccessOp::i64_load16_s => "i64.load16_s",
            AccessOp::i64_load16_u => "i64.load16_u",
            AccessOp::i64_load32_s => "i64.load32_s",
            AccessOp::i64_load32_u => "i64.load32_u",
            AccessOp::i32_store => "i32.store",
            AccessOp::i64_store => "i64.store",
            AccessOp::f32_store => "f32.store",
            AccessOp::f64_store => "f64.store",
            AccessOp::i32_store8 => "i32.store8",
            AccessOp::i32_store16 => "i32.store16",
            AccessOp::i64_store8 => "i64.store8",
            AccessOp::i64_store16 => "i64.store16",
            AccessOp::i64_store32 => "i64.store32",
            AccessOp::memory_atomic_notify => "memory.atomic.notify",
            AccessOp::memory_atomic_wait32 => "memory.atomic.wait32",
            AccessOp::memory_atomic_wait64 => "memory.atomic.wait64",
            AccessOp::v128_load => "v128.load",
            AccessOp::v128_load8x8_s => "v128.load8x8_s",
            AccessOp::v128_load8x8_u => "v128.load8x8_u",
            AccessOp::v128_load16x4_s => "v128.load16x4_s",
            AccessOp::v128_load16x4_u => "v128.load16x4_u",
            AccessOp::v128_load32x2_s => "v128.load32x2_s",
            AccessOp::v128_load32x2_u => "v128.load32x2_u",
            AccessOp::v128_load8_splat => "v128.load8_splat",
            AccessOp::v128_load16_splat => "v128.load16_splat",
            AccessOp::v128_load32_splat => "v128.load32_splat",
            AccessOp::v128_load64_splat => "v128.load64_splat",
            AccessOp::v128_load32_zero => "v128.load32_zero",
            AccessOp::v128_load64_zero => "v128.load64_zero",
            AccessOp::v128_store => "v128.store",
        }
    }

    /// Returns the default alignment in bytes: the number of bytes that the instruction accesses.
    pub fn align(self) -> u64
        ensures { result ≡ access_align self }
    {
        match self {
            AccessOp::i32_load => 4,
            AccessOp::i64_load => 8,
            AccessOp::f32_load => 4,
            AccessOp::f64_load => 8,
            AccessOp::i32_load8_s => 1,
            AccessOp::i32_load8_u => 1,
            AccessOp::i32_load16_s => 2,
            AccessOp::i32_load16_u => 2,
            AccessOp::i64_load8_s => 1,
            AccessOp::i64_load8_u => 1,
            AccessOp::i64_load16_s => 2,
            AccessOp::i64_load16_u => 2,
            AccessOp::i64_load32_s => 4,
            AccessOp::i64_load32_u => 4,
            AccessOp::i32_store => 4,
            AccessOp::i64_store => 8,
            AccessOp::f32_store => 4,
            AccessOp::f64_store => 8,
            AccessOp::i32_store8 => 1,
            AccessOp::i32_store16 => 2,
            AccessOp::i64_store8 => 1,
            AccessOp::i64_store16 => 2,
            AccessOp::i64_store32 => 4,
            AccessOp::memory_atomic_notify => 4,
            AccessOp::memory_atomic_wait32 => 4,
            AccessOp::memory_atomic_wait64 => 8,
            AccessOp::v128_load => 16,
            AccessOp::v128_load8x8_s => 8,
            AccessOp::v128_load8x8_u => 8,
            AccessOp::v128_load16x4_s => 8,
            AccessOp::v128_load16x4_u => 8,
            AccessOp::v128_load32x2_s => 8,
            AccessOp::v128_load32x2_u => 8,
            AccessOp::v128_load8_splat => 1,
            AccessOp::v128_load16_splat => 2,
            AccessOp::v128_load32_splat => 4,
            AccessOp::v128_load64_splat => 8,
            AccessOp::v128_load32_zero => 4,
            AccessOp::v128_load64_zero => 8,
            AccessOp::v128_store => 16,
        }
    }
}

/// An instruction whose operand is an atomic memory access: an atomic load or store (WebAssembly
/// Core Specification, Text Format, Instructions, "Memory Instructions", with the proposals on
/// threads).
#[derive(Clone, Copy, Debug, PartialEq, Eq)]
#[allow(non_camel_case_types)]
pub enum AtomicAccessOp {
    i32_atomic_load,
    i64_atomic_load,
    i32_atomic_load8_u,
    i32_atomic_load16_u,
    i64_atomic_load8_u,
    i64_atomic_load16_u,
    i64_atomic_load32_u,
    i32_atomic_store,
    i64_atomic_store,
    i32_atomic_store8,
    i32_atomic_store16,
    i64_atomic_store8,
    i64_atomic_store16,
    i64_atomic_store32,
}

impl AtomicAccessOp {
    /// Returns the mnemonic.
    #[inline(always)]
    pub fn word(self) -> &'static str
        ensures { result.now ≡ atomic_access_word self }
    {
        match self {
            AtomicAccessOp::i32_atomic_load => "i32.atomic.load",
            AtomicAccessOp::i64_atomic_load => "i64.atomic.load",
            AtomicAccessOp::i32_atomic_load8_u => "i32.atomic.load8_u",
            AtomicAccessOp::i32_atomic_load16_u => "i32.atomic.load16_u",
            AtomicAccessOp::i64_atomic_load8_u => "i64.atomic.load8_u",
            AtomicAccessOp::i64_atomic_load16_u => "i64.atomic.load16_u",
            AtomicAccessOp::i64_atomic_load32_u => "i64.atomic.load32_u",
            AtomicAccessOp::i32_atomic_store => "i32.atomic.store",
            AtomicAccessOp::i64_atomic_store => "i64.atomic.store",
            AtomicAccessOp::i32_atomic_store8 => "i32.atomic.store8",
            AtomicAccessOp::i32_atomic_store16 => "i32.atomic.store16",
            AtomicAccessOp::i64_atomic_store8 => "i64.atomic.store8",
            AtomicAccessOp::i64_atomic_store16 => "i64.atomic.store16",
            AtomicAccessOp::i64_atomic_store32 => "i64.atomic.store32",
        }
    }

    /// Returns the default alignment in bytes: the number of bytes that the instruction accesses.
    pub fn align(self) -> u64
        ensures { result ≡ atomic_access_align self }
    {
        match self {
            AtomicAccessOp::i32_atomic_load => 4,
            AtomicAccessOp::i64_atomic_load => 8,
            AtomicAccessOp::i32_atomic_load8_u => 1,
            AtomicAccessOp::i32_atomic_load16_u => 2,
            AtomicAccessOp::i64_atomic_load8_u => 1,
            AtomicAccessOp::i64_atomic_load16_u => 2,
            AtomicAccessOp::i64_atomic_load32_u => 4,
            AtomicAccessOp::i32_atomic_store => 4,
            AtomicAccessOp::i64_atomic_store => 8,
            AtomicAccessOp::i32_atomic_store8 => 1,
            AtomicAccessOp::i32_atomic_store16 => 2,
            AtomicAccessOp::i64_atomic_store8 => 1,
            AtomicAccessOp::i64_atomic_store16 => 2,
            AtomicAccessOp::i64_atomic_store32 => 4,
        }
    }
}

/// An atomic read-modify-write instruction on a memory (WebAssembly Core Specification, Text
/// Format, Instructions, "Memory Instructions", with the proposals on threads).
#[derive(Clone, Copy, Debug, PartialEq, Eq)]
#[allow(non_camel_case_types)]
pub enum RmwAccessOp {
    i32_atomic_rmw_add,
    i64_atomic_rmw_add,
    i32_atomic_rmw8_add_u,
    i32_atomic_rmw16_add_u,
    i64_atomic_rmw8_add_u,
    i64_atomic_rmw16_add_u,
    i64_atomic_rmw32_add_u,
    i32_atomic_rmw_sub,
    i64_atomic_rmw_sub,
    i32_atomic_rmw8_sub_u,
    i32_atomic_rmw16_sub_u,
    i64_atomic_rmw8_sub_u,
    i64_atomic_rmw16_sub_u,
    i64_atomic_rmw32_sub_u,
    i32_atomic_rmw_and,
    i64_atomic_rmw_and,
    i32_atomic_rmw8_and_u,
    i32_atomic_rmw16_and_u,
    i64_atomic_rmw8_and_u,
    i64_atomic_rmw16_and_u,
    i64_atomic_rmw32_and_u,
    i32_atomic_rmw_or,
    i64_atomic_rmw_or,
    i32_atomic_rmw8_or_u,
    i32_atomic_rmw16_or_u,
    i64_atomic_rmw8_or_u,
    i64_atomic_rmw16_or_u,
    i64_atomic_rmw32_or_u,
    i32_atomic_rmw_xor,
    i64_atomic_rmw_xor,
    i32_atomic_rmw8_xor_u,
    i32_atomic_rmw16_xor_u,
    i64_atomic_rmw8_xor_u,
    i64_atomic_rmw16_xor_u,
    i64_atomic_rmw32_xor_u,
    i32_atomic_rmw_xchg,
    i64_atomic_rmw_xchg,
    i32_atomic_rmw8_xchg_u,
    i32_atomic_rmw16_xchg_u,
    i64_atomic_rmw8_xchg_u,
    i64_atomic_rmw16_xchg_u,
    i64_atomic_rmw32_xchg_u,
    i32_atomic_rmw_cmpxchg,
    i64_atomic_rmw_cmpxchg,
    i32_atomic_rmw8_cmpxchg_u,
    i32_atomic_rmw16_cmpxchg_u,
    i64_atomic_rmw8_cmpxchg_u,
    i64_atomic_rmw16_cmpxchg_u,
    i64_atomic_rmw32_cmpxchg_u,
}

impl RmwAccessOp {
    /// Returns the mnemonic.
    #[inline(always)]
    pub fn word(self) -> &'static str
        ensures { result.now ≡ rmw_access_word self }
    {
        RMW_WORDS[self as usize]
    }

    /// Returns the default alignment in bytes: the number of bytes that the instruction accesses.
    pub fn align(self) -> u64
        ensures { result ≡ rmw_access_align self }
    {
        match self {
            RmwAccessOp::i32_atomic_rmw_add => 4,
            RmwAccessOp::i64_atomic_rmw_add => 8,
            RmwAccessOp::i32_atomic_rmw8_add_u => 1,
            RmwAccessOp::i32_atomic_rmw16_add_u => 2,
            RmwAccessOp::i64_atomic_rmw8_add_u => 1,
            RmwAccessOp::i64_atomic_rmw16_add_u => 2,
            RmwAccessOp::i64_atomic_rmw32_add_u => 4,
            RmwAccessOp::i32_atomic_rmw_sub => 4,
            RmwAccessOp::i64_atomic_rmw_sub => 8,
            RmwAccessOp::i32_atomic_rmw8_sub_u => 1,
            RmwAccessOp::i32_atomic_rmw16_sub_u => 2,
            RmwAccessOp::i64_atomic_rmw8_sub_u => 1,
            RmwAccessOp::i64_atomic_rmw16_sub_u => 2,
            RmwAccessOp::i64_atomic_rmw32_sub_u => 4,
            RmwAccessOp::i32_atomic_rmw_and => 4,
            RmwAccessOp::i64_atomic_rmw_and => 8,
            RmwAccessOp::i32_atomic_rmw8_and_u => 1,
            RmwAccessOp::i32_atomic_rmw16_and_u => 2,
            RmwAccessOp::i64_atomic_rmw8_and_u => 1,
            RmwAccessOp::i64_atomic_rmw16_and_u => 2,
            RmwAccessOp::i64_atomic_rmw32_and_u => 4,
            RmwAccessOp::i32_atomic_rmw_or => 4,
            RmwAccessOp::i64_atomic_rmw_or => 8,
            RmwAccessOp::i32_atomic_rmw8_or_u => 1,
            RmwAccessOp::i32_atomic_rmw16_or_u => 2,
            RmwAccessOp::i64_atomic_rmw8_or_u => 1,
            RmwAccessOp::i64_atomic_rmw16_or_u => 2,
            RmwAccessOp::i64_atomic_rmw32_or_u => 4,
            RmwAccessOp::i32_atomic_rmw_xor => 4,
            RmwAccessOp::i64_atomic_rmw_xor => 8,
            RmwAccessOp::i32_atomic_rmw8_xor_u => 1,
            RmwAccessOp::i32_atomic_rmw16_xor_u => 2,
            RmwAccessOp::i64_atomic_rmw8_xor_u => 1,
            RmwAccessOp::i64_atomic_rmw16_xor_u => 2,
            RmwAccessOp::i64_atomic_rmw32_xor_u => 4,
            RmwAccessOp::i32_atomic_rmw_xchg => 4,
            RmwAccessOp::i64_atomic_rmw_xchg => 8,
            RmwAccessOp::i32_atomic_rmw8_xchg_u => 1,
            RmwAccessOp::i32_atomic_rmw16_xchg_u => 2,
            RmwAccessOp::i64_atomic_rmw8_xchg_u => 1,
            RmwAccessOp::i64_atomic_rmw16_xchg_u => 2,
            RmwAccessOp::i64_atomic_rmw32_xchg_u => 4,
            RmwAccessOp::i32_atomic_rmw_cmpxchg => 4,
            RmwAccessOp::i64_atomic_rmw_cmpxchg => 8,
            RmwAccessOp::i32_atomic_rmw8_cmpxchg_u => 1,
            RmwAccessOp::i32_atomic_rmw16_cmpxchg_u => 2,
            RmwAccessOp::i64_atomic_rmw8_cmpxchg_u => 1,
            RmwAccessOp::i64_atomic_rmw16_cmpxchg_u => 2,
            RmwAccessOp::i64_atomic_rmw32_cmpxchg_u => 4,
        }
    }
}

/// The mnemonic of each variant, in the order of the variants.
static RMW_WORDS: [&str; 49] = [
    "i32.atomic.rmw.add",
    "i64.atomic.rmw.add",
    "i32.atomic.rmw8.add_u",
    "i32.atomic.rmw16.add_u",
    "i64.atomic.rmw8.add_u",
    "i64.atomic.rmw16.add_u",
    "i64.atomic.rmw32.add_u",
    "i32.atomic.rmw.sub",
    "i64.atomic.rmw.sub",
    "i32.atomic.rmw8.sub_u",
    "i32.atomic.rmw16.sub_u",
    "i64.atomic.rmw8.sub_u",
    "i64.atomic.rmw16.sub_u",
    "i64.atomic.rmw32.sub_u",
    "i32.atomic.rmw.and",
    "i64.atomic.rmw.and",
    "i32.atomic.rmw8.and_u",
    "i32.atomic.rmw16.and_u",
    "i64.atomic.rmw8.and_u",
    "i64.atomic.rmw16.and_u",
    "i64.atomic.rmw32.and_u",
    "i32.atomic.rmw.or",
    "i64.atomic.rmw.or",
    "i32.atomic.rmw8.or_u",
    "i32.atomic.rmw16.or_u",
    "i64.atomic.rmw8.or_u",
    "i64.atomic.rmw16.or_u",
    "i64.atomic.rmw32.or_u",
    "i32.atomic.rmw.xor",
    "i64.atomic.rmw.xor",
    "i32.atomic.rmw8.xor_u",
    "i32.atomic.rmw16.xor_u",
    "i64.atomic.rmw8.xor_u",
    "i64.atomic.rmw16.xor_u",
    "i64.atomic.rmw32.xor_u",
    "i32.atomic.rmw.xchg",
    "i64.atomic.rmw.xchg",
    "i32.atomic.rmw8.xchg_u",
    "i32.atomic.rmw16.xchg_u",
    "i64.atomic.rmw8.xchg_u",
    "i64.atomic.rmw16.xchg_u",
    "i64.atomic.rmw32.xchg_u",
    "i32.atomic.rmw.cmpxchg",
    "i64.atomic.rmw.cmpxchg",
    "i32.atomic.rmw8.cmpxchg_u",
    "i32.atomic.rmw16.cmpxchg_u",
    "i64.atomic.rmw8.cmpxchg_u",
    "i64.atomic.rmw16.cmpxchg_u",
    "i64.atomic.rmw32.cmpxchg_u",
];

/// An instruction whose operand is a memory access and a lane: a load or store of one lane
/// (WebAssembly Core Specification, Text Format, Instructions, "Memory Instructions").
#[derive(Clone, Copy, Debug, PartialEq, Eq)]
#[allow(non_camel_case_types)]
pub enum LaneAccessOp {
    v128_load8_lane,
    v128_load16_lane,
    v128_load32_lane,
    v128_load64_lane,
    v128_store8_lane,
    v128_store16_lane,
    v128_store32_lane,
    v128_store64_lane,
}

impl LaneAccessOp {
    /// Returns the mnemonic.
    #[inline(always)]
    pub fn word(self) -> &'static str
        ensures { result.now ≡ lane_access_word self }
    {
        match self {
            LaneAccessOp::v128_load8_lane => "v128.load8_lane",
            LaneAccessOp::v128_load16_lane => "v128.load16_lane",
            LaneAccessOp::v128_load32_lane => "v128.load32_lane",
            LaneAccessOp::v128_load64_lane => "v128.load64_lane",
            LaneAccessOp::v128_store8_lane => "v128.store8_lane",
            LaneAccessOp::v128_store16_lane => "v128.store16_lane",
            LaneAccessOp::v128_store32_lane => "v128.store32_lane",
            LaneAccessOp::v128_store64_lane => "v128.store64_lane",
        }
    }

    /// Returns the default alignment in bytes: the number of bytes that the instruction accesses.
    pub fn align(self) -> u64
        ensures { result ≡ lane_access_align self }
    {
        match self {
            LaneAccessOp::v128_load8_lane => 1,
            LaneAccessOp::v128_load16_lane => 2,
            LaneAccessOp::v128_load32_lane => 4,
            LaneAccessOp::v128_load64_lane => 8,
            LaneAccessOp::v128_store8_lane => 1,
            LaneAccessOp::v128_store16_lane => 2,
            LaneAccessOp::v128_store32_lane => 4,
            LaneAccessOp::v128_store64_lane => 8,
        }
    }
}

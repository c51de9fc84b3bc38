//! Atomic instructions whose operand begins with an ordering.

ghost use Rattle.std.specs.Prelude.{◌≡◌};
ghost use Rattle.wat_mnemonics.specs.Ordered.{ordered_index_word, ordered_table_word, ordered_struct_word};

/// An atomic instruction whose operand is an ordering and an index: of a global or of an array type
/// (WebAssembly Core Specification, Text Format, "Instructions", with the proposals on threads).
#[derive(Clone, Copy, Debug, PartialEq, Eq)]
#[allow(non_camel_case_types)]
pub enum OrderedIndexOp {
    global_atomic_get,
    global_atomic_set,
    global_atomic_rmw_add,
    global_atomic_rmw_sub,
    global_atomic_rmw_and,
    global_atomic_rmw_or,
    global_atomic_rmw_xor,
    global_atomic_rmw_xchg,
    global_atomic_rmw_cmpxchg,
    array_atomic_get,
    array_atomic_get_s,
    array_atomic_get_u,
    array_atomic_set,
    array_atomic_rmw_add,
    array_atomic_rmw_sub,
    array_atomic_rmw_and,
    array_atomic_rmw_or,
    array_atomic_rmw_xor,
    array_atomic_rmw_xchg,
    array_atomic_rmw_cmpxchg,
}

impl OrderedIndexOp {
    /// Returns the mnemonic.
    #[inline(always)]
    pub fn word(self) -> &'static str
        ensures { result.now ≡ ordered_index_word self }
    {
        match self {
            OrderedIndexOp::global_atomic_get => "global.atomic.get",
            OrderedIndexOp::global_atomic_set => "global.atomic.set",
            OrderedIndexOp::global_atomic_rmw_add => "global.atomic.rmw.add",
            OrderedIndexOp::global_atomic_rmw_sub => "global.atomic.rmw.sub",
            OrderedIndexOp::global_atomic_rmw_and => "global.atomic.rmw.and",
            OrderedIndexOp::global_atomic_rmw_or => "global.atomic.rmw.or",
            OrderedIndexOp::global_atomic_rmw_xor => "global.atomic.rmw.xor",
            OrderedIndexOp::global_atomic_rmw_xchg => "global.atomic.rmw.xchg",
            OrderedIndexOp::global_atomic_rmw_cmpxchg => "global.atomic.rmw.cmpxchg",
            OrderedIndexOp::array_atomic_get => "array.atomic.get",
            OrderedIndexOp::array_atomic_get_s => "array.atomic.get_s",
            OrderedIndexOp::array_atomic_get_u => "array.atomic.get_u",
            OrderedIndexOp::array_atomic_set => "array.atomic.set",
            OrderedIndexOp::array_atomic_rmw_add => "array.atomic.rmw.add",
            OrderedIndexOp::array_atomic_rmw_sub => "array.atomic.rmw.sub",
            OrderedIndexOp::array_atomic_rmw_and => "array.atomic.rmw.and",
            OrderedIndexOp::array_atomic_rmw_or => "array.atomic.rmw.or",
            OrderedIndexOp::array_atomic_rmw_xor => "array.atomic.rmw.xor",
            OrderedIndexOp::array_atomic_rmw_xchg => "array.atomic.rmw.xchg",
            OrderedIndexOp::array_atomic_rmw_cmpxchg => "array.atomic.rmw.cmpxchg",
        }
    }
}

/// An atomic instruction whose operand is an ordering and an optional table (WebAssembly Core
/// Specification, Text Format, "Instructions", with the proposals on threads).
#[derive(Clone, Copy, Debug, PartialEq, Eq)]
#[allow(non_camel_case_types)]
pub enum OrderedTableOp {
    table_atomic_get,
    table_atomic_set,
    table_atomic_rmw_xchg,
    table_atomic_rmw_cmpxchg,
}

impl OrderedTableOp {
    /// Returns the mnemonic.
    #[inline(always)]
    pub fn word(self) -> &'static str
        ensures { result.now ≡ ordered_table_word self }
    {
        match self {
            OrderedTableOp::table_atomic_get => "table.atomic.get",
            OrderedTableOp::table_atomic_set => "table.atomic.set",
            OrderedTableOp::table_atomic_rmw_xchg => "table.atomic.rmw.xchg",
            OrderedTableOp::table_atomic_rmw_cmpxchg => "table.atomic.rmw.cmpxchg",
        }
    }
}

/// An atomic instruction whose operand is an ordering, a structure type and a field (WebAssembly
/// Core Specification, Text Format, "Instructions", with the proposals on threads).
#[derive(Clone, Copy, Debug, PartialEq, Eq)]
#[allow(non_camel_case_types)]
pub enum OrderedStructOp {
    struct_atomic_get,
    struct_atomic_get_s,
    struct_atomic_get_u,
    struct_atomic_set,
    struct_atomic_rmw_add,
    struct_atomic_rmw_sub,
    struct_atomic_rmw_and,
    struct_atomic_rmw_or,
    struct_atomic_rmw_xor,
    struct_atomic_rmw_xchg,
    struct_atomic_rmw_cmpxchg,
}

impl OrderedStructOp {
    /// Returns the mnemonic.
    #[inline(always)]
    pub fn word(self) -> &'static str
        ensures { result.now ≡ ordered_struct_word self }
    {
        match self {
            OrderedStructOp::struct_atomic_get => "struct.atomic.get",
            OrderedStructOp::struct_atomic_get_s => "struct.atomic.get_s",
            OrderedStructOp::struct_atomic_get_u => "struct.atomic.get_u",
            OrderedStructOp::struct_atomic_set => "struct.atomic.set",
            OrderedStructOp::struct_atomic_rmw_add => "struct.atomic.rmw.add",
            OrderedStructOp::struct_atomic_rmw_sub => "struct.atomic.rmw.sub",
            OrderedStructOp::struct_atomic_rmw_and => "struct.atomic.rmw.and",
            OrderedStructOp::struct_atomic_rmw_or => "struct.atomic.rmw.or",
            OrderedStructOp::struct_atomic_rmw_xor => "struct.atomic.rmw.xor",
            OrderedStructOp::struct_atomic_rmw_xchg => "struct.atomic.rmw.xchg",
            OrderedStructOp::struct_atomic_rmw_cmpxchg => "struct.atomic.rmw.cmpxchg",
        }
    }
}

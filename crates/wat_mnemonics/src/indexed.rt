//! Instructions with a block type, a label, indices or a lane.

ghost use Rattle.std.specs.Prelude.{◌≡◌};
ghost use Rattle.wat_mnemonics.specs.Indexed.{block_word, label_word, indexed_word, call_indirect_word, table_word, memory_word, struct_word, array_init_word, lane_word};

/// An instruction whose operand is a block type (WebAssembly Core Specification, Text Format,
/// Instructions, "Control Instructions").
#[derive(Clone, Copy, Debug, PartialEq, Eq)]
#[allow(non_camel_case_types)]
pub enum BlockOp {
    block,
    if_,
    loop_,
    try_,
}

impl BlockOp {
    /// Returns the mnemonic.
    #[inline(always)]
    pub fn word(self) -> &'static str
        ensures { result.now ≡ block_word self }
    {
        match self {
            BlockOp::block => "block",
            BlockOp::if_ => "if",
            BlockOp::loop_ => "loop",
            BlockOp::try_ => "try",
        }
    }
}

/// An instruction whose operand is an optional label: `else` or `end` (WebAssembly Core
/// Specification, Text Format, Instructions, "Control Instructions").
#[derive(Clone, Copy, Debug, PartialEq, Eq)]
#[allow(non_camel_case_types)]
pub enum LabelOp {
    else_,
    end,
}

impl LabelOp {
    /// Returns the mnemonic.
    #[inline(always)]
    pub fn word(self) -> &'static str
        ensures { result.now ≡ label_word self }
    {
        match self {
            LabelOp::else_ => "else",
            LabelOp::end => "end",
        }
    }
}

/// An instruction whose operand is an index (WebAssembly Core Specification, Text Format,
/// "Instructions").
#[derive(Clone, Copy, Debug, PartialEq, Eq)]
#[allow(non_camel_case_types)]
pub enum IndexedOp {
    br,
    br_if,
    call,
    return_call,
    call_ref,
    return_call_ref,
    local_get,
    local_set,
    local_tee,
    global_get,
    global_set,
    data_drop,
    elem_drop,
    ref_func,
    br_on_null,
    br_on_non_null,
    struct_new,
    struct_new_default,
    array_new,
    array_new_default,
    array_get,
    array_get_s,
    array_get_u,
    array_set,
    throw,
    catch,
    rethrow,
    delegate,
    cont_new,
    suspend,
    struct_new_desc,
    struct_new_default_desc,
    ref_get_desc,
}

impl IndexedOp {
    /// Returns the mnemonic.
    #[inline(always)]
    pub fn word(self) -> &'static str
        ensures { result.now ≡ indexed_word self }
    {
        match self {
            IndexedOp::br => "br",
            IndexedOp::br_if => "br_if",
            IndexedOp::call => "call",
            IndexedOp::return_call => "return_call",
            IndexedOp::call_ref => "call_ref",
            IndexedOp::return_call_ref => "return_call_ref",
            IndexedOp::local_get => "local.get",
            IndexedOp::local_set => "local.set",
            IndexedOp::local_tee => "local.tee",
            IndexedOp::global_get => "global.get",
            IndexedOp::global_set => "global.set",
            IndexedOp::data_drop => "data.drop",
            IndexedOp::elem_drop => "elem.drop",
            IndexedOp::ref_func => "ref.func",
            IndexedOp::br_on_null => "br_on_null",
            IndexedOp::br_on_non_null => "br_on_non_null",
            IndexedOp::struct_new => "struct.new",
            IndexedOp::struct_new_default => "struct.new_default",
            IndexedOp::array_new => "array.new",
            IndexedOp::array_new_default => "array.new_default",
            IndexedOp::array_get => "array.get",
            IndexedOp::array_get_s => "array.get_s",
            IndexedOp::array_get_u => "array.get_u",
            IndexedOp::array_set => "array.set",
            IndexedOp::throw => "throw",
            IndexedOp::catch => "catch",
            IndexedOp::rethrow => "rethrow",
            IndexedOp::delegate => "delegate",
            IndexedOp::cont_new => "cont.new",
            IndexedOp::suspend => "suspend",
            IndexedOp::struct_new_desc => "struct.new_desc",
            IndexedOp::struct_new_default_desc => "struct.new_default_desc",
            IndexedOp::ref_get_desc => "ref.get_desc",
        }
    }
}

/// An instruction whose operand is an optional table and a type use (WebAssembly Core
/// Specification, Text Format, Instructions, "Control Instructions").
#[derive(Clone, Copy, Debug, PartialEq, Eq)]
#[allow(non_camel_case_types)]
pub enum CallIndirectOp {
    call_indirect,
    return_call_indirect,
}

impl CallIndirectOp {
    /// Returns the mnemonic.
    #[inline(always)]
    pub fn word(self) -> &'static str
        ensures { result.now ≡ call_indirect_word self }
    {
        match self {
            CallIndirectOp::call_indirect => "call_indirect",
            CallIndirectOp::return_call_indirect => "return_call_indirect",
        }
    }
}

/// An instruction whose operand is an optional table (WebAssembly Core Specification, Text Format,
/// Instructions, "Table Instructions").
#[derive(Clone, Copy, Debug, PartialEq, Eq)]
#[allow(non_camel_case_types)]
pub enum TableOp {
    table_get,
    table_set,
    table_fill,
    table_size,
    table_grow,
}

impl TableOp {
    /// Returns the mnemonic.
    #[inline(always)]
    pub fn word(self) -> &'static str
        ensures { result.now ≡ table_word self }
    {
        match self {
            TableOp::table_get => "table.get",
            TableOp::table_set => "table.set",
            TableOp::table_fill => "table.fill",
            TableOp::table_size => "table.size",
            TableOp::table_grow => "table.grow",
        }
    }
}

/// An instruction whose operand is an optional memory (WebAssembly Core Specification, Text Format,
/// Instructions, "Memory Instructions").
#[derive(Clone, Copy, Debug, PartialEq, Eq)]
#[allow(non_camel_case_types)]
pub enum MemoryOp {
    memory_size,
    memory_grow,
    memory_fill,
    memory_discard,
}

impl MemoryOp {
    /// Returns the mnemonic.
    #[inline(always)]
    pub fn word(self) -> &'static str
        ensures { result.now ≡ memory_word self }
    {
        match self {
            MemoryOp::memory_size => "memory.size",
            MemoryOp::memory_grow => "memory.grow",
            MemoryOp::memory_fill => "memory.fill",
            MemoryOp::memory_discard => "memory.discard",
        }
    }
}

/// An instruction whose operand is a structure type and a field (WebAssembly Core Specification,
/// Text Format, Instructions, "Aggregate Instructions").
#[derive(Clone, Copy, Debug, PartialEq, Eq)]
#[allow(non_camel_case_types)]
pub enum StructOp {
    struct_get,
    struct_get_s,
    struct_get_u,
    struct_set,
}

impl StructOp {
    /// Returns the mnemonic.
    #[inline(always)]
    pub fn word(self) -> &'static str
        ensures { result.now ≡ struct_word self }
    {
        match self {
            StructOp::struct_get => "struct.get",
            StructOp::struct_get_s => "struct.get_s",
            StructOp::struct_get_u => "struct.get_u",
            StructOp::struct_set => "struct.set",
        }
    }
}

/// An instruction whose operand is an array type and a segment (WebAssembly Core Specification,
/// Text Format, Instructions, "Aggregate Instructions").
#[derive(Clone, Copy, Debug, PartialEq, Eq)]
#[allow(non_camel_case_types)]
pub enum ArrayInitOp {
    array_init_data,
    array_init_elem,
}

impl ArrayInitOp {
    /// Returns the mnemonic.
    #[inline(always)]
    pub fn word(self) -> &'static str
        ensures { result.now ≡ array_init_word self }
    {
        match self {
            ArrayInitOp::array_init_data => "array.init_data",
            ArrayInitOp::array_init_elem => "array.init_elem",
        }
    }
}

/// An instruction whose operand is a lane (WebAssembly Core Specification, Text Format,
/// Instructions, "Vector Instructions").
#[derive(Clone, Copy, Debug, PartialEq, Eq)]
#[allow(non_camel_case_types)]
pub enum LaneOp {
    i8x16_extract_lane_s,
    i8x16_extract_lane_u,
    i8x16_replace_lane,
    i16x8_extract_lane_s,
    i16x8_extract_lane_u,
    i16x8_replace_lane,
    i32x4_extract_lane,
    i32x4_replace_lane,
    i64x2_extract_lane,
    i64x2_replace_lane,
    f32x4_extract_lane,
    f32x4_replace_lane,
    f64x2_extract_lane,
    f64x2_replace_lane,
}

impl LaneOp {
    /// Returns the mnemonic.
    #[inline(always)]
    pub fn word(self) -> &'static str
        ensures { result.now ≡ lane_word self }
    {
        match self {
            LaneOp::i8x16_extract_lane_s => "i8x16.extract_lane_s",
            LaneOp::i8x16_extract_lane_u => "i8x16.extract_lane_u",
            LaneOp::i8x16_replace_lane => "i8x16.replace_lane",
            LaneOp::i16x8_extract_lane_s => "i16x8.extract_lane_s",
            LaneOp::i16x8_extract_lane_u => "i16x8.extract_lane_u",
            LaneOp::i16x8_replace_lane => "i16x8.replace_lane",
            LaneOp::i32x4_extract_lane => "i32x4.extract_lane",
            LaneOp::i32x4_replace_lane => "i32x4.replace_lane",
            LaneOp::i64x2_extract_lane => "i64x2.extract_lane",
            LaneOp::i64x2_replace_lane => "i64x2.replace_lane",
            LaneOp::f32x4_extract_lane => "f32x4.extract_lane",
            LaneOp::f32x4_replace_lane => "f32x4.replace_lane",
            LaneOp::f64x2_extract_lane => "f64x2.extract_lane",
            LaneOp::f64x2_replace_lane => "f64x2.replace_lane",
        }
    }
}

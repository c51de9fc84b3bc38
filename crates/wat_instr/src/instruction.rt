//! The type of instructions.

ghost use Rattle.std.specs.Borrow.{sem};
ghost use Rattle.std.specs.Option.{option_map};
ghost use Rattle.std.specs.Prelude.{◌≡◌};
ghost use Rattle.wat_instr.specs.MemoryAccess.{access_in, LendsAccess};

use wat_mnemonics::*;
use wat_operands::*;
use wat_tokens::{F32, F64, Id, Index};
use wat_types::HeapType;

/// An instruction (WebAssembly Core Specification, Text Format, "Instructions").
///
/// Instructions with the same kind of operand share a variant, which holds an enumeration of their
/// mnemonics and the operand. An instruction that shares its kind of operand with no other has its
/// own variant. The name of the variant is the mnemonic, with `_` in place of `.`.
///
/// The type parameters are the types that borrow from the text: indices, identifiers and operands.
/// [`Instruction`] is the type that the parser returns.
#[derive(Drop)]
#[allow(non_camel_case_types)]
pub enum InstructionOf<
    BlockType,
    Id,
    Index,
    CallIndirect,
    MemArg,
    SelectTypes,
    HeapType,
    RefTest,
    RefCast,
    BrOnCast,
    BrOnCastFail,
    TryTable,
    RefCastDescEq,
    BrOnCastDescEq,
    BrOnCastDescEqFail,
> {
    /// `block`, `loop`, `if` or `try`, and its block type. The block type is None if the block has
    /// no label, no name and no type.
    Block(BlockOp, Option<Box<BlockType>>),
    /// `else` or `end`, and its label, if any.
    Label(LabelOp, Option<Id>),
    /// An instruction without an operand that is not a vector instruction.
    Scalar(ScalarOp),
    /// An instruction whose operand is an index.
    Indexed(IndexedOp, Index),
    /// An indirect call.
    CallIndirect(CallIndirectOp, Box<CallIndirect>),
    /// An instruction whose operand is a table.
    Table(TableOp, TableArgOf<Index>),
    /// A load, a store, a wait or a notify.
    Access(AccessOp, MemArg),
    /// An instruction whose operand is a memory.
    Memory(MemoryOp, MemoryArgOf<Index>),
    /// An access to a field of a structure.
    Struct(StructOp, StructAccessOf<Index>),
    /// `array.init_data` or `array.init_elem`, with an array type and a segment.
    ArrayInit(ArrayInitOp, ArrayInitOf<Index>),
    /// An atomic load or store.
    AtomicAccess(AtomicAccessOp, MemArg),
    /// An atomic read-modify-write instruction.
    RmwAccess(RmwAccessOp, MemArg),
    /// An atomic access to a global or to an element of an array.
    OrderedIndex(OrderedIndexOp, Ordered<Index>),
    /// An atomic access to a table.
    OrderedTable(OrderedTableOp, Ordered<TableArgOf<Index>>),
    /// An atomic access to a field of a structure.
    OrderedStruct(OrderedStructOp, Ordered<StructAccessOf<Index>>),
    /// A load or store of one lane.
    LaneAccess(LaneAccessOp, LaneOf<MemArg>),
    /// A lane to extract or to replace.
    Lane(LaneOp, LaneArg),
    /// A vector instruction without an operand.
    Vector(VectorOp),
    /// `br_table`.
    br_table(BrTableIndicesOf<Index>),
    /// `select`.
    select(SelectTypes),
    /// `memory.init`.
    memory_init(MemoryInitOf<Index>),
    /// `memory.copy`.
    memory_copy(MemoryCopyOf<Index>),
    /// `table.init`.
    table_init(TableInitOf<Index>),
    /// `table.copy`.
    table_copy(TableCopyOf<Index>),
    /// `ref.null`.
    ref_null(HeapType),
    /// `array.new_fixed`.
    array_new_fixed(ArrayNewFixedOf<Index>),
    /// `array.new_data`.
    array_new_data(ArrayNewDataOf<Index>),
    /// `array.new_elem`.
    array_new_elem(ArrayNewElemOf<Index>),
    /// `array.fill`.
    array_fill(ArrayFillOf<Index>),
    /// `array.copy`.
    array_copy(ArrayCopyOf<Index>),
    /// `ref.test`.
    ref_test(RefTest),
    /// `ref.cast`.
    ref_cast(RefCast),
    /// `br_on_cast`.
    br_on_cast(Box<BrOnCast>),
    /// `br_on_cast_fail`.
    br_on_cast_fail(Box<BrOnCastFail>),
    /// `i32.const`.
    i32_const(i32),
    /// `i64.const`.
    i64_const(i64),
    /// `f32.const`. The parser never returns it: a float literal is an error.
    f32_const(F32),
    /// `f64.const`. The parser never returns it: a float literal is an error.
    f64_const(F64),
    /// `atomic.fence`.
    atomic_fence(Option<Ordering>),
    /// `v128.const`.
    v128_const(V128Const),
    /// `i8x16.shuffle`.
    i8x16_shuffle(I8x16Shuffle),
    /// `try_table`.
    try_table(TryTable),
    /// `cont.bind`.
    cont_bind(ContBindOf<Index>),
    /// `resume`.
    resume(ResumeOf<Index>),
    /// `resume_throw`.
    resume_throw(Box<ResumeThrowOf<Index>>),
    /// `resume_throw_ref`.
    resume_throw_ref(ResumeThrowRefOf<Index>),
    /// `switch`.
    switch(SwitchOf<Index>),
    /// `ref.cast_desc_eq`.
    ref_cast_desc_eq(RefCastDescEq),
    /// `br_on_cast_desc_eq`.
    br_on_cast_desc_eq(Box<BrOnCastDescEq>),
    /// `br_on_cast_desc_eq_fail`.
    br_on_cast_desc_eq_fail(Box<BrOnCastDescEqFail>),
}

/// An instruction whose identifiers are borrowed from a text with the lifetime `'a` (WebAssembly
/// Core Specification, Text Format, "Instructions").
pub type Instruction<'a> = InstructionOf<
    BlockType<'a>,
    Id<'a>,
    Index<'a>,
    CallIndirect<'a>,
    MemArg<'a>,
    SelectTypes<'a>,
    HeapType<'a>,
    RefTest<'a>,
    RefCast<'a>,
    BrOnCast<'a>,
    BrOnCastFail<'a>,
    TryTable<'a>,
    RefCastDescEq<'a>,
    BrOnCastDescEq<'a>,
    BrOnCastDescEqFail<'a>,
>;

const _: () = prove!(size_of::<Instruction>() == 80);

impl<
    BlockType,
    Id,
    Index,
    CallIndirect,
    MemArg,
    SelectTypes,
    HeapType,
    RefTest,
    RefCast,
    BrOnCast,
    BrOnCastFail,
    TryTable,
    RefCastDescEq,
    BrOnCastDescEq,
    BrOnCastDescEqFail,
> InstructionOf<
    BlockType,
    Id,
    Index,
    CallIndirect,
    MemArg,
    SelectTypes,
    HeapType,
    RefTest,
    RefCast,
    BrOnCast,
    BrOnCastFail,
    TryTable,
    RefCastDescEq,
    BrOnCastDescEq,
    BrOnCastDescEqFail,
> {
    /// Returns the memory access of the operand, including the access of a load or store of one
    /// lane. Returns None if the operand has no memory access. A write through the reference
    /// changes only the access.
    pub fn memarg_mut(&mut self) -> Option<&mut MemArg>
        ensures* writes_back { sem 𝓛 (LendsAccess BlockType.row Id.row Index.row CallIndirect.row
            MemArg.row SelectTypes.row HeapType.row RefTest.row RefCast.row BrOnCast.row
            BrOnCastFail.row TryTable.row RefCastDescEq.row BrOnCastDescEq.row
            BrOnCastDescEqFail.row self.entry result) }
        ensures value { access_in self.old ≡ option_map (λ r. r.now) result }
    {
        match self {
            InstructionOf::Block(_, _) => None,
            InstructionOf::Label(_, _) => None,
            InstructionOf::Scalar(_) => None,
            InstructionOf::Indexed(_, _) => None,
            InstructionOf::CallIndirect(_, _) => None,
            InstructionOf::Table(_, _) => None,
            InstructionOf::Access(_, access) => Some(access),
            InstructionOf::Memory(_, _) => None,
            InstructionOf::Struct(_, _) => None,
            InstructionOf::ArrayInit(_, _) => None,
            InstructionOf::AtomicAccess(_, access) => Some(access),
            InstructionOf::RmwAccess(_, access) => Some(access),
            InstructionOf::OrderedIndex(_, _) => None,
            InstructionOf::OrderedTable(_, _) => None,
            InstructionOf::OrderedStruct(_, _) => None,
            InstructionOf::LaneAccess(_, lane) => Some(&mut lane.memarg),
            InstructionOf::Lane(_, _) => None,
            InstructionOf::Vector(_) => None,
            InstructionOf::br_table(_) => None,
            InstructionOf::select(_) => None,
            InstructionOf::memory_init(_) => None,
            InstructionOf::memory_copy(_) => None,
            InstructionOf::table_init(_) => None,
            InstructionOf::table_copy(_) => None,
            InstructionOf::ref_null(_) => None,
            InstructionOf::array_new_fixed(_) => None,
            InstructionOf::array_new_data(_) => None,
            InstructionOf::array_new_elem(_) => None,
            InstructionOf::array_fill(_) => None,
            InstructionOf::array_copy(_) => None,
            InstructionOf::ref_test(_) => None,
            InstructionOf::ref_cast(_) => None,
            InstructionOf::br_on_cast(_) => None,
            InstructionOf::br_on_cast_fail(_) => None,
            InstructionOf::i32_const(_) => None,
            InstructionOf::i64_const(_) => None,
            InstructionOf::f32_const(_) => None,
            InstructionOf::f64_const(_) => None,
            InstructionOf::atomic_fence(_) => None,
            InstructionOf::v128_const(_) => None,
            InstructionOf::i8x16_shuffle(_) => None,
            InstructionOf::try_table(_) => None,
            InstructionOf::cont_bind(_) => None,
            InstructionOf::resume(_) => None,
            InstructionOf::resume_throw(_) => None,
            InstructionOf::resume_throw_ref(_) => None,
            InstructionOf::switch(_) => None,
            InstructionOf::ref_cast_desc_eq(_) => None,
            InstructionOf::br_on_cast_desc_eq(_) => None,
            InstructionOf::br_on_cast_desc_eq_fail(_) => None,
        }
    }
}

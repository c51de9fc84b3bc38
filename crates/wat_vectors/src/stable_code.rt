//! The list of stable names, continued from `stable_names`: operands, instructions, expressions,
//! fields and modules.
//!
//! The names of the 623 instructions aren't repeated here: `stdout` of `wat_golden` has each of
//! them in the result of a row `mnemonic`. Here is each variant that holds them, with one or
//! more of its instructions, and all whose name ends in `_`.

use crate::stable_names::{are_cloned, are_parsed, are_peeked, is_key, of};
use std::alloc::Global;
use wat_core::wat_mnemonics::*;
use wat_core::{
    ArrayCopy, ArrayFill, ArrayInit, ArrayNewData, ArrayNewElem, ArrayNewFixed, BlockType,
    BrOnCast, BrOnCastDescEq, BrOnCastDescEqFail, BrOnCastFail, BrTableIndices, BranchHint,
    CallIndirect, ContBind, Custom, Data, DataKind, DataVal, Elem, ElemKind, ElemPayload, Export,
    Expression, F32, F64, Func, FuncKind, FunctionType, Global as GlobalField, GlobalKind,
    GlobalType, Handle, HeapType, I8x16Shuffle, Id, Imports, Index, InlineExport, InlineImport,
    Instruction, LaneArg, LoadOrStoreLane, Local, LocalParser, MemArg, MemArgOrdering,
    MemArgTarget, Memory, MemoryArg, MemoryCopy, MemoryInit, MemoryKind, MemoryType, Module,
    ModuleField, ModuleKind, NameAnnotation, Ordered, Ordering, Parser, Rec, RefCast,
    RefCastDescEq, RefTest, RefType, Result, Resume, ResumeTable, ResumeThrow, ResumeThrowRef,
    SelectTypes, Span, StructAccess, Switch, Table, TableArg, TableCopy, TableInit, TableKind,
    TableType, Tag, TagKind, TagType, TryTable, TryTableCatch, TryTableCatchKind, Type, TypeUse,
    V128Const, ValType,
};

// Operands.

pub fn block_type(
    BlockType {
        label,
        label_name,
        ty,
    }: &BlockType<'_>,
) {
    of::<Option<Id>>(label);
    of::<Option<NameAnnotation>>(label_name);
    of::<TypeUse<FunctionType>>(ty);
}

pub fn resumes(resume: &Resume<'_>, throw: &ResumeThrow<'_>, throw_ref: &ResumeThrowRef<'_>) {
    let Resume { type_index, table } = resume;
    of::<Index>(type_index);
    of::<ResumeTable>(table);
    let ResumeThrow {
        type_index,
        tag_index,
        table,
    } = throw;
    of::<[&Index; 2]>(&[type_index, tag_index]);
    of::<ResumeTable>(table);
    let ResumeThrowRef { type_index, table } = throw_ref;
    of::<Index>(type_index);
    of::<ResumeTable>(table);
}

pub fn handlers(ResumeTable { handlers }: &ResumeTable<'_>) {
    of::<Vec<Handle>>(handlers);
}

pub fn handle(it: &Handle<'_>) {
    match it {
        Handle::OnLabel { tag, label } => of::<[&Index; 2]>(&[tag, label]),
        Handle::OnSwitch { tag } => of::<Index>(tag),
    }
}

pub fn stacks(bind: &ContBind<'_>, switch: &Switch<'_>) {
    let ContBind {
        argument_index,
        result_index,
    } = bind;
    of::<[&Index; 2]>(&[argument_index, result_index]);
    let Switch {
        type_index,
        tag_index,
    } = switch;
    of::<[&Index; 2]>(&[type_index, tag_index]);
}

pub fn try_table(TryTable { block, catches }: &TryTable<'_>) {
    of::<Box<BlockType>>(block);
    of::<Vec<TryTableCatch>>(catches);
}

pub fn try_table_catch(TryTableCatch { kind, label }: &TryTableCatch<'_>) {
    of::<TryTableCatchKind>(kind);
    of::<Index>(label);
}

pub fn try_table_catch_kind<'v, 'a>(
    it: &'v mut TryTableCatchKind<'a>,
) -> Option<&'v mut Index<'a>> {
    match it {
        TryTableCatchKind::Catch(tag) | TryTableCatchKind::CatchRef(tag) => of::<Index>(tag),
        TryTableCatchKind::CatchAll | TryTableCatchKind::CatchAllRef => {}
    }
    it.tag_index_mut()
}

pub fn br_table(BrTableIndices { labels, default }: &BrTableIndices<'_>) {
    of::<Vec<Index>>(labels);
    of::<Index>(default);
}

pub fn mem_arg(it: &MemArg<'_>) {
    let MemArg {
        align,
        offset,
        target,
        ordering,
    } = it;
    of::<[&u64; 2]>(&[align, offset]);
    of::<MemArgTarget>(target);
    of::<Option<MemArgOrdering>>(ordering);
}

pub fn mem_arg_parts(target: &MemArgTarget<'_>, ordering: &MemArgOrdering) {
    match target {
        MemArgTarget::Memory(index) | MemArgTarget::Array(index) => of::<Index>(index),
    }
    match ordering {
        MemArgOrdering::Op(kind) | MemArgOrdering::Rmw(kind) => of::<Ordering>(kind),
    }
}

pub fn lanes(lane: &LaneArg, access: &LoadOrStoreLane<'_>) {
    of::<u8>(&lane.lane);
    let LoadOrStoreLane { memarg, lane } = access;
    of::<MemArg>(memarg);
    of::<LaneArg>(lane);
}

pub fn accesses<'a>(
    parser: &mut Parser<'a>,
) -> Result<(MemArg<'a>, MemArg<'a>, LoadOrStoreLane<'a>)> {
    let plain = MemArg::read(parser, 4)?;
    let atomic = MemArg::read_atomic(parser, 4, true)?;
    let lane = LoadOrStoreLane::read(parser, 1)?;
    Ok((plain, atomic, lane))
}

pub fn call_indirect(CallIndirect { table, ty }: &CallIndirect<'_>) {
    of::<Index>(table);
    of::<TypeUse<FunctionType>>(ty);
}

pub fn tables(arg: &TableArg<'_>, init: &TableInit<'_>, copy: &TableCopy<'_>) {
    of::<Index>(&arg.dst);
    let TableInit { table, elem } = init;
    of::<[&Index; 2]>(&[table, elem]);
    let TableCopy { dst, src } = copy;
    of::<[&Index; 2]>(&[dst, src]);
}

pub fn memories(arg: &MemoryArg<'_>, init: &MemoryInit<'_>, copy: &MemoryCopy<'_>) {
    of::<Index>(&arg.mem);
    let MemoryInit { data, mem } = init;
    of::<[&Index; 2]>(&[data, mem]);
    let MemoryCopy { src, dst } = copy;
    of::<[&Index; 2]>(&[src, dst]);
}

pub fn struct_access(StructAccess { struct_, field }: &StructAccess<'_>) {
    of::<[&Index; 2]>(&[struct_, field]);
}

pub fn arrays(fill: &ArrayFill<'_>, copy: &ArrayCopy<'_>, init: &ArrayInit<'_>) {
    of::<Index>(&fill.array);
    let ArrayCopy {
        dest_array,
        src_array,
    } = copy;
    of::<[&Index; 2]>(&[dest_array, src_array]);
    let ArrayInit { array, segment } = init;
    of::<[&Index; 2]>(&[array, segment]);
}

pub fn new_arrays(fixed: &ArrayNewFixed<'_>, data: &ArrayNewData<'_>, elem: &ArrayNewElem<'_>) {
    let ArrayNewFixed { array, length } = fixed;
    of::<Index>(array);
    of::<u32>(length);
    let ArrayNewData { array, data_idx } = data;
    of::<[&Index; 2]>(&[array, data_idx]);
    let ArrayNewElem { array, elem_idx } = elem;
    of::<[&Index; 2]>(&[array, elem_idx]);
}

pub fn casts(cast: &RefCast<'_>, test: &RefTest<'_>, desc_eq: &RefCastDescEq<'_>) {
    of::<RefType>(&cast.type_);
    of::<RefType>(&test.type_);
    of::<RefType>(&desc_eq.type_);
}

pub fn cast_branches(cast: &BrOnCast<'_>, fail: &BrOnCastFail<'_>) {
    let BrOnCast {
        label,
        from_type,
        to_type,
    } = cast;
    of::<Index>(label);
    of::<[&RefType; 2]>(&[from_type, to_type]);
    let BrOnCastFail {
        label,
        from_type,
        to_type,
    } = fail;
    of::<Index>(label);
    of::<[&RefType; 2]>(&[from_type, to_type]);
}

pub fn descriptor_branches(cast: &BrOnCastDescEq<'_>, fail: &BrOnCastDescEqFail<'_>) {
    let BrOnCastDescEq {
        label,
        from_type,
        to_type,
    } = cast;
    of::<Index>(label);
    of::<[&RefType; 2]>(&[from_type, to_type]);
    let BrOnCastDescEqFail {
        label,
        from_type,
        to_type,
    } = fail;
    of::<Index>(label);
    of::<[&RefType; 2]>(&[from_type, to_type]);
}

pub fn ordered<T>(it: &Ordered<T>) {
    let Ordered { ordering, inner } = it;
    of::<T>(inner);
    match ordering {
        Ordering::AcqRel | Ordering::SeqCst => {}
    }
}

pub fn v128_const(it: &V128Const) -> [u8; 16] {
    match it {
        V128Const::I8x16(lanes) => of::<[i8; 16]>(lanes),
        V128Const::I16x8(lanes) => of::<[i16; 8]>(lanes),
        V128Const::I32x4(lanes) => of::<[i32; 4]>(lanes),
        V128Const::I64x2(lanes) => of::<[i64; 2]>(lanes),
        V128Const::F32x4(lanes) => of::<[F32; 4]>(lanes),
        V128Const::F64x2(lanes) => of::<[F64; 2]>(lanes),
    }
    it.to_le_bytes()
}

pub fn shuffle_and_select(shuffle: &I8x16Shuffle, select: &SelectTypes<'_>) {
    of::<[u8; 16]>(&shuffle.lanes);
    of::<Option<Vec<ValType>>>(&select.tys);
}

pub fn copies_of_calls<'a>(
    block: &BlockType<'a>,
    call: &CallIndirect<'a>,
    table: &BrTableIndices<'a>,
    select: &SelectTypes<'a>,
    instruction: &Instruction<'a>,
) -> (
    Result<BlockType<'a>>,
    Result<CallIndirect<'a>>,
    Result<BrTableIndices<'a>>,
    Result<SelectTypes<'a>>,
    Result<Instruction<'a>>,
) {
    (
        block.clone(),
        call.clone(),
        table.clone(),
        select.clone(),
        instruction.clone(),
    )
}

pub fn copies_of_handlers<'a>(
    table: &ResumeTable<'a>,
    resume: &Resume<'a>,
    throw: &ResumeThrow<'a>,
    throw_ref: &ResumeThrowRef<'a>,
    try_table: &TryTable<'a>,
) -> (
    Result<ResumeTable<'a>>,
    Result<Resume<'a>>,
    Result<ResumeThrow<'a>>,
    Result<ResumeThrowRef<'a>>,
    Result<TryTable<'a>>,
) {
    (
        table.clone(),
        resume.clone(),
        throw.clone(),
        throw_ref.clone(),
        try_table.clone(),
    )
}

// Instructions.

pub fn instructions_of_families() -> [Op; 17] {
    [
        Op::Block(BlockOp::block),
        Op::Block(BlockOp::if_),
        Op::Block(BlockOp::loop_),
        Op::Block(BlockOp::try_),
        Op::Label(LabelOp::else_),
        Op::Label(LabelOp::end),
        Op::Scalar(ScalarOp::unreachable),
        Op::Scalar(ScalarOp::return_),
        Op::Vector(VectorOp::i8x16_swizzle),
        Op::Indexed(IndexedOp::br),
        Op::CallIndirect(CallIndirectOp::call_indirect),
        Op::Table(TableOp::table_get),
        Op::Memory(MemoryOp::memory_size),
        Op::Struct(StructOp::struct_get),
        Op::ArrayInit(ArrayInitOp::array_init_data),
        Op::Lane(LaneOp::i8x16_extract_lane_s),
        Op::LaneAccess(LaneAccessOp::v128_load8_lane),
    ]
}

pub fn instructions_of_accesses() -> [Op; 6] {
    [
        Op::Access(AccessOp::i32_load),
        Op::AtomicAccess(AtomicAccessOp::i32_atomic_load),
        Op::RmwAccess(RmwAccessOp::i32_atomic_rmw_add),
        Op::OrderedIndex(OrderedIndexOp::global_atomic_get),
        Op::OrderedTable(OrderedTableOp::table_atomic_get),
        Op::OrderedStruct(OrderedStructOp::struct_atomic_get),
    ]
}

pub fn shared_variants(it: &Instruction<'_>) {
    match it {
        Instruction::Block(_, block) => of::<Option<Box<BlockType>>>(block),
        Instruction::Label(_, label) => of::<Option<Id>>(label),
        Instruction::Scalar(op) => of::<ScalarOp>(op),
        Instruction::Vector(op) => of::<VectorOp>(op),
        Instruction::Indexed(_, index) => of::<Index>(index),
        Instruction::CallIndirect(_, call) => of::<Box<CallIndirect>>(call),
        Instruction::Table(_, table) => of::<TableArg>(table),
        Instruction::Access(_, access) => of::<MemArg>(access),
        Instruction::AtomicAccess(_, access) => of::<MemArg>(access),
        Instruction::RmwAccess(_, access) => of::<MemArg>(access),
        Instruction::Memory(_, memory) => of::<MemoryArg>(memory),
        Instruction::Struct(_, access) => of::<StructAccess>(access),
        Instruction::ArrayInit(_, init) => of::<ArrayInit>(init),
        Instruction::OrderedIndex(_, index) => of::<Ordered<Index>>(index),
        Instruction::OrderedTable(_, table) => of::<Ordered<TableArg>>(table),
        Instruction::OrderedStruct(_, access) => of::<Ordered<StructAccess>>(access),
        Instruction::LaneAccess(_, access) => of::<LoadOrStoreLane>(access),
        Instruction::Lane(_, lane) => of::<LaneArg>(lane),
        _ => {}
    }
}

pub fn single_variants(it: &Instruction<'_>) {
    match it {
        Instruction::br_table(table) => of::<BrTableIndices>(table),
        Instruction::select(types) => of::<SelectTypes>(types),
        Instruction::memory_init(init) => of::<MemoryInit>(init),
        Instruction::memory_copy(copy) => of::<MemoryCopy>(copy),
        Instruction::table_init(init) => of::<TableInit>(init),
        Instruction::table_copy(copy) => of::<TableCopy>(copy),
        Instruction::ref_null(heap) => of::<HeapType>(heap),
        Instruction::array_new_fixed(array) => of::<ArrayNewFixed>(array),
        Instruction::array_new_data(array) => of::<ArrayNewData>(array),
        Instruction::array_new_elem(array) => of::<ArrayNewElem>(array),
        Instruction::array_fill(array) => of::<ArrayFill>(array),
        Instruction::array_copy(array) => of::<ArrayCopy>(array),
        Instruction::i32_const(number) => of::<i32>(number),
        Instruction::i64_const(number) => of::<i64>(number),
        Instruction::f32_const(number) => of::<F32>(number),
        Instruction::f64_const(number) => of::<F64>(number),
        Instruction::atomic_fence(ordering) => of::<Option<Ordering>>(ordering),
        Instruction::v128_const(constant) => of::<V128Const>(constant),
        Instruction::i8x16_shuffle(shuffle) => of::<I8x16Shuffle>(shuffle),
        _ => {}
    }
}

pub fn single_variants_of_types(it: &Instruction<'_>) {
    match it {
        Instruction::ref_test(test) => of::<RefTest>(test),
        Instruction::ref_cast(cast) => of::<RefCast>(cast),
        Instruction::ref_cast_desc_eq(cast) => of::<RefCastDescEq>(cast),
        Instruction::br_on_cast(cast) => of::<Box<BrOnCast>>(cast),
        Instruction::br_on_cast_fail(cast) => of::<Box<BrOnCastFail>>(cast),
        Instruction::br_on_cast_desc_eq(cast) => of::<Box<BrOnCastDescEq>>(cast),
        Instruction::br_on_cast_desc_eq_fail(cast) => of::<Box<BrOnCastDescEqFail>>(cast),
        Instruction::try_table(table) => of::<TryTable>(table),
        Instruction::cont_bind(bind) => of::<ContBind>(bind),
        Instruction::resume(resume) => of::<Resume>(resume),
        Instruction::resume_throw(resume) => of::<Box<ResumeThrow>>(resume),
        Instruction::resume_throw_ref(resume) => of::<ResumeThrowRef>(resume),
        Instruction::switch(switch) => of::<Switch>(switch),
        _ => {}
    }
}

pub fn instruction(
    it: &Instruction<'_>,
    out: &mut Vec<u8>,
) -> Result<(&'static str, Option<usize>)> {
    Ok((it.mnemonic(), it.write_opcode(out)?))
}

pub fn memarg_mut<'v, 'a>(it: &'v mut Instruction<'a>) -> Option<&'v mut MemArg<'a>> {
    it.memarg_mut()
}

// Expressions.

pub fn expression(it: &Expression<'_>) {
    of::<Vec<Instruction>>(&it.instrs);
    of::<Vec<BranchHint>>(&it.branch_hints);
    of::<Option<Vec<Span>>>(&it.instr_spans);
}

pub fn branch_hint(BranchHint { instr_index, value }: &BranchHint) {
    of::<usize>(instr_index);
    of::<u32>(value);
}

pub fn expression_of_one<'a>(alloc: Global, instr: Instruction<'a>) -> Result<Expression<'a>> {
    Expression::one(alloc, instr)
}

pub fn folded<'a>(parser: &mut Parser<'a>) -> Result<Expression<'a>> {
    Expression::parse_folded_instruction(parser)
}

// Fields.

pub fn func(
    Func {
        span,
        id,
        name,
        exports,
        kind,
        ty,
    }: &Func<'_>,
) {
    of::<Span>(span);
    of::<Option<Id>>(id);
    of::<Option<NameAnnotation>>(name);
    of::<InlineExport>(exports);
    of::<FuncKind>(kind);
    of::<TypeUse<FunctionType>>(ty);
}

pub fn func_kind(it: &FuncKind<'_>) {
    match it {
        FuncKind::Import(import, is_exact) => {
            of::<InlineImport>(import);
            of::<bool>(is_exact);
        }
        FuncKind::Inline { locals, expression } => {
            of::<Vec<Local>>(locals);
            of::<Expression>(expression);
        }
    }
}

pub fn local(Local { id, name, ty }: &Local<'_>) {
    of::<Option<Id>>(id);
    of::<Option<NameAnnotation>>(name);
    of::<ValType>(ty);
}

pub fn local_parser(LocalParser { locals }: &LocalParser<'_>) {
    of::<Vec<Local>>(locals);
}

pub fn global(
    GlobalField {
        span,
        id,
        name,
        exports,
        ty,
        kind,
    }: &GlobalField<'_>,
) {
    of::<Span>(span);
    of::<Option<Id>>(id);
    of::<Option<NameAnnotation>>(name);
    of::<InlineExport>(exports);
    of::<GlobalType>(ty);
    match kind {
        GlobalKind::Import(import) => of::<InlineImport>(import),
        GlobalKind::Inline(value) => of::<Expression>(value),
    }
}

pub fn table(
    Table {
        span,
        id,
        name,
        exports,
        kind,
    }: &Table<'_>,
) {
    of::<Span>(span);
    of::<Option<Id>>(id);
    of::<Option<NameAnnotation>>(name);
    of::<InlineExport>(exports);
    of::<TableKind>(kind);
}

pub fn table_kind(it: &TableKind<'_>) {
    match it {
        TableKind::Import { import, ty } => {
            of::<InlineImport>(import);
            of::<TableType>(ty);
        }
        TableKind::Normal { ty, init_expr } => {
            of::<TableType>(ty);
            of::<Option<Expression>>(init_expr);
        }
        TableKind::Inline {
            elem,
            is64,
            shared,
            payload,
        } => {
            of::<RefType>(elem);
            of::<[&bool; 2]>(&[is64, shared]);
            of::<ElemPayload>(payload);
        }
    }
}

pub fn elem(
    Elem {
        span,
        id,
        name,
        kind,
        payload,
    }: &Elem<'_>,
) {
    of::<Span>(span);
    of::<Option<Id>>(id);
    of::<Option<NameAnnotation>>(name);
    of::<ElemKind>(kind);
    of::<ElemPayload>(payload);
}

pub fn elem_kind(it: &ElemKind<'_>) {
    match it {
        ElemKind::Passive | ElemKind::Declared => {}
        ElemKind::Active { table, offset } => {
            of::<Option<Index>>(table);
            of::<Expression>(offset);
        }
    }
}

pub fn elem_payload(it: &ElemPayload<'_>) {
    match it {
        ElemPayload::Indices(indices) => of::<Vec<Index>>(indices),
        ElemPayload::Exprs { ty, exprs } => {
            of::<RefType>(ty);
            of::<Vec<Expression>>(exprs);
        }
    }
}

pub fn memory(
    Memory {
        span,
        id,
        name,
        exports,
        kind,
    }: &Memory<'_>,
) {
    of::<Span>(span);
    of::<Option<Id>>(id);
    of::<Option<NameAnnotation>>(name);
    of::<InlineExport>(exports);
    of::<MemoryKind>(kind);
}

pub fn memory_kind(it: &MemoryKind<'_>) {
    match it {
        MemoryKind::Import { import, ty } => {
            of::<InlineImport>(import);
            of::<MemoryType>(ty);
        }
        MemoryKind::Normal(ty) => of::<MemoryType>(ty),
        MemoryKind::Inline {
            is64,
            data,
            page_size_log2,
        } => {
            of::<bool>(is64);
            of::<Vec<DataVal>>(data);
            of::<Option<u32>>(page_size_log2);
        }
    }
}

pub fn data(
    Data {
        span,
        id,
        name,
        kind,
        data,
    }: &Data<'_>,
) {
    of::<Span>(span);
    of::<Option<Id>>(id);
    of::<Option<NameAnnotation>>(name);
    of::<DataKind>(kind);
    of::<Vec<DataVal>>(data);
}

pub fn data_kind(it: &DataKind<'_>) {
    match it {
        DataKind::Passive => {}
        DataKind::Active { memory, offset } => {
            of::<Index>(memory);
            of::<Expression>(offset);
        }
    }
}

pub fn data_val(it: &DataVal<'_>, out: &mut Vec<u8>) -> Result<usize> {
    match it {
        DataVal::String(bytes) => of::<&[u8]>(bytes),
        DataVal::Integral(bytes) => of::<Vec<u8>>(bytes),
    }
    it.push_onto(out)?;
    Ok(it.len())
}

pub fn tag(
    Tag {
        span,
        id,
        name,
        exports,
        ty,
        kind,
    }: &Tag<'_>,
) {
    of::<Span>(span);
    of::<Option<Id>>(id);
    of::<Option<NameAnnotation>>(name);
    of::<InlineExport>(exports);
    of::<TagType>(ty);
    match kind {
        TagKind::Import(import) => of::<InlineImport>(import),
        TagKind::Inline() => {}
    }
}

// Modules.

pub fn module(it: &Module<'_>) {
    of::<Span>(&it.span);
    of::<Option<Id>>(&it.id);
    of::<Option<NameAnnotation>>(&it.name);
    of::<ModuleKind>(&it.kind);
}

pub fn module_kind(it: &ModuleKind<'_>) {
    match it {
        ModuleKind::Text(fields) => of::<Vec<ModuleField>>(fields),
        ModuleKind::Binary(pieces) => of::<Vec<&[u8]>>(pieces),
    }
}

pub fn module_field(it: &ModuleField<'_>) {
    match it {
        ModuleField::Type(field) => of::<Type>(field),
        ModuleField::Rec(field) => of::<Rec>(field),
        ModuleField::Import(field) => of::<Imports>(field),
        ModuleField::Func(field) => of::<Func>(field),
        ModuleField::Table(field) => of::<Table>(field),
        ModuleField::Memory(field) => of::<Memory>(field),
        ModuleField::Global(field) => of::<GlobalField>(field),
        ModuleField::Export(field) => of::<Export>(field),
        ModuleField::Start(field) => of::<Index>(field),
        ModuleField::Elem(field) => of::<Elem>(field),
        ModuleField::Data(field) => of::<Data>(field),
        ModuleField::Tag(field) => of::<Tag>(field),
        ModuleField::Custom(field) => of::<Custom>(field),
    }
}

pub fn parsed_module<'a>(parser: &mut Parser<'a>) -> Result<Module<'a>> {
    Module::parse(parser)
}

// Traits.

pub fn cloned_operands() {
    is_key::<Ordering>();
    is_key::<MemArgOrdering>();
    are_cloned::<ContBind, Switch, Handle, TryTableCatchKind>();
    are_cloned::<TryTableCatch, LaneArg, MemArg, MemArgTarget>();
    are_cloned::<LoadOrStoreLane, TableInit, TableCopy, TableArg>();
    are_cloned::<MemoryArg, MemoryInit, MemoryCopy, StructAccess>();
    are_cloned::<ArrayFill, ArrayCopy, ArrayInit, ArrayNewFixed>();
    are_cloned::<ArrayNewData, ArrayNewElem, RefCast, RefTest>();
    are_cloned::<BrOnCast, BrOnCastFail, RefCastDescEq, BrOnCastDescEq>();
    are_cloned::<BrOnCastDescEqFail, V128Const, I8x16Shuffle, Local>();
    are_cloned::<Ordered<Index>, Ordered<Index>, Ordered<Index>, Ordered<Index>>();
}

pub fn parsed_operands() {
    are_parsed::<BlockType, ContBind, Resume, ResumeThrow>();
    are_parsed::<ResumeThrowRef, Switch, ResumeTable, TryTable>();
    are_parsed::<BrTableIndices, LaneArg, CallIndirect, TableInit>();
    are_parsed::<TableCopy, TableArg, MemoryArg, MemoryInit>();
    are_parsed::<MemoryCopy, StructAccess, ArrayFill, ArrayCopy>();
    are_parsed::<ArrayInit, ArrayNewFixed, ArrayNewData, ArrayNewElem>();
    are_parsed::<RefCast, RefTest, BrOnCast, BrOnCastFail>();
    are_parsed::<RefCastDescEq, BrOnCastDescEq, BrOnCastDescEqFail, Ordering>();
    are_parsed::<Ordering, Ordered<Index>, V128Const, I8x16Shuffle>();
    are_parsed::<SelectTypes, SelectTypes, SelectTypes, SelectTypes>();
    are_peeked::<Ordering, Ordering, Ordering, Ordering>();
}

pub fn parsed_fields() {
    are_parsed::<Instruction, Expression, Func, LocalParser>();
    are_parsed::<GlobalField, Table, Elem, Memory>();
    are_parsed::<Data, DataVal, Tag, ModuleField>();
}

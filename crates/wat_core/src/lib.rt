//! Modules of the WebAssembly text format (WebAssembly Core Specification, Text Format, "Modules"),
//! and everything in them.
//!
//! - [`read_module`] parses a text that is one module; [`read_module_of`] parses it from its tokens.
//! - [`Module::parse`] parses a module from the tokens of a [`Parser`].
//! - [`module_faults`] lists an error in each invalid field of a text that isn't a module.
//!
//! Indices stay as they are written: nothing is resolved, and nothing is validated.
//!
//! This crate is enough for a user: it re-exports the parser, the parsed types and their parsers.
//! Other public items of the crates below are reached by the crate's name, for example
//! `wat_core::wat_mnemonics::find`.
#![tactic(auto)]

pub mod field;
mod field_of;
pub mod laws;
pub mod module;
pub mod module_group;
mod module_head;
pub mod module_text;
pub mod wrong_fields;

// Modules and their fields.
pub use field::{ModuleField, ModuleFieldOf};
pub use module::{Module, ModuleKind, ModuleKindOf, VisibleModule};
pub use module_text::{read_module, read_module_of};
pub use wrong_fields::{FieldFaults, field_faults, module_faults};

// The parser, its tokens and its faults.
pub use wat_tokens::{
    Cursor, Error, Fault, Parse, Parser, Peek, Result, Span, Token, enclosed, kw, one_cut,
    one_outcome, ownership, repeat,
};

// Names, indices and numbers.
pub use wat_tokens::{F32, F64, Id, Index, Integer, NameAnnotation, Sign};

// Types.
pub use wat_types::{
    AbstractHeapType, ArrayType, ContType, FunctionType, FunctionTypeNoNames, GlobalType, HeapType,
    InnerTypeKind, Limits, MemoryType, Rec, RefType, StorageType, StructField, StructType,
    TableType, TagType, Type, TypeDef, TypeUse, ValType, page_size,
};

// Imports and exports.
pub use wat_links::{
    Export, ExportKind, ExportType, FieldHead, ImportGroup1Item, ImportGroup1ItemOf,
    ImportGroup2Item, ImportGroup2ItemOf, ImportItems, ImportItemsOf, Imports, ImportsOf,
    InlineExport, InlineImport, ItemKind, ItemSig,
};

// Custom sections.
pub use wat_links::{
    Custom, CustomPlace, CustomPlaceAnchor, Dylink0, Dylink0Subsection, Producers, RawCustomSection,
};

// Operands of instructions.
pub use wat_operands::{
    ArrayCopy, ArrayCopyOf, ArrayFill, ArrayFillOf, ArrayInit, ArrayInitOf, ArrayNewData,
    ArrayNewDataOf, ArrayNewElem, ArrayNewElemOf, ArrayNewFixed, ArrayNewFixedOf, BlockType,
    BrOnCast, BrOnCastDescEq, BrOnCastDescEqFail, BrOnCastFail, BrTableIndices, BrTableIndicesOf,
    CallIndirect, CatchKind, ContBind, ContBindOf, Handle, HandleOf, I8x16Shuffle, LaneArg, LaneOf,
    LoadOrStoreLane, MemArg, MemArgOrdering, MemArgTarget, MemoryArg, MemoryArgOf, MemoryCopy,
    MemoryCopyOf, MemoryInit, MemoryInitOf, Ordered, Ordering, RefCast, RefCastDescEq, RefTest,
    Resume, ResumeOf, ResumeTable, ResumeTableOf, ResumeThrow, ResumeThrowOf, ResumeThrowRef,
    ResumeThrowRefOf, SelectTypes, StructAccess, StructAccessOf, Switch, SwitchOf, TableArg,
    TableArgOf, TableCopy, TableCopyOf, TableInit, TableInitOf, TryTable, TryTableCatch,
    TryTableCatchKind, V128Const,
};

// Instructions.
pub use wat_instr::{
    AccessOp, ArrayInitOp, AtomicAccessOp, BlockOp, CallIndirectOp, IndexedOp, Instruction,
    InstructionOf, LabelOp, LaneAccessOp, LaneOp, MemoryOp, Op, Opcode, OrderedIndexOp,
    OrderedStructOp, OrderedTableOp, RmwAccessOp, ScalarOp, StructOp, TableOp, VectorOp,
};

// Expressions.
pub use wat_expr::{BranchHint, Expression, FoldedInstruction};

// The contents of a module's fields.
pub use wat_fields::{
    Data, DataKind, DataVal, Elem, ElemKind, ElemPayload, Func, FuncKind, Global, GlobalKind,
    Local, LocalParser, Memory, MemoryKind, Table, TableKind, Tag, TagKind,
};

// The crates below by their names, for their other public items.
pub use wat_expr;
pub use wat_fields;
pub use wat_instr;
pub use wat_lexer;
pub use wat_links;
pub use wat_mnemonics;
pub use wat_operands;
pub use wat_tokens;
pub use wat_types;

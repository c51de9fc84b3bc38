//! Operands of instructions in the WebAssembly text format (WebAssembly Core Specification, Text
//! Format, "Instructions").
//!
//! [`wat_tokens::Parse`] parses an operand from the tokens after the mnemonic. Memory accesses have
//! separate functions, which take the default alignment: [`MemArg::read`], [`MemArg::read_atomic`]
//! and [`LoadOrStoreLane::read`]. Indices are kept as written: identifiers aren't resolved.
#![tactic(auto)]

pub mod aggregates;
pub mod block;
pub mod branch;
pub mod call;
pub mod casts;
pub mod catches;
pub mod handlers;
pub mod lanes;
pub mod laws;
pub mod memory;
pub mod ordering;
pub mod select;
pub mod tables;
pub mod vector;

pub use aggregates::{
    ArrayCopy, ArrayCopyOf, ArrayFill, ArrayFillOf, ArrayInit, ArrayInitOf, ArrayNewData,
    ArrayNewDataOf, ArrayNewElem, ArrayNewElemOf, ArrayNewFixed, ArrayNewFixedOf, ContBind,
    ContBindOf, StructAccess, StructAccessOf, Switch, SwitchOf,
};
pub use block::BlockType;
pub use branch::{BrTableIndices, BrTableIndicesOf};
pub use call::CallIndirect;
pub use casts::{
    BrOnCast, BrOnCastDescEq, BrOnCastDescEqFail, BrOnCastFail, RefCast, RefCastDescEq, RefTest,
};
pub use catches::{CatchKind, TryTable, TryTableCatch, TryTableCatchKind};
pub use handlers::{
    Handle, HandleOf, Resume, ResumeOf, ResumeTable, ResumeTableOf, ResumeThrow, ResumeThrowOf,
    ResumeThrowRef, ResumeThrowRefOf,
};
pub use lanes::{LaneArg, LaneOf, LoadOrStoreLane};
pub use memory::{MemArg, MemArgOrdering, MemArgTarget};
pub use ordering::{Ordered, Ordering};
pub use select::SelectTypes;
pub use tables::{
    MemoryArg, MemoryArgOf, MemoryCopy, MemoryCopyOf, MemoryInit, MemoryInitOf, TableArg,
    TableArgOf, TableCopy, TableCopyOf, TableInit, TableInitOf,
};
pub use vector::{I8x16Shuffle, V128Const};

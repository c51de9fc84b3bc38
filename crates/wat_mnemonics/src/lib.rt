//! The mnemonics and opcodes of the instructions of the WebAssembly text format, without
//! operands (WebAssembly Core Specification, Text Format, "Instructions").
//!
//! An [`Op`](op::Op) is an instruction without its operand. It has a mnemonic, and an opcode if
//! Core Specification 2.0 defines it and the instruction has no operand. [`find`](find::find)
//! looks up a mnemonic by binary search.
//!
//! A variant has the name of its mnemonic, with `_` in place of `.`, and with a `_` at the end if
//! the mnemonic is a keyword of Rust.
#![tactic(auto)]

pub mod access;
pub mod find;
pub mod indexed;
mod keys;
pub mod laws;
pub mod op;
pub mod opcode;
pub mod ordered;
mod same_key;
pub mod scalar;
pub mod table;
pub mod vector;

pub use access::{AccessOp, AtomicAccessOp, LaneAccessOp, RmwAccessOp};
pub use indexed::{
    ArrayInitOp, BlockOp, CallIndirectOp, IndexedOp, LabelOp, LaneOp, MemoryOp, StructOp, TableOp,
};
pub use op::Op;
pub use opcode::Opcode;
pub use ordered::{OrderedIndexOp, OrderedStructOp, OrderedTableOp};
pub use scalar::ScalarOp;
pub use vector::VectorOp;

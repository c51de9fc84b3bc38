//! The instructions of the WebAssembly text format (WebAssembly Core Specification, Text Format,
//! "Instructions"): their type, and a parser of one instruction.
#![tactic(auto)]

mod copy;
mod families;
pub mod instruction;
pub mod laws;
mod operand;
mod ops;
mod parse;
mod singles;
mod sink;

pub use instruction::{Instruction, InstructionOf};
pub use ops::{is_block, is_br_if, is_if};
pub use sink::Sink;
pub use wat_mnemonics::{
    AccessOp, ArrayInitOp, AtomicAccessOp, BlockOp, CallIndirectOp, IndexedOp, LabelOp,
    LaneAccessOp, LaneOp, MemoryOp, Op, Opcode, OrderedIndexOp, OrderedStructOp, OrderedTableOp,
    RmwAccessOp, ScalarOp, StructOp, TableOp, VectorOp,
};

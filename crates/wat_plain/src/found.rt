//! What the readers of items and groups return. The types are `Copy` and not generic: a proof then
//! compares no types of instructions.

use crate::tree::{Groups, Items};
use wat_instr::Instruction;

/// The result of a reader of items.
#[derive(Clone, Copy)]
pub enum Found<'a> {
    /// The items.
    Items(&'a Items<'a>),
    /// The next tokens aren't such items.
    Nothing,
    /// Out of memory.
    NoMemory,
}

/// The result of a reader of groups.
#[derive(Clone, Copy)]
pub enum FoundGroups<'a> {
    /// The groups.
    Groups(&'a Groups<'a>),
    /// The next tokens aren't such groups.
    Nothing,
    /// Out of memory.
    NoMemory,
}

/// The result of a reader of one instruction.
#[derive(Clone, Copy)]
pub enum FoundInstruction<'a> {
    /// The instruction.
    Instruction(&'a Instruction<'a>),
    /// The next tokens aren't an instruction.
    Nothing,
    /// Out of memory.
    NoMemory,
}

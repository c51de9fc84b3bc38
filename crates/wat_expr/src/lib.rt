//! Expressions of the WebAssembly text format (WebAssembly Core Specification, Text Format,
//! Instructions, "Expressions").
//!
//! [`Expression::parse`] parses instructions, folded or not, into one flat list with branch hints.
//! [`Expression::parse_folded_instruction`] parses one folded instruction.
#![tactic(auto)]

pub mod expression;
mod folded;
pub mod laws;
mod open_groups;
mod reader;
mod take;

pub use expression::{BranchHint, Expression};
pub use folded::FoldedInstruction;

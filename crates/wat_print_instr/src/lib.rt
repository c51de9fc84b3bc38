//! Instructions, their operands and expressions as text (WebAssembly Core Specification, Text
//! Format, "Instructions").
//!
//! [`wat_print::print`] prints a value of a type that has [`PrintCode`], as [`Code`].
//! [`expression::print_expression`] prints an expression. The printed text parses back to the same
//! value.
#![tactic(auto)]

pub mod access;
pub mod caught;
pub mod control;
pub mod expression;
pub mod folded;
pub mod indices;
pub mod instruction;
pub mod laws;
pub mod numbers;
pub mod traits;
pub mod vectors;

pub use traits::{Code, PrintCode};

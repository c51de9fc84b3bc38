//! Cuts a text in the WebAssembly text format into tokens (WebAssembly Core Specification, Text
//! Format, Lexical Format).
#![tactic(auto)]

mod byte_table;
mod class;
mod common;
pub mod cut;
mod decode;
pub mod fault;
mod groups;
pub mod hidden;
pub mod laws;
pub mod lexeme;
pub mod number;
pub mod scan;
mod side_entry;
pub mod span;
pub mod string;
pub mod token;
pub mod tokens;

//! A formatter for texts in the WebAssembly text format: modules, scripts and any other text with
//! valid tokens (WebAssembly Core Specification, Text Format, Lexical Format).
//!
//! [`format::format`] changes white space only. docs/FORMAT.md has the rules of the layout.
#![tactic(auto)]

pub mod format;
mod gap;
pub mod laws;
mod layout;
mod piece;

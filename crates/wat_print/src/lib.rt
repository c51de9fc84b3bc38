//! Printing of tokens, and of the types of the WebAssembly text format (WebAssembly Core
//! Specification, Text Format, "Types").
//!
//! [`print`] prints a value as a text, if its type has [`Print`]. The tokens of the text spell this
//! value and no other. [`read_text`](wat_tokens::whole_text::read_text) reads the text as this
//! value.
#![tactic(auto)]

pub mod define;
pub mod fault;
pub mod function;
pub mod integer;
pub mod keyword;
pub mod label;
pub mod laws;
pub mod limits;
pub mod output;
pub mod printed;
pub mod reference;
pub mod storage;
pub mod string;
pub mod structure;
pub mod traits;
pub mod type_use;

pub use fault::Refused;
pub use output::{Layout, Output};
pub use printed::print;
pub use traits::Print;

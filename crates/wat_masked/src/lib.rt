//! Masks the float literals of a text in the WebAssembly text format: the masked text has the same
//! length, with integers in place of the float literals (WebAssembly Core Specification, Text
//! Format, "Floating-Point").
//!
//! [`masked::masked`] returns the masked text. A parser that supports only integers can read
//! it. Each token has the same offset in both texts. [`masked::masked_if_changed`] takes the tokens
//! of the text, and returns a masked text only if it differs from the text.
#![tactic(auto)]

mod change;
mod float;
pub mod laws;
pub mod masked;

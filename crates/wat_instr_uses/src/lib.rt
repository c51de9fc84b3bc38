//! The names that instructions use, and what instructions do with blocks and labels (WebAssembly Core
//! Specification, Text Format, "Contexts", "Labels" and "Instructions").
//!
//! - [`add_names`] appends the names that instructions use, apart from labels.
//! - [`add_steps`] appends what instructions do with blocks and labels.
#![tactic(auto)]

mod names;
mod steps;

pub use names::add_names;
pub use steps::add_steps;

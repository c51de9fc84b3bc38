//! The program `watshow` as a library.
//!
//! - [`run`] reads all input, makes the whole output, and then writes it.
//! - The modules [`expressions`], [`fields`], [`modules`] and [`types`] list a module and its
//!   parts.
#![tactic(auto)]

// The listing.
pub mod expressions;
pub mod fields;
pub mod modules;
pub mod types;
mod words;

// The input and the output.
mod input;
pub mod output;
pub mod watched;

// The run.
pub mod error;
pub mod mode;
mod refusal;
mod value;

pub use error::RunError;
pub use mode::{Mode, run};
pub use watched::Watched;

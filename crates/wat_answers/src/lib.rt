//! The check, the listing, the printing and the formatting of one text.
//!
//! - [`answer_for`] returns the report of a check, the listing, or the printed text, as bytes.
//! - [`bytes_formatted`] returns the formatted text.
//! - [`checked_bytes`] returns the errors as values.
//!
//! The program `wat` and the library for C call these functions.
#![tactic(auto)]

pub mod checked;
mod expected;
mod formatted;
mod named;
pub mod notice;
mod outcome;
mod reading;
mod shortened;
pub mod task;
mod words;

pub use checked::checked_bytes;
pub use formatted::bytes_formatted;
pub use notice::{Notice, add_further_words, add_more_words};
pub use outcome::answer_for;
pub use task::{Extent, Task};

/// The version of the program `wat` and of the library for C, as both print it.
pub const VERSION: &str = "wat 0.1.0, a port of wast 263.0.0";

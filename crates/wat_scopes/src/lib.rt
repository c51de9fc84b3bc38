//! Identifiers in index spaces, nested blocks and the order of imports: what every check of a module
//! needs, whatever the fields and instructions are (WebAssembly Core Specification, Text Format,
//! "Contexts", "Labels" and "Modules").
//!
//! - [`check_names`] compares the identifiers that are used with those that are defined.
//! - [`first_block_fault`] follows the blocks and labels of an expression, and [`open_blocks`] returns
//!   the blocks that are open after some of its steps.
//! - [`check_imports`] finds the imports after a definition.
#![tactic(auto)]

mod blocks;
mod fault;
mod imports;
mod known;
mod open;
mod space;
mod steps;

pub use blocks::{BlockFault, first_block_fault};
pub use fault::{FaultKind, NameFault, Note};
pub use imports::{Mark, check_imports};
pub use known::check_names;
pub use open::{OpenBlock, open_blocks};
pub use space::{Name, Space};
pub use steps::{Act, Part, Step};

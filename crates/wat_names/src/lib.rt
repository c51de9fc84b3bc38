//! The names and blocks of a module, which the parser doesn't check (WebAssembly Core Specification,
//! Text Format, "Contexts", "Labels", "Control Instructions" and "Modules").
//!
//! [`name_faults`] returns a fault for:
//!
//! - each identifier that is defined again in its index space, or that is used and not defined;
//! - the first block or label of an expression that doesn't fit: see [`FaultKind`];
//! - each import after the definition of a function, table, memory, global or tag.
//!
//! Numbers and types aren't checked.
#![tactic(auto)]

mod blocks;
mod bodies;
mod defined;
mod marks;
mod names;
mod uses;

pub use names::{NameFaults, name_faults};
pub use wat_scopes::{FaultKind, Name, NameFault, Note, Space};

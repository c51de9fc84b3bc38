//! Fields and modules as text (WebAssembly Core Specification, Text Format, "Modules").
//!
//! [`print_module`] prints a module. [`wat_print::print`] prints a part of a module, a value of a
//! type that has [`PrintPart`], as [`ModulePart`]. The printed text parses back to the same value;
//! [`read_again`] prints and parses a module in one call.
#![tactic(auto)]

pub mod again;
pub mod custom;
pub mod custom_place;
pub mod data;
pub mod data_val;
pub mod dylink;
pub mod elem;
pub mod export;
pub mod expression;
pub mod field;
pub mod field_head;
pub mod func;
pub mod global;
pub mod import;
pub mod item;
pub mod local;
pub mod memory;
pub mod module;
pub mod producers;
pub mod raw;
pub mod table;
pub mod tag;
pub mod traits;

pub use again::read_again;
pub use module::{ModuleRefused, print_module};
pub use traits::{ModulePart, PrintPart};

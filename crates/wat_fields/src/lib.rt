//! Fields of a module of the WebAssembly text format: functions with their locals, globals, tags,
//! memories, data segments, element segments and tables (WebAssembly Core Specification, Text
//! Format, Modules).
//!
//! [`wat_tokens::Parse`] parses each field from its keyword to the end of its group. The caller
//! takes the parentheses of the group. Indices stay as they are written: nothing is resolved.
#![tactic(auto)]

pub mod data;
pub mod data_val;
pub mod elem;
pub mod func;
pub mod global;
pub mod laws;
pub mod local;
pub mod memory;
mod numbers;
mod offset;
pub mod payload;
mod spanned;
pub mod table;
pub mod tag;

pub use data::{Data, DataKind};
pub use data_val::DataVal;
pub use elem::{Elem, ElemKind};
pub use func::{Func, FuncKind};
pub use global::{Global, GlobalKind};
pub use local::{Local, LocalParser};
pub use memory::{Memory, MemoryKind};
pub use payload::{ElemPayload, is_funcref};
pub use table::{Table, TableKind};
pub use tag::{Tag, TagKind};

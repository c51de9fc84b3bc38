//! Types of the WebAssembly text format (WebAssembly Core Specification, Text Format, "Types").
//!
//! [`wat_tokens::Parse`] reads each type from tokens. [`wat_tokens::Peek`] tests whether the next
//! tokens begin a type. Indices aren't resolved.
#![tactic(auto)]

pub mod define;
pub mod function;
pub mod heap;
mod label;
pub mod laws;
pub mod limits;
pub mod reference;
pub mod storage;
pub mod structure;
pub mod tag;
pub mod type_use;
pub mod value;

pub use define::{ContType, InnerTypeKind, Rec, Type, TypeDef};
pub use function::{FunctionType, FunctionTypeNoNames};
pub use heap::{AbstractHeapType, HeapType};
pub use label::take_label;
pub use limits::{Limits, MemoryType, TableType, page_size};
pub use reference::RefType;
pub use storage::{GlobalType, StorageType};
pub use structure::{ArrayType, StructField, StructType};
pub use tag::TagType;
pub use type_use::TypeUse;
pub use value::ValType;

//! The names that indices and types use. Each function appends the names of one value to a list, in
//! the order of the text. All names of types are in the index space of types (WebAssembly Core
//! Specification, Text Format, "Contexts" and "Types").
#![tactic(auto)]

mod collect;
mod types;

pub use collect::{add_id, add_index, add_indices, add_optional_index, add_two_indices};
pub use types::{
    add_function_type, add_heap_type, add_ref_type, add_storage_type, add_type_def, add_type_use,
    add_val_type, add_val_types,
};

//! The names that operands of instructions use, apart from labels. Each function appends the names of
//! one operand to a list, in the order of the text (WebAssembly Core Specification, Text Format,
//! "Contexts" and "Instructions"). An operand whose index space depends on the instruction isn't
//! here.
#![tactic(auto)]

mod operands;

pub use operands::{
    add_call_indirect, add_cast_branch, add_catch, add_catches, add_handle, add_handles,
    add_mem_arg, add_resume, add_resume_throw, add_select_types, add_try_table,
};

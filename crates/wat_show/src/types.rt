//! The listing of indices and function types. The only error is out of memory.

ghost use Rattle.std.specs.Prelude.{◌≡◌, ◌++◌, OnOk, map, codes};
ghost use Rattle.wat_core.specs.Prelude.{index_view, abstract_, ref_view, val_view, function_view, params_view};
ghost use Rattle.wat_types.specs.Heap.{heap_view};
ghost use Rattle.wat_show.specs.Types.{index_text, heap_text, ref_text, val_text, types_text, param_types, function_text};

use crate::words::{add, add_byte, add_number};
use std::alloc::AllocError;
use wat_tokens::words::NamedByKeyword;
use wat_tokens::{Id, Index, NameAnnotation};
use wat_types::{AbstractHeapType, FunctionType, HeapType, RefType, ValType};

/// Appends an index: its number, or its identifier with the `$`.
pub fn add_index(out: &mut Vec<u8>, index: &Index) -> Result<(), AllocError>
    ensures { OnOk result (out.new.items ≡ out.old.items ++ index_text (index_view index.now)) }
{
    match index {
        Index::Num(number, _) => add_number(out, *number as usize),
        Index::Id(id) => {
            add_byte(out, b'$')?;
            add(out, id.name())
        }
    }
}

fn add_heap(out: &mut Vec<u8>, heap: &HeapType) -> Result<(), AllocError>
    ensures { OnOk result (out.new.items ≡ out.old.items ++ heap_text (heap_view heap.now)) }
{
    match heap {
        HeapType::Concrete(index) => add_index(out, index),
        HeapType::Exact(index) => {
            add(out, "(exact ")?;
            add_index(out, index)?;
            add(out, ")")
        }
        HeapType::Abstract { shared, ty } => add_abstract(out, *shared, *ty),
    }
}

fn add_abstract(out: &mut Vec<u8>, shared: bool, ty: AbstractHeapType) -> Result<(), AllocError>
    ensures { OnOk result (out.new.items ≡ out.old.items ++ heap_text (abstract_ shared ty)) }
{
    if !shared {
        return add(out, ty.word());
    }
    add(out, "(shared ")?;
    add(out, ty.word())?;
    add(out, ")")
}

fn add_ref(out: &mut Vec<u8>, reference: &RefType) -> Result<(), AllocError>
    ensures { OnOk result (out.new.items ≡ out.old.items ++ ref_text (ref_view reference.now)) }
{
    add(
        out,
        if reference.nullable {
            "(ref null "
        } else {
            "(ref "
        },
    )?;
    add_heap(out, &reference.heap)?;
    add(out, ")")
}

/// Adds a space and a type.
fn add_val(out: &mut Vec<u8>, ty: &ValType) -> Result<(), AllocError>
    ensures { OnOk result (out.new.items ≡ out.old.items ++ (codes " " ++ val_text
        (val_view ty.now))) }
{
    add_byte(out, b' ')?;
    match ty {
        ValType::I32 => add(out, "i32"),
        ValType::I64 => add(out, "i64"),
        ValType::F32 => add(out, "f32"),
        ValType::F64 => add(out, "f64"),
        ValType::V128 => add(out, "v128"),
        ValType::Ref(reference) => add_ref(out, reference),
    }
}

fn add_results(out: &mut Vec<u8>, results: &[ValType]) -> Result<(), AllocError>
    ensures { OnOk result (out.new.items ≡ out.old.items ++ types_text (map val_view results.now)) }
{
    for ty in results {
        add_val(out, ty)?;
    }
    Ok(())
}

fn add_params(
    out: &mut Vec<u8>,
    params: &[(Option<Id>, Option<NameAnnotation>, ValType)],
) -> Result<(), AllocError>
    ensures { OnOk result (out.new.items ≡ out.old.items ++ types_text (param_types
        (params_view params.now))) }
{
    for param in params {
        add_val(out, &param.2)?;
    }
    Ok(())
}

/// Appends the two lines of a function type: its parameters and its results.
pub fn add_function(out: &mut Vec<u8>, function: &FunctionType) -> Result<(), AllocError>
    ensures { OnOk result (out.new.items ≡ out.old.items ++ function_text
        (function_view function.now)) }
{
    add(out, "params")?;
    add_params(out, &function.params)?;
    add(out, "\nresults")?;
    add_results(out, &function.results)?;
    add(out, "\n")
}

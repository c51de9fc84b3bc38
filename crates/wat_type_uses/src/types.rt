//! The names that types use (Text Format, "Types"): each is the identifier of a type.

ghost use Rattle.std.specs.Prelude.{◌≡◌, ◌++◌, OnOk, map};
ghost use Rattle.wat_types.specs.Function.{function_view, params_view};
ghost use Rattle.wat_types.specs.Reference.{ref_view};
ghost use Rattle.wat_types.specs.Value.{val_view};
ghost use Rattle.wat_types.specs.Heap.{heap_view};
ghost use Rattle.wat_types.specs.Use.{use_view};
ghost use Rattle.wat_types.specs.Storage.{storage_view};
ghost use Rattle.wat_types.specs.Struct.{members_view};
ghost use Rattle.wat_types.specs.Define.{def_view, inner_kind_view};
ghost use Rattle.wat_scopes.specs.Known.{names};
ghost use Rattle.wat_type_uses.specs.Types.{heap_uses, ref_uses, val_uses, vals_uses, params_uses, function_uses, type_use_uses, storage_uses, members_uses, kind_uses, def_uses};

use crate::collect::{add_index, add_indices, add_optional_index};
use std::alloc::AllocError;
use wat_scopes::{Name, Space};
use wat_tokens::{Id, NameAnnotation};
use wat_types::{
    FunctionType, HeapType, InnerTypeKind, RefType, StorageType, StructField, TypeDef, TypeUse,
    ValType,
};

/// Appends the name that a heap type uses, if it is a concrete or an exact type with an identifier.
pub fn add_heap_type<'a>(out: &mut Vec<Name<'a>>, heap: &HeapType<'a>) -> Result<(), AllocError>
    ensures { OnOk result (names out.new.items ≡ names out.old.items
        ++ heap_uses (heap_view heap.now)) }
{
    match heap {
        HeapType::Abstract { shared: _, ty: _ } => Ok(()),
        HeapType::Concrete(index) => add_index(out, Space::Type, index),
        HeapType::Exact(index) => add_index(out, Space::Type, index),
    }
}

/// Appends the names that a reference type uses: those of its heap type.
pub fn add_ref_type<'a>(out: &mut Vec<Name<'a>>, ty: &RefType<'a>) -> Result<(), AllocError>
    ensures { OnOk result (names out.new.items ≡ names out.old.items
        ++ ref_uses (ref_view ty.now)) }
{
    add_heap_type(out, &ty.heap)
}

/// Appends the names that a value type uses: none, unless it is a reference type.
pub fn add_val_type<'a>(out: &mut Vec<Name<'a>>, ty: &ValType<'a>) -> Result<(), AllocError>
    ensures { OnOk result (names out.new.items ≡ names out.old.items
        ++ val_uses (val_view ty.now)) }
{
    match ty {
        ValType::Ref(ty) => add_ref_type(out, ty),
        _ => Ok(()),
    }
}

/// Appends the names that value types use, in order.
pub fn add_val_types<'a>(out: &mut Vec<Name<'a>>, types: &[ValType<'a>]) -> Result<(), AllocError>
    ensures { OnOk result (names out.new.items ≡ names out.old.items
        ++ vals_uses (map val_view types.now)) }
{
    for ty in types {
        add_val_type(out, ty)?;
    }
    Ok(())
}

/// Appends the names that the types of parameters use. Identifiers of parameters aren't uses.
fn add_params<'a>(
    out: &mut Vec<Name<'a>>,
    params: &[(Option<Id<'a>>, Option<NameAnnotation<'a>>, ValType<'a>)],
) -> Result<(), AllocError>
    ensures { OnOk result (names out.new.items ≡ names out.old.items
        ++ params_uses (params_view params.now)) }
{
    for param in params {
        add_val_type(out, &param.2)?;
    }
    Ok(())
}

/// Appends the names that a function type uses: those of its parameters, then of its results.
pub fn add_function_type<'a>(
    out: &mut Vec<Name<'a>>,
    ty: &FunctionType<'a>,
) -> Result<(), AllocError>
    ensures { OnOk result (names out.new.items ≡ names out.old.items
        ++ function_uses (function_view ty.now)) }
{
    add_params(out, &ty.params)?;
    add_val_types(out, &ty.results)
}

/// Appends the names of a type use (Text Format, "Type Uses"): that of its index, then those of its
/// inline type.
pub fn add_type_use<'a>(
    out: &mut Vec<Name<'a>>,
    ty: &TypeUse<'a, FunctionType<'a>>,
) -> Result<(), AllocError>
    ensures { OnOk result (names out.new.items ≡ names out.old.items
        ++ type_use_uses (use_view function_view ty.now)) }
{
    add_optional_index(out, Space::Type, &ty.index)?;
    match &ty.inline {
        Some(ty) => add_function_type(out, ty),
        None => Ok(()),
    }
}

/// Appends the names that a storage type uses: none for a packed type.
pub fn add_storage_type<'a>(out: &mut Vec<Name<'a>>, ty: &StorageType<'a>) -> Result<(), AllocError>
    ensures { OnOk result (names out.new.items ≡ names out.old.items
        ++ storage_uses (storage_view ty.now)) }
{
    match ty {
        StorageType::Val(ty) => add_val_type(out, ty),
        _ => Ok(()),
    }
}

/// Appends the names that the types of the fields of a structure use.
fn add_members<'a>(out: &mut Vec<Name<'a>>, members: &[StructField<'a>]) -> Result<(), AllocError>
    ensures { OnOk result (names out.new.items ≡ names out.old.items
        ++ members_uses (members_view members.now)) }
{
    for member in members {
        add_storage_type(out, &member.ty)?;
    }
    Ok(())
}

/// Appends the names that the composite type of a type definition uses.
fn add_inner_kind<'a>(out: &mut Vec<Name<'a>>, kind: &InnerTypeKind<'a>) -> Result<(), AllocError>
    ensures { OnOk result (names out.new.items ≡ names out.old.items
        ++ kind_uses (inner_kind_view kind.now)) }
{
    match kind {
        InnerTypeKind::Func(ty) => add_function_type(out, ty),
        InnerTypeKind::Struct(ty) => add_members(out, &ty.fields),
        InnerTypeKind::Array(ty) => add_storage_type(out, &ty.ty),
        InnerTypeKind::Cont(ty) => add_index(out, Space::Type, &ty.0),
    }
}

/// Appends the names that a type definition uses: its supertypes, its descriptor, the type that it
/// describes, and those of its composite type.
pub fn add_type_def<'a>(out: &mut Vec<Name<'a>>, def: &TypeDef<'a>) -> Result<(), AllocError>
    ensures { OnOk result (names out.new.items ≡ names out.old.items
        ++ def_uses (def_view def.now)) }
{
    add_indices(out, Space::Type, &def.parents)?;
    add_optional_index(out, Space::Type, &def.descriptor)?;
    add_optional_index(out, Space::Type, &def.describes)?;
    add_inner_kind(out, &def.kind)
}

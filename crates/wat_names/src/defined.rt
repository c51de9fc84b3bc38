//! The names that the fields of a module define (Text Format, "Contexts" and "Modules").

ghost use Rattle.std.specs.Prelude.{◌≡◌, ◌+◌, ◌++◌, IfOk, OnOk, flat_map, length, map};
ghost use Rattle.wat_core.specs.Prelude.{field_view, fields_view, function_view, func_view, items_view, params_view, sig_view};
ghost use Rattle.wat_fields.specs.Local.{locals_view};
ghost use Rattle.wat_links.specs.Item.{item_kind_view};
ghost use Rattle.wat_links.specs.Import.{typed_view};
ghost use Rattle.wat_types.specs.Define.{type_view, types_view};
ghost use Rattle.wat_types.specs.Struct.{members_view};
ghost use Rattle.wat_types.specs.Use.{use_view};
ghost use Rattle.wat_scopes.specs.Known.{names};
ghost use Rattle.wat_scopes.specs.Spaces.{space_view};
ghost use Rattle.wat_names.specs.Numbered.{numbered};
ghost use Rattle.wat_names.specs.Defined.{aliases, defined, field_names, fields_in, func_names, inline_names, item_names, item_space, items_names, locals_names, members_in, params_names, type_aliases, type_names, types_in, types_of};

use std::alloc::AllocError;
use wat_core::ModuleField;
use wat_fields::{Func, FuncKind, Local};
use wat_links::{ImportGroup1Item, ImportItems, ItemKind, ItemSig};
use wat_scopes::{Name, Space};
use wat_tokens::{Id, NameAnnotation};
use wat_type_uses::add_id;
use wat_types::{FunctionType, InnerTypeKind, StructField, Type, TypeUse, ValType};

/// Appends the fields of a structure, which are in a space.
fn define_members<'a>(
    out: &mut Vec<Name<'a>>,
    space: Space<'a>,
    members: &[StructField<'a>],
) -> Result<(), AllocError>
    ensures { OnOk result (names out.new.items ≡ names out.old.items
        ++ members_in (space_view space.entry) (members_view members.now)) }
{
    for member in members {
        add_id(out, space, member.id)?;
    }
    Ok(())
}

/// Appends the fields of a structure type, which are in a space.
fn define_fields<'a>(
    out: &mut Vec<Name<'a>>,
    space: Space<'a>,
    ty: &Type<'a>,
) -> Result<(), AllocError>
    ensures { OnOk result (names out.new.items ≡ names out.old.items
        ++ fields_in (space_view space.entry) (type_view ty.now)) }
{
    match &ty.def.kind {
        InnerTypeKind::Struct(members) => define_members(out, space, &members.fields),
        _ => Ok(()),
    }
}

/// Appends a type with this number, and its fields by the number.
fn define_type<'a>(out: &mut Vec<Name<'a>>, number: usize, ty: &Type<'a>) -> Result<(), AllocError>
    ensures { OnOk result (names out.new.items ≡ names out.old.items
        ++ type_names number (type_view ty.now)) }
{
    add_id(out, Space::Type, ty.id)?;
    define_fields(out, Space::FieldAt(number), ty)
}

/// Appends the fields of a type by its name, if it has a name.
fn alias_type<'a>(out: &mut Vec<Name<'a>>, ty: &Type<'a>) -> Result<(), AllocError>
    ensures { OnOk result (names out.new.items ≡ names out.old.items
        ++ type_aliases (type_view ty.now)) }
{
    match ty.id {
        Some(id) => define_fields(out, Space::FieldOf(id), ty),
        None => Ok(()),
    }
}

/// Returns the next number. If there is none, the error is that of an allocation: memory has no room
/// for so many types.
fn after(number: usize) -> Result<usize, AllocError>
    ensures { IfOk result (λ n. n ≡ number + 1) }
{
    match number.checked_add(1) {
        Some(next) => Ok(next),
        None => Err(AllocError),
    }
}

/// Appends types, the first of which has this number, and the fields of each type by its number.
/// Returns the next number.
fn define_types<'a>(
    out: &mut Vec<Name<'a>>,
    number: usize,
    types: &[Type<'a>],
) -> Result<usize, AllocError>
    ensures names { OnOk result (names out.new.items ≡ names out.old.items
        ++ numbered type_names number (types_view types.now)) }
    ensures number { IfOk result (λ n. n ≡ number + length types.now) }
{
    let mut next = number;
    for ty in types {
        define_type(out, next, ty)?;
        next = after(next)?;
    }
    Ok(next)
}

/// Appends the types of a module field, the first of which has this number, and the fields of each
/// type by its number. Returns the next number.
fn define_field_types<'a>(
    out: &mut Vec<Name<'a>>,
    number: usize,
    field: &ModuleField<'a>,
) -> Result<usize, AllocError>
    ensures names { OnOk result (names out.new.items ≡ names out.old.items
        ++ numbered type_names number (types_of (field_view field.now))) }
    ensures number { IfOk result (λ n. n ≡ number + length (types_of (field_view field.now))) }
{
    match field {
        ModuleField::Type(ty) => {
            define_type(out, number, ty)?;
            after(number)
        }
        ModuleField::Rec(rec) => define_types(out, number, &rec.types),
        ModuleField::Import(_) => Ok(number),
        ModuleField::Func(_) => Ok(number),
        ModuleField::Table(_) => Ok(number),
        ModuleField::Memory(_) => Ok(number),
        ModuleField::Global(_) => Ok(number),
        ModuleField::Export(_) => Ok(number),
        ModuleField::Start(_) => Ok(number),
        ModuleField::Elem(_) => Ok(number),
        ModuleField::Data(_) => Ok(number),
        ModuleField::Tag(_) => Ok(number),
        ModuleField::Custom(_) => Ok(number),
    }
}

/// Appends the types of a module, and the fields of each type by its number.
fn define_all_types<'a>(
    out: &mut Vec<Name<'a>>,
    fields: &[ModuleField<'a>],
) -> Result<(), AllocError>
    ensures { OnOk result (names out.new.items ≡ names out.old.items
        ++ numbered type_names 0 (types_in (fields_view fields.now))) }
{
    let mut number = 0;
    for field in fields {
        number = define_field_types(out, number, field)?;
    }
    Ok(())
}

/// Appends the fields of types by the names of the types.
fn alias_types<'a>(out: &mut Vec<Name<'a>>, types: &[Type<'a>]) -> Result<(), AllocError>
    ensures { OnOk result (names out.new.items ≡ names out.old.items
        ++ flat_map type_aliases (types_view types.now)) }
{
    for ty in types {
        alias_type(out, ty)?;
    }
    Ok(())
}

/// Appends the fields of the types of a module field by the names of the types.
fn alias_field<'a>(out: &mut Vec<Name<'a>>, field: &ModuleField<'a>) -> Result<(), AllocError>
    ensures { OnOk result (names out.new.items ≡ names out.old.items
        ++ flat_map type_aliases (types_of (field_view field.now))) }
{
    match field {
        ModuleField::Type(ty) => alias_type(out, ty),
        ModuleField::Rec(rec) => alias_types(out, &rec.types),
        ModuleField::Import(_) => Ok(()),
        ModuleField::Func(_) => Ok(()),
        ModuleField::Table(_) => Ok(()),
        ModuleField::Memory(_) => Ok(()),
        ModuleField::Global(_) => Ok(()),
        ModuleField::Export(_) => Ok(()),
        ModuleField::Start(_) => Ok(()),
        ModuleField::Elem(_) => Ok(()),
        ModuleField::Data(_) => Ok(()),
        ModuleField::Tag(_) => Ok(()),
        ModuleField::Custom(_) => Ok(()),
    }
}

/// Returns the index space of an imported item.
fn item_space(kind: &ItemKind) -> Space<'static>
    ensures { space_view result ≡ item_space (item_kind_view kind.now) }
{
    match kind {
        ItemKind::Func(_) => Space::Func,
        ItemKind::Table(_) => Space::Table,
        ItemKind::Memory(_) => Space::Memory,
        ItemKind::Global(_) => Space::Global,
        ItemKind::Tag(_) => Space::Tag,
        ItemKind::FuncExact(_) => Space::Func,
    }
}

/// Appends the identifier of an imported item.
fn define_item<'a>(out: &mut Vec<Name<'a>>, item: &ItemSig<'a>) -> Result<(), AllocError>
    ensures { OnOk result (names out.new.items ≡ names out.old.items
        ++ item_names (sig_view item.now)) }
{
    add_id(out, item_space(&item.kind), item.id)
}

/// Appends the identifiers of items of a group that have signatures of their own.
fn define_group<'a>(
    out: &mut Vec<Name<'a>>,
    items: &[ImportGroup1Item<'a>],
) -> Result<(), AllocError>
    ensures { OnOk result (names out.new.items ≡ names out.old.items
        ++ flat_map (λ i. item_names i.1) (map typed_view items.now)) }
{
    for item in items {
        define_item(out, &item.sig)?;
    }
    Ok(())
}

/// Appends the identifiers of imported items. The items of a group that share a signature have no
/// identifiers.
fn define_items<'a>(out: &mut Vec<Name<'a>>, items: &ImportItems<'a>) -> Result<(), AllocError>
    ensures { OnOk result (names out.new.items ≡ names out.old.items
        ++ items_names (items_view items.now)) }
{
    match items {
        ImportItems::Single { sig, .. } => define_item(out, sig),
        ImportItems::Group1 { items, .. } => define_group(out, items),
        ImportItems::Group2 { .. } => Ok(()),
    }
}

/// Appends the parameters of a function.
fn define_params<'a>(
    out: &mut Vec<Name<'a>>,
    at: usize,
    params: &[(Option<Id<'a>>, Option<NameAnnotation<'a>>, ValType<'a>)],
) -> Result<(), AllocError>
    ensures { OnOk result (names out.new.items ≡ names out.old.items
        ++ params_names at (params_view params.now)) }
{
    for param in params {
        add_id(out, Space::Local(at), param.0)?;
    }
    Ok(())
}

/// Appends the parameters that are written in a type use. The parameters of the type that an index
/// names have no identifiers in the function.
fn define_inline_params<'a>(
    out: &mut Vec<Name<'a>>,
    at: usize,
    ty: &TypeUse<'a, FunctionType<'a>>,
) -> Result<(), AllocError>
    ensures { OnOk result (names out.new.items ≡ names out.old.items
        ++ inline_names at (use_view function_view ty.now).inline) }
{
    match &ty.inline {
        Some(ty) => define_params(out, at, &ty.params),
        None => Ok(()),
    }
}

/// Appends the locals of a function.
fn define_locals<'a>(
    out: &mut Vec<Name<'a>>,
    at: usize,
    locals: &[Local<'a>],
) -> Result<(), AllocError>
    ensures { OnOk result (names out.new.items ≡ names out.old.items
        ++ locals_names at (locals_view locals.now)) }
{
    for local in locals {
        add_id(out, Space::Local(at), local.id)?;
    }
    Ok(())
}

/// Appends a function, and its parameters and locals.
fn define_func<'a>(out: &mut Vec<Name<'a>>, at: usize, func: &Func<'a>) -> Result<(), AllocError>
    ensures { OnOk result (names out.new.items ≡ names out.old.items
        ++ func_names at (func_view func.now)) }
{
    add_id(out, Space::Func, func.id)?;
    match &func.kind {
        FuncKind::Import(_, _) => Ok(()),
        FuncKind::Inline {
            locals,
            expression: _,
        } => {
            define_inline_params(out, at, &func.ty)?;
            define_locals(out, at, locals)
        }
    }
}

/// Appends what a field defines, without types.
fn define_field<'a>(
    out: &mut Vec<Name<'a>>,
    at: usize,
    field: &ModuleField<'a>,
) -> Result<(), AllocError>
    ensures { OnOk result (names out.new.items ≡ names out.old.items
        ++ field_names at (field_view field.now)) }
{
    match field {
        ModuleField::Type(_) => Ok(()),
        ModuleField::Rec(_) => Ok(()),
        ModuleField::Import(imports) => define_items(out, &imports.items),
        ModuleField::Func(func) => define_func(out, at, func),
        ModuleField::Table(table) => add_id(out, Space::Table, table.id),
        ModuleField::Memory(memory) => add_id(out, Space::Memory, memory.id),
        ModuleField::Global(global) => add_id(out, Space::Global, global.id),
        ModuleField::Export(_) => Ok(()),
        ModuleField::Start(_) => Ok(()),
        ModuleField::Elem(elem) => add_id(out, Space::Elem, elem.id),
        ModuleField::Data(data) => add_id(out, Space::Data, data.id),
        ModuleField::Tag(tag) => add_id(out, Space::Tag, tag.id),
        ModuleField::Custom(_) => Ok(()),
    }
}

/// Appends what the fields define, without types.
fn define_rest<'a>(out: &mut Vec<Name<'a>>, fields: &[ModuleField<'a>]) -> Result<(), AllocError>
    ensures { OnOk result (names out.new.items ≡ names out.old.items
        ++ numbered field_names 0 (fields_view fields.now)) }
{
    for (at, field) in fields.iter().enumerate() {
        define_field(out, at, field)?;
    }
    Ok(())
}

/// Appends what the fields define.
pub(crate) fn define_all<'a>(
    out: &mut Vec<Name<'a>>,
    fields: &[ModuleField<'a>],
) -> Result<(), AllocError>
    ensures { OnOk result (names out.new.items ≡ names out.old.items
        ++ defined (fields_view fields.now)) }
{
    define_all_types(out, fields)?;
    define_rest(out, fields)
}

/// Appends the fields of the types that have names, by these names.
pub(crate) fn alias_all<'a>(
    out: &mut Vec<Name<'a>>,
    fields: &[ModuleField<'a>],
) -> Result<(), AllocError>
    ensures { OnOk result (names out.new.items ≡ names out.old.items
        ++ aliases (fields_view fields.now)) }
{
    for field in fields {
        alias_field(out, field)?;
    }
    Ok(())
}

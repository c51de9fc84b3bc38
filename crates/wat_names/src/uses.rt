//! The names that the fields of a module use outside expressions (Text Format, "Contexts" and
//! "Modules").

ghost use Rattle.std.specs.Prelude.{◌≡◌, ◌++◌, OnOk, map, flat_map};
ghost use Rattle.wat_core.specs.Prelude.{data_kind_view, elem_kind_view, field_view, fields_view, func_view, items_view, payload_view, sig_view, table_kind_view};
ghost use Rattle.wat_fields.specs.Local.{locals_view};
ghost use Rattle.wat_links.specs.Import.{typed_view};
ghost use Rattle.wat_types.specs.Define.{types_view};
ghost use Rattle.wat_types.specs.Tag.{tag_type_view};
ghost use Rattle.wat_scopes.specs.Known.{names};
ghost use Rattle.wat_scopes.specs.Spaces.{space_view};
ghost use Rattle.wat_type_uses.specs.Types.{type_use_uses, def_uses};
ghost use Rattle.wat_names.specs.Used.{data_kind_uses, elem_kind_uses, export_space, field_uses, fields_uses, func_uses, item_uses, items_uses, locals_uses, payload_uses, table_uses};

use std::alloc::AllocError;
use wat_core::ModuleField;
use wat_fields::{DataKind, ElemKind, ElemPayload, Func, FuncKind, Local, TableKind};
use wat_links::{ExportKind, ImportGroup1Item, ImportItems, ItemKind, ItemSig};
use wat_scopes::{Name, Space};
use wat_type_uses::{
    add_index, add_indices, add_optional_index, add_ref_type, add_type_def, add_type_use,
    add_val_type,
};
use wat_types::{TagType, Type};

/// Appends the names of the types of locals.
fn use_locals<'a>(out: &mut Vec<Name<'a>>, locals: &[Local<'a>]) -> Result<(), AllocError>
    ensures { OnOk result (names out.new.items ≡ names out.old.items
        ++ locals_uses (locals_view locals.now)) }
{
    for local in locals {
        add_val_type(out, &local.ty)?;
    }
    Ok(())
}

/// Appends the names of the types of a function and its locals.
fn use_func<'a>(out: &mut Vec<Name<'a>>, func: &Func<'a>) -> Result<(), AllocError>
    ensures { OnOk result (names out.new.items ≡ names out.old.items
        ++ func_uses (func_view func.now)) }
{
    add_type_use(out, &func.ty)?;
    match &func.kind {
        FuncKind::Import(_, _) => Ok(()),
        FuncKind::Inline {
            locals,
            expression: _,
        } => use_locals(out, locals),
    }
}

/// Appends the names of a tag type.
fn use_tag<'a>(out: &mut Vec<Name<'a>>, ty: &TagType<'a>) -> Result<(), AllocError>
    ensures { OnOk result (names out.new.items ≡ names out.old.items
        ++ type_use_uses (tag_type_view ty.now)) }
{
    match ty {
        TagType::Exception(ty) => add_type_use(out, ty),
    }
}

/// Appends the names of the type of an imported item.
fn use_item<'a>(out: &mut Vec<Name<'a>>, item: &ItemSig<'a>) -> Result<(), AllocError>
    ensures { OnOk result (names out.new.items ≡ names out.old.items
        ++ item_uses (sig_view item.now)) }
{
    match &item.kind {
        ItemKind::Func(ty) => add_type_use(out, ty),
        ItemKind::Table(ty) => add_ref_type(out, &ty.elem),
        ItemKind::Memory(_) => Ok(()),
        ItemKind::Global(ty) => add_val_type(out, &ty.ty),
        ItemKind::Tag(ty) => use_tag(out, ty),
        ItemKind::FuncExact(ty) => add_type_use(out, ty),
    }
}

/// Appends the names of the types of items of a group that have signatures of their own.
fn use_group<'a>(out: &mut Vec<Name<'a>>, items: &[ImportGroup1Item<'a>]) -> Result<(), AllocError>
    ensures { OnOk result (names out.new.items ≡ names out.old.items
        ++ flat_map (λ i. item_uses i.1) (map typed_view items.now)) }
{
    for item in items {
        use_item(out, &item.sig)?;
    }
    Ok(())
}

/// Appends the names of the types of imported items.
fn use_items<'a>(out: &mut Vec<Name<'a>>, items: &ImportItems<'a>) -> Result<(), AllocError>
    ensures { OnOk result (names out.new.items ≡ names out.old.items
        ++ items_uses (items_view items.now)) }
{
    match items {
        ImportItems::Single { sig, .. } => use_item(out, sig),
        ImportItems::Group1 { items, .. } => use_group(out, items),
        ImportItems::Group2 { sig, .. } => use_item(out, sig),
    }
}

/// Appends the functions, or the type, of a payload.
fn use_payload<'a>(out: &mut Vec<Name<'a>>, payload: &ElemPayload<'a>) -> Result<(), AllocError>
    ensures { OnOk result (names out.new.items ≡ names out.old.items
        ++ payload_uses (payload_view payload.now)) }
{
    match payload {
        ElemPayload::Indices(indices) => add_indices(out, Space::Func, indices),
        ElemPayload::Exprs { ty, exprs: _ } => add_ref_type(out, ty),
    }
}

/// Appends the names of a table's definition.
fn use_table<'a>(out: &mut Vec<Name<'a>>, kind: &TableKind<'a>) -> Result<(), AllocError>
    ensures { OnOk result (names out.new.items ≡ names out.old.items
        ++ table_uses (table_kind_view kind.now)) }
{
    match kind {
        TableKind::Import { ty, .. } => add_ref_type(out, &ty.elem),
        TableKind::Normal { ty, .. } => add_ref_type(out, &ty.elem),
        TableKind::Inline { elem, payload, .. } => {
            add_ref_type(out, elem)?;
            use_payload(out, payload)
        }
    }
}

/// Returns the index space of an exported item.
fn export_space(kind: ExportKind) -> Space<'static>
    ensures { space_view result ≡ export_space kind }
{
    match kind {
        ExportKind::Func => Space::Func,
        ExportKind::Table => Space::Table,
        ExportKind::Memory => Space::Memory,
        ExportKind::Global => Space::Global,
        ExportKind::Tag => Space::Tag,
    }
}

/// Appends the names of types.
fn use_types<'a>(out: &mut Vec<Name<'a>>, types: &[Type<'a>]) -> Result<(), AllocError>
    ensures { OnOk result (names out.new.items ≡ names out.old.items
        ++ flat_map (λ t. def_uses t.def) (types_view types.now)) }
{
    for ty in types {
        add_type_def(out, &ty.def)?;
    }
    Ok(())
}

/// Appends the table of an active element segment.
fn use_elem_kind<'a>(out: &mut Vec<Name<'a>>, kind: &ElemKind<'a>) -> Result<(), AllocError>
    ensures { OnOk result (names out.new.items ≡ names out.old.items
        ++ elem_kind_uses (elem_kind_view kind.now)) }
{
    match kind {
        ElemKind::Passive => Ok(()),
        ElemKind::Declared => Ok(()),
        ElemKind::Active { table, offset: _ } => add_optional_index(out, Space::Table, table),
    }
}

/// Appends the memory of an active data segment.
fn use_data_kind<'a>(out: &mut Vec<Name<'a>>, kind: &DataKind<'a>) -> Result<(), AllocError>
    ensures { OnOk result (names out.new.items ≡ names out.old.items
        ++ data_kind_uses (data_kind_view kind.now)) }
{
    match kind {
        DataKind::Passive => Ok(()),
        DataKind::Active { memory, offset: _ } => add_index(out, Space::Memory, memory),
    }
}

/// Appends the names that a field uses outside expressions.
fn use_field<'a>(out: &mut Vec<Name<'a>>, field: &ModuleField<'a>) -> Result<(), AllocError>
    ensures { OnOk result (names out.new.items ≡ names out.old.items
        ++ field_uses (field_view field.now)) }
{
    match field {
        ModuleField::Type(ty) => add_type_def(out, &ty.def),
        ModuleField::Rec(rec) => use_types(out, &rec.types),
        ModuleField::Import(imports) => use_items(out, &imports.items),
        ModuleField::Func(func) => use_func(out, func),
        ModuleField::Table(table) => use_table(out, &table.kind),
        ModuleField::Memory(_) => Ok(()),
        ModuleField::Global(global) => add_val_type(out, &global.ty.ty),
        ModuleField::Export(export) => add_index(out, export_space(export.kind), &export.item),
        ModuleField::Start(index) => add_index(out, Space::Func, index),
        ModuleField::Elem(elem) => {
            use_elem_kind(out, &elem.kind)?;
            use_payload(out, &elem.payload)
        }
        ModuleField::Data(data) => use_data_kind(out, &data.kind),
        ModuleField::Tag(tag) => use_tag(out, &tag.ty),
        ModuleField::Custom(_) => Ok(()),
    }
}

/// Appends the names that the fields use outside expressions.
pub(crate) fn use_fields<'a>(
    out: &mut Vec<Name<'a>>,
    fields: &[ModuleField<'a>],
) -> Result<(), AllocError>
    ensures { OnOk result (names out.new.items ≡ names out.old.items
        ++ fields_uses (fields_view fields.now)) }
{
    for field in fields {
        use_field(out, field)?;
    }
    Ok(())
}

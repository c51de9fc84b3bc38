//! The lines of a module's exported functions.

ghost use Rattle.std.specs.Prelude.{◌≡◌, ◌++◌, OnOk, flat_map};
ghost use Rattle.wat_core.specs.Prelude.{string_bytes, field_view, fields_view, module_view, func_view, func_use_view, export_view, index_view};
ghost use Rattle.wat_example.specs.Listing.{indexed_line, use_line, func_lines, export_lines, field_lines, module_lines};

use std::alloc::AllocError;
use wat_core::{
    Export, ExportKind, Func, FunctionType, Index, Module, ModuleField, ModuleKind, TypeUse,
};

/// Adds a line with a name, a word and an index.
fn add_indexed(out: &mut String, name: &str, word: &str, index: &Index) -> Result<(), AllocError>
    ensures { OnOk result (string_bytes out.new ≡ string_bytes out.old ++ indexed_line name.now
        word.now (index_view index.now)) }
{
    match index {
        Index::Num(number, _) => writeln!(out, "{name} {word} {number}"),
        Index::Id(id) => writeln!(out, "{name} {word} ${}", id.name()),
    }
}

/// Adds the line of a function that is exported under a name.
fn add_line(out: &mut String, name: &str, ty: &TypeUse<FunctionType>) -> Result<(), AllocError>
    ensures { OnOk result (string_bytes out.new ≡ string_bytes out.old ++ use_line
        (func_use_view ty.now) name.now) }
{
    match (&ty.inline, &ty.index) {
        (Some(function), _) => {
            let params = function.params.len();
            let results = function.results.len();
            writeln!(out, "{name} {params} {results}")
        }
        (None, Some(index)) => add_indexed(out, name, "type", index),
        (None, None) => writeln!(out, "{name} 0 0"),
    }
}

/// Adds a line for each inline export of a function.
fn add_func(out: &mut String, func: &Func) -> Result<(), AllocError>
    ensures { OnOk result (string_bytes out.new ≡ string_bytes out.old ++ func_lines
        (func_view func.now)) }
{
    for name in &func.exports.names {
        add_line(out, name, &func.ty)?;
    }
    Ok(())
}

/// Adds the line of an export, if a function is exported.
fn add_export(out: &mut String, export: &Export) -> Result<(), AllocError>
    ensures { OnOk result (string_bytes out.new ≡ string_bytes out.old ++ export_lines
        (export_view export.now)) }
{
    match export.kind {
        ExportKind::Func => add_indexed(out, export.name, "function", &export.item),
        _ => Ok(()),
    }
}

/// Adds the lines of a field.
fn add_field(out: &mut String, field: &ModuleField) -> Result<(), AllocError>
    ensures { OnOk result (string_bytes out.new ≡ string_bytes out.old ++ field_lines
        (field_view field.now)) }
{
    match field {
        ModuleField::Func(func) => add_func(out, func),
        ModuleField::Export(export) => add_export(out, export),
        _ => Ok(()),
    }
}

/// Adds the lines of fields, in order.
fn add_fields(out: &mut String, fields: &[ModuleField]) -> Result<(), AllocError>
    ensures { OnOk result (string_bytes out.new ≡ string_bytes out.old ++ flat_map field_lines
        (fields_view fields.now)) }
{
    for field in fields {
        add_field(out, field)?;
    }
    Ok(())
}

/// Adds the lines of a module.
pub fn add_module(out: &mut String, module: &Module) -> Result<(), AllocError>
    ensures { OnOk result (string_bytes out.new ≡ string_bytes out.old ++ module_lines
        (module_view «module».now)) }
{
    match &module.kind {
        ModuleKind::Text(fields) => add_fields(out, fields),
        ModuleKind::Binary(_) => Ok(()),
    }
}

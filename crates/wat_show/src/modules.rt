//! The listing of modules. The only error is out of memory.

ghost use Rattle.std.specs.Prelude.{◌≡◌, ◌++◌, OnOk, map, flat_map};
ghost use Rattle.wat_core.specs.Prelude.{field_view, module_view};
ghost use Rattle.wat_show.specs.Fields.{field_text};
ghost use Rattle.wat_show.specs.Modules.{module_text};

use crate::fields::{add_field, total};
use crate::words::add_counted;
use std::alloc::AllocError;
use wat_core::{Module, ModuleField, ModuleKind};

/// Adds the listings of fields, in order.
fn add_fields(out: &mut Vec<u8>, fields: &[ModuleField]) -> Result<(), AllocError>
    ensures { OnOk result (out.new.items ≡ out.old.items ++ flat_map field_text
        (map field_view fields.now)) }
{
    for field in fields {
        add_field(out, field)?;
    }
    Ok(())
}

/// Appends the line of a module, and then the lines of its fields.
pub fn add_module(out: &mut Vec<u8>, module: &Module) -> Result<(), AllocError>
    ensures { OnOk result (out.new.items ≡ out.old.items ++ module_text
        (module_view «module».now)) }
{
    match &module.kind {
        ModuleKind::Text(fields) => {
            add_counted(out, "module text ", fields.len() as u128)?;
            add_fields(out, fields)
        }
        ModuleKind::Binary(pieces) => add_counted(out, "module binary ", total(pieces)),
    }
}

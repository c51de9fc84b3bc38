//! Rows `names`: the faults of the names, blocks and imports of a module, in the order of the text.
//! Each is a line `= KIND SPACE $NAME at OFFSET`, without the parts that the fault doesn't have.

use crate::row::{Row, add_refusal};
use std::alloc::AllocError;
use wat_core::{Error, Module};
use wat_names::{NameFault, Space, name_faults};

/// The greatest number of faults that a row prints.
const MOST: usize = 20;

/// Parses the module of a row.
fn read_module<'a>(row: &Row<'a>) -> Result<Module<'a>, Error> {
    let mut parser = row.parser(row.text, false)?;
    parser.open()?;
    let module = Module::parse(&mut parser)?;
    parser.close()?;
    Ok(module)
}

/// Returns the word for a space: that of the field that defines its names.
fn space_word(space: Space) -> &'static str {
    match space {
        Space::Type => "type",
        Space::Func => "func",
        Space::Table => "table",
        Space::Memory => "memory",
        Space::Global => "global",
        Space::Tag => "tag",
        Space::Elem => "elem",
        Space::Data => "data",
        Space::Local(_) => "local",
        Space::FieldAt(_) | Space::FieldOf(_) => "field",
    }
}

/// Adds the line of a fault.
fn add_fault(out: &mut String, fault: &NameFault) -> Result<(), AllocError> {
    let kind = fault.kind.name();
    write!(out, "= {kind}")?;
    if let Some(space) = fault.space {
        let word = space_word(space);
        write!(out, " {word}")?;
    }
    if let Some(id) = fault.id {
        let name = id.name();
        write!(out, " ${name}")?;
    }
    let offset = fault.span.offset();
    write!(out, " at {offset}\n")
}

/// Adds the lines of a module's faults, or `=` if there are none.
fn add_faults(out: &mut String, row: &Row<'_>, module: &Module) -> Result<(), AllocError> {
    let found = name_faults(row.alloc, module, MOST)?;
    if found.count == 0 {
        out.push_str("=\n")?;
    }
    for fault in &found.faults {
        add_fault(out, fault)?;
    }
    Ok(())
}

/// Adds the result of a row `names`.
pub fn add_row(out: &mut String, row: &Row<'_>) -> Result<bool, AllocError> {
    if row.kind != "names" {
        return Ok(false);
    }
    match read_module(row) {
        Ok(module) => add_faults(out, row, &module)?,
        Err(error) => add_refusal(out, error)?,
    }
    Ok(true)
}

//! The order of imports (Text Format, "Modules").

ghost use Rattle.std.specs.Prelude.{◌≡◌, ◌++◌, OnOk};
ghost use Rattle.wat_scopes.specs.Imports.{late_imports};

use crate::fault::{FaultKind, NameFault, Note};
use std::alloc::AllocError;
use wat_tokens::Span;

/// What a field is for the order of imports, with its position. Other fields have no mark.
#[derive(Clone, Copy, Debug)]
pub enum Mark {
    /// An import: a field `import`, or a definition with an inline import.
    Import(Span),
    /// A function, table, memory, global or tag that is defined in the module.
    Definition(Span),
}

/// Appends a fault for each import after a definition, in order. `marks` are those of the fields of
/// a module, in order.
pub fn check_imports(out: &mut Vec<NameFault<'_>>, marks: &[Mark]) -> Result<(), AllocError>
    ensures { OnOk result (out.new.items ≡ out.old.items ++ late_imports marks.now) }
{
    let mut first = None;
    for mark in marks {
        match mark {
            Mark::Definition(span) => first = first.or(Some(*span)),
            Mark::Import(span) => {
                if let Some(first) = first {
                    out.push(NameFault {
                        kind: FaultKind::LateImport,
                        space: None,
                        id: None,
                        span: *span,
                        note: Note::First(first),
                    })?;
                }
            }
        }
    }
    Ok(())
}

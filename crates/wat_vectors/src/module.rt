//! A module's text, and a module's parts.

use bumpalo::Bump;
use std::test::Fail;
use wat_core::{Fault, ModuleKind, read_module};

#[test]
fn a_module_is_taken_apart(rt: HostRuntime) -> Result<(), Fail> {
    let arena = Bump::new(rt.alloc());
    let module = read_module(rt.alloc(), "(module $m (@name \"n\") (start 0))", &arena)?;
    let (span, id, name, kind) = module.into_parts();
    assert_eq!(rt; span.offset(), 1);
    match id {
        Some(id) => assert_eq!(rt; id.name(), "m"),
        None => return Err("no identifier".into()),
    }
    match name {
        Some(given) => assert_eq!(rt; given.name, "n"),
        None => return Err("no name".into()),
    }
    match kind {
        ModuleKind::Text(fields) => assert_eq!(rt; fields.len(), 1),
        ModuleKind::Binary(_) => return Err("no fields".into()),
    }
    Ok(())
}

#[test]
fn no_annotation_is_known_outside_the_group(rt: HostRuntime) -> Result<(), Fail> {
    let arena = Bump::new(rt.alloc());
    let module = read_module(rt.alloc(), "(@custom 1) (module (start 0)) (@name)", &arena)?;
    assert_eq!(rt; module.span.offset(), 13);
    match read_module(rt.alloc(), "(@custom 1) ((@name 1) module)", &arena) {
        Ok(_) => return Err("a name is in front".into()),
        Err(error) => assert_eq!(rt; (error.fault, error.span.offset()), (Fault::Unexpected, 13)),
    }
    Ok(())
}

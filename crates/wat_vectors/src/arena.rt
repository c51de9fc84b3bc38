//! An arena that is given back once nothing of the module is used any more.

use bumpalo::Bump;
use std::alloc::Global as Allocator;
use std::test::Fail;
use wat_core::{Module, ModuleKind, Parser, ownership};

/// How many fields a text's module has. The arena is given back where nothing of the module is used
/// any more.
fn fields_of(alloc: Allocator, text: &str) -> Result<usize, Fail> {
    let mut arena = Bump::new(alloc);
    let mut parser = Parser::new(alloc, text, &arena)?;
    parser.open()?;
    let module = Module::parse(&mut parser)?;
    ownership::discard(parser);
    let fields = match &module.kind {
        ModuleKind::Text(fields) => fields.len(),
        ModuleKind::Binary(_) => 0,
    };
    ownership::discard(module);
    arena.reset()?;
    Ok(fields)
}

#[test]
fn an_arena_outlives_its_module(rt: HostRuntime) -> Result<(), Fail> {
    let fields = fields_of(rt.alloc(), "(module (func $\"f\\n\") (data \"\\00\"))")?;
    assert_eq!(rt; fields, 2);
    Ok(())
}

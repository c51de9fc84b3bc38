//! Values that are made by calls and not parsed.

use crate::refused::read;
use bumpalo::Bump;
use std::alloc::Global;
use std::process::Abort;
use std::test::Fail;
use wat_core::{
    FunctionType, FunctionTypeNoNames, Id, Imports, Index, InlineExport, ItemSig, RefType, Span,
    TypeUse,
};
use wat_print::{Layout, print};
use wat_print_module::ModulePart;

/// A shorthand is parsed as the reference type, and the shared shorthand as the shared type. To
/// share the type twice is to share it once.
fn is_named(rt: &impl Abort, alloc: Global, made: RefType, word: &str) -> Result<(), Fail> {
    let arena = Bump::new(alloc);
    assert_eq!(rt; read::<RefType>(alloc, word, &arena)?, made, "{word}");
    let shared = made.shared().ok_or("not shared")?;
    let text = format!(in alloc; "(shared {word})")?;
    assert_eq!(rt; read::<RefType>(alloc, &text, &arena)?, shared, "{word}");
    assert_eq!(rt; shared.shared(), Some(shared), "{word}");
    Ok(())
}

#[test]
fn reference_types_are_made(rt: HostRuntime) -> Result<(), Fail> {
    for (made, word) in [
        (RefType::func(), "funcref"),
        (RefType::extern_(), "externref"),
        (RefType::exn(), "exnref"),
        (RefType::cont(), "contref"),
        (RefType::any(), "anyref"),
        (RefType::eq(), "eqref"),
        (RefType::struct_(), "structref"),
        (RefType::array(), "arrayref"),
        (RefType::i31(), "i31ref"),
        (RefType::nullfuncref(), "nullfuncref"),
        (RefType::nullexternref(), "nullexternref"),
        (RefType::nullref(), "nullref"),
        (RefType::nullexnref(), "nullexnref"),
        (RefType::nullcontref(), "nullcontref"),
    ] {
        is_named(&rt, rt.alloc(), made, word)?;
    }
    Ok(())
}

#[test]
fn other_reference_types_are_shared(rt: HostRuntime) -> Result<(), Fail> {
    let arena = Bump::new(rt.alloc());
    let found = read::<RefType>(rt.alloc(), "(ref func)", &arena)?;
    let shared = read::<RefType>(rt.alloc(), "(ref (shared func))", &arena)?;
    assert_eq!(rt; found.shared(), Some(shared));
    for text in ["(ref 0)", "(ref null $t)", "(ref (exact 1))"] {
        assert_eq!(rt;
            read::<RefType>(rt.alloc(), text, &arena)?.shared(),
            None,
            "{text}"
        );
    }
    Ok(())
}

#[test]
fn empty_types_are_made(rt: HostRuntime) {
    let function = FunctionType::empty(rt.alloc());
    assert_eq!(rt; (function.params.len(), function.results.len()), (0, 0));
    let unnamed = FunctionTypeNoNames::empty(rt.alloc()).0;
    assert_eq!(rt; (unnamed.params.len(), unnamed.results.len()), (0, 0));
    assert_eq!(rt; InlineExport::empty(rt.alloc()).names.len(), 0);
}

#[test]
fn a_type_use_is_made(rt: HostRuntime) -> Result<(), Fail> {
    let index = Index::Id(Id::new("t", Span::from_offset(3)));
    let made = TypeUse::<FunctionType>::new_with_index(index);
    assert_eq!(rt; made.index.map(|index| index.span().offset()), Some(3));
    let text = print(rt.alloc(), &made, Layout::Line)?;
    assert_eq!(rt; text.as_str(), "(type $t)");
    Ok(())
}

/// Makes an import of one item at the offset 5.
fn import_of<'a>(module: &'a str, name: &'a str, sig: ItemSig<'a>) -> Imports<'a> {
    Imports::single(Span::from_offset(5), module, name, sig)
}

#[test]
fn an_import_is_made(rt: HostRuntime) -> Result<(), Fail> {
    let arena = Bump::new(rt.alloc());
    let sig = read::<ItemSig>(rt.alloc(), "func $f (param i32)", &arena)?;
    let made = import_of("m", "n", sig);
    assert_eq!(rt; made.span.offset(), 5);
    let text = print(rt.alloc(), &ModulePart(&made), Layout::Line)?;
    assert_eq!(rt; text.as_str(), "import \"m\" \"n\" (func $f (param i32))");
    Ok(())
}

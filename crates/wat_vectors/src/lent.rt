//! Parts of values that are lent for writing.

use crate::refused::{number, read};
use bumpalo::Bump;
use std::alloc::Global;
use std::process::Abort;
use std::test::Fail;
use wat_core::{CatchKind, Imports, ItemSig, TryTableCatch, TryTableCatchKind};
use wat_print::{Layout, Refused, print};
use wat_print_instr::Code;
use wat_print_module::ModulePart;

/// What is printed of a catch clause after the tag, if any, is replaced by 9. The label is 1.
fn with_tag(alloc: Global, kind: TryTableCatchKind) -> Result<String, Refused> {
    let mut clause = TryTableCatch {
        kind,
        label: number(1),
    };
    if let Some(tag) = clause.kind.tag_index_mut() {
        *tag = number(9);
    }
    print(alloc, &Code(&clause), Layout::Line)
}

#[test]
fn tags_of_catch_clauses_are_replaced(rt: HostRuntime) -> Result<(), Fail> {
    for (kind, printed) in [
        (CatchKind::Catch(number(0)), "(catch 9 1)"),
        (CatchKind::CatchRef(number(0)), "(catch_ref 9 1)"),
        (CatchKind::CatchAll, "(catch_all 1)"),
        (CatchKind::CatchAllRef, "(catch_all_ref 1)"),
    ] {
        assert_eq!(rt; with_tag(rt.alloc(), kind)?.as_str(), printed);
    }
    Ok(())
}

/// What is printed of an import after the signature number `i` is replaced by that of a table. If
/// the import has no such signature, nothing is.
fn with_sig(alloc: Global, text: &str, i: usize) -> Result<Option<String>, Fail> {
    let arena = Bump::new(alloc);
    let mut imports = read::<Imports>(alloc, text, &arena)?;
    let table = read::<ItemSig>(alloc, "table 1 funcref", &arena)?;
    match imports.sig_mut(i) {
        Some(sig) => *sig = table,
        None => return Ok(None),
    }
    Ok(Some(print(alloc, &ModulePart(&imports), Layout::Line)?))
}

/// An import, and what is printed of it after each of its signatures is replaced.
type Row = (&'static str, &'static [&'static str]);

const ROWS: [Row; 4] = [
    (
        "import \"m\" \"a\" (func)",
        &["import \"m\" \"a\" (table 1 funcref)"],
    ),
    (
        "import \"m\" (item \"a\" (func)) (item \"b\" (memory 2))",
        &[
            "import \"m\" (item \"a\" (table 1 funcref)) (item \"b\" (memory 2))",
            "import \"m\" (item \"a\" (func)) (item \"b\" (table 1 funcref))",
        ],
    ),
    (
        "import \"m\" (item \"a\") (item \"b\") (func)",
        &["import \"m\" (item \"a\") (item \"b\") (table 1 funcref)"],
    ),
    ("import \"m\"", &[]),
];

/// Each signature of the import is replaced, and there are no others.
fn check_row(rt: &impl Abort, alloc: Global, (text, wanted): Row) -> Result<(), Fail> {
    let arena = Bump::new(alloc);
    let sigs = read::<Imports>(alloc, text, &arena)?.num_sigs();
    assert_eq!(rt; sigs, wanted.len(), "{text}");
    for (i, printed) in wanted.iter().enumerate() {
        let found = with_sig(alloc, text, i)?.ok_or("no signature")?;
        assert_eq!(rt; found.as_str(), *printed);
    }
    assert!(rt; with_sig(alloc, text, sigs)?.is_none(), "{text}");
    Ok(())
}

#[test]
fn signatures_of_imports_are_replaced(rt: HostRuntime) -> Result<(), Fail> {
    for row in ROWS {
        check_row(&rt, rt.alloc(), row)?;
    }
    Ok(())
}

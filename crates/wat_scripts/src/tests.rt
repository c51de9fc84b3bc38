//! Scripts and their modules, and texts that aren't scripts.

use crate::script::script_modules;
use bumpalo::Bump;
use std::alloc::Global;
use std::process::Abort;
use std::test::Fail;
use wat_tokens::Fault;

/// A module: its start, its end, and the offset of its word `definition`.
type Part = (usize, usize, Option<usize>);

fn modules_are(rt: &impl Abort, alloc: Global, text: &str, want: &[Part]) -> Result<(), Fail> {
    let arena = Bump::new(alloc);
    let found = script_modules(alloc, text, &arena)?;
    assert_eq!(rt; found.len(), want.len(), "of {text:?}");
    for (module, part) in found.iter().zip(want) {
        assert_eq!(rt; module.start, part.0, "of {text:?}");
        assert_eq!(rt; module.end, part.1, "of {text:?}");
        assert_eq!(rt; module.definition, part.2, "of {text:?}");
    }
    Ok(())
}

fn refused_at(rt: &impl Abort, alloc: Global, text: &str, fault: Fault, offset: usize) {
    let arena = Bump::new(alloc);
    match script_modules(alloc, text, &arena) {
        Ok(_) => panic!(rt; "{text:?} is a script"),
        Err(error) => {
            assert_eq!(rt; error.fault, fault, "of {text:?}");
            assert_eq!(rt; error.span.offset(), offset, "of {text:?}");
        }
    }
}

#[test]
fn commands(rt: HostRuntime) -> Result<(), Fail> {
    let alloc = rt.alloc();
    modules_are(&rt, alloc, "(module)", &[(0, 8, None)])?;
    modules_are(
        &rt,
        alloc,
        "(module $m (func (x)))\n(register \"m\" $m) (invoke \"f\" (i32.const 1)) ",
        &[(0, 22, None)],
    )?;
    modules_are(
        &rt,
        alloc,
        "(assert_invalid (module (func)) \"x\") (module $a)",
        &[(16, 31, None), (37, 48, None)],
    )?;
    modules_are(
        &rt,
        alloc,
        "(thread $t (shared (module $m)) (module $n) (module))",
        &[(32, 43, None), (44, 52, None)],
    )?;
    modules_are(
        &rt,
        alloc,
        "(@a (module)) (module (@b)) (assert_trap ( (@c) module) \"\")",
        &[(14, 27, None), (41, 55, None)],
    )
}

#[test]
fn heads(rt: HostRuntime) -> Result<(), Fail> {
    let alloc = rt.alloc();
    modules_are(&rt, alloc, "(module binary \"\")", &[(0, 18, None)])?;
    modules_are(&rt, alloc, "(module $m binary \"\")", &[(0, 21, None)])?;
    modules_are(&rt, alloc, "(module definition)", &[(0, 19, Some(8))])?;
    modules_are(
        &rt,
        alloc,
        "(module definition $m (func))",
        &[(0, 29, Some(8))],
    )?;
    modules_are(
        &rt,
        alloc,
        "(module $m definition binary)",
        &[(0, 29, Some(11))],
    )?;
    modules_are(&rt, alloc, "(module quote \"(func)\")", &[])?;
    modules_are(&rt, alloc, "(module $m quote)", &[])?;
    modules_are(&rt, alloc, "(module definition quote)", &[])?;
    modules_are(&rt, alloc, "(module definition $m quote)", &[])?;
    modules_are(&rt, alloc, "(module $m definition quote)", &[])?;
    modules_are(&rt, alloc, "(module instance $i $m)", &[])?;
    modules_are(&rt, alloc, "(module $m instance)", &[])?;
    modules_are(&rt, alloc, "(module $m $n quote)", &[(0, 20, None)])
}

#[test]
fn refusals(rt: HostRuntime) {
    let alloc = rt.alloc();
    refused_at(&rt, alloc, "", Fault::Unexpected, 0);
    refused_at(&rt, alloc, " ;; x\n", Fault::Unexpected, 6);
    refused_at(&rt, alloc, "(module) nop", Fault::Unexpected, 9);
    refused_at(&rt, alloc, "(module))", Fault::Unexpected, 8);
    refused_at(&rt, alloc, "(module) (func)", Fault::Unexpected, 10);
    refused_at(&rt, alloc, "((module))", Fault::Unexpected, 1);
    refused_at(&rt, alloc, "(module (func)", Fault::Unexpected, 14);
    refused_at(
        &rt,
        alloc,
        "(assert_invalid (module ",
        Fault::Unexpected,
        24,
    );
    refused_at(&rt, alloc, "(register \"m\" ", Fault::Unexpected, 14);
    refused_at(&rt, alloc, "(", Fault::Unexpected, 1);
    refused_at(&rt, alloc, "(module \"a)", Fault::LexString, 8);
}

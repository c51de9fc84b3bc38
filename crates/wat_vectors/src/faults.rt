//! Small texts and their faults, where a field is a number in parentheses.

use bumpalo::Bump;
use std::alloc::Global;
use std::process::Abort;
use std::test::Fail;
use wat_core::Fault;
use wat_core::wrong_fields::field_faults;

/// How many faults are kept.
const MOST: usize = 3;

/// A text, how many groups it has, and how many are wrong; the kept faults with their offsets, and
/// the offset of what is wrong beside them.
struct Row {
    text: &'static str,
    groups: usize,
    count: usize,
    faults: &'static [(Fault, usize)],
    beside: Option<usize>,
}

/// Whether the faults that are found in the text are those of the row.
fn check_row(rt: &impl Abort, alloc: Global, row: &Row) -> Result<(), Fail> {
    let text = row.text;
    let arena = Bump::new(alloc);
    let found = field_faults::<u32>(alloc, text, &arena, MOST)?;
    assert_eq!(rt; found.groups, row.groups, "groups of {text:?}");
    assert_eq!(rt; found.count, row.count, "count of {text:?}");
    assert_eq!(rt; found.faults.len(), row.faults.len(), "faults of {text:?}");
    for (error, (fault, offset)) in found.faults.iter().zip(row.faults) {
        assert_eq!(rt; error.fault, *fault, "of {text:?}");
        assert_eq!(rt; error.span.offset(), *offset, "of {text:?}");
    }
    match found.beside {
        None => assert!(rt; row.beside.is_none(), "nothing beside in {text:?}"),
        Some(error) => {
            assert_eq!(rt; error.fault, Fault::Unexpected, "beside in {text:?}");
            assert_eq!(rt; row.beside, Some(error.span.offset()), "beside in {text:?}");
        }
    }
    Ok(())
}

/// The texts.
const ROWS: [Row; 19] = [
    // A good group between two wrong ones.
    Row {
        text: "(module (a) (1) (2 3))",
        groups: 3,
        count: 2,
        faults: &[(Fault::Unexpected, 9), (Fault::Unexpected, 19)],
        beside: None,
    },
    Row {
        text: "(module)",
        groups: 0,
        count: 0,
        faults: &[],
        beside: None,
    },
    Row {
        text: "(module (1) ( (;c;) 2 ) ;; d\n (0x3))",
        groups: 3,
        count: 0,
        faults: &[],
        beside: None,
    },
    // A fault of another kind, at its token.
    Row {
        text: "(module (1) (99999999999))",
        groups: 2,
        count: 1,
        faults: &[(Fault::Range, 13)],
        beside: None,
    },
    // Groups of unknown annotations: between fields and in them, in the head and after it.
    Row {
        text: "(@h (x)) (module (@a (b)) (1) (@c) ((@d ()) 2 (@e)) (@f) (x)(@g)) (@i)",
        groups: 3,
        count: 1,
        faults: &[(Fault::Unexpected, 58)],
        beside: None,
    },
    // One that is known is a group among the others.
    Row {
        text: "(module (1) (@custom \"x\") (2))",
        groups: 3,
        count: 1,
        faults: &[(Fault::Unexpected, 13)],
        beside: None,
    },
    // Known annotations aren't known before the head and after the module.
    Row {
        text: "(@custom) (module (x)) (@name)",
        groups: 1,
        count: 1,
        faults: &[(Fault::Unexpected, 19)],
        beside: None,
    },
    // The name and the identifier of a head.
    Row {
        text: "(module $m (@name \"x\") (y) (1))",
        groups: 2,
        count: 1,
        faults: &[(Fault::Unexpected, 24)],
        beside: None,
    },
    Row {
        text: "(module (@name \"x\") (1))",
        groups: 1,
        count: 0,
        faults: &[],
        beside: None,
    },
    Row {
        text: "(module (@name \"x\") (@name \"y\") (1))",
        groups: 2,
        count: 1,
        faults: &[(Fault::Unexpected, 21)],
        beside: None,
    },
    // A group that isn't closed goes to the end of the text.
    Row {
        text: "(module (x) (1 ",
        groups: 2,
        count: 2,
        faults: &[(Fault::Unexpected, 9), (Fault::Unexpected, 15)],
        beside: Some(15),
    },
    // A module that isn't closed.
    Row {
        text: "(module (x) (1)\n",
        groups: 2,
        count: 1,
        faults: &[(Fault::Unexpected, 9)],
        beside: Some(16),
    },
    // A stray token, which ends the groups.
    Row {
        text: "(module (x) y (1) (2 z))",
        groups: 1,
        count: 1,
        faults: &[(Fault::Unexpected, 9)],
        beside: Some(12),
    },
    // Tokens after the module.
    Row {
        text: "(module (1)) (x)",
        groups: 1,
        count: 0,
        faults: &[],
        beside: Some(13),
    },
    Row {
        text: "(module (x)))",
        groups: 1,
        count: 1,
        faults: &[(Fault::Unexpected, 9)],
        beside: Some(12),
    },
    // A module in binary, and no head.
    Row {
        text: "(module $m binary \"x\" (y))",
        groups: 0,
        count: 0,
        faults: &[],
        beside: None,
    },
    Row {
        text: "(modul (x) y",
        groups: 0,
        count: 0,
        faults: &[],
        beside: None,
    },
    Row {
        text: "",
        groups: 0,
        count: 0,
        faults: &[],
        beside: None,
    },
    // More wrong groups than are kept.
    Row {
        text: "(module (a) (b) (c) (1) (d) (e))",
        groups: 6,
        count: 5,
        faults: &[
            (Fault::Unexpected, 9),
            (Fault::Unexpected, 13),
            (Fault::Unexpected, 17),
        ],
        beside: None,
    },
];

#[test]
fn faults_of_fields_are_found(rt: HostRuntime) -> Result<(), Fail> {
    for row in &ROWS {
        check_row(&rt, rt.alloc(), row)?;
    }
    Ok(())
}

/// A text that can't be cut, its fault and the offset.
const REFUSED: [(&str, Fault, usize); 4] = [
    ("(module (x) \"open", Fault::LexString, 12),
    ("(module (x) ; y)", Fault::LexChar, 12),
    ("(module (x)) (; (; ;)", Fault::LexComment, 13),
    ("(module (x) (@a (y) (z)", Fault::LexAnnotation, 12),
];

#[test]
fn texts_without_a_cut_are_refused(rt: HostRuntime) -> Result<(), Fail> {
    for (text, fault, offset) in REFUSED {
        let arena = Bump::new(rt.alloc());
        match field_faults::<u32>(rt.alloc(), text, &arena, MOST) {
            Ok(_) => assert!(rt; false, "not refused: {text:?}"),
            Err(error) => {
                assert_eq!(rt; error.fault, fault, "of {text:?}");
                assert_eq!(rt; error.span.offset(), offset, "of {text:?}");
            }
        }
    }
    Ok(())
}

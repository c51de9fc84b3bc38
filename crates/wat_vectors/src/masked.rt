//! Small texts and their masked texts.

use std::alloc::Global;
use std::process::Abort;
use std::test::Fail;
use wat_core::Fault;
use wat_masked::masked::masked;

/// A text, and its masked text.
type Row = (&'static str, &'static str);

fn masked_are(rt: &impl Abort, alloc: Global, rows: &[Row]) -> Result<(), Fail> {
    for (text, want) in rows {
        let answer = masked(alloc, text)?;
        assert_eq!(rt; answer.as_str(), *want, "of {text:?}");
    }
    Ok(())
}

const WORDS: [Row; 9] = [
    (
        "(module (func (f32.const 1.5) (drop)))",
        "(module (func (i32.const 0  ) (drop)))",
    ),
    (
        "v128.const f32x4 1 2 3 nan f64x2 -1. 0x1p-1",
        "v128.const i32x4 0 0 0 0   i64x2 0   0     ",
    ),
    (
        "(data (f32 1 2.5) \"a\" (f64 inf))",
        "(data (i32 0 0  ) \"a\" (i64 0  ))",
    ),
    ("f64.const 1.5 2.5", "i64.const 0   0  "),
    ("(f64 1.) 1.5", "(i64 0 ) 1.5"),
    ("f32x4 1.5 x 1.5", "i32x4 0   x 1.5"),
    ("f32.const(; 1 ;);; 2\n3;;", "i32.const(; 1 ;);; 2\n0;;"),
    (
        "(param f32 1.5) (f32 $1.5) (f32)",
        "(param f32 1.5) (f32 $1.5) (f32)",
    ),
    (
        "i32.const 1.5 f32.const \"1.5\" f32.const",
        "i32.const 1.5 f32.const \"1.5\" f32.const",
    ),
];

#[test]
fn words(rt: HostRuntime) -> Result<(), Fail> {
    masked_are(&rt, rt.alloc(), &WORDS)
}

const LITERALS: [Row; 6] = [
    ("f32x4 +1_0.2_3e+4_5 7 -7.E0", "i32x4 0             0 0    "),
    ("f32x4 0x1_F 0xa.P-9 0X1", "i32x4 0     0       0X1"),
    (
        "f32x4 inf -inf nan +nan nan:0x7f_ffff",
        "i32x4 0   0    0   0    0            ",
    ),
    ("f32.const .5 f32.const 1__0", "f32.const .5 f32.const 1__0"),
    ("f32.const 1._0 f32.const 1e", "f32.const 1._0 f32.const 1e"),
    (
        "f32.const nan:7 f32.const 0x1.p+f",
        "f32.const nan:7 f32.const 0x1.p+f",
    ),
];

#[test]
fn literals(rt: HostRuntime) -> Result<(), Fail> {
    masked_are(&rt, rt.alloc(), &LITERALS)
}

const HIDDEN: [Row; 6] = [
    ("f32.const (@a) 1.5", "i32.const (@a) 0  "),
    (
        "f64x2 (@a (f32 1.5)) 1.5 (@b)(@c) nan",
        "i64x2 (@a (f32 1.5)) 0   (@b)(@c) 0  ",
    ),
    ("( (@a) f32 1.5)", "( (@a) i32 0  )"),
    ("(@a f32.const 1.5)", "(@a f32.const 1.5)"),
    ("f32.const (@a 1.5) x", "f32.const (@a 1.5) x"),
    (
        "f32.const (@custom \"x\") 1.5 (@name \"y\")",
        "i32.const (@custom \"x\") 0   (@name \"y\")",
    ),
];

#[test]
fn hidden(rt: HostRuntime) -> Result<(), Fail> {
    masked_are(&rt, rt.alloc(), &HIDDEN)
}

const WITHOUT_FLOATS: [Row; 3] = [
    ("", ""),
    (
        "(module (func (param f32) (result f64) unreachable)) ;; f32.const 1.5",
        "(module (func (param f32) (result f64) unreachable)) ;; f32.const 1.5",
    ),
    (
        "\"\u{e9} f32.const 1.5\" $f32 f32.add",
        "\"\u{e9} f32.const 1.5\" $f32 f32.add",
    ),
];

#[test]
fn without_floats(rt: HostRuntime) -> Result<(), Fail> {
    masked_are(&rt, rt.alloc(), &WITHOUT_FLOATS)
}

/// A text that is refused, its fault and the offset.
const REFUSED: [(&str, Fault, usize); 4] = [
    ("f32.const 1.5 ; b", Fault::LexChar, 14),
    ("f32.const \"open", Fault::LexString, 10),
    ("(; (; ;)", Fault::LexComment, 0),
    ("f32.const 1.5 (@a (b)", Fault::LexAnnotation, 14),
];

#[test]
fn refused(rt: HostRuntime) -> Result<(), Fail> {
    for (text, fault, offset) in REFUSED {
        match masked(rt.alloc(), text) {
            Ok(_) => assert!(rt; false, "not refused: {text:?}"),
            Err(error) => {
                assert_eq!(rt; error.fault, fault, "of {text:?}");
                assert_eq!(rt; error.span.offset(), offset, "of {text:?}");
            }
        }
    }
    Ok(())
}

//! Small texts and what they are formatted to.

use std::alloc::Global;
use std::process::Abort;
use std::test::Fail;
use wat_core::Fault;
use wat_format::format::format;

/// A text, and what it is formatted to.
type Row = (&'static str, &'static str);

/// Each text is formatted to what is wanted, and that to itself.
fn format_to(rt: &impl Abort, alloc: Global, rows: &[Row]) -> Result<(), Fail> {
    for (text, want) in rows {
        let once = format(alloc, text)?;
        assert_eq!(rt; once.as_str(), *want, "of {text:?}");
        let twice = format(alloc, &once)?;
        assert_eq!(rt; twice.as_str(), *want, "again, of {text:?}");
    }
    Ok(())
}

const SPACES: [Row; 9] = [
    ("", ""),
    (" \n\t\r\n ", ""),
    ("(module)", "(module)\n"),
    ("\n\n( module )\n\n\n", "(module)\n"),
    ("( a\tb  c )( d )", "(a b c) (d)\n"),
    ("a(;;)b", "a (;;) b\n"),
    ("1.50  -0x1.8p+3 nan:0x7", "1.50 -0x1.8p+3 nan:0x7\n"),
    (
        "$\"a b\"   $c \"\\n\" \"x\"\"y\"",
        "$\"a b\" $c \"\\n\" \"x\"\"y\"\n",
    ),
    ("\"a ;; b\"  \"(; c\"", "\"a ;; b\" \"(; c\"\n"),
];

#[test]
fn spaces(rt: HostRuntime) -> Result<(), Fail> {
    format_to(&rt, rt.alloc(), &SPACES)
}

const ANNOTATIONS: [Row; 5] = [
    ("(@custom \"x\"  1)", "(@custom \"x\" 1)\n"),
    ("( @a )(@b)", "( @a) (@b)\n"),
    ("(   @a)(\n@b)", "( @a) (\n  @b)\n"),
    (
        "(@a  any  $\"q\" @ \"x\"y 0x= ( ) )",
        "(@a any $\"q\" @ \"x\"y 0x= ())\n",
    ),
    ("(@name block\nx)\ny", "(@name block\n    x)\ny\n"),
];

#[test]
fn annotations(rt: HostRuntime) -> Result<(), Fail> {
    format_to(&rt, rt.alloc(), &ANNOTATIONS)
}

const COMMENTS: [Row; 14] = [
    ("(func) ;; c", "(func) ;; c\n"),
    ("(func);; c", "(func) ;; c\n"),
    ("(func)    ;; c", "(func)    ;; c\n"),
    ("(func)\t\t;; c  \nx", "(func)\t\t;; c  \nx\n"),
    ("a \t (;c;)\t\n b   (;d;)   c", "a \t (;c;)\nb (;d;) c\n"),
    (";; at the end", ";; at the end\n"),
    ("(; a (; b ;) c ;)x", "(; a (; b ;) c ;) x\n"),
    (
        "(a\n(; one\n     two ;)\n(b))",
        "(a\n  (; one\n     two ;)\n  (b))\n",
    ),
    ("(\n;; c\n)", "(\n  ;; c\n)\n"),
    ("( ;; c\n;; d\n)", "( ;; c\n  ;; d\n)\n"),
    ("( (;c;)\n)", "( (;c;)\n)\n"),
    ("((;c;)module(;d;)\n)", "((;c;) module (;d;)\n)\n"),
    ("((;c;)  )", "((;c;))\n"),
    ("(a ;; c\n)", "(a ;; c\n)\n"),
];

#[test]
fn comments(rt: HostRuntime) -> Result<(), Fail> {
    format_to(&rt, rt.alloc(), &COMMENTS)
}

const LINE_ENDS: [Row; 3] = [
    ("(;a\r\nb;)\r\nx\ry", "(;a\r\nb;)\nx\ny\n"),
    (
        "(a ;; c\r\n;; d\r(b)\r\r\r\nc)",
        "(a ;; c\n  ;; d\n  (b)\n\n  c)\n",
    ),
    ("\"a\\0d\"\r\n\"b\"", "\"a\\0d\"\n\"b\"\n"),
];

#[test]
fn line_ends(rt: HostRuntime) -> Result<(), Fail> {
    format_to(&rt, rt.alloc(), &LINE_ENDS)
}

const EMPTY_LINES: [Row; 5] = [
    ("a\n\n\n\nb", "a\n\nb\n"),
    ("(a\n\n(b)\n\n\n(c)\n\n)\n\n\n", "(a\n  (b)\n\n  (c)\n)\n"),
    ("(a (b) ;; c\n\nd\n\ne)", "(a (b) ;; c\n  d\n\n  e)\n"),
    ("(a\n) (b\n\nc\n)\n\nd", "(a\n) (b\n  c\n)\n\nd\n"),
    ("(a\n;; c\n\nb)", "(a\n  ;; c\n\n  b)\n"),
];

#[test]
fn empty_lines(rt: HostRuntime) -> Result<(), Fail> {
    format_to(&rt, rt.alloc(), &EMPTY_LINES)
}

const GROUPS: [Row; 3] = [
    ("(a\n(b\n(c\n)\n)\n)", "(a\n  (b\n    (c\n    )\n  )\n)\n"),
    ("(a (b (c\nd\n) )\n)", "(a (b (c\n      d\n  ))\n)\n"),
    ("(a (b\n)\n) )\n)(\nx)", "(a (b\n  )\n))\n) (\n  x)\n"),
];

#[test]
fn groups(rt: HostRuntime) -> Result<(), Fail> {
    format_to(&rt, rt.alloc(), &GROUPS)
}

const FLAT_BLOCKS: [Row; 9] = [
    ("(func loop\nnop\n)\n(x)", "(func loop\n    nop\n)\n(x)\n"),
    (
        "block $a\nloop $b\nnop\nend $b end $a\nnop",
        "block $a\n  loop $b\n    nop\nend $b end $a\nnop\n",
    ),
    (
        "block\nblock\nnop\nend\nend\nend",
        "block\n  block\n    nop\n  end\nend\nend\n",
    ),
    (
        "block block\nend end end end",
        "block block\nend end end end\n",
    ),
    ("block\nend\"x\"\nend)\nx", "block\n  end\"x\"\nend)\nx\n"),
    (
        "try\nnop\ncatch $e\nnop\ncatch_all\nnop\ntry\nnop\ndelegate 0\nend",
        "try\n  nop\ncatch $e\n  nop\ncatch_all\n  nop\n  try\n    nop\n  delegate 0\nend\n",
    ),
    (
        "try_table (catch $e\n0)\nthrow $e\nend",
        "try_table (catch $e\n    0)\n  throw $e\nend\n",
    ),
    ("(\nblock\nend)", "(\n  block\n  end)\n"),
    (
        "nop end\nelse\nblock end else\nx",
        "nop end\nelse\nblock end else\nx\n",
    ),
];

#[test]
fn flat_blocks(rt: HostRuntime) -> Result<(), Fail> {
    format_to(&rt, rt.alloc(), &FLAT_BLOCKS)
}

const WHOLE_TEXTS: [Row; 3] = [
    (
        "(module\n(func\nblock\nnop\nif\nnop\nelse\nnop\nend\nend\n(if (then\nnop\n)\n)\n))",
        "(module\n  (func\n    block\n      nop\n      if\n        nop\n      else\n        nop\n      end\n    end\n    (if (then\n        nop\n      )\n    )\n))\n",
    ),
    (
        "( module\n ( func $f ( param $x i32 )\n\n  ( if (result i32)\n (local.get $x)\n  ( then\n   (i32.const 1) )\n  ( else\n(i32.const 2)\n)\n )))",
        "(module\n  (func $f (param $x i32)\n    (if (result i32)\n      (local.get $x)\n      (then\n        (i32.const 1))\n      (else\n        (i32.const 2)\n      )\n)))\n",
    ),
    (
        "(module $m (func (export \"f\")))\n( assert_return (invoke $m \"f\" )\n(f32.const 1.0) )\n\n\n(assert_malformed\n(module quote \"(func\")\n\"x\" )",
        "(module $m (func (export \"f\")))\n(assert_return (invoke $m \"f\")\n  (f32.const 1.0))\n\n(assert_malformed\n  (module quote \"(func\")\n  \"x\")\n",
    ),
];

#[test]
fn whole_texts(rt: HostRuntime) -> Result<(), Fail> {
    format_to(&rt, rt.alloc(), &WHOLE_TEXTS)
}

/// A text that is refused, its fault and the offset.
const REFUSED: [(&str, Fault, usize); 8] = [
    ("a ; b", Fault::LexChar, 2),
    ("(a\u{e9})", Fault::LexChar, 2),
    ("x \"open", Fault::LexString, 2),
    ("a\"\\q\"", Fault::LexString, 1),
    (" (; (; ;)", Fault::LexComment, 1),
    ("() (@a (b) (@c)", Fault::LexAnnotation, 3),
    (")(@a", Fault::LexAnnotation, 1),
    ("(@a \"", Fault::LexString, 4),
];

#[test]
fn refused(rt: HostRuntime) -> Result<(), Fail> {
    for (text, fault, offset) in REFUSED {
        match format(rt.alloc(), text) {
            Ok(_) => assert!(rt; false, "not refused: {text:?}"),
            Err(error) => {
                assert_eq!(rt; error.fault, fault, "of {text:?}");
                assert_eq!(rt; error.span.offset(), offset, "of {text:?}");
            }
        }
    }
    Ok(())
}

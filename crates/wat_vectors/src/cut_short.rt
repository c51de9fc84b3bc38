//! Modules, cut after each of their tokens but the last.

use crate::answers::answer;
use bumpalo::Bump;
use std::alloc::{AllocError, Global};
use std::process::Abort;
use std::test::Fail;
use wat_core::wat_lexer::cut::cut;
use wat_core::{Fault, ownership, read_module};
use wat_show::Mode;

/// A module with a field of each kind, of 240 tokens.
const TEXT: &str = r#"(module $m (@name "n")
(type $t (sub final 1 (func (param $x i32) (result f64))))
(rec (type (array (mut i8))) (type (shared (struct (field (ref null $t) v128)))))
(import "m" "f" (func)) (import "m" (item "a") (item "b") (memory 1))
(func $f (export "e") (type 0) (local i32) (@metadata.code.branch_hint "\01")
  (if (i32.load offset=4 nop) (then (br_table 0 1)) (else (block $l (drop)))) call_indirect)
(table 1 funcref (ref.null func)) (table funcref (elem 0)) (memory (pagesize 1) (data "a"))
(global $g (mut i32) (i32.const 0)) (export "f" (func $f)) (start 0)
(elem (offset nop) func 1) (data (memory 0) (i32.const 0) "a" (i16 1 -1)) (tag (param i32))
(@custom "c" (before first) "x") (@producers (sdk "a" "1")) (@dylink.0 (needed "x")))"#;

/// What a text is refused with where a module is read.
fn fault_of(alloc: Global, text: &str) -> Option<Fault> {
    let arena = Bump::new(alloc);
    match read_module(alloc, text, &arena) {
        Ok(module) => {
            ownership::discard(module);
            None
        }
        Err(error) => Some(error.fault),
    }
}

#[test]
fn a_module_cut_off_is_refused(rt: HostRuntime) -> Result<(), Fail> {
    assert_eq!(rt; fault_of(rt.alloc(), TEXT), None);
    let arena = Bump::new(rt.alloc());
    let tokens = cut(rt.alloc(), TEXT, &arena)?;
    assert_eq!(rt; tokens.len(), 240);
    for next in 0..tokens.len() {
        let part = TEXT.get(..tokens.offset(next)).ok_or("no boundary")?;
        let fault = fault_of(rt.alloc(), part);
        assert!(rt; fault.is_some() && fault != Some(Fault::Memory), "{part}");
    }
    Ok(())
}

/// A module, and a letter for each of its tokens: how the program refuses the text before the
/// token.
type Row = (&'static str, &'static str);

/// The letter U means Unexpected, O for Operator and H for HintPlace, at the end of the text,
/// and L for LexAnnotation, at the first annotation.
#[rattlefmt::skip]
const ROWS: [Row; 19] = [
    ("(module)", "UUU"),
    (r#"(module (func (@metadata.code.branch_hint "\01") (br_if 0 (local.get 0))))"#, "UUUUUOLLHOUOOUOOUU"),
    (r#"(module (import "m"))"#, "UUUUUUU"),
    (r#"(module (import "m" (func)))"#, "UUUUUUUUUU"),
    (r#"(module (import "m" (item "a") (item "b") (func)))"#, "UUUUUUUUUUUUUUUUUU"),
    ("(module (data (i32.add (block nop))))", "UUUUUOUOOOUUU"),
    ("(module (data (block nop)))", "UUUUUOUUUU"),
    ("(module (data (i32 1)))", "UUUUUOUUUU"),
    (r#"(module (data "ab" (i16 1 -1)))"#, "UUUUUUUUUUUU"),
    ("(module (elem (block (nop))))", "UUUUUOUOUUUU"),
    ("(module (table externref (elem 0)))", "UUUUUUUUUUU"),
    ("(module (type (describes 0) (descriptor 1) (struct)))", "UUUUUUUUUUUUUUUUU"),
    ("(module (global (shared funcref) (ref.null func)))", "UUUUUUUUUOUOUU"),
    ("(module (data (i32.const 0) (f32)))", "UUUUUOUUUUUUU"),
    (r#"(module (@producers (sdk "a" "1") (language "b" "2") (sdk "c" "3")))"#, "UUUULLLLLLLLLLLLLLLLU"),
    (r#"(module (@dylink.0 (export-info "f" binding-weak tls 4)))"#, "UUUULLLLLLLLU"),
    ("(module (@unknown ( ) x) (func))", "UUUULLLLUUUU"),
    (r#"(module (@custom "a" (before first) "xy" "z"))"#, "UUUULLLLLLLLU"),
    (r#"(module binary "\00asm" "\01\00\00\00")"#, "UUUUUU"),
];

/// The output of the program for a refused text.
fn refusal(alloc: Global, letter: u8, text: &str) -> Result<String, AllocError> {
    let (fault, offset) = match letter {
        b'U' => ("Unexpected", text.len()),
        b'O' => ("Operator", text.len()),
        b'H' => ("HintPlace", text.len()),
        _ => ("LexAnnotation", text.find("(@").unwrap_or(0)),
    };
    format!(in alloc; "refused {fault} at {offset}\n")
}

/// The program refuses each text before a token of the row's module, as the letter of the token
/// says. The first of these texts is empty.
fn check_row(rt: &impl Abort, alloc: Global, (text, letters): Row) -> Result<(), Fail> {
    let arena = Bump::new(alloc);
    let tokens = cut(alloc, text, &arena)?;
    assert_eq!(rt; tokens.len(), letters.len(), "tokens of {text}");
    for next in 0..tokens.len() {
        let letter = letters.as_bytes().get(next).ok_or("no letter")?;
        let part = text.get(..tokens.offset(next)).ok_or("no boundary")?;
        let (status, output) = answer(alloc, Mode::Module, part.as_bytes())?;
        let wanted = refusal(alloc, *letter, part)?;
        assert_eq!(rt; status, 1, "{part}");
        assert_eq!(rt; output.as_slice(), wanted.as_bytes(), "{part}");
    }
    Ok(())
}

#[test]
fn worked_modules_cut_off_are_refused(rt: HostRuntime) -> Result<(), Fail> {
    for row in ROWS {
        check_row(&rt, rt.alloc(), row)?;
    }
    Ok(())
}

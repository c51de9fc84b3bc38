//! What is written of a fault, of an instruction that no text is read as, and of types; and what
//! takes no bytes.

use std::alloc::AllocError;
use std::fmt::Debug;
use std::test::Fail;
use wat_core::wat_tokens::counter::Counter;
use wat_core::{
    AbstractHeapType, Error, ExportKind, F32, F64, Fault, FunctionType, FunctionTypeNoNames,
    HeapType, Id, Index, InlineExport, InlineImport, Instruction, NameAnnotation, Ordering, Peek,
    RefType, Span, Type, ValType, kw,
};

/// Adds what Debug writes of a value.
fn add_shown<T: Debug + Drop>(out: &mut String, value: T) -> Result<(), AllocError> {
    write!(out, "{value:?}\n")
}

#[test]
fn faults_and_constants_are_shown(rt: HostRuntime) -> Result<(), Fail> {
    let error = Error::at(Fault::LexChar, Span::from_offset(2));
    let mut out = format!(in rt.alloc(); "{error}\n")?;
    add_shown(&mut out, Instruction::f32_const(F32 { bits: 1 }))?;
    add_shown(&mut out, Instruction::f64_const(F64 { bits: 1 }))?;
    assert_eq!(rt; out.as_str(), "LexChar at byte 2\nf32.const\nf64.const\n");
    Ok(())
}

#[test]
fn types_have_names(rt: HostRuntime) {
    for (found, name) in [
        (Id::display(), "identifier"),
        (Index::display(), "index"),
        (u8::display(), "integer"),
        (i64::display(), "integer"),
        (<&[u8] as Peek>::display(), "string"),
        (<&str as Peek>::display(), "string"),
        (NameAnnotation::display(), "name annotation"),
        (kw::func::display(), "func"),
        (kw::table::display(), "table"),
        (kw::memory::display(), "memory"),
        (kw::global::display(), "global"),
        (kw::tag::display(), "tag"),
        (AbstractHeapType::display(), "absheaptype"),
        (HeapType::display(), "heaptype"),
        (RefType::display(), "reftype"),
        (ValType::display(), "valtype"),
        (FunctionType::display(), "function type"),
        (FunctionTypeNoNames::display(), "function type"),
        (Type::display(), "type"),
        (ExportKind::display(), "export kind"),
        (InlineExport::display(), "inline export"),
        (InlineImport::display(), "inline import"),
        (Ordering::display(), "ordering"),
    ] {
        assert_eq!(rt; found, name);
    }
}

#[test]
fn a_counter_takes_no_bytes(rt: HostRuntime) {
    assert_eq!(rt; size_of::<Counter>(), 0);
}

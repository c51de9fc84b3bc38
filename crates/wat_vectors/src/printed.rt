//! Why values that were changed by hand aren't printed, and that what is printed is read again.

use crate::refused::read;
use bumpalo::Bump;
use std::alloc::{AllocError, Global};
use std::test::Fail;
use wat_core::enclosed::Grouped;
use wat_core::wat_tokens::whole_text::read_text;
use wat_core::{
    BlockOp, BranchHint, Custom, Data, Dylink0, Error, Expression, F32, FoldedInstruction,
    FunctionType, FunctionTypeNoNames, Id, Instruction, LabelOp, MemArgOrdering, MemoryType,
    ModuleField, Ordering, Parse, Producers, RawCustomSection, ScalarOp, Span, Table, TableKind,
    Type, TypeUse, VisibleModule, read_module,
};
use wat_print::{Layout, Print, print};
use wat_print_instr::expression::{expression_read_again, print_expression};
use wat_print_instr::{Code, PrintCode};
use wat_print_module::{ModulePart, PrintPart, print_module, read_again};

/// Adds the reason why a value isn't printed, and its text.
fn add_reason<T: Print>(out: &mut String, value: &T) -> Result<(), AllocError> {
    match print(*out.allocator(), value, Layout::Line) {
        Ok(text) => write!(out, "printed: {text}\n"),
        Err(refused) => write!(out, "{refused:?}: {refused}\n"),
    }
}

/// The same of an instruction or what is in one.
fn add_code<T: PrintCode + Drop>(out: &mut String, value: T) -> Result<(), AllocError> {
    add_reason(out, &Code(&value))
}

/// The same of a field or what is in one.
fn add_part<T: PrintPart + Drop>(out: &mut String, value: T) -> Result<(), AllocError> {
    add_reason(out, &ModulePart(&value))
}

/// Adds the reasons of an identifier without a character, a page size of more bits, and a named
/// parameter where none is named.
fn add_types(out: &mut String, alloc: Global) -> Result<(), Error> {
    let arena = Bump::new(alloc);
    add_reason(out, &Id::new("", Span::from_offset(0)))?;
    let mut memory = read::<MemoryType>(alloc, "1", &arena)?;
    memory.page_size_log2 = Some(32);
    add_reason(out, &memory)?;
    let function = read::<FunctionType>(alloc, "(param $x i32)", &arena)?;
    let ty = TypeUse {
        index: None,
        inline: Some(FunctionTypeNoNames(function)),
    };
    Ok(add_reason(out, &ty)?)
}

/// Adds the reason of a type without `sub` that is below another.
fn add_parents(out: &mut String, alloc: Global) -> Result<(), Error> {
    let arena = Bump::new(alloc);
    let found = read::<Type>(alloc, "type (sub 0 (func))", &arena)?;
    let mut def = found.def;
    def.final_type = None;
    let ty = Type {
        span: found.span,
        id: found.id,
        name: found.name,
        def,
    };
    Ok(add_reason(out, &ty)?)
}

/// Adds the reasons of accesses with an alignment and an ordering that none has, a literal, a hint
/// before another instruction, and a folded instruction without any.
fn add_instructions(out: &mut String, alloc: Global) -> Result<(), Error> {
    let arena = Bump::new(alloc);
    let mut load = read::<Instruction>(alloc, "i32.load", &arena)?;
    if let Some(access) = load.memarg_mut() {
        access.align = 3;
    }
    add_code(out, load)?;
    let mut load = read::<Instruction>(alloc, "i32.load", &arena)?;
    if let Some(access) = load.memarg_mut() {
        access.ordering = Some(MemArgOrdering::Op(Ordering::SeqCst));
    }
    add_code(out, load)?;
    add_code(out, F32 { bits: 1 })?;
    let mut hinted = read::<Expression>(alloc, "nop", &arena)?;
    hinted.branch_hints.push(BranchHint {
        instr_index: 0,
        value: 0,
    })?;
    add_part(out, hinted)?;
    let folded = FoldedInstruction(read::<Expression>(alloc, "", &arena)?);
    Ok(add_code(out, folded)?)
}

/// Adds the reasons of a custom section with a field without entries, and a table whose elements
/// have no instruction at first.
fn add_fields(out: &mut String, alloc: Global) -> Result<(), Error> {
    let arena = Bump::new(alloc);
    let mut fields = Vec::new(alloc);
    fields.push(("sdk", Vec::new(alloc)))?;
    add_part(out, Producers { fields })?;
    let nothing = read::<Expression>(alloc, "", &arena)?;
    let mut table = read::<Table>(alloc, "table 1 funcref nop", &arena)?;
    if let TableKind::Normal { init_expr, .. } = &mut table.kind {
        *init_expr = Some(nothing);
    }
    Ok(add_part(out, table)?)
}

/// The expected texts of all these.
const REASONS: &str = "EmptyName: an identifier is empty
PageSize: a page size has more than 32 bits
Label: an identifier or a name isn't allowed here
Parents: a definition without `sub` has supertypes
Alignment: an alignment isn't a power of two
Ordering: an instruction can't have this memory ordering
Float: no text is read as a floating-point number
Hint: a branch hint has a wrong index, order or value
Folded: no folded instruction has these instructions
Section: no text is read as the custom section
Table: no text is read as the table
";

#[test]
fn values_without_a_text_have_a_reason(rt: HostRuntime) -> Result<(), Fail> {
    let mut out = String::new(rt.alloc());
    add_types(&mut out, rt.alloc())?;
    add_parents(&mut out, rt.alloc())?;
    add_instructions(&mut out, rt.alloc())?;
    add_fields(&mut out, rt.alloc())?;
    assert_eq!(rt; out.as_str(), REASONS);
    Ok(())
}

// A line is indented by two spaces for each block, and for 50 at most.
#[test]
fn nested_blocks_are_read_again(rt: HostRuntime) -> Result<(), Fail> {
    let arena = Bump::new(rt.alloc());
    let nowhere = Span::from_offset(0);
    let mut made = Expression::one(rt.alloc(), Instruction::Scalar(ScalarOp::nop))?;
    for _ in 0..60 {
        made.put_last(Instruction::Block(BlockOp::block, None), nowhere)?;
    }
    for _ in 0..60 {
        made.put_last(Instruction::Label(LabelOp::end, None), nowhere)?;
    }
    let text = print_expression(rt.alloc(), &made, Layout::Indented)?;
    let mut most: usize = 0;
    for line in text.lines() {
        most = most.max(line.len().saturating_sub(line.trim_start().len()));
    }
    assert_eq!(rt; most, 100);
    let again = expression_read_again(rt.alloc(), &made, Layout::Indented, &arena)?;
    assert_eq!(rt; again.instrs.len(), 121);
    Ok(())
}

#[test]
fn a_module_is_read_again(rt: HostRuntime) -> Result<(), Fail> {
    let arena = Bump::new(rt.alloc());
    let text = "(module $m (start 0)(@custom \"a\"))";
    let found = read_module(rt.alloc(), text, &arena)?;
    let again = read_again(rt.alloc(), &found, Layout::Indented, &arena)?;
    let printed = print_module(rt.alloc(), &again, Layout::Line)?;
    assert_eq!(rt; printed.as_str(), "(module $m (start 0) (@custom \"a\"))");
    let visible = print(rt.alloc(), &ModulePart(&VisibleModule(again)), Layout::Line)?;
    assert_eq!(rt; visible.as_str(), "module $m (start 0) (@custom \"a\")");
    Ok(())
}

/// What is printed of the value that a text spells in its parentheses.
fn printed_group<'a, T: Parse<'a> + PrintPart + Drop>(
    alloc: Global,
    text: &'a str,
    arena: &'a Bump,
) -> Result<String, Fail> {
    let Grouped(value) = read_text::<Grouped<T>>(alloc, text, arena, true)?;
    Ok(print(alloc, &ModulePart(&value), Layout::Line)?)
}

// What is printed in its parentheses is read in them.
#[test]
fn groups_are_read_again(rt: HostRuntime) -> Result<(), Fail> {
    let arena = Bump::new(rt.alloc());
    let alloc = rt.alloc();
    let field = printed_group::<ModuleField>(alloc, "(start 0)", &arena)?;
    assert_eq!(rt; field.as_str(), "(start 0)");
    let custom = printed_group::<Custom>(alloc, "(@custom \"a\" \"b\")", &arena)?;
    assert_eq!(rt; custom.as_str(), "(@custom \"a\" \"b\")");
    let raw = "(@custom \"a\" (after func) \"b\")";
    let section = printed_group::<RawCustomSection>(alloc, raw, &arena)?;
    assert_eq!(rt; section.as_str(), raw);
    let entries = "(@producers (sdk \"a\" \"1\"))";
    let producers = printed_group::<Producers>(alloc, entries, &arena)?;
    assert_eq!(rt; producers.as_str(), entries);
    let needed = "(@dylink.0 (needed \"a\"))";
    let dylink = printed_group::<Dylink0>(alloc, needed, &arena)?;
    assert_eq!(rt; dylink.as_str(), needed);
    let data = printed_group::<Data>(alloc, "(data \"ab\")", &arena)?;
    assert_eq!(rt; data.as_str(), "(data \"ab\")");
    Ok(())
}

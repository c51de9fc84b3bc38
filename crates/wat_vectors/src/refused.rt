//! Calls that take memory, and what they leave of the list and of the value that they are given.
//!
//! Here no allocation fails. `tests/refused_calls` runs each test with each of its allocations failing
//! in turn, and reads its output.

use bumpalo::Bump;
use std::alloc::{AllocError, Global};
use std::process::Abort;
use std::test::Fail;
use wat_core::{DataVal, Error, Imports, Index, Instruction, Parse, Parser, Span};

/// What a call leaves.
#[derive(Drop)]
struct Outcome {
    /// How many parts it gives.
    parts: Result<usize, Error>,
    /// The list that it was to grow.
    list: Vec<u8>,
    /// Whether the value is as it was.
    kept: bool,
}

/// A list of one byte, with room for one more.
fn list_of_one(alloc: Global) -> Result<Vec<u8>, AllocError> {
    let mut list = Vec::with_capacity(alloc, 2)?;
    list.push(0xaa)?;
    Ok(list)
}

/// Prints what a call left, and fails if the call did. A test that fails before the call prints
/// nothing.
fn check_outcome(
    rt: &(impl Abort + Print),
    found: Result<Outcome, Error>,
    parts: usize,
    list: &[u8],
) -> Result<(), Fail> {
    let outcome = found?;
    println!(rt; "{:?} {}", outcome.list.as_slice(), outcome.kept)?;
    assert_eq!(rt; outcome.parts?, parts);
    assert_eq!(rt; outcome.list.as_slice(), list);
    assert!(rt; outcome.kept);
    Ok(())
}

/// Reads a value of a text.
pub fn read<'a, T: Parse<'a>>(alloc: Global, text: &'a str, arena: &'a Bump) -> Result<T, Error> {
    let mut parser = Parser::new(alloc, text, arena)?;
    T::parse(&mut parser)
}

/// Writes an opcode of two bytes.
fn written(alloc: Global) -> Result<Outcome, Error> {
    let arena = Bump::new(alloc);
    let mut list = list_of_one(alloc)?;
    let instr = read::<Instruction>(alloc, "i8x16.add", &arena)?;
    let parts = match instr.write_opcode(&mut list) {
        Ok(count) => Ok(count.unwrap_or(0)),
        Err(error) => Err(error),
    };
    let kept = instr.mnemonic() == "i8x16.add";
    Ok(Outcome { parts, list, kept })
}

#[test]
fn an_opcode_is_written_whole(rt: HostRuntime) -> Result<(), Fail> {
    check_outcome(&rt, written(rt.alloc()), 2, &[0xaa, 0xfd, 0x6e])
}

/// Appends three bytes to a list.
fn pushed(alloc: Global) -> Result<Outcome, Error> {
    let arena = Bump::new(alloc);
    let mut list = list_of_one(alloc)?;
    let value = read::<DataVal>(alloc, "(i8 1 2 3)", &arena)?;
    let parts = match value.push_onto(&mut list) {
        Ok(()) => Ok(list.len().saturating_sub(1)),
        Err(error) => Err(error),
    };
    let kept = match &value {
        DataVal::Integral(bytes) => bytes.as_slice() == &[1, 2, 3][..],
        DataVal::String(_) => false,
    };
    Ok(Outcome { parts, list, kept })
}

#[test]
fn data_is_pushed_whole(rt: HostRuntime) -> Result<(), Fail> {
    check_outcome(&rt, pushed(rt.alloc()), 3, &[0xaa, 1, 2, 3])
}

/// Lists the signatures of an import of two items.
fn listed(alloc: Global) -> Result<Outcome, Error> {
    let arena = Bump::new(alloc);
    let text = "import \"m\" (item \"a\") (item \"b\") (func)";
    let imports = read::<Imports>(alloc, text, &arena)?;
    let parts = match imports.item_sigs(alloc) {
        Ok(sigs) => Ok(sigs.len()),
        Err(error) => Err(error),
    };
    let kept = imports.num_items() == 2 && imports.num_sigs() == 1;
    let list = Vec::new(alloc);
    Ok(Outcome { parts, list, kept })
}

#[test]
fn signatures_are_listed_whole(rt: HostRuntime) -> Result<(), Fail> {
    check_outcome(&rt, listed(rt.alloc()), 2, &[])
}

/// An index, wherever it is.
pub fn number<'a>(number: u32) -> Index<'a> {
    Index::Num(number, Span::from_offset(0))
}

/// Whether an instruction is `br_table 0 1 2`.
fn is_the_table(instr: &Instruction<'_>) -> bool {
    match instr {
        Instruction::br_table(table) => {
            table.labels.as_slice() == &[number(0), number(1)][..] && table.default == number(2)
        }
        _ => false,
    }
}

/// Copies an instruction with three labels.
fn copied(alloc: Global) -> Result<Outcome, Error> {
    let arena = Bump::new(alloc);
    let instr = read::<Instruction>(alloc, "br_table 0 1 2", &arena)?;
    let parts = match instr.clone() {
        Ok(same) => Ok(if is_the_table(&same) { 3 } else { 0 }),
        Err(error) => Err(error),
    };
    let kept = is_the_table(&instr);
    let list = Vec::new(alloc);
    Ok(Outcome { parts, list, kept })
}

#[test]
fn an_instruction_is_copied_whole(rt: HostRuntime) -> Result<(), Fail> {
    check_outcome(&rt, copied(rt.alloc()), 3, &[])
}

//! Rows of instructions, and of expressions that are printed as one of them.

use crate::copies::Copier;
use crate::operand::add_operand;
use crate::printers::Printer;
use crate::readers::{Bare, Reader};
use crate::row::{Row, add, add_refusal};
use std::alloc::{AllocError, Global};
use std::fmt;
use std::mem::forget;
use wat_core::{Error, Expression, FoldedInstruction, Instruction, Op, Parse, Parser};
use wat_print::{Layout, Refused, print};
use wat_print_instr::Code;

/// An opcode that was written into an empty vector.
#[derive(Drop)]
struct Written {
    /// How many bytes the call says that it wrote.
    count: Option<usize>,
    /// The bytes.
    bytes: Vec<u8>,
}

impl fmt::Debug for Written {
    /// Writes the bytes, or a dash if there is no opcode.
    fn fmt<W: fmt::Write>(&self, f: &mut fmt::Formatter<W>) -> fmt::Result {
        match self.count {
            Some(count) if count == self.bytes.len() => {}
            Some(count) => write!(f, "? {count} bytes: ")?,
            None => write!(f, "-")?,
        }
        for byte in &self.bytes {
            write!(f, "{byte:02X}")?;
        }
        Ok(())
    }
}

/// An instruction, of which Debug writes its word, its name, its opcode and its operand.
#[derive(Drop)]
struct Whole<'a> {
    instruction: Instruction<'a>,
    opcode: Written,
}

impl fmt::Debug for Whole<'_> {
    fn fmt<W: fmt::Write>(&self, f: &mut fmt::Formatter<W>) -> fmt::Result {
        let word = &self.instruction;
        let name = self.instruction.op();
        let opcode = &self.opcode;
        write!(f, "{word:?} {name:?} {opcode:?} ")?;
        add_operand(f, &self.instruction)
    }
}

/// An instruction with its opcode.
fn with_opcode<'a>(alloc: Global, instruction: Instruction<'a>) -> Result<Whole<'a>, Error> {
    let mut bytes = Vec::new(alloc);
    match instruction.write_opcode(&mut bytes) {
        Ok(count) => Ok(Whole {
            instruction,
            opcode: Written { count, bytes },
        }),
        Err(error) => {
            forget(instruction);
            Err(error)
        }
    }
}

/// An instruction with its operand.
struct OfInstructions;

impl<'a> Reader<'a, Whole<'a>> for OfInstructions {
    fn read(row: &Row<'a>, parser: &mut Parser<'a>) -> Result<Whole<'a>, Error> {
        match Instruction::parse(parser) {
            Ok(instruction) => with_opcode(row.alloc, instruction),
            Err(error) => Err(error),
        }
    }
}

impl<'a> Printer<Whole<'a>> for OfInstructions {
    fn print(alloc: Global, value: &Whole<'a>, layout: Layout) -> Option<Result<String, Refused>> {
        Some(print(alloc, &Code(&value.instruction), layout))
    }
}

impl<'a> Copier<Whole<'a>> for OfInstructions {
    fn copy(value: &Whole<'a>) -> Option<Result<Whole<'a>, Error>> {
        let alloc = *value.opcode.bytes.allocator();
        match value.instruction.clone() {
            Ok(copy) => Some(with_opcode(alloc, copy)),
            Err(error) => Some(Err(error)),
        }
    }
}

/// Adds the opcode of an instruction without its operand.
fn add_opcode(out: &mut String, row: &Row<'_>, op: Op) -> Result<(), AllocError> {
    let mut bytes = Vec::new(row.alloc);
    match op.opcode().write(&mut bytes) {
        Ok(count) => {
            let opcode = Written { count, bytes };
            write!(out, "{opcode:?}")
        }
        Err(_) => Err(AllocError),
    }
}

/// Adds the name of an instruction without its operand, its word, and its opcode.
fn add_mnemonic<'a>(out: &mut String, row: &Row<'a>) -> Result<bool, AllocError> {
    let taken = match row.parser(row.text, false) {
        Ok(mut parser) => Op::take(&mut parser),
        Err(error) => Err(error),
    };
    match taken {
        Ok(op) => {
            let word = op.word();
            write!(out, "= {op:?} {word} ")?;
            add_opcode(out, row, op)?;
            out.push_str("\n")?;
        }
        Err(error) => add_refusal(out, error)?,
    }
    Ok(true)
}

/// Adds an expression printed as one folded instruction, or the reason why it isn't one.
fn add_regrouped<'a>(out: &mut String, row: &Row<'a>) -> Result<bool, AllocError> {
    let read = match row.parser(row.text, false) {
        Ok(mut parser) => Expression::parse(&mut parser),
        Err(error) => Err(error),
    };
    match read {
        Ok(expression) => {
            let group = FoldedInstruction(expression);
            let printed = print(row.alloc, &Code(&group), Layout::Line);
            forget(group);
            match printed {
                Ok(text) => write!(out, "> {text}\n")?,
                Err(refused) => write!(out, "! {refused:?}\n")?,
            }
        }
        Err(error) => add_refusal(out, error)?,
    }
    Ok(true)
}

/// Adds the result of a row of an instruction, of its word alone, or of an expression that is
/// printed as one folded instruction.
pub fn add_row<'a>(out: &mut String, row: &Row<'a>) -> Result<bool, AllocError> {
    match row.kind {
        "instruction" => {
            add::<Whole<'a>, OfInstructions, OfInstructions, OfInstructions>(out, row)
        }
        "mnemonic" => add_mnemonic(out, row),
        "regrouped" => add_regrouped(out, row),
        _ => Ok(false),
    }
}

//! A text, parsed by the parser and by the plain reader.

use bumpalo::Bump;
use std::alloc::Global;
use wat_expr::{BranchHint, Expression, FoldedInstruction};
use wat_instr::Instruction;
use wat_plain::{hints, read_folded, read_items, unfold, unfold_folded};
use wat_print::{Layout, print};
use wat_print_instr::Code;
use wat_tokens::{Error, Fault, Parse, Parser, Result};

/// What the parser and the plain reader return for a text.
#[derive(Clone, Copy)]
pub enum Outcome {
    /// The same instructions and the same hints.
    Accepted,
    /// An error, from both.
    Refused,
    /// Not the same.
    Different,
}

/// What a text is read as.
#[derive(Clone, Copy)]
pub enum Kind {
    /// An expression.
    Expression,
    /// One folded instruction of any kind.
    Folded,
}

/// A text, and how it is read.
#[derive(Clone, Copy)]
pub struct Text<'a> {
    /// The text.
    pub text: &'a str,
    /// What the text is read as.
    pub kind: Kind,
    /// Whether the standard annotations are known.
    pub known: bool,
    /// Where the items are kept.
    pub arena: &'a Bump,
    /// The allocator.
    pub alloc: Global,
}

/// Adds the mnemonic of an instruction, and the instruction as it is printed.
fn add_instruction(out: &mut String, instr: &Instruction<'_>) -> Result<()> {
    out.push_str(instr.mnemonic())?;
    match print(*out.allocator(), &Code(instr), Layout::Line) {
        Ok(printed) => write!(out, ": {printed}\n")?,
        Err(refused) => write!(out, " isn't printed: {refused:?}\n")?,
    }
    Ok(())
}

/// Adds the hints, each as the index of its instruction and its value.
fn add_hints(out: &mut String, hints: &[BranchHint]) -> Result<()> {
    for hint in hints {
        let (index, value) = (hint.instr_index, hint.value);
        write!(out, "hint {index} {value}\n")?;
    }
    Ok(())
}

impl<'a> Text<'a> {
    /// Returns a parser before the first token.
    fn parser(&self) -> Result<Parser<'a>> {
        let mut parser = Parser::new(self.alloc, self.text, self.arena)?;
        parser.with_standard_annotations(self.known);
        Ok(parser)
    }

    /// Returns the expression that the next tokens are.
    fn expression(&self, parser: &mut Parser<'a>) -> Result<Expression<'a>> {
        match self.kind {
            Kind::Expression => Expression::parse(parser),
            Kind::Folded => match FoldedInstruction::parse(parser) {
                Ok(folded) => Ok(folded.0),
                Err(error) => Err(error),
            },
        }
    }

    /// Returns the instructions and the hints that the parser reads from the whole text.
    fn parsed(&self) -> Result<String> {
        let mut out = String::new(self.alloc);
        let mut parser = self.parser()?;
        match self.expression(&mut parser) {
            Ok(expression) => {
                for instr in &expression.instrs {
                    add_instruction(&mut out, instr)?;
                }
                add_hints(&mut out, &expression.branch_hints)?;
            }
            Err(error) => return Err(error),
        }
        if parser.at_end() {
            return Ok(out);
        }
        Err(parser.unexpected())
    }

    /// Adds the instructions and the hints of the items that the next tokens are.
    fn add_items(&self, out: &mut String, parser: &mut Parser<'a>) -> Result<()> {
        match read_items(parser, self.arena) {
            Ok(items) => {
                for instr in unfold(self.alloc, self.arena, items)? {
                    add_instruction(out, instr)?;
                }
                add_hints(out, &hints(self.alloc, self.arena, items)?)
            }
            Err(error) => Err(error),
        }
    }

    /// Adds the instructions of the folded instruction that the next tokens are.
    fn add_folded(&self, out: &mut String, parser: &mut Parser<'a>) -> Result<()> {
        match read_folded(parser, self.arena) {
            Ok(folded) => {
                for instr in unfold_folded(self.alloc, folded)? {
                    add_instruction(out, instr)?;
                }
                Ok(())
            }
            Err(error) => Err(error),
        }
    }

    /// Returns the instructions and the hints that the plain reader reads from the whole text.
    fn read(&self) -> Result<String> {
        let mut out = String::new(self.alloc);
        let mut parser = self.parser()?;
        match self.kind {
            Kind::Expression => self.add_items(&mut out, &mut parser)?,
            Kind::Folded => self.add_folded(&mut out, &mut parser)?,
        }
        if parser.at_end() {
            return Ok(out);
        }
        Err(parser.unexpected())
    }

    /// Compares what the parser and the plain reader return. The only error is Memory.
    pub fn compared(&self) -> Result<Outcome> {
        match self.parsed() {
            Ok(parsed) => match self.read() {
                Ok(read) if parsed == read => Ok(Outcome::Accepted),
                Ok(_) => Ok(Outcome::Different),
                Err(error) => refused(error, Outcome::Different),
            },
            Err(error) => {
                let outcome = match self.read() {
                    Ok(_) => Outcome::Different,
                    Err(other) => refused(other, Outcome::Refused)?,
                };
                refused(error, outcome)
            }
        }
    }
}

/// Returns the outcome, or the error if it is Memory.
fn refused(error: Error, outcome: Outcome) -> Result<Outcome> {
    if error.fault == Fault::Memory {
        return Err(error);
    }
    Ok(outcome)
}

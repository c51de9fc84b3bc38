//! How the values of rows are printed.

use std::alloc::Global;
use wat_print::{Layout, Print, Refused, print};
use wat_print_instr::{Code, PrintCode};
use wat_print_module::{ModulePart, PrintPart};

/// How a value is printed, where it is.
pub trait Printer<T> {
    /// The text of a value.
    fn print(alloc: Global, value: &T, layout: Layout) -> Option<Result<String, Refused>>;
}

/// Not at all.
pub struct Unprinted;

impl<T> Printer<T> for Unprinted {
    fn print(_: Global, _: &T, _: Layout) -> Option<Result<String, Refused>> {
        None
    }
}

/// As a type.
pub struct OfTypes;

impl<T: Print> Printer<T> for OfTypes {
    fn print(alloc: Global, value: &T, layout: Layout) -> Option<Result<String, Refused>> {
        Some(print(alloc, value, layout))
    }
}

/// As an operand of an instruction.
pub struct OfOperands;

impl<T: PrintCode> Printer<T> for OfOperands {
    fn print(alloc: Global, value: &T, layout: Layout) -> Option<Result<String, Refused>> {
        Some(print(alloc, &Code(value), layout))
    }
}

/// As a part of a module.
pub struct OfModules;

impl<T: PrintPart> Printer<T> for OfModules {
    fn print(alloc: Global, value: &T, layout: Layout) -> Option<Result<String, Refused>> {
        Some(print(alloc, &ModulePart(value), layout))
    }
}

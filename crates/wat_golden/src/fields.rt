//! Rows of expressions, fields and modules.

use crate::copies::Uncopied;
use crate::printers::{OfModules, Printer, Unprinted};
use crate::readers::{Bare, Grouped, Reader};
use crate::row::{Row, add};
use std::alloc::{AllocError, Global};
use std::fmt;
use std::mem::forget;
use wat_core::{
    Data, DataVal, Elem, Error, Expression, FoldedInstruction, Func, Global as GlobalField,
    LocalParser, Memory, Module, ModuleField, Parse, Parser, Table, Tag, VisibleModule,
};
use wat_print::{Layout, Refused, print};
use wat_print_instr::Code;
use wat_print_module::{ModulePart, print_module};

/// A folded instruction, which Debug writes as its expression.
#[derive(Drop)]
struct Folded<'a>(FoldedInstruction<'a>);

impl fmt::Debug for Folded<'_> {
    fn fmt<W: fmt::Write>(&self, f: &mut fmt::Formatter<W>) -> fmt::Result {
        let expression = &self.0.0;
        write!(f, "{expression:?}")
    }
}

/// Locals, which Debug writes as a list.
#[derive(Drop)]
struct Locals<'a>(LocalParser<'a>);

impl fmt::Debug for Locals<'_> {
    fn fmt<W: fmt::Write>(&self, f: &mut fmt::Formatter<W>) -> fmt::Result {
        let locals = &self.0.locals;
        write!(f, "{locals:?}")
    }
}

/// The locals of one group.
struct Declared;

impl<'a> Reader<'a, Locals<'a>> for Declared {
    fn read(_: &Row<'a>, parser: &mut Parser<'a>) -> Result<Locals<'a>, Error> {
        match LocalParser::parse(parser) {
            Ok(locals) => Ok(Locals(locals)),
            Err(error) => Err(error),
        }
    }
}

impl<'a> Printer<Locals<'a>> for Declared {
    fn print(alloc: Global, value: &Locals<'a>, layout: Layout) -> Option<Result<String, Refused>> {
        Some(print(alloc, &ModulePart(&value.0), layout))
    }
}

/// A folded instruction of any kind.
struct OneGroup;

impl<'a> Reader<'a, Folded<'a>> for OneGroup {
    fn read(_: &Row<'a>, parser: &mut Parser<'a>) -> Result<Folded<'a>, Error> {
        match FoldedInstruction::parse(parser) {
            Ok(folded) => Ok(Folded(folded)),
            Err(error) => Err(error),
        }
    }
}

impl<'a> Printer<Folded<'a>> for OneGroup {
    fn print(alloc: Global, value: &Folded<'a>, layout: Layout) -> Option<Result<String, Refused>> {
        Some(print(alloc, &Code(&value.0), layout))
    }
}

/// A module in its parentheses, with no annotation known outside.
struct InGroup;

impl<'a> Reader<'a, Module<'a>> for InGroup {
    fn read(_: &Row<'a>, parser: &mut Parser<'a>) -> Result<Module<'a>, Error> {
        parser.with_standard_annotations(false);
        parser.open()?;
        let module = Module::parse(parser)?;
        parser.close()?;
        Ok(module)
    }
}

impl<'a> Printer<Module<'a>> for InGroup {
    fn print(alloc: Global, value: &Module<'a>, layout: Layout) -> Option<Result<String, Refused>> {
        match print_module(alloc, value, layout) {
            Ok(text) => Some(Ok(text)),
            Err(refused) => Some(Err(refused.reason)),
        }
    }
}

/// A module over the tokens that are visible, without its parentheses.
struct AsVisible;

impl<'a> Reader<'a, Module<'a>> for AsVisible {
    fn read(_: &Row<'a>, parser: &mut Parser<'a>) -> Result<Module<'a>, Error> {
        match VisibleModule::parse(parser) {
            Ok(visible) => Ok(visible.0),
            Err(error) => Err(error),
        }
    }
}

/// Returns the byte 0xaa and the bytes of a data value.
struct Pushed;

impl<'a> Reader<'a, Vec<u8>> for Pushed {
    fn read(row: &Row<'a>, parser: &mut Parser<'a>) -> Result<Vec<u8>, Error> {
        let mut bytes = vec![in row.alloc; 0xaa]?;
        let value = DataVal::parse(parser)?;
        let done = value.push_onto(&mut bytes);
        forget(value);
        done?;
        Ok(bytes)
    }
}

/// Adds the result of a row of a part of a field.
fn add_part<'a>(out: &mut String, row: &Row<'a>) -> Result<bool, AllocError> {
    match row.kind {
        "expression" => add::<Expression<'a>, Bare, OfModules, Uncopied>(out, row),
        "folded" => add::<Folded<'a>, OneGroup, OneGroup, Uncopied>(out, row),
        "locals" => add::<Locals<'a>, Declared, Declared, Uncopied>(out, row),
        "pushed" => add::<Vec<u8>, Pushed, Unprinted, Uncopied>(out, row),
        "data_value" => add::<DataVal<'a>, Bare, OfModules, Uncopied>(out, row),
        _ => Ok(false),
    }
}

/// Adds the result of a row of a field or a module.
pub fn add_row<'a>(out: &mut String, row: &Row<'a>) -> Result<bool, AllocError> {
    match row.kind {
        "func" => add::<Func<'a>, Bare, OfModules, Uncopied>(out, row),
        "table" => add::<Table<'a>, Bare, OfModules, Uncopied>(out, row),
        "memory" => add::<Memory<'a>, Bare, OfModules, Uncopied>(out, row),
        "global" => add::<GlobalField<'a>, Bare, OfModules, Uncopied>(out, row),
        "tag" => add::<Tag<'a>, Bare, OfModules, Uncopied>(out, row),
        "elem" => add::<Elem<'a>, Bare, OfModules, Uncopied>(out, row),
        "data" => add::<Data<'a>, Grouped, OfModules, Uncopied>(out, row),
        "field" => add::<ModuleField<'a>, Grouped, OfModules, Uncopied>(out, row),
        "module" => add::<Module<'a>, InGroup, InGroup, Uncopied>(out, row),
        "visible_module" => add::<Module<'a>, AsVisible, Unprinted, Uncopied>(out, row),
        _ => add_part(out, row),
    }
}

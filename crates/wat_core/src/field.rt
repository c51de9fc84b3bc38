//! Fields of a module.

ghost use Rattle.wat_fields.specs.Prelude.{turns_too, made, ReadsAt, owning};
ghost use Rattle.wat_core.specs.Field.{ModuleFieldModel, field_view, heapless_field, a_start, start, start_or_later_field, global_or_later_field, func_or_later_field, module_field};

use crate::field_of::read_field_as;
use wat_fields::{Data, Elem, Func, Global, Memory, Table, Tag};
use wat_links::{Custom, Export, Imports};
use wat_tokens::enclosed::after_word;
use wat_tokens::{Index, Parse, Parser, Result};
use wat_types::{Rec, Type};

/// A field of a module, generic in the type of each kind of field. See [`ModuleField`].
#[derive(Debug, Drop)]
pub enum ModuleFieldOf<
    Type,
    Rec,
    Imports,
    Func,
    Table,
    Memory,
    Global,
    Export,
    Index,
    Elem,
    Data,
    Tag,
    Custom,
> {
    /// A type.
    Type(Type),
    /// A group of types that can refer to one another.
    Rec(Rec),
    /// Imports from one module.
    Import(Imports),
    /// A function.
    Func(Func),
    /// A table.
    Table(Table),
    /// A memory.
    Memory(Memory),
    /// A global.
    Global(Global),
    /// An export.
    Export(Export),
    /// The index of the start function.
    Start(Index),
    /// An element segment.
    Elem(Elem),
    /// A data segment.
    Data(Data),
    /// A tag.
    Tag(Tag),
    /// A custom section.
    Custom(Custom),
}

/// A field of a module (WebAssembly Core Specification, Text Format, "Modules").
pub type ModuleField<'a> = ModuleFieldOf<
    Type<'a>,
    Rec<'a>,
    Imports<'a>,
    Func<'a>,
    Table<'a>,
    Memory<'a>,
    Global<'a>,
    Export<'a>,
    Index<'a>,
    Elem<'a>,
    Data<'a>,
    Tag<'a>,
    Custom<'a>,
>;

/// Parses `start` and an index.
#[tactic(auto, unfolding(crate::specs::Field::start))]
fn read_start<'a>(parser: &mut Parser<'a>) -> Result<ModuleField<'a>>
    ensures reads { ReadsAt turns_too (owning field_view heapless_field) (made a_start start) result
        parser.old parser.new }
{
    Ok(ModuleField::Start(after_word(parser, "start")?))
}

/// Parses a start function, an element segment, a data segment, or a custom section.
#[tactic(auto, unfolding(crate::specs::Field::start_or_later_field))]
fn read_start_or_later<'a>(parser: &mut Parser<'a>) -> Result<ModuleField<'a>>
    ensures reads { ReadsAt turns_too
        (owning field_view heapless_field) start_or_later_field result parser.old
        parser.new }
{
    if parser.next_is("start") {
        return read_start(parser);
    }
    if parser.next_is("elem") {
        return read_field_as::<Elem>(parser);
    }
    if parser.next_is("data") {
        return read_field_as::<Data>(parser);
    }
    read_field_as::<Custom>(parser)
}

/// Parses a global, an export, a tag, or a field of `read_start_or_later`.
#[tactic(auto, unfolding(crate::specs::Field::global_or_later_field))]
fn read_global_or_later<'a>(parser: &mut Parser<'a>) -> Result<ModuleField<'a>>
    ensures reads { ReadsAt turns_too
        (owning field_view heapless_field) global_or_later_field result parser.old
        parser.new }
{
    if parser.next_is("global") {
        return read_field_as::<Global>(parser);
    }
    if parser.next_is("export") {
        return read_field_as::<Export>(parser);
    }
    if parser.next_is("tag") {
        return read_field_as::<Tag>(parser);
    }
    read_start_or_later(parser)
}

/// Parses a function, a table, a memory, or a field of `read_global_or_later`.
#[tactic(auto, unfolding(crate::specs::Field::func_or_later_field))]
fn read_func_or_later<'a>(parser: &mut Parser<'a>) -> Result<ModuleField<'a>>
    ensures reads { ReadsAt turns_too
        (owning field_view heapless_field) func_or_later_field result parser.old
        parser.new }
{
    if parser.next_is("func") {
        return read_field_as::<Func>(parser);
    }
    if parser.next_is("table") {
        return read_field_as::<Table>(parser);
    }
    if parser.next_is("memory") {
        return read_field_as::<Memory>(parser);
    }
    read_global_or_later(parser)
}

/// Parses the field that the next keyword names. At an annotation `custom`, `producers` or
/// `dylink.0` it parses a custom section. Any other token is the error Unexpected.
impl<'a> Parse<'a> for ModuleField<'a> {
    ghost View = { ModuleFieldModel };

    ghost view = { owning field_view heapless_field };

    ghost cost = { turns_too };

    ghost grammar = { module_field };

    #[tactic(auto, unfolding(crate::specs::Field::module_field))]
    fn parse(parser: &mut Parser<'a>) -> Result<Self> {
        if parser.next_is("type") {
            return read_field_as::<Type>(parser);
        }
        if parser.next_is("rec") {
            return read_field_as::<Rec>(parser);
        }
        if parser.next_is("import") {
            return read_field_as::<Imports>(parser);
        }
        read_func_or_later(parser)
    }
}

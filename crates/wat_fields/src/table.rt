//! Tables.

ghost use Rattle.std.specs.Prelude.{◌≡◌, IfOk};
ghost use Rattle.wat_links.specs.Prelude.{turns_too, Reads, ReadsAt, plain, owning};
ghost use Rattle.wat_fields.specs.Table.{table_kind_view, heapless_table_kind, begins_prefix, begins_inline_elems, begins_normal, inline_table, normal_table, imported_table, table_kind, TableModel, table_view, heapless_table, table};
ghost use Rattle.wat_fields.specs.Spans.{KindSpansAre, TableSpansAre, has_items};

use crate::payload::{ElemPayload, read_listed};
use wat_expr::Expression;
use wat_links::{FieldHead, InlineExport, InlineImport};
use wat_tokens::{Fault, Id, NameAnnotation, Parse, Parser, Result, Span};
use wat_types::limits::take_is64;
use wat_types::{RefType, TableType};

/// A table of a module (WebAssembly Core Specification, Text Format, Modules, "Tables").
#[derive(Debug, Drop)]
pub struct Table<'a> {
    /// The place of the keyword `table`.
    pub span: Span,
    /// The identifier.
    pub id: Option<Id<'a>>,
    /// The name from a `(@name ..)` annotation.
    pub name: Option<NameAnnotation<'a>>,
    /// The inline exports.
    pub exports: InlineExport<'a>,
    /// The definition.
    pub kind: TableKind<'a>,
}

/// The definition of a table (WebAssembly Core Specification, Text Format, Modules, "Tables", with
/// its abbreviations).
#[derive(Debug, Drop)]
pub enum TableKind<'a> {
    /// An inline import.
    Import {
        /// The module and the name of the import.
        import: InlineImport<'a>,
        /// The type of the table.
        ty: TableType<'a>,
    },
    /// A type, with or without an initial value.
    Normal {
        /// The type of the table.
        ty: TableType<'a>,
        /// The initial value of each element, if it is written.
        init_expr: Option<Expression<'a>>,
    },
    /// The initial elements. They determine the size of the table.
    Inline {
        /// The type of an element.
        elem: RefType<'a>,
        /// Whether addresses have 64 bits.
        is64: bool,
        /// Whether the table is shared among threads.
        shared: bool,
        /// The initial elements.
        payload: ElemPayload<'a>,
    },
}

/// Parses `shared` or nothing, `i32`, `i64` or nothing, a reference type, and `( elem` items or
/// indices `)`.
#[tactic(auto, unfolding(crate::specs::Table::inline_table))]
fn read_inline<'a>(parser: &mut Parser<'a>) -> Result<TableKind<'a>>
    ensures reads { ReadsAt turns_too (owning table_kind_view heapless_table_kind) inline_table
        result
        parser.old parser.new }
    ensures spans { IfOk result (λ k. KindSpansAre parser.old.left parser.old.tracks k) }
{
    let shared = parser.flag("shared");
    let is64 = take_is64(parser)?;
    let elem = RefType::parse(parser)?;
    parser.open()?;
    parser.keyword("elem")?;
    let payload = read_listed(parser, elem)?;
    parser.close()?;
    Ok(TableKind::Inline {
        elem,
        is64,
        shared,
        payload,
    })
}

/// Parses a table type, and an expression if the group goes on.
#[tactic(auto, unfolding(crate::specs::Table::normal_table))]
fn read_normal<'a>(parser: &mut Parser<'a>) -> Result<TableKind<'a>>
    ensures reads { ReadsAt turns_too (owning table_kind_view heapless_table_kind) normal_table
        result
        parser.old parser.new }
    ensures spans { IfOk result (λ k. KindSpansAre parser.old.left parser.old.tracks k) }
{
    let ty = TableType::parse(parser)?;
    let init_expr = if parser.is_empty() {
        None
    } else {
        Some(Expression::parse(parser)?)
    };
    Ok(TableKind::Normal { ty, init_expr })
}

/// Parses an inline import and a table type.
#[tactic(auto, using(wat_links::specs::Laws::NoImport::no_import), unfolding(crate::specs::Table::imported_table))]
fn read_imported<'a>(parser: &mut Parser<'a>) -> Result<TableKind<'a>>
    ensures reads { Reads (plain table_kind_view) imported_table result parser.old parser.new }
    ensures spans { IfOk result (λ k. KindSpansAre parser.old.left parser.old.tracks k) }
{
    if !parser.peek::<InlineImport>() {
        return Err(parser.unexpected());
    }
    let import = InlineImport::parse(parser)?;
    let ty = TableType::parse(parser)?;
    Ok(TableKind::Import { import, ty })
}

/// Whether the next token is `shared`, `i32` or `i64`.
fn prefix_next(parser: &Parser<'_>) -> bool
    ensures { result ≡ begins_prefix parser.now.left }
{
    parser.next_is("shared") || parser.next_is("i32") || parser.next_is("i64")
}

/// Whether a reference type is next, or one of `shared`, `i32` and `i64` and then a reference type.
fn inline_next(parser: &Parser<'_>) -> bool
    ensures { result ≡ begins_inline_elems parser.now.left }
{
    if parser.peek::<RefType>() {
        return true;
    }
    prefix_next(parser) && parser.peek2::<RefType>()
}

/// Whether the next token is `shared`, `i32`, `i64` or an integer.
fn normal_next(parser: &Parser<'_>) -> bool
    ensures { result ≡ begins_normal parser.now.left }
{
    prefix_next(parser) || parser.peek::<u64>()
}

/// Parses the definition of a table, after its head.
#[tactic(auto, unfolding(crate::specs::Table::table_kind))]
fn read_table_kind<'a>(parser: &mut Parser<'a>) -> Result<TableKind<'a>>
    ensures reads { ReadsAt turns_too (owning table_kind_view heapless_table_kind) table_kind result
        parser.old parser.new }
    ensures spans { IfOk result (λ k. KindSpansAre parser.old.left parser.old.tracks k) }
{
    if inline_next(parser) {
        return read_inline(parser);
    }
    if normal_next(parser) {
        return read_normal(parser);
    }
    read_imported(parser)
}

/// Parses `table`, a [`FieldHead`], and then one of:
///
/// - if a reference type is next, or one of `shared`, `i32` and `i64` and then a reference type:
///   that keyword or none, the reference type, and `( elem` items or indices `)`;
/// - if one of these keywords or an integer is next: a table type, and an [`Expression`] if the
///   group goes on;
/// - otherwise `( import` string string `)` and a table type.
///
/// The errors, each at the next token: Range for a number that is too large or has a `-`; Operator
/// if an instruction's keyword is needed and another token is next; the errors of [`Expression`];
/// Memory; and Unexpected for anything else, also at the `(` of a group that isn't an import of two
/// strings.
impl<'a> Parse<'a> for Table<'a> {
    ghost View = { TableModel };

    ghost view = { owning table_view heapless_table };

    ghost cost = { turns_too };

    ghost grammar = { table };

    #[tactic(auto, unfolding(crate::specs::Table::table))]
    fn parse(parser: &mut Parser<'a>) -> Result<Self>
        ensures reads { ReadsAt turns_too (owning table_view heapless_table) table result parser.old
            parser.new }
        ensures spans { IfOk result (λ t. TableSpansAre (has_items parser.old.left)
            parser.old.tracks t.kind) }
    {
        let span = parser.keyword("table")?;
        let FieldHead { id, name, exports } = FieldHead::parse(parser)?;
        let kind = read_table_kind(parser)?;
        Ok(Table {
            span,
            id,
            name,
            exports,
            kind,
        })
    }
}

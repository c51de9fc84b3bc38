//! Exports.

ghost use Rattle.std.specs.Prelude.{◌≡◌, ℕ, [], List};
ghost use Rattle.wat_types.specs.Prelude.{Copies, in_front, plain, owning, no_items};
ghost use Rattle.wat_links.specs.Item.{SameSig};
ghost use Rattle.wat_links.specs.Export.{kind_words, export_kind, ExportModel, export_view, export_, ExportTypeModel, export_type_view, heapless_export_type, export_type, inline_export_view, begins_inline_export, inline_export, at_inline_export, at_export_kind, export_kind_word};
ghost use Rattle.wat_links.specs.InlineName.{inline_name};
ghost use Rattle.wat_links.specs.Laws.Named.{kind_is_named};

use crate::item::ItemSig;
use std::alloc::Global;
use wat_tokens::enclosed::{in_parens, in_word_group};
use wat_tokens::repeat::{Part, parts};
use wat_tokens::words::{NamedByKeyword, begins_named, take_named};
use wat_tokens::{Cursor, Index, Parse, Parser, Peek, Result, Span, kw};

/// An export of a module (WebAssembly Core Specification, Text Format, Modules, "Exports").
#[derive(Debug, Drop)]
pub struct Export<'a> {
    /// The byte offset of the keyword `export`.
    pub span: Span,
    /// The name of the export.
    pub name: &'a str,
    /// The kind of the exported item.
    pub kind: ExportKind,
    /// The index of the exported item.
    pub item: Index<'a>,
}

/// The kind of an exported item (WebAssembly Core Specification, Text Format, Modules, "Exports").
/// Each variant is named after its keyword.
#[derive(Clone, Copy, Debug, PartialEq, Eq, Hash)]
pub enum ExportKind {
    /// `func`
    Func,
    /// `table`
    Table,
    /// `memory`
    Memory,
    /// `global`
    Global,
    /// `tag`
    Tag,
}

/// The type of an export: its name, and the signature of the exported item.
#[derive(Debug, Drop)]
pub struct ExportType<'a> {
    /// The byte offset of the keyword `export`.
    pub span: Span,
    /// The name of the export.
    pub name: &'a str,
    /// The signature of the exported item.
    pub item: ItemSig<'a>,
}

/// The inline exports of an item (WebAssembly Core Specification, Text Format, Modules, "Exports",
/// Abbreviations).
#[derive(Debug, Drop)]
pub struct InlineExport<'a> {
    /// The names of the exports, in the order of the text.
    pub names: Vec<&'a str>,
}

/// The kinds by keyword.
impl NamedByKeyword for ExportKind {
    ghost words = { kind_words };

    ghost keyword = { export_kind_word };

    ghost is_named = { kind_is_named };

    fn named(word: &str) -> Option<Self> {
        match word {
            "func" => Some(ExportKind::Func),
            "table" => Some(ExportKind::Table),
            "memory" => Some(ExportKind::Memory),
            "global" => Some(ExportKind::Global),
            "tag" => Some(ExportKind::Tag),
            _ => None,
        }
    }

    fn word(self) -> &'static str {
        match self {
            ExportKind::Func => "func",
            ExportKind::Table => "table",
            ExportKind::Memory => "memory",
            ExportKind::Global => "global",
            ExportKind::Tag => "tag",
        }
    }
}

/// Reads the keyword of a kind. Returns Unexpected at any other token.
impl<'a> Parse<'a> for ExportKind {
    ghost use Rattle.wat_links.specs.declared.export.ExportKind.{ExportKind};
    ghost use Rattle.wat_links.specs.Export.{export_kind};

    ghost View = { ExportKind };

    ghost view = { plain (λ k. k) };

    ghost grammar = { export_kind };

    #[tactic(auto, unfolding(crate::specs::Export::export_kind))]
    fn parse(parser: &mut Parser<'a>) -> Result<Self> {
        take_named(parser)
    }
}

/// An [`ExportKind`] begins at one of its keywords.
impl Peek for ExportKind {
    ghost begins = { at_export_kind };

    #[tactic(auto, unfolding(crate::specs::Export::at_export_kind))]
    fn peek(cursor: Cursor<'_>) -> bool {
        begins_named::<Self>(cursor)
    }

    fn display() -> &'static str {
        "export kind"
    }
}

/// The keyword `func` as a kind.
impl From<kw::func> for ExportKind {
    ghost use Rattle.wat_links.specs.declared.export.ExportKind.TheVariants.{Func};

    ghost from_gives = { λ _ kind. kind ≡ Func };

    fn from(_: kw::func) -> ExportKind {
        ExportKind::Func
    }
}

/// The keyword `table` as a kind.
impl From<kw::table> for ExportKind {
    ghost use Rattle.wat_links.specs.declared.export.ExportKind.TheVariants.{Table};

    ghost from_gives = { λ _ kind. kind ≡ Table };

    fn from(_: kw::table) -> ExportKind {
        ExportKind::Table
    }
}

/// The keyword `memory` as a kind.
impl From<kw::memory> for ExportKind {
    ghost use Rattle.wat_links.specs.declared.export.ExportKind.TheVariants.{Memory};

    ghost from_gives = { λ _ kind. kind ≡ Memory };

    fn from(_: kw::memory) -> ExportKind {
        ExportKind::Memory
    }
}

/// The keyword `global` as a kind.
impl From<kw::global> for ExportKind {
    ghost use Rattle.wat_links.specs.declared.export.ExportKind.TheVariants.{Global};

    ghost from_gives = { λ _ kind. kind ≡ Global };

    fn from(_: kw::global) -> ExportKind {
        ExportKind::Global
    }
}

/// The keyword `tag` as a kind.
impl From<kw::tag> for ExportKind {
    ghost use Rattle.wat_links.specs.declared.export.ExportKind.TheVariants.{Tag};

    ghost from_gives = { λ _ kind. kind ≡ Tag };

    fn from(_: kw::tag) -> ExportKind {
        ExportKind::Tag
    }
}

/// Reads `export`, a name, and an [`ExportKind`] and an index in parentheses.
impl<'a> Parse<'a> for Export<'a> {
    ghost View = { ExportModel };

    ghost view = { plain export_view };

    ghost grammar = { export_ };

    #[tactic(auto, unfolding(crate::specs::Export::export_))]
    fn parse(parser: &mut Parser<'a>) -> Result<Self> {
        let span = parser.keyword("export")?;
        let name = <&str as Parse>::parse(parser)?;
        parser.open()?;
        let kind = ExportKind::parse(parser)?;
        let item = Index::parse(parser)?;
        parser.close()?;
        Ok(Export {
            span,
            name,
            kind,
            item,
        })
    }
}

impl<'a> ExportType<'a> {
    /// Returns a copy of the export type. Returns the error Memory only if the signature has an
    /// inline parameter or result.
    pub fn clone(&self) -> Result<ExportType<'a>>
        ensures copies { Copies (λ x y. (y.span ≡ x.span) × (y.name ≡ x.name) ×
            (SameSig x.item y.item)) (owning export_type_view heapless_export_type) result self.now }
    {
        Ok(ExportType {
            span: self.span,
            name: self.name,
            item: self.item.clone()?,
        })
    }
}

/// Reads `export`, a name, and an [`ItemSig`] in parentheses.
impl<'a> Parse<'a> for ExportType<'a> {
    ghost View = { ExportTypeModel };

    ghost view = { owning export_type_view heapless_export_type };

    ghost grammar = { export_type };

    #[tactic(auto, unfolding(crate::specs::Export::export_type))]
    fn parse(parser: &mut Parser<'a>) -> Result<Self> {
        let span = parser.keyword("export")?;
        let name = <&str as Parse>::parse(parser)?;
        let item = in_parens::<ItemSig>(parser)?;
        Ok(ExportType { span, name, item })
    }
}

impl<'a> InlineExport<'a> {
    /// Returns inline exports without names.
    pub fn empty(alloc: Global) -> InlineExport<'a>
        ensures { result.names.items ≡ [] }
    {
        InlineExport {
            names: Vec::new(alloc),
        }
    }
}

/// `( export name )`, as long as the next tokens are `(`, `export`, a string and `)`.
struct InlineName;

impl<'a> Part<'a, &'a str> for InlineName {
    ghost View = { List ℕ };

    ghost view = { plain (λ n. n.now) };

    ghost grammar = { inline_name };

    ghost follows = { begins_inline_export };

    fn follows(parser: &Parser<'a>) -> bool {
        parser.peek::<InlineExport>()
    }

    #[tactic(auto, unfolding(crate::specs::InlineName::inline_name))]
    fn take(parser: &mut Parser<'a>) -> Result<&'a str> {
        in_word_group(parser, "export")
    }
}

/// Reads `( export name )` as long as the next tokens are `(`, `export`, a string and `)`.
impl<'a> Parse<'a> for InlineExport<'a> {
    ghost View = { List (List ℕ) };

    ghost view = { owning inline_export_view no_items };

    ghost grammar = { inline_export };

    #[tactic(auto, using(crate::specs::Laws::Export::inline_name_consumes), unfolding(crate::specs::Export::inline_export))]
    fn parse(parser: &mut Parser<'a>) -> Result<Self> {
        let mut names = Vec::new(parser.alloc());
        parts::<_, InlineName>(parser, &mut names)?;
        Ok(InlineExport { names })
    }
}

/// An [`InlineExport`] begins at `(`, `export`, a string and `)`. An empty [`InlineExport`] takes
/// no token.
impl<'p> Peek for InlineExport<'p> {
    ghost begins = { at_inline_export };

    fn peek(cursor: Cursor<'_>) -> bool
        ensures { result ≡ begins_inline_export (in_front cursor.entry) }
    {
        let Some(inside) = cursor.lparen() else {
            return false;
        };
        let Some((word, rest)) = inside.keyword() else {
            return false;
        };
        match rest.string() {
            Some((_, rest)) => word == "export" && rest.rparen().is_some(),
            None => false,
        }
    }

    fn display() -> &'static str {
        "inline export"
    }
}

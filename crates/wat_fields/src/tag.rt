//! Tags.

ghost use Rattle.std.specs.Prelude.{◌≡◌};
ghost use Rattle.wat_links.specs.Prelude.{owning, option_view, inline_import_view};
ghost use Rattle.wat_fields.specs.Tag.{TagModel, tag_kind_view, tag_view, heapless_tag, tag};

use wat_links::{FieldHead, InlineExport, InlineImport};
use wat_tokens::{Fault, Id, NameAnnotation, Parse, Parser, Result, Span};
use wat_types::TagType;

/// A tag of a module (WebAssembly Core Specification, Text Format, Modules, "Tags").
#[derive(Debug, Drop)]
pub struct Tag<'a> {
    /// The place of the keyword `tag`.
    pub span: Span,
    /// The identifier.
    pub id: Option<Id<'a>>,
    /// The name from a `(@name ..)` annotation.
    pub name: Option<NameAnnotation<'a>>,
    /// The inline exports.
    pub exports: InlineExport<'a>,
    /// The type of the tag.
    pub ty: TagType<'a>,
    /// The definition.
    pub kind: TagKind<'a>,
}

/// The definition of a tag: an import, or the type alone.
#[derive(Debug, Drop)]
pub enum TagKind<'a> {
    /// An inline import.
    Import(InlineImport<'a>),
    /// The type alone.
    Inline(),
}

/// The definition of a tag with or without an inline import.
fn kind_of(import: Option<InlineImport<'_>>) -> TagKind<'_>
    ensures { tag_kind_view result ≡ option_view inline_import_view import.entry }
{
    match import {
        Some(import) => TagKind::Import(import),
        None => TagKind::Inline(),
    }
}

/// Parses `tag`, a [`FieldHead`], an inline import if `(`, `import`, two strings and `)` are next,
/// and a [`TagType`].
///
/// The errors: Unexpected if the next token isn't `tag`; the errors of the parts.
impl<'a> Parse<'a> for Tag<'a> {
    ghost View = { TagModel };

    ghost view = { owning tag_view heapless_tag };

    ghost grammar = { tag };

    #[tactic(auto, unfolding(crate::specs::Tag::tag))]
    fn parse(parser: &mut Parser<'a>) -> Result<Self> {
        let span = parser.keyword("tag")?;
        let FieldHead { id, name, exports } = FieldHead::parse(parser)?;
        let import = Option::<InlineImport>::parse(parser)?;
        let ty = TagType::parse(parser)?;
        Ok(Tag {
            span,
            id,
            name,
            exports,
            ty,
            kind: kind_of(import),
        })
    }
}

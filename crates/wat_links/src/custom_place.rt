//! Places of custom sections.

ghost use Rattle.wat_types.specs.Prelude.{Reads, plain};
ghost use Rattle.wat_links.specs.CustomPlace.{anchor_words, before, after, section_word};
ghost use Rattle.wat_links.specs.Laws.Named.{section_is_named};

use wat_tokens::words::{NamedByKeyword, take_named};
use wat_tokens::{Parse, Parser, Result};

/// The place of a custom section among the sections of a binary module (WebAssembly Core
/// Specification, Text Format, "Custom Annotation").
#[derive(Clone, Copy, Debug, PartialEq)]
pub enum CustomPlace {
    /// `before first`: before the first section.
    BeforeFirst,
    /// `before` and a known section: directly before that section.
    Before(CustomPlaceAnchor),
    /// `after` and a known section: directly after that section.
    After(CustomPlaceAnchor),
    /// `after last`: after the last section.
    AfterLast,
}

/// A known section of a binary module (WebAssembly Core Specification, Text Format, "Custom
/// Annotation"). Each variant is named after its keyword.
#[derive(Clone, Copy, Debug, PartialEq, Eq)]
pub enum CustomPlaceAnchor {
    /// `type`
    Type,
    /// `import`
    Import,
    /// `func`
    Func,
    /// `table`
    Table,
    /// `memory`
    Memory,
    /// `global`
    Global,
    /// `export`
    Export,
    /// `start`
    Start,
    /// `elem`
    Elem,
    /// `code`
    Code,
    /// `data`
    Data,
    /// `tag`
    Tag,
}

/// The sections by keyword.
impl NamedByKeyword for CustomPlaceAnchor {
    ghost words = { anchor_words };

    ghost keyword = { section_word };

    ghost is_named = { section_is_named };

    fn named(word: &str) -> Option<Self> {
        match word {
            "type" => Some(CustomPlaceAnchor::Type),
            "import" => Some(CustomPlaceAnchor::Import),
            "func" => Some(CustomPlaceAnchor::Func),
            "table" => Some(CustomPlaceAnchor::Table),
            "memory" => Some(CustomPlaceAnchor::Memory),
            "global" => Some(CustomPlaceAnchor::Global),
            "export" => Some(CustomPlaceAnchor::Export),
            "start" => Some(CustomPlaceAnchor::Start),
            "elem" => Some(CustomPlaceAnchor::Elem),
            "code" => Some(CustomPlaceAnchor::Code),
            "data" => Some(CustomPlaceAnchor::Data),
            "tag" => Some(CustomPlaceAnchor::Tag),
            _ => None,
        }
    }

    fn word(self) -> &'static str {
        match self {
            CustomPlaceAnchor::Type => "type",
            CustomPlaceAnchor::Import => "import",
            CustomPlaceAnchor::Func => "func",
            CustomPlaceAnchor::Table => "table",
            CustomPlaceAnchor::Memory => "memory",
            CustomPlaceAnchor::Global => "global",
            CustomPlaceAnchor::Export => "export",
            CustomPlaceAnchor::Start => "start",
            CustomPlaceAnchor::Elem => "elem",
            CustomPlaceAnchor::Code => "code",
            CustomPlaceAnchor::Data => "data",
            CustomPlaceAnchor::Tag => "tag",
        }
    }
}

/// Reads the keyword of a section. Returns Unexpected at any other token.
impl<'a> Parse<'a> for CustomPlaceAnchor {
    ghost use Rattle.wat_links.specs.declared.custom_place.CustomPlaceAnchor.{CustomPlaceAnchor};
    ghost use Rattle.wat_links.specs.CustomPlace.{section};

    ghost View = { CustomPlaceAnchor };

    ghost view = { plain (λ a. a) };

    ghost grammar = { section };

    #[tactic(auto, unfolding(crate::specs::CustomPlace::section))]
    fn parse(parser: &mut Parser<'a>) -> Result<Self> {
        take_named(parser)
    }
}

/// Reads `before first`, or `before` and a section.
#[tactic(auto, unfolding(crate::specs::CustomPlace::before))]
fn read_before<'a>(parser: &mut Parser<'a>) -> Result<CustomPlace>
    ensures reads { Reads (plain (λ p. p)) before result parser.old parser.new }
{
    parser.keyword("before")?;
    if parser.flag("first") {
        return Ok(CustomPlace::BeforeFirst);
    }
    CustomPlaceAnchor::parse(parser).map(CustomPlace::Before)
}

/// Reads `after last`, or `after` and a section.
#[tactic(auto, unfolding(crate::specs::CustomPlace::after))]
fn read_after<'a>(parser: &mut Parser<'a>) -> Result<CustomPlace>
    ensures reads { Reads (plain (λ p. p)) after result parser.old parser.new }
{
    parser.keyword("after")?;
    if parser.flag("last") {
        return Ok(CustomPlace::AfterLast);
    }
    CustomPlaceAnchor::parse(parser).map(CustomPlace::After)
}

/// Reads `before first`, `before` and a section, `after last`, or `after` and a section. Returns
/// Unexpected at any other token.
impl<'a> Parse<'a> for CustomPlace {
    ghost use Rattle.wat_links.specs.declared.custom_place.CustomPlace.{CustomPlace};
    ghost use Rattle.wat_links.specs.CustomPlace.{custom_place};

    ghost View = { CustomPlace };

    ghost view = { plain (λ p. p) };

    ghost grammar = { custom_place };

    #[tactic(auto, unfolding(crate::specs::CustomPlace::custom_place))]
    fn parse(parser: &mut Parser<'a>) -> Result<Self> {
        if parser.next_is("before") {
            return read_before(parser);
        }
        read_after(parser)
    }
}

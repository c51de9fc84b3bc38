//! Custom sections.

ghost use Rattle.std.specs.Prelude.{◌≡◌};
ghost use Rattle.wat_tokens.specs.Views.{owning};
ghost use Rattle.wat_links.specs.Custom.{CustomModel, custom_view, heapless_custom, place_of, custom_name, begins_annotated, custom};

use crate::custom_place::CustomPlace;
use crate::dylink::Dylink0;
use crate::producers::Producers;
use crate::raw::RawCustomSection;
use wat_tokens::{Parse, Parser, Result};

/// A custom section of a module (WebAssembly Core Specification, Text Format, "Custom Annotation").
#[derive(Debug, Drop)]
pub enum Custom<'a> {
    /// A section of any name, as bytes.
    Raw(RawCustomSection<'a>),
    /// The `producers` section.
    Producers(Producers<'a>),
    /// The `dylink.0` section.
    Dylink0(Dylink0<'a>),
}

impl<'a> Custom<'a> {
    /// Returns the place of the section. A `producers` section is after the last section, and a
    /// `dylink.0` section is before the first section.
    pub fn place(&self) -> CustomPlace
        ensures { result ≡ place_of self.now }
    {
        match self {
            Custom::Raw(section) => section.place,
            Custom::Producers(_) => CustomPlace::AfterLast,
            Custom::Dylink0(_) => CustomPlace::BeforeFirst,
        }
    }

    /// Returns the name of the section.
    pub fn name(&self) -> &'a str
        ensures { result.now ≡ custom_name self.now }
    {
        match self {
            Custom::Raw(section) => section.name,
            Custom::Producers(_) => "producers",
            Custom::Dylink0(_) => "dylink.0",
        }
    }
}

/// Returns whether the next token is the annotation `name`, given without its `@`.
fn annotation_next(parser: &Parser<'_>, name: &str) -> bool
    ensures { result ≡ begins_annotated name.now parser.now.left }
{
    match parser.cursor().annotation() {
        Some((text, _)) => text == name,
        None => false,
    }
}

/// Reads the rest of an annotation after its `(`: a [`Producers`] if the next token is
/// `@producers`, a [`Dylink0`] if it is `@dylink.0`, and otherwise a [`RawCustomSection`], which
/// begins with `@custom`. The annotation has to be known to the parser.
impl<'a> Parse<'a> for Custom<'a> {
    ghost View = { CustomModel };

    ghost view = { owning custom_view heapless_custom };

    ghost grammar = { custom };

    #[tactic(auto, unfolding(crate::specs::Custom::custom))]
    fn parse(parser: &mut Parser<'a>) -> Result<Self> {
        if annotation_next(parser, "producers") {
            return Producers::parse(parser).map(Custom::Producers);
        }
        if annotation_next(parser, "dylink.0") {
            return Ok(Custom::Dylink0(Dylink0::parse(parser)?));
        }
        RawCustomSection::parse(parser).map(Custom::Raw)
    }
}

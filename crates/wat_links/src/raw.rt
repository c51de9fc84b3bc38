//! Custom sections of any name, as bytes.

ghost use Rattle.wat_types.specs.Prelude.{Reads, plain, owning};
ghost use Rattle.wat_links.specs.Raw.{RawCustomSectionModel, raw_view, heapless_raw, raw_place, raw_custom};

use crate::custom_place::CustomPlace;
use wat_tokens::enclosed::in_parens;
use wat_tokens::repeat::rest_of_group;
use wat_tokens::{Parse, Parser, Result, Span};

/// A custom section, as bytes (WebAssembly Core Specification, Text Format, "Custom Annotation").
#[derive(Debug, Drop)]
pub struct RawCustomSection<'a> {
    /// The byte offset of `@custom`.
    pub span: Span,
    /// The name of the section.
    pub name: &'a str,
    /// The place of the section; after the last section if the text has no place.
    pub place: CustomPlace,
    /// The bytes of the section: the strings of the text, in order, decoded.
    pub data: Vec<&'a [u8]>,
}

/// Reads `( place )` if the next token is `(`. Otherwise returns the place after the last section.
#[tactic(auto, unfolding(crate::specs::Raw::raw_place))]
fn read_place<'a>(parser: &mut Parser<'a>) -> Result<CustomPlace>
    ensures reads { Reads (plain (λ p. p)) raw_place result parser.old parser.new }
{
    if !parser.opens() {
        return Ok(CustomPlace::AfterLast);
    }
    in_parens(parser)
}

/// Reads `@custom`, a name, an optional [`CustomPlace`] in parentheses, and strings up to the end
/// of the group.
impl<'a> Parse<'a> for RawCustomSection<'a> {
    ghost View = { RawCustomSectionModel };

    ghost view = { owning raw_view heapless_raw };

    ghost grammar = { raw_custom };

    #[tactic(auto, unfolding(crate::specs::Raw::raw_custom, crate::specs::Raw::raw_data))]
    fn parse(parser: &mut Parser<'a>) -> Result<Self> {
        let span = parser.take_annotation("custom")?;
        let name = <&str as Parse>::parse(parser)?;
        let place = read_place(parser)?;
        let mut data = Vec::new(parser.alloc());
        rest_of_group::<&[u8]>(parser, &mut data)?;
        Ok(RawCustomSection {
            span,
            name,
            place,
            data,
        })
    }
}

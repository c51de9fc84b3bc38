//! Heads of fields: a label and inline exports.

ghost use Rattle.wat_links.specs.FieldHead.{FieldHeadModel, head_view, heapless_head, head};
ghost use Rattle.wat_tokens.specs.Views.{owning};

use crate::export::InlineExport;
use wat_tokens::{Fault, Id, NameAnnotation, Parse, Parser, Result};
use wat_types::take_label;

/// The head of a function, table, memory, global or tag field, after its keyword: a label and
/// inline exports (WebAssembly Core Specification, Text Format, Modules, "Exports", Abbreviations).
#[derive(Debug, Drop)]
pub struct FieldHead<'a> {
    /// The identifier.
    pub id: Option<Id<'a>>,
    /// The name from a name annotation.
    pub name: Option<NameAnnotation<'a>>,
    /// The inline exports.
    pub exports: InlineExport<'a>,
}

/// Reads an optional identifier, an optional name annotation, and an [`InlineExport`].
impl<'a> Parse<'a> for FieldHead<'a> {
    ghost View = { FieldHeadModel };

    ghost view = { owning head_view heapless_head };

    ghost grammar = { head };

    #[tactic(auto, unfolding(crate::specs::FieldHead::head))]
    fn parse(parser: &mut Parser<'a>) -> Result<Self> {
        let (id, name) = take_label(parser)?;
        let exports = InlineExport::parse(parser)?;
        Ok(FieldHead { id, name, exports })
    }
}

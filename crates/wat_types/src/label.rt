//! Labels: an identifier and a name annotation.

ghost use Rattle.wat_tokens.specs.Prelude.{Reads, plain};
ghost use Rattle.wat_types.specs.Label.{label, label_view};

use wat_tokens::{Id, NameAnnotation, Parse, Parser, Result};

/// Reads a label, `id? name?`: an optional identifier, and an optional name annotation.
#[tactic(auto, unfolding(crate::specs::Label::label))]
pub fn take_label<'a>(
    parser: &mut Parser<'a>,
) -> Result<(Option<Id<'a>>, Option<NameAnnotation<'a>>)>
    ensures reads { Reads (plain (λ l. label_view l.0 l.1)) label result parser.old parser.new }
{
    let id = Option::<Id>::parse(parser)?;
    let name = Option::<NameAnnotation>::parse(parser)?;
    Ok((id, name))
}

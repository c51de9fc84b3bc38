//! Locals of functions.

ghost use Rattle.std.specs.Prelude.{List};
ghost use Rattle.wat_links.specs.Prelude.{tokens_alone, after_front, Call, Reads, more, plain, owning, no_items};
ghost use Rattle.wat_tokens.specs.Many.{Extends};
ghost use Rattle.wat_fields.specs.Local.{LocalModel, local_view, locals_view, local_parser_view, plain_local, labelled_local, listed_locals, local_parser, local_group, local_follows};
ghost use Rattle.wat_fields.specs.Locals.{locals};

use wat_tokens::repeat::{Group, Part, all_groups, parts};
use wat_tokens::{Fault, Id, NameAnnotation, Parse, Parser, Result};
use wat_types::{ValType, take_label};

/// A local of a function (WebAssembly Core Specification, Text Format, Modules, "Functions").
#[derive(Clone, Debug, Drop)]
pub struct Local<'a> {
    /// The identifier.
    pub id: Option<Id<'a>>,
    /// The name from a `(@name ..)` annotation.
    pub name: Option<NameAnnotation<'a>>,
    /// The type.
    pub ty: ValType<'a>,
}

/// The locals of one group `( local .. )` (WebAssembly Core Specification, Text Format, Modules,
/// "Functions", Abbreviations).
#[derive(Drop)]
pub struct LocalParser<'a> {
    /// The locals, in order.
    pub locals: Vec<Local<'a>>,
}

/// A local without an identifier and a name. Such locals go on up to the end of the group.
struct PlainLocal;

impl<'a> Part<'a, Local<'a>> for PlainLocal {
    ghost View = { LocalModel };

    ghost view = { plain local_view };

    ghost grammar = { plain_local };

    ghost follows = { more };

    fn follows(parser: &Parser<'a>) -> bool {
        !parser.is_empty()
    }

    fn take(parser: &mut Parser<'a>) -> Result<Local<'a>> {
        let ty = ValType::parse(parser)?;
        Ok(Local {
            id: None,
            name: None,
            ty,
        })
    }
}

/// Parses a local with an identifier or a name, and appends it to the list.
#[tactic(auto, unfolding(crate::specs::Local::labelled_local))]
fn read_labelled<'a>(parser: &mut Parser<'a>, out: &mut Vec<Local<'a>>) -> Result<()>
    ensures reads { Call tokens_alone (owning (λ _. locals_view out.new.items) no_items)
        (after_front (locals_view out.old.items) (labelled_local.reads parser.old.left)) result
        parser.old parser.new }
    ensures kept { Extends out.old.items out.new.items }
{
    let (id, name) = take_label(parser)?;
    let ty = ValType::parse(parser)?;
    out.push(Local { id, name, ty })?;
    Ok(())
}

/// Parses the locals after the keyword `local`, and appends each local to the list.
#[tactic(auto, using(wat_types::specs::Laws::Value::val_type_consumes), unfolding(crate::specs::Local::listed_locals, crate::specs::Local::plain_locals))]
fn read_listed<'a>(parser: &mut Parser<'a>, out: &mut Vec<Local<'a>>) -> Result<()>
    ensures reads { Call tokens_alone (owning (λ _. locals_view out.new.items) no_items)
        (after_front (locals_view out.old.items) (listed_locals.reads parser.old.left)) result
        parser.old parser.new }
    ensures kept { Extends out.old.items out.new.items }
{
    if parser.peek::<Id>() || parser.peek::<NameAnnotation>() {
        return read_labelled(parser, out);
    }
    parts::<_, PlainLocal>(parser, out)
}

/// Parses `local`, and then one of:
///
/// - an identifier, a name annotation or both, and one value type;
/// - value types up to the end of the group.
///
/// The errors: Unexpected if the next token isn't `local`; the errors of the parts.
impl<'a> Parse<'a> for LocalParser<'a> {
    ghost View = { List LocalModel };

    ghost view = { owning local_parser_view no_items };

    ghost grammar = { local_parser };

    #[tactic(auto, unfolding(crate::specs::Local::local_parser))]
    fn parse(parser: &mut Parser<'a>) -> Result<Self> {
        parser.keyword("local")?;
        let mut found = Vec::new(parser.alloc());
        read_listed(parser, &mut found)?;
        Ok(LocalParser { locals: found })
    }
}

/// `( LocalParser )`. Such groups go on as long as the second token is `local`.
struct LocalGroup;

impl<'a> Group<'a, Local<'a>> for LocalGroup {
    ghost View = { LocalModel };

    ghost view = { plain local_view };

    ghost grammar = { local_group };

    ghost follows = { local_follows };

    fn follows(parser: &Parser<'a>) -> bool {
        parser.second_is("local")
    }

    #[tactic(auto, unfolding(crate::specs::Local::local_parser))]
    fn take(parser: &mut Parser<'a>, out: &mut Vec<Local<'a>>) -> Result<()> {
        parser.open()?;
        parser.keyword("local")?;
        read_listed(parser, out)?;
        parser.close()?;
        Ok(())
    }
}

impl<'a> Local<'a> {
    /// Parses the locals of all groups, in order. Groups go on as long as the second token is
    /// `local`, whatever the first token is. If the first token isn't `(`, the error is Unexpected,
    /// at the first token.
    #[tactic(auto, using(crate::proofs::Lists::joins), unfolding(crate::specs::Locals::locals))]
    pub(crate) fn parse_remainder(parser: &mut Parser<'a>) -> Result<Vec<Local<'a>>>
        ensures reads { Reads (owning (λ ls. locals_view ls.items) no_items) locals result
            parser.old parser.new }
    {
        all_groups::<_, LocalGroup>(parser)
    }
}

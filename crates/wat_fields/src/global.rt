//! Globals.

ghost use Rattle.std.specs.Prelude.{IfOk};
ghost use Rattle.wat_links.specs.Prelude.{turns_too, ReadsAt, owning};
ghost use Rattle.wat_fields.specs.Global.{GlobalModel, defined_global_view, heapless_defined_global, global_defined, global_view, heapless_global, global};
ghost use Rattle.wat_fields.specs.Spans.{GlobalSpansAre};

use wat_expr::Expression;
use wat_links::{FieldHead, InlineExport, InlineImport};
use wat_tokens::{Fault, Id, NameAnnotation, Parse, Parser, Result, Span};
use wat_types::GlobalType;

/// A global of a module (WebAssembly Core Specification, Text Format, Modules, "Globals").
#[derive(Debug, Drop)]
pub struct Global<'a> {
    /// The place of the keyword `global`.
    pub span: Span,
    /// The identifier.
    pub id: Option<Id<'a>>,
    /// The name from a `(@name ..)` annotation.
    pub name: Option<NameAnnotation<'a>>,
    /// The inline exports.
    pub exports: InlineExport<'a>,
    /// The type of the global.
    pub ty: GlobalType<'a>,
    /// The definition.
    pub kind: GlobalKind<'a>,
}

/// The definition of a global: an import or an initial value.
#[derive(Debug, Drop)]
pub enum GlobalKind<'a> {
    /// An inline import.
    Import(InlineImport<'a>),
    /// The instructions that compute the initial value.
    Inline(Expression<'a>),
}

/// Parses the type and the definition of a global, after the head.
#[tactic(auto, unfolding(crate::specs::Global::global_defined))]
fn read_defined<'a>(parser: &mut Parser<'a>) -> Result<(GlobalType<'a>, GlobalKind<'a>)>
    ensures reads { ReadsAt turns_too (owning defined_global_view heapless_defined_global)
        global_defined result parser.old parser.new }
    ensures spans { IfOk result (λ d. GlobalSpansAre parser.old.tracks d.1) }
{
    if parser.peek::<InlineImport>() {
        let import = InlineImport::parse(parser)?;
        let ty = GlobalType::parse(parser)?;
        return Ok((ty, GlobalKind::Import(import)));
    }
    let ty = GlobalType::parse(parser)?;
    let expression = Expression::parse(parser)?;
    Ok((ty, GlobalKind::Inline(expression)))
}

/// Parses `global`, a [`FieldHead`], and then one of:
///
/// - if `(`, `import`, two strings and `)` are next: that inline import and a global type;
/// - otherwise a global type and an [`Expression`].
///
/// The errors: Unexpected if the next token isn't `global`; the errors of the parts. After the type
/// come the errors of an [`Expression`]: an inline import there is the error Operator, at the
/// keyword `import`.
impl<'a> Parse<'a> for Global<'a> {
    ghost View = { GlobalModel };

    ghost view = { owning global_view heapless_global };

    ghost cost = { turns_too };

    ghost grammar = { global };

    #[tactic(auto, unfolding(crate::specs::Global::global))]
    fn parse(parser: &mut Parser<'a>) -> Result<Self>
        ensures reads { ReadsAt turns_too (owning global_view heapless_global) global result
            parser.old
            parser.new }
        ensures spans { IfOk result (λ g. GlobalSpansAre parser.old.tracks g.kind) }
    {
        let span = parser.keyword("global")?;
        let FieldHead { id, name, exports } = FieldHead::parse(parser)?;
        let (ty, kind) = read_defined(parser)?;
        Ok(Global {
            span,
            id,
            name,
            exports,
            ty,
            kind,
        })
    }
}

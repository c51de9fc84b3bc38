//! Functions.

ghost use Rattle.std.specs.Prelude.{IfOk};
ghost use Rattle.wat_links.specs.Prelude.{turns_too, Reads, ReadsAt, owning};
ghost use Rattle.wat_fields.specs.Func.{FuncModel, defined_func_view, heapless_defined_func, func_import, func_inline, func_defined, func_view, heapless_func, func};
ghost use Rattle.wat_fields.specs.Spans.{FuncSpansAre};

use crate::local::Local;
use wat_expr::Expression;
use wat_links::{FieldHead, InlineExport, InlineImport, take_exact_use};
use wat_tokens::{Fault, Id, NameAnnotation, Parse, Parser, Result, Span};
use wat_types::{FunctionType, TypeUse};

/// A function of a module (WebAssembly Core Specification, Text Format, Modules, "Functions").
#[derive(Debug, Drop)]
pub struct Func<'a> {
    /// The place of the keyword `func`.
    pub span: Span,
    /// The identifier.
    pub id: Option<Id<'a>>,
    /// The name from a `(@name ..)` annotation.
    pub name: Option<NameAnnotation<'a>>,
    /// The inline exports.
    pub exports: InlineExport<'a>,
    /// The definition.
    pub kind: FuncKind<'a>,
    /// The type of the function.
    pub ty: TypeUse<'a, FunctionType<'a>>,
}

/// The definition of a function: an import or a body.
#[derive(Debug, Drop)]
pub enum FuncKind<'a> {
    /// An inline import, and whether its type is exact: written `( exact .. )`, so that a function
    /// of a proper subtype doesn't match.
    Import(InlineImport<'a>, bool),
    /// A body.
    Inline {
        /// The locals, without the parameters.
        locals: Vec<Local<'a>>,
        /// The instructions.
        expression: Expression<'a>,
    },
}

/// The type and the definition of a function, which come after its head.
type Defined<'a> = (TypeUse<'a, FunctionType<'a>>, FuncKind<'a>);

/// Parses an inline import, and a type use, exact or not.
#[tactic(auto, unfolding(crate::specs::Func::func_import))]
fn read_import<'a>(parser: &mut Parser<'a>) -> Result<Defined<'a>>
    ensures reads { Reads (owning defined_func_view heapless_defined_func) func_import result
        parser.old
        parser.new }
    ensures spans { IfOk result (λ d. FuncSpansAre parser.old.tracks d.1) }
{
    let import = InlineImport::parse(parser)?;
    let (ty, is_exact) = take_exact_use(parser)?;
    Ok((ty, FuncKind::Import(import, is_exact)))
}

/// Parses a type use, locals and a body.
#[tactic(auto, unfolding(crate::specs::Func::func_inline))]
fn read_inline<'a>(parser: &mut Parser<'a>) -> Result<Defined<'a>>
    ensures reads { ReadsAt turns_too (owning defined_func_view heapless_defined_func) func_inline
        result parser.old parser.new }
    ensures spans { IfOk result (λ d. FuncSpansAre parser.old.tracks d.1) }
{
    let ty = TypeUse::parse(parser)?;
    let locals = Local::parse_remainder(parser)?;
    let expression = Expression::parse(parser)?;
    Ok((ty, FuncKind::Inline { locals, expression }))
}

/// Parses the type and the definition of a function, after its head.
#[tactic(auto, unfolding(crate::specs::Func::func_defined))]
fn read_defined<'a>(parser: &mut Parser<'a>) -> Result<Defined<'a>>
    ensures reads { ReadsAt turns_too (owning defined_func_view heapless_defined_func) func_defined
        result parser.old parser.new }
    ensures spans { IfOk result (λ d. FuncSpansAre parser.old.tracks d.1) }
{
    if parser.peek::<InlineImport>() {
        read_import(parser)
    } else {
        read_inline(parser)
    }
}

/// Parses `func`, a [`FieldHead`], and then one of:
///
/// - if `(`, `import`, two strings and `)` are next: that inline import, and a type use or
///   `( exact` type use `)`;
/// - otherwise a type use, groups `( local .. )`, and an [`Expression`].
///
/// The second token decides: if it is `exact`, an exact type use is next; if it is `local`, a group
/// of locals is next. If the first token isn't `(` then, the error is Unexpected, at the first
/// token.
///
/// The errors: Unexpected if the next token isn't `func`; the errors of the parts. After the locals
/// come the errors of an [`Expression`]: a group of another kind is the error Operator, at its
/// keyword.
impl<'a> Parse<'a> for Func<'a> {
    ghost View = { FuncModel };

    ghost view = { owning func_view heapless_func };

    ghost cost = { turns_too };

    ghost grammar = { func };

    #[tactic(auto, unfolding(crate::specs::Func::func))]
    fn parse(parser: &mut Parser<'a>) -> Result<Self>
        ensures reads { ReadsAt turns_too (owning func_view heapless_func) func result parser.old
            parser.new }
        ensures spans { IfOk result (λ f. FuncSpansAre parser.old.tracks f.kind) }
    {
        let span = parser.keyword("func")?;
        let FieldHead { id, name, exports } = FieldHead::parse(parser)?;
        let (ty, kind) = read_defined(parser)?;
        Ok(Func {
            span,
            id,
            name,
            exports,
            kind,
            ty,
        })
    }
}

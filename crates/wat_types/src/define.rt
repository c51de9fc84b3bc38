//! Type definitions and recursion groups.

ghost use Rattle.std.specs.Prelude.{◌≡◌, List};
ghost use Rattle.wat_tokens.specs.Prelude.{IndexModel, index_view, index, in_front, Reads, second, plain, owning, no_items, option_view};
ghost use Rattle.wat_types.specs.Define.{InnerTypeKindModel, inner_kind_view, heapless_inner_kind, kind, linked, TypeDefModel, def_view, heapless_def, type_def, TypeModel, type_view, heapless_type, type_, begins_type, grouped_type, at_type};
ghost use Rattle.wat_types.specs.Recursion.{types, rec_view, rec};

use crate::function::FunctionType;
use crate::label::take_label;
use crate::structure::{ArrayType, StructType};
use wat_tokens::enclosed::{after_word, in_parens};
use wat_tokens::repeat::{Part, parts, while_begun};
use wat_tokens::{Cursor, Id, Index, NameAnnotation, Parse, Parser, Peek, Result, Span};

/// A continuation type: the index of its function type (WebAssembly Core Specification, Text
/// Format, Types, "Composite Types").
#[derive(Clone, Debug, Drop)]
pub struct ContType<'a>(pub Index<'a>);

/// The composite type of a type definition (WebAssembly Core Specification, Text Format, Types,
/// "Composite Types").
#[derive(Debug, Drop)]
pub enum InnerTypeKind<'a> {
    /// A function type.
    Func(FunctionType<'a>),
    /// A structure type.
    Struct(StructType<'a>),
    /// An array type.
    Array(ArrayType<'a>),
    /// A continuation type.
    Cont(ContType<'a>),
}

/// A type definition (WebAssembly Core Specification, Text Format, Types, "Recursive Types").
#[derive(Debug, Drop)]
pub struct TypeDef<'a> {
    /// The composite type.
    pub kind: InnerTypeKind<'a>,
    /// Whether the text has `shared`.
    pub shared: bool,
    /// The supertypes, in the order of the text.
    pub parents: Vec<Index<'a>>,
    /// The index in `( descriptor idx )`: the type that describes this type.
    pub descriptor: Option<Index<'a>>,
    /// The index in `( describes idx )`: the type that this type describes.
    pub describes: Option<Index<'a>>,
    /// Whether the text has `final` after `sub`; None without `sub`.
    pub final_type: Option<bool>,
}

/// A type field of a module: a label and a type definition (WebAssembly Core Specification, Text
/// Format, Types, "Recursive Types").
#[derive(Debug, Drop)]
pub struct Type<'a> {
    /// The byte offset of the keyword `type`.
    pub span: Span,
    /// The identifier.
    pub id: Option<Id<'a>>,
    /// The name from a name annotation.
    pub name: Option<NameAnnotation<'a>>,
    /// The type definition.
    pub def: TypeDef<'a>,
}

/// A recursion group (WebAssembly Core Specification, Text Format, Types, "Recursive Types").
#[derive(Debug, Drop)]
pub struct Rec<'a> {
    /// The byte offset of the keyword `rec`.
    pub span: Span,
    /// The types in the group, in the order of the text.
    pub types: Vec<Type<'a>>,
}

/// Reads an index.
impl<'a> Parse<'a> for ContType<'a> {
    ghost View = { IndexModel };

    ghost view = { plain (λ c. index_view c.0) };

    ghost grammar = { index };

    fn parse(parser: &mut Parser<'a>) -> Result<Self> {
        Index::parse(parser).map(ContType)
    }
}

/// Reads `func` and a [`FunctionType`], `struct` and a [`StructType`], `array` and an
/// [`ArrayType`], or `cont` and a [`ContType`]. Returns Unexpected, at the next token, if the token
/// is any other.
impl<'a> Parse<'a> for InnerTypeKind<'a> {
    ghost View = { InnerTypeKindModel };

    ghost view = { owning inner_kind_view heapless_inner_kind };

    ghost grammar = { kind };

    #[tactic(auto, unfolding(crate::specs::Define::kind))]
    fn parse(parser: &mut Parser<'a>) -> Result<Self> {
        if parser.next_is("func") {
            return after_word(parser, "func").map(InnerTypeKind::Func);
        }
        if parser.next_is("struct") {
            return after_word(parser, "struct").map(InnerTypeKind::Struct);
        }
        if parser.next_is("array") {
            return after_word(parser, "array").map(InnerTypeKind::Array);
        }
        after_word(parser, "cont").map(InnerTypeKind::Cont)
    }
}

/// Reads a keyword, an index and `) (`, if the keyword is next, and returns the index.
#[tactic(auto, unfolding(crate::specs::Define::linked))]
fn read_link<'a>(parser: &mut Parser<'a>, word: &str) -> Result<Option<Index<'a>>>
    ensures reads { Reads (plain (option_view index_view)) (linked word.now) result parser.old
        parser.new }
{
    if !parser.flag(word) {
        return Ok(None);
    }
    let index = Index::parse(parser)?;
    parser.close()?;
    parser.open()?;
    Ok(Some(index))
}

/// A definition with neither `sub` nor `shared`.
#[derive(Drop)]
struct Described<'a>(TypeDef<'a>);

impl<'a> Parse<'a> for Described<'a> {
    ghost use Rattle.wat_types.specs.Define.{TypeDefModel, def_view, heapless_def, described};

    ghost View = { TypeDefModel };

    ghost view = { owning (λ d. def_view d.0) heapless_def };

    ghost grammar = { described };

    #[tactic(auto, unfolding(crate::specs::Define::described))]
    fn parse(parser: &mut Parser<'a>) -> Result<Self> {
        let describes = read_link(parser, "describes")?;
        let descriptor = read_link(parser, "descriptor")?;
        let kind = InnerTypeKind::parse(parser)?;
        Ok(Described(TypeDef {
            kind,
            shared: false,
            parents: Vec::new(parser.alloc()),
            descriptor,
            describes,
            final_type: None,
        }))
    }
}

/// A definition without `sub`.
#[derive(Drop)]
struct MaybeShared<'a>(TypeDef<'a>);

impl<'a> Parse<'a> for MaybeShared<'a> {
    ghost use Rattle.wat_types.specs.Define.{TypeDefModel, def_view, heapless_def, maybe_shared};

    ghost View = { TypeDefModel };

    ghost view = { owning (λ d. def_view d.0) heapless_def };

    ghost grammar = { maybe_shared };

    #[tactic(auto, unfolding(crate::specs::Define::maybe_shared))]
    fn parse(parser: &mut Parser<'a>) -> Result<Self> {
        if !parser.flag("shared") {
            return Ok(MaybeShared(Described::parse(parser)?.0));
        }
        let mut def = in_parens::<Described>(parser)?.0;
        def.shared = true;
        Ok(MaybeShared(def))
    }
}

/// Reads `sub final? idx* (` S `)`, or S without `sub`. S is `shared (` K `)`, or K without
/// `shared`. K is (`describes` idx `) (`)?, (`descriptor` idx `) (`)?, and an [`InnerTypeKind`].
impl<'a> Parse<'a> for TypeDef<'a> {
    ghost View = { TypeDefModel };

    ghost view = { owning def_view heapless_def };

    ghost grammar = { type_def };

    #[tactic(auto, unfolding(crate::specs::Define::type_def))]
    fn parse(parser: &mut Parser<'a>) -> Result<Self> {
        if !parser.flag("sub") {
            return Ok(MaybeShared::parse(parser)?.0);
        }
        let is_final = parser.flag("final");
        let mut parents = Vec::new(parser.alloc());
        while_begun::<Index>(parser, &mut parents)?;
        let mut def = in_parens::<MaybeShared>(parser)?.0;
        def.parents = parents;
        def.final_type = Some(is_final);
        Ok(def)
    }
}

/// Reads `type`, an optional identifier, an optional name annotation, and a [`TypeDef`] in
/// parentheses.
impl<'a> Parse<'a> for Type<'a> {
    ghost View = { TypeModel };

    ghost view = { owning type_view heapless_type };

    ghost grammar = { type_ };

    #[tactic(auto, unfolding(crate::specs::Define::type_))]
    fn parse(parser: &mut Parser<'a>) -> Result<Self> {
        let span = parser.keyword("type")?;
        let (id, name) = take_label(parser)?;
        let def = in_parens::<TypeDef>(parser)?;
        Ok(Type {
            span,
            id,
            name,
            def,
        })
    }
}

/// A [`Type`] begins at the keyword `type`.
impl<'p> Peek for Type<'p> {
    ghost begins = { at_type };

    fn peek(cursor: Cursor<'_>) -> bool
        ensures { result ≡ begins_type (in_front cursor.entry) }
    {
        cursor.keyword_is("type")
    }

    fn display() -> &'static str {
        "type"
    }
}

/// `( Type )`, where the second token is `type`.
struct GroupedType;

impl<'a> Part<'a, Type<'a>> for GroupedType {
    ghost View = { TypeModel };

    ghost view = { owning type_view heapless_type };

    ghost grammar = { grouped_type };

    ghost follows = { second begins_type };

    fn follows(parser: &Parser<'a>) -> bool {
        parser.peek2::<Type>()
    }

    fn take(parser: &mut Parser<'a>) -> Result<Type<'a>> {
        in_parens::<Type>(parser)
    }
}

/// Reads `rec`, and then `( Type )` as long as the second token is `type`. Returns Unexpected, at
/// the first token, if the second token is `type` and the first isn't `(`.
impl<'a> Parse<'a> for Rec<'a> {
    ghost View = { List TypeModel };

    ghost view = { owning rec_view no_items };

    ghost grammar = { rec };

    #[tactic(auto, using(crate::specs::Laws::Define::grouped_type_consumes), unfolding(crate::specs::Recursion::rec, crate::specs::Recursion::types))]
    fn parse(parser: &mut Parser<'a>) -> Result<Self> {
        let span = parser.keyword("rec")?;
        let mut types = Vec::new(parser.alloc());
        parts::<_, GroupedType>(parser, &mut types)?;
        Ok(Rec { span, types })
    }
}

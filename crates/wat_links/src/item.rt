//! Signatures of imported and exported items.

ghost use Rattle.wat_types.specs.Prelude.{Copies, Reads, owning};
ghost use Rattle.wat_links.specs.Item.{item_kind_view, heapless_item_kind, ItemSigModel, sig_view, heapless_sig, exact_use, exact_use_view, heapless_exact_use, func_kind, global_or_tag, item_sig, SameKind, SameSig};

use wat_tokens::enclosed::in_word_group;
use wat_tokens::{Fault, Id, NameAnnotation, Parse, Parser, Result, Span};
use wat_types::{FunctionType, GlobalType, MemoryType, TableType, TagType, TypeUse, take_label};

/// The kind and the type of an imported or exported item (WebAssembly Core Specification, Text
/// Format, Types, "External Types").
#[derive(Debug, Drop)]
pub enum ItemKind<'a> {
    /// A function.
    Func(TypeUse<'a, FunctionType<'a>>),
    /// A table.
    Table(TableType<'a>),
    /// A memory.
    Memory(MemoryType),
    /// A global.
    Global(GlobalType<'a>),
    /// A tag.
    Tag(TagType<'a>),
    /// A function of exactly this type, not of a subtype: `(exact ..)`.
    FuncExact(TypeUse<'a, FunctionType<'a>>),
}

/// The signature of an imported or exported item: a label, a kind and a type (WebAssembly Core
/// Specification, Text Format, Types, "External Types").
#[derive(Debug, Drop)]
pub struct ItemSig<'a> {
    /// The byte offset of the keyword of the kind.
    pub span: Span,
    /// The identifier.
    pub id: Option<Id<'a>>,
    /// The name from a name annotation.
    pub name: Option<NameAnnotation<'a>>,
    /// The kind and the type.
    pub kind: ItemKind<'a>,
}

impl<'a> ItemKind<'a> {
    /// Returns a copy of the kind and the type. Returns the error Memory only if the type has an
    /// inline parameter or result.
    pub fn clone(&self) -> Result<ItemKind<'a>>
        ensures copies { Copies SameKind (owning item_kind_view heapless_item_kind) result self.now }
    {
        match self {
            ItemKind::Func(ty) => Ok(ItemKind::Func(ty.clone()?)),
            ItemKind::Table(ty) => Ok(ItemKind::Table(*ty)),
            ItemKind::Memory(ty) => Ok(ItemKind::Memory(*ty)),
            ItemKind::Global(ty) => Ok(ItemKind::Global(*ty)),
            ItemKind::Tag(ty) => Ok(ItemKind::Tag(ty.clone()?)),
            ItemKind::FuncExact(ty) => Ok(ItemKind::FuncExact(ty.clone()?)),
        }
    }
}

impl<'a> ItemSig<'a> {
    /// Returns a copy of the signature. Returns the error Memory only if the type has an inline
    /// parameter or result.
    pub fn clone(&self) -> Result<ItemSig<'a>>
        ensures copies { Copies SameSig (owning sig_view heapless_sig) result self.now }
    {
        Ok(ItemSig {
            span: self.span,
            id: self.id,
            name: self.name,
            kind: self.kind.clone()?,
        })
    }
}

/// Reads the type of a function, and returns the type and whether it is exact. Reads a [`TypeUse`]
/// in `( exact .. )` if the second token is `exact`, and otherwise a [`TypeUse`] (WebAssembly Core
/// Specification, Text Format, Types, "External Types").
#[tactic(auto, unfolding(crate::specs::Item::exact_use))]
pub fn take_exact_use<'a>(parser: &mut Parser<'a>) -> Result<(TypeUse<'a, FunctionType<'a>>, bool)>
    ensures reads { Reads (owning exact_use_view heapless_exact_use) exact_use result parser.old
        parser.new }
{
    if !parser.second_is("exact") {
        return Ok((TypeUse::parse(parser)?, false));
    }
    Ok((in_word_group(parser, "exact")?, true))
}

/// Reads the type of a function, and returns the kind, exact or not.
#[tactic(auto, using(crate::proofs::ItemKinds::kind_not_heapless), unfolding(crate::specs::Item::func_kind))]
fn read_func_kind<'a>(parser: &mut Parser<'a>) -> Result<ItemKind<'a>>
    ensures reads { Reads (owning item_kind_view heapless_item_kind) func_kind result parser.old
        parser.new }
{
    let (ty, is_exact) = take_exact_use(parser)?;
    if is_exact {
        return Ok(ItemKind::FuncExact(ty));
    }
    Ok(ItemKind::Func(ty))
}

/// Reads `global` or `tag`, a label, and a type.
#[tactic(auto, unfolding(crate::specs::Item::global_or_tag))]
fn read_global_or_tag<'a>(parser: &mut Parser<'a>) -> Result<ItemSig<'a>>
    ensures reads { Reads (owning sig_view heapless_sig) global_or_tag result parser.old parser.new }
{
    if parser.flag("global") {
        let span = parser.prev_span();
        let (id, name) = take_label(parser)?;
        let kind = ItemKind::Global(GlobalType::parse(parser)?);
        return Ok(ItemSig {
            span,
            id,
            name,
            kind,
        });
    }
    let span = parser.keyword("tag")?;
    let (id, name) = take_label(parser)?;
    let kind = ItemKind::Tag(TagType::parse(parser)?);
    Ok(ItemSig {
        span,
        id,
        name,
        kind,
    })
}

/// Reads `func`, `table`, `memory`, `global` or `tag`, an optional identifier, an optional name
/// annotation, and the type. Returns Unexpected, at the first token, if that token is any other.
/// [`take_exact_use`] reads the type of a function.
impl<'a> Parse<'a> for ItemSig<'a> {
    ghost View = { ItemSigModel };

    ghost view = { owning sig_view heapless_sig };

    ghost grammar = { item_sig };

    #[tactic(auto, unfolding(crate::specs::Item::item_sig))]
    fn parse(parser: &mut Parser<'a>) -> Result<Self> {
        if parser.flag("func") {
            let span = parser.prev_span();
            let (id, name) = take_label(parser)?;
            let kind = read_func_kind(parser)?;
            return Ok(ItemSig {
                span,
                id,
                name,
                kind,
            });
        }
        if parser.flag("table") {
            let span = parser.prev_span();
            let (id, name) = take_label(parser)?;
            let kind = ItemKind::Table(TableType::parse(parser)?);
            return Ok(ItemSig {
                span,
                id,
                name,
                kind,
            });
        }
        if parser.flag("memory") {
            let span = parser.prev_span();
            let (id, name) = take_label(parser)?;
            let kind = ItemKind::Memory(MemoryType::parse(parser)?);
            return Ok(ItemSig {
                span,
                id,
                name,
                kind,
            });
        }
        read_global_or_tag(parser)
    }
}

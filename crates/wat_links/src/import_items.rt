//! Reading of imports, in their three forms.

ghost use Rattle.std.specs.Prelude.{◌≡◌, ℕ, true, List, IfOk};
ghost use Rattle.wat_types.specs.Prelude.{in_front, Reads, owning};
ghost use Rattle.wat_links.specs.Item.{ItemSigModel, sig_view, heapless_sig};
ghost use Rattle.wat_links.specs.Forms.{import_items, imports};
ghost use Rattle.wat_links.specs.Import.{ImportsModel, module_of, typed_view, named_view, items_view, imports_view, heapless_items, heapless_imports, item_follows, shared_sig, single_item, typed_items, named_items, opens_typed, typed};
ghost use Rattle.wat_links.specs.ImportItem.{typed_item, named_item};

use crate::import::{
    ImportGroup1Item, ImportGroup1ItemOf, ImportGroup2Item, ImportGroup2ItemOf, ImportItems,
    ImportItemsOf, Imports, ImportsOf,
};
use crate::item::ItemSig;
use wat_tokens::enclosed::in_parens;
use wat_tokens::repeat::{Part, parts};
use wat_tokens::{Cursor, Error, Fault, Parse, Parser, Result, Span};

/// `( item name ( ItemSig ) )`, where the second token is `item`.
struct TypedItem;

impl<'a> Part<'a, ImportGroup1Item<'a>> for TypedItem {
    ghost View = { List ℕ × ItemSigModel };

    ghost view = { owning typed_view (λ x. heapless_sig x.1) };

    ghost grammar = { typed_item };

    ghost follows = { item_follows };

    fn follows(parser: &Parser<'a>) -> bool {
        parser.second_is("item")
    }

    #[tactic(auto, using(crate::proofs::Ends::opens_none), unfolding(crate::specs::ImportItem::typed_item))]
    fn take(parser: &mut Parser<'a>) -> Result<ImportGroup1Item<'a>> {
        parser.open()?;
        let span = parser.keyword("item")?;
        let name = <&str as Parse>::parse(parser)?;
        if parser.is_empty() {
            parser.close()?;
            return Err(mixed(span));
        }
        let sig = in_parens::<ItemSig>(parser)?;
        parser.close()?;
        Ok(ImportGroup1ItemOf { span, name, sig })
    }
}

/// Returns the error ImportMixed, at the keyword `item`.
fn mixed(span: Span) -> Error
    ensures { result.fault ≡ Fault.ImportMixed }
{
    Error::at(Fault::ImportMixed, span)
}

/// `( item name )`, where the second token is `item`.
struct NamedItem;

impl<'a> Part<'a, ImportGroup2Item<'a>> for NamedItem {
    ghost View = { List ℕ };

    ghost view = { owning named_view (λ _. true) };

    ghost grammar = { named_item };

    ghost follows = { item_follows };

    fn follows(parser: &Parser<'a>) -> bool {
        parser.second_is("item")
    }

    #[tactic(auto, using(crate::proofs::Ends::closes_none), unfolding(crate::specs::ImportItem::named_item))]
    fn take(parser: &mut Parser<'a>) -> Result<ImportGroup2Item<'a>> {
        parser.open()?;
        let span = parser.keyword("item")?;
        let name = <&str as Parse>::parse(parser)?;
        if !parser.is_empty() {
            in_parens::<ItemSig>(parser)?;
            parser.close()?;
            return Err(mixed(span));
        }
        parser.close()?;
        Ok(ImportGroup2ItemOf { span, name })
    }
}

/// Reads `( ItemSig )` without an identifier. Returns ImportId, at the identifier, if the signature
/// has an identifier and a `)` or the end of the text follows the signature.
#[tactic(auto, using(crate::proofs::Ends::closes_none), unfolding(crate::specs::Import::shared_sig))]
fn read_shared_sig<'a>(parser: &mut Parser<'a>) -> Result<ItemSig<'a>>
    ensures reads { Reads (owning sig_view heapless_sig) shared_sig result parser.old parser.new }
{
    parser.open()?;
    let sig = ItemSig::parse(parser)?;
    if let Some(id) = sig.id {
        if parser.is_empty() {
            return Err(Error::at(Fault::ImportId, id.span()));
        }
        return Err(parser.unexpected());
    }
    parser.close()?;
    Ok(sig)
}

/// Returns whether the next tokens are `(`, `item`, a string, and a token other than `)`.
fn opens_typed(cursor: Cursor<'_>) -> bool
    ensures { result ≡ opens_typed (in_front cursor.entry) }
{
    let Some(inside) = cursor.lparen() else {
        return false;
    };
    let Some((word, rest)) = inside.keyword() else {
        return false;
    };
    match rest.string() {
        Some((_, rest)) => word == "item" && rest.any().is_some() && rest.rparen().is_none(),
        None => false,
    }
}

/// Returns whether the group or the text ends next, or the next item has more than a name.
fn typed_next(parser: &Parser<'_>) -> bool
    ensures { result ≡ typed parser.now.left }
{
    parser.is_empty() || opens_typed(parser.cursor())
}

/// Reads a single item.
#[tactic(auto, unfolding(crate::specs::Import::single_item))]
fn read_single<'a>(parser: &mut Parser<'a>, module: &'a str) -> Result<ImportItems<'a>>
    ensures reads { Reads (owning items_view heapless_items) single_item result parser.old
        parser.new }
    ensures module { IfOk result (λ i. (module_of i).now ≡ «module».now) }
{
    let name = <&str as Parse>::parse(parser)?;
    let sig = in_parens(parser)?;
    Ok(ImportItemsOf::Single { module, name, sig })
}

/// Reads items with signatures.
#[tactic(auto, using(crate::specs::Laws::Import::typed_item_consumes), unfolding(crate::specs::Import::typed_items, crate::specs::Import::typed_list))]
fn read_typed<'a>(parser: &mut Parser<'a>, module: &'a str) -> Result<ImportItems<'a>>
    ensures reads { Reads (owning items_view heapless_items) typed_items result parser.old
        parser.new }
    ensures module { IfOk result (λ i. (module_of i).now ≡ «module».now) }
{
    let mut items = Vec::new(parser.alloc());
    parts::<_, TypedItem>(parser, &mut items)?;
    Ok(ImportItemsOf::Group1 { module, items })
}

/// Reads items without signatures, and their shared signature.
#[tactic(auto, using(crate::specs::Laws::Import::named_item_consumes), unfolding(crate::specs::Import::named_items, crate::specs::Import::named_list))]
fn read_named<'a>(parser: &mut Parser<'a>, module: &'a str) -> Result<ImportItems<'a>>
    ensures reads { Reads (owning items_view heapless_items) named_items result parser.old
        parser.new }
    ensures module { IfOk result (λ i. (module_of i).now ≡ «module».now) }
{
    let mut items = Vec::new(parser.alloc());
    parts::<_, NamedItem>(parser, &mut items)?;
    let sig = read_shared_sig(parser)?;
    Ok(ImportItemsOf::Group2 { module, sig, items })
}

/// Reads the imported items, after the module name.
#[tactic(auto, unfolding(crate::specs::Forms::import_items, crate::specs::Import::import_choice))]
fn read_items<'a>(parser: &mut Parser<'a>, module: &'a str) -> Result<ImportItems<'a>>
    ensures reads { Reads (owning items_view heapless_items) import_items result parser.old
        parser.new }
    ensures module { IfOk result (λ i. (module_of i).now ≡ «module».now) }
{
    if typed_next(parser) {
        return read_typed(parser, module);
    }
    if parser.opens() {
        return read_named(parser, module);
    }
    read_single(parser, module)
}

/// Reads `import`, a module name, and one of three forms:
///
/// - if the group ends next, or the first item has more than a name: `( item name ( ItemSig ) )`,
///   as long as the second token is `item`,
/// - if any other `(` is next: `( item name )`, as long as the second token is `item`, and then `(
///   ItemSig )` without an identifier,
/// - otherwise an item name and `( ItemSig )`.
///
/// Returns ImportMixed, at the keyword `item`, for an item with a signature after a first item
/// without a signature, or the reverse. Returns ImportId, at the identifier, if a shared signature
/// has an identifier and a `)` or the end of the text follows the signature.
impl<'a> Parse<'a> for Imports<'a> {
    ghost View = { ImportsModel };

    ghost view = { owning imports_view heapless_imports };

    ghost grammar = { imports };

    #[tactic(auto, unfolding(crate::specs::Forms::imports))]
    fn parse(parser: &mut Parser<'a>) -> Result<Self> {
        let span = parser.keyword("import")?;
        let module = <&str as Parse>::parse(parser)?;
        let items = read_items(parser, module)?;
        Ok(ImportsOf { span, items })
    }
}

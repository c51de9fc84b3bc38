//! Imports, their signatures and their copies.

ghost use Rattle.std.specs.Prelude.{◌≡◌, List, map, length, replicate, slice_get, ◌<◌, IfOk, IfErr};
ghost use Rattle.wat_types.specs.Prelude.{option_map, sem, Copies, in_front, Reads, plain, owning, no_items};
ghost use Rattle.wat_links.specs.Item.{ItemSigModel, sig_view, heapless_sig};
ghost use Rattle.wat_links.specs.Forms.{import_items, imports};
ghost use Rattle.wat_links.specs.Import.{ImportsModel, module_of, typed_view, named_view, items_view, imports_view, heapless_items, heapless_imports, item_follows, shared_sig, single_item, typed_items, named_items, opens_typed, typed, item_sigs, item_count, own_sigs, SameTyped, SameAll, SameItems, inline_import_view, inline_import, begins_inline_import, at_inline_import};
ghost use Rattle.wat_links.specs.ImportItem.{typed_item, named_item};
ghost use Rattle.wat_links.specs.Lend.{typed_sig_at, sig_at, LendsTyped, LendsItems, LendsImports};

use crate::item::ItemSig;
use std::alloc::Global;
use wat_tokens::{Fault, Result, Span};

/// An import field with names of type N and signatures of type S (WebAssembly Core Specification,
/// Text Format, Modules, "Imports", with the compact forms of the proposal "Compact Import
/// Section"). See [`Imports`].
#[derive(Debug, Drop)]
pub struct ImportsOf<N, S> {
    /// The byte offset of the keyword `import`.
    pub span: Span,
    /// The module name and the imported items.
    pub items: ImportItemsOf<N, S>,
}

/// The imported items, in one of three forms. See [`ImportItems`].
#[derive(Debug, Drop)]
pub enum ImportItemsOf<N, S> {
    /// One item: `(import "m" "a" (func))`.
    Single {
        /// The module name.
        module: N,
        /// The item name.
        name: N,
        /// The signature of the item.
        sig: S,
    },
    /// Items, each with its own signature: `(import "m" (item "a" (func)) (item "b" (func)))`.
    Group1 {
        /// The module name.
        module: N,
        /// The items, in the order of the text.
        items: Vec<ImportGroup1ItemOf<N, S>>,
    },
    /// Items that share one signature: `(import "m" (item "a") (item "b") (func))`.
    Group2 {
        /// The module name.
        module: N,
        /// The signature of every item.
        sig: S,
        /// The items, in the order of the text.
        items: Vec<ImportGroup2ItemOf<N>>,
    },
}

/// An imported item with its own signature. See [`ImportGroup1Item`].
#[derive(Debug, Drop)]
pub struct ImportGroup1ItemOf<N, S> {
    /// The byte offset of the keyword `item`.
    pub span: Span,
    /// The item name.
    pub name: N,
    /// The signature of the item.
    pub sig: S,
}

/// An imported item without its own signature. See [`ImportGroup2Item`].
#[derive(Clone, Debug, Drop)]
pub struct ImportGroup2ItemOf<N> {
    /// The byte offset of the keyword `item`.
    pub span: Span,
    /// The item name.
    pub name: N,
}

/// An import field, with names as slices of the text or the arena (WebAssembly Core Specification,
/// Text Format, Modules, "Imports", with the compact forms of the proposal "Compact Import
/// Section").
pub type Imports<'a> = ImportsOf<&'a str, ItemSig<'a>>;

/// The imported items of an import field, in one of three forms.
pub type ImportItems<'a> = ImportItemsOf<&'a str, ItemSig<'a>>;

/// An imported item with its own signature: `(item "a" (func))`.
pub type ImportGroup1Item<'a> = ImportGroup1ItemOf<&'a str, ItemSig<'a>>;

/// An imported item that shares a signature with other items: `(item "a")`.
pub type ImportGroup2Item<'a> = ImportGroup2ItemOf<&'a str>;

/// Returns the signature of item number `i`, for writing.
fn typed_sig_mut<N, S>(items: &mut Vec<ImportGroup1ItemOf<N, S>>, i: usize) -> Option<&mut S>
    ensures* writes_back { sem 𝓛 (LendsTyped N.row S.row i items.entry result) }
    ensures value { typed_sig_at i items.old.items ≡ option_map (λ r. r.now) result }
{
    match items.get_mut(i) {
        Some(item) => Some(&mut item.sig),
        None => None,
    }
}

impl<N, S> ImportItemsOf<N, S> {
    /// Returns signature number `i`, for writing.
    fn sig_mut(&mut self, i: usize) -> Option<&mut S>
        ensures* writes_back { sem 𝓛 (LendsItems N.row S.row i self.entry result) }
        ensures value { sig_at i self.old ≡ option_map (λ r. r.now) result }
    {
        match self {
            ImportItemsOf::Single { sig, .. } => { if i == 0 { Some(sig) } else { None } }
            ImportItemsOf::Group1 { items, .. } => typed_sig_mut(items, i),
            ImportItemsOf::Group2 { sig, .. } => { if i == 0 { Some(sig) } else { None } }
        }
    }
}

/// Returns the signatures of the items.
fn typed_sigs<'s, N, S>(
    alloc: Global,
    items: &'s Vec<ImportGroup1ItemOf<N, S>>,
) -> Result<Vec<&'s S>>
    ensures sigs { IfOk result (λ v. map (λ r. r.now) v.items ≡ map (λ x. x.sig) items.now.items) }
    ensures memory { IfErr result (λ e. (e.fault ≡ Fault.Memory) × (0 < length items.now.items)) }
{
    let mut sigs = Vec::new(alloc);
    'items: for item in items {
        sigs.push(&item.sig)?;
    }
    Ok(sigs)
}

/// Returns a list that repeats the signature the given number of times.
#[tactic(auto, using(crate::proofs::Sigs::one_more_copy))]
fn repeated_sig<'s, S>(alloc: Global, sig: &'s S, count: usize) -> Result<Vec<&'s S>>
    ensures sigs { IfOk result (λ v. map (λ r. r.now) v.items ≡ replicate count sig.now) }
    ensures memory { IfErr result (λ e. (e.fault ≡ Fault.Memory) × (0 < count)) }
{
    let mut sigs = Vec::new(alloc);
    'copies: for _ in 0..count {
        sigs.push(sig)?;
    }
    Ok(sigs)
}

impl<N, S> ImportsOf<N, S> {
    /// Returns the import of one item.
    pub fn single(span: Span, module: N, name: N, sig: S) -> ImportsOf<N, S>
        ensures span { result.span ≡ span }
        ensures items { result.items ≡ ImportItemsOf.Single «module» name sig }
    {
        ImportsOf {
            span,
            items: ImportItemsOf::Single { module, name, sig },
        }
    }

    /// Returns the number of imported items.
    pub fn num_items(&self) -> usize
        ensures { result ≡ item_count self.now.items }
    {
        match &self.items {
            ImportItemsOf::Single { .. } => 1,
            ImportItemsOf::Group1 { items, .. } => items.len(),
            ImportItemsOf::Group2 { items, .. } => items.len(),
        }
    }

    /// Returns the number of signatures in the text: 1 if the items share a signature, otherwise
    /// the number of items.
    pub fn num_sigs(&self) -> usize
        ensures { result ≡ length (own_sigs self.now.items) }
    {
        match &self.items {
            ImportItemsOf::Group1 { items, .. } => items.len(),
            _ => 1,
        }
    }

    /// Returns the signature of each item, in order. A shared signature is repeated for each item.
    /// Returns the error Memory only if the import has an item.
    #[tactic(auto, using(crate::proofs::Sigs::one_each))]
    pub fn item_sigs(&self, alloc: Global) -> Result<Vec<&S>>
        ensures sigs { IfOk result (λ v. map (λ r. r.now) v.items ≡ item_sigs self.now.items) }
        ensures count { IfOk result (λ v. length v.items ≡ item_count self.now.items) }
        ensures memory { IfErr result (λ e. (e.fault ≡ Fault.Memory)
            × (0 < item_count self.now.items)) }
    {
        match &self.items {
            ImportItemsOf::Single { sig, .. } => repeated_sig(alloc, sig, 1),
            ImportItemsOf::Group1 { items, .. } => typed_sigs(alloc, items),
            ImportItemsOf::Group2 { sig, items, .. } => repeated_sig(alloc, sig, items.len()),
        }
    }

    /// Returns the signature number `i` in the text, counted from 0, for writing. Returns None if
    /// `i` is at least [`num_sigs`](ImportsOf::num_sigs). A write changes only that signature.
    #[tactic(auto, using(crate::proofs::Sigs::sig_is_own))]
    pub fn sig_mut(&mut self, i: usize) -> Option<&mut S>
        ensures* writes_back { sem 𝓛 (LendsImports N.row S.row i self.entry result) }
        ensures value { slice_get (own_sigs self.old.items) i ≡ option_map (λ r. r.now) result }
    {
        self.items.sig_mut(i)
    }
}

impl<'a> ImportGroup1Item<'a> {
    /// Returns a copy of the item. Returns the error Memory only if the signature has an inline
    /// parameter or result.
    pub fn clone(&self) -> Result<ImportGroup1Item<'a>>
        ensures copies { Copies SameTyped (owning typed_view (λ t. heapless_sig t.1)) result
            self.now }
    {
        Ok(ImportGroup1ItemOf {
            span: self.span,
            name: self.name,
            sig: self.sig.clone()?,
        })
    }
}

/// Returns a copy of the items. Returns the error Memory only if the list isn't empty.
#[tactic(auto, using(crate::proofs::Same::clone_steps))]
fn clone_items<'a>(items: &Vec<ImportGroup1Item<'a>>) -> Result<Vec<ImportGroup1Item<'a>>>
    ensures copies { Copies (λ x y. SameAll x.items y.items) (owning (λ v. map typed_view v.items)
        no_items) result items.now }
{
    let mut copies = Vec::new(*items.allocator());
    'items: for item in items {
        copies.push(item.clone()?)?;
    }
    Ok(copies)
}

/// Returns a copy of the items. Returns the error Memory only if the list isn't empty.
fn clone_names<'a>(items: &Vec<ImportGroup2Item<'a>>) -> Result<Vec<ImportGroup2Item<'a>>>
    ensures copies { Copies (λ x y. y.items ≡ x.items) (owning (λ v. map named_view v.items)
        no_items) result items.now }
{
    let mut copies = Vec::new(*items.allocator());
    'items: for item in items {
        copies.push(item.clone()?)?;
    }
    Ok(copies)
}

impl<'a> ImportItems<'a> {
    /// Returns a copy of the items. Returns the error Memory only if an item is in a group, or a
    /// signature has an inline parameter or result.
    pub fn clone(&self) -> Result<ImportItems<'a>>
        ensures copies { Copies SameItems (owning items_view heapless_items) result self.now }
    {
        match self {
            ImportItemsOf::Single { module, name, sig } => Ok(ImportItemsOf::Single {
                module: *module,
                name: *name,
                sig: sig.clone()?,
            }),
            ImportItemsOf::Group1 { module, items } => Ok(ImportItemsOf::Group1 {
                module: *module,
                items: clone_items(items)?,
            }),
            ImportItemsOf::Group2 { module, sig, items } => Ok(ImportItemsOf::Group2 {
                module: *module,
                sig: sig.clone()?,
                items: clone_names(items)?,
            }),
        }
    }
}

impl<'a> Imports<'a> {
    /// Returns a copy of the import. Returns the error Memory only if an item is in a group, or a
    /// signature has an inline parameter or result.
    pub fn clone(&self) -> Result<Imports<'a>>
        ensures copies { Copies (λ x y. (y.span ≡ x.span) × (SameItems x.items y.items))
            (owning imports_view heapless_imports) result self.now }
    {
        Ok(ImportsOf {
            span: self.span,
            items: self.items.clone()?,
        })
    }
}

//! Printing of imports.

ghost use Rattle.std.specs.Prelude.{◌≡◌, map, refl};
ghost use Rattle.wat_core.specs.Prelude.{imports, sig_view};
ghost use Rattle.wat_print_instr.specs.Prelude.{paren_form, printing_by, Printed};
ghost use Rattle.wat_links.specs.Import.{typed_view, named_view, items_view, ImportsModel, module_of, imports_view};
ghost use Rattle.wat_print_module.specs.Import.{typed_items_form, named_items_form, shared_form, items_form, imports_form};
ghost use Rattle.wat_print_module.specs.Laws.Import.{imports_prints};

use crate::item::write_sig_group;
use crate::traits::PrintPart;
use wat_links::{ImportGroup1Item, ImportGroup2Item, ImportItems, ImportItemsOf, Imports, ItemSig};
use wat_print::{Output, Refused};

/// Writes items with their signatures in order, each as `( item name ( ItemSig ) )`.
#[tactic(auto, using(crate::proofs::Grouped::in_a_loop))]
fn write_typed_items(out: &mut Output, items: &[ImportGroup1Item]) -> Result<(), Refused>
    ensures { Printed typed_items_form (map typed_view items.now) result out.old out.new }
{
    for item in items {
        out.open()?;
        out.word("item")?;
        out.text(item.name)?;
        write_sig_group(out, &item.sig)?;
        out.close()?;
    }
    Ok(())
}

/// Writes items that share a signature in order, each as `( item name )`.
#[tactic(auto, using(crate::proofs::Grouped::in_a_loop))]
fn write_named_items(out: &mut Output, items: &[ImportGroup2Item]) -> Result<(), Refused>
    ensures { Printed named_items_form (map named_view items.now) result out.old out.new }
{
    for item in items {
        out.open()?;
        out.word("item")?;
        out.text(item.name)?;
        out.close()?;
    }
    Ok(())
}

/// Writes the signature that items share. It fails with Label if the signature has an identifier.
fn write_shared(out: &mut Output, sig: &ItemSig) -> Result<(), Refused>
    ensures { Printed (paren_form shared_form) (sig_view sig.now) result out.old out.new }
{
    if sig.id.is_some() {
        return Err(Refused::Label);
    }
    write_sig_group(out, sig)
}

/// Writes the items of an import.
#[tactic(auto, using(wat_print::specs::Laws::Written::put_both))]
fn write_items(out: &mut Output, items: &ImportItems) -> Result<(), Refused>
    ensures { Printed items_form (items_view items.now) result out.old out.new }
{
    match items {
        ImportItemsOf::Single { name, sig, .. } => {
            out.text(name)?;
            write_sig_group(out, sig)?;
        }
        ImportItemsOf::Group1 { items, .. } => {
            write_typed_items(out, items)?;
        }
        ImportItemsOf::Group2 { sig, items, .. } => {
            write_named_items(out, items)?;
            write_shared(out, sig)?;
        }
    }
    Ok(())
}

/// The name of the module from which the items are imported.
fn module_name<'a>(items: &ImportItems<'a>) -> &'a str
    ensures { result.now ≡ (module_of items.now).now }
{
    match items {
        ImportItemsOf::Single { module, .. } => module,
        ImportItemsOf::Group1 { module, .. } => module,
        ImportItemsOf::Group2 { module, .. } => module,
    }
}

/// Writes an import, without its parentheses (Text Format, Modules, "Imports", with the compact
/// forms of the proposal "Compact Import Section"). It fails with Label if items share a signature
/// that has an identifier.
#[tactic(auto, using(wat_print::specs::Laws::Written::put_both))]
pub fn write_imports(out: &mut Output, imports: &Imports) -> Result<(), Refused>
    ensures { Printed imports_form (imports_view imports.now) result out.old out.new }
{
    out.word("import")?;
    out.text(module_name(&imports.items))?;
    write_items(out, &imports.items)
}

impl PrintPart for Imports<'_> {
    ghost View = { ImportsModel };

    ghost view = { imports_view };

    ghost grammar = { imports };

    ghost printing = { printing_by imports_form imports_prints (λ v h. h) refl refl };

    #[tactic(auto, using(wat_print::specs::Laws::Written::puts_put))]
    fn write(&self, out: &mut Output) -> Result<(), Refused> {
        write_imports(out, self)
    }
}

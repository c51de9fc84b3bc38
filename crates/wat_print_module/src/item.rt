//! Printing of the signatures of imported and exported items.

ghost use Rattle.std.specs.Prelude.{◌≡◌, refl};
ghost use Rattle.wat_print_module.specs.Prelude.{paren_form, Printed, sig_prints};
ghost use Rattle.wat_links.specs.Item.{item_sig, item_kind_view, ItemSigModel, sig_view};
ghost use Rattle.wat_types.specs.Function.{function_view};
ghost use Rattle.wat_types.specs.Use.{use_view};
ghost use Rattle.wat_print.specs.Printed.{printing_by};
ghost use Rattle.wat_print_module.specs.Item.{exact_form, item_word, item_form, sig_form};

use crate::traits::PrintPart;
use wat_links::{ItemKind, ItemSig};
use wat_print::label::write_label;
use wat_print::limits::{write_memory_type, write_table_type};
use wat_print::storage::write_global;
use wat_print::type_use::write_use;
use wat_print::{Output, Refused};
use wat_types::{FunctionType, TagType, TypeUse};

/// The word of an item's kind.
fn word_of(kind: &ItemKind) -> &'static str
    ensures { result.now ≡ item_word (item_kind_view kind.now) }
{
    match kind {
        ItemKind::Func(_) | ItemKind::FuncExact(_) => "func",
        ItemKind::Table(_) => "table",
        ItemKind::Memory(_) => "memory",
        ItemKind::Global(_) => "global",
        ItemKind::Tag(_) => "tag",
    }
}

/// Writes the type of a function, as `( exact TypeUse )` if it is exact.
#[tactic(auto, using(wat_print::specs::Laws::Written::put_both))]
pub(crate) fn write_exact_use(
    out: &mut Output,
    ty: &TypeUse<FunctionType>,
    is_exact: bool,
) -> Result<(), Refused>
    ensures { Printed exact_form (use_view function_view ty.now, is_exact) result out.old out.new }
{
    if !is_exact {
        return write_use(out, ty);
    }
    out.open()?;
    out.word("exact")?;
    write_use(out, ty)?;
    out.close()
}

/// Writes the type of an item (Text Format, Types, "External Types"), an exact function type as
/// `( exact .. )`.
fn write_kind(out: &mut Output, kind: &ItemKind) -> Result<(), Refused>
    ensures { Printed item_form (item_kind_view kind.now) result out.old out.new }
{
    match kind {
        ItemKind::Func(ty) => write_use(out, ty),
        ItemKind::Table(ty) => write_table_type(out, ty),
        ItemKind::Memory(ty) => write_memory_type(out, ty),
        ItemKind::Global(ty) => write_global(out, ty),
        ItemKind::Tag(TagType::Exception(ty)) => write_use(out, ty),
        ItemKind::FuncExact(ty) => write_exact_use(out, ty, true),
    }
}

/// Writes the signature of an imported or exported item (Text Format, Types, "External Types"): the
/// word of its kind, its identifier and name, and its type.
#[tactic(auto, using(wat_print::specs::Laws::Written::put_both))]
pub fn write_sig(out: &mut Output, sig: &ItemSig) -> Result<(), Refused>
    ensures { Printed sig_form (sig_view sig.now) result out.old out.new }
{
    out.word(word_of(&sig.kind))?;
    write_label(out, &sig.id, &sig.name)?;
    write_kind(out, &sig.kind)
}

/// Writes a signature in parentheses.
#[tactic(auto, using(wat_print::specs::Laws::Written::put_both))]
pub fn write_sig_group(out: &mut Output, sig: &ItemSig) -> Result<(), Refused>
    ensures { Printed (paren_form sig_form) (sig_view sig.now) result out.old out.new }
{
    out.open()?;
    write_sig(out, sig)?;
    out.close()
}

impl PrintPart for ItemSig<'_> {
    ghost View = { ItemSigModel };

    ghost view = { sig_view };

    ghost grammar = { item_sig };

    ghost printing = { printing_by sig_form sig_prints (λ v h. h) refl refl };

    #[tactic(auto, using(wat_print::specs::Laws::Written::puts_put))]
    fn write(&self, out: &mut Output) -> Result<(), Refused> {
        write_sig(out, self)
    }
}

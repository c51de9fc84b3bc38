//! Printing of inline exports and imports, and of the beginning of a field.

ghost use Rattle.std.specs.Prelude.{◌≡◌, ℕ, List, IfErr, refl};
ghost use Rattle.wat_core.specs.Prelude.{inline_export, FieldHeadModel, field_head, head, inline_import};
ghost use Rattle.wat_print_instr.specs.Prelude.{printing_by, Memory};
ghost use Rattle.wat_print_module.specs.Prelude.{Printed, head_form, head_prints, inline_import_prints};
ghost use Rattle.wat_links.specs.Export.{inline_export_view};
ghost use Rattle.wat_links.specs.FieldHead.{head_view};
ghost use Rattle.wat_links.specs.Import.{inline_import_view};
ghost use Rattle.wat_print_module.specs.FieldHead.{inline_export_form, inline_import_form};
ghost use Rattle.wat_print_module.specs.Laws.FieldHead.{inline_export_prints};
ghost use Rattle.wat_types.specs.Label.{label_view};

use crate::traits::PrintPart;
use wat_links::{FieldHead, InlineExport, InlineImport};
use wat_print::label::write_label;
use wat_print::{Output, Refused};
use wat_tokens::{Id, NameAnnotation};

/// Writes the inline exports of a field (Text Format, Modules, "Exports", Abbreviations):
/// `( export name )*`.
#[tactic(auto, using(crate::proofs::Grouped::in_a_loop))]
pub fn write_inline_export(out: &mut Output, exports: &InlineExport) -> Result<(), Refused>
    ensures printed { Printed inline_export_form (inline_export_view exports.now) result out.old
        out.new }
    ensures refused { IfErr result (λ e. e ≡ Memory) }
{
    for name in &exports.names {
        out.open()?;
        out.word("export")?;
        out.text(name)?;
        out.close()?;
    }
    Ok(())
}

/// Writes the inline import of a field (Text Format, Modules, "Imports", Abbreviations):
/// `( import name name )`.
#[tactic(auto, using(wat_print::specs::Laws::Written::put_both))]
pub fn write_inline_import(out: &mut Output, import: &InlineImport) -> Result<(), Refused>
    ensures printed { Printed inline_import_form (inline_import_view import.now) result out.old
        out.new }
    ensures refused { IfErr result (λ e. e ≡ Memory) }
{
    out.open()?;
    out.word("import")?;
    out.text(import.module)?;
    out.text(import.field)?;
    out.close()
}

/// Writes the part after the word of a field: its identifier and name, and its inline exports.
#[tactic(auto, using(wat_print::specs::Laws::Written::put_both))]
pub fn write_head(
    out: &mut Output,
    id: &Option<Id>,
    name: &Option<NameAnnotation>,
    exports: &InlineExport,
) -> Result<(), Refused>
    ensures { Printed head_form
        (field_head (label_view id.now name.now) (inline_export_view exports.now)) result out.old
        out.new }
{
    write_label(out, id, name)?;
    write_inline_export(out, exports)
}

impl PrintPart for InlineExport<'_> {
    ghost View = { List (List ℕ) };

    ghost view = { inline_export_view };

    ghost grammar = { inline_export };

    ghost printing = { printing_by inline_export_form inline_export_prints (λ v h. h) refl refl };

    #[tactic(auto, using(wat_print::specs::Laws::Written::puts_put))]
    fn write(&self, out: &mut Output) -> Result<(), Refused> {
        write_inline_export(out, self)
    }
}

impl PrintPart for InlineImport<'_> {
    ghost View = { List ℕ × List ℕ };

    ghost view = { inline_import_view };

    ghost grammar = { inline_import };

    ghost printing = { printing_by inline_import_form inline_import_prints (λ v h. h) refl refl };

    #[tactic(auto, using(wat_print::specs::Laws::Written::puts_put))]
    fn write(&self, out: &mut Output) -> Result<(), Refused> {
        write_inline_import(out, self)
    }
}

impl PrintPart for FieldHead<'_> {
    ghost View = { FieldHeadModel };

    ghost view = { head_view };

    ghost grammar = { head };

    ghost printing = { printing_by head_form head_prints (λ v h. h) refl refl };

    #[tactic(auto, using(wat_print::specs::Laws::Written::puts_put))]
    fn write(&self, out: &mut Output) -> Result<(), Refused> {
        write_head(out, &self.id, &self.name, &self.exports)
    }
}

//! Printing of exports and their types.

ghost use Rattle.std.specs.Prelude.{refl};
ghost use Rattle.wat_print_instr.specs.Prelude.{printing_by, Printed};
ghost use Rattle.wat_links.specs.Export.{export_kind, ExportModel, export_view, export_, ExportTypeModel, export_type, export_type_view};
ghost use Rattle.wat_print_module.specs.Export.{export_form, export_type_form, export_kind_form};
ghost use Rattle.wat_print_module.specs.Laws.Export.{export_kind_prints, export_prints, export_type_prints};

use crate::item::write_sig_group;
use crate::traits::PrintPart;
use wat_links::{Export, ExportKind, ExportType};
use wat_print::reference::write_index;
use wat_print::{Output, Refused};
use wat_tokens::words::NamedByKeyword;

/// Writes an export, without its parentheses (Text Format, Modules, "Exports").
#[tactic(auto, using(wat_print::specs::Laws::Written::put_both))]
pub fn write_export(out: &mut Output, export: &Export) -> Result<(), Refused>
    ensures { Printed export_form (export_view export.now) result out.old out.new }
{
    out.word("export")?;
    out.text(export.name)?;
    out.open()?;
    out.word(export.kind.word())?;
    write_index(out, &export.item)?;
    out.close()
}

/// Writes the type of an export: `export`, its name, and the signature in parentheses.
#[tactic(auto, using(wat_print::specs::Laws::Written::put_both))]
pub fn write_export_type(out: &mut Output, export: &ExportType) -> Result<(), Refused>
    ensures { Printed export_type_form (export_type_view export.now) result out.old
        out.new }
{
    out.word("export")?;
    out.text(export.name)?;
    write_sig_group(out, &export.item)
}

impl PrintPart for ExportKind {
    ghost use Rattle.wat_links.specs.declared.export.ExportKind.{ExportKind};

    ghost View = { ExportKind };

    ghost view = { λ k. k };

    ghost grammar = { export_kind };

    ghost printing = { printing_by export_kind_form export_kind_prints (λ v h. h) refl refl };

    #[tactic(auto, using(wat_print::specs::Laws::Written::puts_put))]
    fn write(&self, out: &mut Output) -> Result<(), Refused> {
        out.word(self.word())
    }
}

impl PrintPart for Export<'_> {
    ghost View = { ExportModel };

    ghost view = { export_view };

    ghost grammar = { export_ };

    ghost printing = { printing_by export_form export_prints (λ v h. h) refl refl };

    #[tactic(auto, using(wat_print::specs::Laws::Written::puts_put))]
    fn write(&self, out: &mut Output) -> Result<(), Refused> {
        write_export(out, self)
    }
}

impl PrintPart for ExportType<'_> {
    ghost View = { ExportTypeModel };

    ghost view = { export_type_view };

    ghost grammar = { export_type };

    ghost printing = { printing_by export_type_form export_type_prints (λ v h. h) refl refl };

    #[tactic(auto, using(wat_print::specs::Laws::Written::puts_put))]
    fn write(&self, out: &mut Output) -> Result<(), Refused> {
        write_export_type(out, self)
    }
}

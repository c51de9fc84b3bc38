//! Printing of custom sections.

ghost use Rattle.std.specs.Prelude.{refl};
ghost use Rattle.wat_core.specs.Prelude.{paren, CustomModel, custom_view, custom};
ghost use Rattle.wat_print_instr.specs.Prelude.{paren_form, printing_by, Printed};
ghost use Rattle.wat_print_module.specs.Custom.{custom_form};
ghost use Rattle.wat_print_module.specs.Laws.Custom.{custom_prints};

use crate::dylink::write_dylink;
use crate::producers::write_producers;
use crate::raw::write_raw;
use crate::traits::PrintPart;
use wat_links::Custom;
use wat_print::{Output, Refused};

/// Writes a custom section, without its parentheses (Text Format, "Custom Annotation").
pub fn write_custom(out: &mut Output, section: &Custom) -> Result<(), Refused>
    ensures { Printed custom_form (custom_view section.now) result out.old out.new }
{
    match section {
        Custom::Raw(section) => write_raw(out, section),
        Custom::Producers(section) => write_producers(out, section),
        Custom::Dylink0(section) => write_dylink(out, section),
    }
}

/// Printed with its parentheses, since an annotation follows a `(`.
impl PrintPart for Custom<'_> {
    ghost View = { CustomModel };

    ghost view = { custom_view };

    ghost grammar = { paren custom };

    ghost printing = { printing_by (paren_form custom_form) custom_prints (λ v h. h) refl refl };

    #[tactic(auto, using(crate::proofs::Grouped::on_one_line))]
    fn write(&self, out: &mut Output) -> Result<(), Refused> {
        out.open()?;
        write_custom(out, self)?;
        out.close()
    }
}

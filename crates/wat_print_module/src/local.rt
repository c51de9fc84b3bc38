//! Printing of the locals of functions.

ghost use Rattle.std.specs.Prelude.{◌≡◌, ◌||◌, List, refl};
ghost use Rattle.wat_print_instr.specs.Prelude.{none_labelled, printing_by, val_form};
ghost use Rattle.wat_print_module.specs.Prelude.{more, LocalModel, locals_view, many_form, Printed, local_label, listed_local_form, locals_form};
ghost use Rattle.wat_print.specs.Label.{at_most_one};
ghost use Rattle.wat_fields.specs.Local.{local_view, local_parser_view, local_parser};
ghost use Rattle.wat_print_module.specs.Local.{local_type, local_parser_form};
ghost use Rattle.wat_print_module.specs.Laws.Local.{local_parser_prints};

use crate::traits::PrintPart;
use wat_fields::{Local, LocalParser};
use wat_print::label::write_label;
use wat_print::reference::write_val;
use wat_print::{Output, Refused};

/// Writes a local, without its group.
#[tactic(auto, using(wat_print::specs::Laws::Written::put_both))]
fn write_listed(out: &mut Output, local: &Local) -> Result<(), Refused>
    ensures { Printed listed_local_form (local_view local.now) result out.old out.new }
{
    write_label(out, &local.id, &local.name)?;
    write_val(out, &local.ty)
}

/// Writes locals in order, without a group.
#[tactic(auto, using(crate::proofs::Grouped::in_a_loop))]
fn write_all_listed(out: &mut Output, locals: &[Local]) -> Result<(), Refused>
    ensures { Printed (many_form more listed_local_form) (locals_view locals.now) result out.old
        out.new }
{
    for local in locals {
        write_listed(out, local)?;
    }
    Ok(())
}

/// Writes the locals of a function (Text Format, Modules, "Functions"), each in a separate group.
#[tactic(auto, using(crate::proofs::Grouped::in_a_loop))]
pub fn write_locals(out: &mut Output, locals: &[Local]) -> Result<(), Refused>
    ensures { Printed locals_form (locals_view locals.now) result out.old out.new }
{
    for local in locals {
        out.open()?;
        out.word("local")?;
        write_listed(out, local)?;
        out.close()?;
    }
    Ok(())
}

/// Whether no local has an identifier or a name.
#[tactic(auto, using(std::proofs::lemmas::List::drop_more))]
fn are_unlabelled(locals: &[Local]) -> bool
    ensures { result ≡ none_labelled local_label (locals_view locals.now) }
{
    for local in locals {
        if local.id.is_some() || local.name.is_some() {
            return false;
        }
    }
    true
}

/// Whether the locals may share one group.
fn may_stand_together(locals: &[Local]) -> bool
    ensures { result ≡ at_most_one val_form local_label local_type (locals_view locals.now)
        || none_labelled local_label (locals_view locals.now) }
{
    if locals.len() < 2 {
        return true;
    }
    are_unlabelled(locals)
}

/// Printed without its parentheses (Text Format, Modules, "Functions", Abbreviations). Printing
/// fails with Label if there are several locals, and a local has an identifier or a name.
impl PrintPart for LocalParser<'_> {
    ghost View = { List LocalModel };

    ghost view = { local_parser_view };

    ghost grammar = { local_parser };

    ghost printing = { printing_by local_parser_form local_parser_prints (λ v h. h) refl refl };

    #[tactic(auto, using(crate::proofs::Grouped::on_one_line))]
    fn write(&self, out: &mut Output) -> Result<(), Refused> {
        if !may_stand_together(&self.locals) {
            return Err(Refused::Label);
        }
        out.word("local")?;
        write_all_listed(out, &self.locals)
    }
}

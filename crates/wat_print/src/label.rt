//! How labels are printed.

ghost use Rattle.std.specs.Prelude.{ℕ, List, refl};
ghost use Rattle.wat_types.specs.Prelude.{name_annotation, begins_name, label_view};
ghost use Rattle.wat_print.specs.Prelude.{name_of, identifier, begins_id, option_view, option_form, id_form, label_form, printing_by, Printed};
ghost use Rattle.wat_print.specs.Label.{name_form};
ghost use Rattle.wat_print.specs.Laws.Label.{id_prints, name_prints};

use crate::fault::Refused;
use crate::output::Output;
use crate::traits::Print;
use wat_tokens::{Id, NameAnnotation};

/// Writes an identifier, if there is one.
fn write_id(out: &mut Output, id: &Option<Id>) -> Result<(), Refused>
    ensures { Printed (option_form begins_id id_form) (option_view name_of id.now) result out.old
        out.new }
{
    match id {
        Some(id) => out.id(id.name()),
        None => Ok(()),
    }
}

/// Writes `( @name name )`.
fn write_annotation(out: &mut Output, annotation: &NameAnnotation) -> Result<(), Refused>
    ensures { Printed name_form annotation.now.name.now result out.old out.new }
{
    out.open()?;
    out.annotation("name")?;
    out.text(annotation.name)?;
    out.close()
}

/// Writes the annotation of a name, if there is one.
fn write_name(out: &mut Output, name: &Option<NameAnnotation>) -> Result<(), Refused>
    ensures { Printed (option_form begins_name name_form)
        (option_view (λ a. a.name.now) name.now) result out.old out.new }
{
    match name {
        Some(annotation) => write_annotation(out, annotation),
        None => Ok(()),
    }
}

/// Writes a label: the identifier and the name, if present.
#[tactic(auto, using(crate::specs::Laws::Written::put_both))]
pub fn write_label(
    out: &mut Output,
    id: &Option<Id>,
    name: &Option<NameAnnotation>,
) -> Result<(), Refused>
    ensures { Printed label_form (label_view id.now name.now) result out.old out.new }
{
    write_id(out, id)?;
    write_name(out, name)
}

impl Print for Id<'_> {
    ghost View = { List ℕ };

    ghost view = { name_of };

    ghost grammar = { identifier };

    ghost printing = { printing_by id_form id_prints (λ v h. h) refl refl };

    #[tactic(auto, using(crate::specs::Laws::Written::puts_put))]
    fn write(&self, out: &mut Output) -> Result<(), Refused> {
        out.id(self.name())
    }
}

impl Print for NameAnnotation<'_> {
    ghost View = { List ℕ };

    ghost view = { λ a. a.name.now };

    ghost grammar = { name_annotation };

    ghost printing = { printing_by name_form name_prints (λ v h. h) refl refl };

    #[tactic(auto, using(crate::specs::Laws::Written::puts_put))]
    fn write(&self, out: &mut Output) -> Result<(), Refused> {
        write_annotation(out, self)
    }
}

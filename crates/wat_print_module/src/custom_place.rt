//! Printing of the places of custom sections.

ghost use Rattle.std.specs.Prelude.{◌≡◌, IfErr, refl};
ghost use Rattle.wat_print_instr.specs.Prelude.{printing_by, Printed, Memory};
ghost use Rattle.wat_links.specs.CustomPlace.{section, custom_place};
ghost use Rattle.wat_print_module.specs.CustomPlace.{place_form, place_group_form, section_form};
ghost use Rattle.wat_print_module.specs.Laws.CustomPlace.{place_prints, section_prints};

use crate::traits::PrintPart;
use wat_links::{CustomPlace, CustomPlaceAnchor};
use wat_print::{Output, Refused};
use wat_tokens::words::NamedByKeyword;

/// Writes the place of a custom section, without its parentheses (Text Format, "Custom
/// Annotation").
pub fn write_place(out: &mut Output, place: CustomPlace) -> Result<(), Refused>
    ensures printed { Printed place_form place result out.old out.new }
    ensures refused { IfErr result (λ e. e ≡ Memory) }
{
    match place {
        CustomPlace::BeforeFirst => {
            out.word("before")?;
            out.word("first")
        }
        CustomPlace::Before(section) => {
            out.word("before")?;
            out.word(section.word())
        }
        CustomPlace::After(section) => {
            out.word("after")?;
            out.word(section.word())
        }
        CustomPlace::AfterLast => {
            out.word("after")?;
            out.word("last")
        }
    }
}

/// Writes the place in parentheses, or nothing if the section comes after the last section.
#[tactic(auto, using(wat_print::specs::Laws::Written::put_both))]
pub fn write_place_group(out: &mut Output, place: CustomPlace) -> Result<(), Refused>
    ensures printed { Printed place_group_form place result out.old out.new }
    ensures refused { IfErr result (λ e. e ≡ Memory) }
{
    if matches!(place, CustomPlace::AfterLast) {
        return Ok(());
    }
    out.open()?;
    write_place(out, place)?;
    out.close()
}

impl PrintPart for CustomPlaceAnchor {
    ghost use Rattle.wat_links.specs.declared.custom_place.CustomPlaceAnchor.{CustomPlaceAnchor};

    ghost View = { CustomPlaceAnchor };

    ghost view = { λ a. a };

    ghost grammar = { section };

    ghost printing = { printing_by section_form section_prints (λ v h. h) refl refl };

    #[tactic(auto, using(wat_print::specs::Laws::Written::puts_put))]
    fn write(&self, out: &mut Output) -> Result<(), Refused> {
        out.word(self.word())
    }
}

impl PrintPart for CustomPlace {
    ghost use Rattle.wat_links.specs.declared.custom_place.CustomPlace.{CustomPlace};

    ghost View = { CustomPlace };

    ghost view = { λ p. p };

    ghost grammar = { custom_place };

    ghost printing = { printing_by place_form place_prints (λ v h. h) refl refl };

    #[tactic(auto, using(wat_print::specs::Laws::Written::puts_put))]
    fn write(&self, out: &mut Output) -> Result<(), Refused> {
        write_place(out, *self)
    }
}

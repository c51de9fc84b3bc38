//! Printing of the `producers` section.

ghost use Rattle.std.specs.Prelude.{◌≡◌, List, map, refl};
ghost use Rattle.wat_print_module.specs.Prelude.{paren, more, names_view, many_form, paren_form, Printed};
ghost use Rattle.wat_links.specs.Producers.{producers_view, producers};
ghost use Rattle.wat_print_module.specs.Producers.{produced_form, ProducersModel, produced_view, field_form, fields_behind, are_in_turn, all_fields_form, producers_form};
ghost use Rattle.wat_print.specs.Printed.{printing_by};
ghost use Rattle.wat_print_module.specs.Laws.Producers.{producers_prints};

use crate::traits::PrintPart;
use wat_links::Producers;
use wat_print::{Output, Refused};

/// Writes entries in order, each as `( word name version )`.
#[tactic(auto, using(crate::proofs::Grouped::in_a_loop))]
fn write_entries(out: &mut Output, word: &str, entries: &[(&str, &str)]) -> Result<(), Refused>
    ensures { Printed (many_form more (produced_form word.now)) (names_view entries.now) result
        out.old out.new }
{
    for entry in entries {
        out.open()?;
        out.word(word)?;
        out.text(entry.0)?;
        out.text(entry.1)?;
        out.close()?;
    }
    Ok(())
}

/// Writes a field: its entries. It fails if the field has no entry.
#[tactic(auto, using(crate::proofs::Produced::filled_printable))]
fn write_field(out: &mut Output, field: &(&str, Vec<(&str, &str)>)) -> Result<(), Refused>
    ensures { Printed field_form (produced_view field.now) result out.old out.new }
{
    if field.1.is_empty() {
        return Err(Refused::Section);
    }
    write_entries(out, field.0, &field.1)
}

/// Writes fields in order.
#[tactic(auto, using(crate::proofs::Grouped::in_a_loop))]
fn write_fields(out: &mut Output, fields: &[(&str, Vec<(&str, &str)>)]) -> Result<(), Refused>
    ensures { Printed all_fields_form (map produced_view fields.now) result out.old out.new }
{
    for field in fields {
        write_field(out, field)?;
    }
    Ok(())
}

/// The fields after the first field if the first field has the word, otherwise all fields.
fn fields_behind<'f, 'a>(
    word: &str,
    fields: &'f [(&'a str, Vec<(&'a str, &'a str)>)],
) -> &'f [(&'a str, Vec<(&'a str, &'a str)>)]
    ensures { map produced_view result.now ≡ fields_behind word.now (map produced_view fields.now) }
{
    if fields.is_empty() || fields[0].0 != word {
        return fields;
    }
    &fields[1..]
}

/// Whether the fields are `language`, `sdk` and `processed-by`, in this order, each at most once.
#[tactic(auto, using(crate::proofs::Produced::empty_seen))]
fn are_in_turn<'a>(fields: &[(&'a str, Vec<(&'a str, &'a str)>)]) -> bool
    ensures { result ≡ are_in_turn (map produced_view fields.now) }
{
    let behind_languages = fields_behind("language", fields);
    let behind_sdks = fields_behind("sdk", behind_languages);
    fields_behind("processed-by", behind_sdks).is_empty()
}

/// Writes the section with these fields.
fn write_section<'a>(
    out: &mut Output,
    fields: &[(&'a str, Vec<(&'a str, &'a str)>)],
) -> Result<(), Refused>
    ensures { Printed producers_form (map produced_view fields.now) result out.old out.new }
{
    if !are_in_turn(fields) {
        return Err(Refused::Section);
    }
    out.annotation("producers")?;
    write_fields(out, fields)
}

/// Writes the `producers` section, without its parentheses (Text Format, "Custom Annotation"). It
/// fails unless its fields are `language`, `sdk` and `processed-by`, in this order, each at most
/// once and with an entry.
pub fn write_producers(out: &mut Output, section: &Producers) -> Result<(), Refused>
    ensures { Printed producers_form (producers_view section.now) result out.old out.new }
{
    write_section(out, &section.fields)
}

/// Printed with its parentheses, since an annotation follows a `(`.
impl PrintPart for Producers<'_> {
    ghost View = { List ProducersModel };

    ghost view = { producers_view };

    ghost grammar = { paren producers };

    ghost printing = { printing_by (paren_form producers_form) producers_prints (λ v h. h) refl refl };

    #[tactic(auto, using(crate::proofs::Grouped::on_one_line))]
    fn write(&self, out: &mut Output) -> Result<(), Refused> {
        out.open()?;
        write_producers(out, self)?;
        out.close()
    }
}

//! How structure types are printed.

ghost use Rattle.std.specs.Prelude.{◌≡◌, List, refl};
ghost use Rattle.wat_print.specs.Prelude.{more, member_view, many_form, none_labelled, printing_by, Printed, member_label, member_form};
ghost use Rattle.wat_types.specs.Struct.{StructFieldModel, members_view, struct_view};
ghost use Rattle.wat_print.specs.Struct.{member_alone_form, struct_form};
ghost use Rattle.wat_types.specs.StructType.{struct_type};
ghost use Rattle.wat_print.specs.Laws.Struct.{struct_prints};

use crate::fault::Refused;
use crate::label::write_label;
use crate::output::Output;
use crate::storage::write_field;
use crate::traits::Print;
use wat_types::{StructField, StructType};

/// Writes a field without its group.
#[tactic(auto, using(crate::specs::Laws::Written::put_both))]
fn write_member(out: &mut Output, field: &StructField) -> Result<(), Refused>
    ensures { Printed member_form (member_view field.now) result out.old out.new }
{
    write_label(out, &field.id, &field.name)?;
    write_field(out, field.mutable, &field.ty)
}

/// Writes fields, one after the other.
#[tactic(auto, using(std::proofs::lemmas::List::drop_more, crate::specs::Laws::Written::put_both))]
fn write_members(out: &mut Output, fields: &[StructField]) -> Result<(), Refused>
    ensures { Printed (many_form more member_form) (members_view fields.now) result out.old
        out.new }
{
    for field in fields {
        write_member(out, field)?;
    }
    Ok(())
}

/// Writes a field in a separate group.
fn write_alone(out: &mut Output, field: &StructField) -> Result<(), Refused>
    ensures { Printed member_alone_form (member_view field.now) result out.old out.new }
{
    out.open()?;
    out.word("field")?;
    write_member(out, field)?;
    out.close()
}

/// Writes fields, each in a separate group.
#[tactic(auto, using(std::proofs::lemmas::List::drop_more, crate::specs::Laws::Written::put_both))]
fn write_each_alone(out: &mut Output, fields: &[StructField]) -> Result<(), Refused>
    ensures { Printed (many_form more member_alone_form) (members_view fields.now) result out.old
        out.new }
{
    for field in fields {
        write_alone(out, field)?;
    }
    Ok(())
}

/// Returns whether no field has an identifier or a name.
#[tactic(auto, using(std::proofs::lemmas::List::drop_more))]
fn are_unlabelled(fields: &[StructField]) -> bool
    ensures { result ≡ none_labelled member_label (members_view fields.now) }
{
    for field in fields {
        if field.id.is_some() || field.name.is_some() {
            return false;
        }
    }
    true
}

/// Writes fields: in one group if no field has a label, otherwise each in a separate group.
#[tactic(auto, using(crate::specs::Laws::Written::groups, crate::specs::Laws::Written::put_both))]
fn write_fields(out: &mut Output, fields: &[StructField]) -> Result<(), Refused>
    ensures { Printed struct_form (members_view fields.now) result out.old out.new }
{
    if fields.is_empty() {
        return Ok(());
    }
    if !are_unlabelled(fields) {
        write_each_alone(out, fields)?;
        return Ok(());
    }
    out.open()?;
    out.word("field")?;
    write_members(out, fields)?;
    out.close()
}

/// Writes a structure type (Text Format, Types, "Composite Types").
pub(crate) fn write_struct(out: &mut Output, structure: &StructType) -> Result<(), Refused>
    ensures { Printed struct_form (struct_view structure.now) result out.old out.new }
{
    write_fields(out, &structure.fields)
}

impl Print for StructType<'_> {
    ghost View = { List StructFieldModel };

    ghost view = { struct_view };

    ghost grammar = { struct_type };

    ghost printing = { printing_by struct_form struct_prints (λ v h. h) refl refl };

    #[tactic(auto, using(crate::specs::Laws::Written::puts_put))]
    fn write(&self, out: &mut Output) -> Result<(), Refused> {
        write_struct(out, self)
    }
}

//! How definitions of types, and recursion groups, are printed.
//!
//! A [`TypeDef`] has no [`Print`]: its `describes` and `descriptor` clauses close parentheses that
//! they don't open.

ghost use Rattle.std.specs.Prelude.{List, map, refl};
ghost use Rattle.wat_print.specs.Laws.Prelude.{IndexModel, index_view, index, begins_index, second, option_view, type_view, type_form, rec_form, many_form, paren_form, index_form, printing_by, Printed, PrintedLines, index_prints};
ghost use Rattle.wat_types.specs.Define.{InnerTypeKindModel, inner_kind_view, kind, def_view, TypeModel, type_, types_view, begins_type};
ghost use Rattle.wat_print.specs.Define.{kind_form, link_form, core_parts, core_form, shared_parts, shared_form, def_form};
ghost use Rattle.wat_types.specs.Recursion.{rec_view, rec};
ghost use Rattle.wat_print.specs.Laws.Define.{kind_prints, rec_prints, type_prints};

use crate::fault::Refused;
use crate::function::write_function;
use crate::label::write_label;
use crate::limits::write_flag;
use crate::output::Output;
use crate::reference::write_index;
use crate::storage::write_array;
use crate::structure::write_struct;
use crate::traits::Print;
use wat_tokens::Index;
use wat_types::{ContType, InnerTypeKind, Rec, Type, TypeDef};

/// Writes the kind of a definition, without parentheses: `func`, `struct`, `array` or `cont`, and
/// the type (Text Format, Types, "Composite Types").
pub fn write_kind(out: &mut Output, kind: &InnerTypeKind) -> Result<(), Refused>
    ensures { Printed kind_form (inner_kind_view kind.now) result out.old out.new }
{
    match kind {
        InnerTypeKind::Func(function) => {
            out.word("func")?;
            write_function(out, function)
        }
        InnerTypeKind::Struct(structure) => {
            out.word("struct")?;
            write_struct(out, structure)
        }
        InnerTypeKind::Array(array) => {
            out.word("array")?;
            write_array(out, array)
        }
        InnerTypeKind::Cont(cont) => {
            out.word("cont")?;
            write_index(out, &cont.0)
        }
    }
}

/// Writes the word, the index and `) (` if there is an index.
#[tactic(auto, using(crate::specs::Laws::Written::put_both))]
fn write_link(out: &mut Output, word: &str, index: &Option<Index>) -> Result<(), Refused>
    ensures { Printed (link_form word.now) (option_view index_view index.now) result out.old
        out.new }
{
    match index {
        Some(index) => {
            out.word(word)?;
            write_index(out, index)?;
            out.close()?;
            out.open()
        }
        None => Ok(()),
    }
}

/// Writes the described type, the descriptor type, and then the kind without its parentheses.
#[tactic(auto, using(crate::specs::Laws::Written::put_both))]
fn write_core(out: &mut Output, def: &TypeDef) -> Result<(), Refused>
    ensures { Printed core_form (core_parts (def_view def.now)) result out.old out.new }
{
    write_link(out, "describes", &def.describes)?;
    write_link(out, "descriptor", &def.descriptor)?;
    write_kind(out, &def.kind)
}

/// Writes a definition without `sub`, and in parentheses after `shared` if the definition is
/// shared.
#[tactic(auto, using(crate::specs::Laws::Written::put_both))]
fn write_shared(out: &mut Output, def: &TypeDef) -> Result<(), Refused>
    ensures { Printed shared_form (shared_parts (def_view def.now)) result out.old out.new }
{
    if !def.shared {
        return write_core(out, def);
    }
    out.word("shared")?;
    out.open()?;
    write_core(out, def)?;
    out.close()
}

/// Writes indices, one after the other.
#[tactic(auto, using(std::proofs::lemmas::List::drop_more, crate::specs::Laws::Written::put_both))]
fn write_indices(out: &mut Output, indices: &[Index]) -> Result<(), Refused>
    ensures { Printed (many_form begins_index index_form) (map index_view indices.now) result
        out.old out.new }
{
    for index in indices {
        write_index(out, index)?;
    }
    Ok(())
}

/// Writes a definition without its parentheses. A definition that has supertypes but no `sub` is
/// refused with Parents.
#[tactic(auto, using(crate::specs::Laws::Written::put_both))]
fn write_inside_def(out: &mut Output, def: &TypeDef) -> Result<(), Refused>
    ensures { Printed def_form (def_view def.now) result out.old out.new }
{
    match def.final_type {
        Some(is_final) => {
            out.word("sub")?;
            write_flag(out, "final", is_final)?;
            write_indices(out, &def.parents)?;
            out.open()?;
            write_shared(out, def)?;
            out.close()
        }
        None if def.parents.is_empty() => write_shared(out, def),
        None => Err(Refused::Parents),
    }
}

/// Writes a definition in its parentheses (Text Format, Types, "Recursive Types"). A definition
/// that has supertypes but no `sub` is refused with Parents.
#[tactic(auto, using(crate::specs::Laws::Written::put_both))]
pub fn write_def(out: &mut Output, def: &TypeDef) -> Result<(), Refused>
    ensures { Printed (paren_form def_form) (def_view def.now) result out.old out.new }
{
    out.open()?;
    write_inside_def(out, def)?;
    out.close()
}

/// Writes a type, without its parentheses (Text Format, Types, "Recursive Types").
#[tactic(auto, using(crate::specs::Laws::Written::put_both))]
pub fn write_type(out: &mut Output, ty: &Type) -> Result<(), Refused>
    ensures { Printed type_form (type_view ty.now) result out.old out.new }
{
    out.word("type")?;
    write_label(out, &ty.id, &ty.name)?;
    write_def(out, &ty.def)
}

/// Writes a type in its parentheses, on a separate line if the layout has lines.
fn write_grouped_type(out: &mut Output, ty: &Type) -> Result<(), Refused>
    ensures { PrintedLines (paren_form type_form) (type_view ty.now) result out.old out.new }
{
    out.line()?;
    out.open()?;
    write_type(out, ty)?;
    out.close()
}

/// Writes types in their parentheses, each on a separate line if the layout has lines.
#[tactic(auto, using(crate::specs::Laws::Written::not_each_item))]
fn write_types(out: &mut Output, types: &[Type]) -> Result<(), Refused>
    ensures { PrintedLines (many_form (second begins_type) (paren_form type_form))
        (types_view types.now) result out.old out.new }
{
    for ty in types {
        write_grouped_type(out, ty)?;
    }
    Ok(())
}

/// Writes a recursion group, without its parentheses (Text Format, Types, "Recursive Types").
pub fn write_rec(out: &mut Output, group: &Rec) -> Result<(), Refused>
    ensures { PrintedLines rec_form (rec_view group.now) result out.old out.new }
{
    out.word("rec")?;
    write_types(out, &group.types)
}

impl Print for ContType<'_> {
    ghost View = { IndexModel };

    ghost view = { λ c. index_view c.0 };

    ghost grammar = { index };

    ghost printing = { printing_by index_form index_prints (λ v h. h) refl refl };

    #[tactic(auto, using(crate::specs::Laws::Written::puts_put))]
    fn write(&self, out: &mut Output) -> Result<(), Refused> {
        write_index(out, &self.0)
    }
}

impl Print for InnerTypeKind<'_> {
    ghost View = { InnerTypeKindModel };

    ghost view = { inner_kind_view };

    ghost grammar = { kind };

    ghost printing = { printing_by kind_form kind_prints (λ v h. h) refl refl };

    #[tactic(auto, using(crate::specs::Laws::Written::puts_put))]
    fn write(&self, out: &mut Output) -> Result<(), Refused> {
        write_kind(out, self)
    }
}

impl Print for Type<'_> {
    ghost View = { TypeModel };

    ghost view = { type_view };

    ghost grammar = { type_ };

    ghost printing = { printing_by type_form type_prints (λ v h. h) refl refl };

    #[tactic(auto, using(crate::specs::Laws::Written::puts_put))]
    fn write(&self, out: &mut Output) -> Result<(), Refused> {
        write_type(out, self)
    }
}

impl Print for Rec<'_> {
    ghost View = { List TypeModel };

    ghost view = { rec_view };

    ghost grammar = { rec };

    ghost printing = { printing_by rec_form rec_prints (λ v h. h) refl refl };

    fn write(&self, out: &mut Output) -> Result<(), Refused> {
        write_rec(out, self)
    }
}

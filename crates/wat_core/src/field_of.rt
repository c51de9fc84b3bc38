//! The types whose values are fields of a module, and a function that parses such a field.

ghost use Rattle.std.specs.Prelude.{◌≡◌, refl};
ghost use Rattle.wat_fields.specs.Prelude.{data_view, data_segment, elem_view, elem, func_view, func, global_view, global, memory_view, memory, table_view, table, tag_view, tag, custom_view, custom, export_view, export_, imports, imports_view, turns_too, made, Production, ReadsAt, owning, type_view, type_, rec_view, rec};
ghost use Rattle.wat_core.specs.Field.{ModuleFieldModel, field_view, heapless_field, a_type, a_rec, an_import, a_func, a_table, a_memory, a_global, an_export, an_elem, a_data, a_tag, a_custom};
ghost use Rattle.wat_core.specs.FieldOf.{IsFieldOf, made_by};

use crate::field::ModuleField;
use wat_fields::{Data, Elem, Func, Global, Memory, Table, Tag};
use wat_links::{Custom, Export, Imports};
use wat_tokens::{Parse, Parser, Result};
use wat_types::{Rec, Type};

/// A type whose values are fields of a module.
pub(crate) trait FieldOf<'a>: Parse<'a> {
    /// The production of such a field.
    ghost form: { Production ModuleFieldModel };

    /// The view of a value as a field.
    ghost seen: { Self → ModuleFieldModel };

    /// Returns the value as a field.
    fn field(self) -> ModuleField<'a>
        ensures { field_view result ≡ seen self };

    /// The field is spelled as the value is, and its view is made from the value's view.
    ghost is_field: { IsFieldOf form seen Self.view Self.grammar };
}

/// Parses a value of the type, and returns it as a field.
#[inline(always)]
pub(crate) fn read_field_as<'a, T: FieldOf<'a>>(parser: &mut Parser<'a>) -> Result<ModuleField<'a>>
    ensures reads { ReadsAt turns_too (owning field_view heapless_field) T.form result parser.old
        parser.new }
{
    match T::parse(parser) {
        Ok(value) => Ok(value.field()),
        Err(refused) => Err(refused),
    }
}

impl<'a> FieldOf<'a> for Type<'a> {
    ghost form = { made a_type type_ };

    ghost seen = { λ x. a_type (type_view x) };

    ghost is_field = { made_by a_type (λ v. refl) };

    #[inline(always)]
    fn field(self) -> ModuleField<'a> {
        ModuleField::Type(self)
    }
}

impl<'a> FieldOf<'a> for Rec<'a> {
    ghost form = { made a_rec rec };

    ghost seen = { λ x. a_rec (rec_view x) };

    ghost is_field = { made_by a_rec (λ v. refl) };

    #[inline(always)]
    fn field(self) -> ModuleField<'a> {
        ModuleField::Rec(self)
    }
}

impl<'a> FieldOf<'a> for Imports<'a> {
    ghost form = { made an_import imports };

    ghost seen = { λ x. an_import (imports_view x) };

    ghost is_field = { made_by an_import (λ v. refl) };

    #[inline(always)]
    fn field(self) -> ModuleField<'a> {
        ModuleField::Import(self)
    }
}

impl<'a> FieldOf<'a> for Func<'a> {
    ghost form = { made a_func func };

    ghost seen = { λ x. a_func (func_view x) };

    ghost is_field = { made_by a_func (λ v. refl) };

    #[inline(always)]
    fn field(self) -> ModuleField<'a> {
        ModuleField::Func(self)
    }
}

impl<'a> FieldOf<'a> for Table<'a> {
    ghost form = { made a_table table };

    ghost seen = { λ x. a_table (table_view x) };

    ghost is_field = { made_by a_table (λ v. refl) };

    #[inline(always)]
    fn field(self) -> ModuleField<'a> {
        ModuleField::Table(self)
    }
}

impl<'a> FieldOf<'a> for Memory<'a> {
    ghost form = { made a_memory memory };

    ghost seen = { λ x. a_memory (memory_view x) };

    ghost is_field = { made_by a_memory (λ v. refl) };

    #[inline(always)]
    fn field(self) -> ModuleField<'a> {
        ModuleField::Memory(self)
    }
}

impl<'a> FieldOf<'a> for Global<'a> {
    ghost form = { made a_global global };

    ghost seen = { λ x. a_global (global_view x) };

    ghost is_field = { made_by a_global (λ v. refl) };

    #[inline(always)]
    fn field(self) -> ModuleField<'a> {
        ModuleField::Global(self)
    }
}

impl<'a> FieldOf<'a> for Export<'a> {
    ghost form = { made an_export export_ };

    ghost seen = { λ x. an_export (export_view x) };

    ghost is_field = { made_by an_export (λ v. refl) };

    #[inline(always)]
    fn field(self) -> ModuleField<'a> {
        ModuleField::Export(self)
    }
}

impl<'a> FieldOf<'a> for Elem<'a> {
    ghost form = { made an_elem elem };

    ghost seen = { λ x. an_elem (elem_view x) };

    ghost is_field = { made_by an_elem (λ v. refl) };

    #[inline(always)]
    fn field(self) -> ModuleField<'a> {
        ModuleField::Elem(self)
    }
}

impl<'a> FieldOf<'a> for Data<'a> {
    ghost form = { made a_data data_segment };

    ghost seen = { λ x. a_data (data_view x) };

    ghost is_field = { made_by a_data (λ v. refl) };

    #[inline(always)]
    fn field(self) -> ModuleField<'a> {
        ModuleField::Data(self)
    }
}

impl<'a> FieldOf<'a> for Tag<'a> {
    ghost form = { made a_tag tag };

    ghost seen = { λ x. a_tag (tag_view x) };

    ghost is_field = { made_by a_tag (λ v. refl) };

    #[inline(always)]
    fn field(self) -> ModuleField<'a> {
        ModuleField::Tag(self)
    }
}

impl<'a> FieldOf<'a> for Custom<'a> {
    ghost form = { made a_custom custom };

    ghost seen = { λ x. a_custom (custom_view x) };

    ghost is_field = { made_by a_custom (λ v. refl) };

    #[inline(always)]
    fn field(self) -> ModuleField<'a> {
        ModuleField::Custom(self)
    }
}

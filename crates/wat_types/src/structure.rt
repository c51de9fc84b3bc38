//! Structure and array types.

ghost use Rattle.std.specs.Prelude.{◌≡◌, List};
ghost use Rattle.wat_tokens.specs.Prelude.{Copies, tokens_alone, after_front, Extends, Call, more, plain, owning, no_items};
ghost use Rattle.wat_types.specs.Struct.{array_view, StructFieldModel, member_view, members_view, plain_member, members, member_group, struct_view};
ghost use Rattle.wat_types.specs.FieldType.{FieldTypeModel, field_type};
ghost use Rattle.wat_types.specs.StructType.{struct_type};

use crate::label::take_label;
use crate::storage::StorageType;
use wat_tokens::enclosed::in_word_group;
use wat_tokens::repeat::{Group, Part, groups, parts};
use wat_tokens::{Fault, Id, NameAnnotation, Parse, Parser, Result};

/// An array type (WebAssembly Core Specification, Text Format, Types, "Composite Types").
#[derive(Clone, Debug, Drop)]
pub struct ArrayType<'a> {
    /// Whether the text has `mut`: elements can change.
    pub mutable: bool,
    /// The element type.
    pub ty: StorageType<'a>,
}

/// A field of a structure type (WebAssembly Core Specification, Text Format, Types, "Composite
/// Types").
#[derive(Clone, Debug, Drop)]
pub struct StructField<'a> {
    /// The identifier.
    pub id: Option<Id<'a>>,
    /// The name from a name annotation.
    pub name: Option<NameAnnotation<'a>>,
    /// Whether the text has `mut`: the field can change.
    pub mutable: bool,
    /// The type of the field's value.
    pub ty: StorageType<'a>,
}

/// A structure type (WebAssembly Core Specification, Text Format, Types, "Composite Types").
#[derive(Debug, Drop)]
pub struct StructType<'a> {
    /// The fields, in order.
    pub fields: Vec<StructField<'a>>,
}

/// Reads `( mut StorageType )` if the second token is `mut`, and otherwise a [`StorageType`].
impl<'a> Parse<'a> for ArrayType<'a> {
    ghost View = { FieldTypeModel };

    ghost view = { plain array_view };

    ghost grammar = { field_type };

    #[tactic(auto, unfolding(crate::specs::FieldType::field_type))]
    fn parse(parser: &mut Parser<'a>) -> Result<Self> {
        if parser.second_is("mut") {
            let ty = in_word_group::<StorageType>(parser, "mut")?;
            return Ok(ArrayType { mutable: true, ty });
        }
        let ty = StorageType::parse(parser)?;
        Ok(ArrayType { mutable: false, ty })
    }
}

/// A field without a label.
struct PlainField;

impl<'a> Part<'a, StructField<'a>> for PlainField {
    ghost View = { StructFieldModel };

    ghost view = { plain member_view };

    ghost grammar = { plain_member };

    ghost follows = { more };

    fn follows(parser: &Parser<'a>) -> bool {
        !parser.is_empty()
    }

    fn take(parser: &mut Parser<'a>) -> Result<StructField<'a>> {
        let field = ArrayType::parse(parser)?;
        Ok(StructField {
            id: None,
            name: None,
            mutable: field.mutable,
            ty: field.ty,
        })
    }
}

/// Appends the fields of a group to `out`.
#[tactic(auto, using(crate::specs::Laws::FieldType::field_type_consumes), unfolding(crate::specs::Struct::members, crate::specs::Struct::plain_members))]
fn read_fields<'a>(parser: &mut Parser<'a>, out: &mut Vec<StructField<'a>>) -> Result<()>
    ensures reads { Call tokens_alone (owning (λ _. members_view out.new.items) no_items)
        (after_front (members_view out.old.items) (members.reads parser.old.left)) result parser.old
        parser.new }
    ensures kept { Extends out.old.items out.new.items }
{
    if parser.peek::<Id>() || parser.peek::<NameAnnotation>() {
        let (id, name) = take_label(parser)?;
        let field = ArrayType::parse(parser)?;
        out.push(StructField {
            id,
            name,
            mutable: field.mutable,
            ty: field.ty,
        })?;
        return Ok(());
    }
    parts::<_, PlainField>(parser, out)
}

/// Groups of fields, up to the end of the enclosing group.
struct FieldGroup;

impl<'a> Group<'a, StructField<'a>> for FieldGroup {
    ghost View = { StructFieldModel };

    ghost view = { plain member_view };

    ghost grammar = { member_group };

    ghost follows = { more };

    fn follows(parser: &Parser<'a>) -> bool {
        !parser.is_empty()
    }

    #[tactic(auto, unfolding(crate::specs::Struct::member_group))]
    fn take(parser: &mut Parser<'a>, out: &mut Vec<StructField<'a>>) -> Result<()> {
        parser.open()?;
        parser.keyword("field")?;
        read_fields(parser, out)?;
        parser.close()?;
        Ok(())
    }
}

impl<'a> StructType<'a> {
    /// Returns a copy of the structure type. Returns the error Memory only if the type has a field.
    pub fn clone(&self) -> Result<StructType<'a>>
        ensures copies { Copies (λ x y. y.fields.items ≡ x.fields.items)
            (owning struct_view no_items) result self.now }
    {
        let mut fields = Vec::new(*self.fields.allocator());
        'fields: for field in &self.fields {
            fields.push(field.clone()?)?;
        }
        Ok(StructType { fields })
    }
}

/// Reads groups up to the end of the enclosing group: `( field id? name? F )` with an identifier or
/// a name annotation, and `( field F* )`. F is `( mut StorageType )` if the second token is `mut`,
/// and otherwise a [`StorageType`].
impl<'a> Parse<'a> for StructType<'a> {
    ghost View = { List StructFieldModel };

    ghost view = { owning struct_view no_items };

    ghost grammar = { struct_type };

    #[tactic(auto, using(wat_tokens::specs::Laws::Joined::joined_reads, crate::specs::Laws::Struct::member_group_consumes), unfolding(crate::specs::StructType::struct_type))]
    fn parse(parser: &mut Parser<'a>) -> Result<Self> {
        let mut fields = Vec::new(parser.alloc());
        groups::<_, FieldGroup>(parser, &mut fields)?;
        Ok(StructType { fields })
    }
}

//! Printing of tags.

ghost use Rattle.std.specs.Prelude.{refl};
ghost use Rattle.wat_print_instr.specs.Prelude.{printing_by, Printed};
ghost use Rattle.wat_fields.specs.Tag.{TagModel, tag_kind_view, tag_view, tag};
ghost use Rattle.wat_print_module.specs.Tag.{tag_import_form, tag_form};
ghost use Rattle.wat_print_module.specs.Laws.Tag.{tag_prints};

use crate::field_head::{write_head, write_inline_import};
use crate::traits::PrintPart;
use wat_fields::{Tag, TagKind};
use wat_print::type_use::write_use;
use wat_print::{Output, Refused};
use wat_types::TagType;

/// Writes the inline import, if the tag is imported.
fn write_import(out: &mut Output, kind: &TagKind) -> Result<(), Refused>
    ensures { Printed tag_import_form (tag_kind_view kind.now) result out.old out.new }
{
    match kind {
        TagKind::Import(import) => write_inline_import(out, import),
        TagKind::Inline() => Ok(()),
    }
}

/// Writes a tag, without its parentheses (Text Format, Modules, "Tags"): its inline exports and
/// import, and its type.
#[tactic(auto, using(wat_print::specs::Laws::Written::put_both))]
pub fn write_tag(out: &mut Output, tag: &Tag) -> Result<(), Refused>
    ensures { Printed tag_form (tag_view tag.now) result out.old out.new }
{
    out.word("tag")?;
    write_head(out, &tag.id, &tag.name, &tag.exports)?;
    write_import(out, &tag.kind)?;
    match &tag.ty {
        TagType::Exception(ty) => write_use(out, ty),
    }
}

impl PrintPart for Tag<'_> {
    ghost View = { TagModel };

    ghost view = { tag_view };

    ghost grammar = { tag };

    ghost printing = { printing_by tag_form tag_prints (λ v h. h) refl refl };

    #[tactic(auto, using(wat_print::specs::Laws::Written::puts_put))]
    fn write(&self, out: &mut Output) -> Result<(), Refused> {
        write_tag(out, self)
    }
}

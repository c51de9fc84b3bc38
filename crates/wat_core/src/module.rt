//! Modules.

ghost use Rattle.std.specs.Prelude.{◌≡◌, true, IfOk};
ghost use Rattle.wat_fields.specs.Prelude.{turns_too, SameSettings, ReadsAt, annotated, ends, more, owning};
ghost use Rattle.wat_tokens.specs.Counts.{Turned};
ghost use Rattle.wat_tokens.specs.Outcome.{ReadsPrefix, TakesPrefix};
ghost use Rattle.wat_tokens.specs.Visible.{seen};
ghost use Rattle.wat_core.specs.Field.{ModuleFieldModel, field_view, heapless_field};
ghost use Rattle.wat_core.specs.Module.{ModuleModel, module_kind_view, heapless_module_kind, module_kind, module_view, heapless_module, module_};
ghost use Rattle.wat_core.specs.FieldGroup.{field_group};

use crate::field::ModuleField;
use wat_tokens::enclosed::in_parens;
use wat_tokens::repeat::{Part, all_parts, all_to_end};
use wat_tokens::{Id, NameAnnotation, Parse, Parser, Result, Span};
use wat_types::take_label;

/// A module (WebAssembly Core Specification, Text Format, "Modules").
#[derive(Debug)]
pub struct Module<'a> {
    /// The place of the keyword `module`.
    pub span: Span,
    /// The identifier.
    pub id: Option<Id<'a>>,
    /// The name from a `(@name ..)` annotation.
    pub name: Option<NameAnnotation<'a>>,
    /// The contents.
    pub kind: ModuleKind<'a>,
}

/// This implementation is written by hand, so its proof is done once. With a derived Drop, each
/// crate that drops a module would prove the drop of each part again, which takes minutes.
impl Drop for Module<'_> {
    fn drop(self) {
        let Module {
            span: _,
            id: _,
            name: _,
            kind: _,
        } = self;
    }
}

/// The contents of a module, generic in the types of a field and of a piece. See [`ModuleKind`].
#[derive(Debug, Drop)]
pub enum ModuleKindOf<Field, Piece> {
    /// The fields of the module.
    Text(Vec<Field>),
    /// The strings after the keyword `binary`: pieces of the module's binary format.
    Binary(Vec<Piece>),
}

/// The contents of a module.
pub type ModuleKind<'a> = ModuleKindOf<ModuleField<'a>, &'a [u8]>;

/// A field in its group.
struct FieldGroup;

impl<'a> Part<'a, ModuleField<'a>> for FieldGroup {
    ghost View = { ModuleFieldModel };

    ghost view = { owning field_view heapless_field };

    ghost cost = { turns_too };

    ghost grammar = { field_group };

    ghost follows = { more };

    fn follows(parser: &Parser<'a>) -> bool {
        !parser.is_empty()
    }

    fn take(parser: &mut Parser<'a>) -> Result<ModuleField<'a>> {
        in_parens(parser)
    }
}

/// Parses `binary` and strings, or fields in their groups.
#[tactic(auto, using(crate::proofs::ToEnd::read_to_end), unfolding(crate::specs::Module::module_kind))]
fn read_module_kind<'a>(parser: &mut Parser<'a>) -> Result<ModuleKind<'a>>
    ensures reads { ReadsAt turns_too (owning module_kind_view heapless_module_kind) module_kind
        result
        parser.old parser.new }
{
    if parser.flag("binary") {
        return Ok(ModuleKind::Binary(all_to_end(parser)?));
    }
    Ok(ModuleKind::Text(all_parts::<_, FieldGroup>(parser)?))
}

/// A module as a part of a larger text, such as a script. Its branch hints, name annotations and
/// custom sections are parsed only if the parser already knows the standard annotations.
/// [`Module::parse`] turns the standard annotations on itself.
///
/// The parser reads from the keyword `module` to the end of the group. The caller takes the
/// parentheses.
#[derive(Drop)]
pub struct VisibleModule<'a>(pub Module<'a>);

impl<'a> Parse<'a> for VisibleModule<'a> {
    ghost View = { ModuleModel };

    ghost view = { owning (λ m. module_view m.0) heapless_module };

    ghost cost = { turns_too };

    ghost grammar = { module_ };

    #[tactic(auto, unfolding(crate::specs::Module::module_))]
    fn parse(parser: &mut Parser<'a>) -> Result<Self> {
        let span = parser.keyword("module")?;
        let (id, name) = take_label(parser)?;
        let kind = read_module_kind(parser)?;
        Ok(VisibleModule(Module {
            span,
            id,
            name,
            kind,
        }))
    }
}

impl<'a> Module<'a> {
    /// Parses a module, from the keyword `module` to the end of its group. The caller takes the
    /// parentheses.
    ///
    /// The five standard annotations are known meanwhile: `custom`, `producers`, `name`, `dylink.0`
    /// and `metadata.code.branch_hint`. On return, also with an error, the parser knows the same
    /// annotations as before.
    ///
    /// If the next tokens aren't a module, returns the first error that is met. Unexpected comes if
    /// the first token isn't `module`, or at a later token that begins neither a field's group nor
    /// another part of a module. Memory never comes for a module without fields and pieces.
    #[tactic(auto, using(crate::proofs::Ends::module_steps))]
    pub fn parse(parser: &mut Parser<'a>) -> Result<Module<'a>>
        // About the tokens that are visible with the five names: the taken tokens spell the
        // returned module (`sound`). If a prefix of the next tokens spells a module, the result is
        // that module, or out of memory (`accepts`). A fault other than Memory means that no prefix
        // of the next tokens spells a module (`refused`).
        ensures reads { ReadsPrefix (owning module_view heapless_module) module_ result
            (annotated parser.old) (annotated parser.new) }
        // The left tokens that are visible with the five names are empty or begin with `)`.
        ensures ends { IfOk result (λ _. ends (annotated parser.new).left ≡ true) }
        // The taken tokens are a prefix of the tokens that were left, and the parser is directly
        // after that prefix, also on a refusal (`end`, `position`). The tokens left keep their
        // offsets. The taken tokens and their nesting are counted, and no count fell (`taken`,
        // `within`, `peak`, `grows`).
        ensures takes { TakesPrefix (annotated parser.old) (annotated parser.new) }
        // The loops over expressions turned at most as often as tokens were taken, or once more on
        // an error.
        ensures turned { Turned result parser.old parser.new }
        // The left tokens are the visible tokens of the rest, by the annotations known on return.
        ensures visible { parser.new.left ≡ seen parser.new.known parser.new.rest }
        ensures settings { SameSettings parser.old parser.new }
    {
        let was = parser.known();
        parser.with_standard_annotations(true);
        let found = parser.parse::<VisibleModule>();
        parser.with_standard_annotations(was);
        match found {
            Ok(named) => Ok(named.0),
            Err(error) => Err(error),
        }
    }

    /// Returns the span, the identifier, the name and the contents, unchanged. There is no other
    /// way to move a field out of a module.
    pub fn into_parts(
        self,
    ) -> (
        Span,
        Option<Id<'a>>,
        Option<NameAnnotation<'a>>,
        ModuleKind<'a>,
    )
        ensures { result ≡ (self.entry.span, self.entry.id, self.entry.name, self.entry.kind) }
    {
        let Module {
            span,
            id,
            name,
            kind,
        } = self;
        (span, id, name, kind)
    }
}

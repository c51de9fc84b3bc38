//! A list of a user's own directives, to the end of a text: modules and calls, as a script has them.

ghost use Rattle.std.specs.Prelude.{◌⊎◌, List, true, false, codes, map};
ghost use Rattle.std.proofs.Math.Nat.{le-min, le_trans, le-add_left};
ghost use Rattle.std.proofs.Common.{inl, inr, lit≤};
ghost use Rattle.wat_print_module.specs.Prelude.{paren, many, ModuleModel, module_, made, where_else, at_group, at_more, owning, no_items};
ghost use Rattle.wat_core.specs.Cost.{turns_too};

use crate::invoke::Invoke;
use bumpalo::Bump;
use std::alloc::Global;
use std::test::Fail;
use wat_core::enclosed::in_parens;
use wat_core::repeat::all_to_end;
use wat_core::wat_tokens::whole_text::read_text;
use wat_core::{Parse, Parser, Result, VisibleModule};

/// A module, or a call. A module is in a box, since it is far larger.
#[derive(Drop)]
pub enum Directive<'a> {
    Module(Box<VisibleModule<'a>>),
    Invoke(Invoke<'a>),
}

impl<'a> Parse<'a> for Directive<'a> {
    ghost use Rattle.wat_vectors.specs.declared.script.Directive.TheVariants as code;

    ghost View = { ModuleModel ⊎ ⟦<Invoke<'a> as Parse<'a>>⟧.View };

    ghost view = { owning (elim [
      | code.«Module» m ↦ inl (⟦<Box<VisibleModule<'a>> as Parse<'a>>⟧.view.of m)
      | code.Invoke c ↦ inr (⟦<Invoke<'a> as Parse<'a>>⟧.view.of c)
    ])
        (elim [ inl m ↦ false | inr c ↦ true ]) };

    ghost cost = { turns_too };

    ghost grammar = { where_else (at_group (codes "module")) (made inl (paren module_))
        (made inr ⟦<Invoke<'a> as Parse<'a>>⟧.grammar) };

    fn parse(parser: &mut Parser<'a>) -> Result<Self> {
        if parser.group_is("module") {
            return Ok(Directive::Module(in_parens(parser)?));
        }
        Ok(Directive::Invoke(Invoke::parse(parser)?))
    }
}

/// A list of directives.
#[derive(Drop)]
pub struct Script<'a>(pub Vec<Directive<'a>>);

impl<'a> Parse<'a> for Script<'a> {
    ghost View = { List ⟦<Directive<'a> as Parse<'a>>⟧.View };

    ghost view = { owning (λ s. map ⟦<Directive<'a> as Parse<'a>>⟧.view.of s.0.items) no_items };

    ghost cost = { turns_too };

    // Behind the production of a part is the proof that it takes a token, of either kind.
    ghost grammar = { many at_more ⟦<Directive<'a> as Parse<'a>>⟧.grammar
        (le-min (le_trans (lit≤ tt) (le-add_left 2 module_.least)) (lit≤ tt)) };

    fn parse(parser: &mut Parser<'a>) -> Result<Self> {
        Ok(Script(all_to_end(parser)?))
    }
}

/// A value that can be looked at.
trait Look {
    /// Whether it is what was written.
    fn look(&self) -> bool;
}

impl Look for Script<'_> {
    fn look(&self) -> bool {
        is_a_module_and_a_call(&self.0)
    }
}

fn is_a_module_and_a_call(script: &[Directive]) -> bool {
    script.len() == 2 && is_named(&script[0], "m") && is_named(&script[1], "f")
}

/// Whether it is a module with the identifier, or a call of the function.
fn is_named(directive: &Directive, name: &str) -> bool {
    match directive {
        Directive::Module(module) => match module.0.id {
            Some(id) => id.name() == name,
            None => false,
        },
        Directive::Invoke(call) => call.name == name,
    }
}

/// Reads the value that the text spells, looks at it, and lets it go. It is generic, since a body
/// that owns a script and lends it isn't proved.
fn read_and_look<'a, T: Parse<'a> + Look + Drop>(
    alloc: Global,
    text: &'a str,
    arena: &'a Bump,
) -> Result<bool> {
    let value = read_text::<T>(alloc, text, arena, true)?;
    Ok(value.look())
}

#[test]
fn a_script_is_read(rt: HostRuntime) -> std::result::Result<(), Fail> {
    let arena = Bump::new(rt.alloc());
    let text = "(module $m (func)) (invoke \"f\")";
    assert!(rt; read_and_look::<Script>(rt.alloc(), text, &arena)?);
    match read_and_look::<Script>(rt.alloc(), "(module) (import)", &arena) {
        Ok(_) => panic!(rt; "another directive was read"),
        Err(error) => assert_eq!(rt; error.span.offset(), 10),
    }
    Ok(())
}

//! The output for a text that is parsed as a value.

ghost use Rattle.std.specs.Prelude.{◌≡◌, ◌++◌, ℕ, List, false, OnOk, IfOk, MatchResult};
ghost use Rattle.wat_core.specs.Prelude.{ModuleModel, module_view, SpellsModule, ExpressionModel, expression_view, folded_instruction, expression, Memory, TextSpells, function_view, function_type, FunctionTypeModel};
ghost use Rattle.wat_show.specs.Expressions.{expression_text};
ghost use Rattle.wat_show.specs.Types.{function_text};
ghost use Rattle.wat_show.specs.Modules.{module_text};
ghost use Rattle.wat_show.specs.Shown.{ShowsText};

use crate::expressions::add_expression;
use crate::modules::add_module;
use crate::refusal::refused;
use crate::types::add_function;
use bumpalo::Bump;
use std::alloc::{AllocError, Global};
use wat_core::{Module, read_module};
use wat_expr::{Expression, FoldedInstruction};
use wat_tokens::Error;
use wat_tokens::whole_text::read_text;
use wat_types::FunctionType;

/// A type whose values are read from a text and listed.
pub(crate) trait ListedValue<'a>: Sized {
    /// The type of the view of a value in contracts.
    ghost View: { Type 0 };

    ghost view: { Self → View };

    /// Holds if the text spells the value.
    ghost spelled: { List ℕ → View → Type 0 };

    /// The listing of a value.
    ghost listing: { View → List ℕ };

    /// Reads the value that the text spells. If the text spells no value, the error is the first fault
    /// that is met.
    fn read(alloc: Global, text: &'a str, arena: &'a Bump) -> Result<Self, Error>
        ensures found { IfOk result (λ v. spelled text.now (view v)) }
        ensures only { (v : View) → spelled text.now v
            → MatchResult result (λ w. view w ≡ v) (λ e. e.fault ≡ Memory) };

    /// Adds the listing of the value.
    fn list(&self, out: &mut Vec<u8>) -> Result<(), AllocError>
        ensures { OnOk result (out.new.items ≡ out.old.items ++ listing (view self.now)) };
}

impl<'a> ListedValue<'a> for FunctionType<'a> {
    ghost View = { FunctionTypeModel };

    ghost view = { function_view };

    ghost spelled = { TextSpells false function_type };

    ghost listing = { function_text };

    fn read(alloc: Global, text: &'a str, arena: &'a Bump) -> Result<Self, Error> {
        read_text(alloc, text, arena, false)
    }

    fn list(&self, out: &mut Vec<u8>) -> Result<(), AllocError> {
        add_function(out, self)
    }
}

impl<'a> ListedValue<'a> for Expression<'a> {
    ghost View = { ExpressionModel };

    ghost view = { expression_view };

    ghost spelled = { TextSpells false expression };

    ghost listing = { expression_text };

    fn read(alloc: Global, text: &'a str, arena: &'a Bump) -> Result<Self, Error> {
        read_text(alloc, text, arena, false)
    }

    fn list(&self, out: &mut Vec<u8>) -> Result<(), AllocError> {
        add_expression(out, self)
    }
}

impl<'a> ListedValue<'a> for FoldedInstruction<'a> {
    ghost View = { ExpressionModel };

    ghost view = { λ folded. expression_view folded.0 };

    ghost spelled = { TextSpells false folded_instruction };

    ghost listing = { expression_text };

    fn read(alloc: Global, text: &'a str, arena: &'a Bump) -> Result<Self, Error> {
        read_text(alloc, text, arena, false)
    }

    fn list(&self, out: &mut Vec<u8>) -> Result<(), AllocError> {
        add_expression(out, &self.0)
    }
}

impl<'a> ListedValue<'a> for Module<'a> {
    ghost View = { ModuleModel };

    ghost view = { module_view };

    ghost spelled = { SpellsModule };

    ghost listing = { module_text };

    fn read(alloc: Global, text: &'a str, arena: &'a Bump) -> Result<Self, Error> {
        read_module(alloc, text, arena)
    }

    fn list(&self, out: &mut Vec<u8>) -> Result<(), AllocError> {
        add_module(out, self)
    }
}

/// Returns the output for a text that is parsed as a value of the type, and the exit status.
pub(crate) fn show_value<'a, T: ListedValue<'a> + Drop>(
    alloc: Global,
    text: &'a str,
    arena: &'a Bump,
) -> Result<(Vec<u8>, u8), AllocError>
    ensures { IfOk result (λ made. ShowsText T.spelled T.listing text.now made.0.items made.1) }
{
    match T::read(alloc, text, arena) {
        Ok(value) => {
            let mut out = Vec::new(alloc);
            value.list(&mut out)?;
            Ok((out, 0))
        }
        Err(error) => refused(alloc, error),
    }
}

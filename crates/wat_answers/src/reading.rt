//! The module of a text.

ghost use Rattle.std.specs.Prelude.{◌≢◌, IfOk, IfErr};
ghost use Rattle.wat_core.specs.View.{AreSkips};
ghost use Rattle.wat_masked.specs.Prelude.{IsCut, placed};
ghost use Rattle.wat_answers.specs.Prelude.{ModuleModel, module_view, SpellsModule, Memory};

use bumpalo::Bump;
use std::alloc::Global;
use wat_core::wat_lexer::tokens::Tokens;
use wat_core::{Error, Module, read_module, read_module_of};

/// Parses a text as a module.
pub(crate) fn module_of<'a>(
    alloc: Global,
    text: &'a str,
    arena: &'a Bump,
) -> Result<Module<'a>, Error>
    ensures found { IfOk result (λ m. SpellsModule text.now (module_view m)) }
    ensures none { IfErr result (λ e. e.fault ≢ Memory → (m : ModuleModel)
        → SpellsModule text.now m → ⊥) }
{
    read_module(alloc, text, arena)
}

/// Parses a text with these tokens as a module. Expressions keep the spans of their instructions.
pub(crate) fn module_of_tokens<'a>(
    alloc: Global,
    text: &str,
    tokens: Tokens<'a>,
) -> Result<Module<'a>, Error>
    requires cut { IsCut text.now (placed tokens) }
    requires skips { AreSkips tokens }
    ensures found { IfOk result (λ m. SpellsModule text.now (module_view m)) }
    ensures none { IfErr result (λ e. e.fault ≢ Memory → (m : ModuleModel)
        → SpellsModule text.now m → ⊥) }
{
    read_module_of(alloc, text, tokens, true)
}

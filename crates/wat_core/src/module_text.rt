//! A module that is a whole text.

ghost use Rattle.std.specs.Prelude.{◌≡◌, ◌≢◌, [], ◌∷◌, IfOk, IfErr, MatchResult};
ghost use Rattle.wat_fields.specs.Prelude.{AreSkips, placed};
ghost use Rattle.wat_tokens.specs.State.{begun};
ghost use Rattle.wat_core.specs.Prelude.{IsCut, ModuleModel, module_view, SpellsModule, Memory, RParen};

use crate::module::Module;
use bumpalo::Bump;
use std::alloc::Global;
use wat_lexer::cut::cut;
use wat_lexer::tokens::Tokens;
use wat_tokens::{Error, Parser, one_cut};

/// Takes the `)` that closes the group of a value, and checks that no visible token is left.
/// Returns the value.
fn closed<T: Drop>(parser: &mut Parser<'_>, value: T) -> Result<T, Error>
    ensures value { IfOk result (λ v. v ≡ value) }
    ensures stands { IfOk result (λ _. parser.old.left ≡ RParen ∷ []) }
    ensures refused { IfErr result (λ _. parser.old.left ≢ RParen ∷ []) }
{
    parser.close()?;
    if !parser.at_end() {
        return Err(parser.unexpected());
    }
    Ok(value)
}

/// Parses a whole text as one module in parentheses (WebAssembly Core Specification, Text Format,
/// "Modules").
///
/// Inside the parentheses the five standard annotations are known: `custom`, `producers`, `name`,
/// `dylink.0` and `metadata.code.branch_hint`. Outside them no annotation is known, so an
/// annotation's group before or after the module is skipped, whatever its name.
///
/// Names and strings without escapes are slices of the text. Names and strings with escapes are in
/// the arena.
///
/// If the text isn't a module, returns the first error that is met:
///
/// - an error of the text's tokens (see [`Parser::new`]);
/// - an error of the module (see [`Module::parse`]);
/// - Unexpected at the first visible token if it isn't `(`, at a token in the place of the module's
///   `)`, or at a visible token after that.
///
/// Memory can come for any text.
pub fn read_module<'a>(alloc: Global, text: &'a str, arena: &'a Bump) -> Result<Module<'a>, Error>
    // The text spells the returned module.
    ensures found { IfOk result (λ m. SpellsModule text.now (module_view m)) }
    // If the text spells a module, the result is that module, or out of memory.
    ensures only { (m : ModuleModel) → SpellsModule text.now m
        → MatchResult result (λ n. module_view n ≡ m) (λ e. e.fault ≡ Memory) }
{
    let tokens = cut(alloc, text, arena)?;
    read_module_of(alloc, text, tokens, false)
}

/// Returns a parser before the first token of a text that was cut. Expressions keep the spans of
/// their instructions if `spans`. `end` is the length of the text in bytes.
fn parser_of<'a>(alloc: Global, tokens: Tokens<'a>, end: usize, spans: bool) -> Parser<'a>
    requires { AreSkips tokens }
    ensures { result ≡ record (begun (placed tokens.entry)) { tracks = spans } }
{
    let mut parser = Parser::over(alloc, tokens, end);
    parser.track_instr_spans(spans);
    parser
}

/// Parses a text as [`read_module`] does, from the tokens into which the text was cut. Expressions
/// keep the spans of their instructions if `spans`.
pub fn read_module_of<'a>(
    alloc: Global,
    text: &str,
    tokens: Tokens<'a>,
    spans: bool,
) -> Result<Module<'a>, Error>
    requires cut { IsCut text.now (placed tokens) }
    requires skips { AreSkips tokens }
    // The text spells the returned module.
    ensures found { IfOk result (λ m. SpellsModule text.now (module_view m)) }
    // If the text spells a module, the result is that module, or out of memory.
    ensures only { (m : ModuleModel) → SpellsModule text.now m
        → MatchResult result (λ n. module_view n ≡ m) (λ e. e.fault ≡ Memory) }
{
    // A text has one cut. This law does nothing at run time.
    one_cut();
    let mut parser = parser_of(alloc, tokens, text.len(), spans);
    parser.open()?;
    let module = Module::parse(&mut parser)?;
    closed(&mut parser, module)
}

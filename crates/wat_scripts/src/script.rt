//! Scripts: commands, one after the other.

ghost use Rattle.std.specs.Prelude.{◌≡◌, ◌≢◌, ◌<◌, ◌⊎◌, true, false, All, List, length, IfOk, IfErr, OnOk, codes};
ghost use Rattle.wat_lexer.specs.Prelude.{FirstFault, offset_of};
ghost use Rattle.wat_tokens.specs.Error.{Memory, Unexpected};
ghost use Rattle.wat_tokens.specs.Tests.{begins_group, begins_lparen, none_left};
ghost use Rattle.wat_scripts.specs.Scripts.{CommandsModules, IsPart, IsScript};
ghost use Rattle.wat_scripts.specs.Steps.{IsReady, PassesCommand, IsRefusal, NoCommands, front};

use crate::command::Command;
use crate::groups::pass_token;
use crate::modules::{ScriptModule, take_module, take_parts};
use bumpalo::Bump;
use std::alloc::Global;
use wat_tokens::words::begins_named;
use wat_tokens::{Error, Parser};

/// Passes over a command that isn't `( module .. )`, and appends the modules directly in it. The
/// command's `(` is next. Returns Unexpected at a head that isn't a command's word, and at the end
/// of the text if a group isn't closed.
fn take_other(parser: &mut Parser<'_>, modules: &mut Vec<ScriptModule>) -> Result<(), Error>
    requires ready { IsReady usize.MAX parser.old }
    requires group { begins_lparen parser.old.left ≡ true }
    requires other { begins_group (codes "module") parser.old.left ≡ false }
    ensures passes { OnOk result (PassesCommand (front parser.old) (front parser.new)
        modules.old.items modules.new.items) }
    ensures refused { IfErr result (λ e. IsRefusal e (NoCommands (front parser.old))) }
    ensures ready { OnOk result (IsReady usize.MAX parser.new) }
    ensures less { OnOk result (length parser.new.rest < length parser.old.rest) }
{
    pass_token(parser);
    if !begins_named::<Command>(parser.cursor()) {
        return Err(parser.unexpected());
    }
    pass_token(parser);
    take_parts(parser, modules)
}

/// Passes over a command, and appends its modules. Returns Unexpected at a token that isn't the `(`
/// of a command, and as [`take_other`] does.
fn take_command(parser: &mut Parser<'_>, modules: &mut Vec<ScriptModule>) -> Result<(), Error>
    requires ready { IsReady usize.MAX parser.old }
    requires more { none_left parser.old.left ≡ false }
    ensures passes { OnOk result (PassesCommand (front parser.old) (front parser.new)
        modules.old.items modules.new.items) }
    ensures refused { IfErr result (λ e. IsRefusal e (NoCommands (front parser.old))) }
    ensures ready { OnOk result (IsReady usize.MAX parser.new) }
    ensures less { OnOk result (length parser.new.rest < length parser.old.rest) }
{
    if !parser.opens() {
        return Err(parser.unexpected());
    }
    if parser.group_is("module") {
        return take_module(parser, modules);
    }
    take_other(parser, modules)
}

/// Passes over all commands, and returns their modules. Fails as [`take_command`] does.
fn take_commands(parser: &mut Parser<'_>) -> Result<Vec<ScriptModule>, Error>
    requires { IsReady usize.MAX parser.old }
    ensures found { IfOk result (λ ms. CommandsModules (front parser.old) ms.items) }
    ensures only { IfOk result (λ ms. (ns : List ScriptModule)
        → CommandsModules (front parser.old) ns → ns ≡ ms.items) }
    ensures refused { IfErr result (λ e. IsRefusal e (NoCommands (front parser.old))) }
{
    let mut modules = Vec::new(parser.alloc());
    'commands: while !parser.at_end() {
        match take_command(parser, &mut modules) {
            Err(e) => return Err(e),
            Ok(()) => {}
        }
    }
    Ok(modules)
}

/// Returns the modules of a test script, in the order of the text (README of the reference
/// interpreter, "Scripts").
///
/// A script is one command or more. A command is a group that begins with a [`Command`]'s word. The
/// rest of a command is any tokens whose parentheses are balanced. Groups of annotations are
/// skipped.
///
/// A module is a command `( module .. )`, or a group `( module .. )` directly in another command, as
/// in `( assert_invalid ( module .. ) .. )`. These groups aren't modules:
///
/// - `( module quote .. )`, with or without `definition` and an identifier before `quote`: its text
///   is in strings;
/// - `( module instance .. )`, with or without an identifier before `instance`: it instantiates a
///   module that is defined elsewhere.
///
/// Fails with Unexpected at the first token that isn't as it must be: a token between commands that
/// isn't `(`, a command's first token that isn't a command's word, or the end of the text in a group
/// or if the text has no token. If the text has no cut, fails as [`Parser::new`] does: LexChar,
/// LexString, LexComment or LexAnnotation. Any text can fail with Memory.
pub fn script_modules(alloc: Global, text: &str, arena: &Bump) -> Result<Vec<ScriptModule>, Error>
    // The text is a script with these modules.
    ensures found { IfOk result (λ ms. IsScript text.now ms.items) }
    // If the text is a script with some modules, the call returns these, or Memory.
    ensures only { IfOk result (λ ms. (ns : List ScriptModule) → IsScript text.now ns → ns ≡ ms.items) }
    // The modules are parts of the text, and begin and end between characters.
    ensures parts { IfOk result (λ ms. All (IsPart text.now) ms.items) }
    // An error other than Memory is Unexpected, or the first lexical error of a text without a cut.
    ensures fault { IfErr result (λ e. e.fault ≢ Memory → (e.fault ≡ Unexpected)
        ⊎ FirstFault text.now e.fault (offset_of e.span)) }
    // A text with such an error is no script.
    ensures refused { IfErr result (λ e. e.fault ≢ Memory → (ns : List ScriptModule)
        → IsScript text.now ns → ⊥) }
{
    let mut parser = match Parser::new(alloc, text, arena) {
        Err(e) => return Err(e),
        Ok(parser) => parser,
    };
    if parser.at_end() {
        return Err(parser.unexpected());
    }
    take_commands(&mut parser)
}

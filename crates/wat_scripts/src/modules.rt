//! The modules of a script.

ghost use Rattle.std.specs.Prelude.{◌≡◌, ◌≤◌, ◌<◌, ◌∷◌, [], ◌++◌, true, false, if◌then◌else◌, drop, length, IfErr, OnOk, None, codes};
ghost use Rattle.wat_tokens.specs.Error.{Memory};
ghost use Rattle.wat_tokens.specs.Tests.{begins_group, begins_lparen, ends};
ghost use Rattle.wat_tokens.specs.Visible.{closing};
ghost use Rattle.wat_scripts.specs.Scripts.{definition_of};
ghost use Rattle.wat_scripts.specs.Steps.{IsReady, PassesGroup, PassesPart, PassesParts, IsRefusal, NoParts, front};

use crate::form::{is_module, names_definition};
use crate::groups::{offset_if, pass_to_end, pass_token};
use wat_tokens::ownership::push_into;
use wat_tokens::{Error, Parser};

/// A module of a script: a group of the text. All offsets are in bytes from the start of the text.
#[derive(Clone, Copy, Debug)]
pub struct ScriptModule {
    /// The offset of the group's `(`.
    pub start: usize,
    /// The offset after the group's `)`.
    pub end: usize,
    /// The offset of the word `definition`, if the group has this word before or after the module's
    /// identifier. The word isn't part of the module.
    pub definition: Option<usize>,
}

/// Returns the offset of the word `definition` of a group `( module .. )`, and passes over the
/// tokens before it. The word `module` is next, and stays next if the group has no such word.
fn to_definition(parser: &mut Parser<'_>) -> Option<usize>
    requires { IsReady usize.MAX parser.old }
    ensures value { result ≡ definition_of (drop 1 (front parser.old)) }
    ensures same { closing 0 (drop 1 (front parser.new)) ≡ closing 0 (drop 1 (front parser.old)) }
    ensures ready { IsReady usize.MAX parser.new }
    ensures fewer { length parser.new.rest ≤ length parser.old.rest }
{
    if names_definition(parser) {
        pass_token(parser);
        pass_token(parser);
        return offset_if(parser, "definition");
    }
    if parser.second_is("definition") {
        pass_token(parser);
        return offset_if(parser, "definition");
    }
    None
}

/// Appends the module that was found, if it is kept.
fn keep(modules: &mut Vec<ScriptModule>, kept: bool, found: ScriptModule) -> Result<(), Error>
    ensures appended { OnOk result (modules.new.items
        ≡ modules.old.items ++ (if kept then found ∷ [] else [])) }
    ensures memory { IfErr result (λ e. e.fault ≡ Memory) }
{
    if kept {
        push_into(modules, found)
    } else {
        Ok(())
    }
}

/// Passes over a group `( module .. )`, and appends it if it is a module. Returns Unexpected, at the
/// end of the text, if the group isn't closed.
pub(crate) fn take_module(
    parser: &mut Parser<'_>,
    modules: &mut Vec<ScriptModule>,
) -> Result<(), Error>
    requires ready { IsReady usize.MAX parser.old }
    requires group { begins_group (codes "module") parser.old.left ≡ true }
    ensures passes { OnOk result (PassesGroup (front parser.old) (front parser.new)
        modules.old.items modules.new.items) }
    ensures refused { IfErr result (λ e. IsRefusal e (closing 0 (drop 1 (front parser.old)) ≡ None)) }
    ensures ready { OnOk result (IsReady usize.MAX parser.new) }
    ensures less { OnOk result (length parser.new.rest < length parser.old.rest) }
{
    let start = parser.cur_span().offset();
    pass_token(parser);
    let kept = is_module(parser);
    let definition = to_definition(parser);
    let end = match pass_to_end(parser) {
        Err(e) => return Err(e),
        Ok(end) => end,
    };
    let found = ScriptModule {
        start,
        end,
        definition,
    };
    keep(modules, kept, found)
}

/// Passes over a group that doesn't begin with the word `module`. Returns Unexpected, at the end of
/// the text, if the group isn't closed.
fn pass_other(parser: &mut Parser<'_>, modules: &mut Vec<ScriptModule>) -> Result<(), Error>
    requires ready { IsReady usize.MAX parser.old }
    requires group { begins_lparen parser.old.left ≡ true }
    requires other { begins_group (codes "module") parser.old.left ≡ false }
    ensures passes { OnOk result (PassesGroup (front parser.old) (front parser.new)
        modules.old.items modules.new.items) }
    ensures refused { IfErr result (λ e. IsRefusal e (closing 0 (drop 1 (front parser.old)) ≡ None)) }
    ensures ready { OnOk result (IsReady usize.MAX parser.new) }
    ensures less { OnOk result (length parser.new.rest < length parser.old.rest) }
{
    match pass_to_end(parser) {
        Err(e) => Err(e),
        Ok(_) => Ok(()),
    }
}

/// Passes over a group, and appends it if it is a module. Returns Unexpected, at the end of the
/// text, if the group isn't closed.
fn take_group(parser: &mut Parser<'_>, modules: &mut Vec<ScriptModule>) -> Result<(), Error>
    requires ready { IsReady usize.MAX parser.old }
    requires group { begins_lparen parser.old.left ≡ true }
    ensures passes { OnOk result (PassesGroup (front parser.old) (front parser.new)
        modules.old.items modules.new.items) }
    ensures refused { IfErr result (λ e. IsRefusal e (closing 0 (drop 1 (front parser.old)) ≡ None)) }
    ensures ready { OnOk result (IsReady usize.MAX parser.new) }
    ensures less { OnOk result (length parser.new.rest < length parser.old.rest) }
{
    if parser.group_is("module") {
        take_module(parser, modules)
    } else {
        pass_other(parser, modules)
    }
}

/// Passes over a part of a command: a group or another token. Appends the group if it is a module.
/// Returns Unexpected, at the end of the text, if the group isn't closed.
fn take_part(parser: &mut Parser<'_>, modules: &mut Vec<ScriptModule>) -> Result<(), Error>
    requires ready { IsReady usize.MAX parser.old }
    requires more { ends parser.old.left ≡ false }
    ensures passes { OnOk result (PassesPart (front parser.old) (front parser.new)
        modules.old.items modules.new.items) }
    ensures refused { IfErr result (λ e. IsRefusal e (NoParts (front parser.old))) }
    ensures ready { OnOk result (IsReady usize.MAX parser.new) }
    ensures less { OnOk result (length parser.new.rest < length parser.old.rest) }
{
    if parser.opens() {
        return take_group(parser, modules);
    }
    pass_token(parser);
    Ok(())
}

/// Passes over the `)` of a command. Returns Unexpected if the text ends before it.
fn pass_close(parser: &mut Parser<'_>, modules: &mut Vec<ScriptModule>) -> Result<(), Error>
    requires ready { IsReady usize.MAX parser.old }
    requires over { ends parser.old.left ≡ true }
    ensures passes { OnOk result (PassesParts (front parser.old) (front parser.new)
        modules.old.items modules.new.items) }
    ensures refused { IfErr result (λ e. IsRefusal e (NoParts (front parser.old))) }
    ensures ready { OnOk result (IsReady usize.MAX parser.new) }
    ensures less { OnOk result (length parser.new.rest < length parser.old.rest) }
{
    if parser.at_end() {
        return Err(parser.unexpected());
    }
    pass_token(parser);
    Ok(())
}

/// Passes over the parts of a command and its `)`, and appends the modules directly in the command.
/// Returns Unexpected, at the end of the text, if a group isn't closed.
pub(crate) fn take_parts(
    parser: &mut Parser<'_>,
    modules: &mut Vec<ScriptModule>,
) -> Result<(), Error>
    requires ready { IsReady usize.MAX parser.old }
    ensures passes { OnOk result (PassesParts (front parser.old) (front parser.new)
        modules.old.items modules.new.items) }
    ensures refused { IfErr result (λ e. IsRefusal e (NoParts (front parser.old))) }
    ensures ready { OnOk result (IsReady usize.MAX parser.new) }
    ensures less { OnOk result (length parser.new.rest < length parser.old.rest) }
{
    'parts: while !parser.is_empty() {
        match take_part(parser, modules) {
            Err(e) => return Err(e),
            Ok(()) => {}
        }
    }
    pass_close(parser, modules)
}

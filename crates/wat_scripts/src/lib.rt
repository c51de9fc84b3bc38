//! Test scripts (`.wast`), and the modules in them (the README of the WebAssembly specification's
//! reference interpreter, "Scripts").
//!
//! [`script_modules`] finds the modules of a script. It reads the commands only as far as it needs
//! to: their words, and their parentheses.
#![tactic(auto)]

mod command;
mod form;
mod groups;
mod modules;
mod script;
#[cfg(test)]
mod tests;

pub use command::Command;
pub use modules::ScriptModule;
pub use script::script_modules;

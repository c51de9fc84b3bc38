//! Reads a module from standard input, and prints its exported functions, each on a separate line.
//! A line has the export's name and the numbers of parameters and results. If the numbers aren't
//! written with the export, the line has the index of the function's type or of the function.
//! docs/CALLING.md goes through this program.
#![tactic(auto)]

ghost use Rattle.std.specs.Prelude.{◌≡◌, IfOk, MatchResult};
ghost use Rattle.wat_core.specs.Prelude.{string_bytes, ModuleModel, SpellsModule, Memory};
ghost use Rattle.wat_example.specs.Listing.{module_lines};

mod listing;

use bumpalo::Bump;
use std::alloc::Global;
use std::io;
use std::process::ExitCode;
use wat_core::{Error, Fault, read_module};

/// Returns the lines of the exported functions of a module. The whole text is the module, in
/// parentheses.
///
/// If the text doesn't spell a module, returns the first error that is met.
pub fn exported(alloc: Global, text: &str) -> Result<String, Error>
    // The result is the lines of the module that the text spells.
    ensures found { IfOk result (λ out. (m : ModuleModel) × SpellsModule text.now m
        × (string_bytes out ≡ module_lines m)) }
    // If the text spells a module, the result is its lines, or out of memory.
    ensures only { (m : ModuleModel) → SpellsModule text.now m
        → MatchResult result (λ out. string_bytes out ≡ module_lines m) (λ e. e.fault ≡ Memory) }
{
    let arena = Bump::new(alloc);
    let module = read_module(alloc, text, &arena)?;
    let mut out = String::new(alloc);
    listing::add_module(&mut out, &module)?;
    Ok(out)
}

/// Prints an error to standard error, and returns exit status 2.
fn failed(rt: &impl Eprint, words: &str) -> ExitCode {
    let _ = eprintln!(rt; "{words}");
    ExitCode::from(2)
}

fn main(rt: HostRuntime) -> ExitCode {
    let text = match io::read_to_string(rt.alloc(), rt.stdin()) {
        Ok(text) => text,
        Err(error) if error.kind() == io::ErrorKind::OutOfMemory => {
            return failed(&rt, "wat_example: out of memory");
        }
        Err(_) => return failed(&rt, "wat_example: cannot read"),
    };
    match exported(rt.alloc(), &text) {
        Ok(out) => match print!(rt; "{out}") {
            Ok(()) => ExitCode::SUCCESS,
            Err(_) => failed(&rt, "wat_example: cannot write"),
        },
        Err(error) if error.fault == Fault::Memory => failed(&rt, "wat_example: out of memory"),
        Err(error) => {
            let _ = eprintln!(rt; "wat_example: {error}");
            ExitCode::FAILURE
        }
    }
}

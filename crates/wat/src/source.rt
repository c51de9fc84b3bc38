//! The inputs of the program.

ghost use Rattle.std.specs.Prelude.{◌≡◌, ⊤, ℕ, List, IfOk, IfErr, IfSome};
ghost use Rattle.wat.specs.Inputs.{shown_name};

use crate::replace::replace_file;
use std::alloc::Global;
use std::fs::File;
use std::io;
use std::io::{Input, Read};
use std::rt::Files;

/// Returns the name of an input as reports and lists show it: `stdin` for `-`, which is standard
/// input, and otherwise the name itself.
#[tactic(auto, unfolding(crate::specs::Inputs::shown_name))]
pub(crate) fn shown_name<'a>(stdin: &'a str, name: &'a str) -> &'a str
    ensures { result.now ≡ shown_name stdin.now name.now }
{
    if name == "-" { stdin } else { name }
}

/// Inputs that can be read, by their names.
pub(crate) trait Sources {
    /// A read of the input with that name can give these bytes.
    ghost gives: { Self → List ℕ → List ℕ → Type 0 };

    /// A read of the input with that name can fail.
    ghost fails: { Self → List ℕ → Type 0 };

    /// Reads all bytes of an input.
    fn read(&self, alloc: Global, name: &str) -> io::Result<Vec<u8>>
        ensures given { IfOk result (λ bytes. gives self.now name.now bytes.items) }
        ensures failed { IfErr result (λ _. fails self.now name.now) };
}

/// Inputs that can be replaced.
pub(crate) trait Replaceable: Sources {
    /// From the one to the other, these bytes took the place of the input with that name.
    ghost puts: { Self → Self → List ℕ → List ℕ → Type 0 };

    /// Replaces an input by a text. If that fails, nothing has changed.
    fn replace(&mut self, alloc: Global, name: &str, text: &str) -> io::Result<()>
        ensures put { IfOk result (λ _. puts self.old self.new name.now text.now) }
        ensures kept { IfErr result (λ _. self.new ≡ self.old) };
}

/// Reads all bytes that a reader has left.
fn all_of<R: Read + Drop>(alloc: Global, reader: R) -> io::Result<Vec<u8>>
    ensures { IfOk result (λ bytes. IfSome (R.remaining reader) (λ left. bytes.items ≡ left)) }
{
    let mut reader = reader;
    let mut bytes = Vec::new(alloc);
    reader.read_to_end(&mut bytes)?;
    Ok(bytes)
}

/// The files of the system, by their paths, and standard input, by the name `-`.
#[derive(Drop)]
pub(crate) struct SystemInputs<'a, R> {
    pub rt: &'a R,
}

impl<'a, R: Files + Input> Sources for SystemInputs<'a, R> {
    // No contract can say what a file or standard input holds, or when it can't be read.
    ghost gives = { λ _ _ _. ⊤ };

    ghost fails = { λ _ _. ⊤ };

    fn read(&self, alloc: Global, name: &str) -> io::Result<Vec<u8>> {
        if name == "-" {
            return all_of(alloc, self.rt.reader());
        }
        all_of(alloc, File::open(self.rt, name)?)
    }
}

impl<'a, R: Files + Input> Replaceable for SystemInputs<'a, R> {
    ghost puts = { λ _ _ _ _. ⊤ };

    /// Standard input is not replaced: `-` is taken for the path of a file here.
    fn replace(&mut self, alloc: Global, name: &str, text: &str) -> io::Result<()> {
        replace_file(self.rt, alloc, name, text)
    }
}

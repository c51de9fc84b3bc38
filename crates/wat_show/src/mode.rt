//! The modes of `watshow`, and its run.

ghost use Rattle.std.specs.Prelude.{◌≡◌, IsFalse, IfOk};
ghost use Rattle.wat_show.specs.Modes.{mode_of, ModeShows, ShownText};
ghost use Rattle.wat_show.specs.Run.{Runs};

use crate::error::RunError;
use crate::input::read_all;
use crate::output::write_all_of;
use crate::refusal::refused;
use crate::value::show_value;
use crate::watched::Watched;
use bumpalo::Bump;
use std::alloc::{AllocError, Global};
use std::io::{Read, Write};
use wat_core::Module;
use wat_expr::{Expression, FoldedInstruction};
use wat_tokens::{Error, Fault, Span};
use wat_types::FunctionType;

/// The type that the input is parsed as.
#[derive(Clone, Copy, Debug, PartialEq, Eq)]
pub enum Mode {
    /// A function type.
    FuncType,
    /// An expression.
    Expr,
    /// One folded instruction of any kind.
    Folded,
    /// A module in parentheses.
    Module,
}

impl Mode {
    /// Returns the mode that a word names: `functype`, `expr`, `folded` or `module`. Returns `None`
    /// for any other word.
    pub fn of(word: &str) -> Option<Mode>
        ensures { result ≡ mode_of word.now }
    {
        match word {
            "functype" => Some(Mode::FuncType),
            "expr" => Some(Mode::Expr),
            "folded" => Some(Mode::Folded),
            "module" => Some(Mode::Module),
            _ => None,
        }
    }

    /// Returns the whole output for the input `bytes`, and the exit status.
    ///
    /// If the input is a value of the mode, the output is its listing, and the status 0. Otherwise
    /// the output is the line `refused NAME at OFFSET`, and the status 1: `NAME` is the error's
    /// name, and `OFFSET` its position in bytes. Bytes that aren't UTF-8 are `Utf8` at 0. The only
    /// error is out of memory.
    pub fn show(self, alloc: Global, bytes: &[u8]) -> Result<(Vec<u8>, u8), AllocError>
        ensures { IfOk result (λ made. ModeShows self bytes.now made.0.items made.1) }
    {
        let text = match str::from_utf8(bytes) {
            Ok(text) => text,
            Err(_) => {
                let error = Error::at(Fault::Utf8, Span::from_offset(0));
                return refused(alloc, error);
            }
        };
        show_in(self, alloc, text)
    }
}

/// Returns the whole output for a text in a mode, and the exit status.
fn show_in(mode: Mode, alloc: Global, text: &str) -> Result<(Vec<u8>, u8), AllocError>
    ensures { IfOk result (λ made. ShownText mode text.now made.0.items made.1) }
{
    let arena = Bump::new(alloc);
    match mode {
        Mode::FuncType => show_value::<FunctionType>(alloc, text, &arena),
        Mode::Expr => show_value::<Expression>(alloc, text, &arena),
        Mode::Folded => show_value::<FoldedInstruction>(alloc, text, &arena),
        Mode::Module => show_value::<Module>(alloc, text, &arena),
    }
}

/// Reads all input, makes the whole output (see [`Mode::show`]), and then writes it. Returns the
/// exit status: 0 if the input is a value of the mode, else 1. The writer isn't flushed.
///
/// If the error is [`RunError::Write`], a prefix of the output is written. For any other error
/// nothing is written.
pub fn run<R: Read, W: Write>(
    alloc: Global,
    mode: Mode,
    reader: &mut Watched<R>,
    writer: &mut Watched<W>,
) -> Result<u8, RunError>
    requires reader_works { IsFalse reader.old.failed }
    requires writer_works { IsFalse writer.old.failed }
    ensures { Runs R.remaining W.contents (ModeShows mode) result reader.old reader.new writer.old
        writer.new }
{
    let bytes = read_all(alloc, reader)?;
    let (out, status) = mode.show(alloc, &bytes)?;
    write_all_of(writer, &out)?;
    Ok(status)
}

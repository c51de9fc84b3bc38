//! The parts of a module that can be printed.

ghost use Rattle.wat_tokens.specs.Production.{Production};
ghost use Rattle.wat_print.specs.Printed.{Printing, Written};

use wat_print::{Output, Print, Refused};

/// A type of parts of a module. A printed value parses back to the same value.
///
/// This trait has the methods and clauses of [`Print`]. [`Print`] and the types belong to other
/// crates, so this crate can't implement [`Print`] for the types. If each [`ModulePart`]
/// implemented [`Print`] instead, generic code would need a bound for every lifetime. The prover
/// can't state such a bound.
pub trait PrintPart {
    /// The view of a value in contracts, as in its `Parse`.
    ghost View: { Type 0 };

    /// The view of a value, as in its `Parse`.
    ghost view: { Self → View };

    /// The tokens that spell a value: the grammar of its `Parse`.
    ghost grammar: { Production View };

    /// The tokens that are written for a value, and the values that can be written.
    ghost printing: { Printing grammar };

    /// Writes the tokens of the value.
    ///
    /// For a value that can't be written it fails with the first reason that it meets; for any
    /// other value it fails only with Memory. The tokens written before an error stay written.
    fn write(&self, out: &mut Output) -> Result<(), Refused>
        ensures { Written printing (view self.now) result out.old out.new };
}

/// A value in the form that [`wat_print::print`] accepts.
#[derive(Clone, Copy)]
pub struct ModulePart<'a, T>(pub &'a T);

impl<T: PrintPart> Print for ModulePart<'_, T> {
    ghost View = { T.View };

    ghost view = { λ p. T.view p.0.now };

    ghost grammar = { T.grammar };

    ghost printing = { T.printing };

    fn write(&self, out: &mut Output) -> Result<(), Refused> {
        self.0.write(out)
    }
}

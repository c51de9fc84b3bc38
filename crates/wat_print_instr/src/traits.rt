//! The values that are printed on one line.

ghost use Rattle.std.specs.Prelude.{map};
ghost use Rattle.wat_print_instr.specs.Prelude.{Production, any, many_form, Printing, Printed, exactly};

use wat_print::{Output, Print, Refused};

/// A type whose values are written on one line. A printed value parses back to the same value.
///
/// Its clause is stronger than the clause of [`Print`], which allows line breaks between tokens: it
/// gives the exact tokens that are written for a value.
pub trait PrintCode {
    /// The view of a value in contracts.
    ghost View: { Type 0 };

    /// The view of a value.
    ghost view: { Self → View };

    /// The tokens that spell a value: the grammar that parses it.
    ghost grammar: { Production View };

    /// The tokens that are written for a value, and the values that can be written.
    ghost printing: { Printing grammar };

    /// Writes the tokens of the value.
    ///
    /// For a value that can't be written it fails with the first reason that it meets; for any
    /// other value it fails only with Memory. The tokens written before an error stay written.
    fn write(&self, out: &mut Output) -> Result<(), Refused>
        ensures { Printed (exactly printing) (view self.now) result out.old out.new };
}

/// A value in the form that [`wat_print::print`] accepts.
#[derive(Clone, Copy)]
pub struct Code<'a, T>(pub &'a T);

impl<T: PrintCode> Print for Code<'_, T> {
    ghost View = { T.View };

    ghost view = { λ c. T.view c.0.now };

    ghost grammar = { T.grammar };

    ghost printing = { T.printing };

    #[tactic(auto, using(wat_print::specs::Laws::Written::puts_put))]
    fn write(&self, out: &mut Output) -> Result<(), Refused> {
        self.0.write(out)
    }
}

/// Writes values in order. It fails with the first error of a value.
#[tactic(auto, using(crate::proofs::Walked::value_more))]
pub fn write_each<T: PrintCode>(out: &mut Output, values: &[T]) -> Result<(), Refused>
    ensures { Printed (many_form any (exactly T.printing)) (map T.view values.now) result out.old
        out.new }
{
    for value in values {
        value.write(out)?;
    }
    Ok(())
}

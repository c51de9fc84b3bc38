//! How integers are printed.

ghost use Rattle.std.specs.Prelude.{List, ℕ};
ghost use Rattle.wat_types.specs.Prelude.{is_integer, integer};
ghost use Rattle.wat_lexer.specs.Integer.{text_of};
ghost use Rattle.wat_print.specs.Integer.{spell_integer};
ghost use Rattle.wat_print.specs.Printed.{printing_of};
ghost use Rattle.wat_print.specs.Laws.Integer.{integer_here, integer_only, integer_well_formed};

use crate::fault::Refused;
use crate::output::Output;
use crate::traits::Print;
use wat_tokens::Integer;

/// An integer is printed with the text that was read: its sign, its `0x` and its underscores stay
/// (Text Format, Values, "Integers").
impl Print for Integer<'_> {
    ghost View = { List ℕ };

    ghost view = { text_of };

    ghost grammar = { integer };

    ghost printing = { printing_of spell_integer is_integer integer_well_formed (λ v h. integer_here
        v) integer_only };

    #[tactic(auto, using(crate::specs::Laws::Written::puts_put))]
    fn write(&self, out: &mut Output) -> Result<(), Refused> {
        let text = self.text();
        if Integer::of(text).is_none() {
            return Err(Refused::Integer);
        }
        out.integer(text)
    }
}

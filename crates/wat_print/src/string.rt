//! How strings are printed.

ghost use Rattle.std.specs.Prelude.{◌≡◌, List, ℕ, OnOk, true, IfErr, refl};
ghost use Rattle.wat_print.specs.Laws.Prelude.{string, text, printing_by, printable_string, string_form, text_form, put, string_prints, text_prints};
ghost use Rattle.wat_print.specs.declared.fault.Refused.TheVariants.{Memory};

use crate::fault::Refused;
use crate::output::Output;
use crate::traits::Print;

/// Writes a string of bytes (Text Format, "Strings").
pub fn write_string(out: &mut Output, content: &[u8]) -> Result<(), Refused>
    ensures written { OnOk result (out.new ≡ put out.old (string_form.spell content.now)) }
    ensures printable { printable_string content.now ≡ true }
    ensures refused { IfErr result (λ e. e ≡ Memory) }
{
    out.string(content)
}

impl Print for &[u8] {
    ghost View = { List ℕ };

    ghost view = { λ s. s.now };

    ghost grammar = { string };

    ghost printing = { printing_by string_form string_prints (λ s h. h) refl refl };

    #[tactic(auto, using(crate::specs::Laws::Written::puts_put))]
    fn write(&self, out: &mut Output) -> Result<(), Refused> {
        write_string(out, self)
    }
}

impl Print for &str {
    ghost View = { List ℕ };

    ghost view = { λ s. s.now };

    ghost grammar = { text };

    ghost printing = { printing_by text_form text_prints (λ s h. h) refl refl };

    #[tactic(auto, using(crate::specs::Laws::Written::puts_put))]
    fn write(&self, out: &mut Output) -> Result<(), Refused> {
        out.text(self)
    }
}

//! How values are printed as texts.

ghost use Rattle.std.specs.Prelude.{string_bytes, ◌≡◌, ◌≢◌, true, IfOk, IfErr};
ghost use Rattle.wat_print.specs.Prelude.{TextSpells, NoneSpells, printed_text};
ghost use Rattle.wat_print.specs.declared.fault.Refused.TheVariants.{Memory};
ghost use Rattle.wat_print.specs.declared.output.Layout.TheVariants.{Line};

use crate::fault::Refused;
use crate::output::{Layout, Output};
use crate::traits::Print;
use std::alloc::Global;

/// Returns the text of the value in the layout.
///
/// The tokens of the text spell the value. So [`read_text`](wat_tokens::whole_text::read_text) with
/// the standard annotations known reads the text as this value, or runs out of memory.
///
/// A value that no text spells is refused with the first reason that is met. If memory runs out,
/// the error is Memory.
pub fn print<T: Print>(alloc: Global, value: &T, layout: Layout) -> Result<String, Refused>
    ensures reads_back { IfOk result (λ s. TextSpells true T.grammar (string_bytes s)
        (T.view value.now)) }
    // On one line, the text is the text of the tokens that `spell` has for the value's view.
    ensures line { IfOk result (λ s. layout ≡ Line
        → string_bytes s ≡ printed_text (T.printing.spell (T.view value.now))) }
    ensures refused { IfErr result (λ e. e ≢ Memory → NoneSpells T.grammar (T.view value.now)) }
{
    let mut out = Output::new(alloc, layout);
    value.write(&mut out)?;
    Ok(out.into_text())
}

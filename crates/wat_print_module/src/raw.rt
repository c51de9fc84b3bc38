//! Printing of custom sections with any name.

ghost use Rattle.std.specs.Prelude.{◌≡◌, IfErr, map, refl};
ghost use Rattle.wat_print_instr.specs.Prelude.{paren, paren_form, printing_by, Printed, Memory};
ghost use Rattle.wat_links.specs.Raw.{RawCustomSectionModel, raw_view, raw_custom};
ghost use Rattle.wat_print_module.specs.Custom.{pieces_form, raw_form};
ghost use Rattle.wat_print_module.specs.Laws.Custom.{raw_prints};

use crate::custom_place::write_place_group;
use crate::traits::PrintPart;
use wat_links::RawCustomSection;
use wat_print::string::write_string;
use wat_print::{Output, Refused};

/// Writes strings of bytes in order.
#[tactic(auto, using(crate::proofs::Grouped::in_a_loop))]
pub fn write_pieces(out: &mut Output, pieces: &[&[u8]]) -> Result<(), Refused>
    ensures printed { Printed pieces_form (map (λ s. s.now) pieces.now) result out.old out.new }
    ensures refused { IfErr result (λ e. e ≡ Memory) }
{
    for piece in pieces {
        write_string(out, piece)?;
    }
    Ok(())
}

/// Writes a custom section with any name, without its parentheses (Text Format, "Custom
/// Annotation"). The place is omitted if the section comes after the last section.
#[tactic(auto, using(wat_print::specs::Laws::Written::put_both))]
pub fn write_raw(out: &mut Output, section: &RawCustomSection) -> Result<(), Refused>
    ensures printed { Printed raw_form (raw_view section.now) result out.old out.new }
    ensures refused { IfErr result (λ e. e ≡ Memory) }
{
    out.annotation("custom")?;
    out.text(section.name)?;
    write_place_group(out, section.place)?;
    write_pieces(out, &section.data)
}

/// Printed with its parentheses, since an annotation follows a `(`.
impl PrintPart for RawCustomSection<'_> {
    ghost View = { RawCustomSectionModel };

    ghost view = { raw_view };

    ghost grammar = { paren raw_custom };

    ghost printing = { printing_by (paren_form raw_form) raw_prints (λ v h. h) refl refl };

    #[tactic(auto, using(crate::proofs::Grouped::on_one_line))]
    fn write(&self, out: &mut Output) -> Result<(), Refused> {
        out.open()?;
        write_raw(out, self)?;
        out.close()
    }
}

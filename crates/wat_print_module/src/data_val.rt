//! Printing of the values of data segments.

ghost use Rattle.std.specs.Prelude.{◌≡◌, IfErr, refl};
ghost use Rattle.wat_print_instr.specs.Prelude.{printing_by, Printed, Memory};
ghost use Rattle.wat_fields.specs.DataVal.{DataValModel, data_val_view, data_vals_view, data_val};
ghost use Rattle.wat_print_module.specs.DataVal.{bytes_form, data_val_form, data_vals_form};
ghost use Rattle.wat_print_module.specs.Laws.DataVal.{data_val_prints};

use crate::traits::PrintPart;
use wat_fields::DataVal;
use wat_print::string::write_string;
use wat_print::{Output, Refused};

/// Writes each byte as a number.
#[tactic(auto, using(crate::proofs::Grouped::in_a_loop))]
fn write_bytes(out: &mut Output, bytes: &[u8]) -> Result<(), Refused>
    ensures printed { Printed bytes_form bytes.now result out.old out.new }
    ensures refused { IfErr result (λ e. e ≡ Memory) }
{
    for byte in bytes {
        out.number(u64::from(*byte))?;
    }
    Ok(())
}

/// Writes a value of a data segment (Text Format, Modules, "Data Segments", with the numbers of the
/// proposal "Numeric Values in WAT Data Segments"): a string, or `( i8 number* )` with each byte of
/// the numbers in decimal digits.
#[tactic(auto, using(wat_print::specs::Laws::Written::put_both))]
pub fn write_data_val(out: &mut Output, value: &DataVal) -> Result<(), Refused>
    ensures printed { Printed data_val_form (data_val_view value.now) result out.old out.new }
    ensures refused { IfErr result (λ e. e ≡ Memory) }
{
    match value {
        DataVal::String(bytes) => write_string(out, bytes),
        DataVal::Integral(bytes) => {
            out.open()?;
            out.word("i8")?;
            write_bytes(out, bytes)?;
            out.close()
        }
    }
}

/// Writes the values of a data segment in order.
#[tactic(auto, using(crate::proofs::Grouped::in_a_loop))]
pub fn write_data_vals(out: &mut Output, values: &[DataVal]) -> Result<(), Refused>
    ensures printed { Printed data_vals_form (data_vals_view values.now) result out.old out.new }
    ensures refused { IfErr result (λ e. e ≡ Memory) }
{
    for value in values {
        write_data_val(out, value)?;
    }
    Ok(())
}

impl PrintPart for DataVal<'_> {
    ghost View = { DataValModel };

    ghost view = { data_val_view };

    ghost grammar = { data_val };

    ghost printing = { printing_by data_val_form data_val_prints (λ v h. h) refl refl };

    #[tactic(auto, using(wat_print::specs::Laws::Written::puts_put))]
    fn write(&self, out: &mut Output) -> Result<(), Refused> {
        write_data_val(out, self)
    }
}

//! Adding words and numbers to an output.

ghost use Rattle.std.specs.Prelude.{◌≡◌, ◌++◌, ◌∷◌, [], OnOk, decimal};
ghost use Rattle.std.specs.Fmt.{signed_decimal};
ghost use Rattle.wat_show.specs.Words.{counted};

use std::alloc::AllocError;

/// Adds a text to the output.
#[inline(always)]
pub(crate) fn add(out: &mut Vec<u8>, text: &str) -> Result<(), AllocError>
    ensures { OnOk result (out.new.items ≡ out.old.items ++ text.now) }
{
    out.extend_from_slice(text.as_bytes())
}

/// Adds one byte to the output.
#[inline(always)]
pub(crate) fn add_byte(out: &mut Vec<u8>, byte: u8) -> Result<(), AllocError>
    ensures { OnOk result (out.new.items ≡ out.old.items ++ byte ∷ []) }
{
    out.push(byte)?;
    Ok(())
}

/// Adds a number in decimal digits.
pub(crate) fn add_number(out: &mut Vec<u8>, number: usize) -> Result<(), AllocError>
    ensures { OnOk result (out.new.items ≡ out.old.items ++ decimal number) }
{
    if number >= 10 {
        add_number(out, number / 10)?;
    }
    out.push(b'0' + (number % 10) as u8)?;
    Ok(())
}

/// Adds a number with its sign, in decimal digits.
pub(crate) fn add_signed(out: &mut Vec<u8>, number: i64) -> Result<(), AllocError>
    ensures { OnOk result (out.new.items ≡ out.old.items ++ signed_decimal number) }
{
    if number >= 0 {
        return add_number(out, number as usize);
    }
    let digits = format!(in *out.allocator(); "{number}")?;
    add(out, digits.as_str())
}

/// Adds a number of any size in decimal digits.
fn add_large(out: &mut Vec<u8>, number: u128) -> Result<(), AllocError>
    ensures { OnOk result (out.new.items ≡ out.old.items ++ decimal number) }
{
    if number < 0x1_0000_0000_0000_0000 {
        return add_number(out, number as usize);
    }
    let digits = format!(in *out.allocator(); "{number}")?;
    add(out, digits.as_str())
}

/// Adds a line: words and a number in decimal digits.
pub(crate) fn add_counted(out: &mut Vec<u8>, words: &str, number: u128) -> Result<(), AllocError>
    ensures { OnOk result (out.new.items ≡ out.old.items ++ counted words.now number) }
{
    add(out, words)?;
    add_large(out, number)?;
    add(out, "\n")
}

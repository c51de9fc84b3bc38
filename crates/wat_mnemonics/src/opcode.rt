//! Opcodes.

ghost use Rattle.std.specs.Prelude.{Some};
ghost use Rattle.wat_mnemonics.specs.Opcodes.{bytes, Appends};

use wat_tokens::Result;

/// The opcode of an instruction without an operand (WebAssembly Core Specification 2.0, "Index of
/// Instructions").
#[derive(Clone, Copy, Debug, PartialEq, Eq)]
pub enum Opcode {
    /// No opcode: the instruction has an operand, or isn't in Core Specification 2.0.
    Absent,
    /// One byte.
    Single(u8),
    /// The byte FC, and then this number in one byte.
    Saturating(u8),
    /// The byte FD, and then this number in unsigned LEB128.
    Vector(u8),
}

impl Opcode {
    /// Appends the bytes of the opcode to `out` and returns their number. For `Absent`, appends
    /// nothing and returns None.
    ///
    /// Returns Memory if `out` can't grow, and then leaves `out` unchanged. `Absent` never fails.
    pub fn write(self, out: &mut Vec<u8>) -> Result<Option<usize>>
        ensures { Appends (bytes self) out.old.items out.new.items result }
    {
        match self {
            Opcode::Absent => Ok(None),
            Opcode::Single(byte) => append(&[byte], out),
            Opcode::Saturating(number) => append(&[0xfc, number], out),
            Opcode::Vector(number) => {
                if number < 128 {
                    append(&[0xfd, number], out)
                } else {
                    append(&[0xfd, number, 1], out)
                }
            }
        }
    }
}

/// Appends the bytes and returns their number.
fn append(bytes: &[u8], out: &mut Vec<u8>) -> Result<Option<usize>>
    ensures { Appends (Some bytes.now) out.old.items out.new.items result }
{
    out.extend_from_slice(bytes)?;
    Ok(Some(bytes.len()))
}

//! How many instructions have an opcode, by the number of its bytes.

use crate::refused::read;
use bumpalo::Bump;
use std::alloc::Global;
use std::test::Fail;
use wat_core::wat_mnemonics::table::OPS;
use wat_core::{Error, Instruction};

/// Appends the opcode of the instruction that a mnemonic alone spells, and returns the number of
/// its bytes. Returns 0 if the instruction has no opcode, or if the mnemonic needs an operand.
fn add_opcode(alloc: Global, mnemonic: &str, out: &mut Vec<u8>) -> Result<usize, Error> {
    let arena = Bump::new(alloc);
    match read::<Instruction>(alloc, mnemonic, &arena) {
        Ok(instruction) => Ok(instruction.write_opcode(out)?.unwrap_or(0)),
        Err(_) => Ok(0),
    }
}

// Of the 339 instructions with an opcode, 133 have one byte, 8 have FC and another byte, 90 have FD
// and another byte, and 108 have FD and two more bytes.
#[test]
fn opcodes_are_counted(rt: HostRuntime) -> Result<(), Fail> {
    let mut bytes = Vec::new(rt.alloc());
    let mut counts: [usize; 4] = [0; 4];
    for op in &OPS {
        let length = add_opcode(rt.alloc(), op.word(), &mut bytes)?;
        if let Some(count) = counts.get_mut(length) {
            *count = count.saturating_add(1);
        }
    }
    assert_eq!(rt; counts, [284, 133, 98, 108]);
    assert_eq!(rt; bytes.len(), 133 + 2 * 98 + 3 * 108);
    Ok(())
}

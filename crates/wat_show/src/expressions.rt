//! The listing of instructions and expressions. The only error is out of memory.

ghost use Rattle.std.specs.Prelude.{◌≡◌, ◌++◌, ◌∷◌, [], List, ℕ, None, OnOk, IfOk, length, map, get_or};
ghost use Rattle.wat_show.specs.Prelude.{hint_view, expression_view, op_in, operand_in, instruction_view};
ghost use Rattle.wat_show.specs.Expressions.{shown_operand, instr_text, AreMarks, lines, hint_at, line, lines_of, hint_text, expression_text, below};

use crate::types::add_index;
use crate::words::{add, add_byte, add_number, add_signed};
use std::alloc::{AllocError, Global};
use wat_expr::{BranchHint, Expression};
use wat_instr::Instruction;

/// Adds a space and the operand, if the operand is an index, an i32 or an i64.
#[inline(always)]
fn add_operand(out: &mut Vec<u8>, instr: &Instruction) -> Result<(), AllocError>
    ensures { OnOk result (out.new.items ≡ out.old.items ++ shown_operand (op_in instr.now)
        (operand_in instr.now)) }
{
    match instr {
        Instruction::Indexed(_, index) => {
            add_byte(out, b' ')?;
            add_index(out, index)
        }
        Instruction::i32_const(number) => {
            add_byte(out, b' ')?;
            add_signed(out, i64::from(*number))
        }
        Instruction::i64_const(number) => {
            add_byte(out, b' ')?;
            add_signed(out, *number)
        }
        _ => Ok(()),
    }
}

/// Appends the mnemonic of an instruction. If the operand is an index, an i32 or an i64, appends a
/// space and the operand too.
#[inline(always)]
pub fn add_instruction(out: &mut Vec<u8>, instr: &Instruction) -> Result<(), AllocError>
    ensures { OnOk result (out.new.items ≡ out.old.items ++ instr_text
        (instruction_view instr.now)) }
{
    add(out, instr.mnemonic())?;
    add_operand(out, instr)
}

/// Records a hint at its index, unless a hint is already recorded there.
fn mark(marks: &mut Vec<Option<u32>>, hint: &BranchHint)
    ensures count { length marks.new.items ≡ length marks.old.items }
    ensures marks { (hints : List (ℕ × ℕ)) → AreMarks hints marks.old.items
        → AreMarks (hints ++ hint_view hint.now ∷ []) marks.new.items }
{
    let index = hint.instr_index;
    if index >= marks.len() {
        return;
    }
    if marks[index].is_some() {
        return;
    }
    marks[index] = Some(hint.value);
}

/// Returns, for each index below `count`, the value of the first hint for this index.
pub(crate) fn marks_of(
    alloc: Global,
    count: usize,
    hints: &[BranchHint],
) -> Result<Vec<Option<u32>>, AllocError>
    ensures count { IfOk result (λ marks. length marks.items ≡ count) }
    ensures marks { IfOk result (λ marks. AreMarks (map hint_view hints.now) marks.items) }
{
    let mut marks = vec![in alloc; None; count]?;
    for hint in hints {
        mark(&mut marks, hint);
    }
    Ok(marks)
}

#[inline(always)]
fn add_hint(out: &mut Vec<u8>, hint: Option<u32>) -> Result<(), AllocError>
    ensures { OnOk result (out.new.items ≡ out.old.items ++ hint_text hint) }
{
    match hint {
        None => Ok(()),
        Some(value) => {
            add(out, " hint ")?;
            add_number(out, value as usize)
        }
    }
}

/// Adds a line: a prefix, an instruction and its hint.
#[inline(always)]
fn add_line(
    out: &mut Vec<u8>,
    front: &str,
    instr: &Instruction,
    hint: Option<u32>,
) -> Result<(), AllocError>
    ensures { OnOk result (out.new.items ≡ out.old.items ++ line front.now
        (instruction_view instr.now) hint) }
{
    add(out, front)?;
    add_instruction(out, instr)?;
    add_hint(out, hint)?;
    add_byte(out, b'\n')
}

/// Adds instructions, each on a line after the prefix and with the hint recorded for its index.
fn add_lines(
    out: &mut Vec<u8>,
    front: &str,
    instrs: &[Instruction],
    marks: &[Option<u32>],
) -> Result<(), AllocError>
    requires { length marks.now ≡ length instrs.now }
    ensures { OnOk result (out.new.items ≡ out.old.items ++ lines front.now
        (λ k. get_or marks.now k None) 0 (map instruction_view instrs.now)) }
{
    for (index, instr) in instrs.iter().enumerate() {
        add_line(out, front, instr, marks[index])?;
    }
    Ok(())
}

/// Adds instructions without hints, each on a line after the prefix.
#[inline(always)]
fn add_plain_lines(out: &mut Vec<u8>, front: &str, instrs: &[Instruction]) -> Result<(), AllocError>
    ensures { OnOk result (out.new.items ≡ out.old.items ++ lines front.now (hint_at []) 0
        (map instruction_view instrs.now)) }
{
    for instr in instrs {
        add_line(out, front, instr, None)?;
    }
    Ok(())
}

/// Adds the instructions of an expression, each on a line after the prefix and with the first hint
/// for its index.
#[inline(always)]
fn add_lines_of(out: &mut Vec<u8>, front: &str, expression: &Expression) -> Result<(), AllocError>
    ensures { OnOk result (out.new.items ≡ out.old.items ++ lines_of front.now
        (expression_view expression.now)) }
{
    if expression.branch_hints.is_empty() {
        return add_plain_lines(out, front, &expression.instrs);
    }
    let marks = marks_of(
        *out.allocator(),
        expression.instrs.len(),
        &expression.branch_hints,
    )?;
    add_lines(out, front, &expression.instrs, &marks)
}

/// Appends the instructions of an expression, each on a line and with the first hint for its
/// index.
pub fn add_expression(out: &mut Vec<u8>, expression: &Expression) -> Result<(), AllocError>
    ensures { OnOk result (out.new.items ≡ out.old.items ++ expression_text
        (expression_view expression.now)) }
{
    add_lines_of(out, "", expression)
}

/// Appends the lines of an expression, each indented by two spaces.
pub fn add_below(out: &mut Vec<u8>, expression: &Expression) -> Result<(), AllocError>
    ensures { OnOk result (out.new.items ≡ out.old.items ++ below
        (expression_view expression.now)) }
{
    add_lines_of(out, "  ", expression)
}

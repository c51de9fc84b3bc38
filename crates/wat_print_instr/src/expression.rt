//! Printing of expressions.

ghost use Rattle.std.specs.Prelude.{string_bytes, ◌≡◌, ◌≢◌, ◌&&◌, [], OnOk, IfOk, IfErr, true, false, map};
ghost use Rattle.wat_print_instr.specs.Prelude.{instruction_view, expression_view, hint_view, expression, Writes, spell_option, if_some, NoneSpells, put, printed_text, Memory, Line, step_of, spell_hint, spell_step, printable_step, hint_for, hints_after, spell_expression, printable_expression};
ghost use Rattle.wat_print_instr.specs.ExpressionForm.{printable_hint};
ghost use Rattle.wat_tokens.specs.Whole.{TextSpells};

use crate::traits::PrintCode;
use bumpalo::Bump;
use std::alloc::Global;
use wat_expr::{BranchHint, Expression};
use wat_instr::Instruction;
use wat_mnemonics::{IndexedOp, LabelOp, Op, ScalarOp};
use wat_print::{Layout, Output, Refused};
use wat_tokens::Fault;
use wat_tokens::whole_text::read_text;

/// Writes a hint: an annotation with a string of one byte.
fn write_value(out: &mut Output, value: u8) -> Result<(), Refused>
    ensures written { OnOk result (out.new ≡ put out.old (spell_hint value)) }
    ensures refused { IfErr result (λ e. e ≡ Memory) }
{
    out.open()?;
    out.annotation("metadata.code.branch_hint")?;
    out.string(&[value])?;
    out.close()
}

/// Writes the hint of an instruction, if there is one. It fails with Hint if the hint is neither 0
/// nor 1, or the instruction is neither `br_if` nor `if`.
fn write_hint(out: &mut Output, hint: Option<u32>, instr: &Instruction) -> Result<(), Refused>
    ensures written { OnOk result (out.new ≡ put out.old (spell_option spell_hint hint)) }
    ensures printable { OnOk result
        (if_some (printable_hint (instruction_view instr.now)) hint ≡ true) }
    ensures refused { IfErr result (λ e. e ≢ Memory
        → if_some (printable_hint (instruction_view instr.now)) hint ≡ false) }
{
    match hint {
        None => Ok(()),
        Some(value) if value < 2 && (instr.is_br_if() || instr.is_if()) => {
            write_value(out, value as u8)
        }
        Some(_) => Err(Refused::Hint),
    }
}

/// Whether the instruction ends a part of a block: `else` and `end`, and the instructions `catch`,
/// `catch_all` and `delegate` of the legacy exceptions.
fn ends_part(op: Op) -> bool {
    match op {
        Op::Label(_) => true,
        Op::Scalar(op) => matches!(op, ScalarOp::catch_all),
        Op::Indexed(op) => matches!(op, IndexedOp::catch | IndexedOp::delegate),
        _ => false,
    }
}

/// Whether a part of a block follows the instruction.
fn begins_part(op: Op) -> bool {
    match op {
        Op::Block(_) => true,
        Op::try_table => true,
        Op::Label(op) => matches!(op, LabelOp::else_),
        Op::Scalar(op) => matches!(op, ScalarOp::catch_all),
        Op::Indexed(op) => matches!(op, IndexedOp::catch),
        _ => false,
    }
}

/// Breaks the line before an instruction if `on_lines`. An instruction that ends a part of a block
/// is indented like the block.
#[tactic(auto, using(crate::proofs::Walked::line_or_nothing))]
fn begin_step(out: &mut Output, op: Op, on_lines: bool) -> Result<(), Refused>
    ensures written { OnOk result (Writes [] out.old out.new) }
    ensures refused { IfErr result (λ e. e ≡ Memory) }
{
    if !on_lines {
        return Ok(());
    }
    if ends_part(op) {
        out.leave();
    }
    out.line()
}

/// Indents the following instructions if a part of a block follows the instruction.
fn end_step(out: &mut Output, op: Op)
    ensures { out.new ≡ out.old }
{
    if begins_part(op) {
        out.enter();
    }
}

/// Writes an instruction after its hint, on a separate line if `on_lines`. The instructions inside
/// a block are indented by two spaces more than the block.
fn write_step(
    out: &mut Output,
    hint: Option<u32>,
    instr: &Instruction,
    on_lines: bool,
) -> Result<(), Refused>
    ensures written { OnOk result
        (Writes (spell_step (step_of hint (instruction_view instr.now))) out.old out.new) }
    ensures printable { OnOk result
        (printable_step (step_of hint (instruction_view instr.now)) ≡ true) }
    ensures refused { IfErr result (λ e. e ≢ Memory
        → printable_step (step_of hint (instruction_view instr.now)) ≡ false) }
{
    let op = instr.op();
    begin_step(out, op, on_lines)?;
    write_hint(out, hint, instr)?;
    instr.write(out)?;
    end_step(out, op);
    Ok(())
}

/// Returns the hint of the instruction at the index, and the hints of the instructions after it.
/// The hint is None unless the first of the hints has the index.
fn first_hint<'b>(hints: &'b [BranchHint], index: usize) -> (Option<u32>, &'b [BranchHint])
    ensures hint { result.0 ≡ hint_for index (map hint_view hints.now) }
    ensures rest { map hint_view result.1.now ≡ hints_after index (map hint_view hints.now) }
{
    if hints.is_empty() || hints[0].instr_index != index {
        return (None, hints);
    }
    (Some(hints[0].value), &hints[1..])
}

/// Writes instructions, each after its hint, and on a separate line if `on_lines`. It fails as
/// [`write_expression`] does.
fn write_steps(
    out: &mut Output,
    instrs: &[Instruction],
    hints: &[BranchHint],
    on_lines: bool,
) -> Result<(), Refused>
    ensures written { OnOk result (Writes (spell_expression (record {
      instrs = map instruction_view instrs.now;
      hints = map hint_view hints.now;
    })) out.old out.new) }
    ensures printable { OnOk result (printable_expression (record {
      instrs = map instruction_view instrs.now;
      hints = map hint_view hints.now;
    }) ≡ true) }
    ensures refused { IfErr result (λ e. e ≢ Memory → printable_expression (record {
      instrs = map instruction_view instrs.now;
      hints = map hint_view hints.now;
    }) ≡ false) }
{
    let mut left = hints;
    for index in 0..instrs.len() {
        let (hint, behind) = first_hint(left, index);
        write_step(out, hint, &instrs[index], on_lines)?;
        left = behind;
    }
    if !left.is_empty() {
        return Err(Refused::Hint);
    }
    Ok(())
}

/// Writes the instructions of an expression (Text Format, Instructions, "Expressions"). Each
/// instruction follows its hint, on a separate line if the layout has lines.
///
/// It fails with Hint in these cases:
/// - a hint is neither 0 nor 1;
/// - the instruction of a hint is neither `br_if` nor `if`;
/// - a hint has an index that no instruction has;
/// - the indices of the hints don't increase.
pub fn write_expression(out: &mut Output, value: &Expression) -> Result<(), Refused>
    ensures written { OnOk result
        (Writes (spell_expression (expression_view value.now)) out.old out.new) }
    ensures printable { OnOk result (printable_expression (expression_view value.now) ≡ true) }
    ensures refused { IfErr result (λ e. e ≢ Memory
        → printable_expression (expression_view value.now) ≡ false) }
{
    write_steps(out, &value.instrs, &value.branch_hints, true)?;
    out.leave_all();
    Ok(())
}

/// Writes an expression as [`write_expression`] does. A single instruction, the usual form of a
/// constant expression, stays on the current line.
pub fn write_constant(out: &mut Output, value: &Expression) -> Result<(), Refused>
    ensures written { OnOk result
        (Writes (spell_expression (expression_view value.now)) out.old out.new) }
    ensures printable { OnOk result (printable_expression (expression_view value.now) ≡ true) }
    ensures refused { IfErr result (λ e. e ≢ Memory
        → printable_expression (expression_view value.now) ≡ false) }
{
    let on_lines = value.instrs.len() != 1;
    write_steps(out, &value.instrs, &value.branch_hints, on_lines)?;
    out.leave_all();
    Ok(())
}

/// Returns the text of an expression in the layout. No instruction is folded.
///
/// The tokens of the text spell the expression. If no text spells the expression, it fails with the
/// first reason that it meets. If memory runs out, it fails with Memory.
pub fn print_expression(
    alloc: Global,
    value: &Expression,
    layout: Layout,
) -> Result<String, Refused>
    ensures reads_back { IfOk result (λ s. TextSpells true expression (string_bytes s)
        (expression_view value.now)) }
    ensures line { IfOk result (λ s. layout ≡ Line
        → string_bytes s ≡ printed_text (spell_expression (expression_view value.now))) }
    ensures refused { IfErr result (λ e. e ≢ Memory
        → NoneSpells expression (expression_view value.now)) }
{
    let mut out = Output::new(alloc, layout);
    write_expression(&mut out, value)?;
    Ok(out.into_text())
}

/// Prints an expression in the layout and reads the text again. The returned expression is the
/// same, spans aside. The text and the returned expression are in the arena.
///
/// It fails as [`print_expression`] does, and with Memory if memory runs out. The reader never
/// refuses the printed text for another reason.
pub fn expression_read_again<'a>(
    alloc: Global,
    value: &Expression,
    layout: Layout,
    arena: &'a Bump,
) -> Result<Expression<'a>, Refused>
    ensures same { IfOk result (λ e. expression_view e ≡ expression_view value.now) }
    ensures refused { IfErr result (λ e. e ≢ Memory
        → NoneSpells expression (expression_view value.now)) }
{
    let printed = print_expression(alloc, value, layout)?;
    let text = arena.try_alloc_str(printed.as_str())?;
    match read_text::<Expression>(alloc, text, arena, true) {
        Ok(again) => Ok(again),
        Err(error) => match error.fault {
            Fault::Memory => Err(Refused::Memory),
            // (the text spells the expression, so there is no other fault)
            _ => unreachable!(),
        },
    }
}

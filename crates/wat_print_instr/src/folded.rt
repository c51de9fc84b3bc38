//! Printing of folded instructions.

ghost use Rattle.std.specs.Prelude.{IfSome, MatchOption, ◌≡◌, ◌≢◌, ◌&&◌, [], ◌∷◌, ◌++◌, OnOk, IfErr, Some, None, true, false, is_some, map, refl};
ghost use Rattle.wat_print_instr.specs.Prelude.{instruction_view, ExpressionModel, expression_view, Group, folded_instruction, any, many_form, each, spell_option, Printed, put, Memory, takes_catches, is_catch, op_of, keeps_apart, own_groups, first_apart, catch_first, groups_behind, spell_groups, printable_folded, spell_folded, own_form, printable_instruction};
ghost use Rattle.wat_print.specs.Printed.{printing_at_end};
ghost use Rattle.wat_print_instr.specs.Laws.Folded.{folded_here, folded_well_formed};
ghost use Rattle.wat_print_instr.specs.Laws.FoldedOnly.{folded_only};

use crate::traits::PrintCode;
use wat_expr::{BranchHint, FoldedInstruction};
use wat_instr::Instruction;
use wat_mnemonics::{IndexedOp, Op, ScalarOp};
use wat_print::{Output, Refused};

/// Whether a group directly after the instruction may be a catch clause: only for `try_table`.
fn takes_catches(op: Op) -> bool
    ensures { result ≡ takes_catches op }
{
    matches!(op, Op::try_table)
}

/// Whether the group of the instruction, directly after a `try_table`, is read as a catch clause.
fn is_catch(op: Op) -> bool
    ensures { result ≡ is_catch op }
{
    match op {
        Op::Indexed(op) => matches!(op, IndexedOp::catch),
        Op::Scalar(op) => matches!(op, ScalarOp::catch_all),
        _ => false,
    }
}

/// Whether the group of the instruction can separate a `try_table` from a `catch`.
fn keeps_apart(instr: &Instruction) -> bool
    ensures { result ≡ keeps_apart (instruction_view instr.now) }
{
    let op = instr.op();
    !takes_catches(op) && !is_catch(op)
}

/// Writes an instruction in a separate group.
#[tactic(auto, using(wat_print::specs::Laws::Written::put_both))]
fn write_own(out: &mut Output, instr: &Instruction) -> Result<(), Refused>
    ensures { Printed own_form (instruction_view instr.now) result out.old out.new }
{
    out.open()?;
    instr.write(out)?;
    out.close()
}

/// Writes instructions, each in a separate group.
#[tactic(auto, using(crate::proofs::Walked::value_more))]
fn write_each_own(out: &mut Output, instrs: &[Instruction]) -> Result<(), Refused>
    ensures { Printed (many_form any own_form) (map instruction_view instrs.now) result out.old
        out.new }
{
    for instr in instrs {
        write_own(out, instr)?;
    }
    Ok(())
}

/// Returns the first instruction that keeps apart, between the instructions before and after it.
fn find_apart<'b, 'a>(
    instrs: &'b [Instruction<'a>],
) -> Option<
    (
        &'b [Instruction<'a>],
        &'b Instruction<'a>,
        &'b [Instruction<'a>],
    ),
>
    ensures found { MatchOption result (first_apart [] (map instruction_view instrs.now) ≡ None)
        (λ p. first_apart [] (map instruction_view instrs.now)
        ≡ Some (Group (instruction_view p.1.now) (own_groups (map instruction_view p.0.now))
        (own_groups (map instruction_view p.2.now)))) }
    ensures all { IfSome result (λ p. instrs.now ≡ p.0.now ++ p.1.now ∷ p.2.now) }
{
    for (k, instr) in instrs.iter().enumerate() {
        if keeps_apart(instr) {
            return Some((&instrs[..k], instr, &instrs[k + 1..]));
        }
    }
    None
}

/// Writes the group of the first instruction that keeps apart. The group contains the groups of the
/// instructions before it; the groups of the instructions after it follow. It fails with Folded if
/// no instruction keeps apart.
#[tactic(auto, using(crate::proofs::FoldedWritten::groups_put))]
fn write_apart(out: &mut Output, instrs: &[Instruction]) -> Result<(), Refused>
    ensures written { OnOk result (out.new ≡ put out.old
        (spell_option spell_groups (first_apart [] (map instruction_view instrs.now)))) }
    ensures printable { OnOk result (each printable_instruction (map instruction_view instrs.now)
        && is_some (first_apart [] (map instruction_view instrs.now)) ≡ true) }
    ensures refused { IfErr result (λ e. e ≢ Memory
        → each printable_instruction (map instruction_view instrs.now)
        && is_some (first_apart [] (map instruction_view instrs.now)) ≡ false) }
{
    let Some((before, instr, behind)) = find_apart(instrs) else {
        return Err(Refused::Folded);
    };
    out.open()?;
    instr.write(out)?;
    write_each_own(out, before)?;
    out.close()?;
    write_each_own(out, behind)?;
    Ok(())
}

/// Whether the group of `first`, directly after `last`, is read as a catch clause.
#[tactic(auto, using(wat_mnemonics::specs::Laws::TableIndex::there))]
fn is_taken(last: &Instruction, first: &Instruction) -> bool
    ensures { result ≡ takes_catches (op_of (instruction_view last.now))
        && is_catch (op_of (instruction_view first.now)) }
{
    takes_catches(last.op()) && is_catch(first.op())
}

/// Whether the first group after a `try_table` would be a `catch` or `catch_all`.
fn catch_first(last: &Instruction, instrs: &[Instruction]) -> bool
    ensures { result ≡ catch_first (instruction_view last.now) (map instruction_view instrs.now) }
{
    if instrs.is_empty() {
        return false;
    }
    is_taken(last, &instrs[0])
}

/// Writes the groups of the instructions before `last`, whose group contains them. It fails with
/// Folded if a `catch` or `catch_all` would follow a `try_table`, and no instruction keeps apart.
#[tactic(auto, using(crate::proofs::FoldedWritten::groups_put))]
fn write_behind(out: &mut Output, last: &Instruction, instrs: &[Instruction]) -> Result<(), Refused>
    ensures written { OnOk result (out.new ≡ put out.old (spell_option spell_groups
        (groups_behind (instruction_view last.now) (map instruction_view instrs.now)))) }
    ensures printable { OnOk result (each printable_instruction (map instruction_view instrs.now)
        && is_some (groups_behind (instruction_view last.now) (map instruction_view instrs.now))
        ≡ true) }
    ensures refused { IfErr result (λ e. e ≢ Memory
        → each printable_instruction (map instruction_view instrs.now)
        && is_some (groups_behind (instruction_view last.now) (map instruction_view instrs.now))
        ≡ false) }
{
    if catch_first(last, instrs) {
        return write_apart(out, instrs);
    }
    write_each_own(out, instrs)
}

/// The last instruction comes first in the group, and the groups of the others follow. It fails
/// with Hint if there is a hint, and with Folded if no group has these instructions.
impl PrintCode for FoldedInstruction<'_> {
    ghost View = { ExpressionModel };

    ghost view = { λ folded. expression_view folded.0 };

    ghost grammar = { folded_instruction };

    ghost printing = { printing_at_end spell_folded printable_folded folded_well_formed (λ v h.
        folded_here v [] h (refl, (refl, refl, refl))) folded_only };

    #[tactic(auto, using(crate::proofs::FoldedWritten::groups_put))]
    fn write(&self, out: &mut Output) -> Result<(), Refused> {
        let hints: &[BranchHint] = &self.0.branch_hints;
        if !hints.is_empty() {
            return Err(Refused::Hint);
        }
        let Some((last, others)) = self.0.instrs.split_last() else {
            return Err(Refused::Folded);
        };
        out.open()?;
        last.write(out)?;
        write_behind(out, last, others)?;
        out.close()
    }
}

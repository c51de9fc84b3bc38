//! The instructions of items or groups as one flat list.

ghost use Rattle.std.specs.Prelude.{◌≡◌, ◌∷◌, ◌++◌, [], map, length};
ghost use Rattle.wat_expr.specs.Prelude.{unfolded, unfolded_groups, folded_value, instruction_view};
ghost use Rattle.wat_plain.specs.Appends.{OrMemory, Appends};
ghost use Rattle.wat_plain.specs.Seen.{seen, seen_groups, instr_at, label};

use crate::keep::keep;
use crate::tree::{FoldedGroup, Groups, Items};
use bumpalo::Bump;
use std::alloc::Global;
use wat_instr::{Instruction, LabelOp};
use wat_tokens::Result;

/// Appends an instruction.
fn put<'a>(out: &mut Vec<&'a Instruction<'a>>, instr: &'a Instruction<'a>) -> Result<()>
    ensures { Appends instr_at result out.old.items out.new.items
        (instruction_view instr.now ∷ []) }
{
    out.push(instr)?;
    Ok(())
}

/// Appends `else` or `end`.
fn put_label<'a>(out: &mut Vec<&'a Instruction<'a>>, arena: &'a Bump, op: LabelOp) -> Result<()>
    ensures { Appends instr_at result out.old.items out.new.items (label op ∷ []) }
{
    let instr = keep(arena, Instruction::Label(op, None))?;
    put(out, instr)
}

/// Appends the instructions of items in the order of a flat list: a folded one after its operands,
/// that of a block or an `if` before what it holds, with `else` and `end` added.
#[cycle(unfold)]
fn unfold_behind<'a>(
    out: &mut Vec<&'a Instruction<'a>>,
    arena: &'a Bump,
    items: &'a Items<'a>,
) -> Result<()>
    ensures { Appends instr_at result out.old.items out.new.items (unfolded (seen items.now)) }
{
    match *items {
        Items::Nil => Ok(()),
        Items::Plain(i, xs) => {
            put(out, i)?;
            unfold_behind(out, arena, xs)
        }
        Items::Folded(i, ys, xs) => {
            unfold_behind(out, arena, ys)?;
            put(out, i)?;
            unfold_behind(out, arena, xs)
        }
        Items::Block(i, ys, xs) => {
            put(out, i)?;
            unfold_arm(out, arena, ys, LabelOp::end)?;
            unfold_behind(out, arena, xs)
        }
        Items::IfThen(i, ops, th, xs) => {
            unfold_behind(out, arena, ops)?;
            put(out, i)?;
            unfold_arm(out, arena, th, LabelOp::end)?;
            unfold_behind(out, arena, xs)
        }
        Items::IfElse(i, ops, th, el, xs) => {
            unfold_behind(out, arena, ops)?;
            put(out, i)?;
            unfold_arm(out, arena, th, LabelOp::else_)?;
            unfold_arm(out, arena, el, LabelOp::end)?;
            unfold_behind(out, arena, xs)
        }
        Items::Hinted(_, xs) => unfold_behind(out, arena, xs),
    }
}

/// Appends the instructions of an arm, and `else` or `end`.
#[cycle(unfold)]
fn unfold_arm<'a>(
    out: &mut Vec<&'a Instruction<'a>>,
    arena: &'a Bump,
    arm: &'a Items<'a>,
    op: LabelOp,
) -> Result<()>
    ensures { Appends instr_at result out.old.items out.new.items
        (unfolded (seen arm.now) ++ label op ∷ []) }
{
    unfold_behind(out, arena, arm)?;
    put_label(out, arena, op)
}

/// Returns the instructions of items in the order of a flat list. The only error is Memory.
pub fn unfold<'a>(
    alloc: Global,
    arena: &'a Bump,
    items: &'a Items<'a>,
) -> Result<Vec<&'a Instruction<'a>>>
    ensures { OrMemory result (λ v. map instr_at v.items ≡ unfolded (seen items.now)) }
{
    let mut out = Vec::new(alloc);
    unfold_behind(&mut out, arena, items)?;
    Ok(out)
}

/// Returns the number of instructions of items.
pub fn how_many<'a>(alloc: Global, arena: &'a Bump, items: &'a Items<'a>) -> Result<usize>
    ensures { OrMemory result (λ n. n ≡ length (unfolded (seen items.now))) }
{
    let all = unfold(alloc, arena, items)?;
    Ok(all.len())
}

/// Appends the instructions of groups, each after the instructions of the groups in its group.
fn unfold_groups<'a>(out: &mut Vec<&'a Instruction<'a>>, groups: &'a Groups<'a>) -> Result<()>
    ensures { Appends instr_at result out.old.items out.new.items
        (unfolded_groups (seen_groups groups.now)) }
{
    match *groups {
        Groups::Nil => Ok(()),
        Groups::Group(i, gs, hs) => {
            unfold_groups(out, gs)?;
            put(out, i)?;
            unfold_groups(out, hs)
        }
    }
}

/// Returns the instructions of a folded instruction in the order of a flat list. The only error is
/// Memory.
pub fn unfold_folded<'a>(alloc: Global, folded: FoldedGroup<'a>) -> Result<Vec<&'a Instruction<'a>>>
    ensures { OrMemory result (λ v. map instr_at v.items
        ≡ (folded_value (instr_at folded.entry.instr) (seen_groups folded.entry.groups.now)).instrs) }
{
    let mut out = Vec::new(alloc);
    unfold_groups(&mut out, folded.groups)?;
    put(&mut out, folded.instr)?;
    Ok(out)
}

//! The hints of items.

ghost use Rattle.std.specs.Prelude.{◌≡◌, ◌+◌, ◌++◌, map, length, IfOk, None};
ghost use Rattle.wat_expr.specs.Prelude.{hint_view, unfolded, mark, hints_behind, hints};
ghost use Rattle.wat_plain.specs.Appends.{OrMemory, Appends};
ghost use Rattle.wat_plain.specs.Seen.{seen};

use crate::tree::Items;
use crate::unfolding::how_many;
use bumpalo::Bump;
use std::alloc::Global;
use wat_expr::BranchHint;
use wat_tokens::{Error, Fault, Result, Span};

/// Returns the sum of two indices, or Memory if there is none.
pub fn later(index: usize, by: usize) -> Result<usize>
    ensures { OrMemory result (λ n. n ≡ index + by) }
{
    match index.checked_add(by) {
        Some(sum) => Ok(sum),
        None => Err(Error::at(Fault::Memory, Span::from_offset(0))),
    }
}

/// Appends an instruction's index and the hint directly before its item, if there is one. Returns
/// the next index.
fn mark(out: &mut Vec<BranchHint>, hint: Option<u32>, head: usize) -> Result<usize>
    ensures hints { Appends hint_view result out.old.items out.new.items (mark hint head) }
    ensures next { IfOk result (λ n. n ≡ head + 1) }
{
    if let Some(value) = hint {
        out.push(BranchHint {
            instr_index: head,
            value,
        })?;
    }
    later(head, 1)
}

/// Appends the hints of items that unfold from an index on. `hint` is directly before the first.
#[cycle(hinting)]
fn hints_behind<'a>(
    arena: &'a Bump,
    out: &mut Vec<BranchHint>,
    hint: Option<u32>,
    items: &'a Items<'a>,
    from: usize,
) -> Result<()>
    ensures { Appends hint_view result out.old.items out.new.items
        (hints_behind hint (seen items.now) from) }
{
    match *items {
        Items::Nil => Ok(()),
        Items::Plain(_, xs) => {
            let next = mark(out, hint, from)?;
            hints_behind(arena, out, None, xs, next)
        }
        Items::Folded(_, ys, xs) => {
            let next = hints_to_head(arena, out, hint, ys, from)?;
            hints_behind(arena, out, None, xs, next)
        }
        Items::Block(_, ys, xs) => {
            let inner = mark(out, hint, from)?;
            let next = hints_of_arm(arena, out, ys, inner)?;
            hints_behind(arena, out, None, xs, next)
        }
        Items::IfThen(_, ops, th, xs) => {
            let inner = hints_to_head(arena, out, hint, ops, from)?;
            let next = hints_of_arm(arena, out, th, inner)?;
            hints_behind(arena, out, None, xs, next)
        }
        Items::IfElse(_, ops, th, el, xs) => {
            let inner = hints_to_head(arena, out, hint, ops, from)?;
            let other = hints_of_arm(arena, out, th, inner)?;
            let next = hints_of_arm(arena, out, el, other)?;
            hints_behind(arena, out, None, xs, next)
        }
        Items::Hinted(value, xs) => hints_behind(arena, out, Some(value), xs, from),
    }
}

/// Appends the hints of items that no hint directly precedes. Returns the index after the items.
#[cycle(hinting)]
fn hints_within<'a>(
    arena: &'a Bump,
    out: &mut Vec<BranchHint>,
    items: &'a Items<'a>,
    from: usize,
) -> Result<usize>
    ensures hints { Appends hint_view result out.old.items out.new.items
        (hints_behind None (seen items.now) from) }
    ensures behind { IfOk result (λ n. n ≡ from + length (unfolded (seen items.now))) }
{
    hints_behind(arena, out, None, items, from)?;
    let count = how_many(*out.allocator(), arena, items)?;
    later(from, count)
}

/// Appends the hints of what a block or an arm holds. Returns the index after its `else` or `end`.
#[cycle(hinting)]
fn hints_of_arm<'a>(
    arena: &'a Bump,
    out: &mut Vec<BranchHint>,
    items: &'a Items<'a>,
    from: usize,
) -> Result<usize>
    ensures hints { Appends hint_view result out.old.items out.new.items
        (hints_behind None (seen items.now) from) }
    ensures behind { IfOk result (λ n. n ≡ from + length (unfolded (seen items.now)) + 1) }
{
    let end = hints_within(arena, out, items, from)?;
    later(end, 1)
}

/// Appends the hints of operands, and the hint directly before the item whose instruction follows
/// them. Returns the index after this instruction.
#[cycle(hinting)]
fn hints_to_head<'a>(
    arena: &'a Bump,
    out: &mut Vec<BranchHint>,
    hint: Option<u32>,
    ops: &'a Items<'a>,
    from: usize,
) -> Result<usize>
    ensures hints { Appends hint_view result out.old.items out.new.items
        (hints_behind None (seen ops.now) from
        ++ mark hint (from + length (unfolded (seen ops.now)))) }
    ensures behind { IfOk result (λ n. n ≡ from + length (unfolded (seen ops.now)) + 1) }
{
    let head = hints_within(arena, out, ops, from)?;
    mark(out, hint, head)
}

/// Returns each hint of the items, with the index of the instruction of the item that it precedes.
/// The only error is Memory, also for an index beyond `usize`.
pub fn hints<'a>(alloc: Global, arena: &'a Bump, items: &'a Items<'a>) -> Result<Vec<BranchHint>>
    ensures { OrMemory result (λ v. map hint_view v.items ≡ hints (seen items.now) 0) }
{
    let mut out = Vec::new(alloc);
    hints_behind(arena, &mut out, None, items, 0)?;
    Ok(out)
}

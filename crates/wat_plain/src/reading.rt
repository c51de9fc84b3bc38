//! The reader of items. Each function reads a part of the definition `items_at`.

ghost use Rattle.std.specs.Prelude.{◌≡◌, ◌≢◌, suc, length, None, Some, IfOk, MatchResult};
ghost use Rattle.wat_expr.specs.Prelude.{value_of, Folded, Block, items_by, items_at, expression_reads, instruction_view, Memory};
ghost use Rattle.wat_plain.specs.Found.{Finds};
ghost use Rattle.wat_plain.specs.Parts.{plain_by, hinted_by, group_by, folded_by, enclosed_by, arm_by, else_by, if_by, other_by};
ghost use Rattle.wat_plain.specs.Seen.{seen};

use crate::found::{Found, FoundInstruction};
use crate::hinting::later;
use crate::taking::{
    Sort, are_groups, begins_branch, keep_items, no_memory, sort_of, take_close, take_hint,
    take_instruction, take_open, take_opened, tokens_left,
};
use crate::tree::Items;
use bumpalo::Bump;
use wat_instr::Instruction;
use wat_tokens::{Parser, Result};

/// Reads items. `most` is the depth of the recursion, which ends at 0 with Nothing.
#[cycle(reading)]
fn read_at<'a>(most: usize, parser: &mut Parser<'a>, arena: &'a Bump) -> Found<'a>
    ensures { Finds result (items_at most parser.old.left) parser.new.left }
{
    if most == 0 {
        return Found::Nothing;
    }
    read_list(most - 1, parser, arena)
}

/// Reads items: none before `)`, before `( then` and at the end of the text; else a hint, a group
/// or an instruction, and the items after it.
#[cycle(reading)]
fn read_list<'a>(most: usize, parser: &mut Parser<'a>, arena: &'a Bump) -> Found<'a>
    ensures { Finds result (items_by (items_at most) parser.old.left) parser.new.left }
{
    if parser.is_empty() || parser.group_is("then") {
        return keep_items(arena, Items::Nil);
    }
    if parser.annotation_is("metadata.code.branch_hint") {
        return read_hinted(most, parser, arena);
    }
    if take_open(parser) {
        return read_group(most, parser, arena);
    }
    read_plain(most, parser, arena)
}

/// Reads a hint and the items after it.
#[cycle(reading)]
fn read_hinted<'a>(most: usize, parser: &mut Parser<'a>, arena: &'a Bump) -> Found<'a>
    ensures { Finds result (hinted_by (items_at most) parser.old.left) parser.new.left }
{
    let Some(value) = take_hint(parser) else {
        return Found::Nothing;
    };
    match read_at(most, parser, arena) {
        Found::Items(xs) => {
            if !begins_branch(xs) {
                return Found::Nothing;
            }
            keep_items(arena, Items::Hinted(value, xs))
        }
        Found::Nothing => Found::Nothing,
        Found::NoMemory => Found::NoMemory,
    }
}

/// Reads an instruction and the items after it.
#[cycle(reading)]
fn read_plain<'a>(most: usize, parser: &mut Parser<'a>, arena: &'a Bump) -> Found<'a>
    ensures { Finds result (plain_by (items_at most) parser.old.left) parser.new.left }
{
    match take_instruction(parser, arena) {
        FoundInstruction::Instruction(instr) => match read_at(most, parser, arena) {
            Found::Items(xs) => keep_items(arena, Items::Plain(instr, xs)),
            Found::Nothing => Found::Nothing,
            Found::NoMemory => Found::NoMemory,
        },
        FoundInstruction::Nothing => Found::Nothing,
        FoundInstruction::NoMemory => Found::NoMemory,
    }
}

/// Reads the rest of a group after its `(`, and the items after the group.
#[cycle(reading)]
fn read_group<'a>(most: usize, parser: &mut Parser<'a>, arena: &'a Bump) -> Found<'a>
    ensures { Finds result (group_by (items_at most) parser.old.left) parser.new.left }
{
    match take_instruction(parser, arena) {
        FoundInstruction::Instruction(instr) => match sort_of(instr) {
            Sort::Block => read_block(most, instr, parser, arena),
            Sort::If => read_if(most, instr, parser, arena),
            Sort::Other => read_folded(most, instr, parser, arena),
        },
        FoundInstruction::Nothing => Found::Nothing,
        FoundInstruction::NoMemory => Found::NoMemory,
    }
}

/// Reads the rest of a block's group after its instruction, and the items after the group.
#[cycle(reading)]
fn read_block<'a>(
    most: usize,
    instr: &'a Instruction<'a>,
    parser: &mut Parser<'a>,
    arena: &'a Bump,
) -> Found<'a>
    ensures { Finds result (folded_by (items_at most) (Block (instruction_view instr.now)) parser.old.left)
        parser.new.left }
{
    match read_enclosed(most, parser, arena) {
        Found::Items(ys) => match read_at(most, parser, arena) {
            Found::Items(xs) => keep_items(arena, Items::Block(instr, ys, xs)),
            Found::Nothing => Found::Nothing,
            Found::NoMemory => Found::NoMemory,
        },
        Found::Nothing => Found::Nothing,
        Found::NoMemory => Found::NoMemory,
    }
}

/// Reads the operands and the `)` of a folded instruction, and the items after the group.
#[cycle(reading)]
fn read_folded<'a>(
    most: usize,
    instr: &'a Instruction<'a>,
    parser: &mut Parser<'a>,
    arena: &'a Bump,
) -> Found<'a>
    ensures { Finds result (folded_by (items_at most) (Folded (instruction_view instr.now)) parser.old.left)
        parser.new.left }
{
    match read_enclosed(most, parser, arena) {
        Found::Items(ys) => match read_at(most, parser, arena) {
            Found::Items(xs) => keep_items(arena, Items::Folded(instr, ys, xs)),
            Found::Nothing => Found::Nothing,
            Found::NoMemory => Found::NoMemory,
        },
        Found::Nothing => Found::Nothing,
        Found::NoMemory => Found::NoMemory,
    }
}

/// Reads items and the `)` after them.
#[cycle(reading)]
fn read_enclosed<'a>(most: usize, parser: &mut Parser<'a>, arena: &'a Bump) -> Found<'a>
    ensures { Finds result (enclosed_by (items_at most) parser.old.left) parser.new.left }
{
    match read_at(most, parser, arena) {
        Found::Items(xs) => {
            if !take_close(parser) {
                return Found::Nothing;
            }
            Found::Items(xs)
        }
        Found::Nothing => Found::Nothing,
        Found::NoMemory => Found::NoMemory,
    }
}

/// Reads an arm of an `if`: `(`, the keyword `word`, items and `)`.
#[cycle(reading)]
fn read_arm<'a>(most: usize, word: &str, parser: &mut Parser<'a>, arena: &'a Bump) -> Found<'a>
    ensures { Finds result (arm_by (items_at most) word.now parser.old.left) parser.new.left }
{
    if !take_opened(parser, word) {
        return Found::Nothing;
    }
    read_enclosed(most, parser, arena)
}

/// Reads the rest of the group of an `if` after its instruction, and the items after the group.
#[cycle(reading)]
fn read_if<'a>(
    most: usize,
    instr: &'a Instruction<'a>,
    parser: &mut Parser<'a>,
    arena: &'a Bump,
) -> Found<'a>
    ensures { Finds result (if_by (items_at most) (instruction_view instr.now) parser.old.left)
        parser.new.left }
{
    match read_at(most, parser, arena) {
        Found::Items(ops) => {
            if !are_groups(ops) {
                return Found::Nothing;
            }
            match read_arm(most, "then", parser, arena) {
                Found::Items(th) => read_other(most, instr, ops, th, parser, arena),
                Found::Nothing => Found::Nothing,
                Found::NoMemory => Found::NoMemory,
            }
        }
        Found::Nothing => Found::Nothing,
        Found::NoMemory => Found::NoMemory,
    }
}

/// Reads the rest of the group of an `if` after its first arm, and the items after the group.
#[cycle(reading)]
fn read_other<'a>(
    most: usize,
    instr: &'a Instruction<'a>,
    ops: &'a Items<'a>,
    th: &'a Items<'a>,
    parser: &mut Parser<'a>,
    arena: &'a Bump,
) -> Found<'a>
    ensures { Finds result (other_by (items_at most) (instruction_view instr.now) (seen ops.now)
        (seen th.now) parser.old.left) parser.new.left }
{
    if take_close(parser) {
        return match read_at(most, parser, arena) {
            Found::Items(xs) => keep_items(arena, Items::IfThen(instr, ops, th, xs)),
            Found::Nothing => Found::Nothing,
            Found::NoMemory => Found::NoMemory,
        };
    }
    match read_else(most, parser, arena) {
        Found::Items(el) => match read_at(most, parser, arena) {
            Found::Items(xs) => keep_items(arena, Items::IfElse(instr, ops, th, el, xs)),
            Found::Nothing => Found::Nothing,
            Found::NoMemory => Found::NoMemory,
        },
        Found::Nothing => Found::Nothing,
        Found::NoMemory => Found::NoMemory,
    }
}

/// Reads the second arm of an `if` and the `)` of the group.
#[cycle(reading)]
fn read_else<'a>(most: usize, parser: &mut Parser<'a>, arena: &'a Bump) -> Found<'a>
    ensures { Finds result (else_by (items_at most) parser.old.left) parser.new.left }
{
    match read_arm(most, "else", parser, arena) {
        Found::Items(el) => {
            if !take_close(parser) {
                return Found::Nothing;
            }
            Found::Items(el)
        }
        Found::Nothing => Found::Nothing,
        Found::NoMemory => Found::NoMemory,
    }
}

/// Parses items up to the end of the group or of the text, as the definition reads an expression.
///
/// The items and what they refer to are in the arena. The error is Memory, or Unexpected if the
/// tokens aren't such items.
pub fn read_items<'a>(parser: &mut Parser<'a>, arena: &'a Bump) -> Result<&'a Items<'a>>
    ensures items { IfOk result (λ xs. items_at (suc (length parser.old.left)) parser.old.left
        ≡ Some (seen xs.now, parser.new.left)) }
    ensures expression { MatchResult result (λ xs. expression_reads parser.old.left
        ≡ Some (value_of (seen xs.now), parser.new.left))
        (λ e. e.fault ≢ Memory → expression_reads parser.old.left ≡ None) }
{
    let most = later(tokens_left(parser)?, 1)?;
    match read_at(most, parser, arena) {
        Found::Items(xs) => {
            if !parser.is_empty() {
                return Err(parser.unexpected());
            }
            Ok(xs)
        }
        Found::Nothing => Err(parser.unexpected()),
        Found::NoMemory => Err(no_memory()),
    }
}

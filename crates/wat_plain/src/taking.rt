//! Readers of single tokens, of a hint and of an instruction, tests of items, and errors.

ghost use Rattle.std.specs.Prelude.{◌≡◌, List, length, drop, if◌then◌else◌, None, Some, MatchBool, MatchOption};
ghost use Rattle.wat_expr.specs.Prelude.{sort, are_groups, begins_branch, closed, opened, instruction, instruction_view, some_of, begins_lparen, Memory, Token};
ghost use Rattle.wat_plain.specs.Appends.{OrMemory};
ghost use Rattle.wat_plain.specs.Found.{Finds, FindsGroups, FindsInstruction};
ghost use Rattle.wat_plain.specs.Parts.{bit, hint};
ghost use Rattle.wat_plain.specs.Seen.{seen, seen_groups, sort_seen};

use crate::found::{Found, FoundGroups, FoundInstruction};
use crate::hinting::later;
use crate::keep::keep;
use crate::tree::{Groups, Items};
use bumpalo::Bump;
use wat_instr::{Instruction, is_block};
use wat_tokens::{Error, Fault, Parser, Result, Span};

/// Takes a `(` if it is the next token, and returns whether it was.
pub fn take_open(parser: &mut Parser<'_>) -> bool
    ensures stands { result ≡ begins_lparen parser.old.left }
    ensures left { parser.new.left ≡ (if result then drop 1 parser.old.left else parser.old.left) }
{
    parser.open().is_ok()
}

/// Takes a `)` if it is the next token, and returns whether it was.
pub fn take_close(parser: &mut Parser<'_>) -> bool
    ensures taken { MatchBool result (closed parser.old.left ≡ Some (tt, parser.new.left))
        (closed parser.old.left ≡ None) }
    ensures kept { MatchBool result (Unit {0}) (parser.new.left ≡ parser.old.left) }
{
    parser.close().is_ok()
}

/// Takes a `(` and the keyword `word`, and returns whether they were the next tokens.
pub fn take_opened(parser: &mut Parser<'_>, word: &str) -> bool
    ensures { MatchBool result (opened word.now parser.old.left ≡ Some (tt, parser.new.left))
        (opened word.now parser.old.left ≡ None) }
{
    parser.open().is_ok() && parser.keyword(word).is_ok()
}

/// Takes a string of one byte, 0 or 1, and returns the byte.
fn take_bit(parser: &mut Parser<'_>) -> Option<u32>
    ensures { MatchOption result (bit parser.old.left ≡ None)
        (λ v. bit parser.old.left ≡ Some (v, parser.new.left)) }
{
    match parser.take_string() {
        Ok(bytes) => match bytes {
            [byte] if *byte < 2 => Some(u32::from(*byte)),
            _ => None,
        },
        Err(_) => None,
    }
}

/// Takes a branch hint and returns its value.
pub fn take_hint(parser: &mut Parser<'_>) -> Option<u32>
    ensures { MatchOption result (hint parser.old.left ≡ None)
        (λ v. hint parser.old.left ≡ Some (v, parser.new.left)) }
{
    if parser.open().is_err() || parser.take_annotation("metadata.code.branch_hint").is_err() {
        return None;
    }
    match take_bit(parser) {
        Some(value) if take_close(parser) => Some(value),
        _ => None,
    }
}

/// Takes an instruction and puts it into the arena.
pub fn take_instruction<'a>(parser: &mut Parser<'a>, arena: &'a Bump) -> FoundInstruction<'a>
    ensures { FindsInstruction result (instruction.reads parser.old.left) parser.new.left }
{
    match parser.parse::<Instruction>() {
        Ok(instr) => match keep(arena, instr) {
            Ok(kept) => FoundInstruction::Instruction(kept),
            Err(_) => FoundInstruction::NoMemory,
        },
        Err(error) if error.fault == Fault::Memory => FoundInstruction::NoMemory,
        Err(_) => FoundInstruction::Nothing,
    }
}

/// Puts items into the arena.
pub fn keep_items<'a>(arena: &'a Bump, items: Items<'a>) -> Found<'a>
    ensures { (left : List Token) → Finds result (some_of (seen items.entry, left)) left }
{
    match keep(arena, items) {
        Ok(kept) => Found::Items(kept),
        Err(_) => Found::NoMemory,
    }
}

/// Puts groups into the arena.
pub fn keep_groups<'a>(arena: &'a Bump, groups: Groups<'a>) -> FoundGroups<'a>
    ensures { (left : List Token) → FindsGroups result (some_of (seen_groups groups.entry, left)) left }
{
    match keep(arena, groups) {
        Ok(kept) => FoundGroups::Groups(kept),
        Err(_) => FoundGroups::NoMemory,
    }
}

/// What a group holds after its instruction.
#[derive(Clone, Copy)]
pub enum Sort {
    /// The items of a block.
    Block,
    /// The operands and the arms of an `if`.
    If,
    /// The operands of any other instruction.
    Other,
}

/// Returns what the instruction's group holds.
pub fn sort_of(instr: &Instruction<'_>) -> Sort
    ensures { sort_seen result ≡ sort (instruction_view instr.now) }
{
    if is_block(instr.op()) {
        return Sort::Block;
    }
    if instr.is_if() { Sort::If } else { Sort::Other }
}

/// Returns whether the items are groups and hints alone.
pub fn are_groups(items: &Items<'_>) -> bool
    ensures { result ≡ are_groups (seen items.now) }
{
    match *items {
        Items::Nil => true,
        Items::Plain(_, _) => false,
        Items::Folded(_, _, xs) => are_groups(xs),
        Items::Block(_, _, xs) => are_groups(xs),
        Items::IfThen(_, _, _, xs) => are_groups(xs),
        Items::IfElse(_, _, _, _, xs) => are_groups(xs),
        Items::Hinted(_, xs) => are_groups(xs),
    }
}

/// Returns whether the first item can have a hint: whether it is `br_if` or `if` alone, a folded
/// `br_if`, or the group of an `if`.
pub fn begins_branch(items: &Items<'_>) -> bool
    ensures { result ≡ begins_branch (seen items.now) }
{
    match *items {
        Items::Plain(instr, _) => instr.is_br_if() || instr.is_if(),
        Items::Folded(instr, _, _) => instr.is_br_if(),
        Items::IfThen(_, _, _, _) => true,
        Items::IfElse(_, _, _, _, _) => true,
        _ => false,
    }
}

/// Returns the number of tokens left, or Memory if it is beyond `usize`.
pub fn tokens_left(parser: &Parser<'_>) -> Result<usize>
    ensures { OrMemory result (λ n. n ≡ length parser.now.left) }
{
    let mut count = 0;
    let mut cursor = parser.cursor();
    'tokens: while let Some(rest) = cursor.any() {
        count = later(count, 1)?;
        cursor = rest;
    }
    Ok(count)
}

/// Returns the error Memory.
pub fn no_memory() -> Error
    ensures { result.fault ≡ Memory }
{
    Error::at(Fault::Memory, Span::from_offset(0))
}

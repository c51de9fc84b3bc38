//! The reader of one folded instruction. Each function reads a part of the definition
//! `folded_reads`.

ghost use Rattle.std.specs.Prelude.{◌≡◌, ◌≢◌, None, Some, IfOk, MatchResult};
ghost use Rattle.wat_expr.specs.Prelude.{is_folded, folded_reads, folded_value, Memory};
ghost use Rattle.wat_plain.specs.Prelude.{groups_at};
ghost use Rattle.wat_plain.specs.Found.{FindsGroups, FindsFolded};
ghost use Rattle.wat_plain.specs.Parts.{enclosed_by, next_group_by, one_group};
ghost use Rattle.wat_plain.specs.Seen.{instr_at, seen_groups};

use crate::found::{FoundGroups, FoundInstruction};
use crate::hinting::later;
use crate::taking::{keep_groups, no_memory, take_close, take_instruction, take_open, tokens_left};
use crate::tree::{FoldedGroup, Groups};
use bumpalo::Bump;
use wat_tokens::{Parser, Result};

/// Reads groups. `most` is the depth of the recursion, which ends at 0 with Nothing.
#[cycle(groups)]
fn read_groups<'a>(most: usize, parser: &mut Parser<'a>, arena: &'a Bump) -> FoundGroups<'a>
    ensures { FindsGroups result (groups_at most parser.old.left) parser.new.left }
{
    if most == 0 {
        return FoundGroups::Nothing;
    }
    if !take_open(parser) {
        return keep_groups(arena, Groups::Nil);
    }
    read_group(most - 1, parser, arena)
}

/// Reads the rest of a group after its `(`, and the groups after the group.
#[cycle(groups)]
fn read_group<'a>(most: usize, parser: &mut Parser<'a>, arena: &'a Bump) -> FoundGroups<'a>
    ensures { FindsGroups result (next_group_by (groups_at most) parser.old.left) parser.new.left }
{
    match take_instruction(parser, arena) {
        FoundInstruction::Instruction(instr) => match read_enclosed(most, parser, arena) {
            FoundGroups::Groups(gs) => match read_groups(most, parser, arena) {
                FoundGroups::Groups(hs) => keep_groups(arena, Groups::Group(instr, gs, hs)),
                FoundGroups::Nothing => FoundGroups::Nothing,
                FoundGroups::NoMemory => FoundGroups::NoMemory,
            },
            FoundGroups::Nothing => FoundGroups::Nothing,
            FoundGroups::NoMemory => FoundGroups::NoMemory,
        },
        FoundInstruction::Nothing => FoundGroups::Nothing,
        FoundInstruction::NoMemory => FoundGroups::NoMemory,
    }
}

/// Reads groups and the `)` after them.
#[cycle(groups)]
fn read_enclosed<'a>(most: usize, parser: &mut Parser<'a>, arena: &'a Bump) -> FoundGroups<'a>
    ensures { FindsGroups result (enclosed_by (groups_at most) parser.old.left) parser.new.left }
{
    match read_groups(most, parser, arena) {
        FoundGroups::Groups(gs) => {
            if !take_close(parser) {
                return FoundGroups::Nothing;
            }
            FoundGroups::Groups(gs)
        }
        FoundGroups::Nothing => FoundGroups::Nothing,
        FoundGroups::NoMemory => FoundGroups::NoMemory,
    }
}

/// Reads the rest of a folded instruction after its `(`. The error is Memory, or Unexpected.
fn read_opened<'a>(parser: &mut Parser<'a>, arena: &'a Bump) -> Result<FoldedGroup<'a>>
    ensures { FindsFolded result (one_group parser.old.left) parser.new.left }
{
    match take_instruction(parser, arena) {
        FoundInstruction::Instruction(instr) => {
            let most = later(tokens_left(parser)?, 1)?;
            match read_enclosed(most, parser, arena) {
                FoundGroups::Groups(groups) => Ok(FoldedGroup { instr, groups }),
                FoundGroups::Nothing => Err(parser.unexpected()),
                FoundGroups::NoMemory => Err(no_memory()),
            }
        }
        FoundInstruction::Nothing => Err(parser.unexpected()),
        FoundInstruction::NoMemory => Err(no_memory()),
    }
}

/// Parses one folded instruction of any kind, as the definition reads it: `(`, an instruction,
/// groups, `)`.
///
/// The groups and what they refer to are in the arena. The error is Memory, or Unexpected if no
/// prefix of the tokens is such a group.
pub fn read_folded<'a>(parser: &mut Parser<'a>, arena: &'a Bump) -> Result<FoldedGroup<'a>>
    ensures group { IfOk result (λ f. is_folded (instr_at f.instr) (seen_groups f.groups.now)
        parser.old.left parser.new.left) }
    ensures folded { MatchResult result (λ f. folded_reads parser.old.left
        ≡ Some (folded_value (instr_at f.instr) (seen_groups f.groups.now), parser.new.left))
        (λ e. e.fault ≢ Memory → folded_reads parser.old.left ≡ None) }
{
    if !take_open(parser) {
        return Err(parser.unexpected());
    }
    read_opened(parser, arena)
}

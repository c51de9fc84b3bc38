//! Functions that take one token or an instruction.

ghost use Rattle.std.specs.Prelude.{◌≡◌, ◌<◌, ◌++◌, ◌∷◌, [], map, IfOk, IfErr, Err};
ghost use Rattle.wat_instr.specs.Prelude.{vec_len, vec_capacity, instruction_view, Steady, LParen, RParen};
ghost use Rattle.wat_expr.specs.Items.{hint_name, keyword};
ghost use Rattle.wat_expr.specs.Taken.{TakesIf, TakesString, TakesOp, ReadsBehind};

use wat_instr::{Instruction, Op};
use wat_tokens::{Error, Fault, Parser, Result};

/// Takes a `(` if it is the next token. Returns whether it was taken.
#[inline(always)]
pub(crate) fn take_open(parser: &mut Parser<'_>) -> bool
    ensures exact { TakesIf LParen result parser.old.left parser.new.left }
    ensures steady { Steady parser.old parser.new }
{
    parser.open().is_ok()
}

/// Takes a `)` if it is the next token. Returns whether it was taken.
#[inline(always)]
pub(crate) fn take_close(parser: &mut Parser<'_>) -> bool
    ensures exact { TakesIf RParen result parser.old.left parser.new.left }
    ensures steady { Steady parser.old parser.new }
{
    parser.close().is_ok()
}

/// Takes the keyword `text` if it is the next token. Returns whether it was taken.
pub(crate) fn take_word(parser: &mut Parser<'_>, text: &str) -> bool
    ensures exact { TakesIf (keyword text.now) result parser.old.left parser.new.left }
    ensures steady { Steady parser.old parser.new }
{
    parser.keyword(text).is_ok()
}

/// Takes the annotation of a branch hint if it is the next token. Returns whether it was taken.
pub(crate) fn take_hint_name(parser: &mut Parser<'_>) -> bool
    ensures exact { TakesIf hint_name result parser.old.left parser.new.left }
    ensures steady { Steady parser.old parser.new }
{
    if parser.cursor().annotation().is_none() {
        return false;
    }
    parser.take_annotation("metadata.code.branch_hint").is_ok()
}

/// Takes the keyword of an instruction. If the next token is no such keyword, the error is Operator
/// at that token.
#[inline(always)]
pub(crate) fn take_op(parser: &mut Parser<'_>) -> Result<Op>
    ensures exact { TakesOp result parser.old.left parser.new.left }
    ensures steady { Steady parser.old parser.new }
{
    Op::take(parser)
}

/// The number of instructions that an empty list gets room for: more than most expressions have.
const USUAL: usize = 32;

/// Makes room for one more instruction. An empty list gets room for `USUAL` instructions, so that
/// most lists aren't moved as they grow. The only error is Memory.
#[inline(always)]
pub(crate) fn make_room<'a>(out: &mut Vec<Instruction<'a>>) -> Result<()>
    ensures room { IfOk result (λ _. vec_len out.new < vec_capacity out.new) }
    ensures items { out.new.items ≡ out.old.items }
    ensures memory { IfErr result (λ e. e.fault ≡ Fault.Memory) }
{
    if out.is_empty() {
        out.reserve(USUAL)?;
        return Ok(());
    }
    out.reserve(1)?;
    Ok(())
}

/// Parses the operand of an instruction after its keyword, and appends the instruction to `out`.
/// The error is the first error of the operand, or Memory. After an error, `out` has the same
/// instructions as before.
#[inline(always)]
pub(crate) fn read_behind<'a>(
    op: Op,
    parser: &mut Parser<'a>,
    out: &mut Vec<Instruction<'a>>,
) -> Result<()>
    ensures exact { ReadsBehind op (λ i. map instruction_view out.new.items
        ≡ map instruction_view out.old.items ++ i ∷ []) result parser.old.left parser.new.left }
    ensures refused { IfErr result (λ _. map instruction_view out.new.items
        ≡ map instruction_view out.old.items) }
    ensures steady { Steady parser.old parser.new }
{
    make_room(out)?;
    Instruction::read_operand(op, parser, out)
}

/// Takes a string, and returns its bytes. If the next token is not a string, the error is
/// Unexpected.
pub(crate) fn take_string<'a>(parser: &mut Parser<'a>) -> Result<&'a [u8]>
    ensures exact { TakesString (λ s. s.now) result parser.old.left parser.new.left }
    ensures steady { Steady parser.old parser.new }
{
    parser.take_string()
}

/// Returns the error.
// The call is not inlined: inline, the moves of the error would also slow the path without error.
#[cold]
#[inline(never)]
pub(crate) fn refuse(refused: Error) -> Result<()>
    ensures { result ≡ Err refused }
{
    Err(refused)
}

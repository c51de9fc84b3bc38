//! What instructions do with blocks and labels (Text Format, "Labels" and "Control Instructions").

ghost use Rattle.std.specs.Prelude.{◌≡◌, ◌==◌, ◌++◌, ◌∷◌, [], OnOk, map};
ghost use Rattle.wat_instr.specs.Prelude.{op_in, operand_in, instruction_view, op_row};
ghost use Rattle.wat_instr.specs.Instruction.{block_in};
ghost use Rattle.wat_mnemonics.specs.declared.op.Op.TheVariants as ops;
ghost use Rattle.wat_mnemonics.specs.declared.scalar.ScalarOp.TheVariants as scalar;
ghost use Rattle.wat_operands.specs.Catches.{catch_view};
ghost use Rattle.wat_operands.specs.Handlers.{handle_view};
ghost use Rattle.wat_tokens.specs.Prelude.{index_view, name_of, option_view};
ghost use Rattle.wat_scopes.specs.Steps.{acts, act_view};
ghost use Rattle.wat_instr_uses.specs.Steps.{uses_label, uses_labels, caught_labels, handled_label, handled_labels, block_part, indexed_acts, plain_acts, op_steps, instr_steps, steps_of, block_label, label_act};

use std::alloc::AllocError;
use wat_instr::{BlockOp, IndexedOp, Instruction, LabelOp, ScalarOp};
use wat_operands::{BlockType, Handle, TryTableCatch};
use wat_scopes::{Act, Part, Step};
use wat_tokens::{Id, Index};

/// Appends one act of the instruction with the index `at`.
fn put<'a>(out: &mut Vec<Step<'a>>, at: usize, act: Act<'a>) -> Result<(), AllocError>
    ensures { OnOk result (acts out.new.items ≡ acts out.old.items ++ act_view act.entry ∷ []) }
{
    out.push(Step { act, at })?;
    Ok(())
}

/// Appends the use of the label, if the index is an identifier.
fn use_label<'a>(out: &mut Vec<Step<'a>>, at: usize, label: &Index<'a>) -> Result<(), AllocError>
    ensures { OnOk result (acts out.new.items ≡ acts out.old.items
        ++ uses_label (index_view label.now)) }
{
    match label {
        Index::Num(_, _) => Ok(()),
        Index::Id(id) => put(out, at, Act::Refer(*id)),
    }
}

/// Appends the uses of the labels, in order.
fn use_labels<'a>(
    out: &mut Vec<Step<'a>>,
    at: usize,
    labels: &[Index<'a>],
) -> Result<(), AllocError>
    ensures { OnOk result (acts out.new.items ≡ acts out.old.items
        ++ uses_labels (map index_view labels.now)) }
{
    for label in labels {
        use_label(out, at, label)?;
    }
    Ok(())
}

/// Appends the uses of the labels of the clauses of a `try_table`.
fn use_caught<'a>(
    out: &mut Vec<Step<'a>>,
    at: usize,
    catches: &[TryTableCatch<'a>],
) -> Result<(), AllocError>
    ensures { OnOk result (acts out.new.items ≡ acts out.old.items
        ++ caught_labels (map catch_view catches.now)) }
{
    for clause in catches {
        use_label(out, at, &clause.label)?;
    }
    Ok(())
}

/// Appends the use of the label of a handler, if it has one.
fn use_handled_label<'a>(
    out: &mut Vec<Step<'a>>,
    at: usize,
    handler: &Handle<'a>,
) -> Result<(), AllocError>
    ensures { OnOk result (acts out.new.items ≡ acts out.old.items
        ++ handled_label (handle_view handler.now)) }
{
    match handler {
        Handle::OnLabel { tag: _, label } => use_label(out, at, label),
        Handle::OnSwitch { tag: _ } => Ok(()),
    }
}

/// Appends the uses of the labels of handlers.
fn use_handled<'a>(
    out: &mut Vec<Step<'a>>,
    at: usize,
    handlers: &[Handle<'a>],
) -> Result<(), AllocError>
    ensures { OnOk result (acts out.new.items ≡ acts out.old.items
        ++ handled_labels (map handle_view handlers.now)) }
{
    for handler in handlers {
        use_handled_label(out, at, handler)?;
    }
    Ok(())
}

/// Returns the label of a block type, if there is one.
fn label_of<'a>(block: &Option<Box<BlockType<'a>>>) -> Option<Id<'a>>
    ensures { option_view name_of result ≡ block_label (block_in block.now) }
{
    match block {
        Some(block) => block.label,
        None => None,
    }
}

/// Returns the first part of the block that an instruction begins.
fn part_of(op: BlockOp) -> Part
    ensures { result ≡ block_part op }
{
    match op {
        BlockOp::block => Part::Body,
        BlockOp::if_ => Part::Then,
        BlockOp::loop_ => Part::Body,
        BlockOp::try_ => Part::Try,
    }
}

/// Returns the act of an `else` or an `end`.
fn label_act<'a>(op: LabelOp, label: Option<Id<'a>>) -> Act<'a>
    ensures { act_view result ≡ label_act op (option_view name_of label.entry) }
{
    match op {
        LabelOp::else_ => Act::Else(label),
        LabelOp::end => Act::End(label),
    }
}

/// Returns whether the instruction is `catch_all`.
#[tactic(auto, using(crate::proofs::CatchAll::catch_all_row))]
fn is_catch_all(op: ScalarOp) -> bool
    ensures { result ≡ (op_row (ops.Scalar op) == op_row (ops.Scalar scalar.catch_all)) }
{
    match op {
        ScalarOp::catch_all => true,
        _ => false,
    }
}

/// Appends the acts of an instruction without an operand.
fn put_plain<'a>(out: &mut Vec<Step<'a>>, at: usize, op: ScalarOp) -> Result<(), AllocError>
    ensures { OnOk result (acts out.new.items ≡ acts out.old.items
        ++ plain_acts (ops.Scalar op)) }
{
    if is_catch_all(op) {
        put(out, at, Act::CatchAll)
    } else {
        Ok(())
    }
}

/// Appends the acts of an instruction whose operand is an index.
fn put_indexed<'a>(
    out: &mut Vec<Step<'a>>,
    at: usize,
    op: IndexedOp,
    index: &Index<'a>,
) -> Result<(), AllocError>
    ensures { OnOk result (acts out.new.items ≡ acts out.old.items
        ++ indexed_acts op (index_view index.now)) }
{
    match op {
        IndexedOp::br => use_label(out, at, index),
        IndexedOp::br_if => use_label(out, at, index),
        IndexedOp::br_on_null => use_label(out, at, index),
        IndexedOp::br_on_non_null => use_label(out, at, index),
        IndexedOp::rethrow => use_label(out, at, index),
        IndexedOp::catch => put(out, at, Act::Catch),
        IndexedOp::delegate => {
            put(out, at, Act::Delegate)?;
            use_label(out, at, index)
        }
        _ => Ok(()),
    }
}

/// Appends the acts of an instruction.
fn put_acts<'a>(
    out: &mut Vec<Step<'a>>,
    at: usize,
    instr: &Instruction<'a>,
) -> Result<(), AllocError>
    ensures { OnOk result (acts out.new.items ≡ acts out.old.items
        ++ op_steps (op_in instr.now) (operand_in instr.now)) }
{
    match instr {
        Instruction::Block(op, block) => put(out, at, Act::Begin(part_of(*op), label_of(block))),
        Instruction::Label(op, label) => put(out, at, label_act(*op, *label)),
        Instruction::Scalar(op) => put_plain(out, at, *op),
        Instruction::Indexed(op, index) => put_indexed(out, at, *op, index),
        Instruction::br_table(table) => {
            use_labels(out, at, &table.labels)?;
            use_label(out, at, &table.default)
        }
        Instruction::br_on_cast(cast) => use_label(out, at, &cast.label),
        Instruction::br_on_cast_fail(cast) => use_label(out, at, &cast.label),
        Instruction::br_on_cast_desc_eq(cast) => use_label(out, at, &cast.label),
        Instruction::br_on_cast_desc_eq_fail(cast) => use_label(out, at, &cast.label),
        Instruction::try_table(table) => {
            use_caught(out, at, &table.catches)?;
            put(out, at, Act::Begin(Part::Body, table.block.label))
        }
        Instruction::resume(resume) => use_handled(out, at, &resume.table.handlers),
        Instruction::resume_throw(resume) => use_handled(out, at, &resume.table.handlers),
        Instruction::resume_throw_ref(resume) => use_handled(out, at, &resume.table.handlers),
        _ => Ok(()),
    }
}

/// Appends the acts of an instruction, by the number of its row.
#[tactic(auto, using(crate::proofs::Rows::steps_of_row))]
fn put_instruction<'a>(
    out: &mut Vec<Step<'a>>,
    at: usize,
    instr: &Instruction<'a>,
) -> Result<(), AllocError>
    ensures { OnOk result (acts out.new.items ≡ acts out.old.items
        ++ instr_steps (instruction_view instr.now)) }
{
    put_acts(out, at, instr)
}

/// Appends what the instructions of an expression do with blocks and labels, in order. Each step has
/// the index of its instruction.
pub fn add_steps<'a>(out: &mut Vec<Step<'a>>, instrs: &[Instruction<'a>]) -> Result<(), AllocError>
    ensures { OnOk result (acts out.new.items ≡ acts out.old.items
        ++ steps_of (map instruction_view instrs.now)) }
{
    for (at, instr) in instrs.iter().enumerate() {
        put_instruction(out, at, instr)?;
    }
    Ok(())
}

//! The fault of the blocks and labels of an expression (Text Format, "Labels" and "Control
//! Instructions").

ghost use Rattle.std.specs.Prelude.{◌≡◌, ◌++◌, ◌≤◌, IfOk, OnOk, length, option_map};
ghost use Rattle.wat_core.specs.Prelude.{expression_view};
ghost use Rattle.wat_scopes.specs.FaultModels.{fault_of_kind, fault_view, faults_view};
ghost use Rattle.wat_names.specs.Bodies.{expression_faults, kind_faults};

use std::alloc::{AllocError, Global};
use wat_expr::Expression;
use wat_instr_uses::add_steps;
use wat_scopes::{
    Act, BlockFault, FaultKind, NameFault, Note, OpenBlock, Step, first_block_fault, open_blocks,
};
use wat_tokens::Span;

/// Returns the position of the instruction with the index `at`, if the expression keeps positions.
/// Otherwise `field`.
fn span_at(expression: &Expression<'_>, at: usize, field: Span) -> Span {
    match &expression.instr_spans {
        Some(spans) => match spans.get(at) {
            Some(span) => *span,
            None => field,
        },
        None => field,
    }
}

/// Returns the number of the steps before the instruction with the index `at`.
fn steps_before(steps: &[Step<'_>], at: usize) -> usize
    ensures { result ≤ length steps.now }
{
    for (count, step) in steps.iter().enumerate() {
        if step.at >= at {
            return count;
        }
    }
    steps.len()
}

/// Returns the number of the steps before the labels of the instruction with the index `at`. The
/// label of a `delegate` is that of a block around its `try`, so the `try` has ended before it.
fn steps_before_labels(steps: &[Step<'_>], at: usize) -> usize
    ensures { result ≤ length steps.now }
{
    let count = steps_before(steps, at);
    if count < steps.len() {
        if let Act::Delegate = steps[count].act {
            return count + 1;
        }
    }
    count
}

/// Returns the labels of the innermost blocks that have one.
fn innermost_labels<'a>(open: &[OpenBlock<'a>]) -> Note<'a> {
    let mut first = None;
    let mut second = None;
    let mut third = None;
    for block in open {
        if block.label.is_some() {
            third = second;
            second = first;
            first = block.label;
        }
    }
    Note::Labels(first, second, third)
}

/// Returns the innermost block, if one is open.
fn innermost_block<'a>(
    open: &[OpenBlock<'a>],
    expression: &Expression<'a>,
    field: Span,
) -> Note<'a> {
    match open.last() {
        Some(block) => Note::Block(block.label, span_at(expression, block.at, field)),
        None => Note::Nothing,
    }
}

/// Returns what a report says beside the fault: the labels that the instruction could have, or the
/// block that it is in.
fn note_of<'a>(
    alloc: Global,
    steps: &[Step<'a>],
    fault: BlockFault<'a>,
    expression: &Expression<'a>,
    field: Span,
) -> Result<Note<'a>, AllocError> {
    match fault.kind {
        FaultKind::UnknownLabel => {
            let before = steps_before_labels(steps, fault.at);
            let open = open_blocks(alloc, &steps[..before])?;
            Ok(innermost_labels(&open))
        }
        FaultKind::OtherLabel | FaultKind::MisplacedElse | FaultKind::MisplacedCatch => {
            let before = steps_before(steps, fault.at);
            let open = open_blocks(alloc, &steps[..before])?;
            Ok(innermost_block(&open, expression, field))
        }
        _ => Ok(Note::Nothing),
    }
}

/// Returns the fault with its position and its note. `field` is the position of the field.
fn located<'a>(
    alloc: Global,
    steps: &[Step<'a>],
    fault: BlockFault<'a>,
    expression: &Expression<'a>,
    field: Span,
) -> Result<NameFault<'a>, AllocError>
    ensures { IfOk result (λ f. fault_view f ≡ fault_of_kind fault.entry.kind) }
{
    let span = match fault.id {
        Some(id) => id.span(),
        None => span_at(expression, fault.at, field),
    };
    let note = note_of(alloc, steps, fault, expression, field)?;
    Ok(NameFault {
        kind: fault.kind,
        space: None,
        id: fault.id,
        span,
        note,
    })
}

/// Appends the fault, if there is one.
fn add_found<'a>(
    out: &mut Vec<NameFault<'a>>,
    steps: &[Step<'a>],
    found: Option<BlockFault<'a>>,
    expression: &Expression<'a>,
    field: Span,
) -> Result<(), AllocError>
    ensures { OnOk result (faults_view out.new.items ≡ faults_view out.old.items
        ++ kind_faults (option_map (λ f. f.kind) found.entry)) }
{
    match found {
        Some(fault) => {
            let located = located(*out.allocator(), steps, fault, expression, field)?;
            out.push(located)?;
            Ok(())
        }
        None => Ok(()),
    }
}

/// Appends the first fault of the blocks and labels of the expression, if there is one. `field` is
/// the position of the keyword of its field.
pub(crate) fn add_block_fault<'a>(
    out: &mut Vec<NameFault<'a>>,
    expression: &Expression<'a>,
    field: Span,
) -> Result<(), AllocError>
    ensures { OnOk result (faults_view out.new.items ≡ faults_view out.old.items
        ++ expression_faults (expression_view expression.now)) }
{
    let alloc = *out.allocator();
    let mut steps = Vec::new(alloc);
    add_steps(&mut steps, &expression.instrs)?;
    let found = first_block_fault(alloc, &steps)?;
    add_found(out, &steps, found, expression, field)
}

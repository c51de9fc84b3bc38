//! Nested blocks and their labels (Text Format, "Labels" and "Control Instructions").

ghost use Rattle.std.specs.Prelude.{◌≡◌, ◌∷◌, [], IfOk, OnOk, Some, is_some, not, option_map};
ghost use Rattle.wat_tokens.specs.Prelude.{name_of, option_view};
ghost use Rattle.wat_scopes.specs.Steps.{acts, act_view, else_, end_, catch_, catch_all, delegate, refers};
ghost use Rattle.wat_scopes.specs.Blocks.{nests, first_fault, repeats, frame_of, labelled};
ghost use Rattle.wat_scopes.specs.Frames.{IsKept, IsKeptBut, PopsFrame, Takes, frame_view, stack};

use crate::fault::FaultKind;
use crate::steps::{Act, Part, Step};
use std::alloc::{AllocError, Global};
use std::collections::HashSet;
use wat_tokens::Id;

/// A fault of the blocks or labels of an expression.
#[derive(Clone, Copy, Debug)]
pub struct BlockFault<'a> {
    /// The kind of the fault: one from UnknownLabel to MisplacedCatch.
    pub kind: FaultKind,
    /// The label, for UnknownLabel and OtherLabel.
    pub id: Option<Id<'a>>,
    /// The index of the instruction. For UnclosedBlock it is the instruction that begins the block.
    pub at: usize,
}

/// An enclosing block: a control frame of the standard's validation algorithm.
#[derive(Clone, Copy, Debug)]
struct Frame<'a> {
    /// Its part that is open.
    part: Part,
    label: Option<Id<'a>>,
    /// Whether it is the outermost block with its label.
    first: bool,
    /// The index of the instruction that begins it.
    at: usize,
}

/// The enclosing blocks, the innermost last, and the set of their labels.
#[derive(Drop)]
struct Blocks<'a> {
    frames: Vec<Frame<'a>>,
    labels: HashSet<Id<'a>>,
}

/// Returns whether a label after `else` or `end` is allowed in a block with the label `of`.
fn repeats(label: Option<Id<'_>>, of: Option<Id<'_>>) -> bool
    ensures { result ≡ repeats (option_view name_of label.entry) (option_view name_of of.entry) }
{
    match label {
        None => true,
        Some(label) => match of {
            None => false,
            Some(of) => label == of,
        },
    }
}

/// Returns the fault of this kind, without a label.
fn fault<'a>(kind: FaultKind, at: usize) -> Option<BlockFault<'a>>
    ensures { option_map (λ f. f.kind) result ≡ Some kind }
{
    Some(BlockFault { kind, id: None, at })
}

impl<'a> Blocks<'a> {
    /// Returns whether an enclosing block has the label.
    fn has_label(&self, id: Id<'a>) -> bool
        requires { IsKept self.now }
        ensures { result ≡ labelled (name_of id.entry) (stack self.now) }
    {
        self.labels.contains(&id)
    }

    /// Adds the label of a new block. Returns whether no enclosing block has it.
    fn add_label(&mut self, label: Option<Id<'a>>) -> Result<bool, AllocError>
        requires { IsKept self.old }
        ensures stack { OnOk result (stack self.new ≡ stack self.old) }
        ensures kept { IfOk result (λ first. IsKeptBut label.entry first self.new) }
    {
        match label {
            Some(id) => Ok(self.labels.insert(id)?),
            None => Ok(false),
        }
    }

    /// Adds an innermost block, after its label.
    fn put(&mut self, frame: Frame<'a>) -> Result<(), AllocError>
        requires { IsKeptBut frame.label frame.first self.old }
        ensures stack { OnOk result (stack self.new ≡ frame_view frame.entry ∷ stack self.old) }
        ensures kept { OnOk result (IsKept self.new) }
    {
        self.frames.push(frame)?;
        Ok(())
    }

    /// Begins a block.
    fn begin(&mut self, part: Part, label: Option<Id<'a>>, at: usize) -> Result<(), AllocError>
        requires { IsKept self.old }
        ensures stack { OnOk result (stack self.new ≡ frame_of part (option_view name_of label.entry)
            ∷ stack self.old) }
        ensures kept { OnOk result (IsKept self.new) }
    {
        let first = self.add_label(label)?;
        self.put(Frame {
            part,
            label,
            first,
            at,
        })
    }

    /// Removes the innermost block, and keeps its label.
    fn pop(&mut self) -> Option<Frame<'a>>
        requires { IsKept self.old }
        ensures { PopsFrame self.old result self.new }
    {
        self.frames.pop()
    }

    /// Removes the label of a block that was removed.
    fn leave(&mut self, frame: Frame<'a>)
        requires { IsKeptBut frame.label frame.first self.old }
        ensures stack { stack self.new ≡ stack self.old }
        ensures kept { IsKept self.new }
    {
        if let Some(id) = frame.label {
            if frame.first {
                self.labels.remove(&id);
            }
        }
    }

    /// Adds a block that was removed again, with another part open.
    fn go_on(&mut self, frame: Frame<'a>, part: Part) -> Result<(), AllocError>
        requires { IsKeptBut frame.label frame.first self.old }
        ensures stack { OnOk result (stack self.new ≡ frame_of part
            (option_view name_of frame.entry.label) ∷ stack self.old) }
        ensures kept { OnOk result (IsKept self.new) }
    {
        self.put(Frame {
            part,
            label: frame.label,
            first: frame.first,
            at: frame.at,
        })
    }

    /// Opens the `else` part of the innermost block.
    fn take_else(
        &mut self,
        label: Option<Id<'a>>,
        at: usize,
    ) -> Result<Option<BlockFault<'a>>, AllocError>
        requires { IsKept self.old }
        ensures { IfOk result (λ o. Takes self.old (else_ (option_view name_of label.entry)) o
            self.new) }
    {
        let frame = match self.pop() {
            Some(frame) => frame,
            None => return Ok(fault(FaultKind::MisplacedElse, at)),
        };
        if !frame.part.allows_else() {
            return Ok(fault(FaultKind::MisplacedElse, at));
        }
        if !repeats(label, frame.label) {
            return Ok(Some(BlockFault {
                kind: FaultKind::OtherLabel,
                id: label,
                at,
            }));
        }
        self.go_on(frame, Part::Otherwise)?;
        Ok(None)
    }

    /// Ends the innermost block.
    fn take_end(&mut self, label: Option<Id<'a>>, at: usize) -> Option<BlockFault<'a>>
        requires { IsKept self.old }
        ensures { Takes self.old (end_ (option_view name_of label.entry)) result self.new }
    {
        let frame = match self.pop() {
            Some(frame) => frame,
            None => return fault(FaultKind::SurplusEnd, at),
        };
        if !repeats(label, frame.label) {
            return Some(BlockFault {
                kind: FaultKind::OtherLabel,
                id: label,
                at,
            });
        }
        self.leave(frame);
        None
    }

    /// Opens a `catch` part of the innermost block.
    fn take_catch(&mut self, at: usize) -> Result<Option<BlockFault<'a>>, AllocError>
        requires { IsKept self.old }
        ensures { IfOk result (λ o. Takes self.old catch_ o self.new) }
    {
        let frame = match self.pop() {
            Some(frame) => frame,
            None => return Ok(fault(FaultKind::MisplacedCatch, at)),
        };
        if !frame.part.allows_catch() {
            return Ok(fault(FaultKind::MisplacedCatch, at));
        }
        self.go_on(frame, Part::Catch)?;
        Ok(None)
    }

    /// Opens the `catch_all` part of the innermost block.
    fn take_catch_all(&mut self, at: usize) -> Result<Option<BlockFault<'a>>, AllocError>
        requires { IsKept self.old }
        ensures { IfOk result (λ o. Takes self.old catch_all o self.new) }
    {
        let frame = match self.pop() {
            Some(frame) => frame,
            None => return Ok(fault(FaultKind::MisplacedCatch, at)),
        };
        if !frame.part.allows_catch() {
            return Ok(fault(FaultKind::MisplacedCatch, at));
        }
        self.go_on(frame, Part::CatchAll)?;
        Ok(None)
    }

    /// Ends the innermost block with `delegate`.
    fn take_delegate(&mut self, at: usize) -> Option<BlockFault<'a>>
        requires { IsKept self.old }
        ensures { Takes self.old delegate result self.new }
    {
        let frame = match self.pop() {
            Some(frame) => frame,
            None => return fault(FaultKind::MisplacedCatch, at),
        };
        if !frame.part.allows_delegate() {
            return fault(FaultKind::MisplacedCatch, at);
        }
        self.leave(frame);
        None
    }

    /// Returns a fault if no enclosing block has the label.
    fn refer(&self, id: Id<'a>, at: usize) -> Option<BlockFault<'a>>
        requires { IsKept self.now }
        ensures { Takes self.now (refers (name_of id.entry)) result self.now }
    {
        if self.has_label(id) {
            return None;
        }
        Some(BlockFault {
            kind: FaultKind::UnknownLabel,
            id: Some(id),
            at,
        })
    }

    /// Does a step. Returns its fault if the step isn't allowed.
    fn take_step(&mut self, step: Step<'a>) -> Result<Option<BlockFault<'a>>, AllocError>
        requires { IsKept self.old }
        ensures { IfOk result (λ o. Takes self.old (act_view step.entry.act) o self.new) }
    {
        let at = step.at;
        match step.act {
            Act::Begin(part, label) => {
                self.begin(part, label, at)?;
                Ok(None)
            }
            Act::Refer(id) => Ok(self.refer(id, at)),
            Act::Else(label) => self.take_else(label, at),
            Act::End(label) => Ok(self.take_end(label, at)),
            Act::Catch => self.take_catch(at),
            Act::CatchAll => self.take_catch_all(at),
            Act::Delegate => Ok(self.take_delegate(at)),
        }
    }
}

/// Returns the first fault of the steps of an expression, which are in the order of the
/// instructions. None if the blocks are nested and each label is that of an enclosing block.
pub fn first_block_fault<'a>(
    alloc: Global,
    steps: &[Step<'a>],
) -> Result<Option<BlockFault<'a>>, AllocError>
    ensures nested { IfOk result (λ o. nests (acts steps.now) ≡ not (is_some o)) }
    ensures kind { IfOk result (λ o. option_map (λ f. f.kind) o ≡ first_fault [] (acts steps.now)) }
{
    let mut blocks = Blocks {
        frames: Vec::new(alloc),
        labels: HashSet::new(alloc),
    };
    for step in steps {
        if let Some(fault) = blocks.take_step(*step)? {
            return Ok(Some(fault));
        }
    }
    match blocks.pop() {
        Some(frame) => Ok(fault(FaultKind::UnclosedBlock, frame.at)),
        None => Ok(None),
    }
}

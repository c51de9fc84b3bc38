//! The blocks that are open (Text Format, "Control Instructions").

ghost use Rattle.std.specs.Prelude.{◌≡◌, [], IfOk, reverse};
ghost use Rattle.wat_scopes.specs.Steps.{acts};
ghost use Rattle.wat_scopes.specs.OpenBlocks.{labels, open_labels};

use crate::steps::{Act, Step};
use std::alloc::{AllocError, Global};
use wat_tokens::Id;

/// A block that is open.
#[derive(Clone, Copy, Debug)]
pub struct OpenBlock<'a> {
    /// Its label, if it has one.
    pub label: Option<Id<'a>>,
    /// The index of the instruction that begins it.
    pub at: usize,
}

/// Returns the blocks that are open after the steps of an expression, the outermost first. The steps
/// are in the order of the instructions, and each is allowed: [`crate::first_block_fault`] finds the
/// first that isn't.
pub fn open_blocks<'a>(alloc: Global, steps: &[Step<'a>]) -> Result<Vec<OpenBlock<'a>>, AllocError>
    ensures { IfOk result (λ v. reverse (labels v.items) ≡ open_labels [] (acts steps.now)) }
{
    let mut open = Vec::new(alloc);
    for step in steps {
        match step.act {
            Act::Begin(_, label) => open.push(OpenBlock { label, at: step.at })?,
            Act::End(_) => {
                open.pop();
            }
            Act::Delegate => {
                open.pop();
            }
            Act::Refer(_) => {}
            Act::Else(_) => {}
            Act::Catch => {}
            Act::CatchAll => {}
        }
    }
    Ok(open)
}

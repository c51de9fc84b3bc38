//! A command on its inputs, one after the other.

ghost use Rattle.std.specs.Prelude.{IsOkUnless, ℕ, IfOk, List, OnErr, map};
ghost use Rattle.wat_answers.specs.Prelude.{Appends, string_bytes, AppendsBeginning};
ghost use Rattle.wat.specs.Runs.{WritesNames, WritesPartOfNames};

use crate::directory::Wanted;
use std::alloc::Global;
use std::io;
use std::io::Write;
use wat_show::output::write_all_of;
use wat_show::{RunError, Watched};

/// Gets what a run doesn't write to its writer.
pub(crate) trait Watcher {
    /// An input can't be read or replaced, a directory can't be read, or memory ran out.
    fn unread(&self, name: &str, error: &io::Error);

    /// A directory has no wanted files.
    fn nothing_in(&self, directory: &str, wanted: Wanted);

    /// The report of an input that can't be printed or formatted: whole lines.
    fn refused(&self, report: &[u8]);

    /// The report of a check of the input that reports call by that name: it is empty for a module.
    fn checked(&mut self, name: &str, report: &[u8]);

    /// `count` of `all` inputs are done.
    fn done(&mut self, count: usize, all: usize);
}

/// What is done with an input.
pub(crate) trait Work {
    /// The output for the input with that name, and its status, from the state before to the state
    /// after.
    ghost answers: { Self → Self → List ℕ → List ℕ → ℕ → Type 0 };

    /// Does the work on an input. Returns what is to be written for it, and its status. The watcher
    /// gets everything else.
    fn work_on<T: Watcher>(&mut self, alloc: Global, name: &str, watcher: &mut T) -> (Vec<u8>, u8)
        ensures { answers self.old self.new name.now result.0.items result.1 };
}

/// Does the work on one input, writes the output for it, and returns the status.
fn run_on<J: Work, W: Write, T: Watcher>(
    alloc: Global,
    work: &mut J,
    name: &str,
    writer: &mut Watched<W>,
    watcher: &mut T,
) -> Result<u8, RunError>
    ensures all { IfOk result (λ status. (output : List ℕ)
        × J.answers work.old work.new name.now output status
        × Appends (W.contents writer.old.inner) (W.contents writer.new.inner) output) }
    ensures part { OnErr result ((output : List ℕ) × (status : ℕ)
        × J.answers work.old work.new name.now output status
        × AppendsBeginning (W.contents writer.old.inner) (W.contents writer.new.inner) output) }
    ensures only_write { IsOkUnless result RunError.Write }
{
    let (output, status) = work.work_on(alloc, name, watcher);
    write_all_of(writer, &output)?;
    Ok(status)
}

/// Does the work on each input, and writes the output for it before the next. Returns the greatest
/// status, and 0 if there are no inputs.
///
/// Returns [`RunError::Write`] at the first write that fails.
pub(crate) fn run<J: Work, W: Write, T: Watcher>(
    alloc: Global,
    work: &mut J,
    names: &[String],
    writer: &mut Watched<W>,
    watcher: &mut T,
) -> Result<u8, RunError>
    ensures all { IfOk result (WritesNames J.answers work.old work.new
        (map string_bytes names.now) (W.contents writer.old.inner) (W.contents writer.new.inner)) }
    ensures part { OnErr result (WritesPartOfNames J.answers work.old work.new
        (map string_bytes names.now) (W.contents writer.old.inner) (W.contents writer.new.inner)) }
    ensures only_write { IsOkUnless result RunError.Write }
{
    let mut worst = 0;
    let mut count = 0;
    for name in names {
        let status = run_on(alloc, work, name.as_str(), writer, watcher)?;
        worst = status.max(worst);
        count += 1;
        watcher.done(count, names.len());
    }
    Ok(worst)
}

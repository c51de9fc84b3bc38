//! The reading of modules.

ghost use Rattle.std.specs.Prelude.{◌≡◌, ◌⊎◌, ℕ, IfOk, IfErr, List};
ghost use Rattle.wat_answers.specs.Outcomes.{AnswersBytes};
ghost use Rattle.wat.specs.Inputs.{shown_name};
ghost use Rattle.wat.specs.Runs.{AnswersName, IsWritten, WritesName};

use crate::paint::colored;
use crate::run::{Watcher, Work};
use crate::source::{Sources, shown_name};
use std::alloc::Global;
use std::io;
use wat_answers::{Task, answer_for};

/// Reads an input and returns the answer for its bytes, and their status.
fn read_answer<S: Sources>(
    alloc: Global,
    task: Task,
    sources: &S,
    stdin: &str,
    name: &str,
) -> io::Result<(Vec<u8>, u8)>
    ensures output { IfOk result (λ output. (bytes : List ℕ) × S.gives sources.now name.now bytes
        × AnswersBytes task (shown_name stdin.now name.now) bytes output.0.items output.1) }
    ensures unread { IfErr result (λ _. S.fails sources.now name.now
        ⊎ ((bytes : List ℕ) × S.gives sources.now name.now bytes)) }
{
    let bytes = sources.read(alloc, name)?;
    Ok(answer_for(alloc, task, shown_name(stdin, name), &bytes)?)
}

/// Returns the answer for an input, and its status. If the input can't be read, or memory runs out,
/// the watcher gets the error, and the answer is empty, with status 2.
#[tactic(auto, unfolding(crate::specs::Runs::AnswersName))]
fn answer_of_input<S: Sources, T: Watcher>(
    alloc: Global,
    task: Task,
    sources: &S,
    stdin: &str,
    name: &str,
    watcher: &mut T,
) -> (Vec<u8>, u8)
    ensures { AnswersName (S.gives sources.now) (S.fails sources.now) task stdin.now name.now
        result.0.items result.1 }
{
    match read_answer(alloc, task, sources, stdin, name) {
        Ok(answer) => answer,
        Err(error) => {
            watcher.unread(shown_name(stdin, name), &error);
            (Vec::new(alloc), 2)
        }
    }
}

/// Returns what is written of an answer. The watcher gets the report of a check, and that of an input
/// that can't be printed.
#[tactic(auto, unfolding(crate::specs::Runs::IsWritten))]
fn written_of<T: Watcher>(
    alloc: Global,
    options: Options,
    name: &str,
    answer: Vec<u8>,
    status: u8,
    watcher: &mut T,
) -> Vec<u8>
    ensures { IsWritten options.color options.task status answer.items result.items }
{
    match options.task {
        Task::Check(_) => {
            watcher.checked(name, &answer);
            colored(alloc, options.color, name, answer)
        }
        Task::Print(_) if status != 0 => {
            watcher.refused(&answer);
            Vec::new(alloc)
        }
        Task::Json(_) | Task::Listing | Task::Print(_) => answer,
    }
}

/// Returns what is written for an input, and its status. The watcher gets everything else.
#[tactic(auto, unfolding(crate::specs::Runs::WritesName))]
fn output_for<S: Sources, T: Watcher>(
    alloc: Global,
    options: Options,
    sources: &S,
    stdin: &str,
    name: &str,
    watcher: &mut T,
) -> (Vec<u8>, u8)
    ensures { WritesName (S.gives sources.now) (S.fails sources.now) options.color options.task
        stdin.now name.now result.0.items result.1 }
{
    let (answer, status) = answer_of_input(alloc, options.task, sources, stdin, name, watcher);
    let shown = shown_name(stdin, name);
    (
        written_of(alloc, options, shown, answer, status, watcher),
        status,
    )
}

/// What is done with each input.
#[derive(Clone, Copy)]
pub(crate) struct Options {
    pub task: Task,
    /// Whether the reports of a check have colors.
    pub color: bool,
}

/// The commands `check`, `list` and `print`.
#[derive(Drop)]
pub(crate) struct Reading<'a, S> {
    pub options: Options,
    pub sources: S,
    /// The name of standard input in reports.
    pub stdin: &'a str,
}

impl<S: Sources> Work for Reading<'_, S> {
    ghost answers = { λ old new name output status. (new ≡ old)
        × WritesName (S.gives old.sources) (S.fails old.sources) old.options.color
        old.options.task old.stdin.now name output status };

    fn work_on<T: Watcher>(&mut self, alloc: Global, name: &str, watcher: &mut T) -> (Vec<u8>, u8) {
        let (sources, stdin) = (&self.sources, self.stdin);
        output_for(alloc, self.options, sources, stdin, name, watcher)
    }
}

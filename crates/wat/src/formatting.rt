//! The formatting of texts.

ghost use Rattle.std.specs.Prelude.{◌≡◌, ◌++◌, ◌⊎◌, ℕ, codes, IfOk, IfErr, List, MatchResult};
ghost use Rattle.wat_answers.specs.Prelude.{string_bytes, IsFormatted, ReportsBytes};
ghost use Rattle.wat.specs.Formats.{FormatsName, Settles, format_task};
ghost use Rattle.wat.specs.Inputs.{shown_name};

use crate::command::FormatMode;
use crate::diff::diff_of;
use crate::run::{Watcher, Work};
use crate::source::{Replaceable, shown_name};
use std::alloc::{AllocError, Global};
use std::io;
use wat_answers::bytes_formatted;

/// What becomes of a formatted text.
#[derive(Clone, Copy, Debug, PartialEq, Eq)]
pub(crate) enum FormatTask {
    /// It is written.
    WriteOut,
    /// The input's name is written if the formatted text differs.
    Check,
    /// A diff of the input and the formatted text is written if they differ.
    Compare,
    /// It replaces the input if it differs.
    Replace,
}

/// Returns what becomes of the formatted text of an input. Standard input can't be replaced.
fn format_task(mode: FormatMode, name: &str) -> FormatTask
    ensures { result ≡ format_task mode name.now }
{
    match mode {
        FormatMode::ListChanged => FormatTask::Check,
        FormatMode::Diff => FormatTask::Compare,
        FormatMode::Rewrite if name == "-" => FormatTask::WriteOut,
        FormatMode::Rewrite => FormatTask::Replace,
    }
}

/// Returns a name and a line break.
fn line_of(alloc: Global, name: &str) -> Result<Vec<u8>, AllocError>
    ensures { IfOk result (λ line. line.items ≡ name.now ++ codes "\n") }
{
    let mut line = String::from_str(alloc, name)?;
    line.push_str("\n")?;
    Ok(line.into_bytes())
}

/// Shows, compares or replaces an input with its formatted text. Returns the output for the input,
/// which is shown by the name `shown`, and its status.
#[tactic(auto, unfolding(crate::specs::Formats::Settles))]
fn settle<P: Replaceable>(
    alloc: Global,
    task: FormatTask,
    inputs: &mut P,
    shown: &str,
    name: &str,
    bytes: &[u8],
    answer: String,
) -> io::Result<(Vec<u8>, u8)>
    ensures settled { IfOk result (λ output. Settles P.puts task inputs.old inputs.new shown.now
        name.now bytes.now (string_bytes answer) output.0.items output.1) }
    ensures kept { IfErr result (λ _. inputs.new ≡ inputs.old) }
{
    match task {
        FormatTask::WriteOut => Ok((answer.into_bytes(), 0)),
        _ if answer.as_bytes() == bytes => Ok((Vec::new(alloc), 0)),
        FormatTask::Check => Ok((line_of(alloc, shown)?, 1)),
        FormatTask::Compare => Ok((diff_of(alloc, shown, bytes, answer.as_bytes())?, 1)),
        FormatTask::Replace => {
            inputs.replace(alloc, name, answer.as_str())?;
            Ok((Vec::new(alloc), 0))
        }
    }
}

/// Reads and formats an input, and shows, compares or replaces it; or returns the report of an input
/// that can't be formatted.
fn name_formatted<P: Replaceable>(
    alloc: Global,
    task: FormatTask,
    inputs: &mut P,
    stdin: &str,
    name: &str,
) -> io::Result<Result<(Vec<u8>, u8), Vec<u8>>>
    ensures done { IfOk result (λ done. (bytes : List ℕ) × P.gives inputs.old name.now bytes
        × MatchResult done
        (λ output. (answer : List ℕ) × IsFormatted bytes answer
        × Settles P.puts task inputs.old inputs.new (shown_name stdin.now name.now) name.now bytes
        answer output.0.items output.1)
        (λ report. ReportsBytes (shown_name stdin.now name.now) bytes report.items
        × (inputs.new ≡ inputs.old))) }
    ensures unread { IfErr result (λ _. (P.fails inputs.old name.now
        ⊎ ((bytes : List ℕ) × P.gives inputs.old name.now bytes)) × (inputs.new ≡ inputs.old)) }
{
    let bytes = inputs.read(alloc, name)?;
    let shown = shown_name(stdin, name);
    match bytes_formatted(alloc, shown, &bytes)? {
        Ok(answer) => Ok(Ok(settle(alloc, task, inputs, shown, name, &bytes, answer)?)),
        Err(report) => Ok(Err(report)),
    }
}

/// Formats an input. Returns what is written for it, and its status. The watcher gets the report of
/// an input that can't be formatted, and the error of one that can't be read or replaced.
#[tactic(auto, unfolding(crate::specs::Formats::FormatsName))]
fn output_for<P: Replaceable, T: Watcher>(
    alloc: Global,
    task: FormatTask,
    inputs: &mut P,
    stdin: &str,
    name: &str,
    watcher: &mut T,
) -> (Vec<u8>, u8)
    ensures { FormatsName P.gives P.fails P.puts task inputs.old inputs.new stdin.now name.now
        result.0.items result.1 }
{
    match name_formatted(alloc, task, inputs, stdin, name) {
        Ok(Ok(output)) => output,
        Ok(Err(report)) => {
            watcher.refused(&report);
            (Vec::new(alloc), 1)
        }
        Err(error) => {
            watcher.unread(shown_name(stdin, name), &error);
            (Vec::new(alloc), 2)
        }
    }
}

/// The command `fmt`.
#[derive(Drop)]
pub(crate) struct Formatting<'a, P> {
    pub mode: FormatMode,
    pub inputs: P,
    /// The name of standard input in reports.
    pub stdin: &'a str,
}

impl<P: Replaceable> Work for Formatting<'_, P> {
    ghost answers = { λ old new name output status. (new.mode ≡ old.mode) × (new.stdin ≡ old.stdin)
        × FormatsName P.gives P.fails P.puts (format_task old.mode name) old.inputs new.inputs
        old.stdin.now name output status };

    fn work_on<T: Watcher>(&mut self, alloc: Global, name: &str, watcher: &mut T) -> (Vec<u8>, u8) {
        output_for(
            alloc,
            format_task(self.mode, name),
            &mut self.inputs,
            self.stdin,
            name,
            watcher,
        )
    }
}

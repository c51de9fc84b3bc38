//! The library for C: the answers for one text, as functions for C and for languages that call C.
//!
//! The caller owns the text and the room for the output. Each is a pointer and a length. A call
//! keeps nothing for the next one. `bindings/wat.h` declares and documents the functions.
//!
//! Reports call the text `<text>`. The functions that end in `_named` take another name, as bytes. In
//! a name that isn't UTF-8, each invalid sequence of bytes is replaced by U+FFFD.
#![tactic(auto)]

ghost use Rattle.std.specs.Prelude.{◌≡◌, List, IfOk, codes, pos};
ghost use Rattle.std.specs.Str.Lossy.{utf8_lossy};
ghost use Rattle.wat_answers.specs.Prelude.{ChecksBytes, AnswersBytes};
ghost use Rattle.wat_c.specs.Answers.{Answered, Filled, FormatsBytes, layout_of};
ghost use Rattle.wat_c.specs.Faults.{FaultsAnswered, records_of, words_of};
ghost use Rattle.wat_answers.specs.declared.notice.Notice.{Notice};
ghost use Rattle.wat_answers.specs.declared.task.Extent.TheVariants.{Names, Syntax};
ghost use Rattle.wat_answers.specs.declared.task.Task.TheVariants.{Check, Listing, Print};

mod fault;

use fault::{Records, WatFault, records_of};
use std::alloc::{AllocError, Global};
use wat_answers::{Extent, Task, VERSION, answer_for, bytes_formatted, checked_bytes};
use wat_print::Layout;

/// The name of the text in reports.
const NAME: &str = "<text>";

/// Memory ran out.
const NO_MEMORY: i32 = 2;

/// Stores the length of the output, and writes the output to the front of the room if it fits.
fn fill<T: Copy>(output: &[T], room: &mut [T], needed: &mut usize)
    ensures { Filled output.now room.old room.new needed.new }
{
    *needed = output.len();
    if output.len() <= room.len() {
        room[..output.len()].copy_from_slice(output);
    }
}

/// Writes the answer for the text of that name. Returns its status, or 2 if memory ran out.
fn answer(
    alloc: Global,
    task: Task,
    name: &str,
    text: &[u8],
    room: &mut [u8],
    needed: &mut usize,
) -> i32
    ensures { Answered (AnswersBytes task name.now text.now) result room.old room.new needed.old
        needed.new }
{
    match answer_for(alloc, task, name, text) {
        Ok((output, status)) => {
            fill(&output, room, needed);
            i32::from(status)
        }
        Err(AllocError) => NO_MEMORY,
    }
}

/// The same for a name in bytes. Each invalid sequence of bytes in the name becomes U+FFFD.
fn answer_named(
    alloc: Global,
    task: Task,
    name: &[u8],
    text: &[u8],
    room: &mut [u8],
    needed: &mut usize,
) -> i32
    ensures { Answered (AnswersBytes task (utf8_lossy name.now) text.now) result room.old room.new
        needed.old needed.new }
{
    match String::from_utf8_lossy(alloc, name) {
        Ok(name) => answer(alloc, task, name.as_str(), text, room, needed),
        Err(AllocError) => NO_MEMORY,
    }
}

/// Checks that the text is a module. The output is empty if it is, else the report of its errors.
#[unsafe(no_mangle)]
pub extern "C" fn wat_check(alloc: Global, text: &[u8], room: &mut [u8], needed: &mut usize) -> i32
    ensures { Answered (AnswersBytes (Check Names) (codes "<text>") text.now) result room.old room.new
        needed.old needed.new }
{
    answer(alloc, Task::Check(Extent::Names), NAME, text, room, needed)
}

/// The same as [`wat_check`], for a text of that name.
#[unsafe(no_mangle)]
pub extern "C" fn wat_check_named(
    alloc: Global,
    name: &[u8],
    text: &[u8],
    room: &mut [u8],
    needed: &mut usize,
) -> i32
    ensures { Answered (AnswersBytes (Check Names) (utf8_lossy name.now) text.now) result room.old room.new
        needed.old needed.new }
{
    answer_named(alloc, Task::Check(Extent::Names), name, text, room, needed)
}

/// The same as [`wat_check`], without the errors of names, blocks and imports.
#[unsafe(no_mangle)]
pub extern "C" fn wat_check_syntax(
    alloc: Global,
    text: &[u8],
    room: &mut [u8],
    needed: &mut usize,
) -> i32
    ensures { Answered (AnswersBytes (Check Syntax) (codes "<text>") text.now) result room.old
        room.new needed.old needed.new }
{
    answer(alloc, Task::Check(Extent::Syntax), NAME, text, room, needed)
}

/// Checks bytes, and returns the records of what is found, with their messages, and the status.
fn faults_of(alloc: Global, extent: Extent, text: &[u8]) -> Result<(Records, u8), AllocError>
    ensures { IfOk result (λ found. (ns : List Notice) × ChecksBytes extent text.now ns found.1
        × (found.0.faults.items ≡ records_of 0 ns) × (found.0.messages.items ≡ words_of ns)) }
{
    let (notices, status) = checked_bytes(alloc, extent, text)?;
    Ok((records_of(alloc, &notices)?, status))
}

/// Writes the errors of a check as records, and their messages. Returns the status, or 2 if memory
/// ran out.
fn write_faults(
    alloc: Global,
    extent: Extent,
    text: &[u8],
    faults: &mut [WatFault],
    count: &mut usize,
    messages: &mut [u8],
    needed: &mut usize,
) -> i32
    ensures { FaultsAnswered extent text.now result faults.old faults.new count.old count.new
        messages.old messages.new needed.old needed.new }
{
    match faults_of(alloc, extent, text) {
        Ok((found, status)) => {
            fill(&found.faults, faults, count);
            fill(&found.messages, messages, needed);
            i32::from(status)
        }
        Err(AllocError) => NO_MEMORY,
    }
}

/// Writes the errors that [`wat_check`] reports as records, in the same order, and their messages.
#[unsafe(no_mangle)]
pub extern "C" fn wat_faults(
    alloc: Global,
    text: &[u8],
    faults: &mut [WatFault],
    count: &mut usize,
    messages: &mut [u8],
    needed: &mut usize,
) -> i32
    ensures { FaultsAnswered Names text.now result faults.old faults.new count.old count.new
        messages.old messages.new needed.old needed.new }
{
    write_faults(alloc, Extent::Names, text, faults, count, messages, needed)
}

/// The same as [`wat_faults`], without the errors of names, blocks and imports.
#[unsafe(no_mangle)]
pub extern "C" fn wat_faults_syntax(
    alloc: Global,
    text: &[u8],
    faults: &mut [WatFault],
    count: &mut usize,
    messages: &mut [u8],
    needed: &mut usize,
) -> i32
    ensures { FaultsAnswered Syntax text.now result faults.old faults.new count.old count.new
        messages.old messages.new needed.old needed.new }
{
    write_faults(alloc, Extent::Syntax, text, faults, count, messages, needed)
}

/// Lists the contents of the module. If the text isn't a module, the output is the report of its
/// first error.
#[unsafe(no_mangle)]
pub extern "C" fn wat_list(alloc: Global, text: &[u8], room: &mut [u8], needed: &mut usize) -> i32
    ensures { Answered (AnswersBytes Listing (codes "<text>") text.now) result room.old room.new
        needed.old needed.new }
{
    answer(alloc, Task::Listing, NAME, text, room, needed)
}

/// The same as [`wat_list`], for a text of that name.
#[unsafe(no_mangle)]
pub extern "C" fn wat_list_named(
    alloc: Global,
    name: &[u8],
    text: &[u8],
    room: &mut [u8],
    needed: &mut usize,
) -> i32
    ensures { Answered (AnswersBytes Listing (utf8_lossy name.now) text.now) result room.old
        room.new needed.old needed.new }
{
    answer_named(alloc, Task::Listing, name, text, room, needed)
}

/// Returns the layout for one line, or for an instruction a line.
fn layout_of(line: bool) -> Layout
    ensures { result ≡ layout_of line }
{
    if line { Layout::Line } else { Layout::Indented }
}

/// Prints the module as a text, on one line or with an instruction a line. If the text isn't a
/// module, the output is the report of its first error.
#[unsafe(no_mangle)]
pub extern "C" fn wat_print(
    alloc: Global,
    text: &[u8],
    line: bool,
    room: &mut [u8],
    needed: &mut usize,
) -> i32
    ensures { Answered (AnswersBytes (Print (layout_of line)) (codes "<text>") text.now) result
        room.old room.new needed.old needed.new }
{
    answer(
        alloc,
        Task::Print(layout_of(line)),
        NAME,
        text,
        room,
        needed,
    )
}

/// The same as [`wat_print`], for a text of that name.
#[unsafe(no_mangle)]
pub extern "C" fn wat_print_named(
    alloc: Global,
    name: &[u8],
    text: &[u8],
    line: bool,
    room: &mut [u8],
    needed: &mut usize,
) -> i32
    ensures { Answered (AnswersBytes (Print (layout_of line)) (utf8_lossy name.now) text.now)
        result room.old room.new needed.old needed.new }
{
    answer_named(
        alloc,
        Task::Print(layout_of(line)),
        name,
        text,
        room,
        needed,
    )
}

/// Formats the text of that name. Returns the status, or 2 if memory ran out.
#[tactic(auto, unfolding(crate::specs::Answers::FormatsBytes))]
fn format(alloc: Global, name: &str, text: &[u8], room: &mut [u8], needed: &mut usize) -> i32
    ensures { Answered (FormatsBytes name.now text.now) result room.old room.new needed.old
        needed.new }
{
    match bytes_formatted(alloc, name, text) {
        Ok(Ok(formatted)) => {
            fill(formatted.as_bytes(), room, needed);
            0
        }
        Ok(Err(report)) => {
            fill(&report, room, needed);
            1
        }
        Err(AllocError) => NO_MEMORY,
    }
}

/// Formats the text. If it has an invalid token, the output is the report of the first one.
#[unsafe(no_mangle)]
pub extern "C" fn wat_format(alloc: Global, text: &[u8], room: &mut [u8], needed: &mut usize) -> i32
    ensures { Answered (FormatsBytes (codes "<text>") text.now) result room.old room.new
        needed.old needed.new }
{
    format(alloc, NAME, text, room, needed)
}

/// The same as [`wat_format`], for a text of that name.
#[unsafe(no_mangle)]
pub extern "C" fn wat_format_named(
    alloc: Global,
    name: &[u8],
    text: &[u8],
    room: &mut [u8],
    needed: &mut usize,
) -> i32
    ensures { Answered (FormatsBytes (utf8_lossy name.now) text.now) result room.old room.new
        needed.old needed.new }
{
    match String::from_utf8_lossy(alloc, name) {
        Ok(name) => format(alloc, name.as_str(), text, room, needed),
        Err(AllocError) => NO_MEMORY,
    }
}

/// Writes the name and the version of the library.
#[unsafe(no_mangle)]
pub extern "C" fn wat_version(room: &mut [u8], needed: &mut usize) -> i32
    ensures named { Filled VERSION.now room.old room.new needed.new }
    ensures status { result ≡ pos 0 }
{
    fill(VERSION.as_bytes(), room, needed);
    0
}

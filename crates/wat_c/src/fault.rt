//! Faults as records of numbers.

ghost use Rattle.std.specs.Prelude.{◌≡◌, ◌≤◌, ◌++◌, ◌-◌, IfOk, OnOk, length};
ghost use Rattle.wat_answers.specs.Notices.{further_words, more_words};
ghost use Rattle.wat_c.specs.Faults.{notice_words, number_record, record_of, records_of, words_of};
ghost use Rattle.wat_answers.specs.declared.notice.Notice.TheVariants.{Found, More, Further};

use std::alloc::{AllocError, Global};
use wat_answers::{Notice, add_further_words, add_more_words};
use wat_report::Diagnostic;

/// A fault as C has it. `message`, `hint`, `expected` and `end` are offsets into the messages: the
/// message is the bytes from `message` up to `hint`, the hint those from `hint` up to `expected`, and
/// the words on what could stand there those from `expected` up to `end`.
#[repr(C)]
#[derive(Clone, Copy)]
pub struct WatFault {
    /// The offset in the text, in bytes.
    pub offset: usize,
    /// The number of bytes to underline from there on.
    pub length: usize,
    /// The line, from 1.
    pub line: usize,
    /// The column in characters, from 1.
    pub column: usize,
    /// The number of the fault, as `WAT_FAULT_..` of `bindings/wat.h` has it; 0 for the number of
    /// further invalid fields, which has no place.
    pub fault: usize,
    /// The offset of the message.
    pub message: usize,
    /// The offset of the hint, where the message ends.
    pub hint: usize,
    /// The offset of the words on what could stand there, where the hint ends.
    pub expected: usize,
    /// The offset where these words end.
    pub end: usize,
}

/// Faults as records, and their messages.
#[derive(Drop)]
pub struct Records {
    pub faults: Vec<WatFault>,
    pub messages: Vec<u8>,
}

/// Adds the words of a diagnostic to the messages, and returns its record.
fn diagnostic_record(
    messages: &mut Vec<u8>,
    diagnostic: &Diagnostic,
) -> Result<WatFault, AllocError>
    ensures words { OnOk result (messages.new.items ≡ messages.old.items
        ++ notice_words (Found diagnostic.now)) }
    ensures fault { IfOk result (λ r. r ≡ record_of (length messages.old.items)
        (Found diagnostic.now)) }
{
    let message = messages.len();
    messages.extend_from_slice(&diagnostic.message)?;
    let hint = messages.len();
    messages.extend_from_slice(&diagnostic.hint)?;
    let expected = messages.len();
    messages.extend_from_slice(&diagnostic.expected)?;
    Ok(WatFault {
        offset: diagnostic.offset,
        length: diagnostic.length,
        line: diagnostic.place.line,
        column: diagnostic.place.column,
        fault: usize::from(diagnostic.kind.number()),
        message,
        hint,
        expected,
        end: messages.len(),
    })
}

/// Returns the record of a number of further errors, whose words are the messages between two
/// offsets.
fn number_record(message: usize, end: usize) -> WatFault
    requires { message ≤ end }
    ensures { result ≡ number_record message (end - message) }
{
    WatFault {
        offset: 0,
        length: 0,
        line: 0,
        column: 0,
        fault: 0,
        message,
        hint: end,
        expected: end,
        end,
    }
}

/// Adds the words for a number of further invalid fields to the messages, and returns the record.
fn more_record(messages: &mut Vec<u8>, count: usize) -> Result<WatFault, AllocError>
    ensures words { OnOk result (messages.new.items ≡ messages.old.items ++ more_words count) }
    ensures fault { IfOk result (λ r. r ≡ record_of (length messages.old.items) (More count)) }
{
    let message = messages.len();
    add_more_words(messages, count)?;
    Ok(number_record(message, messages.len()))
}

/// Adds the words for a number of further errors of names, blocks and imports to the messages, and
/// returns the record.
fn further_record(messages: &mut Vec<u8>, count: usize) -> Result<WatFault, AllocError>
    ensures words { OnOk result (messages.new.items ≡ messages.old.items ++ further_words count) }
    ensures fault { IfOk result (λ r. r ≡ record_of (length messages.old.items) (Further count)) }
{
    let message = messages.len();
    add_further_words(messages, count)?;
    Ok(number_record(message, messages.len()))
}

/// Adds the words of a notice to the messages, and returns its record.
fn notice_record(messages: &mut Vec<u8>, notice: &Notice) -> Result<WatFault, AllocError>
    ensures words { OnOk result (messages.new.items ≡ messages.old.items
        ++ notice_words notice.now) }
    ensures fault { IfOk result (λ r. r ≡ record_of (length messages.old.items) notice.now) }
{
    match notice {
        Notice::Found(diagnostic) => diagnostic_record(messages, diagnostic),
        Notice::More(count) => more_record(messages, *count),
        Notice::Further(count) => further_record(messages, *count),
    }
}

/// Returns the records of notices, and their messages.
pub(crate) fn records_of(alloc: Global, notices: &[Notice]) -> Result<Records, AllocError>
    ensures faults { IfOk result (λ r. r.faults.items ≡ records_of 0 notices.now) }
    ensures messages { IfOk result (λ r. r.messages.items ≡ words_of notices.now) }
{
    let mut faults = Vec::new(alloc);
    let mut messages = Vec::new(alloc);
    for notice in notices {
        faults.push(notice_record(&mut messages, notice)?)?;
    }
    Ok(Records { faults, messages })
}

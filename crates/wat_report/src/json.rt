//! Diagnostics as JSON (RFC 8259).

ghost use Rattle.std.specs.Prelude.{◌≡◌, ◌++◌, OnOk, flat_map};
ghost use Rattle.wat_report.specs.Json.{json_escape, json_fault, json_head, json_member, json_notes, json_number, json_place, json_string, json_text, json_words};

use crate::bytes::add_hex;
use crate::diagnostic::Diagnostic;
use crate::write::{add, add_number};
use std::alloc::AllocError;

/// Adds a byte of a string, as its escape if it needs one.
fn add_escaped(out: &mut Vec<u8>, byte: u8) -> Result<(), AllocError>
    ensures { OnOk result (out.new.items ≡ out.old.items ++ json_escape byte) }
{
    match byte {
        b'"' => add(out, "\\\""),
        b'\\' => add(out, "\\\\"),
        0..=31 => {
            add(out, "\\u00")?;
            add_hex(out, byte)
        }
        _ => {
            out.push(byte)?;
            Ok(())
        }
    }
}

/// Adds the bytes of a string, without its quotes.
fn add_characters(out: &mut Vec<u8>, text: &[u8]) -> Result<(), AllocError>
    ensures { OnOk result (out.new.items ≡ out.old.items ++ flat_map json_escape text.now) }
{
    for byte in text {
        add_escaped(out, *byte)?;
    }
    Ok(())
}

/// Adds a text in UTF-8 as a string of JSON. The escapes are those of `"`, `\` and the control
/// characters below U+0020.
#[tactic(auto, unfolding(crate::specs::Json::json_string))]
fn add_json_string(out: &mut Vec<u8>, text: &[u8]) -> Result<(), AllocError>
    ensures { OnOk result (out.new.items ≡ out.old.items ++ json_string text.now) }
{
    add(out, "\"")?;
    add_characters(out, text)?;
    add(out, "\"")
}

/// Adds the first member of an object of JSON: the file.
///
/// The error is AllocError if memory runs out. Then a prefix of the member may have been added.
#[tactic(auto, unfolding(crate::specs::Json::json_head))]
pub fn add_json_head(out: &mut Vec<u8>, file: &str) -> Result<(), AllocError>
    ensures { OnOk result (out.new.items ≡ out.old.items ++ json_head file.now) }
{
    add(out, "{\"file\":")?;
    add_json_string(out, file.as_bytes())
}

/// Adds a further member of an object of JSON, with a number.
///
/// The error is AllocError if memory runs out. Then a prefix of the member may have been added.
#[tactic(auto, unfolding(crate::specs::Json::json_number))]
pub fn add_json_number(out: &mut Vec<u8>, name: &str, number: usize) -> Result<(), AllocError>
    ensures { OnOk result (out.new.items ≡ out.old.items ++ json_number name.now number) }
{
    add(out, ",\"")?;
    add(out, name)?;
    add(out, "\":")?;
    add_number(out, number)
}

/// Adds a further member with a string.
#[tactic(auto, unfolding(crate::specs::Json::json_member))]
fn add_member(out: &mut Vec<u8>, name: &str, text: &[u8]) -> Result<(), AllocError>
    ensures { OnOk result (out.new.items ≡ out.old.items ++ json_member name.now text.now) }
{
    add(out, ",\"")?;
    add(out, name)?;
    add(out, "\":")?;
    add_json_string(out, text)
}

/// Adds a further member with a string. Adds nothing if the string is empty.
#[tactic(auto, using(crate::proofs::Labels::members))]
fn add_words(out: &mut Vec<u8>, name: &str, words: &[u8]) -> Result<(), AllocError>
    ensures { OnOk result (out.new.items ≡ out.old.items ++ json_words name.now words.now) }
{
    if words.is_empty() {
        return Ok(());
    }
    add_member(out, name, words)
}

/// Adds the members for the position of the error.
#[tactic(auto, unfolding(crate::specs::Json::json_place))]
fn add_place(out: &mut Vec<u8>, diagnostic: &Diagnostic) -> Result<(), AllocError>
    ensures { OnOk result (out.new.items ≡ out.old.items ++ json_place diagnostic.now) }
{
    add_json_number(out, "line", diagnostic.place.line)?;
    add_json_number(out, "column", diagnostic.place.column)?;
    add_json_number(out, "offset", diagnostic.offset)?;
    add_json_number(out, "length", diagnostic.length)
}

/// Adds the members for the kind of the error.
#[tactic(auto, unfolding(crate::specs::Json::json_fault))]
fn add_fault(out: &mut Vec<u8>, diagnostic: &Diagnostic) -> Result<(), AllocError>
    ensures { OnOk result (out.new.items ≡ out.old.items ++ json_fault diagnostic.now) }
{
    add_member(out, "fault", diagnostic.kind.name().as_bytes())?;
    add_member(out, "message", &diagnostic.message)
}

/// Adds the members `hint` and `expected`.
#[tactic(auto, unfolding(crate::specs::Json::json_notes))]
fn add_notes(out: &mut Vec<u8>, diagnostic: &Diagnostic) -> Result<(), AllocError>
    ensures { OnOk result (out.new.items ≡ out.old.items ++ json_notes diagnostic.now) }
{
    add_words(out, "hint", &diagnostic.hint)?;
    add_words(out, "expected", &diagnostic.expected)
}

/// Adds a diagnostic as an object of JSON on a line: `file`, `line`, `column`, `offset`, `length`,
/// `fault`, `message`, and `hint` or `expected` if the report has such a line.
///
/// The error is AllocError if memory runs out. Then a prefix of the line may have been added.
#[tactic(auto, unfolding(crate::specs::Json::json_text))]
pub fn add_json(out: &mut Vec<u8>, file: &str, diagnostic: &Diagnostic) -> Result<(), AllocError>
    ensures { OnOk result (out.new.items ≡ out.old.items ++ json_text file.now diagnostic.now) }
{
    add_json_head(out, file)?;
    add_place(out, diagnostic)?;
    add_fault(out, diagnostic)?;
    add_notes(out, diagnostic)?;
    add(out, "}\n")
}

//! Diagnostics of errors in a text: line, column, message, the line of the text, a hint.
//!
//! [`diagnostic_of`] returns the [`Diagnostic`] of an error in a text, and [`diagnostic_in`] that of
//! an error in a text whose tokens are known. [`diagnostic_of_name`] returns that of a fault of names,
//! blocks or imports. [`add_diagnostic`] adds a diagnostic as a report for a
//! person, and [`add_json`] as an object of JSON; [`add_report`] adds the report of an error.
//! [`text_or_diagnostic`] returns the text that bytes are, or the diagnostic of the first byte that
//! isn't UTF-8. [`line_column`] and [`line_at`] return the position and the line of an offset, and
//! [`nearest_mnemonics`] returns the mnemonics nearest to a word.
//!
//! Offsets are in bytes from the start of the text. An offset may be inside a character, or after
//! the end of the text.
#![tactic(auto)]

mod around;
pub mod bytes;
mod caret;
pub mod diagnostic;
mod escapes;
mod found;
mod front;
mod hint;
mod hint_words;
pub mod json;
pub mod kind;
mod label_hint;
pub mod laws;
pub mod lines;
mod meant;
pub mod name_diagnostic;
mod name_hint;
mod name_rules;
pub mod nearest;
pub mod report;
mod rules;
mod write;

pub use bytes::text_or_diagnostic;
pub use diagnostic::{Diagnostic, diagnostic_in, diagnostic_of};
pub use json::{add_json, add_json_head, add_json_number};
pub use kind::Kind;
pub use lines::{LineColumn, line_at, line_column};
pub use meant::{FIELD_WORDS, Keyword};
pub use name_diagnostic::diagnostic_of_name;
pub use nearest::nearest_mnemonics;
pub use report::{add_diagnostic, add_report};

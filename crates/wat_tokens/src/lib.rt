//! Tokens of the WebAssembly text format, and a parser that takes them one by one.
//!
//! [`Parser::new`] cuts a text into tokens (WebAssembly Core Specification, Text Format, "Lexical
//! Format"). A type implements [`Parse`] if its values can be read, and [`Peek`] if its values are
//! recognized by lookahead. All offsets are in bytes from the start of the text.
#![tactic(auto)]

mod closing;
pub mod counter;
pub mod cursor;
pub mod enclosed;
pub mod floats;
pub mod index;
pub mod integers;
pub mod kw;
pub mod name_annotation;
mod next_visible;
pub mod ownership;
pub mod parser;
pub mod repeat;
pub mod strings;
pub mod traits;
pub mod whole_text;
pub mod words;
pub mod wrapped;

pub use cursor::Cursor;
pub use floats::{F32, F64};
pub use index::{Id, Index};
pub use name_annotation::NameAnnotation;
pub use parser::Parser;
pub use traits::{Parse, Peek};
pub use wat_lexer::cut::{one_cut, one_outcome};
pub use wat_lexer::fault::{Error, Fault};
pub use wat_lexer::number::{Integer, Sign};
pub use wat_lexer::span::Span;
pub use wat_lexer::token::Token;

/// The result of a call that can fail with an [`Error`].
pub type Result<T> = std::result::Result<T, Error>;

//! The tokens that are possible in place of a token with an error.
//!
//! The parser finds these tokens: it parses the text up to the error with each candidate after it. A
//! candidate is possible if the text is then refused at its end, or not at all. This is not proved:
//! no contract describes the position of a fault.

use crate::reading::module_of;
use crate::shortened::{short_text, word_at};
use crate::words::INNER_WORDS;
use bumpalo::Bump;
use std::alloc::{AllocError, Global};
use wat_core::wat_lexer::tokens::Tokens;
use wat_core::wat_mnemonics::table::OPS;
use wat_core::{Error, Fault, Token, module_faults};
use wat_report::FIELD_WORDS;

/// A kind of token as a candidate. Words that begin a group aren't kinds.
#[derive(Clone, Copy, PartialEq, Eq)]
enum Kind {
    Open,
    Close,
    Identifier,
    Integer,
    String,
    ValueType,
    ReferenceType,
    Instruction,
    /// The word `binary`, after which the pieces of a binary module follow.
    Binary,
}

const KINDS: [Kind; 9] = [
    Kind::Open,
    Kind::Close,
    Kind::Identifier,
    Kind::Integer,
    Kind::String,
    Kind::ValueType,
    Kind::ReferenceType,
    Kind::Instruction,
    Kind::Binary,
];

impl Kind {
    /// Returns the name of the kind in the line `expected: ..`.
    fn name(self) -> &'static str {
        match self {
            Kind::Open => "`(`",
            Kind::Close => "`)`",
            Kind::Identifier => "an identifier",
            Kind::Integer => "an integer",
            Kind::String => "a string",
            Kind::ValueType => "a value type",
            Kind::ReferenceType => "a reference type",
            Kind::Instruction => "an instruction",
            Kind::Binary => "`binary`",
        }
    }

    /// Returns a token of the kind.
    fn one(self) -> &'static str {
        match self {
            Kind::Open => "(",
            Kind::Close => ")",
            Kind::Identifier => "$x",
            Kind::Integer => "0",
            Kind::String => "\"\"",
            Kind::ValueType => "i32",
            Kind::ReferenceType => "funcref",
            Kind::Instruction => "nop",
            Kind::Binary => "binary",
        }
    }
}

/// The maximum number of bytes that are parsed with each candidate. After a longer field, no
/// candidate is tried.
const LONGEST: usize = 65_536;

/// The maximum number of bytes before the error in a field. A longer field is shortened before it is
/// read again.
const SHORT: usize = 1_024;

/// The groups that are open after some tokens.
#[derive(Clone, Copy)]
struct Opened {
    /// The number of tokens.
    count: usize,
    /// The number of open groups.
    depth: usize,
    /// The offset of the first group within another, in bytes, if there is one.
    first_field: Option<usize>,
    /// The index of the last token `(` that opens a group within exactly one other group.
    last_field: usize,
    /// Whether the last token is a `(`.
    behind_paren: bool,
    /// The number of open groups around the outermost open group of an annotation.
    annotation: Option<usize>,
}

impl Opened {
    /// Adds the token `(` at an index.
    fn open(&mut self, tokens: &Tokens, index: usize) {
        if self.depth == 1 {
            self.last_field = index;
            self.first_field = self.first_field.or(Some(offset_at(tokens, index)));
        }
        self.behind_paren = true;
        self.depth = self.depth.saturating_add(1);
    }

    /// Adds a token `)`.
    fn close(&mut self) {
        self.depth = self.depth.saturating_sub(1);
        if self.annotation == Some(self.depth) {
            self.annotation = None;
        }
    }

    /// Adds the token at an index.
    fn add(&mut self, tokens: &Tokens, index: usize) {
        self.count = index.saturating_add(1);
        if index >= tokens.len() {
            return;
        }
        if tokens.opens(index) {
            return self.open(tokens, index);
        }
        self.behind_paren = false;
        if tokens.closes(index) {
            self.close();
        } else if tokens.annotates(index) {
            self.annotation = self.annotation.or(Some(self.depth.saturating_sub(1)));
        }
    }
}

/// Returns the offset of the token at an index, in bytes, or 0 if there is no such token.
fn offset_at(tokens: &Tokens, index: usize) -> usize {
    if index < tokens.len() {
        tokens.offset(index)
    } else {
        0
    }
}

/// Returns the groups that are open at an offset, in bytes.
fn opened_at(tokens: &Tokens, at: usize) -> Opened {
    let mut opened = Opened {
        count: 0,
        depth: 0,
        first_field: None,
        last_field: 0,
        behind_paren: false,
        annotation: None,
    };
    for index in 0..tokens.len() {
        if tokens.offset(index) >= at {
            return opened;
        }
        opened.add(tokens, index);
    }
    opened
}

/// A text up to an error, without the parts that needn't be read again.
#[derive(Drop)]
struct Front {
    text: String,
    /// Whether the error is in a field. If it is, the text contains only this field.
    in_field: bool,
    /// Whether the last token is a `(`.
    behind_paren: bool,
}

/// The token with the error.
#[derive(Clone, Copy)]
struct Refused<'a> {
    /// Its kind, if it has one.
    kind: Option<Kind>,
    /// The word, or the word after the token if that is a `(`; otherwise the empty word.
    word: &'a str,
}

/// Returns the kind of a word.
fn kind_of_word(word: &str) -> Option<Kind> {
    match word {
        "i32" | "i64" | "f32" | "f64" | "v128" => Some(Kind::ValueType),
        "binary" => Some(Kind::Binary),
        _ if OPS.iter().any(|op| op.word() == word) => Some(Kind::Instruction),
        _ => None,
    }
}

/// Returns the kind of the token at an index, if there is one.
fn kind_at(tokens: &Tokens, index: usize) -> Option<Kind> {
    if index >= tokens.len() {
        return None;
    }
    match tokens.token(index) {
        Token::LParen => Some(Kind::Open),
        Token::RParen => Some(Kind::Close),
        Token::Id(_) => Some(Kind::Identifier),
        Token::Integer(_) => Some(Kind::Integer),
        Token::String(_) => Some(Kind::String),
        Token::Keyword(word) => kind_of_word(word),
        _ => None,
    }
}

/// Returns the token at an index, which has the error.
fn refused_at<'a>(tokens: &Tokens<'a>, index: usize) -> Refused<'a> {
    let kind = kind_at(tokens, index);
    let word = if kind == Some(Kind::Open) {
        index.saturating_add(1)
    } else {
        index
    };
    Refused {
        kind,
        word: word_at(tokens, word),
    }
}

/// Returns the text up to an error in the field that begins at an offset.
fn field_front(alloc: Global, text: &str, from: usize) -> Result<String, AllocError> {
    format!(in alloc; "(module {}", text.get(from..).unwrap_or(""))
}

/// Returns a short text for a field up to an error. Returns `None` if the short text doesn't begin a
/// field.
fn short_front(
    alloc: Global,
    text: &str,
    tokens: &Tokens,
    opened: Opened,
) -> Result<Option<String>, AllocError> {
    let field = short_text(alloc, text, tokens, opened.last_field, opened.count)?;
    let front = format!(in alloc; "(module {field}")?;
    if begins_field(alloc, &front)? {
        return Ok(Some(front));
    }
    Ok(None)
}

/// Returns the text up to an error in a field. `opened` are the groups that are open there.
fn in_field(
    alloc: Global,
    text: &str,
    tokens: &Tokens,
    opened: Opened,
) -> Result<Option<String>, AllocError> {
    let from = offset_at(tokens, opened.last_field);
    let size = text.len().saturating_sub(from);
    if size > LONGEST {
        return Ok(None);
    }
    if size > SHORT {
        let short = short_front(alloc, text, tokens, opened)?;
        if short.is_some() {
            return Ok(short);
        }
    }
    Ok(Some(field_front(alloc, text, from)?))
}

/// Returns the text up to an error outside all fields, with one field in place of the fields before
/// the error.
fn in_no_field(alloc: Global, text: &str, opened: Opened) -> Result<Option<String>, AllocError> {
    if opened.first_field.unwrap_or(text.len()) > LONGEST {
        return Ok(None);
    }
    Ok(Some(match opened.first_field {
        None => String::from_str(alloc, text)?,
        Some(first) => { format!(in alloc; "{}(start 0)", text.get(..first).unwrap_or(""))? }
    }))
}

/// Returns the text up to the error at an offset, unless the error is after the module or in the
/// group of an annotation. `opened` are the groups that are open there.
fn front_of(
    alloc: Global,
    read: &str,
    tokens: &Tokens,
    at: usize,
    opened: Opened,
) -> Result<Option<Front>, AllocError> {
    let text = read.get(..at).unwrap_or("");
    let is_behind = opened.depth == 0 && opened.first_field.is_some();
    if is_behind || opened.annotation.is_some() {
        return Ok(None);
    }
    let is_in_field = opened.depth > 1;
    let front = if is_in_field {
        in_field(alloc, text, tokens, opened)?
    } else {
        in_no_field(alloc, text, opened)?
    };
    let Some(text) = front else {
        return Ok(None);
    };
    Ok(Some(Front {
        text,
        in_field: is_in_field,
        behind_paren: opened.behind_paren,
    }))
}

/// Returns whether an error is at the end of a text of this size, in bytes.
fn is_at_end(error: Error, size: usize) -> Result<bool, AllocError> {
    match error.fault {
        Fault::Memory => Err(AllocError),
        _ => Ok(error.span.offset() >= size),
    }
}

/// Returns whether the text begins a module.
fn begins_module(alloc: Global, text: &str) -> Result<bool, AllocError> {
    let arena = Bump::new(alloc);
    match module_of(alloc, text, &arena) {
        Ok(_) => Ok(true),
        Err(error) => is_at_end(error, text.len()),
    }
}

/// Returns whether the one field in the text is valid, or is refused only at the end of the text.
fn begins_field(alloc: Global, text: &str) -> Result<bool, AllocError> {
    let arena = Bump::new(alloc);
    match module_faults(alloc, text, &arena, 1) {
        Ok(found) => match found.faults.first() {
            None => Ok(true),
            Some(error) => is_at_end(*error, text.len()),
        },
        Err(error) => is_at_end(error, text.len()),
    }
}

/// Returns whether a candidate is possible after the text.
fn goes_on(alloc: Global, front: &Front, with: &str) -> Result<bool, AllocError> {
    let text = format!(in alloc; "{} {with}", front.text)?;
    if front.in_field {
        begins_field(alloc, &text)
    } else {
        begins_module(alloc, &text)
    }
}

/// Adds an item to the list.
fn add_item(list: &mut String, item: &str) -> Result<(), AllocError> {
    if !list.is_empty() {
        list.push_str(", ")?;
    }
    list.push_str(item)
}

/// Adds the candidates that are possible after the text, without words and without the refused
/// kind. A reference type isn't added if a value type is added.
fn add_kinds(list: &mut String, front: &Front, refused: Option<Kind>) -> Result<(), AllocError> {
    for kind in KINDS {
        let is_named = kind == Kind::ReferenceType && list.as_str().ends_with("a value type");
        if !is_named && refused != Some(kind) && goes_on(*list.allocator(), front, kind.one())? {
            add_item(list, kind.name())?;
        }
    }
    Ok(())
}

/// Returns what completes a group that begins with the word, if more than its word tells it from
/// another group: an inline import or export.
fn rest_of_group(front: &Front, word: &str) -> &'static str {
    match word {
        "import" if front.in_field => " \"\" \"\")",
        "export" if front.in_field => " \"\")",
        _ => "",
    }
}

/// Adds the word if the word can begin a group after the text, or continue the group that is begun.
fn add_word(list: &mut String, front: &Front, word: &str) -> Result<(), AllocError> {
    let alloc = *list.allocator();
    let open = if front.behind_paren { "" } else { "(" };
    let rest = rest_of_group(front, word);
    let tried = format!(in alloc; "{open}{word}{rest}")?;
    if goes_on(alloc, front, &tried)? {
        add_item(list, format!(in alloc; "`{open}{word}`")?.as_str())?;
    }
    Ok(())
}

/// Adds the words that can begin a group after the text, or continue the group that is begun,
/// without the refused word.
fn add_words(list: &mut String, front: &Front, refused: &str) -> Result<(), AllocError> {
    if refused != "module" {
        add_word(list, front, "module")?;
    }
    for field in FIELD_WORDS {
        if field.word() != refused {
            add_word(list, front, field.word())?;
        }
    }
    for word in INNER_WORDS {
        if word != refused {
            add_word(list, front, word)?;
        }
    }
    Ok(())
}

/// Returns the words for the tokens that are possible at an offset of a text, in place of the token
/// there. The words are empty if no such tokens are known. `tokens` are the tokens of the text, or of
/// the text that it masks.
pub(crate) fn expected_at(
    alloc: Global,
    read: &str,
    tokens: &Tokens,
    at: usize,
) -> Result<Vec<u8>, AllocError> {
    let mut list = String::new(alloc);
    let opened = opened_at(tokens, at);
    if let Some(front) = front_of(alloc, read, tokens, at, opened)? {
        let refused = refused_at(tokens, opened.count);
        add_kinds(&mut list, &front, refused.kind)?;
        add_words(&mut list, &front, refused.word)?;
    }
    Ok(list.into_bytes())
}

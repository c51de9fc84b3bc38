//! Rows of what is read everywhere: tokens, names, numbers, strings.

use crate::copies::Uncopied;
use crate::printers::{OfOperands, OfTypes, Printer, Unprinted};
use crate::readers::{Bare, Reader};
use crate::row::{Row, add, add_refusal};
use std::alloc::AllocError;
use std::fmt::Debug;
use wat_core::wat_lexer::cut::cut;
use wat_core::{
    AbstractHeapType, ExportKind, F32, F64, FunctionType, FunctionTypeNoNames, HeapType, Id, Index,
    InlineExport, InlineImport, Integer, NameAnnotation, Ordering, Parse, Parser, Peek, RefType,
    Token, Type, ValType, kw,
};

/// Returns the result of a row whose values aren't copied.
fn of<'a, T: Parse<'a> + Debug + Drop, P: Printer<T>>(
    out: &mut String,
    row: &Row<'a>,
) -> Result<bool, AllocError> {
    add::<T, Bare, P, Uncopied>(out, row)
}

/// Adds bytes as Debug prints their text, or the bytes if they aren't UTF-8.
fn add_bytes(out: &mut String, bytes: &[u8]) -> Result<(), AllocError> {
    match str::from_utf8(bytes) {
        Ok(text) => write!(out, "{text:?}"),
        Err(_) => write!(out, "{bytes:?}"),
    }
}

/// Adds a token: its sign, where its kind has one, and its content.
fn add_token(out: &mut String, token: Token<'_>) -> Result<(), AllocError> {
    match token {
        Token::LParen => out.push_str("("),
        Token::RParen => out.push_str(")"),
        Token::Keyword(text) => out.push_str(text),
        Token::Id(name) => write!(out, "${name}"),
        Token::Annotation(name) => write!(out, "@{name}"),
        Token::Integer(integer) => write!(out, "#{}", integer.text()),
        Token::String(bytes) => add_bytes(out, bytes),
        Token::Reserved(text) => write!(out, "?{text}"),
    }
}

/// Adds the tokens of a text, each after its offset and a colon.
fn add_tokens(out: &mut String, row: &Row<'_>) -> Result<bool, AllocError> {
    match cut(row.alloc, row.text, row.arena) {
        Ok(tokens) => {
            out.push_str("=")?;
            for at in 0..tokens.len() {
                let offset = tokens.offset(at);
                write!(out, " {offset}:")?;
                add_token(out, tokens.token(at))?;
            }
            out.push_str("\n")?;
        }
        Err(error) => add_refusal(out, error)?,
    }
    Ok(true)
}

/// Adds the numbers of an integer in a width, unsigned and signed, or a dash for an integer that is
/// out of range.
fn add_width(
    out: &mut String,
    bits: u32,
    unsigned: Option<u64>,
    signed: Option<i64>,
) -> Result<(), AllocError> {
    match unsigned {
        Some(number) => write!(out, ", u{bits} {number}")?,
        None => write!(out, ", u{bits} -")?,
    }
    match signed {
        Some(number) => write!(out, ", i{bits} {number}"),
        None => write!(out, ", i{bits} -"),
    }
}

/// Adds the sign of the integer that a whole text is, and what number it is in each width.
fn add_values(out: &mut String, row: &Row<'_>) -> Result<bool, AllocError> {
    match Integer::of(row.text) {
        Some(integer) => {
            let sign = integer.sign();
            write!(out, "= {sign:?}")?;
            add_width(out, 8, integer.unsigned(8), integer.signed(8))?;
            add_width(out, 16, integer.unsigned(16), integer.signed(16))?;
            add_width(out, 32, integer.unsigned(32), integer.signed(32))?;
            add_width(out, 64, integer.unsigned(64), integer.signed(64))?;
            out.push_str("\n")?;
        }
        None => out.push_str("= no integer\n")?,
    }
    Ok(true)
}

/// The name of a type, and whether a value of it begins at the first token, or at the second.
fn begun<T: Peek>(parser: &Parser<'_>, is_behind: bool) -> (&'static str, bool) {
    let begins = if is_behind {
        parser.peek2::<T>()
    } else {
        parser.peek::<T>()
    };
    (T::display(), begins)
}

/// Adds the name of each type of which a value begins. A name that several types share is added once;
/// these types are neighbours and have to agree.
fn add_begun(out: &mut String, types: &[(&str, bool)]) -> Result<(), AllocError> {
    let mut last = ("", false);
    for each in types {
        let (name, begins) = *each;
        if name == last.0 {
            if begins != last.1 {
                write!(out, "\n? of the types {name:?} only some begin\n")?;
            }
        } else if begins {
            write!(out, " {name:?}")?;
        }
        last = (name, begins);
    }
    Ok(())
}

/// Adds the tokens and types that begin at the first token, or at the second.
fn add_begins(out: &mut String, parser: &Parser<'_>, is_behind: bool) -> Result<(), AllocError> {
    let numbers = [
        begun::<u8>(parser, is_behind),
        begun::<u16>(parser, is_behind),
        begun::<u32>(parser, is_behind),
        begun::<u64>(parser, is_behind),
        begun::<i8>(parser, is_behind),
        begun::<i16>(parser, is_behind),
        begun::<i32>(parser, is_behind),
        begun::<i64>(parser, is_behind),
        begun::<&str>(parser, is_behind),
        begun::<&[u8]>(parser, is_behind),
        begun::<Id<'_>>(parser, is_behind),
        begun::<Index<'_>>(parser, is_behind),
        begun::<NameAnnotation<'_>>(parser, is_behind),
    ];
    add_begun(out, &numbers)?;
    let types = [
        begun::<AbstractHeapType>(parser, is_behind),
        begun::<HeapType<'_>>(parser, is_behind),
        begun::<RefType<'_>>(parser, is_behind),
        begun::<ValType<'_>>(parser, is_behind),
        begun::<FunctionType<'_>>(parser, is_behind),
        begun::<FunctionTypeNoNames<'_>>(parser, is_behind),
        begun::<Type<'_>>(parser, is_behind),
    ];
    add_begun(out, &types)
}

/// Adds the words and parts of a module that begin at the first token, or at the second.
fn add_other_begins(
    out: &mut String,
    parser: &Parser<'_>,
    is_behind: bool,
) -> Result<(), AllocError> {
    let others = [
        begun::<kw::func>(parser, is_behind),
        begun::<kw::table>(parser, is_behind),
        begun::<kw::memory>(parser, is_behind),
        begun::<kw::global>(parser, is_behind),
        begun::<kw::tag>(parser, is_behind),
        begun::<Ordering>(parser, is_behind),
        begun::<ExportKind>(parser, is_behind),
        begun::<InlineExport<'_>>(parser, is_behind),
        begun::<InlineImport<'_>>(parser, is_behind),
    ];
    add_begun(out, &others)
}

/// Adds what begins at the first token of a text, and, after a slash, what begins at the second.
fn add_peeks(out: &mut String, row: &Row<'_>) -> Result<bool, AllocError> {
    match row.parser(row.text, false) {
        Ok(parser) => {
            out.push_str("=")?;
            add_begins(out, &parser, false)?;
            add_other_begins(out, &parser, false)?;
            out.push_str(" /")?;
            add_begins(out, &parser, true)?;
            add_other_begins(out, &parser, true)?;
            out.push_str("\n")?;
        }
        Err(error) => add_refusal(out, error)?,
    }
    Ok(true)
}

/// Adds the result of a row of an integer of a width.
fn add_number<'a>(out: &mut String, row: &Row<'a>) -> Result<bool, AllocError> {
    match row.kind {
        "u8" => of::<u8, OfOperands>(out, row),
        "u16" => of::<u16, OfOperands>(out, row),
        "u32" => of::<u32, OfOperands>(out, row),
        "u64" => of::<u64, OfOperands>(out, row),
        "i8" => of::<i8, OfOperands>(out, row),
        "i16" => of::<i16, OfOperands>(out, row),
        "i32" => of::<i32, OfOperands>(out, row),
        "i64" => of::<i64, OfOperands>(out, row),
        "f32" => of::<F32, OfOperands>(out, row),
        "f64" => of::<F64, OfOperands>(out, row),
        "integer" => of::<Integer<'a>, OfTypes>(out, row),
        _ => Ok(false),
    }
}

/// Adds the result of a row of tokens, or of a value that is one token.
pub fn add_row<'a>(out: &mut String, row: &Row<'a>) -> Result<bool, AllocError> {
    match row.kind {
        "tokens" => add_tokens(out, row),
        "values" => add_values(out, row),
        "peek" => add_peeks(out, row),
        "id" => of::<Id<'a>, OfTypes>(out, row),
        "index" => of::<Index<'a>, OfTypes>(out, row),
        "option_index" => of::<Option<Index<'a>>, Unprinted>(out, row),
        "name_annotation" => of::<NameAnnotation<'a>, OfTypes>(out, row),
        "str" => of::<&'a str, OfTypes>(out, row),
        "bytes" => of::<&'a [u8], OfTypes>(out, row),
        "kw_func" => of::<kw::func, OfTypes>(out, row),
        "kw_table" => of::<kw::table, OfTypes>(out, row),
        "kw_memory" => of::<kw::memory, OfTypes>(out, row),
        "kw_global" => of::<kw::global, OfTypes>(out, row),
        "kw_tag" => of::<kw::tag, OfTypes>(out, row),
        _ => add_number(out, row),
    }
}

//! How the values of rows are read.

use crate::row::Row;
use std::mem::forget;
use wat_core::{Error, Parse, Parser};

/// How a value is read from a parser.
pub trait Reader<'a, T> {
    /// Reads a value.
    fn read(row: &Row<'a>, parser: &mut Parser<'a>) -> Result<T, Error>;
}

/// By its type's own `parse`.
pub struct Bare;

impl<'a, T: Parse<'a>> Reader<'a, T> for Bare {
    fn read(_: &Row<'a>, parser: &mut Parser<'a>) -> Result<T, Error> {
        T::parse(parser)
    }
}

/// In its parentheses.
pub struct Grouped;

impl<'a, T: Parse<'a> + Drop> Reader<'a, T> for Grouped {
    fn read(_: &Row<'a>, parser: &mut Parser<'a>) -> Result<T, Error> {
        parser.open()?;
        let value = T::parse(parser)?;
        match parser.close() {
            Ok(()) => Ok(value),
            Err(error) => {
                forget(value);
                Err(error)
            }
        }
    }
}

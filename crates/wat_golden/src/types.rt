//! Rows of types.

use crate::copies::{Cloned, Uncopied};
use crate::printers::{OfTypes, Printer, Unprinted};
use crate::readers::{Bare, Reader};
use crate::row::{Row, add};
use std::alloc::AllocError;
use std::fmt::Debug;
use wat_core::{
    AbstractHeapType, ArrayType, ContType, Error, FunctionType, FunctionTypeNoNames, GlobalType,
    HeapType, InnerTypeKind, Limits, MemoryType, Parse, Parser, Rec, RefType, StorageType,
    StructType, TableType, TagType, Type, TypeDef, TypeUse, ValType, page_size,
};
use wat_print::Print;

/// A size of pages.
struct PageSize;

impl<'a> Reader<'a, Option<u32>> for PageSize {
    fn read(_: &Row<'a>, parser: &mut Parser<'a>) -> Result<Option<u32>, Error> {
        page_size(parser)
    }
}

/// Returns the result of a row whose values aren't copied.
fn of<'a, T: Parse<'a> + Debug + Drop + Print>(
    out: &mut String,
    row: &Row<'a>,
) -> Result<bool, AllocError> {
    add::<T, Bare, OfTypes, Uncopied>(out, row)
}

/// Adds the result of a row of a type that is copied.
fn add_copied<'a>(out: &mut String, row: &Row<'a>) -> Result<bool, AllocError> {
    match row.kind {
        "functype" => add::<FunctionType<'a>, Bare, OfTypes, Cloned>(out, row),
        "functype_no_names" => add::<FunctionTypeNoNames<'a>, Bare, OfTypes, Cloned>(out, row),
        "structtype" => add::<StructType<'a>, Bare, OfTypes, Cloned>(out, row),
        "tagtype" => add::<TagType<'a>, Bare, OfTypes, Cloned>(out, row),
        "typeuse" => add::<TypeUse<'a, FunctionType<'a>>, Bare, OfTypes, Cloned>(out, row),
        "typeuse_no_names" => {
            add::<TypeUse<'a, FunctionTypeNoNames<'a>>, Bare, OfTypes, Cloned>(out, row)
        }
        "typedef" => add::<TypeDef<'a>, Bare, Unprinted, Uncopied>(out, row),
        "page_size" => add::<Option<u32>, PageSize, Unprinted, Uncopied>(out, row),
        _ => Ok(false),
    }
}

/// Adds the result of a row of a type.
pub fn add_row<'a>(out: &mut String, row: &Row<'a>) -> Result<bool, AllocError> {
    match row.kind {
        "abstract" => of::<AbstractHeapType>(out, row),
        "heaptype" => of::<HeapType<'a>>(out, row),
        "reftype" => of::<RefType<'a>>(out, row),
        "valtype" => of::<ValType<'a>>(out, row),
        "storage" => of::<StorageType<'a>>(out, row),
        "globaltype" => of::<GlobalType<'a>>(out, row),
        "limits" => of::<Limits>(out, row),
        "tabletype" => of::<TableType<'a>>(out, row),
        "memorytype" => of::<MemoryType>(out, row),
        "arraytype" => of::<ArrayType<'a>>(out, row),
        "conttype" => of::<ContType<'a>>(out, row),
        "innertype" => of::<InnerTypeKind<'a>>(out, row),
        "type" => of::<Type<'a>>(out, row),
        "rec" => of::<Rec<'a>>(out, row),
        _ => add_copied(out, row),
    }
}

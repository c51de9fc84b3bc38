//! Rows of the operands of instructions.

use crate::copies::{Cloned, Uncopied};
use crate::printers::{OfOperands, Printer, Unprinted};
use crate::readers::{Bare, Reader};
use crate::row::{Row, add};
use std::alloc::AllocError;
use std::fmt::Debug;
use wat_core::{
    ArrayCopy, ArrayFill, ArrayInit, ArrayNewData, ArrayNewElem, ArrayNewFixed, BlockType,
    BrOnCast, BrOnCastDescEq, BrOnCastDescEqFail, BrOnCastFail, BrTableIndices, CallIndirect,
    ContBind, Error, I8x16Shuffle, Index, LaneArg, LoadOrStoreLane, MemArg, MemoryArg, MemoryCopy,
    MemoryInit, Ordered, Ordering, Parse, Parser, RefCast, RefCastDescEq, RefTest, Resume,
    ResumeTable, ResumeThrow, ResumeThrowRef, SelectTypes, StructAccess, Switch, TableArg,
    TableCopy, TableInit, TryTable, V128Const,
};
use wat_print_instr::PrintCode;

/// A memory access, whose default alignment in bytes is the row's number.
struct Aligned;

impl<'a> Reader<'a, MemArg<'a>> for Aligned {
    fn read(row: &Row<'a>, parser: &mut Parser<'a>) -> Result<MemArg<'a>, Error> {
        MemArg::read(parser, row.number())
    }
}

impl<'a> Reader<'a, LoadOrStoreLane<'a>> for Aligned {
    fn read(row: &Row<'a>, parser: &mut Parser<'a>) -> Result<LoadOrStoreLane<'a>, Error> {
        LoadOrStoreLane::read(parser, row.number())
    }
}

/// An atomic access, likewise.
struct Atomic;

impl<'a> Reader<'a, MemArg<'a>> for Atomic {
    fn read(row: &Row<'a>, parser: &mut Parser<'a>) -> Result<MemArg<'a>, Error> {
        MemArg::read_atomic(parser, row.number(), false)
    }
}

/// An atomic access that reads and writes, likewise.
struct ReadAndWrite;

impl<'a> Reader<'a, MemArg<'a>> for ReadAndWrite {
    fn read(row: &Row<'a>, parser: &mut Parser<'a>) -> Result<MemArg<'a>, Error> {
        MemArg::read_atomic(parser, row.number(), true)
    }
}

/// Returns the result of a row whose values aren't copied.
fn of<'a, T: Parse<'a> + Debug + Drop + PrintCode>(
    out: &mut String,
    row: &Row<'a>,
) -> Result<bool, AllocError> {
    add::<T, Bare, OfOperands, Uncopied>(out, row)
}

/// Returns the result of a row whose values are copied.
fn copied<'a, T: Parse<'a> + Debug + Drop + PrintCode>(
    out: &mut String,
    row: &Row<'a>,
) -> Result<bool, AllocError>
where
    Cloned: crate::copies::Copier<T>,
{
    add::<T, Bare, OfOperands, Cloned>(out, row)
}

/// Adds the result of a row of an access to a memory.
fn add_access<'a>(out: &mut String, row: &Row<'a>) -> Result<bool, AllocError> {
    match row.kind {
        "memarg" => add::<MemArg<'a>, Aligned, Unprinted, Uncopied>(out, row),
        "memarg_atomic" => add::<MemArg<'a>, Atomic, Unprinted, Uncopied>(out, row),
        "memarg_rmw" => add::<MemArg<'a>, ReadAndWrite, Unprinted, Uncopied>(out, row),
        "memarg_lane" => add::<LoadOrStoreLane<'a>, Aligned, Unprinted, Uncopied>(out, row),
        "lane" => of::<LaneArg>(out, row),
        "ordering" => of::<Ordering>(out, row),
        "ordered_index" => of::<Ordered<Index<'a>>>(out, row),
        "ordered_table" => of::<Ordered<TableArg<'a>>>(out, row),
        "ordered_struct" => of::<Ordered<StructAccess<'a>>>(out, row),
        "v128" => of::<V128Const>(out, row),
        "shuffle" => of::<I8x16Shuffle>(out, row),
        _ => Ok(false),
    }
}

/// Adds the result of a row of an operand of control.
fn add_control<'a>(out: &mut String, row: &Row<'a>) -> Result<bool, AllocError> {
    match row.kind {
        "block" => copied::<BlockType<'a>>(out, row),
        "br_table" => copied::<BrTableIndices<'a>>(out, row),
        "call_indirect" => copied::<CallIndirect<'a>>(out, row),
        "select" => copied::<SelectTypes<'a>>(out, row),
        "try_table" => copied::<TryTable<'a>>(out, row),
        "resume_table" => copied::<ResumeTable<'a>>(out, row),
        "resume" => copied::<Resume<'a>>(out, row),
        "resume_throw" => copied::<ResumeThrow<'a>>(out, row),
        "resume_throw_ref" => copied::<ResumeThrowRef<'a>>(out, row),
        "ref_test" => of::<RefTest<'a>>(out, row),
        "ref_cast" => of::<RefCast<'a>>(out, row),
        "ref_cast_desc_eq" => of::<RefCastDescEq<'a>>(out, row),
        "br_on_cast" => of::<BrOnCast<'a>>(out, row),
        "br_on_cast_fail" => of::<BrOnCastFail<'a>>(out, row),
        "br_on_cast_desc_eq" => of::<BrOnCastDescEq<'a>>(out, row),
        "br_on_cast_desc_eq_fail" => of::<BrOnCastDescEqFail<'a>>(out, row),
        _ => add_access(out, row),
    }
}

/// Adds the result of a row of an operand.
pub fn add_row<'a>(out: &mut String, row: &Row<'a>) -> Result<bool, AllocError> {
    match row.kind {
        "table_arg" => of::<TableArg<'a>>(out, row),
        "memory_arg" => of::<MemoryArg<'a>>(out, row),
        "table_init" => of::<TableInit<'a>>(out, row),
        "memory_init" => of::<MemoryInit<'a>>(out, row),
        "table_copy" => of::<TableCopy<'a>>(out, row),
        "memory_copy" => of::<MemoryCopy<'a>>(out, row),
        "struct_access" => of::<StructAccess<'a>>(out, row),
        "cont_bind" => of::<ContBind<'a>>(out, row),
        "switch" => of::<Switch<'a>>(out, row),
        "array_fill" => of::<ArrayFill<'a>>(out, row),
        "array_copy" => of::<ArrayCopy<'a>>(out, row),
        "array_init" => of::<ArrayInit<'a>>(out, row),
        "array_new_fixed" => of::<ArrayNewFixed<'a>>(out, row),
        "array_new_data" => of::<ArrayNewData<'a>>(out, row),
        "array_new_elem" => of::<ArrayNewElem<'a>>(out, row),
        _ => add_control(out, row),
    }
}

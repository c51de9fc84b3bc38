//! How limits, memory types and table types are printed.

ghost use Rattle.std.specs.Prelude.{refl};
ghost use Rattle.wat_print.specs.Laws.Prelude.{table_type, TableTypeModel, flag_form, limits_form, page_form, memory_form, table_form, printing_by, Printed, memory_prints, table_prints};
ghost use Rattle.wat_types.specs.Limits.{limits_type, memory_type, table_type_view};
ghost use Rattle.wat_print.specs.Laws.Limits.{limits_prints};

use crate::fault::Refused;
use crate::output::Output;
use crate::reference::write_ref;
use crate::traits::Print;
use wat_types::{Limits, MemoryType, TableType};

/// Writes the word if the flag is true.
pub fn write_flag(out: &mut Output, word: &str, flag: bool) -> Result<(), Refused>
    ensures { Printed (flag_form word.now) flag result out.old out.new }
{
    if !flag {
        return Ok(());
    }
    out.word(word)
}

/// Writes limits (Text Format, Types, "Limits"): `i64` if addresses have 64 bits, then the minimum,
/// then the maximum if there is one.
#[tactic(auto, using(crate::specs::Laws::Written::put_both))]
fn write_limits(out: &mut Output, limits: &Limits) -> Result<(), Refused>
    ensures { Printed limits_form limits.now result out.old out.new }
{
    write_flag(out, "i64", limits.is64)?;
    out.number(limits.min)?;
    match limits.max {
        Some(max) => out.number(max),
        None => Ok(()),
    }
}

/// Writes `( pagesize 2^k )` if an exponent k is given. A k of 32 or more is refused with PageSize.
pub fn write_page_size(out: &mut Output, exponent: Option<u32>) -> Result<(), Refused>
    ensures { Printed page_form exponent result out.old out.new }
{
    match exponent {
        None => Ok(()),
        Some(k) if k < 32 => {
            out.open()?;
            out.word("pagesize")?;
            out.number(2u64.pow(k))?;
            out.close()
        }
        Some(_) => Err(Refused::PageSize),
    }
}

/// Writes a memory type (Text Format, Types, "Memory Types"). A memory type with pages of 2^k bytes
/// is refused with PageSize if k is 32 or more.
#[tactic(auto, using(crate::specs::Laws::Written::put_both))]
pub fn write_memory_type(out: &mut Output, memory: &MemoryType) -> Result<(), Refused>
    ensures { Printed memory_form memory.now result out.old out.new }
{
    write_limits(out, &memory.limits)?;
    write_flag(out, "shared", memory.shared)?;
    write_page_size(out, memory.page_size_log2)
}

/// Writes a table type (Text Format, Types, "Table Types").
#[tactic(auto, using(crate::specs::Laws::Written::put_both))]
pub fn write_table_type(out: &mut Output, table: &TableType) -> Result<(), Refused>
    ensures { Printed table_form (table_type_view table.now) result out.old out.new }
{
    write_flag(out, "shared", table.shared)?;
    write_limits(out, &table.limits)?;
    write_ref(out, &table.elem)
}

impl Print for Limits {
    ghost use Rattle.wat_types.specs.declared.limits.Limits.{Limits};

    ghost View = { Limits };

    ghost view = { λ l. l };

    ghost grammar = { limits_type };

    ghost printing = { printing_by limits_form limits_prints (λ v h. h) refl refl };

    #[tactic(auto, using(crate::specs::Laws::Written::puts_put))]
    fn write(&self, out: &mut Output) -> Result<(), Refused> {
        write_limits(out, self)
    }
}

impl Print for MemoryType {
    ghost use Rattle.wat_types.specs.declared.limits.MemoryType.{MemoryType};

    ghost View = { MemoryType };

    ghost view = { λ m. m };

    ghost grammar = { memory_type };

    ghost printing = { printing_by memory_form memory_prints (λ v h. h) refl refl };

    #[tactic(auto, using(crate::specs::Laws::Written::puts_put))]
    fn write(&self, out: &mut Output) -> Result<(), Refused> {
        write_memory_type(out, self)
    }
}

impl Print for TableType<'_> {
    ghost View = { TableTypeModel };

    ghost view = { table_type_view };

    ghost grammar = { table_type };

    ghost printing = { printing_by table_form table_prints (λ v h. h) refl refl };

    #[tactic(auto, using(crate::specs::Laws::Written::puts_put))]
    fn write(&self, out: &mut Output) -> Result<(), Refused> {
        write_table_type(out, self)
    }
}

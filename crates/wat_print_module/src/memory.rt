//! Printing of memories.

ghost use Rattle.std.specs.Prelude.{refl};
ghost use Rattle.wat_print_instr.specs.Prelude.{printing_by, Printed};
ghost use Rattle.wat_fields.specs.Memory.{memory_kind_view, MemoryModel, memory_view, memory};
ghost use Rattle.wat_print_module.specs.Memory.{memory_kind_form, memory_field_form};
ghost use Rattle.wat_print_module.specs.Laws.Memory.{memory_field_prints};

use crate::data_val::write_data_vals;
use crate::field_head::{write_head, write_inline_import};
use crate::traits::PrintPart;
use wat_fields::{Memory, MemoryKind};
use wat_print::limits::{write_flag, write_memory_type, write_page_size};
use wat_print::{Output, Refused};

/// Writes the part of a memory after its identifier, name and exports.
#[tactic(auto, using(wat_print::specs::Laws::Written::put_both))]
fn write_memory_kind(out: &mut Output, kind: &MemoryKind) -> Result<(), Refused>
    ensures { Printed memory_kind_form (memory_kind_view kind.now) result out.old out.new }
{
    match kind {
        MemoryKind::Import { import, ty } => {
            write_inline_import(out, import)?;
            write_memory_type(out, ty)
        }
        MemoryKind::Normal(ty) => write_memory_type(out, ty),
        MemoryKind::Inline {
            is64,
            data,
            page_size_log2,
        } => {
            write_flag(out, "i64", *is64)?;
            write_page_size(out, *page_size_log2)?;
            out.open()?;
            out.word("data")?;
            write_data_vals(out, data)?;
            out.close()
        }
    }
}

/// Writes a memory, without its parentheses (Text Format, Modules, "Memories"), with its inline
/// exports, import and data. It fails with PageSize if a page has 2 to the k bytes and k is 32 or
/// more.
#[tactic(auto, using(wat_print::specs::Laws::Written::put_both))]
pub fn write_memory(out: &mut Output, memory: &Memory) -> Result<(), Refused>
    ensures { Printed memory_field_form (memory_view memory.now) result out.old out.new }
{
    out.word("memory")?;
    write_head(out, &memory.id, &memory.name, &memory.exports)?;
    write_memory_kind(out, &memory.kind)
}

impl PrintPart for Memory<'_> {
    ghost View = { MemoryModel };

    ghost view = { memory_view };

    ghost grammar = { memory };

    ghost printing = { printing_by memory_field_form memory_field_prints (λ v h. h) refl refl };

    #[tactic(auto, using(wat_print::specs::Laws::Written::puts_put))]
    fn write(&self, out: &mut Output) -> Result<(), Refused> {
        write_memory(out, self)
    }
}

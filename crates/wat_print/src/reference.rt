//! How indices, heap types, reference types and value types are printed.

ghost use Rattle.std.specs.Prelude.{refl};
ghost use Rattle.wat_types.specs.Prelude.{heap_view, heap_type, abstract_heap_type, ref_view, val_view, val_type};
ghost use Rattle.wat_print.specs.Laws.Prelude.{IndexModel, index_view, index, HeapTypeModel, abstract_, RefTypeModel, ref_type, ValTypeModel, index_form, printing_by, Printed, heap_form, ref_form, val_form, index_prints, ref_prints, val_prints};
ghost use Rattle.wat_print.specs.Reference.{long_form, abstract_form};
ghost use Rattle.wat_print.specs.Laws.Reference.{abstract_prints, heap_prints};

use crate::fault::Refused;
use crate::output::Output;
use crate::traits::Print;
use wat_tokens::Index;
use wat_tokens::words::NamedByKeyword;
use wat_types::reference::Shorthand;
use wat_types::{AbstractHeapType, HeapType, RefType, ValType};

/// Writes an index.
pub fn write_index(out: &mut Output, index: &Index) -> Result<(), Refused>
    ensures { Printed index_form (index_view index.now) result out.old out.new }
{
    match index {
        Index::Num(number, _) => out.number(u64::from(*number)),
        Index::Id(id) => out.id(id.name()),
    }
}

/// Writes an abstract heap type.
fn write_abstract(out: &mut Output, shared: bool, ty: AbstractHeapType) -> Result<(), Refused>
    ensures { Printed heap_form (abstract_ shared ty) result out.old out.new }
{
    if !shared {
        return out.word(ty.word());
    }
    out.open()?;
    out.word("shared")?;
    out.word(ty.word())?;
    out.close()
}

/// Writes a heap type.
#[tactic(auto, using(crate::specs::Laws::Written::put_both))]
pub fn write_heap(out: &mut Output, heap: &HeapType) -> Result<(), Refused>
    ensures { Printed heap_form (heap_view heap.now) result out.old out.new }
{
    match heap {
        HeapType::Concrete(index) => write_index(out, index),
        HeapType::Exact(index) => {
            out.open()?;
            out.word("exact")?;
            write_index(out, index)?;
            out.close()
        }
        HeapType::Abstract { shared, ty } => write_abstract(out, *shared, *ty),
    }
}

/// Writes `( ref null? HeapType )`.
#[tactic(auto, using(crate::specs::Laws::Written::put_both))]
fn write_long(out: &mut Output, reference: &RefType) -> Result<(), Refused>
    ensures { Printed long_form (reference.now.nullable, heap_view reference.now.heap) result
        out.old out.new }
{
    out.open()?;
    out.word("ref")?;
    if reference.nullable {
        out.word("null")?;
    }
    write_heap(out, &reference.heap)?;
    out.close()
}

/// Writes a reference type: the shorthand if it is nullable and its heap type is abstract and not
/// shared, otherwise `( ref null? HeapType )`.
pub fn write_ref(out: &mut Output, reference: &RefType) -> Result<(), Refused>
    ensures { Printed ref_form (ref_view reference.now) result out.old out.new }
{
    match (reference.nullable, reference.heap) {
        (true, HeapType::Abstract { shared: false, ty }) => out.word(Shorthand(ty).word()),
        _ => write_long(out, reference),
    }
}

/// Writes a value type.
pub fn write_val(out: &mut Output, ty: &ValType) -> Result<(), Refused>
    ensures { Printed val_form (val_view ty.now) result out.old out.new }
{
    let word = match ty {
        ValType::I32 => "i32",
        ValType::I64 => "i64",
        ValType::F32 => "f32",
        ValType::F64 => "f64",
        ValType::V128 => "v128",
        ValType::Ref(reference) => return write_ref(out, reference),
    };
    out.word(word)
}

impl Print for Index<'_> {
    ghost View = { IndexModel };

    ghost view = { index_view };

    ghost grammar = { index };

    ghost printing = { printing_by index_form index_prints (λ v h. h) refl refl };

    #[tactic(auto, using(crate::specs::Laws::Written::puts_put))]
    fn write(&self, out: &mut Output) -> Result<(), Refused> {
        write_index(out, self)
    }
}

impl Print for AbstractHeapType {
    ghost use Rattle.wat_types.specs.declared.heap.AbstractHeapType.{AbstractHeapType};

    ghost View = { AbstractHeapType };

    ghost view = { λ t. t };

    ghost grammar = { abstract_heap_type };

    ghost printing = { printing_by abstract_form abstract_prints (λ v h. h) refl refl };

    #[tactic(auto, using(crate::specs::Laws::Written::puts_put))]
    fn write(&self, out: &mut Output) -> Result<(), Refused> {
        write_abstract(out, false, *self)
    }
}

impl Print for HeapType<'_> {
    ghost View = { HeapTypeModel };

    ghost view = { heap_view };

    ghost grammar = { heap_type };

    ghost printing = { printing_by heap_form heap_prints (λ v h. h) refl refl };

    #[tactic(auto, using(crate::specs::Laws::Written::puts_put))]
    fn write(&self, out: &mut Output) -> Result<(), Refused> {
        write_heap(out, self)
    }
}

impl Print for RefType<'_> {
    ghost View = { RefTypeModel };

    ghost view = { ref_view };

    ghost grammar = { ref_type };

    ghost printing = { printing_by ref_form ref_prints (λ v h. h) refl refl };

    #[tactic(auto, using(crate::specs::Laws::Written::puts_put))]
    fn write(&self, out: &mut Output) -> Result<(), Refused> {
        write_ref(out, self)
    }
}

impl Print for ValType<'_> {
    ghost View = { ValTypeModel };

    ghost view = { val_view };

    ghost grammar = { val_type };

    ghost printing = { printing_by val_form val_prints (λ v h. h) refl refl };

    #[tactic(auto, using(crate::specs::Laws::Written::puts_put))]
    fn write(&self, out: &mut Output) -> Result<(), Refused> {
        write_val(out, self)
    }
}

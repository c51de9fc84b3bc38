//! Which fields of a module are imports, and which are definitions before which all imports must be
//! (Text Format, "Modules").

ghost use Rattle.std.specs.Prelude.{◌≡◌, ◌++◌, ◌∷◌, [], OnOk};
ghost use Rattle.wat_core.specs.Prelude.{field_view, fields_view, global_kind_view, memory_kind_view, table_kind_view};
ghost use Rattle.wat_fields.specs.Func.{func_kind_view};
ghost use Rattle.wat_fields.specs.Tag.{tag_kind_view};
ghost use Rattle.wat_scopes.specs.FaultModels.{mark_view, marks_view};
ghost use Rattle.wat_names.specs.Marks.{field_marks, func_mark, global_mark, marks, memory_mark, table_mark, tag_mark};

use std::alloc::AllocError;
use wat_core::ModuleField;
use wat_fields::{FuncKind, GlobalKind, MemoryKind, TableKind, TagKind};
use wat_scopes::Mark;
use wat_tokens::Span;

/// Returns the mark of a function.
fn func_mark(kind: &FuncKind<'_>, span: Span) -> Mark
    ensures { mark_view result ≡ func_mark (func_kind_view kind.now) }
{
    match kind {
        FuncKind::Import(_, _) => Mark::Import(span),
        FuncKind::Inline { .. } => Mark::Definition(span),
    }
}

/// Returns the mark of a table.
fn table_mark(kind: &TableKind<'_>, span: Span) -> Mark
    ensures { mark_view result ≡ table_mark (table_kind_view kind.now) }
{
    match kind {
        TableKind::Import { .. } => Mark::Import(span),
        TableKind::Normal { .. } => Mark::Definition(span),
        TableKind::Inline { .. } => Mark::Definition(span),
    }
}

/// Returns the mark of a memory.
fn memory_mark(kind: &MemoryKind<'_>, span: Span) -> Mark
    ensures { mark_view result ≡ memory_mark (memory_kind_view kind.now) }
{
    match kind {
        MemoryKind::Import { .. } => Mark::Import(span),
        MemoryKind::Normal(_) => Mark::Definition(span),
        MemoryKind::Inline { .. } => Mark::Definition(span),
    }
}

/// Returns the mark of a global.
fn global_mark(kind: &GlobalKind<'_>, span: Span) -> Mark
    ensures { mark_view result ≡ global_mark (global_kind_view kind.now) }
{
    match kind {
        GlobalKind::Import(_) => Mark::Import(span),
        GlobalKind::Inline(_) => Mark::Definition(span),
    }
}

/// Returns the mark of a tag.
fn tag_mark(kind: &TagKind<'_>, span: Span) -> Mark
    ensures { mark_view result ≡ tag_mark (tag_kind_view kind.now) }
{
    match kind {
        TagKind::Import(_) => Mark::Import(span),
        TagKind::Inline() => Mark::Definition(span),
    }
}

/// Appends a mark.
fn put(out: &mut Vec<Mark>, mark: Mark) -> Result<(), AllocError>
    ensures { OnOk result (marks_view out.new.items ≡ marks_view out.old.items
        ++ mark_view mark ∷ []) }
{
    out.push(mark)?;
    Ok(())
}

/// Appends the mark of a field, if it has one.
fn put_mark(out: &mut Vec<Mark>, field: &ModuleField<'_>) -> Result<(), AllocError>
    ensures { OnOk result (marks_view out.new.items ≡ marks_view out.old.items
        ++ field_marks (field_view field.now)) }
{
    match field {
        ModuleField::Type(_) => Ok(()),
        ModuleField::Rec(_) => Ok(()),
        ModuleField::Import(imports) => put(out, Mark::Import(imports.span)),
        ModuleField::Func(func) => put(out, func_mark(&func.kind, func.span)),
        ModuleField::Table(table) => put(out, table_mark(&table.kind, table.span)),
        ModuleField::Memory(memory) => put(out, memory_mark(&memory.kind, memory.span)),
        ModuleField::Global(global) => put(out, global_mark(&global.kind, global.span)),
        ModuleField::Export(_) => Ok(()),
        ModuleField::Start(_) => Ok(()),
        ModuleField::Elem(_) => Ok(()),
        ModuleField::Data(_) => Ok(()),
        ModuleField::Tag(tag) => put(out, tag_mark(&tag.kind, tag.span)),
        ModuleField::Custom(_) => Ok(()),
    }
}

/// Appends the marks of the fields of a module, in order.
pub(crate) fn add_marks(out: &mut Vec<Mark>, fields: &[ModuleField<'_>]) -> Result<(), AllocError>
    ensures { OnOk result (marks_view out.new.items ≡ marks_view out.old.items
        ++ marks (fields_view fields.now)) }
{
    for field in fields {
        put_mark(out, field)?;
    }
    Ok(())
}

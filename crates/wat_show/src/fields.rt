//! The listing of a module's fields. The only error is out of memory.

ghost use Rattle.std.specs.Prelude.{◌≡◌, ◌++◌, ℕ, List, OnOk, length, map};
ghost use Rattle.wat_core.specs.Prelude.{field_view, bytes_in, data_val_view, data_vals_view, expression_view, custom_view, data_kind_view, elem_kind_view, func_kind_view, global_kind_view, memory_kind_view, payload_view, table_kind_view, tag_kind_view, items_view, index_view};
ghost use Rattle.wat_show.specs.Fields.{import_text, export_text, func_text, global_text, tag_text, all_below, payload_line, payload_lines, table_text, elem_word, offset_lines, elem_text, start_text, memory_text, data_text, custom_text, byte_count, field_text};

use crate::expressions::add_below;
use crate::types::add_index;
use crate::words::{add, add_counted};
use std::alloc::AllocError;
use wat_core::ModuleField;
use wat_expr::Expression;
use wat_fields::{
    DataKind, DataVal, ElemKind, ElemPayload, FuncKind, GlobalKind, MemoryKind, TableKind, TagKind,
};
use wat_links::{Custom, ExportKind, ImportItems};
use wat_tokens::Index;

/// A piece of a string of bytes.
pub(crate) trait Piece {
    /// The bytes of the piece.
    ghost bytes: { Self → List ℕ };

    /// Returns the number of bytes.
    fn count(&self) -> usize
        ensures { result ≡ length (bytes self.now) };
}

impl Piece for &[u8] {
    ghost bytes = { λ piece. piece.now };

    fn count(&self) -> usize {
        self.len()
    }
}

impl<'a> Piece for DataVal<'a> {
    ghost bytes = { λ value. bytes_in (data_val_view value) };

    fn count(&self) -> usize {
        self.len()
    }
}

/// Returns the total number of bytes of the pieces. Pieces may share bytes, so the total may be larger
/// than memory.
pub(crate) fn total<P: Piece>(pieces: &[P]) -> u128
    ensures { result ≡ byte_count (map P.bytes pieces.now) }
{
    let mut count = 0;
    for piece in pieces {
        count += piece.count() as u128;
    }
    count
}

/// Appends the line of imports.
pub fn add_import(out: &mut Vec<u8>, items: &ImportItems) -> Result<(), AllocError>
    ensures { OnOk result (out.new.items ≡ out.old.items ++ import_text (items_view items.now)) }
{
    match items {
        ImportItems::Single { .. } => add_counted(out, "import single ", 1),
        ImportItems::Group1 { items, .. } => {
            add_counted(out, "import group1 ", items.len() as u128)
        }
        ImportItems::Group2 { items, .. } => {
            add_counted(out, "import group2 ", items.len() as u128)
        }
    }
}

/// Appends the line of an export.
pub fn add_export(out: &mut Vec<u8>, kind: ExportKind) -> Result<(), AllocError>
    ensures { OnOk result (out.new.items ≡ out.old.items ++ export_text kind) }
{
    match kind {
        ExportKind::Func => add(out, "export func\n"),
        ExportKind::Table => add(out, "export table\n"),
        ExportKind::Memory => add(out, "export memory\n"),
        ExportKind::Global => add(out, "export global\n"),
        ExportKind::Tag => add(out, "export tag\n"),
    }
}

/// Appends the line of a function, and then the lines of its body.
pub fn add_func(out: &mut Vec<u8>, kind: &FuncKind) -> Result<(), AllocError>
    ensures { OnOk result (out.new.items ≡ out.old.items ++ func_text (func_kind_view kind.now)) }
{
    match kind {
        FuncKind::Import(_, _) => add(out, "func import\n"),
        FuncKind::Inline { locals, expression } => {
            add_counted(out, "func inline ", locals.len() as u128)?;
            add_below(out, expression)
        }
    }
}

/// Appends the line of a global, and then the lines of its initial value.
pub fn add_global(out: &mut Vec<u8>, kind: &GlobalKind) -> Result<(), AllocError>
    ensures { OnOk result (out.new.items ≡ out.old.items ++ global_text
        (global_kind_view kind.now)) }
{
    match kind {
        GlobalKind::Import(_) => add(out, "global import\n"),
        GlobalKind::Inline(expression) => {
            add(out, "global inline\n")?;
            add_below(out, expression)
        }
    }
}

/// Appends the line of a tag.
pub fn add_tag(out: &mut Vec<u8>, kind: &TagKind) -> Result<(), AllocError>
    ensures { OnOk result (out.new.items ≡ out.old.items ++ tag_text (tag_kind_view kind.now)) }
{
    match kind {
        TagKind::Import(_) => add(out, "tag import\n"),
        TagKind::Inline() => add(out, "tag inline\n"),
    }
}

/// Adds the line of a payload: `indices` or `exprs`, and their number.
fn add_payload_line(out: &mut Vec<u8>, payload: &ElemPayload) -> Result<(), AllocError>
    ensures { OnOk result (out.new.items ≡ out.old.items ++ payload_line
        (payload_view payload.now)) }
{
    match payload {
        ElemPayload::Indices(indices) => add_counted(out, "indices ", indices.len() as u128),
        ElemPayload::Exprs { exprs, .. } => add_counted(out, "exprs ", exprs.len() as u128),
    }
}

/// Adds the lines of expressions in order, each indented by two spaces.
fn add_all_below(out: &mut Vec<u8>, expressions: &[Expression]) -> Result<(), AllocError>
    ensures { OnOk result (out.new.items ≡ out.old.items ++ all_below
        (map expression_view expressions.now)) }
{
    for expression in expressions {
        add_below(out, expression)?;
    }
    Ok(())
}

/// Adds the lines of a payload's expressions.
fn add_payload_lines(out: &mut Vec<u8>, payload: &ElemPayload) -> Result<(), AllocError>
    ensures { OnOk result (out.new.items ≡ out.old.items ++ payload_lines
        (payload_view payload.now)) }
{
    match payload {
        ElemPayload::Indices(_) => Ok(()),
        ElemPayload::Exprs { exprs, .. } => add_all_below(out, exprs),
    }
}

/// Appends the line of a table, and then the lines of its expressions.
pub fn add_table(out: &mut Vec<u8>, kind: &TableKind) -> Result<(), AllocError>
    ensures { OnOk result (out.new.items ≡ out.old.items ++ table_text (table_kind_view kind.now)) }
{
    match kind {
        TableKind::Import { .. } => add(out, "table import\n"),
        TableKind::Normal { init_expr, .. } => {
            add(out, "table normal\n")?;
            match init_expr {
                Some(expression) => add_below(out, expression),
                None => Ok(()),
            }
        }
        TableKind::Inline { payload, .. } => {
            add(out, "table inline ")?;
            add_payload_line(out, payload)?;
            add_payload_lines(out, payload)
        }
    }
}

/// Adds `elem`, and the word for the kind of an element segment.
fn add_elem_word(out: &mut Vec<u8>, kind: &ElemKind) -> Result<(), AllocError>
    ensures { OnOk result (out.new.items ≡ out.old.items ++ elem_word (elem_kind_view kind.now)) }
{
    match kind {
        ElemKind::Passive => add(out, "elem passive "),
        ElemKind::Declared => add(out, "elem declared "),
        ElemKind::Active { .. } => add(out, "elem active "),
    }
}

/// Adds the lines of the offset of an element segment, if it has an offset.
fn add_elem_offset(out: &mut Vec<u8>, kind: &ElemKind) -> Result<(), AllocError>
    ensures { OnOk result (out.new.items ≡ out.old.items ++ offset_lines
        (elem_kind_view kind.now)) }
{
    match kind {
        ElemKind::Passive | ElemKind::Declared => Ok(()),
        ElemKind::Active { offset, .. } => add_below(out, offset),
    }
}

/// Appends the line of an element segment, and then the lines of its expressions, the offset first.
pub fn add_elem(out: &mut Vec<u8>, kind: &ElemKind, payload: &ElemPayload) -> Result<(), AllocError>
    ensures { OnOk result (out.new.items ≡ out.old.items ++ elem_text
        (elem_kind_view kind.now, payload_view payload.now)) }
{
    add_elem_word(out, kind)?;
    add_payload_line(out, payload)?;
    add_elem_offset(out, kind)?;
    add_payload_lines(out, payload)
}

/// Appends the line of a memory.
pub fn add_memory(out: &mut Vec<u8>, kind: &MemoryKind) -> Result<(), AllocError>
    ensures { OnOk result (out.new.items ≡ out.old.items ++ memory_text
        (memory_kind_view kind.now)) }
{
    match kind {
        MemoryKind::Import { .. } => add(out, "memory import\n"),
        MemoryKind::Normal(_) => add(out, "memory normal\n"),
        MemoryKind::Inline { data, .. } => add_counted(out, "memory inline ", total(data)),
    }
}

/// Appends the line of a data segment, and then the lines of its offset.
pub fn add_data(out: &mut Vec<u8>, kind: &DataKind, values: &[DataVal]) -> Result<(), AllocError>
    ensures { OnOk result (out.new.items ≡ out.old.items ++ data_text (data_kind_view kind.now)
        (data_vals_view values.now)) }
{
    match kind {
        DataKind::Passive => add_counted(out, "data passive ", total(values)),
        DataKind::Active { offset, .. } => {
            add_counted(out, "data active ", total(values))?;
            add_below(out, offset)
        }
    }
}

/// Appends the line of a custom section.
pub fn add_custom(out: &mut Vec<u8>, custom: &Custom) -> Result<(), AllocError>
    ensures { OnOk result (out.new.items ≡ out.old.items ++ custom_text (custom_view custom.now)) }
{
    match custom {
        Custom::Raw(raw) => add_counted(out, "custom raw ", total(&raw.data)),
        Custom::Producers(producers) => {
            add_counted(out, "custom producers ", producers.fields.len() as u128)
        }
        Custom::Dylink0(dylink) => {
            add_counted(out, "custom dylink.0 ", dylink.subsections.len() as u128)
        }
    }
}

/// Appends the line of a start function.
pub fn add_start(out: &mut Vec<u8>, index: &Index) -> Result<(), AllocError>
    ensures { OnOk result (out.new.items ≡ out.old.items ++ start_text (index_view index.now)) }
{
    add(out, "start ")?;
    add_index(out, index)?;
    add(out, "\n")
}

/// Appends the line of a field, and then the lines of its expressions.
#[tactic(auto, unfolding(crate::specs::Fields::field_text))]
pub fn add_field(out: &mut Vec<u8>, field: &ModuleField) -> Result<(), AllocError>
    ensures { OnOk result (out.new.items ≡ out.old.items ++ field_text (field_view field.now)) }
{
    match field {
        ModuleField::Type(_) => add(out, "type\n"),
        ModuleField::Rec(rec) => add_counted(out, "rec ", rec.types.len() as u128),
        ModuleField::Import(import) => add_import(out, &import.items),
        ModuleField::Func(func) => add_func(out, &func.kind),
        ModuleField::Table(table) => add_table(out, &table.kind),
        ModuleField::Memory(memory) => add_memory(out, &memory.kind),
        ModuleField::Global(global) => add_global(out, &global.kind),
        ModuleField::Export(export) => add_export(out, export.kind),
        ModuleField::Start(index) => add_start(out, index),
        ModuleField::Elem(elem) => add_elem(out, &elem.kind, &elem.payload),
        ModuleField::Data(data) => add_data(out, &data.kind, &data.data),
        ModuleField::Tag(tag) => add_tag(out, &tag.kind),
        ModuleField::Custom(custom) => add_custom(out, custom),
    }
}

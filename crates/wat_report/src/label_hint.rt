//! The words of the hint for a fault of blocks, labels or imports.

ghost use Rattle.std.specs.Prelude.{◌≡◌, ◌++◌, OnOk, flat_map, option_to_list};
ghost use Rattle.wat_report.specs.LabelHints.{block_hint, block_words, id_words, import_hint, innermost_hint, label_words, labelled_block, labels_begin, labels_hint, line_words, next_label, some_labels};

use crate::found::add_marked_text;
use crate::lines::{char_start, line_column};
use crate::write::{add, add_number};
use std::alloc::AllocError;
use wat_scopes::Note;
use wat_tokens::{Id, Span};

/// Adds the words and the number of the line of a position.
#[tactic(auto, unfolding(crate::specs::LabelHints::line_words))]
pub(crate) fn add_line_of(
    out: &mut Vec<u8>,
    text: &str,
    words: &str,
    span: Span,
) -> Result<(), AllocError>
    ensures { OnOk result (out.new.items ≡ out.old.items ++ line_words text.now words.now span) }
{
    add(out, words)?;
    add_number(out, line_column(text, span.offset()).line)
}

/// Adds the identifier at a position, between backquotes.
pub(crate) fn add_id(out: &mut Vec<u8>, text: &str, span: Span) -> Result<(), AllocError>
    ensures { OnOk result (out.new.items ≡ out.old.items ++ id_words text.now span) }
{
    add_marked_text(out, text, char_start(text, span.offset()))
}

/// Adds further labels, each after a comma.
fn add_further_labels(out: &mut Vec<u8>, text: &str, labels: &[Id<'_>]) -> Result<(), AllocError>
    ensures { OnOk result (out.new.items ≡ out.old.items ++ flat_map (next_label text.now)
        labels.now) }
{
    for label in labels {
        add(out, ", ")?;
        add_id(out, text, label.span())?;
    }
    Ok(())
}

/// Returns the words before the labels of the enclosing blocks: one, and these further labels.
#[tactic(auto, using(crate::proofs::LabelWords::begun))]
fn labels_begin(further: &[Id<'_>]) -> &'static str
    ensures { result.now ≡ labels_begin further.now }
{
    if further.is_empty() {
        return "the enclosing label is ";
    }
    "the enclosing labels are "
}

/// Adds the labels of the enclosing blocks.
#[tactic(auto, unfolding(crate::specs::LabelHints::some_labels))]
fn add_some_labels(
    out: &mut Vec<u8>,
    text: &str,
    first: Span,
    further: &[Id<'_>],
) -> Result<(), AllocError>
    ensures { OnOk result (out.new.items ≡ out.old.items ++ some_labels text.now first
        further.now) }
{
    add(out, labels_begin(further))?;
    add_id(out, text, first)?;
    add_further_labels(out, text, further)
}

/// Adds the labels of the enclosing blocks, or that they have none.
#[tactic(auto, using(crate::proofs::LabelWords::listed))]
fn add_labels(out: &mut Vec<u8>, text: &str, labels: &[Id<'_>]) -> Result<(), AllocError>
    ensures { OnOk result (out.new.items ≡ out.old.items ++ label_words text.now labels.now) }
{
    match labels.split_first() {
        None => add(out, "no enclosing block has a label"),
        Some((first, further)) => add_some_labels(out, text, first.span(), further),
    }
}

/// Adds a label to a list, if there is one.
fn push_some<'a>(labels: &mut Vec<Id<'a>>, label: Option<Id<'a>>) -> Result<(), AllocError>
    ensures { OnOk result (labels.new.items ≡ labels.old.items ++ option_to_list label.entry) }
{
    if let Some(id) = label {
        labels.push(id)?;
    }
    Ok(())
}

/// Adds the labels of the enclosing blocks to the hint.
fn add_labels_of(
    out: &mut Vec<u8>,
    text: &str,
    first: Option<Id<'_>>,
    second: Option<Id<'_>>,
    third: Option<Id<'_>>,
) -> Result<(), AllocError>
    ensures { OnOk result (out.new.items ≡ out.old.items ++ label_words text.now
        (option_to_list first.entry ++ (option_to_list second.entry
        ++ option_to_list third.entry))) }
{
    let mut labels = Vec::new(*out.allocator());
    push_some(&mut labels, first)?;
    push_some(&mut labels, second)?;
    push_some(&mut labels, third)?;
    add_labels(out, text, &labels)
}

/// Adds the hint for an unknown label.
pub(crate) fn add_labels_hint(
    out: &mut Vec<u8>,
    text: &str,
    note: Note<'_>,
) -> Result<(), AllocError>
    ensures { OnOk result (out.new.items ≡ out.old.items ++ labels_hint text.now note.entry) }
{
    match note {
        Note::Nothing => Ok(()),
        Note::First(_) => Ok(()),
        Note::Block(_, _) => Ok(()),
        Note::Labels(first, second, third) => add_labels_of(out, text, first, second, third),
    }
}

/// Adds the label and the line of a block.
#[tactic(auto, unfolding(crate::specs::LabelHints::labelled_block))]
fn add_labelled_block(
    out: &mut Vec<u8>,
    text: &str,
    label: Span,
    span: Span,
) -> Result<(), AllocError>
    ensures { OnOk result (out.new.items ≡ out.old.items ++ labelled_block text.now label
        span) }
{
    add(out, "the block is ")?;
    add_id(out, text, label)?;
    add_line_of(out, text, ", and begins in line ", span)
}

/// Adds the label of a block, if it has one, and its line.
fn add_block(
    out: &mut Vec<u8>,
    text: &str,
    label: Option<Id<'_>>,
    span: Span,
) -> Result<(), AllocError>
    ensures { OnOk result (out.new.items ≡ out.old.items ++ block_words text.now label.entry
        span) }
{
    match label {
        None => add_line_of(
            out,
            text,
            "the block has no label, and begins in line ",
            span,
        ),
        Some(label) => add_labelled_block(out, text, label.span(), span),
    }
}

/// Adds the hint for a label that isn't the label of the block.
pub(crate) fn add_block_hint(
    out: &mut Vec<u8>,
    text: &str,
    note: Note<'_>,
) -> Result<(), AllocError>
    ensures { OnOk result (out.new.items ≡ out.old.items ++ block_hint text.now note.entry) }
{
    match note {
        Note::Nothing => Ok(()),
        Note::First(_) => Ok(()),
        Note::Block(label, span) => add_block(out, text, label, span),
        Note::Labels(_, _, _) => Ok(()),
    }
}

/// Adds the hint for an `else` or a clause that the innermost block doesn't allow.
pub(crate) fn add_innermost_hint(
    out: &mut Vec<u8>,
    text: &str,
    note: Note<'_>,
) -> Result<(), AllocError>
    ensures { OnOk result (out.new.items ≡ out.old.items ++ innermost_hint text.now note.entry) }
{
    match note {
        Note::Nothing => add(out, "no block is open here"),
        Note::First(_) => Ok(()),
        Note::Block(_, span) => {
            add_line_of(out, text, "the innermost open block begins in line ", span)
        }
        Note::Labels(_, _, _) => Ok(()),
    }
}

/// Adds the hint for an import after a definition.
pub(crate) fn add_import_hint(
    out: &mut Vec<u8>,
    text: &str,
    note: Note<'_>,
) -> Result<(), AllocError>
    ensures { OnOk result (out.new.items ≡ out.old.items ++ import_hint text.now note.entry) }
{
    match note {
        Note::Nothing => Ok(()),
        Note::First(span) => add_line_of(out, text, "the first definition is in line ", span),
        Note::Block(_, _) => Ok(()),
        Note::Labels(_, _, _) => Ok(()),
    }
}

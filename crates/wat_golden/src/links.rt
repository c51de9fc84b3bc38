//! Rows of imports, exports and custom sections.

use crate::copies::{Cloned, Uncopied};
use crate::printers::{OfModules, Unprinted};
use crate::readers::{Bare, Grouped, Reader};
use crate::repeated::{COUNTS, expanded};
use crate::row::{Row, add, add_refusal, read};
use std::alloc::{AllocError, Global};
use std::mem::forget;
use wat_core::{
    Custom, CustomPlace, CustomPlaceAnchor, Dylink0, Error, Export, ExportKind, ExportType,
    FieldHead, Imports, InlineExport, InlineImport, ItemKind, ItemSig, Parse, Parser, Producers,
    RawCustomSection,
};

/// A summary of an import.
#[derive(Debug, Drop)]
struct Told {
    /// How many items it has.
    items: usize,
    /// How many signatures are written in it.
    sigs: usize,
    /// The word and the place of the signature of each item.
    item_sigs: Vec<(&'static str, usize)>,
}

/// Neighbouring items with signatures of one kind, at places with equal distances.
#[derive(Drop)]
struct Run {
    /// The word of the signatures' kind.
    word: &'static str,
    /// The place of the first signature.
    first: usize,
    /// The place of the last one.
    last: usize,
    /// How far each is from the one before it.
    distance: usize,
    /// How many items there are.
    items: usize,
}

/// A summary of a custom section.
#[derive(Debug, Drop)]
struct Section<'a> {
    /// Where it is.
    place: CustomPlace,
    /// Its name.
    name: &'a str,
    /// The numbers of the subsections of one of dynamic linking.
    ids: Vec<u8>,
}

/// A value with a summary.
struct OfItself;

/// The words of a signature's kind.
fn word_of(sig: &ItemSig<'_>) -> &'static str {
    match sig.kind {
        ItemKind::Func(_) => "func",
        ItemKind::Table(_) => "table",
        ItemKind::Memory(_) => "memory",
        ItemKind::Global(_) => "global",
        ItemKind::Tag(_) => "tag",
        ItemKind::FuncExact(_) => "func exact",
    }
}

/// The word and the place of a signature.
fn word_and_place(sig: &ItemSig<'_>) -> (&'static str, usize) {
    (word_of(sig), sig.span.offset())
}

/// A summary of an import.
fn tell(alloc: Global, imports: &Imports<'_>) -> Result<Told, Error> {
    let mut item_sigs = Vec::new(alloc);
    for sig in imports.item_sigs(alloc)? {
        item_sigs.push(word_and_place(sig))?;
    }
    Ok(Told {
        items: imports.num_items(),
        sigs: imports.num_sigs(),
        item_sigs,
    })
}

impl Run {
    /// Adds the next item if it belongs to the run, and returns whether it does.
    fn takes(&mut self, (word, place): (&'static str, usize)) -> bool {
        let distance = place.wrapping_sub(self.last);
        if word != self.word || (self.items > 1 && distance != self.distance) {
            return false;
        }
        self.last = place;
        self.distance = distance;
        self.items = self.items.saturating_add(1);
        true
    }
}

/// Adds the runs of items: the number of items of each, their word, the first place and the
/// distance.
fn add_runs(out: &mut String, sigs: &[(&'static str, usize)]) -> Result<(), AllocError> {
    let mut runs: Vec<Run> = Vec::new(*out.allocator());
    for (word, place) in sigs {
        let sig = (*word, *place);
        let is_taken = runs.last_mut().is_some_and(|run| run.takes(sig));
        if !is_taken {
            runs.push(Run {
                word: *word,
                first: *place,
                last: *place,
                distance: 0,
                items: 1,
            })?;
        }
    }
    for Run {
        word,
        first,
        distance,
        items,
        ..
    } in &runs {
        write!(out, "; {items} {word} from {first} by {distance}")?;
    }
    Ok(())
}

/// Adds a line for each number of members: how many items and signatures the import has, and the
/// runs of its items.
fn add_signatures<'a>(out: &mut String, row: &Row<'a>) -> Result<bool, AllocError> {
    for count in COUNTS {
        let text: &'a str = row
            .arena
            .try_alloc_str(&expanded(row.alloc, row.text, count)?)?;
        match read::<Told, OfItself>(row, text, false) {
            Ok(
                Told {
                    items,
                    sigs,
                    item_sigs,
                },
            ) => {
                write!(out, "= items {items}, signatures {sigs}")?;
                add_runs(out, &item_sigs)?;
                out.push_str("\n")?;
            }
            Err(error) => add_refusal(out, error)?,
        }
    }
    Ok(true)
}

/// A summary of a custom section.
fn section_of<'a>(alloc: Global, custom: &Custom<'a>) -> Result<Section<'a>, Error> {
    let mut ids = Vec::new(alloc);
    if let Custom::Dylink0(dylink) = custom {
        for subsection in &dylink.subsections {
            ids.push(subsection.id())?;
        }
    }
    Ok(Section {
        place: custom.place(),
        name: custom.name(),
        ids,
    })
}

impl<'a> Reader<'a, Told> for OfItself {
    fn read(row: &Row<'a>, parser: &mut Parser<'a>) -> Result<Told, Error> {
        let imports = Imports::parse(parser)?;
        let told = tell(row.alloc, &imports);
        forget(imports);
        told
    }
}

impl<'a> Reader<'a, Section<'a>> for OfItself {
    fn read(row: &Row<'a>, parser: &mut Parser<'a>) -> Result<Section<'a>, Error> {
        let custom = <Grouped as Reader<'a, Custom<'a>>>::read(row, parser)?;
        let section = section_of(row.alloc, &custom);
        forget(custom);
        section
    }
}

/// Adds the result of a row of a custom section, or what is in one.
fn add_custom<'a>(out: &mut String, row: &Row<'a>) -> Result<bool, AllocError> {
    match row.kind {
        "custom" => add::<Custom<'a>, Grouped, OfModules, Uncopied>(out, row),
        "raw" => add::<RawCustomSection<'a>, Grouped, OfModules, Uncopied>(out, row),
        "producers" => add::<Producers<'a>, Grouped, OfModules, Uncopied>(out, row),
        "dylink" => add::<Dylink0<'a>, Grouped, OfModules, Uncopied>(out, row),
        "place" => add::<CustomPlace, Bare, OfModules, Uncopied>(out, row),
        "anchor" => add::<CustomPlaceAnchor, Bare, OfModules, Uncopied>(out, row),
        "section" => add::<Section<'a>, OfItself, Unprinted, Uncopied>(out, row),
        _ => Ok(false),
    }
}

/// Adds the result of a row of an import, an export or a custom section.
pub fn add_row<'a>(out: &mut String, row: &Row<'a>) -> Result<bool, AllocError> {
    match row.kind {
        "imports" => add::<Imports<'a>, Bare, OfModules, Cloned>(out, row),
        "signatures" if row.words == "times" => add_signatures(out, row),
        "signatures" => add::<Told, OfItself, Unprinted, Uncopied>(out, row),
        "item" => add::<ItemSig<'a>, Bare, OfModules, Cloned>(out, row),
        "inline_import" => add::<InlineImport<'a>, Bare, OfModules, Uncopied>(out, row),
        "export" => add::<Export<'a>, Bare, OfModules, Uncopied>(out, row),
        "export_kind" => add::<ExportKind, Bare, OfModules, Uncopied>(out, row),
        "export_type" => add::<ExportType<'a>, Bare, OfModules, Cloned>(out, row),
        "inline_export" => add::<InlineExport<'a>, Bare, OfModules, Uncopied>(out, row),
        "field_head" => add::<FieldHead<'a>, Bare, OfModules, Uncopied>(out, row),
        _ => add_custom(out, row),
    }
}

//! Imports, exports and custom sections of the WebAssembly text format (WebAssembly Core
//! Specification, Text Format, "Imports", "Exports" and "Custom Annotation").
//!
//! [`wat_tokens::Parse`] reads each type from tokens. Names and indices aren't resolved. Custom
//! sections are annotations in the text. A parser sees an annotation only if the annotation is
//! known. The types of custom sections are read after the `(` of the annotation.
#![tactic(auto)]

pub mod custom;
pub mod custom_place;
pub mod dylink;
pub mod export;
pub mod field_head;
mod flags;
pub mod import;
mod import_items;
pub mod inline_import;
pub mod item;
pub mod laws;
pub mod producers;
pub mod raw;

pub use custom::Custom;
pub use custom_place::{CustomPlace, CustomPlaceAnchor};
pub use dylink::{Dylink0, Dylink0Subsection};
pub use export::{Export, ExportKind, ExportType, InlineExport};
pub use field_head::FieldHead;
pub use import::{
    ImportGroup1Item, ImportGroup1ItemOf, ImportGroup2Item, ImportGroup2ItemOf, ImportItems,
    ImportItemsOf, Imports, ImportsOf,
};
pub use inline_import::InlineImport;
pub use item::{ItemKind, ItemSig, take_exact_use};
pub use producers::Producers;
pub use raw::RawCustomSection;

//! The `producers` section.

ghost use Rattle.std.specs.Prelude.{◌≡◌, ◌++◌, ℕ, false, List, map, IfOk, IfErr};
ghost use Rattle.wat_tokens.specs.Views.{plain, owning, no_items};
ghost use Rattle.wat_links.specs.Producers.{word_of, same_field, entry_view, entries_view, names_view, producers_view, field_entries, field_with_entries, fields_of, producers};
ghost use Rattle.wat_links.specs.ProducerEntry.{field_words, Versioned, ProducerEntryModel, field_word, producer_entry};
ghost use Rattle.wat_links.specs.Laws.Named.{field_is_named};

use std::alloc::Global;
use wat_tokens::repeat::rest_of_group;
use wat_tokens::words::{NamedByKeyword, take_named};
use wat_tokens::{Error, Fault, Parse, Parser, Result};

/// The `producers` section: the languages and tools that made a module (WebAssembly Core
/// Specification, Text Format, "Custom Annotation", and the tool conventions on this section).
#[derive(Debug, Drop)]
pub struct Producers<'a> {
    /// The fields `language`, `sdk` and `processed-by`, in this order. Each field has its entries,
    /// a name and a version, in the order of the text. Fields without entries are left out.
    pub fields: Vec<(&'a str, Vec<(&'a str, &'a str)>)>,
}

/// A field of the section.
#[derive(Clone, Copy, Debug)]
enum Field {
    /// `language`
    Language,
    /// `sdk`
    Sdk,
    /// `processed-by`
    ProcessedBy,
}

/// An entry of the section.
#[derive(Clone, Copy, Debug)]
struct ProducerEntry<'a> {
    field: Field,
    name: &'a str,
    version: &'a str,
}

/// The fields by keyword.
impl NamedByKeyword for Field {
    ghost words = { field_words };

    ghost keyword = { word_of };

    ghost is_named = { field_is_named };

    fn named(word: &str) -> Option<Self> {
        match word {
            "language" => Some(Field::Language),
            "sdk" => Some(Field::Sdk),
            "processed-by" => Some(Field::ProcessedBy),
            _ => None,
        }
    }

    fn word(self) -> &'static str {
        match self {
            Field::Language => "language",
            Field::Sdk => "sdk",
            Field::ProcessedBy => "processed-by",
        }
    }
}

impl Field {
    /// Returns whether the two fields are the same.
    fn is(self, other: Field) -> bool
        ensures { result ≡ same_field self other }
    {
        match (self, other) {
            (Field::Language, Field::Language) => true,
            (Field::Sdk, Field::Sdk) => true,
            (Field::ProcessedBy, Field::ProcessedBy) => true,
            _ => false,
        }
    }
}

/// Reads the keyword of a field.
impl<'a> Parse<'a> for Field {
    ghost use Rattle.wat_links.specs.declared.producers.Field.{Field};

    ghost View = { Field };

    ghost view = { plain (λ f. f) };

    ghost grammar = { field_word };

    #[tactic(auto, unfolding(crate::specs::ProducerEntry::field_word))]
    fn parse(parser: &mut Parser<'a>) -> Result<Self> {
        take_named(parser)
    }
}

/// Reads the keyword of a field, a name and a version, in parentheses.
impl<'a> Parse<'a> for ProducerEntry<'a> {
    ghost View = { ProducerEntryModel };

    ghost view = { plain entry_view };

    ghost grammar = { producer_entry };

    #[tactic(auto, unfolding(crate::specs::ProducerEntry::producer_entry))]
    fn parse(parser: &mut Parser<'a>) -> Result<Self> {
        parser.open()?;
        let field = Field::parse(parser)?;
        let name = <&str as Parse>::parse(parser)?;
        let version = <&str as Parse>::parse(parser)?;
        parser.close()?;
        Ok(ProducerEntry {
            field,
            name,
            version,
        })
    }
}

/// Returns the entries of the field.
fn field_entries<'a>(
    alloc: Global,
    entries: &[ProducerEntry<'a>],
    field: Field,
) -> Result<Vec<(&'a str, &'a str)>>
    ensures ok { IfOk result (λ v. names_view v.items ≡ field_entries field
        (entries_view entries.now)) }
    ensures memory { IfErr result (λ e. e.fault ≡ Fault.Memory) }
{
    let mut found = Vec::new(alloc);
    'entries: for entry in entries {
        if entry.field.is(field) {
            found.push((entry.name, entry.version))?;
        }
    }
    Ok(found)
}

/// Appends the field with its entries, if the field has entries.
fn add_field<'a>(
    fields: &mut Vec<(&'a str, Vec<(&'a str, &'a str)>)>,
    entries: &[ProducerEntry<'a>],
    field: Field,
) -> Result<()>
    ensures ok { IfOk result (λ _. map (λ f. (f.0.now, names_view f.1.items)) fields.new.items ≡ map
        (λ f. (f.0.now, names_view f.1.items)) fields.old.items ++ field_with_entries field
        (entries_view entries.now)) }
    ensures memory { IfErr result (λ e. e.fault ≡ Fault.Memory) }
{
    let found = field_entries(*fields.allocator(), entries, field)?;
    if !found.is_empty() {
        fields.push((field.word(), found))?;
    }
    Ok(())
}

/// Returns the fields of the entries. Returns the error Memory only if the list has an entry.
fn fields_of<'a>(
    alloc: Global,
    entries: &[ProducerEntry<'a>],
) -> Result<Vec<(&'a str, Vec<(&'a str, &'a str)>)>>
    ensures ok { IfOk result (λ v. map (λ f. (f.0.now, names_view f.1.items)) v.items ≡ fields_of
        (entries_view entries.now)) }
    ensures memory { IfErr result (λ e. (e.fault ≡ Fault.Memory)
        × (no_items (entries_view entries.now) ≡ false)) }
{
    let mut fields = Vec::new(alloc);
    if entries.is_empty() {
        return Ok(fields);
    }
    add_field(&mut fields, entries, Field::Language)?;
    add_field(&mut fields, entries, Field::Sdk)?;
    add_field(&mut fields, entries, Field::ProcessedBy)?;
    Ok(fields)
}

/// Reads `@producers`, and entries up to the end of the group: `( language name version )`, `( sdk
/// name version )` and `( processed-by name version )`, in any order. Returns Unexpected, at the
/// keyword, for any other keyword.
impl<'a> Parse<'a> for Producers<'a> {
    ghost View = { List (List ℕ × List Versioned) };

    ghost view = { owning producers_view no_items };

    ghost grammar = { producers };

    #[tactic(auto, using(crate::proofs::Fields::entry_steps), unfolding(crate::specs::Producers::producers, crate::specs::Producers::producer_entries))]
    fn parse(parser: &mut Parser<'a>) -> Result<Self> {
        parser.take_annotation("producers")?;
        let mut entries = Vec::new(parser.alloc());
        rest_of_group::<ProducerEntry>(parser, &mut entries)?;
        let fields = fields_of(parser.alloc(), &entries)?;
        Ok(Producers { fields })
    }
}

//! The `dylink.0` section.

ghost use Rattle.std.specs.Prelude.{◌≡◌, ℕ, List, map};
ghost use Rattle.wat_types.specs.Prelude.{Reads, more, plain, owning, no_items};
ghost use Rattle.wat_links.specs.Dylink.{Dylink0SubsectionModel, dylink_export_view, dylink_import_view, subsection_view, dylink_view, heapless_subsection, id_of, sizes, mem_info_entry, names_entry, lone_entry, begins_export, begins_import, entry_run, subsection, at_export, at_import};
ghost use Rattle.wat_links.specs.DylinkEntries.{export_entry, import_entry};
ghost use Rattle.wat_links.specs.Laws.DylinkEntries.{export_entry_consumes, import_entry_consumes};
ghost use Rattle.wat_links.specs.Cutting.{dylink};

use crate::flags::read_flags;
use wat_tokens::enclosed::in_word_group;
use wat_tokens::repeat::{Part, parts, rest_of_group};
use wat_tokens::{Parse, Parser, Result};

/// The `dylink.0` section of a dynamically linked module (WebAssembly Core Specification, Text
/// Format, "Custom Annotation", and the tool conventions on dynamic linking).
#[derive(Debug, Drop)]
pub struct Dylink0<'a> {
    /// The subsections, in the order of the text. Adjacent export entries form one subsection.
    /// Adjacent import entries form one subsection. Every other entry is a separate subsection.
    pub subsections: Vec<Dylink0Subsection<'a>>,
}

/// A subsection of the `dylink.0` section.
#[derive(Debug, Drop)]
pub enum Dylink0Subsection<'a> {
    /// `mem-info`: the memory and the table space that the module needs. Missing numbers are 0.
    MemInfo {
        /// The size in the memory, in bytes.
        memory_size: u32,
        /// The alignment in the memory: the exponent k of 2^k bytes.
        memory_align: u32,
        /// The size in the table, in elements.
        table_size: u32,
        /// The alignment in the table: the exponent k of 2^k elements.
        table_align: u32,
    },
    /// `needed`: the names of the modules that the module needs.
    Needed(Vec<&'a str>),
    /// `export-info`: export names, each with its flags.
    ExportInfo(Vec<(&'a str, u32)>),
    /// `import-info`: module and name of imports, each with its flags.
    ImportInfo(Vec<(&'a str, &'a str, u32)>),
    /// `runtime-path`: the paths on which needed modules are searched.
    RuntimePath(Vec<&'a str>),
    /// `target-arch`: the target architecture.
    TargetArch(&'a str),
}

impl Dylink0Subsection<'_> {
    /// Returns the number of the subsection's kind in a binary module: 1 to 6, in the order of the
    /// variants.
    pub fn id(&self) -> u8
        ensures { result ≡ id_of self.now }
    {
        match self {
            Dylink0Subsection::MemInfo { .. } => 1,
            Dylink0Subsection::Needed(_) => 2,
            Dylink0Subsection::ExportInfo(_) => 3,
            Dylink0Subsection::ImportInfo(_) => 4,
            Dylink0Subsection::RuntimePath(_) => 5,
            Dylink0Subsection::TargetArch(_) => 6,
        }
    }
}

/// Reads `( word size alignment )` if the second token is the word. Otherwise returns 0 and 0.
#[tactic(auto, unfolding(crate::specs::Dylink::sizes))]
fn read_sizes<'a>(parser: &mut Parser<'a>, word: &str) -> Result<(u32, u32)>
    ensures reads { Reads (plain (λ s. s)) (sizes word.now) result parser.old parser.new }
{
    if !parser.second_is(word) {
        return Ok((0, 0));
    }
    parser.open()?;
    parser.keyword(word)?;
    let size = u32::parse(parser)?;
    let align = u32::parse(parser)?;
    parser.close()?;
    Ok((size, align))
}

/// Reads `( mem-info ( memory u32 u32 ) ( table u32 u32 ) )`, where each inner group is optional.
#[tactic(auto, unfolding(crate::specs::Dylink::mem_info_entry))]
fn read_mem_info<'a>(parser: &mut Parser<'a>) -> Result<Dylink0Subsection<'a>>
    ensures reads { Reads (plain subsection_view) mem_info_entry result parser.old parser.new }
{
    parser.open()?;
    parser.keyword("mem-info")?;
    let (memory_size, memory_align) = read_sizes(parser, "memory")?;
    let (table_size, table_align) = read_sizes(parser, "table")?;
    parser.close()?;
    Ok(Dylink0Subsection::MemInfo {
        memory_size,
        memory_align,
        table_size,
        table_align,
    })
}

/// Reads the word and names, in parentheses.
#[tactic(auto, unfolding(crate::specs::Dylink::names_entry))]
fn read_names<'a>(parser: &mut Parser<'a>, word: &str) -> Result<Vec<&'a str>>
    ensures reads { Reads (owning (λ v. map (λ x. x.now) v.items) no_items) (names_entry word.now)
        result parser.old parser.new }
{
    parser.open()?;
    parser.keyword(word)?;
    let mut names = Vec::new(parser.alloc());
    rest_of_group::<&str>(parser, &mut names)?;
    parser.close()?;
    Ok(names)
}

/// Reads an entry that is neither an export entry nor an import entry.
#[tactic(auto, unfolding(crate::specs::Dylink::lone_entry))]
fn read_lone<'a>(parser: &mut Parser<'a>) -> Result<Dylink0Subsection<'a>>
    ensures reads { Reads (owning subsection_view heapless_subsection) lone_entry result parser.old
        parser.new }
{
    if parser.group_is("mem-info") {
        return read_mem_info(parser);
    }
    if parser.group_is("needed") {
        return Ok(Dylink0Subsection::Needed(read_names(parser, "needed")?));
    }
    if parser.group_is("runtime-path") {
        return Ok(Dylink0Subsection::RuntimePath(read_names(parser, "runtime-path")?));
    }
    in_word_group(parser, "target-arch").map(Dylink0Subsection::TargetArch)
}

/// `( export-info name flags )`
struct ExportEntry;

impl<'a> Part<'a, (&'a str, u32)> for ExportEntry {
    ghost View = { List ℕ × ℕ };

    ghost view = { plain dylink_export_view };

    ghost grammar = { export_entry };

    ghost follows = { begins_export };

    fn follows(parser: &Parser<'a>) -> bool {
        parser.group_is("export-info")
    }

    #[tactic(auto, unfolding(crate::specs::DylinkEntries::export_entry))]
    fn take(parser: &mut Parser<'a>) -> Result<(&'a str, u32)> {
        parser.open()?;
        parser.keyword("export-info")?;
        let name = <&str as Parse>::parse(parser)?;
        let flags = read_flags(parser)?;
        parser.close()?;
        Ok((name, flags))
    }
}

/// `( import-info module name flags )`
struct ImportEntry;

impl<'a> Part<'a, (&'a str, &'a str, u32)> for ImportEntry {
    ghost View = { List ℕ × List ℕ × ℕ };

    ghost view = { plain dylink_import_view };

    ghost grammar = { import_entry };

    ghost follows = { begins_import };

    fn follows(parser: &Parser<'a>) -> bool {
        parser.group_is("import-info")
    }

    #[tactic(auto, unfolding(crate::specs::DylinkEntries::import_entry))]
    fn take(parser: &mut Parser<'a>) -> Result<(&'a str, &'a str, u32)> {
        parser.open()?;
        parser.keyword("import-info")?;
        let module = <&str as Parse>::parse(parser)?;
        let name = <&str as Parse>::parse(parser)?;
        let flags = read_flags(parser)?;
        parser.close()?;
        Ok((module, name, flags))
    }
}

/// Reads an export entry, and all export entries directly after it.
#[tactic(auto, using(crate::proofs::Runs::run_steps))]
fn read_exports<'a>(parser: &mut Parser<'a>) -> Result<Vec<(&'a str, u32)>>
    ensures reads { Reads (owning (λ v. map dylink_export_view v.items) no_items)
        (entry_run at_export export_entry export_entry_consumes) result parser.old parser.new }
{
    let mut entries = Vec::new(parser.alloc());
    entries.push(ExportEntry::take(parser)?)?;
    parts::<_, ExportEntry>(parser, &mut entries)?;
    Ok(entries)
}

/// Reads an import entry, and all import entries directly after it.
#[tactic(auto, using(crate::proofs::Runs::run_steps))]
fn read_imports<'a>(parser: &mut Parser<'a>) -> Result<Vec<(&'a str, &'a str, u32)>>
    ensures reads { Reads (owning (λ v. map dylink_import_view v.items) no_items)
        (entry_run at_import import_entry import_entry_consumes) result parser.old parser.new }
{
    let mut entries = Vec::new(parser.alloc());
    entries.push(ImportEntry::take(parser)?)?;
    parts::<_, ImportEntry>(parser, &mut entries)?;
    Ok(entries)
}

/// A subsection, up to the end of the group.
struct Subsection;

impl<'a> Part<'a, Dylink0Subsection<'a>> for Subsection {
    ghost View = { Dylink0SubsectionModel };

    ghost view = { owning subsection_view heapless_subsection };

    ghost grammar = { subsection };

    ghost follows = { more };

    fn follows(parser: &Parser<'a>) -> bool {
        !parser.is_empty()
    }

    #[tactic(auto, unfolding(crate::specs::Dylink::subsection))]
    fn take(parser: &mut Parser<'a>) -> Result<Dylink0Subsection<'a>> {
        if parser.group_is("export-info") {
            return Ok(Dylink0Subsection::ExportInfo(read_exports(parser)?));
        }
        if parser.group_is("import-info") {
            return Ok(Dylink0Subsection::ImportInfo(read_imports(parser)?));
        }
        read_lone(parser)
    }
}

/// Reads `@dylink.0`, and entries up to the end of the group:
///
/// - `( mem-info ( memory u32 u32 ) ( table u32 u32 ) )`, where each inner group is optional,
/// - `( needed name* )`,
/// - `( export-info name flags )`,
/// - `( import-info module name flags )`,
/// - `( runtime-path name* )`,
/// - `( target-arch name )`.
///
/// Flags are 32-bit numbers and keywords, joined by bitwise or. Returns Unexpected, at the keyword,
/// if a keyword is unknown.
impl<'a> Parse<'a> for Dylink0<'a> {
    ghost View = { List Dylink0SubsectionModel };

    ghost view = { owning dylink_view no_items };

    ghost grammar = { dylink };

    #[tactic(auto, using(crate::specs::Laws::Subsections::subsection_consumes), unfolding(crate::specs::Cutting::dylink, crate::specs::Cutting::cut_subsections, crate::specs::Subsections::subsections))]
    fn parse(parser: &mut Parser<'a>) -> Result<Self> {
        parser.take_annotation("dylink.0")?;
        let mut subsections = Vec::new(parser.alloc());
        parts::<_, Subsection>(parser, &mut subsections)?;
        Ok(Dylink0 { subsections })
    }
}

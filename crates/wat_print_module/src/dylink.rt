//! Printing of the `dylink.0` section.

ghost use Rattle.std.specs.Prelude.{◌≡◌, List, map, flat_map, refl};
ghost use Rattle.wat_print_instr.specs.Prelude.{printing_by, text_form};
ghost use Rattle.wat_print_module.specs.Prelude.{paren, more, subsection_view, of_export, of_import, entries_in, paren_form, many_form, Printed, entries_form, are_cut};
ghost use Rattle.wat_links.specs.Dylink.{Dylink0SubsectionModel, dylink_export_view, dylink_import_view, dylink_view};
ghost use Rattle.wat_print_module.specs.Dylink.{sizes_form, names_form, dylink_form, is_filled, is_apart, export_form};
ghost use Rattle.wat_links.specs.Cutting.{dylink};
ghost use Rattle.wat_print_module.specs.Laws.Dylink.{dylink_prints};

use crate::traits::PrintPart;
use wat_links::{Dylink0, Dylink0Subsection};
use wat_print::{Output, Refused};

/// Writes `( word size alignment )`.
#[tactic(auto, using(wat_print::specs::Laws::Written::put_both))]
fn write_sizes(out: &mut Output, word: &str, size: u32, align: u32) -> Result<(), Refused>
    ensures { Printed (sizes_form word.now) (size, align) result out.old out.new }
{
    out.open()?;
    out.word(word)?;
    out.number(u64::from(size))?;
    out.number(u64::from(align))?;
    out.close()
}

/// Writes names in order.
#[tactic(auto, using(crate::proofs::Grouped::in_a_loop))]
fn write_strings(out: &mut Output, names: &[&str]) -> Result<(), Refused>
    ensures { Printed (many_form more text_form) (map (λ n. n.now) names.now) result out.old
        out.new }
{
    for name in names {
        out.text(name)?;
    }
    Ok(())
}

/// Writes `( word name* )`.
#[tactic(auto, using(wat_print::specs::Laws::Written::put_both))]
fn write_names(out: &mut Output, word: &str, names: &[&str]) -> Result<(), Refused>
    ensures { Printed (names_form word.now) (map (λ n. n.now) names.now) result out.old
        out.new }
{
    out.open()?;
    out.word(word)?;
    write_strings(out, names)?;
    out.close()
}

/// Writes `( export-info name flags )`, the flags as one number.
#[tactic(auto, using(wat_print::specs::Laws::Written::put_both))]
fn write_export(out: &mut Output, entry: &(&str, u32)) -> Result<(), Refused>
    ensures { Printed export_form (dylink_export_view entry.now) result out.old out.new }
{
    out.open()?;
    out.word("export-info")?;
    out.text(entry.0)?;
    out.number(u64::from(entry.1))?;
    out.close()
}

/// Writes the entries of exports in order.
#[tactic(auto, using(crate::proofs::Grouped::in_a_loop))]
fn write_exports(out: &mut Output, entries: &[(&str, u32)]) -> Result<(), Refused>
    ensures { Printed entries_form (map of_export (map dylink_export_view entries.now))
        result out.old out.new }
{
    for entry in entries {
        write_export(out, entry)?;
    }
    Ok(())
}

/// Writes imports in order, each as `( import-info module name flags )` with the flags as one
/// number.
#[tactic(auto, using(crate::proofs::Grouped::in_a_loop))]
fn write_imports(out: &mut Output, entries: &[(&str, &str, u32)]) -> Result<(), Refused>
    ensures { Printed entries_form (map of_import (map dylink_import_view entries.now))
        result out.old out.new }
{
    for entry in entries {
        out.open()?;
        out.word("import-info")?;
        out.text(entry.0)?;
        out.text(entry.1)?;
        out.number(u64::from(entry.2))?;
        out.close()?;
    }
    Ok(())
}

/// Writes a subsection: all numbers of `mem-info`, and the flags of a symbol as one number.
#[tactic(auto, using(wat_print::specs::Laws::Written::put_both))]
fn write_subsection(out: &mut Output, subsection: &Dylink0Subsection) -> Result<(), Refused>
    ensures { Printed entries_form (entries_in (subsection_view subsection.now)) result
        out.old out.new }
{
    match subsection {
        Dylink0Subsection::MemInfo {
            memory_size,
            memory_align,
            table_size,
            table_align,
        } => {
            out.open()?;
            out.word("mem-info")?;
            write_sizes(out, "memory", *memory_size, *memory_align)?;
            write_sizes(out, "table", *table_size, *table_align)?;
            out.close()
        }
        Dylink0Subsection::Needed(names) => write_names(out, "needed", names),
        Dylink0Subsection::ExportInfo(entries) => write_exports(out, entries),
        Dylink0Subsection::ImportInfo(entries) => write_imports(out, entries),
        Dylink0Subsection::RuntimePath(paths) => write_names(out, "runtime-path", paths),
        Dylink0Subsection::TargetArch(name) => {
            out.open()?;
            out.word("target-arch")?;
            out.text(name)?;
            out.close()
        }
    }
}

/// Writes subsections in order.
#[tactic(auto, using(crate::proofs::Grouped::in_a_loop, crate::specs::Laws::Dylink::more_entries))]
fn write_subsections(out: &mut Output, subsections: &[Dylink0Subsection]) -> Result<(), Refused>
    ensures { Printed entries_form (flat_map entries_in (map subsection_view subsections.now))
        result out.old out.new }
{
    for subsection in subsections {
        write_subsection(out, subsection)?;
    }
    Ok(())
}

/// Whether the subsection has an entry. Only subsections of exports and of imports need an entry.
fn is_filled(subsection: &Dylink0Subsection) -> bool
    ensures { result ≡ is_filled (subsection_view subsection.now) }
{
    match subsection {
        Dylink0Subsection::ExportInfo(entries) => !entries.is_empty(),
        Dylink0Subsection::ImportInfo(entries) => !entries.is_empty(),
        _ => true,
    }
}

/// Whether the subsection and the first of the others aren't both of exports or both of imports.
fn is_apart(subsection: &Dylink0Subsection, others: &[Dylink0Subsection]) -> bool
    ensures { result ≡ is_apart (subsection_view subsection.now)
        (map subsection_view others.now) }
{
    if others.is_empty() {
        return true;
    }
    match (subsection, &others[0]) {
        (Dylink0Subsection::ExportInfo(_), Dylink0Subsection::ExportInfo(_)) => false,
        (Dylink0Subsection::ImportInfo(_), Dylink0Subsection::ImportInfo(_)) => false,
        _ => true,
    }
}

/// Whether some text gives these subsections: adjacent entries of one kind form one subsection.
fn are_cut(subsections: &[Dylink0Subsection]) -> bool
    ensures { result ≡ are_cut (map subsection_view subsections.now) }
{
    for i in 0..subsections.len() {
        if !is_filled(&subsections[i]) || !is_apart(&subsections[i], &subsections[i + 1..]) {
            return false;
        }
    }
    true
}

/// Writes the `dylink.0` section, without its parentheses (Text Format, "Custom Annotation"). It
/// fails if a subsection of exports or of imports has no entry. It fails if two adjacent
/// subsections are both of exports, or both of imports.
pub fn write_dylink(out: &mut Output, section: &Dylink0) -> Result<(), Refused>
    ensures { Printed dylink_form (dylink_view section.now) result out.old out.new }
{
    if !are_cut(&section.subsections) {
        return Err(Refused::Section);
    }
    out.annotation("dylink.0")?;
    write_subsections(out, &section.subsections)
}

/// Printed with its parentheses, since an annotation follows a `(`.
impl PrintPart for Dylink0<'_> {
    ghost View = { List Dylink0SubsectionModel };

    ghost view = { dylink_view };

    ghost grammar = { paren dylink };

    ghost printing = { printing_by (paren_form dylink_form) dylink_prints (λ v h. h) refl refl };

    #[tactic(auto, using(crate::proofs::Grouped::on_one_line))]
    fn write(&self, out: &mut Output) -> Result<(), Refused> {
        out.open()?;
        write_dylink(out, self)?;
        out.close()
    }
}

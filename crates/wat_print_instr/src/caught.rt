//! Printing of the catch clauses of a `try_table`, and of tables of handlers.
#![tactic(auto, using(wat_print::specs::Laws::Written::put_both))]

ghost use Rattle.std.specs.Prelude.{List, refl};
ghost use Rattle.wat_expr.specs.Prelude.{index_view, CatchModel, catch_clause, TryTableModel, try_table, HandleModel, handler, resume_table, ResumeModel, resume, ResumeThrowModel, resume_throw};
ghost use Rattle.wat_print_instr.specs.Prelude.{printing_by, Printed};
ghost use Rattle.wat_operands.specs.Catches.{catch_kind_view, catch_view, try_view};
ghost use Rattle.wat_operands.specs.Handlers.{handle_view, resume_table_view, resume_view, resume_throw_ref_view, resume_throw_view};
ghost use Rattle.wat_print_instr.specs.Control.{catch_kind_form, resume_table_form, catch_form, handler_form, resume_form, throw_form, try_form};
ghost use Rattle.wat_print_instr.specs.Laws.Control.{catch_prints, handler_prints, resume_prints, resume_table_prints, throw_prints, try_prints};

use crate::control::write_block;
use crate::traits::{PrintCode, write_each};
use wat_operands::{
    CatchKind, Handle, Resume, ResumeTable, ResumeThrow, ResumeThrowRef, TryTable, TryTableCatch,
    TryTableCatchKind,
};
use wat_print::reference::write_index;
use wat_print::{Output, Refused};

/// Writes the word of a catch clause, and its tag if the clause has one.
fn write_catch_kind(out: &mut Output, kind: &TryTableCatchKind) -> Result<(), Refused>
    ensures { Printed catch_kind_form (catch_kind_view index_view kind.now) result out.old out.new }
{
    match kind {
        CatchKind::Catch(tag) => {
            out.word("catch")?;
            write_index(out, tag)
        }
        CatchKind::CatchRef(tag) => {
            out.word("catch_ref")?;
            write_index(out, tag)
        }
        CatchKind::CatchAll => out.word("catch_all"),
        CatchKind::CatchAllRef => out.word("catch_all_ref"),
    }
}

impl PrintCode for TryTableCatch<'_> {
    ghost View = { CatchModel };

    ghost view = { catch_view };

    ghost grammar = { catch_clause };

    ghost printing = { printing_by catch_form catch_prints (λ c h. h) refl refl };

    fn write(&self, out: &mut Output) -> Result<(), Refused> {
        out.open()?;
        write_catch_kind(out, &self.kind)?;
        write_index(out, &self.label)?;
        out.close()
    }
}

impl PrintCode for TryTable<'_> {
    ghost View = { TryTableModel };

    ghost view = { try_view };

    ghost grammar = { try_table };

    ghost printing = { printing_by try_form try_prints (λ t h. h) refl refl };

    fn write(&self, out: &mut Output) -> Result<(), Refused> {
        write_block(out, &self.block)?;
        write_each(out, &self.catches)
    }
}

impl PrintCode for Handle<'_> {
    ghost View = { HandleModel };

    ghost view = { handle_view };

    ghost grammar = { handler };

    ghost printing = { printing_by handler_form handler_prints (λ h k. k) refl refl };

    fn write(&self, out: &mut Output) -> Result<(), Refused> {
        out.open()?;
        out.word("on")?;
        match self {
            Handle::OnLabel { tag, label } => {
                write_index(out, tag)?;
                write_index(out, label)?;
                out.close()
            }
            Handle::OnSwitch { tag } => {
                write_index(out, tag)?;
                out.word("switch")?;
                out.close()
            }
        }
    }
}

impl PrintCode for ResumeTable<'_> {
    ghost View = { List HandleModel };

    ghost view = { resume_table_view };

    ghost grammar = { resume_table };

    ghost printing = { printing_by resume_table_form resume_table_prints (λ t h. h) refl refl };

    fn write(&self, out: &mut Output) -> Result<(), Refused> {
        write_each(out, &self.handlers)
    }
}

impl PrintCode for Resume<'_> {
    ghost View = { ResumeModel };

    ghost view = { resume_view };

    ghost grammar = { resume };

    ghost printing = { printing_by resume_form resume_prints (λ v h. h) refl refl };

    fn write(&self, out: &mut Output) -> Result<(), Refused> {
        write_index(out, &self.type_index)?;
        self.table.write(out)
    }
}

impl PrintCode for ResumeThrow<'_> {
    ghost View = { ResumeThrowModel };

    ghost view = { resume_throw_view };

    ghost grammar = { resume_throw };

    ghost printing = { printing_by throw_form throw_prints (λ v h. h) refl refl };

    fn write(&self, out: &mut Output) -> Result<(), Refused> {
        write_index(out, &self.type_index)?;
        write_index(out, &self.tag_index)?;
        self.table.write(out)
    }
}

impl PrintCode for ResumeThrowRef<'_> {
    ghost View = { ResumeModel };

    ghost view = { resume_throw_ref_view };

    ghost grammar = { resume };

    ghost printing = { printing_by resume_form resume_prints (λ v h. h) refl refl };

    fn write(&self, out: &mut Output) -> Result<(), Refused> {
        write_index(out, &self.type_index)?;
        self.table.write(out)
    }
}

//! How keywords are printed.

ghost use Rattle.std.specs.Prelude.{codes, refl};
ghost use Rattle.wat_print.specs.Laws.Prelude.{word, word_form, printing_by, word_prints};

use crate::fault::Refused;
use crate::output::Output;
use crate::traits::Print;
use wat_tokens::kw;

impl Print for kw::func {
    ghost View = { Unit {0} };

    ghost view = { λ _. tt };

    ghost grammar = { word (codes "func") };

    ghost printing = { printing_by (word_form (codes "func")) (word_prints (codes "func") refl refl)
        (λ v h. h) refl refl };

    #[tactic(auto, using(crate::specs::Laws::Written::puts_put))]
    fn write(&self, out: &mut Output) -> Result<(), Refused> {
        out.word("func")
    }
}

impl Print for kw::table {
    ghost View = { Unit {0} };

    ghost view = { λ _. tt };

    ghost grammar = { word (codes "table") };

    ghost printing = { printing_by (word_form (codes "table")) (word_prints (codes "table") refl
        refl) (λ v h. h) refl refl };

    #[tactic(auto, using(crate::specs::Laws::Written::puts_put))]
    fn write(&self, out: &mut Output) -> Result<(), Refused> {
        out.word("table")
    }
}

impl Print for kw::memory {
    ghost View = { Unit {0} };

    ghost view = { λ _. tt };

    ghost grammar = { word (codes "memory") };

    ghost printing = { printing_by (word_form (codes "memory")) (word_prints (codes "memory") refl
        refl) (λ v h. h) refl refl };

    #[tactic(auto, using(crate::specs::Laws::Written::puts_put))]
    fn write(&self, out: &mut Output) -> Result<(), Refused> {
        out.word("memory")
    }
}

impl Print for kw::global {
    ghost View = { Unit {0} };

    ghost view = { λ _. tt };

    ghost grammar = { word (codes "global") };

    ghost printing = { printing_by (word_form (codes "global")) (word_prints (codes "global") refl
        refl) (λ v h. h) refl refl };

    #[tactic(auto, using(crate::specs::Laws::Written::puts_put))]
    fn write(&self, out: &mut Output) -> Result<(), Refused> {
        out.word("global")
    }
}

impl Print for kw::tag {
    ghost View = { Unit {0} };

    ghost view = { λ _. tt };

    ghost grammar = { word (codes "tag") };

    ghost printing = { printing_by (word_form (codes "tag")) (word_prints (codes "tag") refl refl)
        (λ v h. h) refl refl };

    #[tactic(auto, using(crate::specs::Laws::Written::puts_put))]
    fn write(&self, out: &mut Output) -> Result<(), Refused> {
        out.word("tag")
    }
}

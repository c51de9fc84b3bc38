//! Printing of expressions.

ghost use Rattle.std.specs.Prelude.{refl};
ghost use Rattle.wat_print_module.specs.Prelude.{ExpressionModel, expression_view, expression, expression_form, expression_prints};
ghost use Rattle.wat_print.specs.Printed.{printing_by};

use crate::traits::PrintPart;
use wat_expr::Expression;
use wat_print::{Output, Refused};
use wat_print_instr::expression::write_expression;

impl PrintPart for Expression<'_> {
    ghost View = { ExpressionModel };

    ghost view = { expression_view };

    ghost grammar = { expression };

    ghost printing = { printing_by expression_form expression_prints (λ v h. h) refl refl };

    fn write(&self, out: &mut Output) -> Result<(), Refused> {
        write_expression(out, self)
    }
}

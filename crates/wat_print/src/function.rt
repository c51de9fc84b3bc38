//! How function types are printed.

ghost use Rattle.std.specs.Prelude.{◌≡◌, map, refl};
ghost use Rattle.wat_types.specs.Prelude.{function_view, params_view, val_view};
ghost use Rattle.wat_print.specs.Prelude.{more, param_view, function_type, FunctionTypeModel, many_form, param_label, param_form, vals_form, none_labelled, printing_by, Printed};
ghost use Rattle.wat_print.specs.Function.{param_alone_form, param_groups_form, result_groups_form, function_form};
ghost use Rattle.wat_print.specs.Laws.Function.{function_prints};

use crate::fault::Refused;
use crate::label::write_label;
use crate::output::Output;
use crate::reference::write_val;
use crate::traits::Print;
use wat_tokens::{Id, NameAnnotation};
use wat_types::{FunctionType, ValType};

/// Writes a parameter without its group.
#[tactic(auto, using(crate::specs::Laws::Written::put_both))]
fn write_param(
    out: &mut Output,
    param: &(Option<Id>, Option<NameAnnotation>, ValType),
) -> Result<(), Refused>
    ensures { Printed param_form (param_view param.now) result out.old out.new }
{
    write_label(out, &param.0, &param.1)?;
    write_val(out, &param.2)
}

/// Writes value types, one after the other.
#[tactic(auto, using(std::proofs::lemmas::List::drop_more, crate::specs::Laws::Written::put_both))]
pub fn write_vals(out: &mut Output, types: &[ValType]) -> Result<(), Refused>
    ensures { Printed vals_form (map val_view types.now) result out.old out.new }
{
    for ty in types {
        write_val(out, ty)?;
    }
    Ok(())
}

/// Writes parameters, one after the other.
#[tactic(auto, using(std::proofs::lemmas::List::drop_more, crate::specs::Laws::Written::put_both))]
fn write_params(
    out: &mut Output,
    params: &[(Option<Id>, Option<NameAnnotation>, ValType)],
) -> Result<(), Refused>
    ensures { Printed (many_form more param_form) (params_view params.now) result out.old out.new }
{
    for param in params {
        write_param(out, param)?;
    }
    Ok(())
}

/// Writes a parameter in a separate group.
#[tactic(auto, using(crate::specs::Laws::Written::put_grouped))]
fn write_alone(
    out: &mut Output,
    param: &(Option<Id>, Option<NameAnnotation>, ValType),
) -> Result<(), Refused>
    ensures { Printed param_alone_form (param_view param.now) result out.old out.new }
{
    out.open()?;
    out.word("param")?;
    write_param(out, param)?;
    out.close()
}

/// Writes parameters, each in a separate group.
#[tactic(auto, using(std::proofs::lemmas::List::drop_more, crate::specs::Laws::Written::put_both))]
fn write_each_alone(
    out: &mut Output,
    params: &[(Option<Id>, Option<NameAnnotation>, ValType)],
) -> Result<(), Refused>
    ensures { Printed (many_form more param_alone_form) (params_view params.now) result out.old
        out.new }
{
    for param in params {
        write_alone(out, param)?;
    }
    Ok(())
}

/// Returns whether no parameter has an identifier or a name.
#[tactic(auto, using(std::proofs::lemmas::List::drop_more))]
pub fn are_unlabelled(params: &[(Option<Id>, Option<NameAnnotation>, ValType)]) -> bool
    ensures { result ≡ none_labelled param_label (params_view params.now) }
{
    for param in params {
        if param.0.is_some() || param.1.is_some() {
            return false;
        }
    }
    true
}

/// Writes parameters: in one group if no parameter has a label, otherwise each in a separate group.
#[tactic(auto, using(crate::specs::Laws::Written::groups, crate::specs::Laws::Written::put_both))]
fn write_param_groups(
    out: &mut Output,
    params: &[(Option<Id>, Option<NameAnnotation>, ValType)],
) -> Result<(), Refused>
    ensures { Printed param_groups_form (params_view params.now) result out.old out.new }
{
    if params.is_empty() {
        return Ok(());
    }
    if !are_unlabelled(params) {
        write_each_alone(out, params)?;
        return Ok(());
    }
    out.open()?;
    out.word("param")?;
    write_params(out, params)?;
    out.close()
}

/// Writes results in one group, or no group if there are no results.
#[tactic(auto, using(crate::specs::Laws::Written::results_together, crate::specs::Laws::Written::put_both))]
fn write_result_groups(out: &mut Output, types: &[ValType]) -> Result<(), Refused>
    ensures { Printed result_groups_form (map val_view types.now) result out.old out.new }
{
    if types.is_empty() {
        return Ok(());
    }
    out.open()?;
    out.word("result")?;
    write_vals(out, types)?;
    out.close()
}

/// Writes a function type (Text Format, Types, "Composite Types"): the parameters, then the
/// results.
#[tactic(auto, using(crate::specs::Laws::Written::function_split, crate::specs::Laws::Written::put_both))]
pub(crate) fn write_function(out: &mut Output, function: &FunctionType) -> Result<(), Refused>
    ensures { Printed function_form (function_view function.now) result out.old out.new }
{
    write_param_groups(out, &function.params)?;
    write_result_groups(out, &function.results)
}

impl Print for FunctionType<'_> {
    ghost View = { FunctionTypeModel };

    ghost view = { function_view };

    ghost grammar = { function_type };

    ghost printing = { printing_by function_form function_prints (λ v h. h) refl refl };

    #[tactic(auto, using(crate::specs::Laws::Written::puts_put))]
    fn write(&self, out: &mut Output) -> Result<(), Refused> {
        write_function(out, self)
    }
}

//! Printing of the types of blocks, calls, selects and casts.
#![tactic(auto, using(wat_print::specs::Laws::Written::put_both))]

ghost use Rattle.std.specs.Prelude.{◌≡◌, List, Option, refl};
ghost use Rattle.wat_expr.specs.Prelude.{BlockTypeModel, block_type, CallIndirectModel, call_indirect, select_types};
ghost use Rattle.wat_print.specs.Laws.Prelude.{RefTypeModel, ref_type, ValTypeModel, param_label, none_labelled, if_some, printing_by, Printed, ref_form, unnamed_use_form, ref_prints};
ghost use Rattle.wat_operands.specs.Block.{signature_view, block_view};
ghost use Rattle.wat_operands.specs.Call.{call_view};
ghost use Rattle.wat_operands.specs.Select.{select_view};
ghost use Rattle.wat_operands.specs.Casts.{test_view, cast_view, cast_desc_eq_view, CastBranchModel, branch_between, branch_view, branch_fail_view, branch_desc_eq_view, branch_desc_eq_fail_view, cast_branch};
ghost use Rattle.wat_print_instr.specs.Control.{block_form, branch_form, call_form, select_form};
ghost use Rattle.wat_print_instr.specs.Laws.Control.{block_prints, branch_prints, call_prints, select_prints};

use crate::indices::write_index_or_0;
use crate::traits::PrintCode;
use wat_operands::{
    BlockType, BrOnCast, BrOnCastDescEq, BrOnCastDescEqFail, BrOnCastFail, CallIndirect, RefCast,
    RefCastDescEq, RefTest, SelectTypes,
};
use wat_print::function::{are_unlabelled, write_vals};
use wat_print::label::write_label;
use wat_print::reference::{write_index, write_ref};
use wat_print::type_use::write_use;
use wat_print::{Output, Refused};
use wat_tokens::Index;
use wat_types::{FunctionType, RefType, TypeUse, ValType};

/// Whether no parameter of the inline type has an identifier or a name.
fn is_unlabelled(ty: &TypeUse<FunctionType>) -> bool
    ensures { result ≡ if_some (λ f. none_labelled param_label f.params)
        (signature_view ty.now).inline }
{
    match &ty.inline {
        Some(function) => are_unlabelled(&function.params),
        None => true,
    }
}

/// Writes the type of a block or of a call: a type use without identifiers or names. It fails with
/// Label if a parameter of the inline type has an identifier or a name.
fn write_signature(out: &mut Output, ty: &TypeUse<FunctionType>) -> Result<(), Refused>
    ensures { Printed unnamed_use_form (signature_view ty.now) result out.old out.new }
{
    if !is_unlabelled(ty) {
        return Err(Refused::Label);
    }
    write_use(out, ty)
}

/// Writes the label and the type of a block (Text Format, Instructions, "Control Instructions"). It
/// fails with Label if a parameter of the type has an identifier or a name.
pub fn write_block(out: &mut Output, block: &BlockType) -> Result<(), Refused>
    ensures { Printed block_form (block_view block.now) result out.old out.new }
{
    write_label(out, &block.label, &block.label_name)?;
    write_signature(out, &block.ty)
}

/// Writes a label, and the types that a branch casts from and to.
fn write_branch(
    out: &mut Output,
    label: &Index,
    from_type: &RefType,
    to_type: &RefType,
) -> Result<(), Refused>
    ensures { Printed branch_form (branch_between label.now from_type.now to_type.now) result
        out.old out.new }
{
    write_index(out, label)?;
    write_ref(out, from_type)?;
    write_ref(out, to_type)
}

impl PrintCode for BlockType<'_> {
    ghost View = { BlockTypeModel };

    ghost view = { block_view };

    ghost grammar = { block_type };

    ghost printing = { printing_by block_form block_prints (λ b h. h) refl refl };

    fn write(&self, out: &mut Output) -> Result<(), Refused> {
        write_block(out, self)
    }
}

/// It fails with Label if a parameter of the type has an identifier or a name.
impl PrintCode for CallIndirect<'_> {
    ghost View = { CallIndirectModel };

    ghost view = { call_view };

    ghost grammar = { call_indirect };

    ghost printing = { printing_by call_form call_prints (λ c h. h) refl refl };

    fn write(&self, out: &mut Output) -> Result<(), Refused> {
        write_index_or_0(out, &self.table)?;
        write_signature(out, &self.ty)
    }
}

impl PrintCode for SelectTypes<'_> {
    ghost View = { Option (List ValTypeModel) };

    ghost view = { select_view };

    ghost grammar = { select_types };

    ghost printing = { printing_by select_form select_prints (λ o h. h) refl refl };

    fn write(&self, out: &mut Output) -> Result<(), Refused> {
        match &self.tys {
            None => Ok(()),
            Some(types) => {
                out.open()?;
                out.word("result")?;
                write_vals(out, types)?;
                out.close()
            }
        }
    }
}

impl PrintCode for RefTest<'_> {
    ghost View = { RefTypeModel };

    ghost view = { test_view };

    ghost grammar = { ref_type };

    ghost printing = { printing_by ref_form ref_prints (λ v h. h) refl refl };

    fn write(&self, out: &mut Output) -> Result<(), Refused> {
        write_ref(out, &self.type_)
    }
}

impl PrintCode for RefCast<'_> {
    ghost View = { RefTypeModel };

    ghost view = { cast_view };

    ghost grammar = { ref_type };

    ghost printing = { printing_by ref_form ref_prints (λ v h. h) refl refl };

    fn write(&self, out: &mut Output) -> Result<(), Refused> {
        write_ref(out, &self.type_)
    }
}

impl PrintCode for RefCastDescEq<'_> {
    ghost View = { RefTypeModel };

    ghost view = { cast_desc_eq_view };

    ghost grammar = { ref_type };

    ghost printing = { printing_by ref_form ref_prints (λ v h. h) refl refl };

    fn write(&self, out: &mut Output) -> Result<(), Refused> {
        write_ref(out, &self.type_)
    }
}

impl PrintCode for BrOnCast<'_> {
    ghost View = { CastBranchModel };

    ghost view = { branch_view };

    ghost grammar = { cast_branch };

    ghost printing = { printing_by branch_form branch_prints (λ b h. h) refl refl };

    fn write(&self, out: &mut Output) -> Result<(), Refused> {
        write_branch(out, &self.label, &self.from_type, &self.to_type)
    }
}

impl PrintCode for BrOnCastFail<'_> {
    ghost View = { CastBranchModel };

    ghost view = { branch_fail_view };

    ghost grammar = { cast_branch };

    ghost printing = { printing_by branch_form branch_prints (λ b h. h) refl refl };

    fn write(&self, out: &mut Output) -> Result<(), Refused> {
        write_branch(out, &self.label, &self.from_type, &self.to_type)
    }
}

impl PrintCode for BrOnCastDescEq<'_> {
    ghost View = { CastBranchModel };

    ghost view = { branch_desc_eq_view };

    ghost grammar = { cast_branch };

    ghost printing = { printing_by branch_form branch_prints (λ b h. h) refl refl };

    fn write(&self, out: &mut Output) -> Result<(), Refused> {
        write_branch(out, &self.label, &self.from_type, &self.to_type)
    }
}

impl PrintCode for BrOnCastDescEqFail<'_> {
    ghost View = { CastBranchModel };

    ghost view = { branch_desc_eq_fail_view };

    ghost grammar = { cast_branch };

    ghost printing = { printing_by branch_form branch_prints (λ b h. h) refl refl };

    fn write(&self, out: &mut Output) -> Result<(), Refused> {
        write_branch(out, &self.label, &self.from_type, &self.to_type)
    }
}

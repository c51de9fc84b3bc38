//! The names that operands use, apart from labels (Text Format, "Instructions").

ghost use Rattle.std.specs.Prelude.{◌≡◌, ◌++◌, OnOk, map};
ghost use Rattle.wat_tokens.specs.Prelude.{index_view};
ghost use Rattle.wat_types.specs.Reference.{ref_view};
ghost use Rattle.wat_operands.specs.Memory.{mem_arg_view};
ghost use Rattle.wat_operands.specs.Call.{call_view};
ghost use Rattle.wat_operands.specs.Catches.{catch_view, try_view};
ghost use Rattle.wat_operands.specs.Handlers.{handle_view};
ghost use Rattle.wat_operands.specs.Select.{select_view};
ghost use Rattle.wat_scopes.specs.Known.{names};
ghost use Rattle.wat_scopes.specs.Spaces.{types, tags};
ghost use Rattle.wat_type_uses.specs.Named.{by_index, by_two};
ghost use Rattle.wat_type_uses.specs.Types.{ref_uses};
ghost use Rattle.wat_operand_uses.specs.Operands.{access_uses, call_uses, catch_uses, catches_uses, try_uses, handle_uses, handles_uses, chosen_uses};

use std::alloc::AllocError;
use wat_operands::{
    CallIndirect, CatchKind, Handle, MemArg, MemArgTarget, SelectTypes, TryTable, TryTableCatch,
};
use wat_scopes::{Name, Space};
use wat_tokens::Index;
use wat_type_uses::{add_index, add_ref_type, add_two_indices, add_type_use, add_val_types};
use wat_types::RefType;

/// Appends the name of the memory, or of the array type, of a memory access.
pub fn add_mem_arg<'a>(out: &mut Vec<Name<'a>>, access: &MemArg<'a>) -> Result<(), AllocError>
    ensures { OnOk result (names out.new.items ≡ names out.old.items
        ++ access_uses (mem_arg_view access.now)) }
{
    match &access.target {
        MemArgTarget::Memory(index) => add_index(out, Space::Memory, index),
        MemArgTarget::Array(index) => add_index(out, Space::Type, index),
    }
}

/// Appends the names of an indirect call: that of its table, then those of its type use.
pub fn add_call_indirect<'a>(
    out: &mut Vec<Name<'a>>,
    call: &CallIndirect<'a>,
) -> Result<(), AllocError>
    ensures { OnOk result (names out.new.items ≡ names out.old.items
        ++ call_uses (call_view call.now)) }
{
    add_index(out, Space::Table, &call.table)?;
    add_type_use(out, &call.ty)
}

/// Appends the name of the tag of a clause of a `try_table`, if the clause has a tag.
pub fn add_catch<'a>(out: &mut Vec<Name<'a>>, clause: &TryTableCatch<'a>) -> Result<(), AllocError>
    ensures { OnOk result (names out.new.items ≡ names out.old.items
        ++ catch_uses (catch_view clause.now)) }
{
    match &clause.kind {
        CatchKind::Catch(tag) => add_index(out, Space::Tag, tag),
        CatchKind::CatchRef(tag) => add_index(out, Space::Tag, tag),
        CatchKind::CatchAll => Ok(()),
        CatchKind::CatchAllRef => Ok(()),
    }
}

/// Appends the names of the tags of the clauses of a `try_table`, in order.
pub fn add_catches<'a>(
    out: &mut Vec<Name<'a>>,
    clauses: &[TryTableCatch<'a>],
) -> Result<(), AllocError>
    ensures { OnOk result (names out.new.items ≡ names out.old.items
        ++ catches_uses (map catch_view clauses.now)) }
{
    for clause in clauses {
        add_catch(out, clause)?;
    }
    Ok(())
}

/// Appends the names of a `try_table`: those of its block type, then the tags of its clauses.
pub fn add_try_table<'a>(out: &mut Vec<Name<'a>>, table: &TryTable<'a>) -> Result<(), AllocError>
    ensures { OnOk result (names out.new.items ≡ names out.old.items
        ++ try_uses (try_view table.now)) }
{
    add_type_use(out, &table.block.ty)?;
    add_catches(out, &table.catches)
}

/// Appends the name of the tag of a handler of a `resume`.
pub fn add_handle<'a>(out: &mut Vec<Name<'a>>, handler: &Handle<'a>) -> Result<(), AllocError>
    ensures { OnOk result (names out.new.items ≡ names out.old.items
        ++ handle_uses (handle_view handler.now)) }
{
    match handler {
        Handle::OnLabel { tag, label: _ } => add_index(out, Space::Tag, tag),
        Handle::OnSwitch { tag } => add_index(out, Space::Tag, tag),
    }
}

/// Appends the names of the tags of handlers, in order.
pub fn add_handles<'a>(out: &mut Vec<Name<'a>>, handlers: &[Handle<'a>]) -> Result<(), AllocError>
    ensures { OnOk result (names out.new.items ≡ names out.old.items
        ++ handles_uses (map handle_view handlers.now)) }
{
    for handler in handlers {
        add_handle(out, handler)?;
    }
    Ok(())
}

/// Appends the names that the types of a `select` use.
pub fn add_select_types<'a>(
    out: &mut Vec<Name<'a>>,
    select: &SelectTypes<'a>,
) -> Result<(), AllocError>
    ensures { OnOk result (names out.new.items ≡ names out.old.items
        ++ chosen_uses (select_view select.now)) }
{
    match &select.tys {
        Some(types) => add_val_types(out, types),
        None => Ok(()),
    }
}

/// Appends the names that the two types of a `br_on_cast` or `br_on_cast_fail` use.
pub fn add_cast_branch<'a>(
    out: &mut Vec<Name<'a>>,
    from: &RefType<'a>,
    to: &RefType<'a>,
) -> Result<(), AllocError>
    ensures { OnOk result (names out.new.items ≡ names out.old.items
        ++ (ref_uses (ref_view from.now) ++ ref_uses (ref_view to.now))) }
{
    add_ref_type(out, from)?;
    add_ref_type(out, to)
}

/// Appends the names of the type and of the tags of a `resume`.
pub fn add_resume<'a>(
    out: &mut Vec<Name<'a>>,
    ty: &Index<'a>,
    handlers: &[Handle<'a>],
) -> Result<(), AllocError>
    ensures { OnOk result (names out.new.items ≡ names out.old.items
        ++ (by_index types (index_view ty.now) ++ handles_uses (map handle_view handlers.now))) }
{
    add_index(out, Space::Type, ty)?;
    add_handles(out, handlers)
}

/// Appends the names of the type, of the tag and of the handlers' tags of a `resume_throw`.
pub fn add_resume_throw<'a>(
    out: &mut Vec<Name<'a>>,
    ty: &Index<'a>,
    tag: &Index<'a>,
    handlers: &[Handle<'a>],
) -> Result<(), AllocError>
    ensures { OnOk result (names out.new.items ≡ names out.old.items
        ++ (by_two types tags (index_view ty.now, index_view tag.now)
        ++ handles_uses (map handle_view handlers.now))) }
{
    add_two_indices(out, Space::Type, ty, Space::Tag, tag)?;
    add_handles(out, handlers)
}

//! Printing of memory accesses, orderings and lanes.
#![tactic(auto, using(wat_print::specs::Laws::Written::put_both))]

ghost use Rattle.std.specs.Prelude.{◌≡◌, OnOk, IfErr, if◌then◌else◌, option_map, Some, None, refl};
ghost use Rattle.wat_print_instr.specs.Prelude.{spell_option, printing_by, Printed, put, Memory, exactly};
ghost use Rattle.wat_operands.specs.Lanes.{lane_arg, lane_access_view};
ghost use Rattle.wat_operands.specs.Memory.{target_view, mem_arg_view};
ghost use Rattle.wat_operands.specs.Ordering.{ordering, ordered, ordered_view};
ghost use Rattle.wat_print.specs.Limits.{is_u64};
ghost use Rattle.wat_print_instr.specs.Access.{target_form, align_form, address_form, address_of, access_form, ordering_form, fence_form, ordering_in, printable_ordering, atomic_form, lane_form, lane_access_form, ordered_form};
ghost use Rattle.wat_print_instr.specs.Numbers.{numbered_form};
ghost use Rattle.wat_print_instr.specs.Laws.Access.{lane_prints, ordered_prints, ordering_prints};
ghost use Rattle.wat_print_instr.specs.Laws.Form.{exactly_prints};

use crate::indices::write_index_or_0;
use crate::traits::PrintCode;
use wat_operands::{
    LaneArg, LoadOrStoreLane, MemArg, MemArgOrdering, MemArgTarget, Ordered, Ordering,
};
use wat_print::reference::write_index;
use wat_print::{Output, Refused};

/// Writes the target of an access: `( type idx )` for an array, or a memory. Memory 0 is omitted.
fn write_target(out: &mut Output, target: &MemArgTarget) -> Result<(), Refused>
    ensures { Printed target_form (target_view target.now) result out.old out.new }
{
    match target {
        MemArgTarget::Memory(index) => write_index_or_0(out, index),
        MemArgTarget::Array(index) => {
            out.open()?;
            out.word("type")?;
            write_index(out, index)?;
            out.close()
        }
    }
}

/// Whether the alignment is the default, or a power of two.
fn may_align(align: u64, default: u64) -> bool
    ensures { result ≡ (align_form default).printable align }
{
    align == default || align.is_power_of_two()
}

/// Writes a word that ends in the number, or nothing if `is_meant`: the text omits the number.
fn write_unless(out: &mut Output, is_meant: bool, front: &str, number: u64) -> Result<(), Refused>
    ensures written { OnOk result (out.new ≡ put out.old (spell_option (numbered_form front.now
        is_u64).spell (if is_meant then None else Some number))) }
    ensures refused { IfErr result (λ e. e ≡ Memory) }
{
    if is_meant {
        return Ok(());
    }
    out.numbered(front, number)
}

/// Writes the target, the offset and the alignment of an access, but not its ordering. Offset 0 and
/// the default alignment are omitted. It fails with Alignment if the alignment is neither the
/// default nor a power of two.
fn write_place(out: &mut Output, access: &MemArg, default: u64) -> Result<(), Refused>
    ensures { Printed (address_form default) (address_of (mem_arg_view access.now)) result out.old
        out.new }
{
    if !may_align(access.align, default) {
        return Err(Refused::Alignment);
    }
    write_target(out, &access.target)?;
    write_unless(out, access.offset == 0, "offset=", access.offset)?;
    write_unless(out, access.align == default, "align=", access.align)
}

/// Writes the operand of an access (Text Format, Instructions, "Memory Instructions"): its target,
/// its offset unless the offset is 0, and its alignment unless the alignment is the default.
///
/// It fails with Ordering if the access has an ordering. It fails with Alignment if the alignment
/// is neither the default nor a power of two.
pub fn write_access(out: &mut Output, access: &MemArg, default: u64) -> Result<(), Refused>
    ensures { Printed (access_form default) (mem_arg_view access.now) result out.old out.new }
{
    if access.ordering.is_some() {
        return Err(Refused::Ordering);
    }
    write_place(out, access, default)
}

/// Whether an atomic instruction can have the ordering. `rmw` is true for a read-modify-write
/// instruction.
fn may_order(ordering: Option<MemArgOrdering>, rmw: bool) -> bool
    ensures { result ≡ printable_ordering rmw ordering }
{
    match ordering {
        None => true,
        Some(MemArgOrdering::Op(_)) => !rmw,
        Some(MemArgOrdering::Rmw(_)) => rmw,
    }
}

/// Writes the ordering of an access, if the access has one.
fn write_access_ordering(out: &mut Output, ordering: Option<MemArgOrdering>) -> Result<(), Refused>
    ensures { Printed fence_form (option_map ordering_in ordering) result out.old out.new }
{
    match ordering {
        None => Ok(()),
        Some(MemArgOrdering::Op(ordering)) => ordering.write(out),
        Some(MemArgOrdering::Rmw(ordering)) => ordering.write(out),
    }
}

/// Writes the operand of an atomic access (Text Format, Instructions, "Memory Instructions", with
/// the proposals on threads): its target, offset and alignment as in [`write_access`], and its
/// ordering if it has one. `rmw` is true for a read-modify-write instruction.
///
/// It fails with Ordering if the ordering is `Rmw` and `rmw` is false, or the ordering is `Op` and
/// `rmw` is true. It fails with Alignment if the alignment is neither the default nor a power of
/// two.
pub fn write_atomic(
    out: &mut Output,
    access: &MemArg,
    default: u64,
    rmw: bool,
) -> Result<(), Refused>
    ensures { Printed (atomic_form default rmw) (mem_arg_view access.now) result out.old out.new }
{
    if !may_order(access.ordering, rmw) {
        return Err(Refused::Ordering);
    }
    write_place(out, access, default)?;
    write_access_ordering(out, access.ordering)
}

/// Writes the operand of an access to one lane (Text Format, Instructions, "Memory Instructions"):
/// the access, as [`write_access`] does, and then the lane. It fails as [`write_access`] does.
pub fn write_lane_access(
    out: &mut Output,
    lane: &LoadOrStoreLane,
    default: u64,
) -> Result<(), Refused>
    ensures { Printed (lane_access_form default) (lane_access_view lane.now) result out.old
        out.new }
{
    write_access(out, &lane.memarg, default)?;
    lane.lane.write(out)
}

impl PrintCode for Ordering {
    ghost use Rattle.wat_operands.specs.declared.ordering.Ordering.{Ordering};

    ghost View = { Ordering };

    ghost view = { λ o. o };

    ghost grammar = { ordering };

    ghost printing = { printing_by ordering_form ordering_prints (λ o h. h) refl refl };

    fn write(&self, out: &mut Output) -> Result<(), Refused> {
        match self {
            Ordering::AcqRel => out.word("acqrel"),
            Ordering::SeqCst => out.word("seqcst"),
        }
    }
}

impl<T: PrintCode> PrintCode for Ordered<T> {
    ghost use Rattle.wat_operands.specs.declared.ordering.Ordering.{Ordering};

    ghost View = { Ordering × T.View };

    ghost view = { ordered_view T.view };

    ghost grammar = { ordered T.grammar };

    ghost printing = { printing_by (ordered_form (exactly T.printing)) (ordered_prints
        (exactly_prints T.printing) (λ v r h i e. refl)) (λ v h. h) refl refl };

    fn write(&self, out: &mut Output) -> Result<(), Refused> {
        self.ordering.write(out)?;
        self.inner.write(out)
    }
}

impl PrintCode for LaneArg {
    ghost use Rattle.wat_operands.specs.declared.lanes.LaneArg.{LaneArg};

    ghost View = { LaneArg };

    ghost view = { λ l. l };

    ghost grammar = { lane_arg };

    ghost printing = { printing_by lane_form lane_prints (λ l h. h) refl refl };

    fn write(&self, out: &mut Output) -> Result<(), Refused> {
        out.number(u64::from(self.lane))
    }
}

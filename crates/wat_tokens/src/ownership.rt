//! Calls that store or drop a value.
//!
//! A body that drops a value of a large type is slow to prove, since the proof expands the drop
//! variant by variant. Here the type is a parameter, so that the drop is one call.

ghost use Rattle.std.specs.Prelude.{◌≡◌, ◌∷◌, ◌++◌, [], MatchResult};

use wat_lexer::fault::{Error, Fault};

/// Appends `value` to `list`. If memory runs out, returns Memory, drops the value and leaves the
/// list as it was.
// Most lists have one value. So an empty list gets room for one value and not for four. To give
// back unused room at the end takes time, and leaves a small hole in the heap.
#[inline(always)]
pub fn push_into<T: Drop>(list: &mut Vec<T>, value: T) -> Result<(), Error>
    ensures { MatchResult result (λ _. list.new.items ≡ list.old.items ++ value ∷ []) (λ e. (e.fault
        ≡ Fault.Memory) × (list.new.items ≡ list.old.items)) }
{
    if list.is_empty() {
        list.reserve_exact(1)?;
    } else {
        list.reserve(1)?;
    }
    list.push_reserved(value);
    Ok(())
}

/// Drops a value.
pub fn discard<T: Drop>(_value: T) {}

//! Values in an arena.

ghost use Rattle.std.specs.Prelude.{◌≡◌};
ghost use Rattle.wat_plain.specs.Appends.{OrMemory};

use bumpalo::Bump;
use wat_tokens::Result;

/// Puts a value into the arena.
pub fn keep<'a, T: Drop>(arena: &'a Bump, value: T) -> Result<&'a T>
    ensures { OrMemory result (λ r. r.now ≡ value) }
{
    let kept = arena.try_alloc(value)?;
    Ok(kept)
}

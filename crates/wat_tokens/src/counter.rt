//! Counters for contracts: their values exist only in proofs.

ghost use Rattle.std.specs.Prelude.{◌≡◌, ℕ, ◌+◌};
ghost use Rattle.std.specs.Borrow.{ftrue};

use std::marker::Model;

/// A counter that contracts read, as `count`. It has no bytes, and a running program can't read it.
///
/// Only [`Parser`](crate::Parser) has counters. The type is public for a test of its size.
#[derive(Drop)]
pub struct Counter {
    seal: (),
    pub ghost count: { ℕ },
}

impl Model for Counter {
    ghost also_owns = { λ _. ftrue };
}

impl Counter {
    /// Returns a counter whose `count` is 0.
    pub fn new() -> Counter
        ensures { result.count ≡ 0 }
    {
        Counter { seal: () }
    }

    /// Returns a counter whose `count` is one more than `_before.count`.
    fn after(_before: &Counter) -> Counter
        ensures { result.count ≡ _before.now.count + 1 }
    {
        Counter { seal: () }
    }

    /// Adds one to `count`.
    pub fn tick(&mut self)
        ensures { self.new.count ≡ self.old.count + 1 }
    {
        *self = Counter::after(self);
    }
}

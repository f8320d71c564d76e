//! The bindings of the last logical line that are still to be given.
ghost use Rattle.std.specs.Prelude.{◌≡◌, ℕ, ◌+◌, ◌^◌, ◌<◌, [], ◌∷◌, length, min, map, drop, MatchOption, vec_len};
ghost use Rattle.std.specs.VecDeque.{deque_len};
ghost use Rattle.py_imports.specs.BindingValue.{binding_value};

use py_imports::Binding;
use std::alloc::Global;
use std::collections::VecDeque;
use std::marker::Model;

/// Where a logical line begins: its first byte in the text, and that byte's line.
#[derive(Clone, Copy)]
pub struct LineStart {
    /// The first byte, from the text's start.
    pub offset: u64,
    /// The line of that byte, from 1.
    pub line: u64,
}

/// The bindings of the logical line read last that weren't looked at yet.
#[derive(Drop)]
pub struct Pending {
    /// Those that are left.
    bindings: VecDeque<Binding>,
    /// Where the logical line begins.
    start: LineStart,
    /// How many of its bindings were looked at.
    taken: usize,
}

impl Model for Pending {
    ghost use Rattle.std.specs.Prelude.{ℕ, ◌+◌, ◌^◌, ◌<◌, map};
    ghost use Rattle.std.specs.VecDeque.{deque_len};
    ghost use Rattle.isort_find.specs.Pending.{PendingState, pending_state};

    ghost Value = { PendingState };

    ghost view = { λ p. pending_state p.start p.taken p.bindings.items };

    ghost invariant = { λ p. p.taken + deque_len p.bindings < 2 ^ 64 };
}

/// Takes out the first `count` bindings, or all where there are fewer.
fn skip_first(bindings: &mut VecDeque<Binding>, count: usize)
    ensures items { bindings.new.items ≡ drop count bindings.old.items }
{
    for _ in 0..count {
        let _ = bindings.pop_front();
    }
}

impl Pending {
    ghost use Rattle.isort_find.specs.Pending.{pending_state};
    ghost use Rattle.isort_find.specs.Private.LooksAtBindings.{Looks};

    /// Nothing to look at yet.
    pub(crate) fn none(alloc: Global, start: LineStart) -> Pending
        ensures { result ≡ pending_state start 0 [] }
    {
        Pending {
            bindings: VecDeque::new(alloc),
            start,
            taken: 0,
        }
    }

    /// The bindings of the logical line that begins at `start`, except the first `taken`, which were looked at before.
    pub(crate) fn new(bindings: Vec<Binding>, start: LineStart, taken: usize) -> Pending
        ensures start { result.start ≡ start }
        ensures taken { result.taken ≡ min taken (vec_len bindings) }
        ensures left { result.left ≡ drop taken (map binding_value bindings.items) }
    {
        let taken = taken.min(bindings.len());
        let mut bindings = VecDeque::from(bindings);
        skip_first(&mut bindings, taken);
        Pending {
            bindings,
            start,
            taken,
        }
    }

    /// The next binding to look at.
    pub(crate) fn front(&self) -> Option<&Binding>
        ensures { MatchOption result (self.now.left ≡ [])
            (λ b. self.now.left ≡ binding_value b.now ∷ drop 1 self.now.left) }
    {
        self.bindings.front()
    }

    /// Takes the next binding, which was looked at.
    pub(crate) fn take(&mut self) -> Option<Binding>
        ensures { MatchOption result ((self.old.left ≡ []) × (self.new ≡ self.old))
            (λ b. Looks self.old (binding_value b) self.new) }
    {
        let binding = self.bindings.pop_front()?;
        self.taken += 1;
        Some(binding)
    }

    /// Where the logical line begins.
    pub(crate) fn start(&self) -> LineStart
        ensures { result ≡ self.now.start }
    {
        self.start
    }

    /// How many of its bindings were looked at.
    pub(crate) fn taken(&self) -> usize
        ensures { result ≡ self.now.taken }
    {
        self.taken
    }
}

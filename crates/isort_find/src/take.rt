//! Taking the next binding whose key is new.
ghost use Rattle.isort_find.specs.Private.LooksAtBindings.{TakesNextBinding, PassesKnown};

use crate::cursor::Cursor;
use crate::error::FindError;
use crate::pending::Pending;
use py_imports::Binding;
use std::alloc::Global;

/// Takes the next binding whose key the cursor doesn't have, and notes its key there. Those before it are passed over.
pub fn take_new(
    alloc: Global,
    pending: &mut Pending,
    cursor: &mut Cursor,
) -> Result<Option<Binding>, FindError>
    ensures { TakesNextBinding cursor.old pending.old result cursor.new pending.new }
{
    'bindings: while let Some(binding) = pending.front() {
        let is_new = cursor.admit(alloc, binding)?;
        let taken = pending.take();
        if is_new {
            cursor.give(pending.start(), pending.taken());
            return Ok(taken);
        }
    }
    Ok(None)
}

/// Passes over the next bindings whose keys the cursor has, up to the first other one. It needs no memory.
pub fn pass_known(alloc: Global, pending: &mut Pending, cursor: &Cursor)
    ensures { PassesKnown cursor.now pending.old pending.new }
{
    'bindings: while let Some(binding) = pending.front() {
        if !cursor.knows(alloc, binding) {
            return;
        }
        let _ = pending.take();
    }
}

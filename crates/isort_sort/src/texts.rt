//! Texts that are copied, or written many times.
ghost use Rattle.std.specs.Prelude.{◌≡◌, [], ◌∷◌, ◌++◌, OnOk, flat_map, map, replicate, string_bytes};
ghost use Rattle.isort_sort.specs.Private.Writes.{Writes};

use std::alloc::{AllocError, Global};

/// Puts a text after `out`, so many times.
pub(crate) fn push_times(out: &mut String, text: &str, count: usize) -> Result<(), AllocError>
    ensures { OnOk result (Writes out.old out.new (flat_map (λ t. t) (replicate count text.now))) }
{
    for _ in 0..count {
        out.push_str(text)?;
    }
    Ok(())
}

/// Puts a copy of a text after the others.
pub(crate) fn push_copy(
    alloc: Global,
    texts: &mut Vec<String>,
    text: &str,
) -> Result<(), AllocError>
    ensures { OnOk result
        (map string_bytes texts.new.items ≡ map string_bytes texts.old.items ++ text.now ∷ []) }
{
    texts.push(text.to_string(alloc)?)?;
    Ok(())
}

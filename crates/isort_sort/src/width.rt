//! How long a text is in characters.
ghost use Rattle.std.specs.Prelude.{◌≡◌, ◌≤◌, length};
ghost use Rattle.isort_sort.specs.Width as spec;

/// How many characters UTF-8 bytes stand for: how many of them begin one.
pub(crate) fn width(text: &[u8]) -> usize
    ensures value { result ≡ spec.width text.now }
    ensures bound { result ≤ length text.now }
{
    text.iter()
        .filter(|byte| **byte < 0x80 || **byte >= 0xC0)
        .count()
}

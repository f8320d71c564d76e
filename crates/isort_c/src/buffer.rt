//! The caller's buffer.
ghost use Rattle.std.specs.Prelude.{◌≡◌};
ghost use Rattle.isort_c.specs.Answers.{filled};

/// Puts the bytes at the buffer's beginning, where they fit.
pub fn fill(bytes: &[u8], out: &mut [u8])
    ensures { out.new ≡ filled bytes.now out.old }
{
    if bytes.len() <= out.len() {
        out[..bytes.len()].copy_from_slice(bytes);
    }
}

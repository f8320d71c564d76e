//! What the crates below prove of all texts and logical lines.
ghost use Rattle.isort_find.specs.Private.KnownLaws.{KnownLaws};

use py_imports::laws::binds_or_is_bad;
use py_lines::laws::{given_lines_begin_the_text, one_lexing, settled_is_final};

/// The laws that finders rest on.
pub fn known_laws()
    ensures { KnownLaws }
{
    one_lexing();
    given_lines_begin_the_text();
    settled_is_final();
    binds_or_is_bad();
}

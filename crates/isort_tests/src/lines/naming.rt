//! Logical lines that are released at once, since they hold neither of two words.
ghost use Rattle.std.specs.Prelude.{◌≡◌, false};

use crate::lines::scanner::feed;
use py_lines::*;
use std::alloc::Global;
use std::test::Fail;
use test_harness::cases::{Case, each_holds_again, was_refused};

/// A piece of a text after its first line, which is fed, and the next one, which is fed for `import` and `from`. How many bytes of that one
/// are taken, up to which byte lines are released then, and whether one is ready.
struct Naming(&'static [u8], &'static [u8], usize, u64, bool);

/// Feeds a short piece for `import` and `from`. It is fed again where a growth was refused.
fn feed_naming(alloc: Global, scanner: &mut Scanner, piece: &[u8]) -> Result<usize, LexError>
    requires { scanner.old.ended ≡ false }
{
    if scanner.fed() > 100 || piece.len() > 100 {
        return Err(LexError::Memory);
    }
    match scanner.feed_naming(piece, b"import", b"from") {
        Err(LexError::Memory) if was_refused(alloc) => {
            scanner.feed_naming(piece, b"import", b"from")
        }
        answer => answer,
    }
}

impl Case for Naming {
    fn holds(&self, alloc: Global) -> bool {
        let Ok(mut scanner) = Scanner::at(alloc, 2, 2) else {
            return false;
        };
        if !matches!(feed(alloc, &mut scanner, self.0), Ok(taken) if taken == self.0.len()) {
            return false;
        }
        matches!(feed_naming(alloc, &mut scanner, self.1), Ok(taken) if taken == self.2)
            && scanner.offset() == self.3
            && scanner.ready().is_some() == self.4
    }
}

static NAMING: &[Naming] = &[
    // Lines without the words: whole, in two pieces, and after CR, where the next byte is held.
    Naming(b"", b"x\ny\n", 2, 4, false),
    Naming(b"x = 'a", b" b'\ny", 4, 12, false),
    Naming(b"x\r", b"y\n", 1, 4, false),
    // Lines with one of them: in code, in a string, in a comment, in another word, and cut.
    Naming(b"", b"import x\n", 9, 2, true),
    Naming(b"x = 'from", b" b'\ny", 4, 2, true),
    Naming(b"x  # no", b" import\ny", 8, 2, true),
    Naming(b"", b"fromage\ny", 8, 2, true),
    Naming(b"x = (fr", b"om)\ny", 4, 2, true),
    // The words are told by their bytes.
    Naming(b"", b"From Import\ny", 12, 14, false),
    // A line that goes on.
    Naming(b"x = (", b"\n", 1, 2, false),
];

#[test]
fn lines_without_the_words_are_released(rt: HostRuntime) -> Result<(), Fail> {
    each_holds_again(rt.alloc(), &[("NAMING", NAMING)])
}

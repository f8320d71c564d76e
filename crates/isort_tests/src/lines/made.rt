//! Texts that are made at random of pieces that mean something to the lexer, each of a number of its own.
ghost use Rattle.std.specs.Prelude.{◌<◌};

use rand_core::{Rng, SeedableRng};
use rand_xoshiro::SplitMix64;
use std::alloc::{AllocError, Global};

/// Numbers in no order, and the same again of the same seed.
#[derive(Drop)]
pub(crate) struct Dice(SplitMix64);

impl Dice {
    /// The numbers of this seed.
    pub(crate) fn new(seed: u64) -> Dice {
        Dice(SplitMix64::seed_from_u64(seed))
    }

    /// The next number, below `n`.
    pub(crate) fn below(&mut self, n: usize) -> usize
        requires { 0 < n }
        ensures { result < n }
    {
        (self.0.next_u64() % n as u64) as usize
    }

    /// One of these pieces.
    fn one_of(&mut self, pieces: &[&'static [u8]]) -> &'static [u8] {
        match pieces.get(self.below(pieces.len().max(1))) {
            Some(piece) => piece,
            None => b"",
        }
    }
}

/// Pieces that leave nothing open: words, numbers, operators, spaces, line ends, joins, brackets, strings, comments, whole lines.
static WHOLE: &[&[u8]] = &[
    b"a",
    b"bc_1",
    b"import",
    b"from",
    b"f",
    b"rb",
    b"\xc3\xa4",
    b"x\xe4\xbd\xa0",
    b"12",
    b"0x1f",
    b"1.5e-3j",
    b"=",
    b":=",
    b"->",
    b"...",
    b",",
    b":",
    b";",
    b"**",
    b"!=",
    b" ",
    b"\t",
    b"\x0c",
    b"\n",
    b"\n\n",
    b"\r",
    b"\r\n",
    b"\\\n",
    b"\\\r",
    b"\\\r\n",
    b"()",
    b"(a, b)",
    b"[1,\n2]",
    b"{3: (\r\n)}",
    b"''",
    b"\"\"",
    b"'b'",
    b"\"c'd\"",
    b"'e\\'f\\\\'",
    b"'\\\n'",
    b"'\\\r\n'",
    b"'\xf0\x9f\x98\x80'",
    b"u'g'",
    b"Rb\"\\\"\"",
    b"'''h'''",
    b"'''i''j\\'''''",
    b"\"\"\"k\n\"l\r\n\r\"\"\"",
    b"f'm'",
    b"f\"{n}{{\"",
    b"f'{o!r:>{p}}'",
    b"f'{(q\n)}'",
    b"f\"{\"r\"}\"",
    b"t'''{s['u']}\nv{w:x}'''",
    b"rF'\\{y}'",
    b"#",
    b"# z\n",
    b"# \xc3\xa9'\r\n",
    b"import a\n",
    b"from . import (b,\n    c)\n",
    b"def d(): pass\n",
    b"    e = [0]  # g\n",
];

/// Pieces that open or close something, and bytes that no text may have.
static BROKEN: &[&[u8]] = &[
    b"(",
    b"[",
    b"{",
    b")",
    b"]",
    b"}",
    b"\n(a]\n",
    b"\n[{1]]\n",
    b"'",
    b"\"",
    b"'''",
    b"\"\"\"",
    b"f'",
    b"f\"{",
    b"t'''{",
    b"!r}",
    b":{",
    b"{{",
    b"}}",
    b"\\",
    b"\\ ",
    b"?",
    b"!",
    b"\x00",
    b"\x7f",
    b"\x80",
    b"\xc3",
    b"\xe2\x82",
    b"\xed\xa0\x80",
    b"\xf0\x9f\x98",
    b"\xf4\x90\x80\x80",
    b"\xff",
    b"\xc2\xa0",
    b"\xef\xbb\xbf",
];

/// More bytes than a text that is made here has.
pub(crate) const LONGEST: usize = 1000;

/// A text of at most 24 pieces, each before a line end or not. One text of four has no broken piece, and the others have some or many.
/// One of four ends anywhere.
pub(crate) fn made_text(alloc: Global, dice: &mut Dice) -> Result<Vec<u8>, AllocError> {
    let mut text = Vec::with_capacity(alloc, LONGEST)?;
    let wild = dice.below(4);
    for _ in 0..dice.below(25) {
        let pieces = if dice.below(24) < wild * wild {
            BROKEN
        } else {
            WHOLE
        };
        text.extend_from_slice(dice.one_of(pieces))?;
        if dice.below(4) == 0 {
            text.push(b'\n')?;
        }
    }
    if dice.below(4) == 0 {
        let end = dice.below(text.len() + 1);
        text.truncate(end);
    }
    Ok(text)
}

//! Tokens as the import grammar sees them.
ghost use Rattle.std.specs.Prelude.{◌≡◌, List, ◌∷◌};
ghost use Rattle.std.specs.Str.{bytes_eq};
ghost use Rattle.py_imports.specs.Grammar.{Terminal, terminal_of, terminal_of_word, terminal_of_operator, is_keyword};

use py_lines::TokKind;

/// The keywords (Python Language Reference, 2.3.1), by their length in bytes.
static KEYWORDS: [&[&str]; 9] = [
    &[],
    &[],
    &["as", "if", "in", "is", "or"],
    &["and", "def", "del", "for", "not", "try"],
    &["None", "True", "elif", "else", "from", "pass", "with"],
    &[
        "False", "async", "await", "break", "class", "raise", "while", "yield",
    ],
    &["assert", "except", "global", "import", "lambda", "return"],
    &["finally"],
    &["continue", "nonlocal"],
];

/// Whether two words are the same. Their first bytes tell most of them apart.
fn are_same(word: &str, other: &str) -> bool
    ensures { result ≡ bytes_eq word.now other.now }
{
    word.as_bytes().first() == other.as_bytes().first() && word == other
}

/// A word is compared with the keywords of its own length and first byte alone, since most words are names.
fn is_keyword(word: &str) -> bool
    ensures { result ≡ is_keyword word.now }
{
    match KEYWORDS.get(word.len()) {
        Some(keywords) => keywords.iter().any(|keyword| are_same(keyword, word)),
        None => false,
    }
}

/// A token of an import statement, as the import grammar sees it.
#[derive(Clone, Copy)]
pub(crate) enum Lexeme<'s> {
    /// The word `import`.
    Import,
    /// The word `from`.
    From,
    /// The word `as`.
    As,
    /// A word that is no keyword.
    Name(&'s str),
    /// `.`
    Dot,
    /// `,`
    Comma,
    /// `*`
    Star,
    /// `(`
    Opening,
    /// `)`
    Closing,
    /// Any other token.
    Other,
    /// No token is left.
    End,
}

impl<'s> Lexeme<'s> {
    ghost use Rattle.py_imports.specs.Private.Lexemes.{lexeme_then};

    /// The lexeme of a token with this text.
    pub(crate) fn of_token(kind: TokKind, word: &'s str) -> Lexeme<'s>
        ensures { (ts : List Terminal) → lexeme_then result ts ≡ terminal_of kind word.now ∷ ts }
    {
        match kind {
            TokKind::Name => Lexeme::of_word(word),
            TokKind::Op(c) => Lexeme::of_operator(c),
            _ => Lexeme::Other,
        }
    }

    /// What a name or keyword is to the grammar.
    fn of_word(word: &'s str) -> Lexeme<'s>
        ensures { (ts : List Terminal) → lexeme_then result ts ≡ terminal_of_word word.now ∷ ts }
    {
        match word {
            "import" => Lexeme::Import,
            "from" => Lexeme::From,
            "as" => Lexeme::As,
            _ if is_keyword(word) => Lexeme::Other,
            _ => Lexeme::Name(word),
        }
    }

    /// What an operator is to the grammar.
    fn of_operator(c: u8) -> Lexeme<'s>
        ensures { (ts : List Terminal) → lexeme_then result ts ≡ terminal_of_operator c ∷ ts }
    {
        match c {
            b'.' => Lexeme::Dot,
            b',' => Lexeme::Comma,
            b'*' => Lexeme::Star,
            b'(' => Lexeme::Opening,
            b')' => Lexeme::Closing,
            _ => Lexeme::Other,
        }
    }
}

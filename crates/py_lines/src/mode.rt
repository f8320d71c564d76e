//! What is open at a place of a line.

ghost use Rattle.std.specs.Prelude.{◌≡◌, ◌<◌};
ghost use Rattle.py_lines.specs.Private.Machine.{begins_string, first_spelling, is_field_spelling, spelling_with};
ghost use Rattle.py_lines.specs.Private.Run.{word_spelling};
ghost use Rattle.py_lines.specs.Private.Scan.{grown, is_text, string_mode};

use crate::character::{is_break, is_space, is_word_character};

/// Whether a word may be the prefix of a string, as far as it goes.
#[derive(Clone, Copy)]
pub enum Spelling {
    /// `r`: a prefix, and with `b`, `f` or `t` after it one of two letters.
    R,
    /// `b`: a prefix, and with `r` after it one of two letters.
    B,
    /// `f`: a prefix, and with `r` after it one of two letters.
    F,
    /// `f` and `r`, in either order: a prefix.
    Fr,
    /// `t`: a prefix, and with `r` after it one of two letters.
    T,
    /// `t` and `r`, in either order: a prefix.
    Tr,
    /// Any other prefix.
    Prefix,
    /// No prefix.
    Name,
}

/// A string with fields (Python Language Reference of Python 3.14, the sections on f-strings and t-strings).
#[derive(Clone, Copy)]
pub struct StringWithFields {
    /// Its quote.
    pub quote: char,
    /// Whether three quotes stand at each end, as far as it is known.
    pub is_long: bool,
    /// Whether `r` is in its prefix.
    pub is_raw: bool,
}

/// The two kinds of text that a string has outside its fields' code.
#[derive(Clone, Copy)]
pub enum Region {
    /// The string's own text.
    Literal,
    /// The format specification of a field.
    Specification,
}

/// What is open. A `char` is the quote of a string.
#[derive(Clone, Copy)]
pub enum Mode {
    /// At the text's start, where a mark may stand.
    Start,
    /// No piece.
    Free,
    Space,
    Word(Spelling),
    Comment,
    /// The text of a short string without fields.
    Short(char),
    /// The text of a string of three quotes without fields.
    Long(char),
    /// The text of a string with fields. The flag says whether each brace stands for itself, up to the next `}`.
    Fields(StringWithFields, Region, bool),
}

impl Spelling {
    /// The spelling of a word that begins with `c`.
    #[tactic(auto, unfolding(crate::specs::Private::Machine::first_spelling, crate::specs::Character::is_r, crate::specs::Character::is_b, crate::specs::Character::is_f, crate::specs::Character::is_t, crate::specs::Character::is_u))]
    pub fn of(c: char) -> Spelling
        ensures { result ≡ first_spelling c }
    {
        match c {
            'r' | 'R' => Spelling::R,
            'b' | 'B' => Spelling::B,
            'f' | 'F' => Spelling::F,
            't' | 'T' => Spelling::T,
            'u' | 'U' => Spelling::Prefix,
            _ => Spelling::Name,
        }
    }

    /// The spelling of the word with one more character.
    #[tactic(auto, unfolding(crate::specs::Private::Machine::spelling_with, crate::specs::Character::is_r, crate::specs::Character::is_b, crate::specs::Character::is_f, crate::specs::Character::is_t))]
    fn with(self, c: char) -> Spelling
        ensures { result ≡ spelling_with self c }
    {
        match (self, c) {
            (Spelling::R, 'b' | 'B') | (Spelling::B, 'r' | 'R') => Spelling::Prefix,
            (Spelling::R, 'f' | 'F') | (Spelling::F, 'r' | 'R') => Spelling::Fr,
            (Spelling::R, 't' | 'T') | (Spelling::T, 'r' | 'R') => Spelling::Tr,
            _ => Spelling::Name,
        }
    }

    /// The spelling of a word of ASCII. No prefix has three characters.
    pub fn of_word(bytes: &[u8]) -> Spelling
        ensures { result ≡ word_spelling bytes.now }
    {
        match bytes {
            [c] => Spelling::of(*c as char),
            [c, d] => Spelling::of(*c as char).with(*d as char),
            _ => Spelling::Name,
        }
    }

    /// Whether the word spells the prefix of a string.
    pub fn is_prefix(self) -> bool
        ensures { result ≡ begins_string self }
    {
        !matches!(self, Spelling::Name)
    }

    /// Whether the word spells the prefix of a string with fields.
    pub fn has_fields(self) -> bool
        ensures { result ≡ is_field_spelling self }
    {
        matches!(
            self,
            Spelling::F | Spelling::Fr | Spelling::T | Spelling::Tr
        )
    }
}

impl Mode {
    /// Whether a string's text is open.
    pub fn is_text(self) -> bool
        ensures { result ≡ is_text self }
    {
        matches!(self, Mode::Short(_) | Mode::Long(_) | Mode::Fields(_, _, _))
    }

    /// The word, the space or the comment that is open with one more character, if that is a part of it.
    pub fn with(self, c: char) -> Option<Mode>
        ensures { result ≡ grown self c }
    {
        match self {
            Mode::Space if is_space(c) => Some(self),
            Mode::Word(spelling) if is_word_character(c) => Some(Mode::Word(spelling.with(c))),
            Mode::Comment if !is_break(c) => Some(self),
            _ => None,
        }
    }

    /// In the text of the string that this quote begins after such a word.
    pub fn of_string(spelling: Spelling, quote: char, is_long: bool) -> Mode
        ensures { result ≡ string_mode spelling quote is_long }
    {
        if spelling.has_fields() {
            let host = StringWithFields {
                quote,
                is_long,
                is_raw: matches!(spelling, Spelling::Fr | Spelling::Tr),
            };
            Mode::Fields(host, Region::Literal, false)
        } else if is_long {
            Mode::Long(quote)
        } else {
            Mode::Short(quote)
        }
    }
}

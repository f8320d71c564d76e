//! The tokens of an import statement, read from left to right.
ghost use Rattle.std.specs.Prelude.{◌≡◌, ◌≢◌, ◌≤◌, ◌-◌, ◌++◌, ℕ, [], false, None, Some, length, map, take, drop};
ghost use Rattle.std.specs.Prelude.{MatchBool, MatchOption, List};
ghost use Rattle.std.specs.Option.{option_map};
ghost use Rattle.py_imports.specs.Statement.{significant};
ghost use Rattle.py_imports.specs.Binds.{terminal_in};
ghost use Rattle.py_imports.specs.Private.Parsing.{at_module, at_relative, alias_after, at_item};
ghost use Rattle.py_imports.specs.Grammar.{identifiers};

use crate::lexeme::Lexeme;
use py_lines::Unit;

/// The lexemes of some tokens of a logical line, which are read from left to right.
#[derive(Clone, Copy)]
pub(crate) struct Lexemes<'u> {
    /// The logical line.
    unit: &'u Unit<'u>,
    /// The place of the next token.
    place: usize,
    /// The place after the last token.
    end: usize,
    ghost ordered: { place ≤ end },
    ghost within: { end ≤ length unit.now.tokens.now },
}

impl<'u> Lexemes<'u> {
    ghost use Rattle.py_imports.specs.Private.Lexemes.{lexeme_then, unread_of, terminals_between, IsFurther, ReadsPath};
    ghost use Rattle.py_imports.specs.Private.Lexemes.{ReadsAlias, ReadsName, begins_import_word, PassesDots};

    /// The tokens from `place` up to `end`, of which none was read.
    pub(crate) fn new(unit: &'u Unit<'u>, place: usize, end: usize) -> Lexemes<'u>
        requires ordered { place ≤ end }
        requires within { end ≤ length unit.now.tokens.now }
        ensures { unread_of result ≡ terminals_between unit.now place end }
    {
        Lexemes { unit, place, end }
    }

    /// The next token that is no comment.
    pub(crate) fn next(&mut self) -> Lexeme<'u>
        ensures lexeme { unread_of self.old ≡ lexeme_then result (unread_of self.new) }
        ensures further { IsFurther self.old self.new }
    {
        while self.place < self.end {
            let token = self.unit.tokens[self.place];
            let word = self.unit.word(self.place);
            self.place += 1;
            if !token.kind.is_comment() {
                return Lexeme::of_token(token.kind, word);
            }
        }
        Lexeme::End
    }

    /// Whether the word `import` is next.
    fn is_at_import(mut self) -> bool
        ensures { result ≡ begins_import_word (unread_of self.entry) }
    {
        matches!(self.next(), Lexeme::Import)
    }

    /// Whether nothing is left.
    pub(crate) fn is_at_end(mut self) -> bool
        ensures { MatchBool result (unread_of self.entry ≡ []) (unread_of self.entry ≢ []) }
    {
        matches!(self.next(), Lexeme::End)
    }

    /// What was read since `start`.
    fn since(self, start: Lexemes<'u>) -> Lexemes<'u>
        requires { IsFurther start self }
        ensures { unread_of start.entry ≡ unread_of result ++ unread_of self.entry }
    {
        Lexemes {
            unit: self.unit,
            place: start.place,
            end: self.place,
        }
    }

    /// Reads a module, and answers its names and dots.
    pub(crate) fn module(&mut self) -> Option<Lexemes<'u>>
        ensures path { ReadsPath (at_module (unread_of self.old)) result (unread_of self.new) }
        ensures further { IsFurther self.old self.new }
    {
        let start = *self;
        'names: loop {
            let Lexeme::Name(_) = self.next() else {
                return None;
            };
            let mut after = *self;
            match after.next() {
                Lexeme::Dot => *self = after,
                _ => return Some(self.since(start)),
            }
        }
    }

    /// Passes the dots that a relative module begins with: whether there are any.
    fn pass_dots(&mut self) -> bool
        ensures dots { PassesDots (unread_of self.old) result (unread_of self.new) }
        ensures further { IsFurther self.old self.new }
    {
        let mut dotted = false;
        let mut after = *self;
        'dots: while let Lexeme::Dot = after.next() {
            dotted = true;
            *self = after;
        }
        dotted
    }

    /// Reads a relative module and the word `import` after it, and answers the module's names and dots.
    pub(crate) fn relative_module(&mut self) -> Option<Lexemes<'u>>
        ensures { ReadsPath (at_relative false (unread_of self.old)) result (unread_of self.new) }
    {
        let start = *self;
        let dotted = self.pass_dots();
        if !(dotted && self.is_at_import()) {
            self.module()?;
        }
        let path = self.since(start);
        match self.next() {
            Lexeme::Import => Some(path),
            _ => None,
        }
    }

    /// Reads the name after `as`, if that is what follows. There is no answer where no name comes after it.
    pub(crate) fn alias(&mut self) -> Option<Option<&'u str>>
        ensures { ReadsAlias (unread_of self.old) result (unread_of self.new) }
    {
        let mut after = *self;
        let Lexeme::As = after.next() else {
            return Some(None);
        };
        let Lexeme::Name(name) = after.next() else {
            return None;
        };
        *self = after;
        Some(Some(name))
    }

    /// Reads NAME [as NAME].
    pub(crate) fn name_with_alias(&mut self) -> Option<(&'u str, Option<&'u str>)>
        ensures { ReadsName (unread_of self.old) result (unread_of self.new) }
    {
        let Lexeme::Name(name) = self.next() else {
            return None;
        };
        let alias = self.alias()?;
        Some((name, alias))
    }
}

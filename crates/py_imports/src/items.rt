//! The items of an import statement, one after another.
ghost use Rattle.std.specs.Prelude.{◌≡◌, ◌≢◌, ◌≤◌, ◌-◌, ◌++◌, List, [], ◌∷◌, false, None, length, map, take, drop};
ghost use Rattle.std.specs.Prelude.{codes, string_bytes, OnOk, IfSome, MatchOption};
ghost use Rattle.py_imports.specs.Statement.{significant};
ghost use Rattle.py_imports.specs.Binds.{terminal_in};
ghost use Rattle.py_imports.specs.Private.Lexemes.{unread_of, terminals_between};
ghost use Rattle.py_imports.specs.Private.Items.{with_first_word, BeginsForm};
ghost use Rattle.py_imports.specs.Grammar.{Terminal, from_word, terminal_of, begins_import, modules, identifiers};
ghost use Rattle.py_imports.specs.Grammar.{AreItems, AreBracketed, AreNames, whole_module, attribute_of, IsImport};

use crate::lexeme::Lexeme;
use crate::lexemes::Lexemes;
use py_lines::{TokKind, Unit};
use std::alloc::AllocError;

/// Which import statement it is, by its first word.
#[derive(Clone, Copy)]
pub(crate) enum Form {
    /// `import`
    Import,
    /// `from`
    From,
}

/// The import statement that a token begins, if it does.
pub(crate) fn form_of(kind: TokKind, word: &str) -> Option<Form>
    ensures form { BeginsForm (terminal_of kind word.now) result }
    ensures name { IfSome result (λ form. kind ≡ TokKind.Name) }
{
    match (kind, word) {
        (TokKind::Name, "import") => Some(Form::Import),
        (TokKind::Name, "from") => Some(Form::From),
        _ => None,
    }
}

/// A module of an import statement: its names and dots, with what stands between them.
#[derive(Clone, Copy)]
pub(crate) struct ModulePath<'u> {
    /// Its lexemes, of which those other than names and dots are passed over.
    names: Lexemes<'u>,
}

impl ModulePath<'_> {
    ghost use Rattle.py_imports.specs.Private.Items.{path_of};

    /// Puts its names and dots after `text`, without what stands between them.
    pub(crate) fn push_onto(self, text: &mut String) -> Result<(), AllocError>
        ensures { OnOk result (string_bytes text.new
            ≡ string_bytes text.old ++ path_of self.entry) }
    {
        let mut names = self.names;
        'names: loop {
            let piece = match names.next() {
                Lexeme::Name(name) => name,
                Lexeme::Dot => ".",
                Lexeme::End => return Ok(()),
                _ => continue,
            };
            text.push_str(piece)?;
        }
    }
}

/// What one item of an import statement imports, lent out of its logical line.
#[derive(Clone, Copy)]
pub(crate) struct ImportItem<'u> {
    /// The module.
    pub(crate) module: ModulePath<'u>,
    /// The name after `from .. import`, or `*`; none of a whole module.
    pub(crate) attribute: Option<&'u str>,
    /// The name after `as`.
    pub(crate) alias: Option<&'u str>,
}

/// What has to follow in an import statement.
#[derive(Clone, Copy)]
enum Stage<'u> {
    /// MODULE [as NAME] {, MODULE [as NAME]}
    Modules,
    /// RELATIVE_MODULE `import` and what stands after it
    From,
    /// NAME [as NAME] {, NAME [as NAME]}
    Names(ModulePath<'u>),
    /// NAME [as NAME] {, NAME [as NAME]} [,] and the closing bracket
    Bracketed(ModulePath<'u>),
    /// Nothing: all items were read.
    End,
}

/// The stage of a statement's end, where nothing is left.
fn end_at<'u>(tokens: Lexemes<'u>) -> Option<Stage<'u>>
    ensures { MatchOption result (unread_of tokens.entry ≢ [])
        (λ stage. (stage ≡ Stage.End) × (unread_of tokens.entry ≡ [])) }
{
    if tokens.is_at_end() {
        Some(Stage::End)
    } else {
        None
    }
}

/// The statement isn't in the import grammar.
#[derive(Clone, Copy)]
pub(crate) struct BadStatement;

/// The items of an import statement, which are read from left to right. Reading them takes no memory.
#[derive(Clone, Copy)]
pub(crate) struct ImportItems<'u> {
    /// What comes next.
    stage: Stage<'u>,
    /// What is left of the statement.
    tokens: Lexemes<'u>,
}

impl<'u> ImportItems<'u> {
    ghost use Rattle.py_imports.specs.Private.Items.{ReadsStar, ListsFrom, ListsOf, AreLeft, most_left, AreSameLists};
    ghost use Rattle.py_imports.specs.Private.Items.{IsFirstOfLists, IsNext, GetFewer, FollowsItem, FollowsBracketed};
    ghost use Rattle.py_imports.specs.Private.Items.{TellsWhether};

    /// The items of the statement whose first word stands directly before the token at `place`, and which ends before
    /// the token at `end`.
    pub(crate) fn new(unit: &'u Unit<'u>, form: Form, place: usize, end: usize) -> ImportItems<'u>
        requires ordered { place ≤ end }
        requires within { end ≤ length unit.now.tokens.now }
        ensures { AreSameLists
            (IsImport (with_first_word form (terminals_between unit.now place end)))
            (AreLeft result) }
    {
        let tokens = Lexemes::new(unit, place, end);
        match form {
            Form::Import => ImportItems {
                stage: Stage::Modules,
                tokens,
            },
            Form::From => ImportItems {
                stage: Stage::From,
                tokens,
            },
        }
    }

    /// Whether the statement is in the import grammar.
    pub(crate) fn is_in_grammar(mut self) -> bool
        ensures { TellsWhether result (AreLeft self.entry) }
    {
        'items: loop {
            match self.next() {
                Ok(Some(_)) => {}
                Ok(None) => return true,
                Err(BadStatement) => return false,
            }
        }
    }

    /// The next item; none where all were read; a refusal where the statement isn't in the grammar.
    pub(crate) fn next(&mut self) -> Result<Option<ImportItem<'u>>, BadStatement>
        ensures item { IsNext (AreLeft self.old) result (AreLeft self.new) }
        ensures fewer { GetFewer result (most_left self.old) (most_left self.new) }
    {
        let item = match self.stage {
            Stage::Modules => self.module_item(),
            Stage::From => self.from_item(),
            Stage::Names(from) => self.name_item(from),
            Stage::Bracketed(from) => self.bracketed_item(from),
            Stage::End => return Ok(None),
        };
        match item {
            Some(item) => Ok(Some(item)),
            None => Err(BadStatement),
        }
    }

    /// MODULE [as NAME], and the comma after it, if there is one
    fn module_item(&mut self) -> Option<ImportItem<'u>>
        ensures item { IsFirstOfLists
            (ListsOf whole_module (AreItems modules (unread_of self.old.tokens)))
            result (AreLeft self.new) }
        ensures fewer { IfSome result
            (λ _. most_left self.new ≤ length (unread_of self.old.tokens)) }
    {
        let names = self.tokens.module()?;
        let alias = self.tokens.alias()?;
        self.stage = self.after_item(Stage::Modules)?;
        Some(ImportItem {
            module: ModulePath { names },
            attribute: None,
            alias,
        })
    }

    /// RELATIVE_MODULE `import`, and the first item after them
    fn from_item(&mut self) -> Option<ImportItem<'u>>
        ensures item { IsFirstOfLists
            (IsImport (from_word ∷ unread_of self.old.tokens))
            result (AreLeft self.new) }
        ensures fewer { IfSome result
            (λ _. most_left self.new ≤ length (unread_of self.old.tokens)) }
    {
        let names = self.tokens.relative_module()?;
        self.first_item(ModulePath { names })
    }

    /// `*` alone, NAME [as NAME], or the same in brackets
    fn first_item(&mut self, from: ModulePath<'u>) -> Option<ImportItem<'u>>
        ensures item { IsFirstOfLists
            (ListsFrom from.entry (AreNames (unread_of self.old.tokens)))
            result (AreLeft self.new) }
        ensures fewer { IfSome result
            (λ _. most_left self.new ≤ length (unread_of self.old.tokens)) }
    {
        let mut after = self.tokens;
        match after.next() {
            Lexeme::Star => self.star_item(from, after),
            Lexeme::Opening => {
                self.tokens = after;
                self.bracketed_item(from)
            }
            _ => self.name_item(from),
        }
    }

    /// `*`, where nothing comes after it
    fn star_item(&mut self, from: ModulePath<'u>, after: Lexemes<'u>) -> Option<ImportItem<'u>>
        ensures item { ReadsStar from.entry (unread_of after.entry) result self.new.stage }
    {
        if !after.is_at_end() {
            return None;
        }
        self.stage = Stage::End;
        Some(ImportItem {
            module: from,
            attribute: Some("*"),
            alias: None,
        })
    }

    /// NAME [as NAME], and the comma after it, if there is one
    fn name_item(&mut self, from: ModulePath<'u>) -> Option<ImportItem<'u>>
        ensures item { IsFirstOfLists
            (ListsFrom from.entry (AreItems identifiers (unread_of self.old.tokens)))
            result (AreLeft self.new) }
        ensures fewer { IfSome result
            (λ _. most_left self.new ≤ length (unread_of self.old.tokens)) }
    {
        let (name, alias) = self.tokens.name_with_alias()?;
        self.stage = self.after_item(Stage::Names(from))?;
        Some(ImportItem {
            module: from,
            attribute: Some(name),
            alias,
        })
    }

    /// NAME [as NAME] in brackets, and the comma or the closing bracket after it
    fn bracketed_item(&mut self, from: ModulePath<'u>) -> Option<ImportItem<'u>>
        ensures item { IsFirstOfLists
            (ListsFrom from.entry (AreBracketed (unread_of self.old.tokens)))
            result (AreLeft self.new) }
        ensures fewer { IfSome result
            (λ _. most_left self.new ≤ length (unread_of self.old.tokens)) }
    {
        let (name, alias) = self.tokens.name_with_alias()?;
        self.stage = self.after_bracketed(from)?;
        Some(ImportItem {
            module: from,
            attribute: Some(name),
            alias,
        })
    }

    /// What has to come after an item without brackets: after a comma more at this stage.
    fn after_item(&mut self, stage: Stage<'u>) -> Option<Stage<'u>>
        ensures { FollowsItem stage.entry (unread_of self.old.tokens) result
            (unread_of self.new.tokens) }
    {
        match self.tokens.next() {
            Lexeme::Comma => Some(stage),
            Lexeme::End => Some(Stage::End),
            _ => None,
        }
    }

    /// What has to come after an item in brackets: after a comma more, or nothing after the closing bracket.
    fn after_bracketed(&mut self, from: ModulePath<'u>) -> Option<Stage<'u>>
        ensures { FollowsBracketed from.entry (unread_of self.old.tokens) result
            (unread_of self.new.tokens) }
    {
        match self.tokens.next() {
            Lexeme::Closing => end_at(self.tokens),
            Lexeme::Comma => {
                let mut after = self.tokens;
                match after.next() {
                    Lexeme::Closing => end_at(after),
                    _ => Some(Stage::Bracketed(from)),
                }
            }
            _ => None,
        }
    }
}

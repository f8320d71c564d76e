//! Laws of the definitions, which the checker proves as contracts of functions that do nothing.

ghost use Rattle.std.specs.Prelude.{◌≡◌, ◌∷◌, ◌++◌, ◌⊎◌, ◌<◌, ◌≤◌, ℕ, List, [], true, false, codes, map, nat_lt};
ghost use Rattle.std.specs.List.{list_any};
ghost use Rattle.std.specs.Str.{all_scalars};
ghost use Rattle.py_lines.specs.LogicalLine.{LogicalLine, line_of};
ghost use Rattle.py_lines.specs.Piece.{Piece, spelled};
ghost use Rattle.py_lines.specs.Fields.{AreReadBefore};
ghost use Rattle.py_lines.specs.Reader.{Reader, HasGiven, PassesLines};
ghost use Rattle.py_lines.specs.Words.{words_of};
ghost use Rattle.py_lines.specs.declared.fault.Fault.{Fault};
ghost use Rattle.py_lines.specs.declared.token.Token.{Token};
ghost use Rattle.py_imports.specs.Grammar.{Terminal, Imported, IsImport, begins_import};
ghost use Rattle.py_imports.specs.BindingValue.{BindingValue, binding_at};
ghost use Rattle.py_imports.specs.Names.{AreNamed, HaveNames, terminals_in};
ghost use Rattle.py_imports.specs.Shape.{begins_so, terminals_of};
ghost use Rattle.py_imports.specs.Statement.{is_divider, significant};
ghost use Rattle.py_imports.specs.ActionComment.{says};
ghost use Rattle.py_imports.specs.Binds.{Binds, BindAll, IsBadAt, BindsOrIsBad};
ghost use Rattle.py_imports.specs.FirstWords.{LieWithoutImport, NoImportBegins};
ghost use Rattle.py_imports.specs.declared.action_comment.ActionComment.{ActionComment};

use py_lines::laws::{tokens_are_words, words_hold_no_line_end};

/// An import statement binds one list: the grammar relates it to no other.
pub fn binds_one_list()
    ensures { (statement : List Terminal) (is others : List Imported) → IsImport statement is
        → IsImport statement others → is ≡ others }
{}

/// A logical line binds a list or has a fault, and not both. What it binds is one list, and its fault is one: of one
/// kind, at one byte, on one line.
pub fn binds_or_is_bad()
    ensures some { (line : LogicalLine) → BindsOrIsBad line }
    ensures one_list { (line : LogicalLine) (values others : List BindingValue) → Binds line values
        → Binds line others → values ≡ others }
    ensures one_fault { (line : LogicalLine) (fault other : Fault) → IsBadAt line fault
        → IsBadAt line other → fault ≡ other }
    ensures not_both { (line : LogicalLine) (values : List BindingValue) (fault : Fault)
        → Binds line values → ¬ (IsBadAt line fault) }
{}

/// What a logical line says to the import grammar is what the words of its pieces say, wherever the line stands. Where the
/// pieces are read, of Unicode's characters, each name among them is a word, and no number and no keyword.
pub fn names_are_words()
    ensures words { (offset line : ℕ) (pieces : List Piece)
        → terminals_of (line_of offset line pieces) ≡ terminals_in (words_of pieces) }
    ensures names { (offset line : ℕ) (pieces : List Piece) (rest : List ℕ)
        → AreReadBefore pieces rest → all_scalars (spelled pieces) ≡ true
        → HaveNames (terminals_of (line_of offset line pieces)) }
{
    tokens_are_words();
}

/// An import statement whose names are words imports modules of such names, with dots, under such names.
pub fn imports_of_words_are_named()
    ensures { (statement : List Terminal) (is : List Imported) → IsImport statement is
        → HaveNames statement → AreNamed is }
{}

/// A logical line with neither `;` nor `:` outside its comments binds what it imports as one statement, if it is one in the
/// grammar.
pub fn one_statement_binds_its_imports()
    ensures { (line : LogicalLine) (token : Token) (tokens : List Token) (is : List Imported)
        → significant line.tokens ≡ token ∷ tokens
        → list_any (λ t. is_divider t.kind) (token ∷ tokens) ≡ false
        → begins_import (terminals_of line) ≡ true → IsImport (terminals_of line) is
        → Binds line (map (binding_at token.line (nat_lt 0 line.indent)) is) }
{}

/// Logical lines that lie where no import statement begins, by the text's bytes alone, bind nothing, and none of them begins with
/// `import` or `from`. Lines that a reader passes over lie so where no import statement begins before their end.
pub fn lines_without_import_bind_nothing()
    ensures binds { (lines : List LogicalLine) → LieWithoutImport lines → BindAll lines [] }
    ensures begins { (lines : List LogicalLine) → LieWithoutImport lines
        → list_any begins_so lines ≡ false }
    ensures passed { (old new : Reader) (given lines : List LogicalLine) (stop : ℕ)
        → HasGiven old given → PassesLines old lines new → NoImportBegins old.text old.place stop
        → (old.place < new.place → new.place ≤ stop) → LieWithoutImport lines }
{
    tokens_are_words();
    words_hold_no_line_end();
}

/// Two texts with `; ` between them say no action that neither of them says. So what comments say when they are joined, one
/// of them says.
pub fn joined_texts_say_no_more()
    ensures { (a : ActionComment) (text rest : List ℕ)
        → says a (text ++ (codes "; " ++ rest)) ≡ true
        → (says a text ≡ true) ⊎ (says a rest ≡ true) }
{}

//! Laws of the definitions, which the checker proves as contracts of functions that do nothing.

ghost use Rattle.std.specs.Prelude.{◌≡◌, ℕ, ◌+◌, ◌<◌, false, true, Option, Some, List, [], ◌∷◌, ◌++◌, map, take};
ghost use Rattle.std.specs.Char.{is_ascii_alphabetic};
ghost use Rattle.std.specs.List.{list_all, list_any};
ghost use Rattle.py_lines.specs.Character.{is_break};
ghost use Rattle.py_lines.specs.Piece.{Piece, spelled};
ghost use Rattle.py_lines.specs.PieceGrammar.{IsWord, ReadsPlain};
ghost use Rattle.py_lines.specs.FieldStrings.{Host, may_have_fields};
ghost use Rattle.py_lines.specs.Fields.{IsField, AnyPieces, Fields, fielded, AreReadBefore, Reads, ReadsText, IsShallow, ShallowFields};
ghost use Rattle.py_lines.specs.WithoutFields.{IsPlainReading, IsPlainLexed, HasNoFields};
ghost use Rattle.py_lines.specs.LogicalLine.{LogicalLine, cut, line_of};
ghost use Rattle.py_lines.specs.Reading.{IsBalancedReading, EndsLine};
ghost use Rattle.py_lines.specs.Faults.{IsFaultAt, IsReadOrFaulty};
ghost use Rattle.py_lines.specs.Lexed.{IsLexed, BeginsLexing};
ghost use Rattle.py_lines.specs.Neighbours.{AreSimple, MayTouch, MayFollowLines};
ghost use Rattle.py_lines.specs.Words.{word_in, words_of, extent_of};
ghost use Rattle.py_lines.specs.Reader.{Reader, HasGiven};
ghost use Rattle.py_lines.specs.Settled.{IsSettled, Decides};
ghost use Rattle.py_lines.specs.Given.{AreFirstLines};
ghost use Rattle.py_lines.specs.declared.fault.Fault.{Fault};
ghost use Rattle.py_lines.specs.declared.fault.FaultKind.{FaultKind};

/// A text has at most one reading: pieces that read the same characters, or the same bytes, are the same.
pub fn one_reading()
    ensures of_characters { (pieces others : List Piece) (characters : List ℕ)
        → Reads pieces characters → Reads others characters → pieces ≡ others }
    ensures of_text { (pieces others : List Piece) (text : List ℕ)
        → ReadsText pieces text → ReadsText others text → pieces ≡ others }
{}

/// Fields are defined by how many of them stand one in another, and this says no less than the plain words: a field holds
/// pieces whose strings hold fields, and its specification does. So it is with those of which none opens too deep, where the
/// string stands at this depth.
pub fn fields_hold_fields()
    ensures whole { (host : Host) (text : List ℕ)
        → IsField fielded AnyPieces Fields host text → Fields host text }
    ensures parts { (host : Host) (text : List ℕ)
        → Fields host text → IsField fielded AnyPieces Fields host text }
    ensures shallow_whole { (depth : ℕ) (host : Host) (text : List ℕ)
        → depth < 200
        → IsField fielded (IsShallow (depth + 1)) (ShallowFields (depth + 1)) host text
        → ShallowFields depth host text }
    ensures shallow_parts { (depth : ℕ) (host : Host) (text : List ℕ)
        → ShallowFields depth host text
        → (depth < 200)
        × IsField fielded (IsShallow (depth + 1)) (ShallowFields (depth + 1)) host text }
{}

/// A text is read or has a lexical fault, and its fault is one: of one kind, at one byte.
pub fn one_fault()
    ensures some { (characters tail : List ℕ) → IsReadOrFaulty characters tail }
    ensures one { (characters tail : List ℕ) (kind other : FaultKind) (offset place : ℕ)
        → IsFaultAt kind characters tail offset → IsFaultAt other characters tail place
        → (kind ≡ other) × (offset ≡ place) }
{}

/// Every text has one list of logical lines, and then its end or one lexical fault: of one kind, at one byte, on one
/// line.
pub fn one_lexing()
    ensures some { (text : List ℕ)
        → (lines : List LogicalLine) × (end : Option Fault) × IsLexed text lines end }
    ensures one_list { (text : List ℕ) (lines others : List LogicalLine) (end other : Option Fault)
        → IsLexed text lines end → IsLexed text others other → lines ≡ others }
    ensures one_end { (text : List ℕ) (lines others : List LogicalLine) (end other : Option Fault)
        → IsLexed text lines end → IsLexed text others other → end ≡ other }
{}

/// The lines that a reader has given, wherever it stands, begin the lexing of the whole text: the rest of its lines and
/// its end or fault come after them.
pub fn given_lines_begin_the_text()
    ensures begin { (reader : Reader) (lines : List LogicalLine)
        → HasGiven reader lines → BeginsLexing reader.text lines }
{}

/// What the known bytes of a text settle stays, whatever follows them. Any bytes settle one list of lines, which begins
/// the lexing of each text that begins with them. More bytes settle no fewer lines. The first lines of a text, up to some
/// byte, begin with those that the bytes before it settle. A fault that the known bytes decide is that of each text that
/// begins with them, after the same lines.
pub fn settled_is_final()
    ensures some { (text : List ℕ) → (lines : List LogicalLine) × IsSettled text lines }
    ensures one { (text : List ℕ) (lines others : List LogicalLine)
        → IsSettled text lines → IsSettled text others → lines ≡ others }
    ensures lines { (text more : List ℕ) (lines : List LogicalLine)
        → IsSettled text lines → BeginsLexing (text ++ more) lines }
    ensures grow { (text more : List ℕ) (lines others : List LogicalLine)
        → IsSettled text lines → IsSettled (text ++ more) others
        → (rest : List LogicalLine) × (others ≡ lines ++ rest) }
    ensures within { (text : List ℕ) (place line : ℕ) (lines others : List LogicalLine)
        → AreFirstLines text place line lines → IsSettled (take place text) others
        → (more : List LogicalLine) × (lines ≡ others ++ more) }
    ensures fault { (text more : List ℕ) (fault : Fault) (lines : List LogicalLine)
        (end : Option Fault)
        → Decides text fault → IsLexed (text ++ more) lines end → end ≡ Some fault }
    ensures all { (text more : List ℕ) (fault : Fault) (lines : List LogicalLine)
        → Decides text fault → IsLexed text lines (Some fault)
        → IsLexed (text ++ more) lines (Some fault) }
{}

/// A text in which neither `f` nor `t`, alone or followed by `r`, stands directly before a quote is read by the same pieces
/// whether strings hold fields or not, and these are as deep. Any bytes in whose characters none stands so have the same
/// logical lines, and then the same end or fault.
pub fn fields_change_nothing_elsewhere()
    ensures read_with { (pieces : List Piece) (characters : List ℕ)
        → may_have_fields characters ≡ false → ReadsPlain pieces characters
        → Reads pieces characters }
    ensures read_without { (pieces : List Piece) (characters : List ℕ)
        → may_have_fields characters ≡ false → Reads pieces characters
        → ReadsPlain pieces characters }
    ensures balanced_with { (pieces : List Piece) (characters : List ℕ)
        → may_have_fields characters ≡ false → IsPlainReading pieces characters
        → IsBalancedReading pieces characters }
    ensures balanced_without { (pieces : List Piece) (characters : List ℕ)
        → may_have_fields characters ≡ false → IsBalancedReading pieces characters
        → IsPlainReading pieces characters }
    ensures lexed_with { (text : List ℕ) (lines : List LogicalLine) (end : Option Fault)
        → HasNoFields text → IsPlainLexed text lines end → IsLexed text lines end }
    ensures lexed_without { (text : List ℕ) (lines : List LogicalLine) (end : Option Fault)
        → HasNoFields text → IsLexed text lines end → IsPlainLexed text lines end }
{}

/// A word holds no line end.
pub fn words_hold_no_line_end()
    ensures { (text : List ℕ) → IsWord text → list_any is_break text ≡ false }
{}

/// ASCII letters, at least one, are a word.
pub fn letters_are_words()
    ensures { (first : ℕ) (others : List ℕ)
        → list_all is_ascii_alphabetic (first ∷ others) ≡ true → IsWord (first ∷ others) }
{}

/// Pieces other than marks and strings are read where each may touch the next.
pub fn neighbours_are_read()
    ensures { (pieces : List Piece) → AreSimple pieces → MayTouch pieces → AreReadBefore pieces [] }
{}

/// Whole lines and what may follow them are read together exactly if each is read, and the lines of both are those of each.
pub fn lines_before_a_text()
    ensures together { (lines rest : List Piece)
        → EndsLine lines
        → IsBalancedReading lines (spelled lines) → IsBalancedReading rest (spelled rest)
        → MayFollowLines lines rest → IsBalancedReading (lines ++ rest) (spelled (lines ++ rest)) }
    ensures apart { (lines rest : List Piece)
        → EndsLine lines → IsBalancedReading (lines ++ rest) (spelled (lines ++ rest))
        → IsBalancedReading lines (spelled lines) × IsBalancedReading rest (spelled rest) }
    ensures cut { (lines rest : List Piece)
        → EndsLine lines → cut 0 (lines ++ rest) ≡ cut 0 lines ++ cut 0 rest }
{}

/// The tokens of a logical line have the kinds and the bytes of its pieces, wherever the line stands, and lie at the same
/// places of it.
pub fn tokens_are_words()
    ensures words { (offset line : ℕ) (pieces : List Piece)
        → map (word_in (line_of offset line pieces).text) (line_of offset line pieces).tokens
        ≡ words_of pieces }
    ensures anywhere { (offset line place row : ℕ) (pieces : List Piece)
        → map extent_of (line_of offset line pieces).tokens
        ≡ map extent_of (line_of place row pieces).tokens }
{}

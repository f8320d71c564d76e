//! Laws of the definitions, each proved as the contract of a function that does nothing.
ghost use Rattle.std.specs.Prelude.{◌≡◌, ◌∷◌, ◌++◌, ℕ, Bool, true, Some, List, codes, length, map};
ghost use Rattle.std.specs.List.{join_by, list_all};
ghost use Rattle.py_lines.specs.Character.{is_space};
ghost use Rattle.py_lines.specs.LogicalLine.{LogicalLine};
ghost use Rattle.py_lines.specs.PieceGrammar.{IsLineEnd};
ghost use Rattle.py_imports.specs.Binds.{Binds};
ghost use Rattle.py_imports.specs.BindingValue.{BindingValue};
ghost use Rattle.py_imports.specs.Grammar.{Item};
ghost use Rattle.isort_settings.specs.Values.{Values};
ghost use Rattle.isort_sort.specs.Answers.{AreBlocksOf, StandBetween, with_layouts};
ghost use Rattle.isort_sort.specs.Blocks.{Cut, Run, AreBlocks, IsCutAtBlocks};
ghost use Rattle.isort_sort.specs.BlocksReplaced.{AreReplaced};
ghost use Rattle.isort_sort.specs.LaidAgain.{IsMoved, SwitchNothing, as_member, asked_by, with_joined_comments, without_above};
ghost use Rattle.isort_sort.specs.Layout.{Laid, AreLaid, block_lines};
ghost use Rattle.isort_sort.specs.Line.{stripped, without_hash, own_comments, imported_of, AreOwnComments};
ghost use Rattle.isort_sort.specs.Member.{Member, AreStatements, AreItemsOf};
ghost use Rattle.isort_sort.specs.ReadBack.{HasBlocksBack};
ghost use Rattle.isort_sort.specs.Row.{as_many, Role, Row, HasRole, is_off_after};
ghost use Rattle.isort_sort.specs.Sorted.{IsAccepted, HasBlocks, IsLaidOut, IsSorted, blanks_after, first_end};
ghost use Rattle.isort_sort.specs.Statement.{Statement};
ghost use Rattle.isort_sort.specs.Wrapping.{fits_line, IsCut};
ghost use Rattle.isort_sort.specs.WrittenLine.{AreReadMembers, AreReadBlocks, EachIsWritten};
ghost use Rattle.isort_sort.specs.declared.answer.Block.{Block};

use isort_settings::laws::{modules_are_totally_ordered, names_are_totally_ordered};
use py_imports::laws::{
    binds_or_is_bad, imports_of_words_are_named, joined_texts_say_no_more, names_are_words,
    one_statement_binds_its_imports,
};
use py_lines::laws::{
    letters_are_words, lines_before_a_text, neighbours_are_read, one_lexing, tokens_are_words,
    words_hold_no_line_end,
};

/// The statements of a block have one order.
pub fn one_order_of_statements()
    ensures some { (v : Values) (members : List Member)
        → (statements : List Statement) × AreStatements v members statements }
    ensures one { (v : Values) (members : List Member) (a b : List Statement)
        → AreStatements v members a → AreStatements v members b → a ≡ b }
{
    modules_are_totally_ordered();
    names_are_totally_ordered();
}

/// The items of a statement have one order.
pub fn one_order_of_items()
    ensures some { (v : Values) (members : List Member) (s : Statement)
        → (items : List Item) × AreItemsOf v members s items }
    ensures one { (v : Values) (members : List Member) (s : Statement) (a b : List Item)
        → AreItemsOf v members s a → AreItemsOf v members s b → a ≡ b }
{
    modules_are_totally_ordered();
    names_are_totally_ordered();
}

/// A block that was laid out, with each statement as a member of its own, is laid out as it was: the same statements with the
/// same items, each with its joined comments as one and the comments above it, and the same lines. The comments above the first
/// statement may be left out: they stand before the block when it is read again.
pub fn written_blocks_stay()
    ensures laid { (v : Values) (indentation : List ℕ) (members : List Member) (laid : List Laid)
        → AreLaid v indentation members laid
        → AreLaid v indentation (map as_member laid) (map with_joined_comments laid) }
    ensures first { (v : Values) (indentation : List ℕ) (members : List Member) (s : Laid)
        (ss : List Laid)
        → AreLaid v indentation members (s ∷ ss)
        → AreLaid v indentation (map as_member (without_above s ∷ ss))
        (map with_joined_comments (without_above s ∷ ss)) }
    ensures lines { (v : Values) (indentation end : List ℕ) (laid : List Laid)
        → block_lines v indentation end (map with_joined_comments laid)
        ≡ block_lines v indentation end laid }
{
    modules_are_totally_ordered();
    names_are_totally_ordered();
}

/// The blank lines that are written after a block are those that would be written again, before rows that ask for the same,
/// or for as many as there are, as comments do that now stand before another block.
pub fn blank_lines_after_a_block_stay()
    ensures same { (v : Values) (run new : Run) (kept : ℕ) (rows others : List Row)
        → new.first.indentation ≡ run.first.indentation → asked_by others ≡ asked_by rows
        → blanks_after v new (blanks_after v run kept rows) others ≡ blanks_after v run kept rows }
    ensures as_many { (v : Values) (run new : Run) (kept : ℕ) (row : Row) (rows others : List Row)
        → new.first.indentation ≡ run.first.indentation → asked_by others ≡ Some as_many
        → blanks_after v new (blanks_after v run kept (row ∷ rows)) others
        ≡ blanks_after v run kept (row ∷ rows) }
{}

/// The comments of a line are not empty and have no space at their ends. Such comments, joined and written, are read back as
/// they were joined.
pub fn joined_comments_are_read_back()
    ensures own { (line : LogicalLine) → AreOwnComments (own_comments line) }
    ensures joined { (c : List ℕ) (cs : List (List ℕ)) → AreOwnComments (c ∷ cs)
        → stripped (without_hash (codes "# " ++ join_by (λ (t : List ℕ). t) (codes "; ") (c ∷ cs)))
        ≡ join_by (λ (t : List ℕ). t) (codes "; ") (c ∷ cs) }
{}

/// Each block of an accepted text that isn't skipped meets what the law on written statements asks for: it is indented by
/// spaces, tabs and form feeds, and its members have names that are words, and comments without line ends. So does the line
/// end that is written.
pub fn blocks_are_read()
    ensures blocks { (text : List ℕ) (lines : List LogicalLine) (cut : Cut)
        → HasBlocks text lines cut → AreReadBlocks cut }
    ensures end { (text : List ℕ) → IsLineEnd (first_end text) }
{
    lines_before_a_text();
    tokens_are_words();
    names_are_words();
    imports_of_words_are_named();
    joined_comments_are_read_back();
}

/// Each statement of a block, as it is written with any line end, is one logical line, wherever it stands: one that can be
/// sorted, and that imports what the statement imports, with its joined comments.
pub fn written_statements_are_read_back()
    ensures { (v : Values) (indentation end : List ℕ) (members : List Member) (laid : List Laid)
        → list_all is_space indentation ≡ true → IsLineEnd end → AreReadMembers members
        → AreLaid v indentation members laid
        → EachIsWritten v indentation end laid }
{
    letters_are_words();
    tokens_are_words();
    names_are_words();
    one_statement_binds_its_imports();
    joined_texts_say_no_more();
    modules_are_totally_ordered();
    names_are_totally_ordered();
}

/// Items have one cut into lines.
pub fn one_cut()
    ensures some { (v : Values) (indentation m : List ℕ) (items : List Item)
        → (lines : List (List Item)) × IsCut (fits_line v indentation m) items lines }
    ensures one { (v : Values) (indentation m : List ℕ) (items : List Item) (a b : List (List Item))
        → IsCut (fits_line v indentation m) items a → IsCut (fits_line v indentation m) items b
        → a ≡ b }
{}

/// Lines that turn sorting neither off nor on, as those of a block, change nothing for the lines after them.
pub fn silent_lines_switch_nothing()
    ensures { (before lines after : List LogicalLine)
        → SwitchNothing lines
        → is_off_after (before ++ (lines ++ after)) ≡ is_off_after (before ++ after) }
{}

/// A logical line imports the same, and is the same to sorting, wherever it stands.
pub fn moved_lines_stay_the_same()
    ensures imports { (line other : LogicalLine) → IsMoved line other
        → (values : List BindingValue) → Binds line values
        → (others : List BindingValue) × Binds other others
        × (map imported_of others ≡ map imported_of values) }
    ensures role { (off : Bool) (line other : LogicalLine) (role : Role)
        → IsMoved line other → HasRole off line role → HasRole off other role }
{}

/// Rows have one cut at blocks.
pub fn one_cut_at_blocks()
    ensures some { (rows : List Row) → (cut : Cut) × IsCutAtBlocks rows cut }
    ensures one { (rows : List Row) (a b : Cut) → IsCutAtBlocks rows a → IsCutAtBlocks rows b
        → a ≡ b }
{}

/// Where each block is replaced by another of the same indentation, those that come are the blocks.
pub fn replaced_blocks_are_blocks()
    ensures { (a b : Cut) → AreBlocks a → AreReplaced a b → AreBlocks b }
{}

/// A text that is accepted has a sorted text. No text has two.
pub fn one_sorted_text()
    ensures some { (text : List ℕ) (v : Values) (lines : List LogicalLine) → IsAccepted text lines
        → (sorted : List ℕ) × IsSorted text v sorted }
    ensures one { (text : List ℕ) (v : Values) (a b : List ℕ) → IsSorted text v a
        → IsSorted text v b → a ≡ b }
{
    one_lexing();
    binds_or_is_bad();
    modules_are_totally_ordered();
    names_are_totally_ordered();
}

/// Sorting a sorted text changes nothing: it is accepted, and under the same settings it is its own sorted text. If the text
/// isn't skipped, neither is the sorted text. Read as any text is, the sorted text has the blocks of the text back, one for
/// one and in order, each with the statements, items and comments of its layout.
pub fn sorted_texts_stay()
    ensures sorted { (text : List ℕ) (v : Values) (sorted : List ℕ) → IsSorted text v sorted
        → IsSorted sorted v sorted }
    ensures laid { (text : List ℕ) (v : Values) (sorted : List ℕ) → IsLaidOut text v sorted
        → IsLaidOut sorted v sorted }
    ensures read_back { (text : List ℕ) (v : Values) (sorted : List ℕ) → IsSorted text v sorted
        → HasBlocksBack text v sorted }
{
    one_lexing();
    binds_or_is_bad();
    lines_before_a_text();
    neighbours_are_read();
    tokens_are_words();
    words_hold_no_line_end();
    names_are_words();
    imports_of_words_are_named();
    joined_comments_are_read_back();
    written_statements_are_read_back();
    modules_are_totally_ordered();
    names_are_totally_ordered();
}

/// A text that is accepted has a list of blocks. No text has two.
pub fn one_list_of_blocks()
    ensures some { (text : List ℕ) (lines : List LogicalLine) → IsAccepted text lines
        → (blocks : List Block) × AreBlocksOf text blocks }
    ensures one { (text : List ℕ) (a b : List Block) → AreBlocksOf text a → AreBlocksOf text b
        → a ≡ b }
{
    one_lexing();
    binds_or_is_bad();
}

/// Sorting changes nothing outside blocks. The spans of a text's blocks stand in the text one after another, and the
/// sorted text is the text with each of these spans replaced by some text.
pub fn only_blocks_change()
    ensures apart { (text : List ℕ) (blocks : List Block) → AreBlocksOf text blocks
        → StandBetween 0 blocks (length text) }
    ensures rest { (text : List ℕ) (v : Values) (sorted : List ℕ) (blocks : List Block)
        → IsSorted text v sorted → AreBlocksOf text blocks
        → (layouts : List (List ℕ)) × (length layouts ≡ length blocks)
        × (sorted ≡ with_layouts text 0 blocks layouts) }
{
    one_list_of_blocks();
}

//! Laws of the definitions, which the checker proves as contracts.

ghost use Rattle.std.specs.Prelude.{◌≡◌, ◌↔◌, ℕ, IsTrue, Option, Some, List, ◌++◌};
ghost use Rattle.py_lines.specs.WithoutFields.{HasNoFields};
ghost use Rattle.py_lines.specs.declared.fault.Fault.{Fault};
ghost use Rattle.py_imports.specs.BindingValue.{BindingValue};
ghost use Rattle.isort_find.specs.KeyText.{key_in};
ghost use Rattle.isort_find.specs.Cursor.{CursorState, HasStopped};
ghost use Rattle.isort_find.specs.Found.{IsFound, IsPlainFound, BeginsFound};
ghost use Rattle.isort_find.specs.Settled.{IsFoundSettled, DecidesFound};
ghost use Rattle.isort_find.specs.declared.options.FindOptions.{FindOptions};
ghost use Rattle.isort_find.specs.Finder.{FinderState, HasFound, finder_text, options_of};

use crate::key::KeyText;
use py_imports::laws::binds_or_is_bad;
use py_lines::laws::{given_lines_begin_the_text, one_lexing, settled_is_final};

/// Two keys are `==` exactly where they are equal as definitions see them: the text, the attribute and the alias.
/// One that is missing differs from each that is there.
pub fn equal_keys(one: &KeyText, other: &KeyText) -> bool
    ensures { IsTrue result ↔ (key_in one.now ≡ key_in other.now) }
{
    one == other
}

/// What a finder has given, with those that it goes on from, begins what is found in its text: the rest comes after
/// it. So does what was given by then where a finder, over pieces or over the whole text, stops.
pub fn given_begin_the_found()
    ensures begin { (f : FinderState) (values : List BindingValue) → HasFound f values
        → BeginsFound (finder_text f) (options_of f) values }
    ensures stopped { (text : List ℕ) (cursor : CursorState) (values : List BindingValue)
        → HasStopped text cursor values → BeginsFound text cursor.options values }
{
    given_lines_begin_the_text();
    binds_or_is_bad();
}

/// Something is found in every text, and with the same options it is one list, and then the text's end, or one fault:
/// of one kind, at one byte, on one line.
pub fn one_found()
    ensures some { (text : List ℕ) (options : FindOptions)
        → (values : List BindingValue) × (end : Option Fault) × IsFound text options values end }
    ensures one_list { (text : List ℕ) (options : FindOptions) (values others : List BindingValue)
        (end other : Option Fault) → IsFound text options values end
        → IsFound text options others other → values ≡ others }
    ensures one_end { (text : List ℕ) (options : FindOptions) (values others : List BindingValue)
        (end other : Option Fault) → IsFound text options values end
        → IsFound text options others other → end ≡ other }
{
    one_lexing();
    given_lines_begin_the_text();
    binds_or_is_bad();
}

/// What is found in the logical lines that the known bytes of a text settle begins what is found in each text that begins
/// with these bytes. It is there for any bytes, and begins what more bytes settle. The fault of a bad one among these
/// lines is decided. A fault that the known bytes decide is the one that each such text ends in, after the same imports.
pub fn settled_found_is_final()
    ensures some { (text : List ℕ) (options : FindOptions)
        → (values : List BindingValue) × (bad : Option Fault)
        × IsFoundSettled text options values bad }
    ensures grow { (text more : List ℕ) (options : FindOptions) (values later : List BindingValue)
        (bad last : Option Fault) → IsFoundSettled text options values bad
        → IsFoundSettled (text ++ more) options later last
        → (rest : List BindingValue) × (later ≡ values ++ rest) }
    ensures bad { (text : List ℕ) (options : FindOptions)
        (values : List BindingValue) (fault : Fault)
        → IsFoundSettled text options values (Some fault) → DecidesFound text options fault }
    ensures bindings { (text more : List ℕ) (options : FindOptions) (values : List BindingValue)
        (bad : Option Fault) → IsFoundSettled text options values bad
        → BeginsFound (text ++ more) options values }
    ensures fault { (text more : List ℕ) (options : FindOptions) (fault : Fault)
        (values : List BindingValue) (end : Option Fault) → DecidesFound text options fault
        → IsFound (text ++ more) options values end → end ≡ Some fault }
    ensures all { (text more : List ℕ) (options : FindOptions)
        (values : List BindingValue) (fault : Fault)
        → DecidesFound text options fault → IsFound text options values (Some fault)
        → IsFound (text ++ more) options values (Some fault) }
{
    one_lexing();
    given_lines_begin_the_text();
    settled_is_final();
    binds_or_is_bad();
}

/// In any bytes in whose characters neither `f` nor `t`, alone or followed by `r`, stands directly before a quote, the same
/// imports are found, with the same options, whether strings hold fields or not, and then the same end or fault.
pub fn fields_change_nothing_elsewhere()
    ensures found_with { (text : List ℕ) (options : FindOptions) (values : List BindingValue)
        (end : Option Fault) → HasNoFields text → IsPlainFound text options values end
        → IsFound text options values end }
    ensures found_without { (text : List ℕ) (options : FindOptions) (values : List BindingValue)
        (end : Option Fault) → HasNoFields text → IsFound text options values end
        → IsPlainFound text options values end }
{
    py_lines::laws::fields_change_nothing_elsewhere();
}

//! The natural order of texts, in which a number counts by its value, and the classes of names.
ghost use Rattle.std.specs.Prelude.{◌≡◌, ◌==◌, drop, take};
ghost use Rattle.std.specs.Cmp.Lexicographic.{slice_cmp};
ghost use Rattle.std.specs.List.{common_prefix_len, position_or_len, prefix_len, slice_get, suffix_len};
ghost use Rattle.std.specs.Char.{is_ascii_digit};
ghost use Rattle.std.specs.Ordering.{nat_cmp};
ghost use Rattle.std.specs.Str.Parse.{AllDigits, digits_value};
ghost use Rattle.isort_settings.specs.Orders.{cased, class_place, is_constant, natural_cmp, part_cmp, parts};
ghost use Rattle.isort_settings.specs.Orders.NameClasses.{place_of};

use std::cmp::Ordering;

/// The class of a name, in the order in which classes are sorted.
#[derive(Clone, Copy)]
enum NameClass {
    Constant,
    Class,
    Other,
}

impl NameClass {
    /// The class of the name.
    fn of(name: &[u8]) -> NameClass
        ensures { place_of result ≡ class_place name.now }
    {
        if is_constant(name) {
            NameClass::Constant
        } else {
            match name.first() {
                Some(first) if first.is_ascii_uppercase() => NameClass::Class,
                _ => NameClass::Other,
            }
        }
    }
}

/// The order of two names by their classes alone.
pub fn class_cmp(a: &[u8], b: &[u8]) -> Ordering
    ensures { result ≡ nat_cmp (class_place a.now) (class_place b.now) }
{
    (NameClass::of(a) as u8).cmp(&(NameClass::of(b) as u8))
}

/// Whether the name is a constant: two or more characters, an ASCII capital among them and no small ASCII letter.
fn is_constant(name: &[u8]) -> bool
    ensures { result ≡ is_constant name.now }
{
    name.len() >= 2
        && name.iter().any(u8::is_ascii_uppercase)
        && !name.iter().any(u8::is_ascii_lowercase)
}

/// How often the byte stands at the beginning of a text, and what follows.
pub fn split_run(text: &[u8], byte: u8) -> (usize, &[u8])
    ensures count { result.0 ≡ prefix_len (λ b. b == byte) text.now }
    ensures rest { result.1.now ≡ drop (prefix_len (λ b. b == byte) text.now) text.now }
{
    let count = text.iter().position(|b| *b != byte).unwrap_or(text.len());
    (count, text.split_at(count).1)
}

/// The natural order of two texts: numbers by value, the rest by bytes, and ties by the bytes of the whole texts.
pub fn natural_cmp(a: &[u8], b: &[u8], case_sensitive: bool) -> Ordering
    ensures { result ≡ natural_cmp case_sensitive a.now b.now }
{
    let shared = shared_len(a, b);
    let start = shared - digits_at_end(&a[..shared]);
    let (_, a_rest) = a.split_at(start);
    let (_, b_rest) = b.split_at(start);
    match rest_cmp(a_rest, b_rest, case_sensitive) {
        Ordering::Equal => a.cmp(b),
        by_parts => by_parts,
    }
}

/// How many bytes two texts begin with alike.
fn shared_len(a: &[u8], b: &[u8]) -> usize
    ensures { result ≡ common_prefix_len (λ x y. x == y) a.now b.now }
{
    let len = a.len().min(b.len());
    let mut shared = 0;
    'alike: while shared < len && a[shared] == b[shared] {
        shared += 1;
    }
    shared
}

/// How many digits a text ends with.
fn digits_at_end(text: &[u8]) -> usize
    ensures { result ≡ suffix_len is_ascii_digit text.now }
{
    text.iter()
        .rev()
        .position(|b| !b.is_ascii_digit())
        .unwrap_or(text.len())
}

/// The order of two texts by their parts alone, where mostly their first bytes decide.
fn rest_cmp(a: &[u8], b: &[u8], case_sensitive: bool) -> Ordering
    ensures { result
        ≡ slice_cmp part_cmp (parts case_sensitive a.now) (parts case_sensitive b.now) }
{
    let a_first = first_of_text(a, case_sensitive);
    let b_first = first_of_text(b, case_sensitive);
    match a_first.cmp(&b_first) {
        Ordering::Equal => parts_cmp(a, b, case_sensitive),
        by_first => by_first,
    }
}

/// The first byte of a text as it is compared, unless the text begins with a digit.
fn first_of_text(text: &[u8], case_sensitive: bool) -> Option<u8>
    ensures { result
        ≡ slice_get
        (cased case_sensitive (take (position_or_len is_ascii_digit text.now) text.now)) 0 }
{
    match text.first() {
        Some(first) if first.is_ascii_digit() => None,
        Some(first) if case_sensitive => Some(*first),
        Some(first) => Some(first.to_ascii_lowercase()),
        None => None,
    }
}

/// The order of two texts by their parts alone: text, number, text, number and so on.
fn parts_cmp(a: &[u8], b: &[u8], case_sensitive: bool) -> Ordering
    ensures { result
        ≡ slice_cmp part_cmp (parts case_sensitive a.now) (parts case_sensitive b.now) }
{
    let mut a_left = a;
    let mut b_left = b;
    loop {
        let (a_text, a_rest) = split_text(a_left);
        let (b_text, b_rest) = split_text(b_left);
        let by_text = text_cmp(a_text, b_text, case_sensitive);
        if by_text.is_ne() {
            return by_text;
        }
        if a_rest.is_empty() || b_rest.is_empty() {
            return a_rest.len().cmp(&b_rest.len());
        }
        let (a_digits, a_after) = split_number(a_rest);
        let (b_digits, b_after) = split_number(b_rest);
        let by_number = number_cmp(a_digits, b_digits);
        if by_number.is_ne() {
            return by_number;
        }
        a_left = a_after;
        b_left = b_after;
    }
}

/// What stands before the first digit of a text, and the rest.
fn split_text(text: &[u8]) -> (&[u8], &[u8])
    ensures before { result.0.now ≡ take (position_or_len is_ascii_digit text.now) text.now }
    ensures rest { result.1.now ≡ drop (position_or_len is_ascii_digit text.now) text.now }
{
    let start = text
        .iter()
        .position(u8::is_ascii_digit)
        .unwrap_or(text.len());
    text.split_at(start)
}

/// The digits that a text begins with, and the rest.
fn split_number(text: &[u8]) -> (&[u8], &[u8])
    ensures digits { result.0.now ≡ take (prefix_len is_ascii_digit text.now) text.now }
    ensures rest { result.1.now ≡ drop (prefix_len is_ascii_digit text.now) text.now }
{
    let end = text
        .iter()
        .position(|b| !b.is_ascii_digit())
        .unwrap_or(text.len());
    text.split_at(end)
}

/// The order of two texts by their bytes, with ASCII capitals as small letters unless the case counts.
fn text_cmp(a: &[u8], b: &[u8], case_sensitive: bool) -> Ordering
    ensures { result ≡ slice_cmp nat_cmp (cased case_sensitive a.now) (cased case_sensitive b.now) }
{
    if case_sensitive {
        a.cmp(b)
    } else {
        a.iter()
            .map(u8::to_ascii_lowercase)
            .cmp(b.iter().map(u8::to_ascii_lowercase))
    }
}

/// The order of two numbers, each given by its digits, of any length.
fn number_cmp(a: &[u8], b: &[u8]) -> Ordering
    requires digits_a { AllDigits 10 a.now }
    requires digits_b { AllDigits 10 b.now }
    ensures { result ≡ nat_cmp (digits_value 10 a.now) (digits_value 10 b.now) }
{
    let (_, a_digits) = split_run(a, b'0');
    let (_, b_digits) = split_run(b, b'0');
    match a_digits.len().cmp(&b_digits.len()) {
        Ordering::Equal => a_digits.cmp(b_digits),
        by_length => by_length,
    }
}

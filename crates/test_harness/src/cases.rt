//! Tables of cases. A table is a `static`: the value of a `const` stands in each function that names it, where long texts are slow to
//! prove. A test gives all of its tables to one call.
use isort_settings::{Profile, Settings, SettingsError};
use std::alloc::Global;
use std::fmt::Display;
use std::test::Fail;

/// A row of a test's table.
pub trait Case {
    /// Whether what the row says is so. Where a call fails that has to go well, it isn't.
    fn holds(&self, alloc: Global) -> bool;
}

/// How many bytes are asked for to learn whether a growth was refused. Nothing else asks for as many.
const ASKED: usize = 65_521;

/// Whether a growth was refused since this was asked last: only then may a call answer that memory ran out, and is it made
/// again. `rt ci` refuses none, and grants these bytes. checks/gate/memory refuses each growth in turn, and these bytes once
/// after it.
pub fn was_refused(alloc: Global) -> bool {
    String::with_capacity(alloc, ASKED).is_err()
}

/// Every row of the table holds. One that doesn't is told by the name of the table, and by its place from 0 on. If `again` says so, it
/// is tried once more before that where a growth was refused: the same calls then have to answer as with ample memory.
fn all_hold<C: Case>(alloc: Global, table: &str, cases: &[C], again: bool) -> Result<(), Fail> {
    for (i, case) in cases.iter().enumerate() {
        if !case.holds(alloc) && !(again && was_refused(alloc) && case.holds(alloc)) {
            return Err(Fail::new(format_args!("row {i} of {table} does not hold")));
        }
    }
    Ok(())
}

/// Every row of each table holds so, which stands here after its name.
fn all_hold_in_each<C: Case>(
    alloc: Global,
    tables: &[(&str, &[C])],
    again: bool,
) -> Result<(), Fail> {
    for (table, cases) in tables {
        all_hold(alloc, table, cases, again)?;
    }
    Ok(())
}

/// Every row of each table holds, which stands here after its name.
pub fn each_holds<C: Case>(alloc: Global, tables: &[(&str, &[C])]) -> Result<(), Fail> {
    all_hold_in_each(alloc, tables, false)
}

/// Every row of each table holds, which stands here after its name. One that doesn't is tried once more, as above.
pub fn each_holds_again<C: Case>(alloc: Global, tables: &[(&str, &[C])]) -> Result<(), Fail> {
    all_hold_in_each(alloc, tables, true)
}

/// A row of a test's table that is tried under settings.
pub trait SettingsCase {
    /// Lines of `[tool.isort]`, which make the settings: none for those without a profile.
    fn lines(&self) -> &str {
        ""
    }

    /// Whether what the row says is so. Where a call fails that has to go well, it isn't.
    fn holds_under(&self, alloc: Global, settings: &Settings) -> bool;
}

/// A text of settings: these lines of `[tool.isort]`.
pub fn table_of(alloc: Global, lines: &str) -> Option<String> {
    format!(in alloc; "[tool.isort]\n{lines}").ok()
}

/// The settings of these lines of `[tool.isort]`.
fn settings_of(alloc: Global, lines: &str) -> Option<Settings> {
    let table = table_of(alloc, lines)?;
    let (settings, _) = Settings::from_pyproject(alloc, table.as_bytes(), None).ok()?;
    Some(settings)
}

/// Why the settings of a text are refused, if they are.
pub fn refusal(alloc: Global, text: &[u8], profile: Option<Profile>) -> Option<SettingsError> {
    Settings::from_pyproject(alloc, text, profile).err()
}

/// Whether a row holds under its settings.
fn holds_so<C: SettingsCase>(alloc: Global, case: &C) -> bool {
    match settings_of(alloc, case.lines()) {
        Some(settings) => case.holds_under(alloc, &settings),
        None => false,
    }
}

/// Every row of the table holds under its settings. One that doesn't is tried once more, as above.
fn all_hold_so<C: SettingsCase>(alloc: Global, table: &str, cases: &[C]) -> Result<(), Fail> {
    for (i, case) in cases.iter().enumerate() {
        if !holds_so(alloc, case) && !(was_refused(alloc) && holds_so(alloc, case)) {
            return Err(Fail::new(format_args!("row {i} of {table} does not hold")));
        }
    }
    Ok(())
}

/// Every row of each table holds under its settings, as above.
pub fn each_holds_under_settings<C: SettingsCase>(
    alloc: Global,
    tables: &[(&str, &[C])],
) -> Result<(), Fail> {
    for (table, cases) in tables {
        all_hold_so(alloc, table, cases)?;
    }
    Ok(())
}

/// More bytes than a row tells.
const ROOM: usize = 8192;

/// An empty text that doesn't grow while a row is told. Its one growth is asked for again if it is refused.
pub fn page(alloc: Global) -> String {
    match String::with_capacity(alloc, ROOM) {
        Ok(page) => page,
        Err(_) => match String::with_capacity(alloc, ROOM) {
            Ok(page) => page,
            Err(_) => String::new(alloc),
        },
    }
}

/// Whether this is how it is shown.
pub fn is_shown<E: Display>(alloc: Global, shown: &E, want: &str) -> bool {
    match format!(in alloc; "{shown}") {
        Ok(text) => text.as_str() == want,
        Err(_) => false,
    }
}

/// Each of these is so.
pub fn all_are_so(facts: &[bool]) -> Result<(), Fail> {
    for (i, is_so) in facts.iter().enumerate() {
        if !*is_so {
            return Err(Fail::new(format_args!("fact {i} is not so")));
        }
    }
    Ok(())
}

/// Whether these are the texts.
pub fn are_texts(texts: &[String], wanted: &[&str]) -> bool {
    if texts.len() != wanted.len() {
        return false;
    }
    for i in 0..wanted.len() {
        if texts[i].as_str() != wanted[i] {
            return false;
        }
    }
    true
}

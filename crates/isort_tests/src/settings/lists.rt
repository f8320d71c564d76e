//! Lists of modules that are made from a `Vec`, and given back.
use isort_settings::{Modules, OwnLists, Settings};
use std::alloc::Global;
use std::test::Fail;
use test_harness::cases::{all_are_so, are_texts, was_refused};

static TABLE: &[u8] = b"[tool.isort]
sections = [\"A\", \"B\"]
known_a = [\"x.y\", \"x\"]
known_first_party = [\"m.n\", \"o\"]
";

/// A list of these modules.
pub(crate) fn list_of(alloc: Global, names: &[&str]) -> Option<Vec<String>> {
    let mut list = Vec::new(alloc);
    for name in names {
        list.push(String::from_str(alloc, name).ok()?).ok()?;
    }
    Some(list)
}

/// The own lists of the table.
fn lists_of_table(alloc: Global) -> Option<Vec<Vec<String>>> {
    let mut lists = Vec::new(alloc);
    lists.push(list_of(alloc, &["x.y", "x"])?).ok()?;
    lists.push(Vec::new(alloc)).ok()?;
    Some(lists)
}

/// Whether these are the own lists of the table.
fn are_of_table(lists: &[Vec<String>]) -> bool {
    match lists {
        [first, second] => are_texts(first, &["x.y", "x"]) && second.is_empty(),
        _ => false,
    }
}

/// Whether own lists that are made of the table's are those that were read, and give their `Vec` back.
fn are_own_lists(alloc: Global, lists: Vec<Vec<String>>, read: &OwnLists) -> bool {
    let made = OwnLists::from(lists);
    made == *read
        && OwnLists::from(Vec::new(alloc)) != made
        && are_of_table(made.into_lists().as_slice())
}

/// Whether a list with an index has its modules, and gives its `Vec` back.
fn gives_back(list: Modules) -> bool {
    match list {
        Modules::Indexed(list) => {
            let is_read = are_texts(list.modules(), &["m.n", "o"]);
            let given = list.into_modules();
            is_read && are_texts(given.as_slice(), &["m.n", "o"])
        }
        _other => false,
    }
}

/// Whether all lists of the table are given back.
fn are_given_back(alloc: Global) -> Option<bool> {
    let lists = lists_of_table(alloc)?;
    let (settings, _) = Settings::from_pyproject(alloc, TABLE, None).ok()?;
    let are_own = are_own_lists(alloc, lists, &settings.own_lists);
    Some(gives_back(settings.known_first_party) && are_own)
}

#[test]
fn lists_from_a_vec_and_back(rt: HostRuntime) -> Result<(), Fail> {
    let alloc = rt.alloc();
    all_are_so(&[
        are_given_back(alloc) == Some(true)
            || was_refused(alloc) && are_given_back(alloc) == Some(true),
    ])
}

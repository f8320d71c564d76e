//! Finding the imports of a whole text, and going on from a cursor.
use crate::find::acts::{begun, resumed, tell_import, tell_place};
use isort_find::laws::equal_keys;
use isort_find::{Cursor, FindOptions, Finder, ImportKey, KeyText, ResumeError, key_of};
use py_imports::Binding;
use std::alloc::Global;
use std::test::Fail;
use test_harness::cases::{Case, all_are_so, each_holds, each_holds_again, page, was_refused};
use test_harness::options::{ALL, ATTRIBUTES, MODULES, PACKAGES, TOP, UNIQUE};
use test_harness::texts::{ALIKE, DECLARED};

/// So many answers, each on a line of its own, and where the finder stops after them.
fn tell_some(alloc: Global, mut finder: Finder<'_>, answers: usize, out: &mut String) -> Cursor {
    for _ in 0..answers {
        tell_import(alloc, &mut finder, "end\n", out);
    }
    let cursor = finder.stop();
    tell_place(&cursor, out);
    cursor
}

/// A text, the options, how many answers are told before each stop, and what is told. A finder goes on from where the one
/// before it stopped.
struct Story(&'static [u8], FindOptions, &'static [usize], &'static str);

impl Story {
    /// Tells all that, or gives up where there is no finder.
    fn tell(&self, alloc: Global, out: &mut String) -> Option<()> {
        let mut finder = begun(alloc, self.0, self.1)?;
        for answers in self.2 {
            let cursor = tell_some(alloc, finder, *answers, out);
            finder = resumed(alloc, self.0, cursor)?;
        }
        Some(())
    }
}

impl Case for Story {
    fn holds(&self, alloc: Global) -> bool {
        let mut out = page(alloc);
        self.tell(alloc, &mut out).is_some() && out.as_str() == self.3
    }
}

static STORIES: &[Story] = &[
    // The first import of each key is given.
    Story(
        ALIKE,
        PACKAGES,
        &[1, 2],
        "1 import a.b\nat 0, 1\n3 from .a import d\nend\nat 65, 2\n",
    ),
    Story(
        ALIKE,
        MODULES,
        &[2, 2],
        "1 import a.b\n2 from a import c\nat 11, 2\n3 from .a import d\nend\nat 65, 3\n",
    ),
    Story(
        ALIKE,
        ATTRIBUTES,
        &[2, 2],
        "1 import a.b\n2 from a import c\nat 11, 2\n3 from .a import d\nend\nat 65, 3\n",
    ),
    Story(
        ALIKE,
        UNIQUE,
        &[3, 2],
        "1 import a.b\n2 from a import c\n3 from .a import d\nat 27, 3\n4 from a import c as e\nend\nat 65, 4\n",
    ),
];

/// Later imports of a key are dropped.
static DROPPED: &[Story] = &[
    Story(
        b"import a, b, a as c\nimport b.c\n",
        MODULES,
        &[2, 2],
        "1 import a\n1 import b\nat 0, 2\n2 import b.c\nend\nat 31, 3\n",
    ),
    Story(
        b"import a\nimport a, b\nimport b\n",
        MODULES,
        &[1, 2],
        "1 import a\nat 0, 1\n2 import b\nend\nat 30, 2\n",
    ),
    Story(
        b"import a\nimport b, a, c, b, d\nimport a, e\n",
        MODULES,
        &[3, 3],
        "1 import a\n2 import b\n2 import c\nat 9, 3\n2 import d\n3 import e\nend\nat 42, 5\n",
    ),
    Story(b"", MODULES, &[2, 1], "end\nend\nat 0, 0\nend\nat 0, 0\n"),
    Story(
        b"\xef\xbb\xbf",
        MODULES,
        &[2, 1],
        "end\nend\nat 3, 0\nend\nat 3, 0\n",
    ),
];

/// Texts that end at the top, or in a fault.
static FAULTS: &[Story] = &[
    // The finder stops at the top if it is asked to.
    Story(
        DECLARED,
        TOP,
        &[4, 1],
        "1 import a\n4 indented import b\nend\nend\nat 46, 2\nend\nat 46, 2\n",
    ),
    Story(
        DECLARED,
        ALL,
        &[4, 1],
        "1 import a\n4 indented import b\nF6 bracket not closed, 53, 6\nF6 bracket not closed, 53, 6\n\
         at 49, 2\nF6 bracket not closed, 53, 6\nat 49, 2\n",
    ),
    // A fault is told again and again.
    Story(
        b"import a\nimport b\nx = (1,",
        TOP,
        &[3, 1],
        "1 import a\n2 import b\nF6 bracket not closed, 22, 3\nat 18, 2\nF6 bracket not closed, 22, 3\nat 18, 2\n",
    ),
];

/// Faults of imports, bytes and brackets.
static MORE_FAULTS: &[Story] = &[
    Story(
        b"import a\nfrom b import c,\n",
        TOP,
        &[3, 1],
        "1 import a\nF9 import statement not understood, 9, 2\nF9 import statement not understood, 9, 2\n\
         at 9, 1\nF9 import statement not understood, 9, 2\nat 9, 1\n",
    ),
    Story(
        b"import a\n\xef\xbb\xbf",
        TOP,
        &[3, 1],
        "1 import a\nF2 unexpected character, 9, 2\nF2 unexpected character, 9, 2\nat 9, 1\n\
         F2 unexpected character, 9, 2\nat 9, 1\n",
    ),
    Story(
        b"import a\ndef f(): x = )\n",
        TOP,
        &[3, 1],
        "1 import a\nF5 closing bracket without its opening, 22, 2\n\
         F5 closing bracket without its opening, 22, 2\nat 9, 1\n\
         F5 closing bracket without its opening, 22, 2\nat 9, 1\n",
    ),
];

/// Stops inside a line and after each import.
static STOPS: &[Story] = &[
    // The finder goes on inside a line.
    Story(
        b"import a, b, c",
        ALL,
        &[2, 2],
        "1 import a\n1 import b\nat 0, 2\n1 import c\nend\nat 14, 3\n",
    ),
    // It is asked one by one.
    Story(
        b"import a, b, c",
        ATTRIBUTES,
        &[0, 1, 1, 1, 1],
        "at 0, 0\n1 import a\nat 0, 1\n1 import b\nat 0, 2\n1 import c\nat 0, 3\nend\nat 14, 3\n",
    ),
    Story(
        ALIKE,
        ATTRIBUTES,
        &[0, 1, 1, 1, 1],
        "at 0, 0\n1 import a.b\nat 0, 1\n2 from a import c\nat 11, 2\n3 from .a import d\nat 27, 3\nend\nat 65, 3\n",
    ),
    Story(
        b"import a\nimport b\nx = (1,",
        ATTRIBUTES,
        &[0, 1, 1, 1],
        "at 0, 0\n1 import a\nat 0, 1\n2 import b\nat 9, 2\nF6 bracket not closed, 22, 3\nat 18, 2\n",
    ),
];

/// A text, how many answers of it are told, a shorter text, which its cursor is refused for, and what is told.
struct Short(&'static [u8], usize, &'static [u8], &'static str);

impl Short {
    /// Tells the cursor that comes back, and gives why.
    fn refusal(&self, alloc: Global, out: &mut String) -> Option<ResumeError> {
        let finder = begun(alloc, self.0, ALL)?;
        let cursor = tell_some(alloc, finder, self.1, out);
        let (cursor, error) = Finder::resume(alloc, self.2, cursor).err()?;
        tell_place(&cursor, out);
        Some(error)
    }
}

impl Case for Short {
    fn holds(&self, alloc: Global) -> bool {
        let mut out = String::new(alloc);
        let refusal = self.refusal(alloc, &mut out);
        refusal == Some(ResumeError::TextTooShort) && out.as_str() == self.3
    }
}

static SHORT: &[Short] = &[Short(
    b"import a, b, c",
    4,
    b"import a",
    "1 import a\n1 import b\n1 import c\nend\nat 14, 3\nat 14, 3\n",
)];

/// Whether a cursor that stopped at once has its finder's options.
fn keeps(alloc: Global, asked: FindOptions) -> bool {
    match Finder::new(alloc, b"import a", asked) {
        Ok(finder) => finder.stop().options() == asked,
        Err(_) => false,
    }
}

const ASKED_FOR: FindOptions = FindOptions {
    unique: Some(ImportKey::Alias),
    top_only: true,
};

/// The first import of a text.
fn first_of(alloc: Global, text: &str) -> Option<Binding> {
    let mut finder = begun(alloc, text.as_bytes(), ALL)?;
    finder.next_import().ok().flatten()
}

/// The key of the first import of a text.
fn first_key(alloc: Global, text: &str, key: ImportKey) -> Option<KeyText> {
    let binding = first_of(alloc, text)?;
    key_of(alloc, &binding, key).ok()
}

/// Two statements, a key, and whether their imports have one such key.
struct Keys(&'static str, &'static str, ImportKey, bool);

impl Keys {
    /// Whether the imports of the two statements have one key.
    fn are_equal(&self, alloc: Global) -> Option<bool> {
        let one = first_key(alloc, self.0, self.2)?;
        let other = first_key(alloc, self.1, self.2)?;
        Some(equal_keys(&one, &other))
    }
}

impl Case for Keys {
    fn holds(&self, alloc: Global) -> bool {
        self.are_equal(alloc) == Some(self.3)
    }
}

static KEYS: &[Keys] = &[
    Keys(
        "from ..x.y import z",
        "from ..x import w",
        ImportKey::Package,
        true,
    ),
    Keys(
        "from ..x import w",
        "from .x import w",
        ImportKey::Package,
        false,
    ),
    Keys(
        "from . import z",
        "from .z import z",
        ImportKey::Package,
        false,
    ),
    Keys(
        "from . import z",
        "from . import y",
        ImportKey::Package,
        true,
    ),
];

/// Keys of modules, attributes and aliases.
static MORE_KEYS: &[Keys] = &[
    Keys("import a.b", "import a", ImportKey::Package, true),
    Keys("import a.b", "import a", ImportKey::Module, false),
    Keys("import a as b", "from a import b", ImportKey::Module, true),
    Keys(
        "import a as b",
        "from a import b",
        ImportKey::Attribute,
        false,
    ),
    Keys(
        "from . import z",
        "from . import z as y",
        ImportKey::Attribute,
        true,
    ),
    Keys(
        "from . import z",
        "from . import z as y",
        ImportKey::Alias,
        false,
    ),
    Keys("import a as b", "import a as b", ImportKey::Alias, true),
];

#[test]
fn tells_stories_refuses_short_texts_and_makes_keys(rt: HostRuntime) -> Result<(), Fail> {
    let alloc = rt.alloc();
    each_holds(
        alloc,
        &[
            ("STORIES", STORIES),
            ("DROPPED", DROPPED),
            ("FAULTS", FAULTS),
            ("MORE_FAULTS", MORE_FAULTS),
            ("STOPS", STOPS),
        ],
    )?;
    each_holds_again(alloc, &[("SHORT", SHORT)])?;
    each_holds_again(alloc, &[("KEYS", KEYS), ("MORE_KEYS", MORE_KEYS)])?;
    all_are_so(&[keeps(alloc, ASKED_FOR) || was_refused(alloc) && keeps(alloc, ASKED_FOR)])
}

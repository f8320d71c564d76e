//! What logical lines bind, and what is said of them and of comments.
use crate::told::tell_binding;
use py_imports::{
    ActionComment, Binding, ImportError, Shape, bindings_of, is_declaration, mark_len, says, shape,
};
use py_lines::{Fault, FaultKind, Lines, Unit};
use std::alloc::Global;
use std::test::Fail;
use test_harness::cases::{Case, each_holds_again};

/// Whether a copy of the binding is equal to it.
fn is_copied(alloc: Global, binding: &Binding) -> bool {
    match binding.copy(alloc) {
        Ok(copy) => copy == *binding,
        Err(_) => false,
    }
}

/// Lists bindings: whether each has a copy that is equal to it.
fn list_bindings(alloc: Global, bindings: &[Binding], out: &mut String) -> bool {
    for binding in bindings {
        if !is_copied(alloc, binding) {
            return false;
        }
        tell_binding(alloc, binding, out);
    }
    true
}

/// Lists what a logical line binds: whether it has no fault, and its bindings have copies.
fn list_unit(alloc: Global, unit: &Unit<'_>, out: &mut String) -> bool {
    match bindings_of(alloc, unit) {
        Ok(bindings) => list_bindings(alloc, bindings.as_slice(), out),
        Err(_) => false,
    }
}

/// Lists what the next logical line binds, if there is one: whether it has no fault.
fn list_next(alloc: Global, lines: &mut Lines<'_>, out: &mut String) -> bool {
    match lines.next_unit() {
        Ok(Some(unit)) => list_unit(alloc, &unit, out),
        Ok(None) => true,
        Err(_) => false,
    }
}

/// Whether the next logical lines, so many, bind this, listed.
fn list_so(alloc: Global, lines: &mut Lines<'_>, most: usize, want: &str) -> bool {
    let mut out = String::new(alloc);
    for _ in 0..most {
        if !list_next(alloc, lines, &mut out) {
            return false;
        }
    }
    out.as_str() == want
}

/// A text, and what its logical lines bind, listed.
struct Listed(&'static str, &'static str);

impl Case for Listed {
    fn holds(&self, alloc: Global) -> bool {
        match Lines::new(alloc, self.0.as_bytes()) {
            Ok(mut lines) => list_so(alloc, &mut lines, self.0.len(), self.1),
            Err(_) => false,
        }
    }
}

/// What is said of a text's first logical line.
#[derive(Clone, Copy)]
enum Said {
    /// Its bindings are refused with F9 at this byte.
    Refused(u64),
    /// It is a declaration, or not.
    Declaration(bool),
    /// It has this shape.
    Shaped(Shape),
    /// It begins with so many bytes of a byte order mark.
    Marked(usize),
}

/// Whether a logical line is refused with F9 at this byte.
fn is_refused(alloc: Global, unit: &Unit<'_>, offset: u64) -> bool {
    let fault = Fault {
        kind: FaultKind::BadImport,
        offset,
        line: 1,
    };
    bindings_of(alloc, unit).err() == Some(ImportError::Fault(fault))
}

impl Said {
    /// Whether it is so of a logical line.
    fn is_so(self, alloc: Global, unit: &Unit<'_>) -> bool {
        match self {
            Said::Refused(offset) => is_refused(alloc, unit, offset),
            Said::Declaration(is_declared) => is_declaration(unit) == is_declared,
            Said::Shaped(wanted) => shape(unit) == wanted,
            Said::Marked(len) => mark_len(unit) == len,
        }
    }

    /// Whether it is so of the next logical line.
    fn is_so_of_next(self, alloc: Global, lines: &mut Lines<'_>) -> bool {
        match lines.next_unit() {
            Ok(Some(unit)) => self.is_so(alloc, &unit),
            _ => false,
        }
    }
}

/// A text, and what is said of its first logical line.
struct First(&'static str, Said);

impl Case for First {
    fn holds(&self, alloc: Global) -> bool {
        match Lines::new(alloc, self.0.as_bytes()) {
            Ok(mut lines) => self.1.is_so_of_next(alloc, &mut lines),
            Err(_) => false,
        }
    }
}

static BINDINGS: &[Listed] = &[
    Listed(
        "from ... import x, y as z",
        "1 from ... import x\n1 from ... import y as z\n",
    ),
    Listed("class C: from a import b as c", "1 from a import b as c\n"),
    Listed(
        "from a import (b); import c.d",
        "1 from a import b\n1 import c.d\n",
    ),
    Listed("x = {1: import_, 2: [a, b]}", ""),
    Listed("import os, sys as s", "1 import os\n1 import sys as s\n"),
    Listed(
        "from a import (  # k\n    b as x,  # l\n    c,\n)\n",
        "1 from a import b as x\n1 from a import c\n",
    ),
    Listed(
        "x = 1 + \\\r\n  2\r\nfrom . .x import y\r\n",
        "3 from ..x import y\n",
    ),
];

/// Bindings after other statements, and several in a line.
static MORE_BINDINGS: &[Listed] = &[
    Listed(
        "if a: import b; from c import *\nraise X from Y\nz = yield from w\n",
        "1 import b\n1 from c import *\n",
    ),
    Listed("if a:\n    import b\n", "2 indented import b\n"),
    Listed(
        "import a.b\nfrom a import c\nfrom .a import d\nfrom a import c as e\n",
        "1 import a.b\n2 from a import c\n3 from .a import d\n4 from a import c as e\n",
    ),
    Listed("x[1:import_]; y = {a: 1}; import b", "1 import b\n"),
    Listed("(\n# c\n); import b", "3 import b\n"),
    Listed(";import a", "1 import a\n"),
    Listed("import match, type", "1 import match\n1 import type\n"),
    Listed(
        "import os, sys as s\nfrom . import a, b as c\n",
        "1 import os\n1 import sys as s\n2 from . import a\n2 from . import b as c\n",
    ),
];

const DECLARATION: Said = Said::Declaration(true);

const NO_DECLARATION: Said = Said::Declaration(false);

const SORTABLE: Said = Said::Shaped(Shape::Sortable);

const PINNED: Said = Said::Shaped(Shape::Pinned);

const OTHER: Said = Said::Shaped(Shape::Other);

/// Lines with a byte order mark, and without one.
static MARKED: &[First] = &[
    First("\u{feff}import a", Said::Marked(3)),
    First("import a", Said::Marked(0)),
];

/// Import statements that are none.
static REFUSED: &[First] = &[
    First("from a import ()", Said::Refused(0)),
    First("from a import (*)", Said::Refused(0)),
    First("from a import b,", Said::Refused(0)),
    First("import .a", Said::Refused(0)),
    First("import a as b.c", Said::Refused(0)),
    First("import a,", Said::Refused(0)),
    First("from a import if", Said::Refused(0)),
    First("import a; import\n", Said::Refused(10)),
    First("from b import c,\n", Said::Refused(0)),
];

/// Statements with `from` that are none.
static BAD_FROM: &[First] = &[
    First("from import a", Said::Refused(0)),
    First("from a b", Said::Refused(0)),
    First("from a. import b", Said::Refused(0)),
    First("from .a. import b", Said::Refused(0)),
    First("from a import b c", Said::Refused(0)),
    First("from a import b.c", Said::Refused(0)),
    First("from a import (b; c)", Said::Refused(0)),
    First("from a import (b,,)", Said::Refused(0)),
];

/// Bad names, and bad statements after others.
static BAD_NAMES: &[First] = &[
    First("from a import (b) c", Said::Refused(0)),
    First("from a import *, b", Said::Refused(0)),
    First("from a import b as", Said::Refused(0)),
    First("from a import b as 1", Said::Refused(0)),
    First("import a: b", Said::Refused(0)),
    First("import 1", Said::Refused(0)),
    First("import", Said::Refused(0)),
    First("import as", Said::Refused(0)),
    First("if a: import b; from c", Said::Refused(16)),
];

/// Declarations, and lines that are none.
static DECLARATIONS: &[First] = &[
    First("def f(): pass", DECLARATION),
    First("class C: pass", DECLARATION),
    First("@d", DECLARATION),
    First("async def f(): pass", DECLARATION),
    First("async with a: pass", NO_DECLARATION),
    First("async", NO_DECLARATION),
];

/// Lines that are none.
static NO_DECLARATIONS: &[First] = &[
    First("  def f(): pass", NO_DECLARATION),
    First("\u{c}def f(): pass", NO_DECLARATION),
    First("define", NO_DECLARATION),
    First("x = def_", NO_DECLARATION),
    First("# def", NO_DECLARATION),
    First("\n", NO_DECLARATION),
    First("if a: def_", NO_DECLARATION),
];

/// Lines that may be sorted.
static SORTABLES: &[First] = &[
    First("import a", SORTABLE),
    First("  import a\n", SORTABLE),
    First("\u{feff}import a", SORTABLE),
    First("\u{feff}  import a", SORTABLE),
    First("from a import (  # k\n    b,\n)\n", SORTABLE),
    First("import a  # isort: skip_file", SORTABLE),
];

/// Lines over several physical lines, and with comments.
static MORE_SORTABLES: &[First] = &[
    First("import a  # isort:  skip", SORTABLE),
    First("import a, \\\n b", SORTABLE),
    First("from . import *", SORTABLE),
    First("from a import (b)  # k", SORTABLE),
    First("from a import (b)  # skip", SORTABLE),
];

/// Lines that stay where they are.
static PINNED_LINES: &[First] = &[
    First(
        "from a import (  # k\n    b as x,  # l\n    c,\n)\n",
        PINNED,
    ),
    First("from a import (\n    # k\n    # l\n    b)\n", PINNED),
    First("import a; import b", PINNED),
    First("import a;", PINNED),
    First("import a  # isort: skip", PINNED),
    First("import a  # isort:skip", PINNED),
    First("from a import (  # isort: skip\n    b,\n)\n", PINNED),
    First("\\\nimport a", PINNED),
    First("from a import b,", PINNED),
];

/// Lines that are no import statement alone.
static OTHER_LINES: &[First] = &[
    First("x = 1", OTHER),
    First("if a: import b", OTHER),
    First("# import a", OTHER),
    First("\n", OTHER),
];

/// A comment, an action, and whether the comment says it.
struct Saying(&'static str, ActionComment, bool);

impl Case for Saying {
    fn holds(&self, _alloc: Global) -> bool {
        says(self.0, self.1) == self.2
    }
}

static ACTIONS: &[Saying] = &[
    Saying("# isort: skip_file", ActionComment::SkipFile, true),
    Saying("# isort: skip_file", ActionComment::Skip, false),
    Saying("# isort:skip", ActionComment::Skip, true),
    Saying("# isort:  skip", ActionComment::Skip, false),
    Saying("# isort: skip!", ActionComment::Skip, true),
    Saying("# isort: skips isort: skip", ActionComment::Skip, true),
];

/// Other actions, and comments that say none.
static MORE_ACTIONS: &[Saying] = &[
    Saying("# isort: off", ActionComment::Off, true),
    Saying("# isort: on", ActionComment::On, true),
    Saying("# isort: one", ActionComment::On, false),
    Saying("# isort:split\u{e9}", ActionComment::Split, true),
    Saying("# Isort: on", ActionComment::On, false),
    Saying("", ActionComment::On, false),
];

#[test]
fn gives_bindings_and_says_of_lines_and_comments(rt: HostRuntime) -> Result<(), Fail> {
    let alloc = rt.alloc();
    each_holds_again(
        alloc,
        &[("BINDINGS", BINDINGS), ("MORE_BINDINGS", MORE_BINDINGS)],
    )?;
    each_holds_again(
        alloc,
        &[
            ("MARKED", MARKED),
            ("REFUSED", REFUSED),
            ("BAD_FROM", BAD_FROM),
            ("BAD_NAMES", BAD_NAMES),
            ("DECLARATIONS", DECLARATIONS),
            ("NO_DECLARATIONS", NO_DECLARATIONS),
            ("SORTABLES", SORTABLES),
            ("MORE_SORTABLES", MORE_SORTABLES),
            ("PINNED_LINES", PINNED_LINES),
            ("OTHER_LINES", OTHER_LINES),
        ],
    )?;
    each_holds_again(
        alloc,
        &[("ACTIONS", ACTIONS), ("MORE_ACTIONS", MORE_ACTIONS)],
    )
}

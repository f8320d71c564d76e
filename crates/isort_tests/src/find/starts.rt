//! Where import statements start, and where they don't, in lines that may be passed over.
use crate::find::pieces::Row;
use std::test::Fail;
use test_harness::cases::each_holds;
use test_harness::options::ALL;

static STARTS: &[Row] = &[
    // After `;` and `:`.
    Row(
        b"x = 1\ny = 2; import b\nz = 3\n",
        ALL,
        "2 import b\nend\nat 28, 1\n",
    ),
    Row(
        b"x = 1\nif x: import b\nelse: from c import d\n",
        ALL,
        "2 import b\n3 from c import d\nend\nat 43, 2\n",
    ),
    // After a join.
    Row(
        b"x = 1\nif x: \\\n  import b\ny = 2\n",
        ALL,
        "3 import b\nend\nat 31, 1\n",
    ),
    Row(b"x = 1\n\\\nimport b\n", ALL, "3 import b\nend\nat 17, 1\n"),
    // After a comment in brackets, and after `:` in brackets, which starts no statement.
    Row(
        b"x = 1\ny = (1, # import z\n  2); import b\n",
        ALL,
        "3 import b\nend\nat 40, 1\n",
    ),
    Row(
        b"x = 1\ny = {1:\n importer}\nimport b\n",
        ALL,
        "4 import b\nend\nat 34, 1\n",
    ),
];

/// After a string, and where no statement starts.
static NO_STARTS: &[Row] = &[
    // After a string, and in one.
    Row(
        b"x = 1\n\"\"\"a\nimport z\n\"\"\"; import b\n",
        ALL,
        "4 import b\nend\nat 34, 1\n",
    ),
    Row(
        b"x = 1\n\"\"\"to import z from y\n\"\"\"\nimport b\n",
        ALL,
        "4 import b\nend\nat 41, 1\n",
    ),
    // After other code, where both words start no statement.
    Row(
        b"x = 1\nraise x from y\nz = yield from x\nfrom b import c\n",
        ALL,
        "4 from b import c\nend\nat 54, 1\n",
    ),
    // In longer words.
    Row(
        b"x = 1\nimport_a = fromage\ny = a.important; z = 1\nimport b\n",
        ALL,
        "4 import b\nend\nat 57, 1\n",
    ),
];

/// After marks, line ends and blanks.
static LINE_STARTS: &[Row] = &[
    // After a byte order mark, CR, a form feed and a tab.
    Row(
        b"\xef\xbb\xbfimport a\nx = 1\nimport b\n",
        ALL,
        "1 import a\n3 import b\nend\nat 27, 2\n",
    ),
    Row(
        b"x = 1\ry = 2\rimport b\rz = 3\r",
        ALL,
        "3 import b\nend\nat 27, 1\n",
    ),
    Row(
        b"x = 1\n\x0cimport b\ny = 2;\x0c\timport c\n",
        ALL,
        "2 indented import b\n3 import c\nend\nat 33, 2\n",
    ),
    // After lines that are not passed over.
    Row(
        b"x = 1\ny = '\xc3\xa9'\ny = '\xc3\xa9'\ny = '\xc3\xa9'\ny = '\xc3\xa9'\ny = '\xc3\xa9'\nimport b\nz = 3\nz = 3\nimport c\n",
        ALL,
        "7 import b\n10 import c\nend\nat 81, 2\n",
    ),
];

#[test]
fn finds_where_statements_start(rt: HostRuntime) -> Result<(), Fail> {
    each_holds(
        rt.alloc(),
        &[
            ("STARTS", STARTS),
            ("NO_STARTS", NO_STARTS),
            ("LINE_STARTS", LINE_STARTS),
        ],
    )
}

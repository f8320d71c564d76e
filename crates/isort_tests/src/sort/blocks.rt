//! The blocks of a text.
use isort_sort::{Block, blocks};
use std::alloc::Global;
use std::test::Fail;
use test_harness::cases::{Case, each_holds_again};

/// A text and its blocks.
struct Spans(&'static str, &'static [Block]);

impl Case for Spans {
    fn holds(&self, alloc: Global) -> bool {
        match blocks(alloc, self.0.as_bytes()) {
            Ok(found) => found.as_slice() == self.1,
            Err(_) => false,
        }
    }
}

/// Texts without blocks.
static NONE: &[Spans] = &[
    Spans("", &[]),
    Spans("\u{feff}", &[]),
    Spans("x = 1\n", &[]),
    Spans("import b\nimport a  # isort: skip_file\n", &[]),
];

static SPANS: &[Spans] = &[
    // Words in a string start no statement.
    Spans(
        "x = 1\n\"\"\"from a to b, import c\n\"\"\"\nimport b\nimport a\n",
        &[Block {
            start: 35,
            stop: 53,
            members: 2,
        }],
    ),
    Spans(
        "import b\nimport a\n\nx = 1\n",
        &[Block {
            start: 0,
            stop: 19,
            members: 2,
        }],
    ),
    Spans(
        "\u{feff}import b\nimport a\n",
        &[Block {
            start: 3,
            stop: 21,
            members: 2,
        }],
    ),
    Spans(
        "import b\n# isort: split\nimport a\n",
        &[
            Block {
                start: 0,
                stop: 9,
                members: 1,
            },
            Block {
                start: 24,
                stop: 33,
                members: 1,
            },
        ],
    ),
    Spans(
        "import z  # one\n# about a\nimport a\nimport z  # two\n",
        &[Block {
            start: 0,
            stop: 51,
            members: 3,
        }],
    ),
    Spans(
        "if a:\n    import sys\n    import os\nx = 1\n",
        &[Block {
            start: 6,
            stop: 35,
            members: 2,
        }],
    ),
];

/// Where blocks end.
static ENDS: &[Spans] = &[
    Spans(
        "if a:\n    import b\nimport c\n",
        &[
            Block {
                start: 6,
                stop: 19,
                members: 1,
            },
            Block {
                start: 19,
                stop: 28,
                members: 1,
            },
        ],
    ),
    Spans(
        "import b\n\nimport a\n\n\n",
        &[Block {
            start: 0,
            stop: 21,
            members: 2,
        }],
    ),
    Spans(
        "import a\n\n# k\n",
        &[Block {
            start: 0,
            stop: 10,
            members: 1,
        }],
    ),
    Spans(
        "import a\n# k\n\nx = 1\n",
        &[Block {
            start: 0,
            stop: 9,
            members: 1,
        }],
    ),
    Spans(
        "import a\n# isort: off\nimport b\n",
        &[Block {
            start: 0,
            stop: 9,
            members: 1,
        }],
    ),
];

#[test]
fn finds_blocks(rt: HostRuntime) -> Result<(), Fail> {
    each_holds_again(
        rt.alloc(),
        &[("NONE", NONE), ("SPANS", SPANS), ("ENDS", ENDS)],
    )
}

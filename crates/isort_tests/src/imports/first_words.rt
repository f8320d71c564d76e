//! Where import statements may begin in a text, by its bytes alone.
use py_imports::FirstWords;
use std::alloc::Global;
use std::test::Fail;
use test_harness::cases::{Case, each_holds};

/// A text, a byte of it at which a line begins, and the first byte from there on at which an import statement may begin, or the text's
/// end.
struct Stop(&'static str, usize, usize);

impl Case for Stop {
    fn holds(&self, _alloc: Global) -> bool {
        let mut words = FirstWords::new(self.0.as_bytes());
        self.1 <= self.0.len()
            && words.clear_up_to(self.1) == self.2
            && words.clear_up_to(self.1) == self.2
    }
}

/// Where import statements may begin. Texts of more than 64 bytes are searched in blocks.
static STOPS: &[Stop] = &[
    Stop("x = 1\n\tfrom a import b\n", 0, 7),
    Stop("# from a import b\nraise X from Y; import b", 0, 34),
    Stop("\u{feff}import a", 0, 3),
    Stop("import a\nframes = time\n", 9, 23),
    Stop("a = 1\nimportant = 2\n", 6, 6),
    Stop(
        "x = 'aaaaaaaaaaaaaaaaaaaaaaaaaaaaaaaaaaaaaaaaaaaaaaaaaaaaaaaaa'\nfrom a import b  # aaaaaaaaaaaaaaaaaaaaaaaaaaaaaaa",
        0,
        64,
    ),
];

#[test]
fn tells_where_imports_may_begin(rt: HostRuntime) -> Result<(), Fail> {
    each_holds(rt.alloc(), &[("STOPS", STOPS)])
}

//! Own sections: settings and sections.
use crate::settings::pyproject::{Refused, Sectioned, is_read_so};
use isort_settings::{Section, Settings};
use std::alloc::Global;
use std::test::Fail;
use test_harness::cases::{
    Case, SettingsCase, each_holds_again, each_holds_under_settings, table_of,
};
use test_harness::texts::DJANGO;

/// Two own sections before the five, the second of which comes first by its name.
const TWO: &str =
    "sections = [\"Web\", \"Data_2\"]\nknown_web = [\"flask\", \"m\"]\nknown_data_2 = [\"m.n\", \"m\", \"os\"]\n";

/// An own section of one module.
const OWN: &str = "sections = [\"FUTURE\", \"Own\"]\nknown_own = [\"own\"]\n";

/// How bad names of sections are refused.
const BAD: &str = "bad value for sections";

static UNFIT: &[Refused] = &[
    Refused(b"[tool.isort]\nsections = [\"A\", \"a\"]", None, BAD),
    Refused(b"[tool.isort]\nsections = [\"1a\"]", None, BAD),
    Refused(b"[tool.isort]\nsections = [\"stdlib\"]", None, BAD),
    Refused(b"[tool.isort]\nsections = [\"First_Party\"]", None, BAD),
];

/// One section more than there may be.
static TOO_MANY: &[Refused] = &[Refused(
    b"[tool.isort]\nsections = [\"A00\", \"A01\", \"A02\", \"A03\", \"A04\", \"A05\", \"A06\", \"A07\", \
          \"A08\", \"A09\", \"A10\", \"A11\", \"A12\", \"A13\", \"A14\", \"A15\", \"A16\", \"A17\", \"A18\", \
          \"A19\", \"A20\", \"A21\", \"A22\", \"A23\", \"A24\", \"A25\", \"A26\", \"A27\", \"A28\", \"A29\", \
          \"A30\", \"A31\", \"A32\", \"A33\", \"A34\", \"A35\", \"A36\", \"A37\", \"A38\", \"A39\", \"A40\", \
          \"A41\", \"A42\", \"A43\", \"A44\", \"A45\", \"A46\", \"A47\", \"A48\", \"A49\", \"A50\", \"A51\", \
          \"A52\", \"A53\", \"A54\", \"A55\", \"A56\", \"A57\", \"A58\", \"A59\", \"A60\", \"A61\", \"A62\", \
          \"A63\", \"A64\"]",
    None,
    BAD,
)];

/// A bad list of a section, and a bad section beside a bad default.
static UNFIT_LISTS: &[Refused] = &[
    Refused(
        b"[tool.isort]\nsections = [\"A\"]\nknown_a = 1",
        None,
        "bad value for known_a",
    ),
    Refused(
        b"[tool.isort]\nsections = [\"1a\"]\ndefault_section = \"1a\"",
        None,
        "bad value for default_section",
    ),
];

/// Names that no section may have.
static UNFIT_NAMES: &[Refused] = &[
    // A name twice, names that are no words, and the five in other capitals.
    Refused(
        b"[tool.isort]\nsections = [\"STDLIB\", \"STDLIB\"]",
        None,
        BAD,
    ),
    Refused(b"[tool.isort]\nsections = [\"\"]", None, BAD),
    Refused(b"[tool.isort]\nsections = [\"_a\"]", None, BAD),
    Refused(b"[tool.isort]\nsections = [\"a-b\"]", None, BAD),
    Refused(b"[tool.isort]\nsections = [\"\xc3\xa9\"]", None, BAD),
    Refused(b"[tool.isort]\nsections = [\"Future\"]", None, BAD),
    Refused(b"[tool.isort]\nsections = [\"thirdparty\"]", None, BAD),
    // Names whose list would be a key of the table.
    Refused(
        b"[tool.isort]\nsections = [\"standard_library\"]",
        None,
        BAD,
    ),
    Refused(b"[tool.isort]\nsections = [\"Third_Party\"]", None, BAD),
    Refused(b"[tool.isort]\nsections = [\"LOCAL_FOLDER\"]", None, BAD),
    Refused(b"[tool.isort]\nsections = [\"Future_Library\"]", None, BAD),
];

/// Settings with values that are refused.
static BAD_VALUES: &[Refused] = &[
    // Values that are no lists of texts.
    Refused(b"[tool.isort]\nsections = \"A\"", None, BAD),
    Refused(b"[tool.isort]\nsections = [\"A\", 1]", None, BAD),
    Refused(
        b"[tool.isort]\nsections = [\"A\"]\nknown_a = [\"b\", \"c*\"]",
        None,
        "bad value for known_a",
    ),
    // The first refusal by the bytes of the keys. Where `sections` is refused, no own list is judged.
    Refused(
        b"[tool.isort]\nsections = [\"1a\"]\nknown_1a = 1",
        None,
        BAD,
    ),
    Refused(
        b"[tool.isort]\nsections = [\"A\", \"a\"]\nknown_a = 1\nuse_parentheses = 1",
        None,
        BAD,
    ),
];

/// Tables with two bad values, and bad defaults.
static FIRST_REFUSED: &[Refused] = &[
    Refused(
        b"[tool.isort]\nsections = [\"A\"]\nknown_a = 1\nline_length = 0",
        None,
        "bad value for known_a",
    ),
    Refused(
        b"[tool.isort]\nsections = [\"A\"]\nknown_a = 1\nknown_third_party = 1",
        None,
        "bad value for known_a",
    ),
    Refused(
        b"[tool.isort]\nsections = [\"A\"]\nknown_a = 1\ndefault_section = \"B\"",
        None,
        "bad value for default_section",
    ),
    Refused(
        b"[tool.isort]\nsections = [\"A\"]\ndefault_section = \"a\"",
        None,
        "bad value for default_section",
    ),
];

/// Lines of `[tool.isort]`, and its unknown keys.
struct Accepted(&'static str, &'static [&'static str]);

impl Case for Accepted {
    fn holds(&self, alloc: Global) -> bool {
        match table_of(alloc, self.0) {
            Some(table) => is_read_so(alloc, table.as_bytes(), None, None, self.1),
            None => false,
        }
    }
}

static ACCEPTED: &[Accepted] = &[
    Accepted("sections = []", &[]),
    Accepted(
        "sections = [\"A00\", \"A01\", \"A02\", \"A03\", \"A04\", \"A05\", \"A06\", \"A07\", \"A08\", \
         \"A09\", \"A10\", \"A11\", \"A12\", \"A13\", \"A14\", \"A15\", \"A16\", \"A17\", \"A18\", \"A19\", \
         \"A20\", \"A21\", \"A22\", \"A23\", \"A24\", \"A25\", \"A26\", \"A27\", \"A28\", \"A29\", \"A30\", \
         \"A31\", \"A32\", \"A33\", \"A34\", \"A35\", \"A36\", \"A37\", \"A38\", \"A39\", \"A40\", \"A41\", \
         \"A42\", \"A43\", \"A44\", \"A45\", \"A46\", \"A47\", \"A48\", \"A49\", \"A50\", \"A51\", \"A52\", \
         \"A53\", \"A54\", \"A55\", \"A56\", \"A57\", \"A58\", \"A59\", \"A60\", \"A61\", \"A62\", \"A63\"]",
        &[],
    ),
];

/// Lists of sections, known ones and unknown ones.
static LISTS: &[Accepted] = &[
    Accepted("known_a = [\"x\"]", &["known_a"]),
    Accepted("known_a = 1", &["known_a"]),
    Accepted(
        "sections = [\"A\"]\nknown_A = [\"x\"]\nknown_b = 1",
        &["known_A", "known_b"],
    ),
    Accepted(
        "sections = [\"A\", \"LOCALFOLDER\"]\nknown_a = []\ndefault_section = \"A\"",
        &[],
    ),
    Accepted(
        "sections = [\"a_1\", \"B9\"]\nknown_a_1 = [\"x.y\"]\nknown_b9 = []",
        &[],
    ),
];

#[test]
fn refuses_and_accepts_sections(rt: HostRuntime) -> Result<(), Fail> {
    let alloc = rt.alloc();
    each_holds_again(
        alloc,
        &[
            ("UNFIT", UNFIT),
            ("TOO_MANY", TOO_MANY),
            ("UNFIT_LISTS", UNFIT_LISTS),
            ("UNFIT_NAMES", UNFIT_NAMES),
            ("BAD_VALUES", BAD_VALUES),
            ("FIRST_REFUSED", FIRST_REFUSED),
        ],
    )?;
    each_holds_again(alloc, &[("ACCEPTED", ACCEPTED), ("LISTS", LISTS)])
}

static SECTIONS: &[Sectioned] = &[
    Sectioned(DJANGO, "django.db", Section::Own(0)),
    Sectioned(DJANGO, "django", Section::Own(0)),
    Sectioned(DJANGO, "djangox", Section::ThirdParty),
    Sectioned(DJANGO, "os", Section::Stdlib),
    Sectioned(DJANGO, ".django", Section::LocalFolder),
];

/// The own lists first, in the order of `sections`, but a longer prefix before all.
static PREFIXES: &[Sectioned] = &[
    Sectioned(TWO, "m", Section::Own(0)),
    Sectioned(TWO, "m.n.o", Section::Own(1)),
    Sectioned(TWO, "m.o", Section::Own(0)),
    Sectioned(TWO, "os.path", Section::Own(1)),
    Sectioned(TWO, "requests", Section::ThirdParty),
    Sectioned(
        "sections = [\"A\"]\nknown_a = [\"m\"]\nknown_local_folder = [\"m\", \"m.n\"]",
        "m.o",
        Section::Own(0),
    ),
];

/// Other orders and defaults.
static PLACES: &[Sectioned] = &[
    Sectioned(
        "sections = [\"A\"]\nknown_a = [\"m\"]\nknown_local_folder = [\"m\", \"m.n\"]",
        "m.n",
        Section::LocalFolder,
    ),
    Sectioned(
        "sections = [\"LOCALFOLDER\", \"B\", \"A\"]\nknown_a = [\"m\"]\nknown_b = [\"m\"]",
        "m",
        Section::Own(0),
    ),
    Sectioned(
        "sections = [\"A\", \"B\"]\nknown_a = [\"__future__\"]\ndefault_section = \"B\"",
        "__future__",
        Section::Own(0),
    ),
    Sectioned(
        "sections = [\"A\", \"B\"]\ndefault_section = \"B\"",
        "requests",
        Section::Own(1),
    ),
    Sectioned("known_a = [\"os\"]", "os", Section::Stdlib),
    // An own section that holds none of these modules.
    Sectioned(OWN, "..a", Section::LocalFolder),
    Sectioned(OWN, "__future__", Section::Future),
    Sectioned(OWN, "requests", Section::ThirdParty),
];

/// Lists of modules with and without submodules.
const NESTED: &str =
    "sections = [\"A\", \"B\"]\nknown_a = [\"x.y\", \"x\"]\nknown_first_party = [\"m.n\", \"o\"]\n";

static NESTED_SECTIONS: &[Sectioned] = &[
    Sectioned(NESTED, "m.n", Section::FirstParty),
    Sectioned(NESTED, "m.n.x", Section::FirstParty),
    Sectioned(NESTED, "m.nn", Section::ThirdParty),
    Sectioned(NESTED, "m", Section::ThirdParty),
    Sectioned(NESTED, "x.y.z", Section::Own(0)),
    Sectioned(NESTED, "o.x", Section::FirstParty),
];

/// Lines of `[tool.isort]`, and the sections in their order.
struct Ranked(&'static str, &'static [Section]);

impl SettingsCase for Ranked {
    fn lines(&self) -> &str {
        self.0
    }

    fn holds_under(&self, _alloc: Global, settings: &Settings) -> bool {
        for (rank, section) in self.1.iter().enumerate() {
            if settings.section_rank(*section) != rank {
                return false;
            }
        }
        settings.section_rank(Section::Own(200)) == self.1.len()
            && settings.section_name(Section::Stdlib) == "STDLIB"
            && settings.section_name(Section::Own(200)).is_empty()
            && Section::Own(2).number() == 7
    }
}

const FIVE: &[Section] = &[
    Section::Future,
    Section::Stdlib,
    Section::ThirdParty,
    Section::FirstParty,
    Section::LocalFolder,
];

static RANKS: &[Ranked] = &[
    Ranked("", FIVE),
    Ranked("sections = []", FIVE),
    Ranked(
        DJANGO,
        &[
            Section::Future,
            Section::Stdlib,
            Section::Own(0),
            Section::ThirdParty,
            Section::FirstParty,
            Section::LocalFolder,
        ],
    ),
    Ranked(
        TWO,
        &[
            Section::Own(0),
            Section::Own(1),
            Section::Future,
            Section::Stdlib,
            Section::ThirdParty,
            Section::FirstParty,
            Section::LocalFolder,
        ],
    ),
    Ranked(
        "sections = [\"LOCALFOLDER\", \"B\", \"STDLIB\", \"A\"]",
        &[
            Section::LocalFolder,
            Section::Own(0),
            Section::Stdlib,
            Section::Own(1),
            Section::Future,
            Section::ThirdParty,
            Section::FirstParty,
        ],
    ),
];

#[test]
fn finds_and_ranks_own_sections(rt: HostRuntime) -> Result<(), Fail> {
    let alloc = rt.alloc();
    each_holds_under_settings(
        alloc,
        &[
            ("SECTIONS", SECTIONS),
            ("PREFIXES", PREFIXES),
            ("PLACES", PLACES),
            ("NESTED_SECTIONS", NESTED_SECTIONS),
        ],
    )?;
    each_holds_under_settings(alloc, &[("RANKS", RANKS)])
}

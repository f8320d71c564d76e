//! Settings files, settings, sections and orders.
use crate::settings::lists::list_of;
use isort_settings::{Modules, Profile, Section, SettingKey, Settings, SettingsError, laws};
use std::alloc::Global;
use std::cmp::Ordering;
use std::cmp::Ordering::{Equal, Greater, Less};
use std::test::Fail;
use test_harness::cases::{
    Case, SettingsCase, all_are_so, are_texts, each_holds_again, each_holds_under_settings,
    is_shown, refusal, was_refused,
};

/// Whether the second name comes after the first, and the first is equal to itself.
fn is_before(settings: &Settings, a: &str, b: &str) -> bool {
    settings.order_names(a, b) == Less
        && settings.order_names(b, a) == Greater
        && settings.order_names(a, a) == Equal
}

/// Whether each name comes after the one before it.
fn ascend(settings: &Settings, names: &[&str]) -> bool {
    for i in 1..names.len() {
        if !is_before(settings, names[i - 1], names[i]) {
            return false;
        }
    }
    true
}

const BLACK: Option<Profile> = Some(Profile::Black);

/// A text, the profile that is handed in, and how the text is refused.
pub(crate) struct Refused(
    pub(crate) &'static [u8],
    pub(crate) Option<Profile>,
    pub(crate) &'static str,
);

impl Case for Refused {
    fn holds(&self, alloc: Global) -> bool {
        match refusal(alloc, self.0, self.1) {
            Some(error) => is_shown(alloc, &error, self.2),
            None => false,
        }
    }
}

static REFUSED: &[Refused] = &[
    Refused(
        b"[tool.isort]\nline_length = \"x\"",
        None,
        "bad value for line_length",
    ),
    Refused(
        b"[tool.isort]\nline_length = 0",
        None,
        "bad value for line_length",
    ),
    Refused(
        b"[tool.isort]\nline_length = 10001",
        None,
        "bad value for line_length",
    ),
    Refused(
        b"[tool.isort]\nline_length = 0\ncombine_as_imports = 3",
        None,
        "bad value for combine_as_imports",
    ),
    Refused(
        b"[tool.isort]\ncase_sensitive = 1\nprofile = \"google\"",
        None,
        "unknown profile",
    ),
];

/// Bad profiles and modes.
static REFUSED_MODES: &[Refused] = &[
    Refused(
        b"[tool.isort]\nprofile = \"google\"",
        None,
        "unknown profile",
    ),
    Refused(b"[tool.isort]\nprofile = 1", None, "bad value for profile"),
    Refused(
        b"[tool.isort]\nmulti_line_output = 7",
        None,
        "unsupported wrap mode",
    ),
    Refused(
        b"[tool.isort]\nmulti_line_output = -1",
        None,
        "unsupported wrap mode",
    ),
    Refused(
        b"[tool.isort]\nmulti_line_output = \"3\"",
        None,
        "bad value for multi_line_output",
    ),
];

/// Bad lists, numbers and texts.
static REFUSED_LISTS: &[Refused] = &[
    Refused(
        b"[tool.isort]\nknown_first_party = [\"a*\"]",
        None,
        "bad value for known_first_party",
    ),
    Refused(
        b"[tool.isort]\nknown_third_party = [\"a\", \"b?\"]",
        None,
        "bad value for known_third_party",
    ),
    Refused(
        b"[tool.isort]\nknown_third_party = \"a,b\"",
        None,
        "bad value for known_third_party",
    ),
    Refused(
        b"[tool.isort]\ndefault_section = \"future\"",
        None,
        "bad value for default_section",
    ),
];

/// Bad numbers.
static REFUSED_NUMBERS: &[Refused] = &[
    Refused(
        b"[tool.isort]\nlines_after_imports = -2",
        None,
        "bad value for lines_after_imports",
    ),
    Refused(
        b"[tool.isort]\nlines_between_types = 101",
        None,
        "bad value for lines_between_types",
    ),
    Refused(
        b"[tool.isort]\nforce_grid_wrap = 1.0",
        None,
        "bad value for force_grid_wrap",
    ),
];

/// Texts that are not TOML, or have other tables.
static REFUSED_TEXTS: &[Refused] = &[
    Refused(b"[tool", BLACK, "the settings are not TOML"),
    Refused(b"# \xff\n", BLACK, "the settings are not TOML"),
    Refused(b"tool = 1", BLACK, "bad value for tool"),
    Refused(b"[tool]\nisort = 1", BLACK, "bad value for tool.isort"),
    Refused(b"[[tool.isort]]\n", BLACK, "bad value for tool.isort"),
];

/// Whether these are the settings without a profile.
fn are_plain(settings: &Settings) -> bool {
    (settings.line_length, settings.multi_line_output) == (79, 0)
        && settings.lines_after_imports == -1
        && settings.known_standard_library.get(159) == Some("zoneinfo")
        && settings.known_standard_library.get(160).is_none()
}

/// Whether these are the settings of the profile `black`.
fn are_black(settings: &Settings) -> bool {
    (settings.line_length, settings.multi_line_output) == (88, 3) && settings.force_grid_wrap == 0
}

/// Settings that a text stands for.
#[derive(Clone, Copy)]
enum Known {
    /// Those without a profile.
    Plain,
    /// Those of the profile `black`.
    Black,
    /// The same with lines of 100 characters.
    Wide,
}

impl Known {
    /// Those settings, but as they are for `black` where lines are longer.
    fn settings(self, alloc: Global) -> Option<Settings> {
        match self {
            Known::Plain => Settings::plain(alloc).ok(),
            Known::Black | Known::Wide => Settings::black(alloc).ok(),
        }
    }

    /// Whether the settings, so made, are those of the profile, and lines are made longer where they have to be.
    fn are_made(self, settings: &mut Settings) -> bool {
        match self {
            Known::Plain => are_plain(settings),
            Known::Black => are_black(settings),
            Known::Wide => are_black(settings) && settings.set_line_length(100).is_ok(),
        }
    }
}

/// A text, the profile that is handed in, the settings that the text stands for, and its unknown keys.
struct Stands(
    &'static [u8],
    Option<Profile>,
    Known,
    &'static [&'static str],
);

/// Whether these settings are those wanted, if any are, and these keys are the unknown ones.
fn are_read(
    settings: &Settings,
    keys: &[String],
    want: Option<&Settings>,
    unknown: &[&str],
) -> bool {
    match want {
        Some(want) => *settings == *want && are_texts(keys, unknown),
        None => are_texts(keys, unknown),
    }
}

/// Whether a text has these unknown keys, and stands for these settings, if any are given.
pub(crate) fn is_read_so(
    alloc: Global,
    text: &[u8],
    profile: Option<Profile>,
    want: Option<&Settings>,
    unknown: &[&str],
) -> bool {
    match Settings::from_pyproject(alloc, text, profile).ok() {
        Some((settings, keys)) => are_read(&settings, keys.as_slice(), want, unknown),
        None => false,
    }
}

impl Stands {
    /// Whether the text stands for the settings, which are made so first.
    fn stands_for(&self, alloc: Global, want: &mut Settings) -> bool {
        self.2.are_made(want) && is_read_so(alloc, self.0, self.1, Some(want), self.3)
    }
}

impl Case for Stands {
    fn holds(&self, alloc: Global) -> bool {
        match self.2.settings(alloc) {
            Some(mut want) => self.stands_for(alloc, &mut want),
            None => false,
        }
    }
}

static STANDS: &[Stands] = &[
    Stands(b"", None, Known::Plain, &[]),
    Stands(
        b"[tool.isort]\nknown_future_library = [\"__future__\"]",
        None,
        Known::Plain,
        &[],
    ),
    // The order that is usual.
    Stands(
        b"[tool.isort]\nsections = [\"FUTURE\", \"STDLIB\", \"THIRDPARTY\", \"FIRSTPARTY\", \"LOCALFOLDER\"]",
        None,
        Known::Plain,
        &[],
    ),
    Stands(
        b"[tool.isort]\ncolour = 1\nFirst = 1\n[tool.isort.sub]\nline_length = 0",
        None,
        Known::Plain,
        &["First", "colour", "sub"],
    ),
    // The profile that is handed in.
    Stands(b"[tool]\n", BLACK, Known::Black, &[]),
    Stands(
        b"[tool.isort]\nprofile = \"google\"",
        BLACK,
        Known::Black,
        &[],
    ),
    // A key beside the profile.
    Stands(
        b"[tool.isort]\nline_length = 100\nprofile = \"black\"",
        None,
        Known::Wide,
        &[],
    ),
];

#[test]
fn refusals_profiles_and_texts(rt: HostRuntime) -> Result<(), Fail> {
    let alloc = rt.alloc();
    each_holds_again(
        alloc,
        &[
            ("REFUSED", REFUSED),
            ("REFUSED_MODES", REFUSED_MODES),
            ("REFUSED_LISTS", REFUSED_LISTS),
            ("REFUSED_NUMBERS", REFUSED_NUMBERS),
            ("REFUSED_TEXTS", REFUSED_TEXTS),
        ],
    )?;
    each_holds_again(alloc, &[("STANDS", STANDS)])
}

/// A line length, whether its setter takes it, and the length that the settings then have.
static LENGTHS: &[(u32, bool, u32)] = &[
    (0, false, 79),
    (1, true, 1),
    (10_000, true, 10_000),
    (10_001, false, 10_000),
];

/// What a setter answers, as whether it takes the value; none where that is another refusal than this one.
fn is_taken(alloc: Global, set: Result<(), SettingsError>, refusal: &str) -> Option<bool> {
    match set.err() {
        None => Some(true),
        Some(error) if is_shown(alloc, &error, refusal) => Some(false),
        Some(_) => None,
    }
}

/// Whether each length is set so, one after another.
fn sets_lengths(alloc: Global, settings: &mut Settings) -> bool {
    for (length, want, kept) in LENGTHS {
        let set = settings.set_line_length(*length);
        let taken = is_taken(alloc, set, "bad value for line_length");
        if taken != Some(*want) || settings.line_length != *kept {
            return false;
        }
    }
    true
}

/// A wrap mode, and whether its setter takes it.
static MODES: &[(u32, bool)] = &[(3, true), (4, false)];

/// Whether each mode is set so, one after another.
fn sets_modes(alloc: Global, settings: &mut Settings) -> bool {
    for (mode, want) in MODES {
        let taken = is_taken(alloc, settings.set_mode(*mode), "unsupported wrap mode");
        if taken != Some(*want) || settings.multi_line_output != 3 {
            return false;
        }
    }
    true
}

/// Whether each value is set so, one after another.
fn sets_values(alloc: Global, settings: &mut Settings) -> bool {
    sets_lengths(alloc, settings) && sets_modes(alloc, settings)
}

/// Whether plain settings are set so.
fn sets(alloc: Global) -> bool {
    match Known::Plain.settings(alloc) {
        Some(mut settings) => sets_values(alloc, &mut settings),
        None => false,
    }
}

/// A list of one module.
fn only(alloc: Global, module: &str) -> Option<Modules> {
    Some(Modules::Listed(list_of(alloc, &[module])?))
}

/// Whether lists of modules are read, and compared by what they hold.
fn are_lists(alloc: Global) -> Option<bool> {
    let (usual, standard) = (Modules::Future, Modules::StandardLibrary);
    let future = only(alloc, "__future__")?;
    let os = only(alloc, "os")?;
    Some(
        future == usual
            && os != usual
            && os != standard
            && os.get(0) == Some("os")
            && os.get(1).is_none()
            && usual.get(0) == Some("__future__"),
    )
}

#[test]
fn setters_and_lists_of_modules(rt: HostRuntime) -> Result<(), Fail> {
    let alloc = rt.alloc();
    all_are_so(&[
        sets(alloc) || was_refused(alloc) && sets(alloc),
        are_lists(alloc) == Some(true) || was_refused(alloc) && are_lists(alloc) == Some(true),
    ])
}

/// Lines of `[tool.isort]`, a module, and its section under these settings.
pub(crate) struct Sectioned(
    pub(crate) &'static str,
    pub(crate) &'static str,
    pub(crate) Section,
);

impl SettingsCase for Sectioned {
    fn lines(&self) -> &str {
        self.0
    }

    fn holds_under(&self, _alloc: Global, settings: &Settings) -> bool {
        settings.section_of(self.1) == self.2
    }
}

static SECTIONS: &[Sectioned] = &[
    Sectioned("", "os.path", Section::Stdlib),
    Sectioned("", "requests", Section::ThirdParty),
    Sectioned("", "..a", Section::LocalFolder),
    Sectioned("", ".", Section::LocalFolder),
    Sectioned("", "__future__", Section::Future),
    Sectioned(
        "known_third_party = [\"os\"]",
        "os.path",
        Section::ThirdParty,
    ),
    Sectioned(
        "known_first_party = [\"a\"]\nknown_third_party = [\"a\"]",
        "a",
        Section::FirstParty,
    ),
];

/// Sections by lists and by prefixes.
static LISTED_SECTIONS: &[Sectioned] = &[
    Sectioned(
        "extra_standard_library = [\"six\"]",
        "six.moves",
        Section::Stdlib,
    ),
    Sectioned("known_standard_library = []", "os", Section::ThirdParty),
    Sectioned(
        "default_section = \"FIRSTPARTY\"",
        "requests",
        Section::FirstParty,
    ),
    Sectioned("known_first_party = [\"a\"]", "ab", Section::ThirdParty),
    Sectioned(
        "known_first_party = [\"a\"]\nknown_third_party = [\"a.b\"]",
        "a.b.c",
        Section::ThirdParty,
    ),
    Sectioned(
        "known_first_party = [\"a\"]\nknown_third_party = [\"a.b\"]",
        "a.c",
        Section::FirstParty,
    ),
];

/// Lines of `[tool.isort]`, and names in their order.
struct Ordered(&'static str, &'static [&'static str]);

impl SettingsCase for Ordered {
    fn lines(&self) -> &str {
        self.0
    }

    fn holds_under(&self, _alloc: Global, settings: &Settings) -> bool {
        ascend(settings, self.1)
    }
}

static ORDERS: &[Ordered] = &[
    Ordered("", &["CONST", "A", "Klass", "b9", "b10", "func"]),
    Ordered("", &["a", "a01", "a1", "ab"]),
    Ordered(
        "",
        &["a99999999999999999999999", "a100000000000000000000000"],
    ),
    Ordered(
        "order_by_type = false",
        &["A", "b9", "b10", "CONST", "func", "Klass"],
    ),
    Ordered("order_by_type = false", &["A", "a", "A0", "B"]),
    Ordered("order_by_type = false\ncase_sensitive = true", &["B", "a"]),
    Ordered("", &["a01", "a1", "a1b", "a10"]),
    Ordered("", &["01a", "1a", "2a", "10a", "a"]),
    Ordered("", &["x0012", "x0013", "x00120"]),
    Ordered("order_by_type = false", &["A1b", "a1B", "a1b", "A1c"]),
    Ordered(
        "order_by_type = false\ncase_sensitive = true",
        &["A1b", "A1c", "a1B", "a1b"],
    ),
];

/// Two modules and their order.
struct Compared(&'static str, &'static str, Ordering);

impl SettingsCase for Compared {
    fn holds_under(&self, _alloc: Global, settings: &Settings) -> bool {
        settings.order_modules(self.0, self.1) == self.2
    }
}

static MODULES: &[Compared] = &[
    Compared("..a", ".b", Less),
    Compared(".b", "a", Less),
    Compared(".", ".a", Less),
    Compared("a.b10", "a.b9", Greater),
    Compared("a.b", "a.b", Equal),
    Compared("a1.b10", "a1.b1c", Greater),
    Compared("CONST", "b", Greater),
];

/// Whether the key has this name.
fn is_named(key: SettingKey, name: &str) -> bool {
    key.name() == name
}

/// Whether no profile has this name.
fn is_unknown(name: &str) -> bool {
    matches!(
        Profile::read(name).err(),
        Some(SettingsError::UnknownProfile)
    )
}

#[test]
fn names_sections_and_orders(rt: HostRuntime) -> Result<(), Fail> {
    let alloc = rt.alloc();
    laws::every_key_has_its_place(SettingKey::Profile);
    laws::keys_are_in_byte_order();
    laws::names_are_totally_ordered();
    laws::modules_are_totally_ordered();
    all_are_so(&[
        Profile::read("black").ok() == Some(Profile::Black),
        is_unknown("Black"),
        is_named(SettingKey::LineLength, "line_length"),
        is_named(SettingKey::Tool, "tool"),
        is_named(SettingKey::ToolIsort, "tool.isort"),
        is_named(SettingKey::Sections, "sections"),
    ])?;
    each_holds_under_settings(
        alloc,
        &[("SECTIONS", SECTIONS), ("LISTED_SECTIONS", LISTED_SECTIONS)],
    )?;
    each_holds_under_settings(alloc, &[("ORDERS", ORDERS)])?;
    each_holds_under_settings(alloc, &[("MODULES", MODULES)])
}

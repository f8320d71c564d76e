//! The sections of an import block.
ghost use Rattle.std.specs.Prelude.{◌≡◌};
ghost use Rattle.isort_settings.specs.FiveSections.{usual_order, section_number, same_section, section_spelling, section_spelled};

/// A section: one of the five that are always there, or an own one of the settings.
#[derive(Clone, Copy, Debug, PartialEq, Eq)]
pub enum Section {
    Future,
    Stdlib,
    ThirdParty,
    FirstParty,
    LocalFolder,
    /// An own section, by its place among the own ones, from 0.
    Own(u8),
}

/// The five sections in their usual order.
const USUAL_ORDER: [Section; 5] = [
    Section::Future,
    Section::Stdlib,
    Section::ThirdParty,
    Section::FirstParty,
    Section::LocalFolder,
];

impl Section {
    /// The five sections in their usual order.
    pub(crate) fn usual_order() -> &'static [Section]
        ensures { result.now ≡ usual_order }
    {
        &USUAL_ORDER
    }

    /// How the settings spell one of the five. The settings alone name an own one.
    pub(crate) fn spelling(self) -> &'static str
        ensures { result.now ≡ section_spelling self }
    {
        match self {
            Section::Future => "FUTURE",
            Section::Stdlib => "STDLIB",
            Section::ThirdParty => "THIRDPARTY",
            Section::FirstParty => "FIRSTPARTY",
            Section::LocalFolder => "LOCALFOLDER",
            Section::Own(_) => "",
        }
    }

    /// A number of its own for each section: 0 to 4 for the five, in their usual order, 5 and more for own ones, in theirs.
    pub fn number(self) -> u32
        ensures { result ≡ section_number self }
    {
        match self {
            Section::Future => 0,
            Section::Stdlib => 1,
            Section::ThirdParty => 2,
            Section::FirstParty => 3,
            Section::LocalFolder => 4,
            Section::Own(place) => 5 + u32::from(place),
        }
    }

    /// Whether it is the other one.
    pub(crate) fn is_same(self, other: Section) -> bool
        ensures { result ≡ same_section self other }
    {
        self.number() == other.number()
    }

    /// The one of the five that the settings spell so.
    pub(crate) fn spelled(text: &str) -> Option<Section>
        ensures { result ≡ section_spelled text.now }
    {
        match text {
            "FUTURE" => Some(Section::Future),
            "STDLIB" => Some(Section::Stdlib),
            "THIRDPARTY" => Some(Section::ThirdParty),
            "FIRSTPARTY" => Some(Section::FirstParty),
            "LOCALFOLDER" => Some(Section::LocalFolder),
            _ => None,
        }
    }
}

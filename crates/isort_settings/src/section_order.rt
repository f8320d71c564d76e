//! The order in which sections are printed.
ghost use Rattle.std.specs.Prelude.{◌≡◌};
ghost use Rattle.std.specs.List.{position_or_len};

use crate::section::Section;

/// Sections in the order in which they are printed. Only an order that settings give takes memory.
#[derive(Debug, Drop)]
pub enum SectionOrder {
    /// The five in their usual order.
    Usual,
    /// An order that settings give.
    Listed(Vec<Section>),
}

impl SectionOrder {
    ghost use Rattle.isort_settings.specs.FiveSections.{order_of, same_section};

    /// The sections in their order.
    pub fn sections(&self) -> &[Section]
        ensures { result.now ≡ order_of self.now }
    {
        match self {
            SectionOrder::Usual => Section::usual_order(),
            SectionOrder::Listed(sections) => sections.as_slice(),
        }
    }

    /// The place of a section, or how many sections there are where it isn't among them.
    pub(crate) fn rank(&self, section: Section) -> usize
        ensures { result ≡ position_or_len (λ s. same_section s section) (order_of self.now) }
    {
        let sections = self.sections();
        sections
            .iter()
            .position(|other| other.is_same(section))
            .unwrap_or(sections.len())
    }
}

/// Two orders are equal where they have the same sections in the same order.
impl PartialEq for SectionOrder {
    ghost use Rattle.std.specs.Cmp.{partial_equiv_from_equiv};
    ghost use Rattle.std.specs.Cmp.Lexicographic.{lists_equiv, pointwise};
    ghost use Rattle.std.specs.Ordering.{on};
    ghost use Rattle.std.proofs.lemmas.Cmp.{nat_eq_equiv, on_equiv};
    ghost use Rattle.isort_settings.specs.FiveSections.{order_of, same_section, section_number};

    ghost eq = { on order_of (pointwise same_section) };

    ghost laws = { partial_equiv_from_equiv
        (on_equiv order_of (lists_equiv (on_equiv section_number nat_eq_equiv))) };

    fn eq(&self, other: &SectionOrder) -> bool {
        self.sections() == other.sections()
    }
}

impl Eq for SectionOrder {
    ghost use Rattle.std.specs.Cmp.Lexicographic.{lists_equiv};
    ghost use Rattle.std.proofs.lemmas.Cmp.{nat_eq_equiv, on_equiv};
    ghost use Rattle.isort_settings.specs.FiveSections.{order_of, section_number};

    ghost laws = { on_equiv order_of (lists_equiv (on_equiv section_number nat_eq_equiv)) };
}

//! The limits of the keys that are whole numbers, each named once.
ghost use Rattle.std.specs.Prelude.{◌≡◌, ◌&&◌, nat_le};

/// The whole numbers from `least` to `most`.
#[derive(Drop)]
pub struct Limits<N> {
    pub least: N,
    pub most: N,
}

/// `line_length`, in characters.
pub const LINE_LENGTH: Limits<u32> = Limits {
    least: 1,
    most: 10_000,
};

/// `multi_line_output`: the number of the wrap mode.
pub const MODES: Limits<u32> = Limits { least: 0, most: 3 };

/// `force_grid_wrap`, in names.
pub const GRID_WRAP: Limits<u32> = Limits {
    least: 0,
    most: 10_000,
};

/// `lines_between_sections`, in blank lines.
pub const SECTION_GAP: Limits<u32> = Limits {
    least: 0,
    most: 100,
};

/// `lines_between_types`, in blank lines.
pub const TYPE_GAP: Limits<u32> = Limits {
    least: 0,
    most: 100,
};

/// `lines_after_imports`, in blank lines; -1 leaves the choice to the rules of the layout.
pub const END_GAP: Limits<i32> = Limits {
    least: -1,
    most: 100,
};

impl Limits<u32> {
    /// Whether the number is within the limits.
    pub fn contain(self, n: u32) -> bool
        ensures { result ≡ (nat_le self.least n && nat_le n self.most) }
    {
        self.least <= n && n <= self.most
    }
}

//! When to try to pass over lines.

/// No pause is longer: so many lines.
const LONGEST: u32 = 64;

/// Pauses between tries to pass over lines. Where a try passes over none, the next may be as vain, so some lines are read before it:
/// one line, and twice as many after each further try in vain.
#[derive(Clone, Copy)]
pub(crate) struct Pauses {
    /// How many lines are yet to be read before the next try.
    left: u32,
    /// How many are to be read after the next try, if it is in vain.
    next: u32,
}

impl Pauses {
    /// The next line may be tried.
    pub(crate) fn new() -> Pauses {
        Pauses { left: 0, next: 1 }
    }

    /// Whether the next line may be tried, which is asked once for each line.
    #[inline(always)]
    pub(crate) fn are_over(&mut self) -> bool {
        let over = self.left == 0;
        self.left = self.left.saturating_sub(1);
        over
    }

    /// Takes note of a try: whether it passed over lines.
    #[inline(always)]
    pub(crate) fn note(&mut self, passed: bool) {
        if passed {
            self.next = 1;
        } else {
            self.left = self.next;
            self.next = self.next.saturating_mul(2).min(LONGEST);
        }
    }
}

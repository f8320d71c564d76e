//! A handle to settings that were read.
ghost use Rattle.std.specs.Prelude.{◌≡◌, Some, None, option_map};
ghost use Rattle.std.specs.Option.{is_some};

use crate::held::Held;
use crate::parts::Parts;
use crate::stored::Stored;
use std::alloc::Global;
use std::mem;

/// Settings that were read, or nothing. In C it is a block of the caller's; the handle whose bytes are 0 keeps nothing.
#[repr(C)]
pub struct KeptSettings {
    full: bool,
    held: Held,
    pub ghost agrees: { full ≡ is_some held.value },
}

impl KeptSettings {
    /// A handle that keeps nothing.
    pub fn none(alloc: Global) -> KeptSettings
        ensures { result.held.value ≡ None }
    {
        KeptSettings {
            full: false,
            held: Held::none(alloc),
        }
    }

    /// A handle that keeps this.
    pub fn of(stored: Box<Stored>) -> KeptSettings
        ensures { result.held.value ≡ Some stored.value }
    {
        KeptSettings {
            full: true,
            held: Held::of_parts(Parts::of(stored)),
        }
    }

    /// What the handle kept, if anything.
    fn into_stored(self) -> Option<Box<Stored>>
        ensures { option_map (λ b. b.value) result ≡ self.held.value }
    {
        let KeptSettings { full, held } = self;
        if full {
            Some(held.into_parts().into_box())
        } else {
            None
        }
    }

    /// Takes out what is kept, and leaves nothing.
    pub fn take(&mut self, alloc: Global) -> Option<Box<Stored>>
        ensures taken { option_map (λ b. b.value) result ≡ self.old.held.value }
        ensures left { self.new.held.value ≡ None }
    {
        mem::replace(self, KeptSettings::none(alloc)).into_stored()
    }
}

impl Drop for KeptSettings {
    fn drop(self) {
        drop(self.into_stored());
    }
}

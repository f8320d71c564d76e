//! A box that leaves the library as a pointer, whose type says nothing of what it leads to.
ghost use Rattle.std.specs.Prelude.{◌≡◌, Option, Some, None, IsSome};
ghost use Rattle.isort_c.specs.Ownership.{held_owns};
ghost use Rattle.isort_c.specs.declared.stored.Stored.{Stored};

use crate::parts::Parts;
use crate::stored::Stored;
use std::alloc::Global;
use std::marker::Model;
use std::ptr;

/// The pointer of a box, or null. It owns what the box owned, and to drop it gives nothing back.
#[repr(C)]
#[derive(Drop)]
pub struct Held {
    at: *mut u8,
    alloc: Global,
    pub ghost value: { Option Stored },
}

impl Model for Held {
    ghost also_owns = { λ h. held_owns h.alloc h.at h.value };
}

impl Held {
    /// Null.
    pub fn none(alloc: Global) -> Held
        ensures { result.value ≡ None }
    {
        Held {
            at: ptr::null_mut(),
            alloc,
        }
    }

    /// The pointer of a box that was taken apart.
    pub fn of_parts(parts: Parts<Stored, Global>) -> Held
        ensures { result.value ≡ Some parts.value }
    {
        let Parts { at, alloc } = parts;
        Held {
            at: at as *mut u8,
            alloc,
        }
    }

    /// What `of_parts` was given.
    pub fn into_parts(self) -> Parts<Stored, Global>
        requires { IsSome self.value }
        ensures { Some result.value ≡ self.value }
    {
        let Held { at, alloc } = self;
        Parts {
            at: at as *mut Stored,
            alloc,
        }
    }
}

unsafe impl Send for Held {}

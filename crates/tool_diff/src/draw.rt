//! The random calls: what each has for its kind, its key and its value.

use crate::answer::mixed;
use crate::noted::Noted;

/// How many names there are.
pub const NAMES: u64 = 2000;

/// One call.
#[derive(Clone, Copy)]
pub struct Draw {
    pub number: u64,
    pub group: u64,
    pub kind: u64,
    pub name: u64,
    pub value: u64,
}

impl Draw {
    /// The call of a number.
    pub fn of(number: u64) -> Draw {
        let drawn = mixed(number.wrapping_add(1));
        Draw {
            number,
            group: drawn % 16,
            kind: (drawn >> 8) % 12,
            name: (drawn >> 16) % NAMES,
            value: (drawn >> 40) % 1000,
        }
    }

    /// The call's key, whose note is the call's number.
    pub fn key(&self) -> Noted {
        self.key_after(0)
    }

    /// A key whose name is so many after the call's.
    pub fn key_after(&self, steps: u64) -> Noted {
        Noted {
            name: self.name.wrapping_add(steps) % NAMES,
            note: self.number,
        }
    }
}

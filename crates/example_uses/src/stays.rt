//! Who stays in which room of a hotel: a key and a value of the user's own types, and a part of the value.
ghost use Rattle.std.specs.Prelude.{Some};
ghost use Rattle.std.specs.Borrow.{Lends, sem};
ghost use Rattle.std.specs.Cmp.{nat_eq_equiv, on_equiv};
ghost use Rattle.std.specs.String.{string_eq_equiv};
ghost use Rattle.dashmap.specs.Words.{pair_equiv};

use dashmap::mapref::one::Projection;
use dashmap::{DashMap, Kept, KeptKey};
use std::alloc::AllocError;
use std::rt::Clock;
use std::sync::Wait;

/// A room.
#[derive(Clone, Copy, Debug, PartialEq, Eq, Hash)]
pub struct Room {
    pub floor: u64,
    pub number: u64,
}

impl Kept for Room {
    ghost alike = { ⟦<Room as PartialEq>⟧.eq };

    ghost alike_laws = { on_equiv (λ r. (r.floor, r.number)) (pair_equiv nat_eq_equiv nat_eq_equiv) };

    fn copy(&self) -> Result<Room, AllocError> {
        Ok(*self)
    }

    fn same(&self, other: &Room) -> bool {
        self == other
    }
}

impl KeptKey for Room {
    ghost alike_equal = { λ _ _ same. same };
}

/// A guest's stay: how many nights, and how many of them are paid.
#[derive(Debug, Drop)]
pub struct Stay {
    pub guest: String,
    pub nights: u64,
    pub paid: u64,
}

impl Kept for Stay {
    ghost alike = { λ s t. ⟦<(String, (u64, u64)) as Kept>⟧.alike (s.guest, (s.nights, s.paid)) (t.guest, (t.nights, t.paid)) };

    ghost alike_laws = { on_equiv (λ s. (s.guest, (s.nights, s.paid))) (pair_equiv string_eq_equiv (pair_equiv nat_eq_equiv nat_eq_equiv)) };

    fn copy(&self) -> Result<Stay, AllocError> {
        Ok(Stay {
            guest: self.guest.copy()?,
            ..*self
        })
    }

    fn same(&self, other: &Stay) -> bool {
        self.guest.same(&other.guest) && (self.nights, self.paid) == (other.nights, other.paid)
    }
}

/// The nights of a stay.
#[derive(Drop)]
pub struct Nights;

impl Projection<Stay> for Nights {
    ghost use Rattle.std.specs.Prelude.{Some, refl};
    ghost use Rattle.dashmap.specs.Words.{field_is_part};

    type Target = u64;

    ghost part = { λ _ s. Some s.nights };

    ghost with = { λ _ s n. record s { nights = n } };

    ghost lawful = { λ _. field_is_part (λ _ _. refl) (λ _. refl) (λ _ _ _. refl) };

    fn holds(&self, _stay: &Stay) -> bool {
        true
    }

    fn get<'v>(&'v self, stay: &'v Stay) -> &'v u64 {
        &stay.nights
    }

    fn get_mut<'v>(stay: &'v mut Stay, _part: &'v Self) -> &'v mut u64 {
        &mut stay.nights
    }
}

/// The stays, by room.
pub type Stays = DashMap<Room, Stay>;

/// Lets the guest of a room stay longer, and says for how many nights then. Waits for the room's shard.
pub fn prolong<R: Wait + Clock>(rt: &R, stays: &Stays, room: &Room, more: u64) -> Option<u64> {
    let mut stays = stays.caller(rt);
    let mut nights = stays.get_mut(room)?.map(Nights);
    let all = nights.saturating_add(more);
    *nights = all;
    Some(all)
}

/// A copy of the list of stays. Waits for one shard after the other.
pub fn list<R: Wait + Clock>(rt: &R, stays: &Stays) -> Result<Vec<(Room, Stay)>, AllocError> {
    stays.pairs(rt)
}

/// How many nights all guests stay. Waits for one shard after the other.
pub fn all_nights<R: Wait + Clock>(rt: &R, stays: &Stays) -> u64 {
    stays.fold(rt, 0, |sum: u64, _, stay| sum.saturating_add(stay.nights))
}

//! Seats of theatres: a key of two fields is asked by a value that lends them, so that a look-up copies no text.
ghost use Rattle.std.specs.Prelude.{◌≡◌, ◌==◌, ◌++◌, ◌&&◌};
ghost use Rattle.std.proofs.Common.{ap, ◌∙◌};
ghost use Rattle.std.proofs.lemmas.Bool.{and_parts, eqb-true};
ghost use Rattle.std.specs.Cmp.Lexicographic.{bytes_decides, nat_list_eq_equiv};
ghost use Rattle.std.specs.Hash as fed;
ghost use Rattle.std.specs.Str.{bytes_eq};
ghost use Rattle.std.specs.String.{string_bytes};

use dashmap::{DashMap, Query};
use std::rt::Clock;
use std::sync::Wait;

/// A seat: its hall, and its number there.
#[derive(Debug, Drop, PartialEq, Eq, Hash)]
pub struct Seat {
    pub hall: String,
    pub number: u32,
}

/// What names a seat.
#[derive(Debug, Clone, Copy, PartialEq, Eq, Hash)]
pub struct At<'a> {
    pub hall: &'a str,
    pub number: u32,
}

impl Query<Seat> for At<'_> {
    ghost names = { λ q k. bytes_eq q.hall.now (string_bytes k.hall) && (q.number == k.number) };

    ghost respects_hash = { λ q k h. let p = and_parts (bytes_eq q.hall.now (string_bytes k.hall)) (q.number == k.number) h in
        ap (λ t. fed.str t ++ fed.u32 q.number) ((bytes_decides q.hall.now (string_bytes k.hall)).0 p.0) ∙ ap (λ n. fed.str (string_bytes k.hall) ++ fed.u32 n) (eqb-true q.number k.number p.1) };

    ghost respects_eq = { λ q x y h. let p = and_parts (bytes_eq q.hall.now (string_bytes x.hall)) (q.number == x.number) h in
        ap (λ b. b && (q.number == y.number)) (nat_list_eq_equiv.congr q.hall.now (string_bytes x.hall) (string_bytes y.hall) p.0) ∙ ap (λ n. ⟦<String as PartialEq>⟧.eq x.hall y.hall && (n == y.number)) (eqb-true q.number x.number p.1) };

    fn names(&self, key: &Seat) -> bool {
        self.hall == key.hall.as_str() && self.number == key.number
    }
}

/// Who has each seat.
pub type Guests = DashMap<Seat, u64>;

/// Who has the seat. Waits for its shard.
pub fn guest_at<R: Wait + Clock>(rt: &R, guests: &Guests, at: At<'_>) -> Option<u64> {
    guests.view(rt, at, |_, guest| *guest)
}

//! Seats that are asked by what lends their fields.
use crate::tests::checks::is;
use example_uses::seats::{At, Guests, Seat, guest_at};

#[test]
fn a_seat_is_asked_without_a_copy(rt: HostRuntime) {
    let guests = Guests::of(&rt).expect(&rt, "refused");
    let hall = String::from_str(rt.alloc(), "left").expect(&rt, "refused");
    assert!(rt; guests.insert(&rt, Seat { hall, number: 7 }, 5).is_ok());
    for (hall, number, guest) in [
        ("left", 7, Some(5)),
        ("left", 8, None),
        ("leftmost", 7, None),
    ] {
        is(&rt, guest_at(&rt, &guests, At { hall, number }), guest);
    }
}

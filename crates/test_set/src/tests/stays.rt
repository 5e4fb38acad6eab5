//! Stays in a hotel, with a key and a value of the user's own types.
use crate::tests::checks::is;
use example_uses::stays::{Room, Stay, Stays, all_nights, list, prolong};

#[test]
fn a_stay_is_prolonged(rt: HostRuntime) {
    let stays = Stays::of(&rt).expect(&rt, "refused");
    let guest = format!(in rt.alloc(); "Ada").expect(&rt, "refused");
    let (nights, paid) = (2, 1);
    let room = Room {
        floor: 1,
        number: 7,
    };
    let stay = Stay {
        guest,
        nights,
        paid,
    };
    assert!(rt; stays.insert(&rt, room, stay).is_ok());
    is(&rt, prolong(&rt, &stays, &room, 3), Some(5));
    is(&rt, all_nights(&rt, &stays), 5);
    let listed = list(&rt, &stays).expect(&rt, "refused");
    let (found, stay) = listed.first().expect(&rt, "no stay");
    is(&rt, (*found, stay.paid), (room, 1));
}

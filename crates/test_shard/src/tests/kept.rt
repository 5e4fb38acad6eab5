//! Copies of numbers, texts and wholes.
use crate::tests::checks::is;
use dash_steps::kept::{Kept, KeptKey};
use std::alloc::AllocError;

// Whether a copy is alike its source, and alike another value. At the bound, as generic code calls them.
fn copied<T: Kept + Drop>(value: T, other: T) -> Result<(bool, bool), AllocError> {
    let copy = value.copy()?;
    Ok((copy.same(&value), copy.same(&other)))
}

#[test]
fn copies_are_alike_their_sources_alone(rt: HostRuntime) {
    let alike = Ok((true, false));
    is(&rt, copied(u64::MAX, 0), alike);
    is(&rt, copied(0u128, 18_446_744_073_709_551_616), alike);
    is(&rt, copied(-128i8, 127), alike);
    is(&rt, copied(true, false), alike);
    is(&rt, copied('a', 'A'), alike);
    is(&rt, copied((1u8, true), (1, false)), alike);
    is(&rt, copied(Some(1u8), None), alike);
}

#[test]
fn copies_of_owners_are_alike_their_sources_alone(rt: HostRuntime) {
    let alike = Ok((true, false));
    let name = String::from_str(rt.alloc(), "Sam").expect(&rt, "refused");
    let longer = String::from_str(rt.alloc(), "Samuel").expect(&rt, "refused");
    is(&rt, copied(name, longer), alike);
    let two = vec![in rt.alloc(); 1u8, 2].expect(&rt, "refused");
    let near = vec![in rt.alloc(); 1u8, 3].expect(&rt, "refused");
    is(&rt, copied(two, near), alike);
}

//! What tests ask of what they found.
use std::fmt;
use std::process::Abort;

/// Ends the test where what was found isn't what is wanted.
///
/// A call of it is proved in half the time of an `assert_eq!`, which stands here once for all tests.
pub(crate) fn is<T: PartialEq + fmt::Debug + Drop>(rt: &impl Abort, found: T, wanted: T) {
    assert_eq!(rt; found, wanted);
}

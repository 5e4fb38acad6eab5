//! What tests ask of what they found.
use std::alloc::Global;
use std::fmt;
use std::process::Abort;

/// Ends the test where what was found isn't what is wanted.
///
/// A call of it is proved in half the time of an `assert_eq!`, which stands here once for all tests.
pub(crate) fn is<T: PartialEq + fmt::Debug + Drop>(rt: &impl Abort, found: T, wanted: T) {
    assert_eq!(rt; found, wanted);
}

/// Ends the test where a value prints as another text.
pub(crate) fn prints<T: fmt::Debug>(rt: &impl Abort, alloc: Global, found: &T, wanted: &str) {
    let text = format!(in alloc; "{found:?}").expect(rt, "no memory");
    is(rt, text.as_str(), wanted);
}

//! Ages under names, asked by text.
use crate::tests::checks::is;
use example_uses::ages::{Ages, age_of, be_at_least, forget, has_ada, have_birthday};

#[test]
fn a_name_is_asked_by_text(rt: HostRuntime) {
    let ages = Ages::of(&rt).expect(&rt, "refused");
    let name = String::from_str(rt.alloc(), "ada").expect(&rt, "refused");
    assert!(rt; ages.insert(&rt, name, 36).is_ok());
    is(&rt, age_of(&rt, &ages, "ada"), Some(36));
    is(&rt, age_of(&rt, &ages, "ad"), None);
    is(&rt, age_of(&rt, &ages, "adam"), None);
    is(&rt, have_birthday(&rt, &ages, "ada"), Some(37));
    be_at_least(&rt, &ages, "ada", 40);
    be_at_least(&rt, &ages, "adam", 40);
    assert!(rt; has_ada(&rt, &ages));
    assert!(rt; forget(&rt, &ages, "adam").is_none());
    let (name, age) = forget(&rt, &ages, "ada").expect(&rt, "no ada");
    is(&rt, (name.as_str(), age), ("ada", 40));
    assert!(rt; !has_ada(&rt, &ages));
}

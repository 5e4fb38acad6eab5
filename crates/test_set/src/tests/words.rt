//! A page whose words two threads count.
use crate::tests::checks::is;
use dashmap::DashMap;
use example_uses::words::{count, count_words, start_anew};
use std::thread;

#[test]
fn two_threads_count_the_words_of_a_page(rt: HostRuntime) {
    let counts = DashMap::new(rt.alloc(), 1).expect(&rt, "refused");
    let mut pages = ["the fox and the dog", "the dog\nsleeps"];
    thread::for_each_mut(
        &rt,
        pages.as_mut_slice(),
        2,
        &|_, page: &mut &str| {
            drop(count_words(&rt, &counts, *page));
        },
    );
    for (word, count) in [
        ("the", 3),
        ("fox", 1),
        ("and", 1),
        ("dog", 2),
        ("sleeps", 1),
    ] {
        is(&rt, start_anew(&rt, &counts, &word), Some(count));
    }
    is(&rt, count(&rt, &counts, "the").expect(&rt, "refused"), 1);
    is(&rt, counts.len(&rt), 5);
}

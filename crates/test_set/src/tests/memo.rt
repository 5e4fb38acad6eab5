//! Caches: what is kept, what is computed, and what want of memory does.
use crate::tests::checks::is;
use dashmap::error::ConstructError;
use dashmap::hash::{FixedState, PlaceState};
use dashmap::memo::{Memo, MemoRefused, Rule};
use dashmap::{Kept, KeptKey};
use std::alloc::{AllocError, Global};
use std::process::Abort;
use std::sync::atomic::{AtomicU64, Ordering};
use std::test::Fail;
use std::thread;

// The square of a key and one more. It counts what it computes, and key 0 is held in it till somebody says that it may go on.
#[derive(Drop)]
struct Square<'a> {
    computed: &'a AtomicU64,
    goes_on: &'a AtomicU64,
}

type Cache<'a> = Memo<u64, u64, Square<'a>, PlaceState>;

fn rule_of<'a>(computed: &'a AtomicU64, goes_on: &'a AtomicU64) -> Square<'a> {
    Square { computed, goes_on }
}

impl Rule<u64, u64> for Square<'_> {
    ghost use Rattle.std.specs.Prelude.{◌+◌, ◌*◌, ◌%◌, ◌^◌};
    ghost use Rattle.std.proofs.Common.{arith};
    ghost use Rattle.std.proofs.lemmas.Bool.Decides.{nat_tests};

    ghost value_of = { λ k. (k * k + 1) % 2 ^ 64 };

    fn compute(&self, key: &u64) -> Result<u64, AllocError> {
        self.computed.fetch_add(1, Ordering::SeqCst);
        if *key == 0 {
            wait_for(self.goes_on);
        }
        Ok(key.wrapping_mul(*key).wrapping_add(1))
    }

    ghost equal_alike = { λ j k same. Prim.grind (arith, nat_tests) };
}

// Turns till the number isn't 0, and gives up in the end.
fn wait_for(number: &AtomicU64) {
    for _ in 0..1_000_000u64 {
        if number.load(Ordering::SeqCst) != 0 {
            break;
        }
        thread::yield_now();
    }
}

#[test]
fn what_is_kept_is_not_computed_again(rt: HostRuntime) {
    let (computed, goes_on) = (AtomicU64::new(0), AtomicU64::new(1));
    let rule = rule_of(&computed, &goes_on);
    let cache = Memo::new(rt.alloc(), rule, 1).expect(&rt, "refused");
    for key in [3, 3, 5] {
        is(&rt, cache.ask(&rt, &key), Ok(key * key + 1));
        is(&rt, cache.try_ask(&key), Ok(key * key + 1));
    }
    is(
        &rt,
        (cache.len(&rt), computed.load(Ordering::SeqCst)),
        (2, 2),
    );
    cache.forget(&rt, &3);
    is(&rt, cache.try_ask(&3), Ok(10));
    is(
        &rt,
        (cache.len(&rt), computed.load(Ordering::SeqCst)),
        (2, 3),
    );
    cache.clear(&rt);
    is(&rt, cache.len(&rt), 0);
}

#[test]
fn clear_keeps_the_room(rt: HostRuntime) {
    let (computed, goes_on) = (AtomicU64::new(0), AtomicU64::new(1));
    let rule = rule_of(&computed, &goes_on);
    let cache = Memo::new(rt.alloc(), rule, 1).expect(&rt, "refused");
    for key in 0..100u64 {
        is(&rt, cache.ask(&rt, &key), Ok(key * key + 1));
    }
    let room = cache.capacity(&rt);
    is(&rt, room >= 100, true);
    cache.clear(&rt);
    is(&rt, (cache.len(&rt), cache.capacity(&rt)), (0, room));
}

// Finds a try form that computes anew what it keeps, as where it takes a free shard for a held one: each of 64 shards has some of the keys.
#[test]
fn each_shard_without_pairs_is_free(rt: HostRuntime) {
    let (computed, goes_on) = (AtomicU64::new(0), AtomicU64::new(1));
    let rule = rule_of(&computed, &goes_on);
    let cache = Memo::new(rt.alloc(), rule, 16).expect(&rt, "refused");
    for _ in 0..2 {
        for key in 0..1_000u64 {
            is(&rt, cache.try_ask(&key), Ok(key * key + 1));
        }
    }
    is(
        &rt,
        (cache.len(&rt), computed.load(Ordering::SeqCst)),
        (1_000, 1_000),
    );
}

// Keys 0 and 4 go to one shard, which is held while the value of key 0 is computed.
#[test]
fn who_does_not_wait_computes(rt: HostRuntime) {
    let (computed, goes_on) = (AtomicU64::new(0), AtomicU64::new(0));
    let rule = rule_of(&computed, &goes_on);
    let cache = Memo::with_hasher_and_shard_amount(rt.alloc(), rule, PlaceState, 4).expect(
        &rt, "refused",
    );
    let (waited, passed) = thread::join(
        &rt,
        || cache.ask(&rt, &0),
        || {
            wait_for(&computed);
            let passed = cache.try_ask(&4);
            goes_on.store(1, Ordering::SeqCst);
            passed
        },
    );
    is(&rt, (waited, passed), (Ok(1), Ok(17)));
    is(&rt, cache.len(&rt), 1);
}

// Four shards keep two values each, so eight keys by turns are kept, and of more the last is there.
#[test]
fn a_bound_is_kept(rt: HostRuntime) {
    let (computed, goes_on) = (AtomicU64::new(0), AtomicU64::new(1));
    let rule = rule_of(&computed, &goes_on);
    let cache = Cache::with_bound_and_hasher_and_shard_amount(
        rt.alloc(),
        rule,
        7,
        PlaceState,
        4,
    ).expect(&rt, "refused");
    is(&rt, cache.bound(), 2);
    for key in 0..100u64 {
        is(&rt, cache.ask(&rt, &key), Ok(key * key + 1));
        is(&rt, cache.len(&rt), 8.min(key as usize + 1));
        is(&rt, cache.try_ask(&key), Ok(key * key + 1));
    }
    is(
        &rt,
        (
            cache.hits(),
            cache.misses(),
            computed.load(Ordering::SeqCst),
        ),
        (100, 100, 100),
    );
}

#[test]
fn a_bound_of_none_keeps_none(rt: HostRuntime) {
    let (computed, goes_on) = (AtomicU64::new(0), AtomicU64::new(1));
    let cache = Memo::with_bound(rt.alloc(), rule_of(&computed, &goes_on), 0, 1).expect(
        &rt, "refused",
    );
    for _ in 0..3 {
        is(
            &rt,
            (cache.ask(&rt, &5), cache.try_ask(&5)),
            (Ok(26), Ok(26)),
        );
    }
    is(
        &rt,
        (cache.bound(), cache.len(&rt), cache.capacity(&rt)),
        (0, 0, 0),
    );
    is(
        &rt,
        (
            cache.hits(),
            cache.misses(),
            computed.load(Ordering::SeqCst),
        ),
        (0, 6, 6),
    );
}

// What is found is a hit, by either call. What isn't is a miss, also where it isn't kept.
#[test]
fn hits_and_misses_are_counted(rt: HostRuntime) {
    let (computed, goes_on) = (AtomicU64::new(0), AtomicU64::new(1));
    let rule = rule_of(&computed, &goes_on);
    let cache = Memo::new(rt.alloc(), rule, 1).expect(&rt, "refused");
    is(&rt, (cache.hits(), cache.misses()), (0, 0));
    for key in [3, 3, 5, 3] {
        is(&rt, cache.ask(&rt, &key), Ok(key * key + 1));
    }
    is(&rt, (cache.hits(), cache.misses()), (2, 2));
    for key in [5, 7] {
        is(&rt, cache.try_ask(&key), Ok(key * key + 1));
    }
    is(&rt, (cache.hits(), cache.misses()), (3, 3));
    cache.clear(&rt);
    is(&rt, cache.ask(&rt, &3), Ok(10));
    is(&rt, (cache.hits(), cache.misses()), (3, 4));
}

// Four threads ask for 100,000 keys, each by turns for those of the others, of a cache that keeps a thousand.
#[test]
fn a_bound_is_kept_among_threads(rt: HostRuntime) {
    let (computed, goes_on) = (AtomicU64::new(0), AtomicU64::new(1));
    let cache = Memo::with_bound(rt.alloc(), rule_of(&computed, &goes_on), 1_000, 4).expect(
        &rt, "refused",
    );
    let most = cache.bound().saturating_mul(16);
    is(&rt, (cache.bound(), most), (63, 1_008));
    let (wrong, over) = (AtomicU64::new(0), AtomicU64::new(0));
    let mut threads = [0u64, 1, 2, 3];
    thread::for_each_mut(
        &rt,
        &mut threads,
        4,
        &|_, thread: &mut u64| {
            for step in 0..100_000u64 {
                let key = step.wrapping_mul(thread.wrapping_mul(2).wrapping_add(1)) % 100_000;
                if cache.ask(&rt, &key) != Ok(key.wrapping_mul(key).wrapping_add(1)) {
                    wrong.fetch_add(1, Ordering::SeqCst);
                }
                if step % 100 == 0 && cache.len(&rt) > most {
                    over.fetch_add(1, Ordering::SeqCst);
                }
            }
        },
    );
    is(
        &rt,
        (wrong.load(Ordering::SeqCst), over.load(Ordering::SeqCst)),
        (0, 0),
    );
    is(&rt, cache.hits().wrapping_add(cache.misses()), 400_000);
    is(&rt, cache.len(&rt) > 900, true);
}

// A key that equals all others, and its value too. Once `come` was set to 0, two copies wait for each other.
#[derive_where(PartialEq, Eq, Hash)]
#[derive(Drop)]
struct Met<'a> {
    #[derive_where(skip(EqHashOrd))]
    come: &'a AtomicU64,
}

impl Kept for Met<'_> {
    ghost use Rattle.std.specs.Prelude.{true, refl};

    ghost alike = { λ _ _. true };

    ghost alike_laws = { record { refl = λ x. refl; symm = λ x y. refl; congr = λ x y z same. refl } };

    fn copy(&self) -> Result<Self, AllocError> {
        self.come.fetch_add(1, Ordering::SeqCst);
        for _ in 0..1_000_000u64 {
            if self.come.load(Ordering::SeqCst) >= 2 {
                return Ok(Met { come: self.come });
            }
            thread::yield_now();
        }
        Err(AllocError)
    }

    fn same(&self, _: &Self) -> bool {
        true
    }
}

impl KeptKey for Met<'_> {
    ghost use Rattle.std.specs.Prelude.{refl};

    ghost alike_equal = { λ j k same. refl };
}

// The key is its value.
#[derive(Drop)]
struct Meeting;

impl<'a> Rule<Met<'a>, Met<'a>> for Meeting {
    ghost use Rattle.std.specs.Prelude.{refl};

    ghost value_of = { λ key. key };

    fn compute(&self, key: &Met<'a>) -> Result<Met<'a>, AllocError> {
        Ok(Met { come: key.come })
    }

    ghost equal_alike = { λ j k same. refl };
}

// A hit copies its value while it holds the shard. Of two hits neither ends before the other's copy has begun, or it is refused in the end.
#[test]
fn two_hits_are_at_one_time(rt: HostRuntime) {
    let come = AtomicU64::new(2);
    let key = Met { come: &come };
    let cache = Memo::new(rt.alloc(), Meeting, 1).expect(&rt, "refused");
    is(&rt, cache.ask(&rt, &key).is_ok(), true);
    come.store(0, Ordering::SeqCst);
    let (one, other) = thread::join(&rt, || cache.ask(&rt, &key), || cache.ask(&rt, &key));
    is(
        &rt,
        (one.is_ok(), other.is_ok(), cache.hits()),
        (true, true, 2),
    );
    is(&rt, come.load(Ordering::SeqCst), 2);
}

// The key itself, in memory of its own.
#[derive(Drop)]
struct Echo;

impl Rule<String, String> for Echo {
    ghost value_of = { λ text. text };

    fn compute(&self, key: &String) -> Result<String, AllocError> {
        key.copy()
    }

    ghost equal_alike = { λ j k same. same };
}

type Echoes = Memo<String, String, Echo>;

fn make(alloc: Global) -> Result<Echoes, ConstructError> {
    Memo::new(alloc, Echo, 1)
}

// A cache. Where the first try found no memory the second finds some.
fn echoes(rt: &impl Abort, alloc: Global) -> Echoes {
    match make(alloc) {
        Ok(cache) => cache,
        Err(refused) => {
            is(rt, refused, ConstructError::Memory);
            make(alloc).expect(rt, "refused twice")
        }
    }
}

// One request for memory is refused, as `rt try --test --fail-alloc` makes it, or none is: the refusal is named, or the value answered
// all the same. Later calls answer.
#[test]
fn one_refusal_is_named_and_over(rt: HostRuntime) {
    let cache = echoes(&rt, rt.alloc());
    let Ok(key) = format!(in rt.alloc(); "fox") else {
        return;
    };
    let mut refused = 0u64;
    for _ in 0..2 {
        for answer in [cache.ask(&rt, &key), cache.try_ask(&key)] {
            match answer {
                Ok(value) => is(&rt, value.as_str(), "fox"),
                Err(MemoRefused {}) => refused = refused.saturating_add(1),
            }
        }
    }
    is(&rt, (refused <= 1, cache.len(&rt) <= 1), (true, true));
}

#[test]
fn the_refusal_has_its_number(rt: HostRuntime) -> Result<(), Fail> {
    let text = format!(in rt.alloc(); "{}", MemoRefused {})?;
    is(&rt, text.as_str(), "no memory (25)");
    Ok(())
}

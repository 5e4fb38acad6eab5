//! A runtime for one waiter, by which a test sees whether the end of a hold wakes who sleeps behind it.
use dash_shard::lock::{RwLock, Tagged};
use std::cell::Cell;
use std::io;
use std::rt::Clock;
use std::sync::Wait;
use std::time::Duration;

/// A waiter may lose its processor while it sleeps, so a test asks for one round of so many in which the sleep was short.
pub(crate) const ROUNDS: u64 = 100;

/// How many nanoseconds a waiter sleeps that nobody wakes.
const WHOLE: u128 = 1_000_000;

/// A waiter asks it the time right before each sleep and right after it, and nowhere else. The first question ends what the waiter sleeps
/// behind, too late for the waiter to see it in the word: so it sleeps a whole millisecond, unless it is woken.
#[derive(Drop)]
pub(crate) struct Nap<'a, R, B: Drop> {
    rt: &'a R,
    behind: Cell<Option<B>>,
    questions: Cell<u64>,
    began: Cell<Duration>,
    is_short: Cell<bool>,
}

impl<'a, R, B: Drop> Nap<'a, R, B> {
    pub(crate) fn behind(rt: &'a R, hold: B) -> Nap<'a, R, B> {
        Nap {
            rt,
            behind: Cell::new(Some(hold)),
            questions: Cell::new(0),
            began: Cell::new(Duration::ZERO),
            is_short: Cell::new(false),
        }
    }

    /// How often the waiter slept.
    pub(crate) fn sleeps(&self) -> u64 {
        self.questions.get() / 2
    }

    /// Whether it slept once, and was woken.
    pub(crate) fn is_woken(&self) -> bool {
        self.questions.get() == 2 && self.is_short.get()
    }
}

impl<R: Wait, B: Drop> Wait for Nap<'_, R, B> {}

impl<R: Wait + Clock, B: Drop> Clock for Nap<'_, R, B> {
    fn monotonic(&self) -> io::Result<Duration> {
        let questions = self.questions.get();
        self.questions.set(questions.saturating_add(1));
        if questions == 0 {
            drop(self.behind.replace(None));
            self.began.set(self.rt.monotonic()?);
        }
        let now = self.rt.monotonic()?;
        if questions == 1 {
            self.is_short
                .set(now.saturating_sub(self.began.get()).as_nanos() < WHOLE);
        }
        Ok(now)
    }

    fn since_1970(&self) -> io::Result<Duration> {
        self.rt.since_1970()
    }
}

/// Whether the end of `hold` wakes a reader that sleeps behind it.
pub(crate) fn wakes_reader<R: Wait + Clock, T: Tagged, B: Drop>(
    rt: &R,
    lock: &RwLock<T>,
    hold: B,
) -> bool {
    let nap = Nap::behind(rt, hold);
    drop(lock.read(&nap));
    nap.is_woken()
}

/// The same of a writer.
pub(crate) fn wakes_writer<R: Wait + Clock, T: Tagged, B: Drop>(
    rt: &R,
    lock: &RwLock<T>,
    hold: B,
) -> bool {
    let nap = Nap::behind(rt, hold);
    drop(lock.write(&nap));
    nap.is_woken()
}

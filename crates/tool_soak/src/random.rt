//! Random numbers, the same at every run for a seed.

/// A stream of numbers that look random, by splitmix64.
#[derive(Clone, Copy)]
pub struct Random {
    state: u64,
}

impl Random {
    /// The stream of a thread.
    pub fn of(seed: u64, thread: u64) -> Random {
        let mut seeds = Random { state: seed };
        for _ in 0..thread {
            seeds.next();
        }
        Random {
            state: seeds.next(),
        }
    }

    /// The next number.
    #[inline]
    pub fn next(&mut self) -> u64 {
        self.state = self.state.wrapping_add(0x9e37_79b9_7f4a_7c15);
        mixed(self.state)
    }
}

/// A number whose bits look random, another one for each number.
#[inline]
pub fn mixed(number: u64) -> u64 {
    let mut mixed = number;
    mixed = (mixed ^ (mixed >> 30)).wrapping_mul(0xbf58_476d_1ce4_e5b9);
    mixed = (mixed ^ (mixed >> 27)).wrapping_mul(0x94d0_49bb_1331_11eb);
    mixed ^ (mixed >> 31)
}

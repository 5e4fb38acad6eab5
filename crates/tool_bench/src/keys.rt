//! How numbers are drawn, and the keys that they have.

/// The key of a number. Its bits are mixed by steps that can be undone, so no two numbers have one key.
#[inline]
pub fn key(number: u64) -> u64 {
    let mut key = number.wrapping_mul(0x9e37_79b9_7f4a_7c15);
    key = (key ^ (key >> 30)).wrapping_mul(0xbf58_476d_1ce4_e5b9);
    key = (key ^ (key >> 27)).wrapping_mul(0x94d0_49bb_1331_11eb);
    key ^ (key >> 31)
}

/// How a loop draws numbers and makes keys of them.
pub trait Keys: Copy + Send + Sync {
    /// The key of a number. No two numbers have one key.
    fn key(&self, number: u64) -> u64;

    /// A number below `count`, or 0 where that is 0.
    fn below(&self, drawn: u64, count: u64) -> u64;
}

/// Keys of many steps, drawn by the rest of a division.
#[derive(Clone, Copy)]
pub struct Mixed;

impl Keys for Mixed {
    #[inline(always)]
    fn key(&self, number: u64) -> u64 {
        key(number)
    }

    #[inline(always)]
    fn below(&self, drawn: u64, count: u64) -> u64 {
        drawn % count.max(1)
    }
}

/// Keys by one multiplication and a shift, drawn by a mask: each number below `count` where that is a power of two.
#[derive(Clone, Copy)]
pub struct Masked;

impl Keys for Masked {
    #[inline(always)]
    fn key(&self, number: u64) -> u64 {
        let key = number.wrapping_mul(0xd134_2543_de82_ef95);
        key ^ (key >> 32)
    }

    #[inline(always)]
    fn below(&self, drawn: u64, count: u64) -> u64 {
        drawn & count.saturating_sub(1)
    }
}

/// Numbers that look random, from a seed.
#[derive(Clone, Copy)]
pub struct Random {
    state: u64,
}

impl Random {
    pub fn new(seed: u64) -> Self {
        Random {
            state: key(seed) | 1,
        }
    }

    /// The next number, by xorshift.
    #[inline]
    pub fn next(&mut self) -> u64 {
        let mut state = self.state;
        state ^= (state & 0x0007_ffff_ffff_ffff) << 13;
        state ^= state >> 7;
        state ^= (state & 0x0000_7fff_ffff_ffff) << 17;
        self.state = state;
        state
    }
}

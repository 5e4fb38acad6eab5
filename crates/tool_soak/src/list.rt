//! What has to stand at each number.

use crate::random::mixed;
use std::alloc::{AllocError, Global};

/// What a map or a set has to have: at each number a value, or nothing.
#[derive(Drop)]
pub struct List {
    pub values: Vec<Option<u64>>,
}

impl List {
    /// A list that has nothing, at so many numbers. It takes memory.
    pub fn new(alloc: Global, numbers: usize) -> Result<List, AllocError> {
        let mut values = Vec::with_capacity(alloc, numbers)?;
        for _ in 0..numbers {
            values.push(None)?;
        }
        Ok(List { values })
    }

    /// What stands at a number.
    #[inline]
    pub fn at(&self, number: u64) -> Option<u64> {
        *self.values.get(number as usize)?
    }

    /// Puts a value at a number, or nothing.
    #[inline]
    pub fn put(&mut self, number: u64, value: Option<u64>) {
        if let Some(stood) = self.values.get_mut(number as usize) {
            *stood = value;
        }
    }

    /// Takes all values out.
    pub fn clear(&mut self) {
        for value in &mut self.values {
            *value = None;
        }
    }

    /// How many values there are, of the numbers that leave a remainder by a divisor, and what they weigh.
    pub fn sums(&self, remainder: u64, divisor: u64) -> (u64, u64) {
        let (mut number, mut count, mut sum) = (0u64, 0u64, 0u64);
        for value in &self.values {
            if let Some(value) = value
                && number % divisor.max(1) == remainder
            {
                count = count.wrapping_add(1);
                sum = sum.wrapping_add(weight(number, *value));
            }
            number = number.wrapping_add(1);
        }
        (count, sum)
    }
}

/// What a value at a number weighs: a number that looks random.
pub fn weight(number: u64, value: u64) -> u64 {
    mixed(mixed(number) ^ value)
}

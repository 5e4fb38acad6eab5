//! Why a map or a shard can't be made, or can't grow.
use std::alloc::AllocError;
use thiserror::Error;

/// Why a map or a shard can't be made. Nothing is made then.
#[derive(Clone, Copy, Debug, PartialEq, Eq, Error)]
pub enum ConstructError {
    /// The amount of shards is no power of two above 1.
    #[error("shard amount (5)")]
    ShardAmount,
    /// The parallelism is 0 or above 2^61.
    #[error("parallelism (6)")]
    Parallelism,
    /// The capacity, rounded up to a multiple of the amount, has more than 64 bits.
    #[error("capacity overflow (7)")]
    CapacityOverflow,
    /// There is no memory.
    #[error("no memory (8)")]
    Memory,
    /// The number of callers is not 1 to 65,536.
    #[error("callers (17)")]
    Callers,
}

/// There is no memory for so many slots (11), or they are more than there can be. All pairs are kept.
#[derive(Clone, Copy, Debug, PartialEq, Eq, Error)]
#[error("no memory (11)")]
pub struct TryReserveError {}

/// So that `map.try_reserve(100)?` converts.
impl From<TryReserveError> for AllocError {
    fn from(_: TryReserveError) -> Self {
        AllocError
    }
}

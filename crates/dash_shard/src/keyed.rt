//! Names for contracts: of a type's keys, and of a type that lends. They have no counterpart in the original.
ghost use Rattle.dash_shard.specs.Words.{KeyHash};

/// Names, for contracts alone, which keys of a type are equal and the hash that each gets. It has no function and no code.
pub trait Keyed {
    type Key;

    type State;

    ghost by: { KeyHash Self.Key Self.State };
}

/// Names, for contracts alone, a type whose values lend a value of theirs for writing. It has no function and no code.
pub trait Lender {
    ghost use Rattle.std.specs.Borrow.{RattleType};

    ghost row: { RattleType };
}

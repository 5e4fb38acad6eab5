//! What a recorded type knows, by a name for its contracts. It has no counterpart in the original.
ghost use Rattle.dash_steps.specs.Words.{Known};

/// Names, for contracts alone, what a recorded type knows of its keys, values, actions and hasher. It has no function and no
/// code.
pub trait Recorded {
    type Key;

    type Value;

    type Action;

    type State;

    ghost known: { Known Self.Key Self.Value Self.Action Self.State };
}

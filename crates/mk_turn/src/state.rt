//! What a state means to those who change it in turns.
ghost use Rattle.mk_turn.specs.Meanings.{Meaning, Laws};

/// A state that is changed in turns. The types are what its meaning speaks of; no value of them is
/// made.
pub trait TurnState {
    type Claim;

    type Entry;

    type Move;

    type Fixed;

    type Notice;

    type Whole;

    ghost meaning: { Meaning Self
        Self.Claim Self.Entry Self.Move Self.Fixed Self.Notice Self.Whole };

    ghost laws: { Laws meaning };
}

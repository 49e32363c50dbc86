use mk_model::Entry;

/// The positive or the negative part of a vector.
#[derive(Clone, Copy, Debug, PartialEq, Eq)]
pub enum Side {
    Plus,
    Minus,
}

impl Side {
    ghost use Rattle.std.specs.Prelude.{◌≡◌};
    ghost use Rattle.mk_model.specs.Vectors.{IsEntry};
    ghost use Rattle.mk_move.specs.Sides.{entry_on};

    /// The entry of the part on this side, where this is the entry of the vector.
    pub(crate) fn entry_of(self, entry: Entry) -> Entry
        requires { IsEntry entry }
        ensures { result ≡ entry_on self entry }
    {
        match self {
            Side::Plus => entry.max(0),
            Side::Minus => (-entry).max(0),
        }
    }
}

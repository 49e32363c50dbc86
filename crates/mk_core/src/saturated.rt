ghost use Rattle.std.specs.Prelude.{◌≡◌};
ghost use Rattle.mk_core.specs.SaturatedBases.{IsSaturated};

use mk_move::Basis;
use std::marker::Model;

/// A Markov basis of the lattice of its moves, completed along the standard list, of which no move is redundant.
#[derive(Debug, Drop)]
pub struct SaturatedBasis {
    basis: Basis,
}

impl Model for SaturatedBasis {
    ghost use Rattle.mk_move.specs.MoveLists.{BasisView};
    ghost use Rattle.mk_core.specs.SaturatedBases.{IsSaturated};

    ghost Value = { BasisView };

    ghost view = { λ s. s.basis };

    ghost invariant = { λ s. IsSaturated s.basis };
}

impl SaturatedBasis {
    /// The basis as one that is saturated.
    pub fn new(basis: Basis) -> SaturatedBasis
        requires { IsSaturated basis }
        ensures { result ≡ basis }
    {
        SaturatedBasis { basis }
    }

    /// Its moves.
    pub fn basis(&self) -> &Basis
        ensures value { result.now ≡ self.now }
        ensures kept { IsSaturated self.now }
    {
        &self.basis
    }
}

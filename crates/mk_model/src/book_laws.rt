//! The laws of a run's book. Each is the contract of a function that takes nothing and gives
//! nothing.

ghost use Rattle.std.specs.Prelude.{ℕ, ◌≤◌, length};
ghost use Rattle.mk_model.specs.Books.{PlainBook, PlainStop, HasStopped};
ghost use Rattle.mk_model.specs.Lattices.{Lattice, HasGrading, nonzero_rows};

/// A lattice of at most one nonzero row gives no cause to stop, whatever the budget: its phases
/// have no pair, no tail of it is reduced, and its reduced basis has no pair.
pub fn one_row_never_stops()
    ensures { (lattice : Lattice) (budget : ℕ) (book : PlainBook) (stop : PlainStop) →
        HasGrading lattice →
        length (nonzero_rows lattice.rows) ≤ 1 → ¬ (HasStopped lattice budget book stop) }
{}

//! The laws of a lattice with its costs in one column more. Each is the contract of a function that takes nothing and gives nothing.

ghost use Rattle.std.specs.Prelude.{◌≡◌, suc, List, length, ℤ};
ghost use Rattle.mk_model.specs.Cheapest.{IsOfFibre, IsNormalForm, IsLeastCheapest, TimesRow, WalksDown};
ghost use Rattle.mk_model.specs.Lattices.{Lattice, HasGrading};
ghost use Rattle.mk_model.specs.Lifting.{lifted, lifted_rows, gains_of, lifted_lattice, CanLift, lowered};
ghost use Rattle.mk_model.specs.Vectors.{IsPoint};

/// The lifted rows have the lifted grading. The fibre of a vector and that of the vector lifted correspond, one to one. And the
/// normal form of the lifted vector is, lifted, the least of the cheapest vectors of the fibre; a walk down to it is one in the
/// fibre without the further column.
pub fn lifted_fibres()
    ensures graded { (lattice : Lattice) (prices : List ℤ) (gain raise : ℤ) → HasGrading lattice →
        CanLift lattice prices gain raise → HasGrading (lifted_lattice raise prices lattice) }
    ensures there { (lattice : Lattice) (prices : List ℤ) (gain raise : ℤ) (x y : List ℤ) → HasGrading lattice →
        CanLift lattice prices gain raise → IsPoint lattice.columns x → IsOfFibre lattice.columns lattice.rows x y →
        IsOfFibre (suc lattice.columns) (lifted_rows prices lattice.rows)
        (lifted (gains_of gain lattice.grading prices) x) (lifted (gains_of gain lattice.grading prices) y) }
    ensures back { (lattice : Lattice) (prices : List ℤ) (gain raise : ℤ) (x z : List ℤ) → HasGrading lattice →
        CanLift lattice prices gain raise → IsPoint lattice.columns x →
        IsOfFibre (suc lattice.columns) (lifted_rows prices lattice.rows) (lifted (gains_of gain lattice.grading prices) x) z →
        (y : List ℤ) × (z ≡ lifted (gains_of gain lattice.grading prices) y) × IsOfFibre lattice.columns lattice.rows x y }
    ensures cheapest { (lattice : Lattice) (prices : List ℤ) (gain raise : ℤ) (x z : List ℤ) → HasGrading lattice →
        CanLift lattice prices gain raise → IsPoint lattice.columns x →
        IsNormalForm (suc lattice.columns) (lifted_rows prices lattice.rows) (lifted (gains_of gain lattice.grading prices) x) z →
        (y : List ℤ) × (z ≡ lifted (gains_of gain lattice.grading prices) y)
        × IsLeastCheapest lattice.columns lattice.rows prices x y }
    ensures walk { (lattice : Lattice) (prices : List ℤ) (gain raise : ℤ) (steps : List TimesRow) (x y : List ℤ) → HasGrading lattice →
        CanLift lattice prices gain raise → length x ≡ lattice.columns → length y ≡ lattice.columns →
        WalksDown (suc lattice.columns) (lifted_rows prices lattice.rows)
        (lifted (gains_of gain lattice.grading prices) x) steps (lifted (gains_of gain lattice.grading prices) y) →
        WalksDown lattice.columns lattice.rows x (lowered lattice.columns steps) y }
{}

//! The laws of the tableau. Each is the contract of a function that takes nothing and gives
//! nothing.

ghost use Rattle.std.specs.Prelude.{◌≡◌, ℕ, ℤ, suc, ◌+◌, List, [], length, get_or, All, ◌<◌, ◌≤ℤ◌, pos, ◌*ℤ◌, ◌<ℤ◌};
ghost use Rattle.mk_model.specs.Vectors.{weight, entry, IsPoint};
ghost use Rattle.mk_model.specs.Lattices.{HasGrading, combination, lattice_of, ones};
ghost use Rattle.mk_model.specs.Tableaux.{Tableau, tableau_row, balancing_sides, basic_solution, Pivots, IsEntering, IsFeasible, IsForbiddingEnd, IsGradedEnd, IsLeaving, cross_product};

/// The divisions of a pivot leave no remainder: after any pivots the denominator is positive and
/// divides what the next pivot divides by it, in each row and in the costs.
pub fn pivots_divide_exactly()
    ensures positive { (n made : ℕ) (sides : List ℤ) (rows : List (List ℤ)) (t : Tableau) →
        All (λ row. length row ≡ n) rows → Pivots n sides rows made t → pos 0 <ℤ t.denominator }
    ensures rows { (n made : ℕ) (sides : List ℤ) (rows : List (List ℤ)) (t : Tableau) (column place i c : ℕ) →
        All (λ row. length row ≡ n) rows → Pivots n sides rows made t →
        IsEntering n t column → IsLeaving n t column place → i < length t.rows → c < n + suc (length rows) →
        (a : ℤ) × (t.denominator *ℤ a ≡ cross_product column (tableau_row t place) (tableau_row t i) c) }
    ensures costs { (n made : ℕ) (sides : List ℤ) (rows : List (List ℤ)) (t : Tableau) (column place c : ℕ) →
        All (λ row. length row ≡ n) rows → Pivots n sides rows made t →
        IsEntering n t column → IsLeaving n t column place → c < n + length rows →
        (a : ℤ) × (t.denominator *ℤ a ≡ cross_product column (tableau_row t place) t.costs c) }
{}

/// Where a column enters, a row can leave: some row has an entry above 0 in that column.
pub fn entering_column_has_a_pivot()
    ensures { (n made : ℕ) (sides : List ℤ) (rows : List (List ℤ)) (t : Tableau) (column : ℕ) →
        All (λ row. length row ≡ n) rows → Pivots n sides rows made t → IsEntering n t column →
        ¬ ((i : ℕ) → i < length t.rows → entry (tableau_row t i) column ≤ℤ pos 0) }
{}

/// A feasible tableau gives a nonnegative solution: each row's product with it is the
/// denominator times the row's right side. With the balancing right sides it gives a grading.
pub fn graded_end_is_a_grading()
    ensures solution { (n made : ℕ) (sides : List ℤ) (rows : List (List ℤ)) (t : Tableau) →
        All (λ row. length row ≡ n) rows → Pivots n sides rows made t → IsFeasible n t →
        (i : ℕ) → i < length rows →
        weight (basic_solution n t) (get_or rows i []) ≡ t.denominator *ℤ entry sides i }
    ensures nonnegative { (n made : ℕ) (sides : List ℤ) (rows : List (List ℤ)) (t : Tableau) →
        All (λ row. length row ≡ n) rows → Pivots n sides rows made t →
        (c : ℕ) → pos 0 ≤ℤ entry (basic_solution n t) c }
    ensures grading { (n made : ℕ) (rows : List (List ℤ)) (t : Tableau) (w : List ℤ) →
        All (λ row. length row ≡ n) rows → Pivots n (balancing_sides n rows) rows made t → IsGradedEnd n t w →
        HasGrading (lattice_of n rows w) }
{}

/// Where no column can enter a tableau that is not feasible, the vector it gives is a combination
/// of the rows, nowhere below 0, and the right sides, combined so, are below 0: no nonnegative
/// solution has them. With the balancing right sides the vector is not zero, and so the lattice
/// has no grading.
pub fn forbidding_end_forbids()
    ensures combined { (n made : ℕ) (sides : List ℤ) (rows : List (List ℤ)) (t : Tableau) (factors vector : List ℤ) →
        All (λ row. length row ≡ n) rows → Pivots n sides rows made t →
        IsForbiddingEnd n (length rows) sides t factors vector → vector ≡ combination n (entry factors) rows }
    ensures nonnegative { (n made : ℕ) (sides : List ℤ) (rows : List (List ℤ)) (t : Tableau) (factors vector : List ℤ) →
        All (λ row. length row ≡ n) rows → Pivots n sides rows made t →
        IsForbiddingEnd n (length rows) sides t factors vector → IsPoint n vector }
    ensures sides { (n made : ℕ) (sides : List ℤ) (rows : List (List ℤ)) (t : Tableau) (factors vector : List ℤ) →
        All (λ row. length row ≡ n) rows → Pivots n sides rows made t →
        IsForbiddingEnd n (length rows) sides t factors vector → weight factors sides <ℤ pos 0 }
    ensures positive { (n made : ℕ) (rows : List (List ℤ)) (t : Tableau) (factors vector : List ℤ) →
        All (λ row. length row ≡ n) rows → Pivots n (balancing_sides n rows) rows made t →
        IsForbiddingEnd n (length rows) (balancing_sides n rows) t factors vector → pos 0 <ℤ weight (ones n) vector }
    ensures no_grading { (n made : ℕ) (rows : List (List ℤ)) (t : Tableau) (factors vector w : List ℤ) →
        All (λ row. length row ≡ n) rows → Pivots n (balancing_sides n rows) rows made t →
        IsForbiddingEnd n (length rows) (balancing_sides n rows) t factors vector → ¬ (HasGrading (lattice_of n rows w)) }
{}

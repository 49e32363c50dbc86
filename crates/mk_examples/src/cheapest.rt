//! Worked examples of normal forms, of cheapest vectors and of walks down. Each is the contract of a function that takes nothing and
//! gives nothing.

ghost use Rattle.std.specs.Prelude.{[], ◌∷◌, pos, neg_ℤ};
ghost use Rattle.mk_model.specs.Cheapest.{IsNormalForm, IsCheapest, IsLeastCheapest, WalksDown};
ghost use Rattle.mk_examples.specs.Worked.{cubic_first, cubic_third, cubic_rows, like_rows};

/// On the twisted cubic the normal form of (0 3 0 0) is (2 0 0 1), and the moves (-1 2 -1 0) and (-1 1 1 -1), each taken off once, lead
/// there by way of (1 1 1 0). Of three like columns a fibre has the three unit vectors; where the first column alone has a price, two of
/// them are cheapest, and the last is the least of them.
pub fn cheapest_examples()
    ensures normal_form { IsNormalForm 4 cubic_rows (pos 0 ∷ pos 3 ∷ pos 0 ∷ pos 0 ∷ []) (pos 2 ∷ pos 0 ∷ pos 0 ∷ pos 1 ∷ []) }
    ensures walk { WalksDown 4 cubic_rows (pos 0 ∷ pos 3 ∷ pos 0 ∷ pos 0 ∷ [])
        (record { times = pos 1; row = cubic_first } ∷ record { times = pos 1; row = cubic_third } ∷ [])
        (pos 2 ∷ pos 0 ∷ pos 0 ∷ pos 1 ∷ []) }
    ensures middle { IsCheapest 3 like_rows (pos 1 ∷ pos 0 ∷ pos 0 ∷ []) (pos 1 ∷ pos 0 ∷ pos 0 ∷ []) (pos 0 ∷ pos 1 ∷ pos 0 ∷ []) }
    ensures last { IsCheapest 3 like_rows (pos 1 ∷ pos 0 ∷ pos 0 ∷ []) (pos 1 ∷ pos 0 ∷ pos 0 ∷ []) (pos 0 ∷ pos 0 ∷ pos 1 ∷ []) }
    ensures dearer { ¬ (IsCheapest 3 like_rows (pos 1 ∷ pos 0 ∷ pos 0 ∷ []) (pos 1 ∷ pos 0 ∷ pos 0 ∷ []) (pos 1 ∷ pos 0 ∷ pos 0 ∷ [])) }
    ensures least { IsLeastCheapest 3 like_rows (pos 1 ∷ pos 0 ∷ pos 0 ∷ []) (pos 1 ∷ pos 0 ∷ pos 0 ∷ []) (pos 0 ∷ pos 0 ∷ pos 1 ∷ []) }
{}

//! The laws of the definitions. Each is the contract of a function that takes nothing and gives
//! nothing.

ghost use Rattle.std.specs.Prelude.{◌≡◌, ◌⊎◌, ℕ, ℤ, List, [], ◌∷◌, ◌++◌, length, ◌≤◌, ◌<◌, Bool};
ghost use Rattle.std.specs.Prelude.{false, IsTrue, All, AllPairs, Contains, Option, None, pos};
ghost use Rattle.std.specs.Prelude.{◌≤ℤ◌, ◌<ℤ◌, ◌↔◌};
ghost use Rattle.mk_model.specs.Tables.{Grid, Limits, ReadsTable};
ghost use Rattle.mk_model.specs.TableFaults.{Fault, HasFault};
ghost use Rattle.mk_model.specs.Vectors.{negate, entry, zeros, add, subtract, negative_part};
ghost use Rattle.mk_model.specs.Vectors.{weight, IsPoint};
ghost use Rattle.mk_model.specs.Lattices.{Lattice, HasGrading, nonzero_rows, InLattice};
ghost use Rattle.mk_model.specs.Walks.{Joined, Members};
ghost use Rattle.mk_model.specs.Orders.{IsBelow, standard, IsOriented, lead, ComesBefore};
ghost use Rattle.mk_model.specs.Bases.{IsMinimalMarkovBasis, IsAnswer, ListsEssentialMoves};
ghost use Rattle.mk_model.specs.Bases.{IsEssential, MovesBefore, IsUpTo, IsMarkov, IsMarkovUpTo};
ghost use Rattle.mk_model.specs.Bases.{IsMinimal};
ghost use Rattle.mk_model.specs.Reductions.{lcm, Divides, Meet, Reduct, IsIrreducible};
ghost use Rattle.mk_model.specs.Pairs.{AreOrientedMoves, JoinedBelow, EveryPairJoined, AreDisjoint};
ghost use Rattle.mk_model.specs.FreeColumns.{is_left, freed_by_rows};
ghost use Rattle.mk_model.specs.Saturation.{IsSupported, every_column, without_column};
ghost use Rattle.mk_model.specs.Saturation.{ConnectedUpTo, IsSignedRow, drop_redundant};
ghost use Rattle.mk_model.specs.Saturation.{NoneRedundant};
ghost use Rattle.mk_model.specs.ReducedBases.{IsLeast, IsReducedBasis, LighterMoves};
ghost use Rattle.mk_model.specs.ReducedBases.{IsLeastOfComponent, IsStarMove};
ghost use Rattle.mk_model.specs.CoreStates.{Settle, CoreState, start_of, new_state, phase_state};
ghost use Rattle.mk_model.specs.Events.{Event, Happens, HappenInTurn};
ghost use Rattle.mk_model.specs.Legal.{IsNext, Replays, IsLegal, IsEnded};
ghost use Rattle.mk_model.specs.Programs.{Stage, Drives};

/// A lattice of zero rows has no move, and the answer has none.
pub fn answer_without_rows()
    ensures { (lattice : Lattice) → HasGrading lattice →
        nonzero_rows lattice.rows ≡ [] → IsMinimalMarkovBasis lattice None [] }
{}

/// The answer for a lattice of one nonzero row is that row or its negative, whichever is
/// oriented.
pub fn answer_of_one_row()
    ensures { (lattice : Lattice) (row m : List ℤ) → HasGrading lattice →
        nonzero_rows lattice.rows ≡ row ∷ [] → (m ≡ row) ⊎ (m ≡ negate row) →
        IsOriented (standard lattice.columns) m →
        IsMinimalMarkovBasis lattice None (m ∷ []) }
{}

/// Two joined vectors stay joined where the same nonnegative vector is added to both.
pub fn join_translate()
    ensures by_list { (n : ℕ) (moves : List (List ℤ)) (x y t : List ℤ) →
        Joined n (Members moves) x y → IsPoint n t → Joined n (Members moves) (add x t) (add y t) }
    ensures by_test { (n : ℕ) (test : List ℤ → Bool) (x y t : List ℤ) →
        Joined n (λ m. IsTrue (test m)) x y → IsPoint n t →
        Joined n (λ m. IsTrue (test m)) (add x t) (add y t) }
    ensures by_earlier { (lattice : Lattice) (m x y t : List ℤ) →
        Joined lattice.columns (MovesBefore lattice m) x y → IsPoint lattice.columns t →
        Joined lattice.columns (MovesBefore lattice m) (add x t) (add y t) }
    ensures by_lighter { (lattice : Lattice) (bound : ℤ) (x y t : List ℤ) →
        Joined lattice.columns (LighterMoves lattice bound) x y → IsPoint lattice.columns t →
        Joined lattice.columns (LighterMoves lattice bound) (add x t) (add y t) }
{}

/// Along a priority list "below" is a strict order of vectors. Of two vectors of n columns one is
/// below the other or they are equal, along each list that has all columns, as the standard list.
pub fn below_is_strict_and_total()
    ensures irreflexive { (priority : List ℕ) (x : List ℤ) → ¬ (IsBelow priority x x) }
    ensures asymmetric { (priority : List ℕ) (x y : List ℤ) → IsBelow priority x y →
        ¬ (IsBelow priority y x) }
    ensures transitive { (priority : List ℕ) (x y z : List ℤ) →
        IsBelow priority x y → IsBelow priority y z → IsBelow priority x z }
    ensures total { (n : ℕ) (priority : List ℕ) (x y : List ℤ) → length x ≡ n → length y ≡ n →
        ((c : ℕ) → c < n → Contains priority c) → (IsBelow priority x y ⊎ IsBelow priority y x)
        ⊎ (x ≡ y) }
    ensures total_standard { (n : ℕ) (x y : List ℤ) → length x ≡ n → length y ≡ n →
        (IsBelow (standard n) x y ⊎ IsBelow (standard n) y x) ⊎ (x ≡ y) }
    ensures all_standard { (n c : ℕ) → c < n → Contains (standard n) c }
{}

/// The order of moves is strict, and total on vectors of n columns, whatever the grading.
pub fn move_order_is_strict_and_total()
    ensures irreflexive { (n : ℕ) (w m : List ℤ) → ¬ (ComesBefore n w m m) }
    ensures asymmetric { (n : ℕ) (w m other : List ℤ) → ComesBefore n w m other →
        ¬ (ComesBefore n w other m) }
    ensures transitive { (n : ℕ) (w m middle last : List ℤ) →
        ComesBefore n w m middle → ComesBefore n w middle last → ComesBefore n w m last }
    ensures total { (n : ℕ) (w m other : List ℤ) → length m ≡ n → length other ≡ n →
        (ComesBefore n w m other ⊎ ComesBefore n w other m) ⊎ (m ≡ other) }
{}

/// Every fibre of a lattice with a grading is finite: each entry of its vectors is from 0 to
/// their weight, and a list has them all.
pub fn every_fibre_is_finite()
    ensures bounded { (lattice : Lattice) (x y : List ℤ) (c : ℕ) → HasGrading lattice →
        IsPoint lattice.columns x → IsPoint lattice.columns y →
        InLattice lattice.columns lattice.rows (subtract y x) →
        (pos 0 ≤ℤ entry y c) × (entry y c ≤ℤ weight lattice.grading x) }
    ensures listed { (lattice : Lattice) (x : List ℤ) → HasGrading lattice →
        IsPoint lattice.columns x →
        (vectors : List (List ℤ)) × ((y : List ℤ) → IsPoint lattice.columns y →
        InLattice lattice.columns lattice.rows (subtract y x) → Contains vectors y) }
{}

/// For moves of the lattice, connected up to no column is Markov.
pub fn connected_up_to_none_is_markov()
    ensures { (n : ℕ) (rows : List (List ℤ)) (columns : ℕ → Bool) (moves : List (List ℤ)) →
        ((c : ℕ) → c < n → columns c ≡ false) → All (InLattice n rows) moves →
        (ConnectedUpTo n rows columns moves ↔ IsMarkov n rows moves) }
{}

/// Moves are connected up to all columns where each row is zero, or a move, or the negative of
/// one.
pub fn connected_by_rows()
    ensures { (lattice : Lattice) (moves : List (List ℤ)) → HasGrading lattice →
        All (IsSignedRow moves) lattice.rows →
        ConnectedUpTo lattice.columns lattice.rows every_column moves }
{}

/// Where a Markov basis has every pair joined below, a vector that no lead divides is the least
/// of its fibre.
pub fn irreducible_is_least()
    ensures { (lattice : Lattice) (priority : List ℕ) (moves : List (List ℤ)) (x y : List ℤ) →
        AreOrientedMoves lattice priority moves → IsMarkov lattice.columns lattice.rows moves →
        EveryPairJoined lattice.columns priority moves → IsIrreducible moves x →
        IsPoint lattice.columns x → IsPoint lattice.columns y →
        InLattice lattice.columns lattice.rows (subtract y x) →
        (x ≡ y) ⊎ IsBelow priority x y }
{}

/// When the redundant moves are dropped, those that are left are moves of the list, and the lead
/// of each move of the list is divided by the lead of one that is left.
pub fn drop_redundant_covers()
    ensures members { (moves : List (List ℤ)) (m : List ℤ) → Contains (drop_redundant moves) m →
        Contains moves m }
    ensures divisors { (moves : List (List ℤ)) (m : List ℤ) → Contains moves m →
        (kept : List ℤ) × Contains (drop_redundant moves) kept × Divides (lead kept) (lead m) }
{}

/// Of the moves that are left when the redundant ones are dropped, no lead divides another.
pub fn drop_redundant_apart()
    ensures { (moves : List (List ℤ)) → NoneRedundant (drop_redundant moves) }
{}

/// Where every pair of the moves is joined below, any two joined vectors step down to one common
/// vector.
pub fn confluence_from_pairs()
    ensures { (lattice : Lattice) (priority : List ℕ) (moves : List (List ℤ)) →
        AreOrientedMoves lattice priority moves → EveryPairJoined lattice.columns priority moves →
        (x y : List ℤ) → Joined lattice.columns (Members moves) x y → Meet moves x y }
{}

/// Four reasons why two moves of a list are joined below the least common multiple of their
/// leads.
pub fn join_chain()
    ensures disjoint { (lattice : Lattice) (priority : List ℕ) (moves : List (List ℤ))
        (a b : List ℤ) →
        AreOrientedMoves lattice priority moves → Contains moves a → Contains moves b →
        AreDisjoint (lead a) (lead b) → JoinedBelow lattice.columns priority moves a b }
    ensures chain { (lattice : Lattice) (priority : List ℕ) (moves : List (List ℤ))
        (a b third : List ℤ) →
        AreOrientedMoves lattice priority moves → Contains moves a → Contains moves b →
        Contains moves third →
        Divides (lead third) (lcm (lead a) (lead b)) →
        JoinedBelow lattice.columns priority moves a third →
        JoinedBelow lattice.columns priority moves b third →
        JoinedBelow lattice.columns priority moves a b }
    ensures zero_reduct { (lattice : Lattice) (priority : List ℕ) (moves : List (List ℤ))
        (a b : List ℤ) →
        AreOrientedMoves lattice priority moves → Contains moves a → Contains moves b →
        Reduct moves (subtract b a) (zeros lattice.columns) →
        JoinedBelow lattice.columns priority moves a b }
    ensures member_reduct { (lattice : Lattice) (priority : List ℕ) (moves : List (List ℤ))
        (a b r : List ℤ) →
        AreOrientedMoves lattice priority moves → Contains moves a → Contains moves b →
        Reduct moves (subtract b a) r → Contains moves r ⊎ Contains moves (negate r) →
        JoinedBelow lattice.columns priority moves a b }
    ensures either_order { (lattice : Lattice) (priority : List ℕ) (moves : List (List ℤ))
        (a b : List ℤ) →
        AreOrientedMoves lattice priority moves → JoinedBelow lattice.columns priority moves a b →
        JoinedBelow lattice.columns priority moves b a }
{}

/// What keeps a list connected up to columns, and what dropping its redundant moves leaves: with
/// other moves that join what the list joins; without a column, where every pair is joined below
/// for a priority list that begins with it; and without redundant moves the list joins the same,
/// with every pair joined below.
pub fn conn_drop()
    ensures by_others { (n : ℕ) (rows : List (List ℤ)) (columns : ℕ → Bool)
        (moves others : List (List ℤ)) →
        ((x y : List ℤ) → Joined n (Members moves) x y → Joined n (Members others) x y) →
        ConnectedUpTo n rows columns moves → ConnectedUpTo n rows columns others }
    ensures completed_column { (lattice : Lattice) (i : ℕ) (priority : List ℕ) (columns : ℕ → Bool)
        (moves : List (List ℤ)) →
        AreOrientedMoves lattice (i ∷ priority) moves →
        EveryPairJoined lattice.columns (i ∷ priority) moves →
        ConnectedUpTo lattice.columns lattice.rows columns moves →
        ConnectedUpTo lattice.columns lattice.rows (without_column columns i) moves }
    ensures joins_the_same { (lattice : Lattice) (priority : List ℕ) (moves : List (List ℤ)) →
        AreOrientedMoves lattice priority moves → EveryPairJoined lattice.columns priority moves →
        (x y : List ℤ) → Joined lattice.columns (Members moves) x y →
        Joined lattice.columns (Members (drop_redundant moves)) x y }
    ensures pairs_stay_joined { (lattice : Lattice) (priority : List ℕ) (moves : List (List ℤ)) →
        AreOrientedMoves lattice priority moves → EveryPairJoined lattice.columns priority moves →
        EveryPairJoined lattice.columns priority (drop_redundant moves) }
{}

/// A column leaves where a move, or its negative, has its negative part within the columns and is
/// positive there.
pub fn conn_free()
    ensures { (lattice : Lattice) (columns : ℕ → Bool) (i : ℕ) (moves : List (List ℤ))
        (u : List ℤ) →
        HasGrading lattice → All (InLattice lattice.columns lattice.rows) moves → Contains moves u
        ⊎ Contains moves (negate u) →
        IsSupported columns (negative_part u) → pos 1 ≤ℤ entry u i →
        ConnectedUpTo lattice.columns lattice.rows columns moves →
        ConnectedUpTo lattice.columns lattice.rows (without_column columns i) moves }
{}

/// The columns that moves free, one move after another, may leave: the moves stay connected up to
/// the columns that are left.
pub fn free_columns_leave()
    ensures { (lattice : Lattice) (priority : List ℕ) (moves : List (List ℤ)) (left : List Bool) →
        HasGrading lattice → All (InLattice lattice.columns lattice.rows) moves →
        ConnectedUpTo lattice.columns lattice.rows (is_left left) moves →
        ConnectedUpTo lattice.columns lattice.rows
        (is_left (freed_by_rows priority moves left)) moves }
{}

/// Without a bound, to join the nonnegative vectors of weights up to it is to join all of them.
pub fn markov_up_to_none_is_markov()
    ensures { (lattice : Lattice) (moves : List (List ℤ)) →
        (IsMarkovUpTo lattice None moves ↔ IsMarkov lattice.columns lattice.rows moves) }
{}

/// The moves of an answer join all nonnegative vectors of weights up to its bound that differ by
/// the lattice.
pub fn essential_is_markov()
    ensures { (lattice : Lattice) (upto : Option ℕ) (moves : List (List ℤ)) → HasGrading lattice →
        IsAnswer lattice upto moves → IsMarkovUpTo lattice upto moves }
{}

/// Each move of an answer is needed: without it two vectors of weights up to its bound that differ
/// by the lattice stay apart.
pub fn essential_is_minimal()
    ensures { (lattice : Lattice) (upto : Option ℕ) (moves : List (List ℤ)) → HasGrading lattice →
        IsAnswer lattice upto moves → IsMinimal lattice upto moves }
{}

/// A lattice with a grading has at most one list of exactly its essential moves up to a bound,
/// ascending.
pub fn answer_is_unique()
    ensures { (lattice : Lattice) (upto : Option ℕ) (moves others : List (List ℤ)) →
        ListsEssentialMoves lattice upto moves → ListsEssentialMoves lattice upto others →
        moves ≡ others }
{}

/// The members of an answer are the essential moves up to its bound, and it ascends.
pub fn answer_has_the_essential_moves()
    ensures { (lattice : Lattice) (upto : Option ℕ) (moves : List (List ℤ)) →
        IsAnswer lattice upto moves → ListsEssentialMoves lattice upto moves }
{}

/// A lattice and a grading have at most one reduced basis.
pub fn reduced_basis_is_unique()
    ensures { (lattice : Lattice) (moves others : List (List ℤ)) →
        IsReducedBasis lattice moves → IsReducedBasis lattice others → moves ≡ others }
{}

/// Each nonnegative vector is the least of its fibre, or the lead of a move of the reduced basis
/// divides it.
pub fn reduced_basis_divides()
    ensures { (lattice : Lattice) (moves : List (List ℤ)) → HasGrading lattice →
        IsReducedBasis lattice moves → (x : List ℤ) → IsPoint lattice.columns x →
        IsLeast lattice.columns lattice.rows x ⊎ ((m : List ℤ) × Contains moves m
        × Divides (lead m) x) }
{}

/// The moves of the reduced basis join all nonnegative vectors that differ by the lattice.
pub fn reduced_basis_is_markov()
    ensures { (lattice : Lattice) (moves : List (List ℤ)) → HasGrading lattice →
        IsReducedBasis lattice moves → IsMarkov lattice.columns lattice.rows moves }
{}

/// The essential moves stand in the reduced basis.
pub fn reduced_basis_has_the_essential_moves()
    ensures { (lattice : Lattice) (moves : List (List ℤ)) (m : List ℤ) → HasGrading lattice →
        IsReducedBasis lattice moves → IsEssential lattice m → Contains moves m }
{}

/// A fibre has at most one least vector.
pub fn least_vector_is_unique()
    ensures { (lattice : Lattice) (x y : List ℤ) → HasGrading lattice →
        IsLeast lattice.columns lattice.rows x → IsLeast lattice.columns lattice.rows y →
        InLattice lattice.columns lattice.rows (subtract x y) → x ≡ y }
{}

/// What lighter moves of the lattice join, lighter members of the reduced basis join.
pub fn lighter_members_join()
    ensures { (lattice : Lattice) (basis : List (List ℤ)) (bound : ℤ) (x y : List ℤ) →
        HasGrading lattice →
        IsReducedBasis lattice basis → Joined lattice.columns (LighterMoves lattice bound) x y →
        Joined lattice.columns (λ m. Contains basis m × (weight lattice.grading (lead m) <ℤ bound))
        x y }
{}

/// The members of the reduced basis up to a bound whose leads are the least of their components are
/// the answer, where from the lead of each other member up to it lighter moves lead to a vector
/// below it.
pub fn answer_from_components()
    ensures { (lattice : Lattice) (upto : Option ℕ) (basis chosen : List (List ℤ)) →
        HasGrading lattice → IsReducedBasis lattice basis →
        AllPairs (ComesBefore lattice.columns lattice.grading) chosen →
        All (λ m. Contains basis m × IsUpTo upto (weight lattice.grading (lead m))
        × IsLeastOfComponent lattice (lead m)) chosen →
        ((m : List ℤ) → Contains basis m → IsUpTo upto (weight lattice.grading (lead m)) →
        Contains chosen m ⊎ ((x : List ℤ) × IsBelow (standard lattice.columns) x (lead m)
        × Joined lattice.columns (LighterMoves lattice (weight lattice.grading (lead m)))
        (lead m) x)) →
        IsAnswer lattice upto chosen }
{}

/// The essential moves are the least vectors of the components of a fibre, each less the least
/// vector of the fibre.
pub fn essential_moves_are_stars()
    ensures { (lattice : Lattice) (m : List ℤ) → HasGrading lattice →
        IsEssential lattice m ↔ IsStarMove lattice m }
{}

/// A journal that replays goes on by one entry at its end.
pub fn replay_goes_on()
    ensures { (n : ℕ) (priority : List ℕ) (limit : ℕ) (start basis after : List (List ℤ))
        (journal : List Settle) (entry : Settle) →
        Replays n priority limit [] start journal basis →
        IsNext n priority limit journal basis entry after →
        Replays n priority limit [] start (journal ++ entry ∷ []) after }
{}

/// Each event keeps a state of a completion legal.
pub fn events_keep_legal()
    ensures { (n : ℕ) (priority : List ℕ) (state : CoreState) (event : Event) (after : CoreState) →
        IsLegal n priority state → Happens n priority state event after → IsLegal n priority after }
{}

/// A completion that begins with no more moves than its limit is legal, and stays so whatever
/// events happen.
pub fn reached_is_legal()
    ensures { (n : ℕ) (priority : List ℕ) (start : List (List ℤ)) (budget limit workers : ℕ)
        (events : List Event) (after : CoreState) →
        length start ≤ limit → HappenInTurn n priority
        (new_state start budget limit workers) events after → IsLegal n priority after }
{}

/// Whatever turns workers take, what their lines lead to happens by events, and a legal state stays
/// legal.
pub fn turns_happen_by_events()
    ensures events { (n : ℕ) (priority : List ℕ) (state : CoreState) (stages : List Stage)
        (turns : List ℕ) (after : CoreState) (last : List Stage) →
        Drives n priority state stages turns after last → (events : List Event)
        × HappenInTurn n priority state events after }
    ensures legal { (n : ℕ) (priority : List ℕ) (state : CoreState) (stages : List Stage)
        (turns : List ℕ) (after : CoreState) (last : List Stage) →
        IsLegal n priority state → Drives n priority state stages turns after last →
        IsLegal n priority after }
{}

/// A legal state stays legal without its workers, with any budget of at least as many pairs as
/// are settled.
pub fn phase_is_legal()
    ensures { (n : ℕ) (priority : List ℕ) (state : CoreState) (budget : ℕ) →
        length state.journal ≤ budget → IsLegal n priority state →
        IsLegal n priority
        (phase_state state.start_length state.basis state.journal budget state.limit) }
{}

/// In a legal state that is ended every pair of the basis is joined below, where the moves of the
/// start were oriented.
pub fn ended_is_joined()
    ensures oriented { (lattice : Lattice) (priority : List ℕ) (state : CoreState) →
        IsLegal lattice.columns priority state → AreOrientedMoves lattice priority
        (start_of state) →
        AreOrientedMoves lattice priority state.basis }
    ensures joined { (lattice : Lattice) (priority : List ℕ) (state : CoreState) →
        IsLegal lattice.columns priority state → AreOrientedMoves lattice priority
        (start_of state) → IsEnded state →
        EveryPairJoined lattice.columns priority state.basis }
{}

/// Each text is one table, or has one fault, at one byte.
pub fn each_text_is_a_table_or_has_a_fault()
    ensures either { (bytes : List ℕ) (limits : Limits) →
        ((grid : Grid) × ReadsTable bytes limits grid)
        ⊎ ((fault : Fault) × (byte : ℕ) × HasFault bytes limits fault byte) }
    ensures not_both { (bytes : List ℕ) (limits : Limits) (grid : Grid) (fault : Fault) (byte : ℕ) →
        ReadsTable bytes limits grid → ¬ (HasFault bytes limits fault byte) }
    ensures one_table { (bytes : List ℕ) (limits : Limits) (grid other : Grid) →
        ReadsTable bytes limits grid → ReadsTable bytes limits other → grid ≡ other }
    ensures one_fault { (bytes : List ℕ) (limits : Limits) (fault other : Fault) (byte place : ℕ) →
        HasFault bytes limits fault byte → HasFault bytes limits other place → (fault ≡ other)
        × (byte ≡ place) }
{}

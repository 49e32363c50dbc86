//! Worked examples of the definitions. Each is the contract of a function that takes nothing and
//! gives nothing. The vectors and tables that have a name stand in `specs/Worked.antt`.

ghost use Rattle.std.specs.Prelude.{◌≡◌, ◌==◌, ℕ, ℤ, true, false, List, [], ◌∷◌, ◌++◌, None, Some};
ghost use Rattle.std.specs.Prelude.{All, AllPairs, pos, neg_ℤ, ◌+ℤ◌, codes};
ghost use Rattle.std.specs.Int.{int_max};
ghost use Rattle.mk_model.specs.declared.TheConstants.{ENTRY_MAX};
ghost use Rattle.mk_model.specs.Vectors.{entry, zeros, combine, add, subtract, negate, scale};
ghost use Rattle.mk_model.specs.Vectors.{positive_part, negative_part, weight, IsEntry, IsPoint};
ghost use Rattle.mk_model.specs.Lattices.{lattice_of, InLattice, HasGrading, nonzero_rows, ones};
ghost use Rattle.mk_model.specs.Lattices.{SameLattice};
ghost use Rattle.mk_model.specs.ChosenGradings.{IsGradeOf, matrix_sum, HasOtherColumns};
ghost use Rattle.mk_model.specs.ChosenGradings.{IsMatrixMismatch, HasOtherShape, IsFirstBelowOne};
ghost use Rattle.mk_model.specs.ChosenGradings.{IsGradeMismatch, HasNoSource};
ghost use Rattle.mk_model.specs.Walks.{Joined, Members};
ghost use Rattle.mk_model.specs.Orders.{standard, IsOriented, IsBelow, lead, tail, ComesBefore};
ghost use Rattle.mk_model.specs.Bases.{IsMarkov, without, AreApart, MovesBefore, IsEssential};
ghost use Rattle.mk_model.specs.Bases.{IsMinimalMarkovBasis};
ghost use Rattle.mk_model.specs.ReducedBases.{IsLeast, IsReducedMove, IsReducedBasis, LighterMoves};
ghost use Rattle.mk_model.specs.ReducedBases.{IsLeastOfComponent, IsStarMove};
ghost use Rattle.mk_model.specs.Tables.{is_space, tokens, IsCount, IsNumber, Grid, rows_of, Limits};
ghost use Rattle.mk_model.specs.Tables.{ReadsTable};
ghost use Rattle.mk_model.specs.TableFaults.{line_of, HasFault};
ghost use Rattle.mk_model.specs.TableFaults.{NoHeader, BadNumber, Rows, Columns, EntryRange};
ghost use Rattle.mk_model.specs.TableFaults.{Missing, Trailing};
ghost use Rattle.mk_model.specs.Texts.{move_text};
ghost use Rattle.mk_model.specs.Reductions.{lcm, Divides, Reaches, IsDescent, Meet, IsReduction};
ghost use Rattle.mk_model.specs.Reductions.{Reduct, TailReduct, IsIrreducible, IsNormal};
ghost use Rattle.mk_model.specs.Pairs.{AreOrientedMoves, IsPointBelow, AreDisjoint, JoinedBelow};
ghost use Rattle.mk_model.specs.Pairs.{EveryPairJoined};
ghost use Rattle.mk_model.specs.Saturation.{IsSupported, every_column, without_column, JoinedUpTo};
ghost use Rattle.mk_model.specs.Saturation.{ConnectedUpTo};
ghost use Rattle.mk_model.specs.Saturation.{IsSignedRow, divides, has_divisor, is_redundant};
ghost use Rattle.mk_model.specs.Saturation.{needed, drop_redundant, NoneRedundant};
ghost use Rattle.mk_model.specs.FreeColumns.{all_columns, columns_left, freed_by, bound_columns};
ghost use Rattle.mk_model.specs.CoreStates.{CoreState, pair_of, settle, difference, IsPairOf};
ghost use Rattle.mk_model.specs.CoreStates.{IsLesser};
ghost use Rattle.mk_model.specs.CoreStates.Way.{Coprime, Zero, Place};
ghost use Rattle.mk_model.specs.CoreStates.Halt.{Overflow, Full, Memory};
ghost use Rattle.mk_model.specs.Overflows.{IsGenuineOverflow, IsTailOverflow, IsPairOfWeight};
ghost use Rattle.mk_model.specs.Events.{IsChain, Happens, HappenInTurn, with_claim};
ghost use Rattle.mk_model.specs.Events.Event.{Claims, Settles, Halts};
ghost use Rattle.mk_model.specs.Books.{lists_for, BookIsComplete, BookIsUnderWay, HasStopped};
ghost use Rattle.mk_model.specs.Books.PlainStop.{Budget};
ghost use Rattle.mk_model.specs.Legal.{Replays, IsLegal, IsEnded};
ghost use Rattle.mk_model.specs.Programs.{Stage, Drives};
ghost use Rattle.mk_model.specs.Programs.Stage.{Idle, Fresh, Tests, Gone};
ghost use Rattle.mk_examples.specs.Worked.{unit_move, double_move, fourfold_move, double_lattice};
ghost use Rattle.mk_examples.specs.Worked.{cubic_top, cubic_bottom, cubic_rows, cubic_lattice};
ghost use Rattle.mk_examples.specs.Worked.{cubic_first};
ghost use Rattle.mk_examples.specs.Worked.{cubic_second, cubic_third, cubic_turned, cubic_moves};
ghost use Rattle.mk_examples.specs.Worked.{cubic_outer, cubic_inner, like_first, like_second};
ghost use Rattle.mk_examples.specs.Worked.{like_row};
ghost use Rattle.mk_examples.specs.Worked.{like_rows, like_lattice, like_moves, curve_first};
ghost use Rattle.mk_examples.specs.Worked.{curve_second, curve_third, curve_rows, curve_weights};
ghost use Rattle.mk_examples.specs.Worked.{curve_lattice, steep_first, steep_weights};
ghost use Rattle.mk_examples.specs.Worked.{steep_lattice};
ghost use Rattle.mk_examples.specs.Worked.{eight_row, eight_move, nine_moves, worked_table};
ghost use Rattle.mk_examples.specs.Worked.{cubic_table};
ghost use Rattle.mk_examples.specs.Worked.{curve_table, steep_table, square_text, square_table};
ghost use Rattle.mk_examples.specs.Worked.{wide_limits, digit_limits, column_one, start_moves};
ghost use Rattle.mk_examples.specs.Worked.{completed_moves, placing, reducing, skipping};
ghost use Rattle.mk_examples.specs.Worked.{begun_state};
ghost use Rattle.mk_examples.specs.Worked.{narrow_state, far_moves, difference_stop, step_moves};
ghost use Rattle.mk_examples.specs.Worked.{step_stop, chain_moves, far_state, IsHalted};
ghost use Rattle.mk_examples.specs.Worked.{ended_phase, tail_moves, tail_stop, unit_lattice};
ghost use Rattle.mk_examples.specs.Worked.{unit_book, starved_book, overlapping_rows};

/// Entries, sums, multiples, parts and weights of vectors; points, and the range of entries.
pub fn vector_examples()
    ensures second_entry { entry cubic_top 1 ≡ neg_ℤ (pos 2) }
    ensures past_end { entry cubic_top 4 ≡ pos 0 }
    ensures larger { combine int_max (pos 1 ∷ pos 0 ∷ []) (pos 0 ∷ pos 2 ∷ pos 3 ∷ [])
        ≡ (pos 1 ∷ pos 2 ∷ pos 3 ∷ []) }
    ensures total { add like_row like_first ≡ like_second }
    ensures difference { subtract (pos 2 ∷ pos 0 ∷ []) unit_move ≡ (pos 1 ∷ pos 1 ∷ []) }
    ensures negated { negate eight_row ≡ eight_move }
    ensures doubled { scale (pos 2) unit_move ≡ double_move }
    ensures positive { positive_part cubic_top ≡ (pos 1 ∷ pos 0 ∷ pos 1 ∷ pos 0 ∷ []) }
    ensures negative { negative_part cubic_top ≡ (pos 0 ∷ pos 2 ∷ pos 0 ∷ pos 0 ∷ []) }
    ensures weight_zero { weight steep_weights steep_first ≡ pos 0 }
    ensures weight_five { weight steep_weights (pos 3 ∷ neg_ℤ (pos 1) ∷ pos 0 ∷ []) ≡ pos 5 }
    ensures point { IsPoint 4 cubic_outer }
    ensures not_point { ¬ (IsPoint 4 (pos 2 ∷ neg_ℤ (pos 2) ∷ pos 1 ∷ pos 1 ∷ [])) }
    ensures largest { IsEntry ENTRY_MAX }
    ensures too_large { ¬ (IsEntry (ENTRY_MAX +ℤ pos 1)) }
{}

/// Vectors of lattices, rows that are not zero, two bases of one lattice, and a grading.
pub fn lattice_examples()
    ensures inside { InLattice 3 like_rows like_second }
    ensures outside { ¬ (InLattice 2 (double_move ∷ []) unit_move) }
    ensures nonzero { nonzero_rows ((pos 0 ∷ pos 0 ∷ []) ∷ unit_move ∷ []) ≡ unit_move ∷ [] }
    ensures same { SameLattice 2 (unit_move ∷ double_move ∷ []) (unit_move ∷ []) }
    ensures grading { HasGrading steep_lattice }
{}

/// Which grading is chosen: all ones; the grade; the sum of matrix rows, without those that have
/// a negative entry.
pub fn grading_examples()
    ensures by_ones { IsGradeOf cubic_table None None (ones 4) }
    ensures by_grade { IsGradeOf steep_table None
        (Some (worked_table 1 3 steep_weights)) steep_weights }
    ensures by_sum { IsGradeOf curve_table (Some (worked_table 1 3 curve_weights))
        None curve_weights }
    ensures rows_sum { matrix_sum (worked_table 3 3
        (curve_weights ++ curve_first ++ pos 0 ∷ pos 1 ∷ pos 1 ∷ []))
        ≡ (pos 1 ∷ pos 3 ∷ pos 4 ∷ []) }
{}

/// Why no grading is chosen, each with its place and its numbers.
pub fn grading_fault_examples()
    ensures no_source { HasNoSource (worked_table 1 2 (pos 1 ∷ pos 1 ∷ [])) None None }
    ensures other_columns { HasOtherColumns cubic_table (worked_table 1 3 curve_weights) 3 4 }
    ensures matrix_mismatch { IsMatrixMismatch cubic_table
        (worked_table 1 4 (pos 1 ∷ pos 2 ∷ pos 3 ∷ pos 5 ∷ [])) 0 1 (pos 1) }
    ensures other_shape { HasOtherShape (worked_table 1 2 unit_move)
        (worked_table 1 3 (ones 3)) 1 3 2 }
    ensures below_one { IsFirstBelowOne (worked_table 1 2 unit_move)
        (worked_table 1 2 (pos 0 ∷ pos 1 ∷ [])) 0 (pos 0) }
    ensures grade_mismatch { IsGradeMismatch (worked_table 1 2 (pos 1 ∷ pos 1 ∷ []))
        (worked_table 1 2 (ones 2)) 0 (pos 2) }
{}

/// `(1 -1)` joins `(2 0)` and `(0 2)`, and without it `(1 0)` and `(0 1)` are apart. The rows of
/// the twisted cubic don't join `(1 0 0 1)` and `(0 1 1 0)`, so they are not Markov.
pub fn walk_examples()
    ensures joined { Joined 2 (Members (unit_move ∷ [])) (pos 2 ∷ pos 0 ∷ []) (pos 0 ∷ pos 2 ∷ []) }
    ensures apart { AreApart unit_lattice None (without 0 (unit_move ∷ []))
        (pos 1 ∷ pos 0 ∷ []) (pos 0 ∷ pos 1 ∷ []) }
    ensures not_joined { ¬ (Joined 4 (Members cubic_rows) cubic_outer cubic_inner) }
    ensures not_markov { ¬ (IsMarkov 4 cubic_rows cubic_rows) }
{}

/// Vectors and moves in their order, and the ends of a move: of 3 and 4 columns, and the nine
/// moves of 3 by 3 independence.
pub fn order_examples()
    ensures columns { standard 4 ≡ 3 ∷ 2 ∷ 1 ∷ 0 ∷ [] }
    ensures points { IsBelow (standard 3) (pos 0 ∷ pos 0 ∷ pos 2 ∷ [])
        (pos 1 ∷ pos 1 ∷ pos 0 ∷ []) }
    ensures oriented { All (IsOriented (standard 4)) cubic_turned }
    ensures lead_end { lead cubic_first ≡ (pos 0 ∷ pos 2 ∷ pos 0 ∷ pos 0 ∷ []) }
    ensures tail_end { tail cubic_first ≡ (pos 1 ∷ pos 0 ∷ pos 1 ∷ pos 0 ∷ []) }
    ensures of_three_columns { ComesBefore 3 (ones 3) like_first like_second }
    ensures independence { AllPairs (ComesBefore 9 (ones 9)) nine_moves }
{}

/// The answers of the twisted cubic, of three like columns, and of the curve of weights 1, 2, 3,
/// of which one move of the reduced basis isn't essential; of that curve up to the weights 2 and 1;
/// for the rows `(2 -2)`, of which `(4 -4)` isn't, and `(-1 1 1 -1 1 -1 -1 1)`; and for a row of
/// zeros.
pub fn answer_examples()
    ensures of_twisted_cubic { IsMinimalMarkovBasis cubic_lattice None
        (cubic_second ∷ cubic_third ∷ cubic_first ∷ []) }
    ensures of_like_columns { IsMinimalMarkovBasis like_lattice None
        (like_first ∷ like_second ∷ []) }
    ensures of_small_curve { IsMinimalMarkovBasis curve_lattice None
        (curve_first ∷ curve_second ∷ []) }
    ensures up_to_two { IsMinimalMarkovBasis curve_lattice (Some 2) (curve_first ∷ []) }
    ensures up_to_one { IsMinimalMarkovBasis curve_lattice (Some 1) [] }
    ensures reduced { IsReducedMove 3 curve_rows curve_third }
    ensures not_essential { ¬ (IsEssential curve_lattice curve_third) }
    ensures of_two_columns { IsMinimalMarkovBasis double_lattice None (double_move ∷ []) }
    ensures earlier { MovesBefore double_lattice fourfold_move double_move }
    ensures multiple { ¬ (IsEssential double_lattice fourfold_move) }
    ensures negated { IsMinimalMarkovBasis (lattice_of 8 (eight_row ∷ []) (ones 8)) None
        (eight_move ∷ []) }
    ensures of_zeros { IsMinimalMarkovBasis (lattice_of 3 (zeros 3 ∷ []) (ones 3)) None [] }
{}

/// The reduced bases of the twisted cubic and of the curve of weights 1, 2, 3; and of the fibre
/// of `(1 0 0 1)` and `(0 1 1 0)` the least vector, the components and the star.
pub fn reduced_basis_examples()
    ensures of_twisted_cubic { IsReducedBasis cubic_lattice
        (cubic_second ∷ cubic_third ∷ cubic_first ∷ []) }
    ensures of_small_curve { IsReducedBasis curve_lattice
        (curve_first ∷ curve_second ∷ curve_third ∷ []) }
    ensures reduced { IsReducedMove 4 cubic_rows cubic_third }
    ensures least { IsLeast 4 cubic_rows cubic_outer }
    ensures none_lighter { (v : List ℤ) → ¬ (LighterMoves cubic_lattice (pos 2) v) }
    ensures components { All (IsLeastOfComponent cubic_lattice) (cubic_inner ∷ cubic_outer ∷ []) }
    ensures star { IsStarMove cubic_lattice cubic_third }
{}

/// A text with its tokens and its table, and two texts without a table.
pub fn table_examples()
    ensures split { tokens square_text
        ≡ codes "+2" ∷ codes "2" ∷ codes "01" ∷ codes "-1" ∷ codes "0" ∷ codes "0" ∷ [] }
    ensures table { ReadsTable square_text wide_limits square_table }
    ensures rows { rows_of square_table ≡ unit_move ∷ (pos 0 ∷ pos 0 ∷ []) ∷ [] }
    ensures nothing { (limits : Limits) (grid : Grid) → ¬ (ReadsTable [] limits grid) }
    ensures minus { (limits : Limits) (grid : Grid) → ¬ (ReadsTable (codes "-1 2") limits grid) }
{}

/// Tokens at the edges of the grammar; and which bytes are white space: 11 and 12 are, 8 and 14
/// are not.
pub fn token_examples()
    ensures plus_zero { IsNumber (codes "+0") (pos 0) }
    ensures minus_zero { IsNumber (codes "-0") (pos 0) }
    ensures count_zero { IsCount (codes "+0") 0 }
    ensures no_count { (n : ℕ) → ¬ (IsCount (codes "-0") n) }
    ensures plus { (z : ℤ) → ¬ (IsNumber (codes "+") z) }
    ensures minus { (z : ℤ) → ¬ (IsNumber (codes "-") z) }
    ensures plus_minus { (z : ℤ) → ¬ (IsNumber (codes "+-1") z) }
    ensures spaces { All (λ b. is_space b ≡ true) (9 ∷ 10 ∷ 11 ∷ 12 ∷ 13 ∷ 32 ∷ []) }
    ensures no_spaces { All (λ b. is_space b ≡ false) (0 ∷ 8 ∷ 14 ∷ 31 ∷ 33 ∷ 133 ∷ 160 ∷ []) }
    ensures split { tokens (codes "1" ++ 11 ∷ codes "2" ++ 12 ∷ 8 ∷ 14 ∷ [])
        ≡ codes "1" ∷ codes "2" ∷ (8 ∷ 14 ∷ []) ∷ [] }
{}

/// Texts with each fault, some of them for a table of at most one row of two columns with entries
/// from 0 to 9.
pub fn table_fault_examples()
    ensures no_header { (limits : Limits) → HasFault [] limits (NoHeader 0) 0 }
    ensures bad_number { (limits : Limits) → HasFault (codes "-1 2") limits BadNumber 0 }
    ensures rows { HasFault (codes "2 0") digit_limits Rows 0 }
    ensures columns { HasFault (codes "1 3") digit_limits Columns 2 }
    ensures entry_range { HasFault (codes "1 2" ++ 10 ∷ codes "5 -1") digit_limits EntryRange 6 }
    ensures line { line_of (codes "1 2" ++ 10 ∷ codes "5 -1") 6 ≡ 2 }
    ensures missing { HasFault (codes "1 2" ++ 10 ∷ codes "5" ++ 10 ∷ []) digit_limits
        (Missing 1 2) 6 }
    ensures trailing { HasFault (codes "0 2" ++ 10 ∷ codes "x") digit_limits Trailing 4 }
{}

/// The texts of two moves of 3 columns, and of none of 4.
pub fn text_examples()
    ensures two { move_text 3 like_moves
        ≡ codes "2 3" ++ 10 ∷ codes "0 1 -1" ++ 10 ∷ codes "1 0 -1" ++ 10 ∷ [] }
    ensures none { move_text 4 [] ≡ codes "0 4" ++ 10 ∷ [] }
{}

/// On the twisted cubic: steps down from `(0 2 2 0)`, and steps down that meet; `(1 -3 3 -1)` with
/// the reduct 0, and its first step, to `(1 -2 1 0)`; a reduct of a tail, what no lead divides,
/// what is normal, and what divides another vector.
pub fn reduction_examples()
    ensures descent { IsDescent cubic_turned (pos 0 ∷ pos 2 ∷ pos 2 ∷ pos 0 ∷ [])
        (pos 1 ∷ pos 0 ∷ pos 3 ∷ pos 0 ∷ []) }
    ensures descents { Reaches (IsDescent cubic_turned) (pos 0 ∷ pos 2 ∷ pos 2 ∷ pos 0 ∷ [])
        (pos 1 ∷ pos 1 ∷ pos 1 ∷ pos 1 ∷ []) }
    ensures meet { Meet cubic_turned (pos 1 ∷ pos 0 ∷ pos 3 ∷ pos 0 ∷ [])
        (pos 0 ∷ pos 3 ∷ pos 0 ∷ pos 1 ∷ []) }
    ensures reduction { IsReduction cubic_turned
        (pos 1 ∷ neg_ℤ (pos 3) ∷ pos 3 ∷ neg_ℤ (pos 1) ∷ []) cubic_top }
    ensures reduct { Reduct cubic_turned (pos 1 ∷ neg_ℤ (pos 3) ∷ pos 3 ∷ neg_ℤ (pos 1) ∷ [])
        (zeros 4) }
    ensures tail_reduct { TailReduct cubic_turned (pos 1 ∷ pos 1 ∷ neg_ℤ (pos 2) ∷ pos 0 ∷ [])
        (pos 1 ∷ pos 0 ∷ pos 0 ∷ neg_ℤ (pos 1) ∷ []) }
    ensures irreducible { IsIrreducible cubic_turned cubic_outer }
    ensures normal { IsNormal cubic_turned cubic_third }
    ensures divides { Divides (lead cubic_first) (pos 0 ∷ pos 2 ∷ pos 2 ∷ pos 0 ∷ []) }
    ensures no_divisor { ¬ (Divides (pos 1 ∷ pos 0 ∷ pos 0 ∷ pos 0 ∷ [])
        (pos 0 ∷ pos 2 ∷ pos 2 ∷ pos 0 ∷ [])) }
{}

/// Of the moves `(2 -2)`, `(1 -1)` and `(1 -1)` the first and the last are redundant. Of the answer
/// of the twisted cubic none is.
pub fn redundancy_examples()
    ensures divides_test { divides (pos 1 ∷ pos 0 ∷ []) (pos 2 ∷ pos 0 ∷ []) ≡ true }
    ensures divisor { has_divisor double_move unit_move ≡ true }
    ensures larger_lead { is_redundant [] double_move (unit_move ∷ unit_move ∷ []) ≡ true }
    ensures first_of_two { is_redundant (double_move ∷ []) unit_move (unit_move ∷ []) ≡ false }
    ensures second_of_two { is_redundant (double_move ∷ unit_move ∷ []) unit_move [] ≡ true }
    ensures needed { needed (double_move ∷ []) (unit_move ∷ unit_move ∷ []) ≡ unit_move ∷ [] }
    ensures left { drop_redundant (double_move ∷ unit_move ∷ unit_move ∷ []) ≡ unit_move ∷ [] }
    ensures apart { NoneRedundant cubic_moves }
{}

/// The oriented rows of the twisted cubic: their leads are disjoint, and a walk joins the two
/// below the least common multiple of these. With `(-1 1 1 -1)` every pair is joined below. On the
/// curve of weights 1, 2, 3 the leads `(2 0 0)` and `(1 1 0)` overlap, and `(2 1 0)` weighs 4, as
/// `(0 2 0)` does.
pub fn pair_examples()
    ensures multiple_of_leads { lcm (lead cubic_first) (lead cubic_second) ≡
        (pos 0 ∷ pos 2 ∷ pos 2 ∷ pos 0 ∷ []) }
    ensures oriented_moves { AreOrientedMoves cubic_lattice (standard 4) cubic_turned }
    ensures point_below { IsPointBelow 4 (standard 4) (pos 0 ∷ pos 2 ∷ pos 2 ∷ pos 0 ∷ [])
        (pos 1 ∷ pos 1 ∷ pos 1 ∷ pos 1 ∷ []) }
    ensures disjoint { AreDisjoint (lead cubic_first) (lead cubic_second) }
    ensures joined_below { JoinedBelow 4 (standard 4) cubic_turned cubic_first cubic_second }
    ensures of_weight { IsPairOfWeight curve_weights (curve_first ∷ curve_second ∷ curve_third ∷ [])
        (pair_of 0 1) }
    ensures every_pair { EveryPairJoined 4 (standard 4) cubic_moves }
{}

/// The rows of the twisted cubic join `(1 0 0 1)` and `(0 1 1 0)` once `(0 1 0 0)` is added, and
/// are connected up to all columns. They are the negatives of the moves as they are oriented.
pub fn saturation_examples()
    ensures removed { (without_column every_column 1 0 ≡ true)
        × (without_column every_column 1 1 ≡ false) }
    ensures supported { IsSupported (λ c. c == 1) (pos 0 ∷ pos 1 ∷ pos 0 ∷ pos 0 ∷ []) }
    ensures joined_up_to { JoinedUpTo 4 (λ c. c == 1) cubic_rows cubic_outer cubic_inner }
    ensures signed_rows { All (IsSignedRow cubic_turned) (zeros 4 ∷ cubic_top ∷ cubic_bottom ∷ []) }
    ensures connected_up_to { ConnectedUpTo 4 cubic_rows every_column cubic_rows }
{}

/// Along the list of column 1 of 4 columns, the completion of `(1 -2 1 0)` and `(0 -1 2 -1)`
/// places `(1 -1 -1 1)`. Its journal replays, and the same journal with its first two entries
/// exchanged does not.
pub fn journal_examples()
    ensures in_order { Replays 4 column_one 3 [] start_moves
        (placing ∷ reducing ∷ skipping ∷ []) completed_moves }
    ensures exchanged { ¬ (Replays 4 column_one 3 [] start_moves
        (reducing ∷ placing ∷ skipping ∷ []) completed_moves) }
{}

/// Pairs of the start and their order; the difference of (0, 1); and the completion without its
/// workers when it is ended, which is legal.
pub fn state_examples()
    ensures pair { IsPairOf start_moves (pair_of 0 1) }
    ensures no_pair { ¬ (IsPairOf start_moves (pair_of 0 2)) }
    ensures order { IsLesser (pair_of 0 1) (pair_of 0 2) × IsLesser (pair_of 0 2) (pair_of 1 2)
        × IsLesser (pair_of 1 2) (pair_of 0 3) }
    ensures difference { difference start_moves (pair_of 0 1) ≡ cubic_third }
    ensures begun { IsLegal 4 column_one begun_state }
    ensures legal { IsLegal 4 column_one ended_phase }
    ensures ended { IsEnded ended_phase }
{}

/// Among `(1 1 -1 -1)`, `(1 -1 1 -1)` and `(-1 1 1 -1)` the pair (0, 1) is settled by a chain
/// through the third move, once the other two pairs are, and not before.
pub fn chain_examples()
    ensures chain { IsChain chain_moves
        (settle 0 (pair_of 0 2) Zero ∷ settle 1 (pair_of 1 2) Zero ∷ []) (pair_of 0 1) 2 }
    ensures too_early { ¬ (IsChain chain_moves (settle 0 (pair_of 0 2) Zero ∷ []) (pair_of 0 1) 2) }
{}

/// Entries that leave the range: the largest less -1, in the difference of a pair; the largest less
/// 4, from which -5 is taken in a step of reduction; and the negative of the largest less 1, in a
/// step on a tail.
pub fn overflow_examples()
    ensures difference { IsGenuineOverflow far_moves difference_stop }
    ensures step { IsGenuineOverflow step_moves step_stop }
    ensures tail_step { IsTailOverflow tail_moves 0 tail_stop }
{}

/// The same completion by events, with two workers, until it is ended; and while worker 0 has the
/// one pair that there is at first, worker 1 can't claim any.
pub fn event_examples()
    ensures until_ended { (after : CoreState) × HappenInTurn 4 column_one begun_state
        (Claims 0 ∷ Settles 0 (Place 2)
        ∷ Claims 0 ∷ Settles 0 Zero ∷ Claims 0 ∷ Settles 0 Coprime ∷ []) after
        × IsEnded after }
    ensures none_left { (after : CoreState) →
        ¬ (Happens 4 column_one (with_claim begun_state 0 (pair_of 0 1)) (Claims 1) after) }
{}

/// Where two workers begin with two moves: without turns all is as before; a turn of worker 0 is
/// its claim of (0, 1), and another one its copy of both moves; the turn of a worker that is gone
/// changes nothing.
pub fn turn_examples()
    ensures no_turn { Drives 4 column_one begun_state (Idle ∷ Idle ∷ []) [] begun_state
        (Idle ∷ Idle ∷ []) }
    ensures claims { Drives 4 column_one begun_state (Idle ∷ Idle ∷ []) (0 ∷ [])
        (with_claim begun_state 0 (pair_of 0 1)) (Fresh ∷ Idle ∷ []) }
    ensures copies { Drives 4 column_one begun_state (Idle ∷ Idle ∷ []) (0 ∷ 0 ∷ [])
        (with_claim begun_state 0 (pair_of 0 1)) (Tests 2 0 0 ∷ Idle ∷ []) }
    ensures gone { (after : CoreState) (last : List Stage) →
        Drives 4 column_one begun_state (Gone ∷ Idle ∷ []) (0 ∷ []) after last →
        after ≡ begun_state }
{}

/// Worker 0 claims (0, 1) and halts: for want of memory; since the basis has its limit of 2
/// moves; and since the difference overflows. It gives its claim up, and after that no worker
/// claims.
pub fn halt_examples()
    ensures memory { (after : CoreState)
        × HappenInTurn 4 column_one begun_state (Claims 0 ∷ Halts 0 Memory ∷ []) after
        × IsHalted after Memory }
    ensures full { (after : CoreState)
        × HappenInTurn 4 column_one narrow_state (Claims 0 ∷ Halts 0 (Full (pair_of 0 1)) ∷ [])
        after
        × IsHalted after (Full (pair_of 0 1)) }
    ensures overflow { (after : CoreState)
        × HappenInTurn 3 (standard 3) far_state (Claims 0 ∷ Halts 0 (Overflow difference_stop) ∷ [])
        after
        × IsHalted after (Overflow difference_stop) }
    ensures no_claim { (worker : ℕ) (after : CoreState) → ¬ (HappenInTurn 4 column_one begun_state
        (Claims 0 ∷ Halts 0 Memory ∷ Claims worker ∷ []) after) }
{}

/// The rows of the twisted cubic free the columns 1 and 3, counted from 0: the second of them by
/// its negative, as `(0 1 -2 1)`. Three like columns free 0 and 1, and so do three rows with
/// overlapping leads. No column outside the support of a row leaves.
pub fn free_column_examples()
    ensures first_row { freed_by cubic_first (true ∷ true ∷ true ∷ true ∷ []) ≡
        (true ∷ false ∷ true ∷ true ∷ []) }
    ensures not_within { freed_by cubic_second (true ∷ false ∷ true ∷ true ∷ []) ≡
        (true ∷ false ∷ true ∷ true ∷ []) }
    ensures by_the_negative { freed_by cubic_bottom (true ∷ false ∷ true ∷ true ∷ []) ≡
        (true ∷ false ∷ true ∷ false ∷ []) }
    ensures cubic { bound_columns 4 cubic_rows ≡ (0 ∷ 2 ∷ []) }
    ensures like { bound_columns 3 like_rows ≡ (2 ∷ []) }
    ensures overlapping { bound_columns 4 overlapping_rows ≡ (2 ∷ 3 ∷ []) }
    ensures no_rows { bound_columns 4 [] ≡ all_columns 4 }
    ensures left { columns_left (true ∷ false ∷ true ∷ false ∷ []) ≡ (0 ∷ 2 ∷ []) }
{}

/// The book of the lattice of `(1 -1)`: phases along the list of column 1, as column 0 is free, and
/// along the standard list, and the reduced basis. The book that begins. And the book of the
/// twisted cubic that stops with a budget of 0 pairs.
pub fn book_examples()
    ensures lists { lists_for 4 (bound_columns 4 cubic_rows)
        ≡ (0 ∷ 3 ∷ 2 ∷ 1 ∷ []) ∷ (2 ∷ 3 ∷ 1 ∷ 0 ∷ []) ∷ standard 4 ∷ [] }
    ensures complete { BookIsComplete unit_lattice unit_book }
    ensures begun { BookIsUnderWay cubic_lattice (record { phases = []; reduced = None }) }
    ensures stopped { HasStopped cubic_lattice 0 starved_book (Budget 0) }
{}

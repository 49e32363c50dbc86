//! A law of a run's book. It is the contract of a function that takes nothing and gives nothing.

ghost use Rattle.std.specs.Prelude.{◌≡◌, ◌⊎◌, ℕ, []};
ghost use Rattle.mk_model.specs.Lattices.{Lattice, HasGrading};
ghost use Rattle.mk_solve.specs.Books.{Book};
ghost use Rattle.mk_solve.specs.FirstStarts.{IsKnownByStart};
ghost use Rattle.mk_solve.specs.Solutions.{BookCompletes, BookBegins, BookStops};
ghost use Rattle.mk_solve.specs.declared.book.BookStop.{BookStop};

/// A book tells the lattice that it speaks of by the start of its first phase: the moves there span it, and the phase has its grading. And
/// what the book says of the lattice, it says of these moves with this grading.
pub fn first_start_tells_the_lattice()
    ensures complete { (lattice : Lattice) (book : Book) → HasGrading lattice →
        BookCompletes book lattice → IsKnownByStart book lattice (BookCompletes book) }
    ensures under_way { (lattice : Lattice) (book : Book) → HasGrading lattice →
        BookBegins book lattice → (book.phases ≡ [])
        ⊎ IsKnownByStart book lattice (BookBegins book) }
    ensures stopped { (lattice : Lattice) (budget : ℕ) (book : Book) (stop : BookStop) →
        HasGrading lattice →
        BookStops budget book stop lattice →
        IsKnownByStart book lattice (BookStops budget book stop) }
{}

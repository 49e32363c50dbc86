use mk_files::Table;
use mk_move::Grading;

/// A lattice, by the rows of a table, and its grading, of as many columns.
#[derive(Debug, Drop)]
pub struct Problem {
    pub lat: Table,
    pub grading: Grading,
}

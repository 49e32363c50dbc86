//! The rows of made tables and their entries, by the numbers of rows and columns: the contract of a function that takes nothing
//! and gives nothing.

ghost use Rattle.mk_gen.specs.ModelLaws.{RowsOfTwo, RowsOfThree, EntriesOfTwo, EntriesOfThree};

/// A made table has a row for each choice of a pair of neighbours for each size, and each of its entries is a product of a factor
/// for each size.
pub fn entries_of_models()
    ensures two_rows { RowsOfTwo }
    ensures three_rows { RowsOfThree }
    ensures two { EntriesOfTwo }
    ensures three { EntriesOfThree }
{}

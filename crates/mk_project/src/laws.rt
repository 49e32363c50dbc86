//! The numbers of a file's limits, as the contract of a function that takes nothing and gives nothing.

ghost use Rattle.std.specs.Prelude.{◌≡◌, pos};
ghost use Rattle.mk_model.specs.declared.TheConstants.{ENTRY_MAX};
ghost use Rattle.mk_files.specs.declared.bounds.TheConstants.{MAX_ROWS, MAX_COLUMNS};
ghost use Rattle.mk_project.specs.declared.file.TheConstants.{FILE_LIMIT, SMALL_MAX};

/// A file has at most 67,108,864 bytes, a table 4,096 rows and 512 columns. In absolute value an entry of a lattice is at most
/// 1208925819614629174706175, and one of a matrix or of a grade 2147483647.
pub fn limits_of_files()
    ensures bytes { FILE_LIMIT ≡ 67108864 }
    ensures rows { MAX_ROWS ≡ 4096 }
    ensures columns { MAX_COLUMNS ≡ 512 }
    ensures entry { ENTRY_MAX ≡ pos 1208925819614629174706175 }
    ensures small { SMALL_MAX ≡ pos 2147483647 }
{}

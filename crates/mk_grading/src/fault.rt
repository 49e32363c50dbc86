use std::alloc::AllocError;

/// Why no grading is chosen. Rows and columns count from 0.
#[derive(Clone, Copy, Debug, PartialEq, Eq)]
pub enum GradeFault {
    Memory,
    /// The matrix has other columns than the lattice.
    MatColumns {
        found: u32,
        wanted: u32,
    },
    /// The product of these rows isn't 0.
    MatMismatch {
        mat_row: u32,
        lat_row: u32,
        value: i128,
    },
    /// The grade hasn't one row of the lattice's columns.
    GradeShape {
        rows: u32,
        columns: u32,
        wanted: u32,
    },
    /// The grade has an entry below 1.
    GradeNotPositive {
        column: u32,
        value: i64,
    },
    /// The product of the grade and this lattice row isn't 0.
    GradeMismatch {
        lat_row: u32,
        value: i128,
    },
    /// No source gives a grading.
    NoGrading,
}

impl From<AllocError> for GradeFault {
    ghost use Rattle.std.specs.Prelude.{◌≡◌};
    ghost use Rattle.mk_grading.specs.declared.fault.GradeFault.TheVariants.{Memory};

    ghost from_gives = { λ _ e. e ≡ Memory };

    fn from(_e: AllocError) -> GradeFault {
        GradeFault::Memory
    }
}

//! The laws of what a project's files are. Each is the contract of a function that takes nothing and gives nothing.

ghost use Rattle.std.specs.Prelude.{◌≡◌, List, ℤ};
ghost use Rattle.mk_model.specs.Tables.{Grid};
ghost use Rattle.mk_project.specs.declared.fault.InputFault.{InputFault};
ghost use Rattle.mk_input.specs.Projects.{ProjectFiles, IsProblem, IsFaulty};

/// A project's files have one fault at most.
pub fn faults_exclude_each_other()
    ensures { (files : ProjectFiles) (fault other : InputFault) →
        IsFaulty files fault → IsFaulty files other → fault ≡ other }
{}

/// Files that are a problem have no fault, and are one problem.
pub fn problem_has_no_fault()
    ensures not_both { (files : ProjectFiles) (lat : Grid) (grading : List ℤ) (fault : InputFault) →
        IsProblem files lat grading → ¬ (IsFaulty files fault) }
    ensures one_problem { (files : ProjectFiles) (lat other : Grid) (grading chosen : List ℤ) →
        IsProblem files lat grading → IsProblem files other chosen → (lat ≡ other) × (grading ≡ chosen) }
{}

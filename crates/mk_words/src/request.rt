//! What a command line asks for.

ghost use Rattle.std.specs.Prelude.{◌≡◌};
ghost use Rattle.mk_words.specs.SmallSizes.{AreSmallSizes};

use mk_model::NoMemory;
use std::alloc::AllocError;
use std::marker::Model;

/// The name of a project.
#[derive(Debug, Drop)]
pub struct ProjectName {
    pub(crate) name: String,
}

impl Model for ProjectName {
    ghost use Rattle.std.specs.Prelude.{List, ℕ, string_bytes};

    ghost Value = { List ℕ };

    ghost view = { λ p. string_bytes p.name };
}

impl ProjectName {
    /// The name as text.
    pub fn text(&self) -> &str
        ensures { result.now ≡ self.now }
    {
        self.name.as_str()
    }
}

/// The sizes of a made table.
#[derive(Debug, Drop)]
pub struct Sizes {
    pub(crate) sizes: Vec<u32>,
}

impl Model for Sizes {
    ghost use Rattle.std.specs.Prelude.{List, ℕ};
    ghost use Rattle.mk_words.specs.SmallSizes.{AreSmallSizes};

    ghost Value = { List ℕ };

    ghost view = { λ s. s.sizes.items };

    ghost invariant = { λ s. AreSmallSizes s.sizes.items };
}

impl Sizes {
    /// The sizes as numbers: two or three, each 2 to 16, of a product of at most 512.
    pub fn numbers(&self) -> &[u32]
        ensures value { result.now ≡ self.now }
        ensures kept { AreSmallSizes self.now }
    {
        self.sizes.as_slice()
    }
}

/// What there is to do.
#[derive(Debug, Drop)]
pub enum Task {
    /// To solve the project of this name.
    Project(ProjectName),
    /// To make and solve the table of these sizes.
    Model(Sizes),
}

/// What a command line asks for.
#[derive(Debug, Drop)]
pub struct Request {
    /// How many workers share the work: 1 to 64.
    pub workers: u32,
    /// How many pairs may be settled: at most 100000000.
    pub budget: u64,
    /// The largest weight of a move that is wanted, where there is one.
    pub upto: Option<u64>,
    /// What there is to do.
    pub task: Task,
}

/// Why there is no request.
#[derive(Clone, Copy, Debug, PartialEq, Eq)]
pub enum UsageFault {
    /// Memory ran out.
    Memory,
    /// The words are not in the language.
    Words,
}

impl From<AllocError> for UsageFault {
    ghost use Rattle.std.specs.Prelude.{◌≡◌};
    ghost use Rattle.mk_words.specs.declared.request.UsageFault.TheVariants.{Memory};

    ghost from_gives = { λ _ e. e ≡ Memory };

    fn from(_e: AllocError) -> UsageFault {
        UsageFault::Memory
    }
}

impl From<NoMemory> for UsageFault {
    ghost use Rattle.std.specs.Prelude.{◌≡◌};
    ghost use Rattle.mk_words.specs.declared.request.UsageFault.TheVariants.{Memory};

    ghost from_gives = { λ _ e. e ≡ Memory };

    fn from(_e: NoMemory) -> UsageFault {
        UsageFault::Memory
    }
}

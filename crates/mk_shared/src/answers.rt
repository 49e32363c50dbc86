//! What the calls on a shared completion answer where they don't do what they are asked.

/// Another seat had the turn: the word that was read, which is one more than its number.
#[derive(Clone, Copy, Debug, Drop, PartialEq, Eq)]
pub struct Busy {
    pub word: u64,
}

/// Why there is no new seat: want of memory, or as many were made as there are workers.
#[derive(Clone, Copy, Debug, Drop, PartialEq, Eq)]
pub enum SplitFault {
    Memory,
    Seats { made: u32 },
}

/// Why a copy isn't refreshed or a claim isn't settled: want of memory, or another seat had the
/// turn.
#[derive(Clone, Copy, Debug, Drop, PartialEq, Eq)]
pub enum RefreshFault {
    Memory,
    Busy,
}

/// How a claim was settled by the work on it: nothing was left, or what was left is the move of
/// this place.
#[derive(Clone, Copy, Debug, Drop, PartialEq, Eq)]
pub enum SettledBy {
    Zero,
    Placed { place: u32 },
}

/// Why a claim isn't settled by the work on it: want of memory; another seat had the turn; the
/// basis has more moves than the work was reduced by, so many; or it has its limit of moves, and
/// the worker halts for it.
#[derive(Clone, Copy, Debug, Drop, PartialEq, Eq)]
pub enum SettleFault {
    Memory,
    Busy,
    Behind { length: u32 },
    BasisFull,
}

/// Why a claim isn't settled through a third move: want of memory; another seat had the turn; or
/// the pair of one of its places and the third, the lesser place first, isn't settled.
#[derive(Clone, Copy, Debug, Drop, PartialEq, Eq)]
pub enum TryChainFault {
    Memory,
    Busy,
    Unsettled { i: u32, j: u32 },
}

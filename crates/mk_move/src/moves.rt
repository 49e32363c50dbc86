ghost use Rattle.std.specs.Prelude.{◌≡◌, ◌<◌, List, ℤ, length, map, IfOk, MatchOption, All};
ghost use Rattle.mk_model.specs.Vectors.{IsEntry, entry, negate, zeros};
ghost use Rattle.mk_model.specs.Orders.{first_along};
ghost use Rattle.mk_move.specs.Moves.{IsMoveKept, IsRowOriented, IsGraded, ReadsRow};
ghost use Rattle.mk_move.specs.Masks.{IsMask};
ghost use Rattle.mk_move.specs.Sides.{part_of};

use crate::grading::Grading;
use crate::masks::masks_of;
use crate::priority::Priority;
use crate::side::Side;
use mk_model::{Entry, NoMemory};
use smallvec::SmallVec;
use std::alloc::{AllocError, AllocFailed, Global};
use std::marker::Model;
use std::mem;

/// Why a row is no move.
#[derive(Clone, Copy, Debug, PartialEq, Eq)]
pub enum MoveFault {
    Memory,
    NotGraded { value: i128 },
}

impl From<AllocError> for MoveFault {
    ghost use Rattle.std.specs.Prelude.{◌≡◌};
    ghost use Rattle.mk_move.specs.declared.moves.MoveFault.TheVariants.{Memory};

    ghost from_gives = { λ _ e. e ≡ Memory };

    fn from(_e: AllocError) -> MoveFault {
        MoveFault::Memory
    }
}

/// How many entries lie in the move itself.
const INLINE: usize = 4;

pub(crate) type Entries = SmallVec<Entry, INLINE>;

/// A vector of a lattice that isn't zero, of at most 512 columns, with the weight of its lead, and with the masks of both
/// parts: a bit for each block of columns, set where the part has an entry. (Sturmfels, chapters 4 and 5: a binomial with
/// its degree)
#[derive(Debug, Drop)]
pub struct Move {
    pub(crate) entries: Entries,
    pub(crate) weight: i128,
    pub(crate) plus: u64,
    pub(crate) minus: u64,
}

impl Model for Move {
    ghost use Rattle.mk_move.specs.Moves.{Weighed, IsMoveKept};
    ghost use Rattle.mk_move.specs.Masks.{AreMasks};

    ghost Value = { Weighed };

    ghost view = { λ m. record { entries = m.entries.items; weight = m.weight } };

    ghost invariant = { λ m. IsMoveKept (record { entries = m.entries.items; weight = m.weight })
        × AreMasks m.entries.items m.plus m.minus };
}

impl Move {
    /// The move of a row: the row or its negative, oriented by the list, and none for the zero row. `NotGraded` has the
    /// product of row and grading, where it isn't 0.
    pub fn from_row(
        alloc: Global,
        row: &[Entry],
        grading: &Grading,
        priority: &Priority,
    ) -> Result<Option<Move>, MoveFault>
        requires columns { length row.now ≡ length grading.now }
        requires list { length priority.now ≡ length grading.now }
        requires entries { All IsEntry row.now }
        ensures { ReadsRow row.now grading.now priority.now result }
    {
        let value = grading.product(row);
        if value != 0 {
            return Err(MoveFault::NotGraded { value });
        }
        let Some(entries) = oriented(alloc, row, priority)? else {
            return Ok(None);
        };
        let weight = grading.lead_weight(entries.as_slice());
        Ok(Some(Move::of_entries(entries, weight)))
    }

    /// The move with these entries and this weight.
    pub(crate) fn of_entries(entries: Entries, weight: i128) -> Move
        requires { IsMoveKept (record { entries = entries.items; weight = weight }) }
        ensures entries { result.entries ≡ entries.items }
        ensures weight { result.weight ≡ weight }
    {
        let (plus, minus) = masks_of(entries.as_slice());
        Move {
            entries,
            weight,
            plus,
            minus,
        }
    }

    /// A copy of it.
    pub fn try_copy(&self) -> Result<Move, NoMemory>
        ensures { IfOk result (λ copy. copy ≡ self.now) }
    {
        let alloc = *self.entries.allocator();
        let entries = SmallVec::from_slice(alloc, self.entries.as_slice())?;
        Ok(Move {
            entries,
            weight: self.weight,
            plus: self.plus,
            minus: self.minus,
        })
    }

    /// Turns it into its negative where it isn't oriented by the list, of as many columns. The weight stays: with a
    /// grading that gives product 0 both parts have it.
    pub fn orient(&mut self, priority: &Priority)
        requires { length priority.now ≡ length self.old.entries }
        ensures entries { IsRowOriented self.old.entries priority.now self.new.entries }
        ensures weight { self.new.weight ≡ self.old.weight }
        ensures graded { (w : List ℤ) → IsGraded w self.old → IsGraded w self.new }
    {
        if first_entry(self.entries.as_slice(), priority.as_slice()) > 0 {
            negate_all(self.entries.as_mut_slice());
            mem::swap(&mut self.plus, &mut self.minus);
        }
    }

    /// Its entries, column by column.
    pub fn entries(&self) -> &[Entry]
        ensures value { result.now ≡ self.now.entries }
        ensures kept { IsMoveKept self.now }
    {
        self.entries.as_slice()
    }

    /// The mask of its part on a side: a bit for each block of columns, set where the part has an entry. A block is one
    /// column where there are at most 64.
    pub fn mask(&self, side: Side) -> u64
        ensures { IsMask (part_of side self.now.entries) result }
    {
        match side {
            Side::Plus => self.plus,
            Side::Minus => self.minus,
        }
    }

    /// How many columns it has.
    pub fn columns(&self) -> u32
        ensures value { result ≡ length self.now.entries }
        ensures kept { IsMoveKept self.now }
    {
        self.entries.len() as u32
    }

    /// The entry of a column.
    pub fn entry(&self, column: u32) -> i128
        requires { column < length self.now.entries }
        ensures { result ≡ entry self.now.entries column }
    {
        self.entries.as_slice()[column as usize]
    }

    /// The weight of its lead, and of its tail.
    pub fn weight(&self) -> i128
        ensures { result ≡ self.now.weight }
    {
        self.weight
    }
}

/// The row or its negative, whichever is oriented by the list, and none for the zero row.
fn oriented(
    alloc: Global,
    row: &[Entry],
    priority: &Priority,
) -> Result<Option<Entries>, AllocError>
    requires list { length priority.now ≡ length row.now }
    requires entries { All IsEntry row.now }
    ensures { IfOk result (λ found. MatchOption found (row.now ≡ zeros (length row.now))
        (λ entries. IsRowOriented row.now priority.now entries.items)) }
{
    let first = first_entry(row, priority.as_slice());
    if first == 0 {
        return Ok(None);
    }
    if first < 0 {
        return Ok(Some(SmallVec::from_slice(alloc, row)?));
    }
    Ok(Some(negated(alloc, row)?))
}

/// The first entry along the list that isn't 0, or 0 where there is none.
fn first_entry(row: &[Entry], columns: &[u32]) -> Entry
    requires { All (λ c. c < length row.now) columns.now }
    ensures { result ≡ first_along columns.now row.now }
{
    for column in columns {
        let entry = row[*column as usize];
        if entry != 0 {
            return entry;
        }
    }
    0
}

/// The negative of a row.
fn negated(alloc: Global, row: &[Entry]) -> Result<Entries, AllocError>
    requires { All IsEntry row.now }
    ensures { IfOk result (λ entries. entries.items ≡ negate row.now) }
{
    let mut entries = SmallVec::with_capacity(alloc, row.len())?;
    for entry in row {
        entries.push(-*entry)?;
    }
    Ok(entries)
}

/// Turns a row into its negative.
fn negate_all(row: &mut [Entry])
    requires { All IsEntry row.old }
    ensures { row.new ≡ negate row.old }
{
    for entry in row.iter_mut() {
        *entry = -*entry;
    }
}

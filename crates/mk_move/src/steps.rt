ghost use Rattle.std.specs.Prelude.{◌≡◌, ◌≤◌, ◌*◌, ◌^◌, unsigned_abs, ◌↔◌, IsTrue, pos, length, All, OnOk, IfErr, MatchResult, MatchOption, ◌-ℤ◌, ◌*ℤ◌};
ghost use Rattle.mk_model.specs.Vectors.{IsEntry, weight, zeros};
ghost use Rattle.mk_model.specs.Overflows.{IsBeyond};
ghost use Rattle.mk_move.specs.Steps.{TakesOff, IsOverflow, IsStepFault, GivesEntries, GivesEntry, AreFormed};

use crate::grading::Grading;
use crate::moves::{Entries, Move};
use mk_model::{ENTRY_MAX, Entry};
use smallvec::SmallVec;
use std::alloc::{AllocError, Global};

/// A column where `left - times * right` leaves the range of entries, from `-ENTRY_MAX` to `ENTRY_MAX`.
#[derive(Clone, Copy, Debug, PartialEq, Eq)]
pub struct OverflowAt {
    pub column: u32,
    pub left: i128,
    pub times: i128,
    pub right: i128,
}

/// Why there is no difference of two moves.
#[derive(Clone, Copy, Debug, PartialEq, Eq)]
pub enum StepFault {
    Memory,
    Overflow(OverflowAt),
}

impl From<AllocError> for StepFault {
    ghost use Rattle.std.specs.Prelude.{◌≡◌};
    ghost use Rattle.mk_move.specs.declared.steps.StepFault.TheVariants.{Memory};

    ghost from_gives = { λ _ e. e ≡ Memory };

    fn from(_e: AllocError) -> StepFault {
        StepFault::Memory
    }
}

/// The move `u` minus so many times `v`, and none where that is zero; all have as many columns. `Overflow` names the
/// first column whose entry leaves the range. (Sturmfels, chapter 5: a step of reduction, or the difference of a pair)
pub fn subtract_times(
    alloc: Global,
    u: &Move,
    times: Entry,
    v: &Move,
    grading: &Grading,
) -> Result<Option<Move>, StepFault>
    requires columns { length u.now.entries ≡ length grading.now }
    requires as_many { length v.now.entries ≡ length grading.now }
    requires times { IsEntry times }
    requires left { weight grading.now u.now.entries ≡ pos 0 }
    requires right { weight grading.now v.now.entries ≡ pos 0 }
    ensures { TakesOff u.now.entries times v.now.entries grading.now result }
{
    let entries = entries_less(alloc, u.entries(), times, v.entries())?;
    if is_zero(entries.as_slice()) {
        return Ok(None);
    }
    let weight = grading.lead_weight(entries.as_slice());
    Ok(Some(Move::of_entries(entries, weight)))
}

/// The row minus so many times the other, of as many columns.
fn entries_less(
    alloc: Global,
    left: &[Entry],
    times: Entry,
    right: &[Entry],
) -> Result<Entries, StepFault>
    requires columns { length left.now ≡ length right.now }
    requires few { length left.now ≤ 512 }
    requires left { All IsEntry left.now }
    requires times { IsEntry times }
    requires right { All IsEntry right.now }
    ensures { MatchResult result (λ entries. GivesEntries left.now right.now times entries.items) (IsStepFault left.now right.now times) }
{
    let mut entries = SmallVec::from_slice(alloc, left)?;
    match take_off(entries.as_mut_slice(), times, right) {
        Ok(()) => Ok(entries),
        Err(at) => Err(StepFault::Overflow(at)),
    }
}

/// Takes so many times the other off a row of as many columns, or names the first column that leaves the range.
pub(crate) fn take_off(row: &mut [Entry], times: Entry, right: &[Entry]) -> Result<(), OverflowAt>
    requires columns { length row.old ≡ length right.now }
    requires few { length row.old ≤ 512 }
    requires left { All IsEntry row.old }
    requires times { IsEntry times }
    requires right { All IsEntry right.now }
    ensures taken { OnOk result (GivesEntries row.old right.now times row.new) }
    ensures refused { IfErr result (IsOverflow row.old right.now times) }
{
    let end = columns_formed(times, right);
    for column in 0..end {
        let left = row[column];
        let Some(value) = entry_less(left, times, right[column]) else {
            return Err(OverflowAt {
                column: column as u32,
                left,
                times,
                right: right[column],
            });
        };
        row[column] = value;
    }
    if end < row.len() {
        return Err(OverflowAt {
            column: end as u32,
            left: row[end],
            times,
            right: right[end],
        });
    }
    Ok(())
}

/// Below this absolute value the product of a number and each entry fits 128 bits.
const NARROW: u128 = (1 << 126) / (ENTRY_MAX as u128 + 1);

/// How many columns at the front have a product with the number that is formed: all, where the number is small; else up
/// to the first entry that is greater in absolute value than the quotient of twice the largest entry by the number.
pub(crate) fn columns_formed(times: Entry, row: &[Entry]) -> usize
    requires times { IsEntry times }
    requires entries { All IsEntry row.now }
    ensures { AreFormed row.now times result }
{
    let size = times.unsigned_abs();
    if size < NARROW {
        return row.len();
    }
    let most = 2 * ENTRY_MAX as u128 / size;
    for (column, entry) in row.iter().enumerate() {
        if entry.unsigned_abs() > most {
            return column;
        }
    }
    row.len()
}

/// The entry `left - times * right`, and none where it leaves the range. The product fits 128 bits.
pub(crate) fn entry_less(left: Entry, times: Entry, right: Entry) -> Option<Entry>
    requires left { IsEntry left }
    requires times { IsEntry times }
    requires right { IsEntry right }
    requires fits { unsigned_abs times * unsigned_abs right ≤ 2 ^ 126 }
    ensures { MatchOption result (IsBeyond (left -ℤ (times *ℤ right))) (GivesEntry (left -ℤ (times *ℤ right))) }
{
    let value = left - times * right;
    if value < -ENTRY_MAX || value > ENTRY_MAX {
        return None;
    }
    Some(value)
}

/// Has the row no entry but 0?
fn is_zero(row: &[Entry]) -> bool
    ensures { IsTrue result ↔ (row.now ≡ zeros (length row.now)) }
{
    for entry in row {
        if *entry != 0 {
            return false;
        }
    }
    true
}

//! Steps in place: a multiple of a move is taken off another in its own memory.

ghost use Rattle.std.specs.Prelude.{◌≡◌, ◌≢◌, ◌≤◌, ◌<◌, ◌^◌, ◌↔◌, ℕ, ℤ, List, true, false, unsigned_abs, length, All, IsTrue, Ok, MatchOption, MatchResult, ◌-ℤ◌, ◌*ℤ◌, ◌<ℤ◌, pos};
ghost use Rattle.std.specs.Int.{bit_at};
ghost use Rattle.std.specs.Int.RustNames.{bit_or};
ghost use Rattle.mk_model.specs.Vectors.{IsEntry, positive_part, scale, weight, zeros};
ghost use Rattle.mk_move.specs.Masks.{AreMasks};
ghost use Rattle.mk_move.specs.Steps.{IsOverflow, minus_times};
ghost use Rattle.mk_move.specs.InPlace.{TakesOffInPlace, IsWide, AreBits, AreSameBut, IsWithEntry, LeavesSome};

use crate::grading::Grading;
use crate::masks::{first_bit, masks_of};
use crate::moves::Move;
use crate::steps::{OverflowAt, columns_formed, entry_less, take_off};
use mk_model::{ENTRY_MAX, Entry};

/// Below this absolute value a number is quick: it may be taken off an entry so many times an entry, and put back,
/// within 128 bits.
const QUICK: u128 = 1 << 45;

impl Move {
    /// Becomes the other move, of as many columns. It needs no memory.
    pub fn copy_from(&mut self, m: &Move)
        requires { length m.now.entries ≡ length self.old.entries }
        ensures { self.new ≡ m.now }
    {
        let right = m.entries.as_slice();
        let row = self.entries.as_mut_slice();
        if right.len() <= 64 {
            copy_at(row, right, (self.plus | self.minus) | (m.plus | m.minus));
        } else {
            row.copy_from_slice(right);
        }
        self.weight = m.weight;
        self.plus = m.plus;
        self.minus = m.minus;
    }

    /// Takes the weight of its lead from a grading of as many columns.
    pub fn weigh(&mut self, grading: &Grading)
        requires { length grading.now ≡ length self.old.entries }
        ensures { self.new ≡ record self.old { weight = weight grading.now (positive_part self.old.entries) } }
    {
        self.weight = grading.lead_weight(self.entries.as_slice());
    }

    /// Becomes its difference to so many times `v`, of as many columns: true. Its weight stays, and so may be stale: see
    /// `weigh`. It is as before where the difference is zero: false; and where an entry leaves the range, of which the
    /// first column is named. (Sturmfels, chapter 5: a step of reduction, or the difference of a pair)
    pub fn take_off(&mut self, times: Entry, v: &Move) -> Result<bool, OverflowAt>
        requires columns { length v.now.entries ≡ length self.old.entries }
        requires times { IsEntry times }
        ensures taken { TakesOffInPlace self.old times v.now.entries result self.new }
        ensures columns { length self.new.entries ≡ length self.old.entries }
    {
        if times.unsigned_abs() >= QUICK {
            return self.take_off_slowly(times, v);
        }
        match self.take_off_quickly(times, v) {
            Some(left) => Ok(left),
            None => self.take_off_slowly(times, v),
        }
    }

    /// As `take_off`, for a quick number, but none, and nothing done, where an entry leaves the range.
    fn take_off_quickly(&mut self, times: Entry, v: &Move) -> Option<bool>
        requires columns { length v.now.entries ≡ length self.old.entries }
        requires times { unsigned_abs times < 2 ^ 45 }
        ensures { MatchOption result (self.new ≡ self.old) (λ left. TakesOffInPlace self.old times v.now.entries (Ok left) self.new) }
    {
        if self.columns() <= 64 {
            self.take_off_by_bits(times, v)
        } else {
            self.take_off_by_columns(times, v)
        }
    }

    /// As `take_off_quickly`, over the bits of the masks of `v`.
    fn take_off_by_bits(&mut self, times: Entry, v: &Move) -> Option<bool>
        requires columns { length v.now.entries ≡ length self.old.entries }
        requires few { length self.old.entries ≤ 64 }
        requires times { unsigned_abs times < 2 ^ 45 }
        ensures { MatchOption result (self.new ≡ self.old) (λ left. TakesOffInPlace self.old times v.now.entries (Ok left) self.new) }
    {
        if self.is_multiple(times, v) {
            return Some(false);
        }
        let bits = v.plus | v.minus;
        let right = v.entries.as_slice();
        let row = self.entries.as_mut_slice();
        let taken = take_off_at(row, self.plus, self.minus, times, right, bits);
        if taken.in_range {
            self.plus = taken.plus;
            self.minus = taken.minus;
            return Some(true);
        }
        let _ = take_off_at(row, taken.plus, taken.minus, -times, right, bits);
        None
    }

    /// Is it so many times `v`, of as many columns? Where it isn't, masks mostly tell.
    fn is_multiple(&self, times: Entry, v: &Move) -> bool
        requires columns { length v.now.entries ≡ length self.now.entries }
        requires few { length self.now.entries ≤ 64 }
        requires times { unsigned_abs times < 2 ^ 45 }
        ensures { IsTrue result ↔ (minus_times self.now.entries times v.now.entries ≡ zeros (length self.now.entries)) }
    {
        let (plus, minus) = masks_of_multiple(times, v.plus, v.minus);
        if self.plus != plus || self.minus != minus {
            return false;
        }
        let bits = v.plus | v.minus;
        is_multiple_at(self.entries.as_slice(), times, v.entries.as_slice(), bits)
    }

    /// As `take_off_quickly`, over all columns.
    fn take_off_by_columns(&mut self, times: Entry, v: &Move) -> Option<bool>
        requires columns { length v.now.entries ≡ length self.old.entries }
        requires times { unsigned_abs times < 2 ^ 45 }
        ensures { MatchOption result (self.new ≡ self.old) (λ left. TakesOffInPlace self.old times v.now.entries (Ok left) self.new) }
    {
        let right = v.entries.as_slice();
        let row = self.entries.as_mut_slice();
        if !take_off_all(row, times, right) {
            let _ = take_off_all(row, -times, right);
            return None;
        }
        let (plus, minus) = masks_of(row);
        if plus | minus == 0 {
            let _ = take_off_all(row, -times, right);
            return Some(false);
        }
        self.plus = plus;
        self.minus = minus;
        Some(true)
    }

    /// As `take_off`: it tests all columns before it changes one.
    fn take_off_slowly(&mut self, times: Entry, v: &Move) -> Result<bool, OverflowAt>
        requires columns { length v.now.entries ≡ length self.old.entries }
        requires times { IsEntry times }
        ensures { TakesOffInPlace self.old times v.now.entries result self.new }
    {
        match leaves_some(self.entries.as_slice(), times, v.entries.as_slice()) {
            Ok(true) => {
                self.set_difference(times, v);
                Ok(true)
            }
            Ok(false) => Ok(false),
            Err(at) => Err(at),
        }
    }

    /// Becomes its difference to so many times `v`, which isn't zero and in range.
    fn set_difference(&mut self, times: Entry, v: &Move)
        requires columns { length v.now.entries ≡ length self.old.entries }
        requires times { IsEntry times }
        requires not_zero { minus_times self.old.entries times v.now.entries ≢ zeros (length self.old.entries) }
        requires range { All IsEntry (minus_times self.old.entries times v.now.entries) }
        ensures { self.new ≡ record self.old { entries = minus_times self.old.entries times v.now.entries } }
    {
        let row = self.entries.as_mut_slice();
        match take_off(row, times, v.entries.as_slice()) {
            Ok(()) => {
                let (plus, minus) = masks_of(row);
                self.plus = plus;
                self.minus = minus;
            }
            Err(_) => unreachable!(),
        }
    }
}

/// Copies the entries of the columns of the bits from the other row. In all other columns they are the same.
fn copy_at(row: &mut [Entry], right: &[Entry], bits: u64)
    requires same { AreSameBut row.old right.now bits }
    requires right { All IsEntry right.now }
    ensures { row.new ≡ right.now }
{
    let mut left = bits;
    while left != 0 {
        let (column, others) = first_bit(left);
        row[column as usize] = right[column as usize];
        left = others;
    }
}

/// The masks of both parts of so many times a vector with these masks, where the number isn't 0.
fn masks_of_multiple(times: Entry, plus: u64, minus: u64) -> (u64, u64)
    ensures masks { (y : List ℤ) → AreMasks y plus minus → times ≢ pos 0 → AreMasks (scale times y) result.0 result.1 }
    ensures bits { bit_or result.0 result.1 ≡ bit_or plus minus }
{
    if times < 0 {
        (minus, plus)
    } else {
        (plus, minus)
    }
}

/// Is the row so many times the other, of as many columns? Both have entries at the bits alone.
fn is_multiple_at(row: &[Entry], times: Entry, right: &[Entry], bits: u64) -> bool
    requires columns { length row.now ≡ length right.now }
    requires left { All IsEntry row.now }
    requires times { unsigned_abs times < 2 ^ 45 }
    requires right { All IsEntry right.now }
    requires bits { AreBits row.now bits }
    requires right_bits { AreBits right.now bits }
    ensures { IsTrue result ↔ (minus_times row.now times right.now ≡ zeros (length row.now)) }
{
    // Compiled for each of the usual numbers, it doesn't multiply.
    if times == 1 {
        return is_multiple_each(row, 1, right, bits);
    }
    if times == -1 {
        return is_multiple_each(row, -1, right, bits);
    }
    is_multiple_each(row, times, right, bits)
}

/// As `is_multiple_at`, bit after bit.
#[inline(always)]
fn is_multiple_each(row: &[Entry], times: Entry, right: &[Entry], bits: u64) -> bool
    requires columns { length row.now ≡ length right.now }
    requires left { All IsEntry row.now }
    requires times { unsigned_abs times < 2 ^ 45 }
    requires right { All IsEntry right.now }
    requires bits { AreBits row.now bits }
    requires right_bits { AreBits right.now bits }
    ensures { IsTrue result ↔ (minus_times row.now times right.now ≡ zeros (length row.now)) }
{
    let mut left = bits;
    while left != 0 {
        let (column, others) = first_bit(left);
        if wide_less(row[column as usize], times, right[column as usize]) != 0 {
            return false;
        }
        left = others;
    }
    true
}

/// The masks of both parts of a row, and whether its entries are known to be in range.
#[derive(Clone, Copy)]
struct Taken {
    plus: u64,
    minus: u64,
    in_range: bool,
}

impl Taken {
    /// What is known once the entry of a column, of at most 64, is this value.
    fn with_entry(self, column: u32, value: Entry) -> Taken
        requires { column < 64 }
        ensures { IsWithEntry self column value result }
    {
        Taken {
            plus: with_bit(self.plus, column, value > 0),
            minus: with_bit(self.minus, column, value < 0),
            in_range: self.in_range & is_entry(value),
        }
    }
}

/// The mask with the bit of a place set or cleared.
fn with_bit(mask: u64, place: u32, set: bool) -> u64
    requires { place < 64 }
    ensures there { (bit_at result place ≡ 1) ↔ IsTrue set }
    ensures others { (other : ℕ) → other ≢ place → bit_at result other ≡ bit_at mask other }
{
    if set {
        mask | (1 << place)
    } else {
        mask & !(1 << place)
    }
}

/// The number `left - times * right`, where it fits 128 bits.
fn wide_less(left: Entry, times: Entry, right: Entry) -> Entry
    requires left { IsWide left }
    requires times { unsigned_abs times < 2 ^ 45 }
    requires right { IsEntry right }
    ensures { result ≡ left -ℤ (times *ℤ right) }
{
    left - times * right
}

/// Is the number in the range of entries?
fn is_entry(value: Entry) -> bool
    ensures { IsTrue result ↔ IsEntry value }
{
    value >= -ENTRY_MAX && value <= ENTRY_MAX
}

/// Takes so many times the other off a row of at most 64 columns, with these masks, and tells what is known of it then.
/// The other has entries at its bits alone.
fn take_off_at(
    row: &mut [Entry],
    plus: u64,
    minus: u64,
    times: Entry,
    right: &[Entry],
    bits: u64,
) -> Taken
    requires columns { length row.old ≡ length right.now }
    requires few { length row.old ≤ 64 }
    requires left { All IsWide row.old }
    requires masks { AreMasks row.old plus minus }
    requires times { unsigned_abs times < 2 ^ 45 }
    requires right { All IsEntry right.now }
    requires bits { AreBits right.now bits }
    ensures entries { row.new ≡ minus_times row.old times right.now }
    ensures masks { AreMasks row.new result.plus result.minus }
    ensures range { IsTrue result.in_range → All IsEntry row.old → All IsEntry row.new }
{
    // Compiled for each of the usual numbers, a step doesn't multiply.
    if times == 1 {
        return take_off_each(row, plus, minus, 1, right, bits);
    }
    if times == -1 {
        return take_off_each(row, plus, minus, -1, right, bits);
    }
    take_off_each(row, plus, minus, times, right, bits)
}

/// As `take_off_at`, bit after bit.
#[inline(always)]
fn take_off_each(
    row: &mut [Entry],
    plus: u64,
    minus: u64,
    times: Entry,
    right: &[Entry],
    bits: u64,
) -> Taken
    requires columns { length row.old ≡ length right.now }
    requires few { length row.old ≤ 64 }
    requires left { All IsWide row.old }
    requires masks { AreMasks row.old plus minus }
    requires times { unsigned_abs times < 2 ^ 45 }
    requires right { All IsEntry right.now }
    requires bits { AreBits right.now bits }
    ensures entries { row.new ≡ minus_times row.old times right.now }
    ensures masks { AreMasks row.new result.plus result.minus }
    ensures range { IsTrue result.in_range → All IsEntry row.old → All IsEntry row.new }
{
    let mut taken = Taken {
        plus,
        minus,
        in_range: true,
    };
    let mut left = bits;
    while left != 0 {
        let (column, others) = first_bit(left);
        let value = wide_less(row[column as usize], times, right[column as usize]);
        row[column as usize] = value;
        taken = taken.with_entry(column, value);
        left = others;
    }
    taken
}

/// Takes so many times the other off a row of as many columns, and tells whether all entries are in range then.
fn take_off_all(row: &mut [Entry], times: Entry, right: &[Entry]) -> bool
    requires columns { length row.old ≡ length right.now }
    requires left { All IsWide row.old }
    requires times { unsigned_abs times < 2 ^ 45 }
    requires right { All IsEntry right.now }
    ensures entries { row.new ≡ minus_times row.old times right.now }
    ensures range { IsTrue result → All IsEntry row.new }
{
    let mut in_range = true;
    for column in 0..row.len() {
        let value = wide_less(row[column], times, right[column]);
        row[column] = value;
        in_range &= is_entry(value);
    }
    in_range
}

/// Does the row less so many times the other, of as many columns, have an entry that isn't 0? Or the first column that
/// leaves the range.
fn leaves_some(left: &[Entry], times: Entry, right: &[Entry]) -> Result<bool, OverflowAt>
    requires columns { length left.now ≡ length right.now }
    requires few { length left.now ≤ 512 }
    requires left { All IsEntry left.now }
    requires times { IsEntry times }
    requires right { All IsEntry right.now }
    ensures { LeavesSome left.now times right.now result }
{
    let end = columns_formed(times, right);
    let mut some = false;
    for column in 0..end {
        let Some(value) = entry_less(left[column], times, right[column]) else {
            return Err(OverflowAt {
                column: column as u32,
                left: left[column],
                times,
                right: right[column],
            });
        };
        some |= value != 0;
    }
    if end < left.len() {
        return Err(OverflowAt {
            column: end as u32,
            left: left[end],
            times,
            right: right[end],
        });
    }
    Ok(some)
}

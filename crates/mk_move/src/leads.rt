ghost use Rattle.std.specs.Prelude.{◌≡◌, ◌≢◌, ◌↔◌, ◌≤◌, ◌/◌, ◌<ℤ◌, ◌≤ℤ◌, ℕ, length, All, IsTrue, pos};
ghost use Rattle.mk_model.specs.Vectors.{IsEntry, positive_part, zeros};
ghost use Rattle.mk_model.specs.Reductions.{Divides};
ghost use Rattle.mk_model.specs.Pairs.{AreDisjoint};
ghost use Rattle.mk_move.specs.Masks.{IsMask};
ghost use Rattle.mk_move.specs.Sides.{part_of, entry_on, IsMostTimes};

use crate::masks::first_bit;
use crate::moves::Move;
use crate::side::Side;
use mk_model::{ENTRY_MAX, Entry};

/// The largest number of 64 bits.
const LARGEST_64: Entry = u64::MAX as Entry;

/// Does the lead of `v` divide the part of `r` on that side? Both have as many columns. (Sturmfels, chapter 1)
pub fn lead_divides(v: &Move, r: &Move, side: Side) -> bool
    requires { length v.now.entries ≡ length r.now.entries }
    ensures { IsTrue result ↔ Divides (positive_part v.now.entries) (part_of side r.now.entries) }
{
    if v.mask(Side::Plus) & !r.mask(side) != 0 {
        return false;
    }
    if v.columns() > 64 {
        return divides_part(v.entries(), r.entries(), side);
    }
    divides_part_at(v.mask(Side::Plus), v.entries(), r.entries(), side)
}

/// The greatest number of times that the lead of `v` divides the part of `r` on that side: at least 1. Both have as
/// many columns, the lead divides the part and isn't zero.
pub fn times_dividing(v: &Move, r: &Move, side: Side) -> Entry
    requires columns { length v.now.entries ≡ length r.now.entries }
    requires not_zero { positive_part v.now.entries ≢ zeros (length v.now.entries) }
    requires divides { Divides (positive_part v.now.entries) (part_of side r.now.entries) }
    ensures most { IsMostTimes (positive_part v.now.entries) (part_of side r.now.entries) result }
    ensures range { IsEntry result }
{
    if v.columns() > 64 {
        return most_times(v.entries(), r.entries(), side);
    }
    most_times_at(v.mask(Side::Plus), v.entries(), r.entries(), side)
}

/// Have the leads no column in common? Both moves have as many columns. (Sturmfels, chapter 1: coprime leading terms)
pub fn coprime_leads(a: &Move, b: &Move) -> bool
    requires { length a.now.entries ≡ length b.now.entries }
    ensures { IsTrue result ↔ AreDisjoint (positive_part a.now.entries) (positive_part b.now.entries) }
{
    if a.mask(Side::Plus) & b.mask(Side::Plus) == 0 {
        return true;
    }
    // A block of so few columns is one column.
    if a.columns() <= 64 {
        return false;
    }
    are_disjoint(a.entries(), b.entries())
}

/// Does the positive part of the one divide the part of the other? Both have as many columns.
fn divides_part(lead: &[Entry], row: &[Entry], side: Side) -> bool
    requires columns { length lead.now ≡ length row.now }
    requires lead { All IsEntry lead.now }
    requires entries { All IsEntry row.now }
    ensures { IsTrue result ↔ Divides (positive_part lead.now) (part_of side row.now) }
{
    for (column, entry) in lead.iter().enumerate() {
        if *entry > side.entry_of(row[column]) {
            return false;
        }
    }
    true
}

/// Does the positive part of the one, of at most 64 columns, divide the part of the other? Both have as many columns. It
/// looks at the columns of the positive part's mask alone.
fn divides_part_at(mask: u64, lead: &[Entry], row: &[Entry], side: Side) -> bool
    requires few { length lead.now ≤ 64 }
    requires mask { IsMask (positive_part lead.now) mask }
    requires columns { length lead.now ≡ length row.now }
    requires lead { All IsEntry lead.now }
    requires entries { All IsEntry row.now }
    ensures { IsTrue result ↔ Divides (positive_part lead.now) (part_of side row.now) }
{
    let mut left = mask;
    while left != 0 {
        let (column, others) = first_bit(left);
        if lead[column as usize] > side.entry_of(row[column as usize]) {
            return false;
        }
        left = others;
    }
    true
}

/// The greatest number of times that the positive part of the one divides the part of the other.
fn most_times(lead: &[Entry], row: &[Entry], side: Side) -> Entry
    requires columns { length lead.now ≡ length row.now }
    requires lead { All IsEntry lead.now }
    requires entries { All IsEntry row.now }
    requires not_zero { positive_part lead.now ≢ zeros (length lead.now) }
    requires divides { Divides (positive_part lead.now) (part_of side row.now) }
    ensures most { IsMostTimes (positive_part lead.now) (part_of side row.now) result }
    ensures range { IsEntry result }
{
    let mut times = ENTRY_MAX;
    for (column, entry) in lead.iter().enumerate() {
        if *entry > 0 {
            times = times.min(side.entry_of(row[column]) / *entry);
        }
    }
    times
}

/// The greatest number of times that the positive part of the one, of at most 64 columns, divides the part of the other. It
/// looks at the columns of the positive part's mask alone, until the number is 1.
fn most_times_at(mask: u64, lead: &[Entry], row: &[Entry], side: Side) -> Entry
    requires few { length lead.now ≤ 64 }
    requires mask { IsMask (positive_part lead.now) mask }
    requires columns { length lead.now ≡ length row.now }
    requires lead { All IsEntry lead.now }
    requires entries { All IsEntry row.now }
    requires not_zero { positive_part lead.now ≢ zeros (length lead.now) }
    requires divides { Divides (positive_part lead.now) (part_of side row.now) }
    ensures most { IsMostTimes (positive_part lead.now) (part_of side row.now) result }
    ensures range { IsEntry result }
{
    let mut times = ENTRY_MAX;
    let mut left = mask;
    while left != 0 && times > 1 {
        let (column, others) = first_bit(left);
        let part = side.entry_of(row[column as usize]);
        times = times.min(quotient(part, lead[column as usize]));
        left = others;
    }
    times
}

/// The quotient of two positive entries, the second no greater than the first. It divides only where it has to, and by 64
/// bits where both have so few.
fn quotient(dividend: Entry, divisor: Entry) -> Entry
    requires positive { pos 0 <ℤ divisor }
    requires no_greater { divisor ≤ℤ dividend }
    requires range { IsEntry dividend }
    ensures { (a b : ℕ) → dividend ≡ pos a → divisor ≡ pos b → result ≡ pos (a / b) }
{
    if divisor == 1 {
        return dividend;
    }
    if dividend - divisor < divisor {
        return 1;
    }
    if dividend <= LARGEST_64 {
        return Entry::from(dividend as u64 / divisor as u64);
    }
    dividend / divisor
}

/// Is there no column where both are positive? Both have as many columns.
fn are_disjoint(a: &[Entry], b: &[Entry]) -> bool
    requires columns { length a.now ≡ length b.now }
    requires left { All IsEntry a.now }
    requires right { All IsEntry b.now }
    ensures { IsTrue result ↔ AreDisjoint (positive_part a.now) (positive_part b.now) }
{
    for (column, entry) in a.iter().enumerate() {
        if *entry > 0 && b[column] > 0 {
            return false;
        }
    }
    true
}

ghost use Rattle.std.specs.Prelude.{◌≡◌, ◌+◌, ◌<◌, ◌^◌, not, length, ℤ, pos};
ghost use Rattle.std.specs.Ordering.{int_eq};
ghost use Rattle.mk_model.specs.FreeColumns.{columns_left, is_within, without_support, freed_by_row, freed_by_rows};
ghost use Rattle.mk_model.specs.Orders.{standard, oriented_by};
ghost use Rattle.mk_model.specs.Vectors.{entry};
ghost use Rattle.mk_move.specs.MoveLists.{vectors_of};
ghost use Rattle.mk_move.specs.Sides.{part_of, entry_on};
ghost use Rattle.mk_saturate.specs.Freed.{other_side, turned_to, freed_on};

use mk_model::Entry;
use mk_move::{Basis, Move, Side};

/// Takes the columns that the moves free, one move after another, out of those that are left, and answers how many.
pub(crate) fn free_by_moves(basis: &Basis, left: &mut [bool]) -> u32
    requires columns { length left.old ≡ length basis.now.grading }
    requires few_columns { length left.old < 2 ^ 32 }
    ensures left { left.new
        ≡ freed_by_rows (standard (length basis.now.grading))
        (vectors_of basis.now.moves) left.old }
    ensures count { length (columns_left left.old) ≡ result + length (columns_left left.new) }
{
    let mut freed = 0;
    for k in 0..basis.len() {
        freed += free_by_move(basis.move_at(k), left);
    }
    freed
}

/// Takes the columns that a move frees out of those that are left: as the standard list orients it, and then as the negative of
/// that. Answers how many.
fn free_by_move(found: &Move, left: &mut [bool]) -> u32
    requires columns { length left.old ≡ length found.now.entries }
    requires few_columns { length left.old < 2 ^ 32 }
    ensures left { left.new
        ≡ freed_by_row (standard (length found.now.entries)) found.now.entries left.old }
    ensures count { length (columns_left left.old) ≡ result + length (columns_left left.new) }
{
    let lead = lead_side(found);
    let first = free_by_side(found, lead, left);
    let second = free_by_side(found, other(lead), left);
    first + second
}

/// Takes the columns of the move's part on a side out of those that are left, where each column of its other part is left. Answers
/// how many.
fn free_by_side(found: &Move, side: Side, left: &mut [bool]) -> u32
    requires columns { length left.old ≡ length found.now.entries }
    requires few_columns { length left.old < 2 ^ 32 }
    ensures left { left.new ≡ freed_on side found.now.entries left.old }
    ensures count { length (columns_left left.old) ≡ result + length (columns_left left.new) }
{
    if is_part_left(found, other(side), left) {
        take_part_out(found, side, left)
    } else {
        0
    }
}

/// Is each column of the move's part on a side left?
fn is_part_left(found: &Move, side: Side, left: &[bool]) -> bool
    requires { length left.now ≡ length found.now.entries }
    ensures { result ≡ is_within (part_of side found.now.entries) left.now }
{
    for column in 0..found.columns() {
        if !left[column as usize] && part_has(found, side, column) {
            return false;
        }
    }
    true
}

/// Takes the columns of the move's part on a side out of those that are left, and answers how many were.
fn take_part_out(found: &Move, side: Side, left: &mut [bool]) -> u32
    requires columns { length left.old ≡ length found.now.entries }
    requires few_columns { length left.old < 2 ^ 32 }
    ensures left { left.new ≡ without_support (part_of side found.now.entries) left.old }
    ensures count { length (columns_left left.old) ≡ result + length (columns_left left.new) }
{
    let mut taken = 0;
    for column in 0..found.columns() {
        if left[column as usize] && part_has(found, side, column) {
            left[column as usize] = false;
            taken += 1;
        }
    }
    taken
}

/// The side of the move's lead, where the standard list orients it.
fn lead_side(found: &Move) -> Side
    ensures { oriented_by (standard (length found.now.entries)) found.now.entries
        ≡ turned_to result found.now.entries }
{
    let columns = found.columns();
    for behind in 0..columns {
        let column = columns - 1 - behind;
        let is_negative = part_has(found, Side::Minus, column);
        if is_negative {
            return Side::Plus;
        }
        let is_positive = part_has(found, Side::Plus, column);
        if is_positive {
            return Side::Minus;
        }
    }
    Side::Plus
}

/// Has the move's part on a side an entry in the column?
fn part_has(found: &Move, side: Side, column: u32) -> bool
    requires { column < length found.now.entries }
    ensures { result ≡ not (int_eq (entry (part_of side found.now.entries) column) (pos 0)) }
{
    is_on(side, found.entry(column))
}

/// Has the part of a vector on a side an entry here, where this is the entry of the vector?
fn is_on(side: Side, entry: Entry) -> bool
    ensures { result ≡ not (int_eq (entry_on side entry) (pos 0)) }
{
    match side {
        Side::Plus => entry > 0,
        Side::Minus => entry < 0,
    }
}

fn other(side: Side) -> Side
    ensures { result ≡ other_side side }
{
    match side {
        Side::Plus => Side::Minus,
        Side::Minus => Side::Plus,
    }
}

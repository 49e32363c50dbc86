ghost use Rattle.mk_move.specs.Sides.{AreBothSides};

use crate::moves::Move;
use crate::priority::Priority;
use crate::side::Side;

impl Move {
    /// Both sides, that of the part which is likely the greater by the list first: the other has the first column of the
    /// list where an entry is. Behind its first column the list is taken to go from the last column to the first.
    pub fn likely_sides(&self, priority: &Priority) -> (Side, Side)
        ensures { AreBothSides result.0 result.1 }
    {
        let plus = self.mask(Side::Plus);
        let minus = self.mask(Side::Minus);
        let first = first_mask(priority);
        let is_plus_lesser = if (plus | minus) & first != 0 {
            plus & first != 0
        } else {
            plus > minus
        };
        if is_plus_lesser {
            (Side::Minus, Side::Plus)
        } else {
            (Side::Plus, Side::Minus)
        }
    }
}

/// The mask of the first column of a list of at most 64, and 0 for a longer or an empty one.
fn first_mask(priority: &Priority) -> u64 {
    let columns = priority.columns();
    if columns == 0 || columns > 64 {
        return 0;
    }
    1 << priority.column_at(0)
}

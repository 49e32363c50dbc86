//! Plain programs for definitions, each proved to be what its definition says. They don't count
//! the time that they take: tests hold other programs against them.

ghost use Rattle.std.specs.Prelude.{◌≡◌, ◌<◌, ◌↔◌, length, All, IsTrue};
ghost use Rattle.mk_model.specs.Orders.{IsBelow};
ghost use Rattle.mk_model.specs.Reductions.{Divides};

use crate::Entry;

/// Is `x` below `y`: does it have the larger entry at the first of the columns where they differ?
pub fn is_below(columns: &[u32], x: &[Entry], y: &[Entry]) -> bool
    requires of_first { All (λ c. c < length x.now) columns.now }
    requires of_second { All (λ c. c < length y.now) columns.now }
    ensures { IsTrue result ↔ IsBelow columns.now x.now y.now }
{
    for column in columns {
        let c = *column as usize;
        if y[c] < x[c] {
            return true;
        }
        if x[c] < y[c] {
            return false;
        }
    }
    false
}

/// Does `x` divide `y`: is no entry of `x` larger than that of `y`?
pub fn divides(x: &[Entry], y: &[Entry]) -> bool
    requires { length x.now ≡ length y.now }
    ensures { IsTrue result ↔ Divides x.now y.now }
{
    for i in 0..x.len() {
        if y[i] < x[i] {
            return false;
        }
    }
    true
}

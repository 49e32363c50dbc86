ghost use Rattle.std.specs.Prelude.{◌≡◌, IsTrue, ◌↔◌, ◌<◌, ◌*◌};

/// Whether the fraction `a / b` is smaller than `c / d`, exactly, by the quotients and then the
/// rests.
pub fn is_smaller(a: u128, b: u128, c: u128, d: u128) -> bool
    requires first { 0 < b }
    requires second { 0 < d }
    ensures { IsTrue result ↔ a * d < c * b }
{
    let quotient = a / b;
    let other = c / d;
    if quotient != other {
        return quotient < other;
    }
    let rest = a % b;
    let left = c % d;
    if left == 0 {
        return false;
    }
    if rest == 0 {
        return true;
    }
    is_smaller(d, left, b, rest)
}

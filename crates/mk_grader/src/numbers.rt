ghost use Rattle.std.specs.Prelude.{◌≡◌, ℤ, IsTrue, ◌↔◌, IfSome, IfNone, ◌-ℤ◌, ◌*ℤ◌};
ghost use Rattle.mk_grader.specs.Ranges.{IsInRange, IsComputed};

/// The largest absolute value of what a pivot computes, 2^126 - 1.
pub const PIVOT_MAX: i128 = 85070591730234615865843651857942052863;

/// Whether a number is in the range of a pivot.
fn is_in_range(z: i128) -> bool
    ensures { IsTrue result ↔ IsInRange z }
{
    -PIVOT_MAX <= z && z <= PIVOT_MAX
}

/// The product, where it is in range.
fn product(x: i128, y: i128) -> Option<i128>
    ensures value { IfSome result (λ z. z ≡ x *ℤ y) }
    ensures range { IfSome result IsInRange }
    ensures none { IfNone result (¬ (IsInRange (x *ℤ y))) }
{
    match x.checked_mul(y) {
        Some(z) => { if is_in_range(z) { Some(z) } else { None } }
        None => None,
    }
}

/// The difference of two numbers in range, where it is in range.
fn difference(x: i128, y: i128) -> Option<i128>
    requires first { IsInRange x }
    requires second { IsInRange y }
    ensures value { IfSome result (λ z. z ≡ x -ℤ y) }
    ensures range { IfSome result IsInRange }
    ensures none { IfNone result (¬ (IsInRange (x -ℤ y))) }
{
    let z = x - y;
    if is_in_range(z) { Some(z) } else { None }
}

/// What a pivot divides at an entry `a`, where it can be computed: `a·p - f·g`.
pub fn cross_difference(a: i128, p: i128, f: i128, g: i128) -> Option<i128>
    ensures value { IfSome result (λ z. z ≡ (a *ℤ p) -ℤ (f *ℤ g)) }
    ensures some { IfSome result (λ _. IsComputed a p f g) }
    ensures none { IfNone result (¬ (IsComputed a p f g)) }
{
    let Some(first) = product(a, p) else {
        return None;
    };
    let Some(second) = product(f, g) else {
        return None;
    };
    difference(first, second)
}

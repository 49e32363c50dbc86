ghost use Rattle.std.specs.Prelude.{◌≡◌, ℕ, ◌<◌, ◌^◌, false, length, set, MatchOption};
ghost use Rattle.mk_saturate.specs.Saturations.{IsLeastLeft, NoneLeft};

/// The least column that is unsaturated, and none exactly where no column is.
pub(crate) fn least_left(left: &[bool]) -> Option<u32>
    requires { length left.now < 2 ^ 32 }
    ensures { MatchOption result (NoneLeft left.now) (IsLeastLeft left.now) }
{
    for column in 0..left.len() {
        if left[column] {
            return Some(column as u32);
        }
    }
    None
}

/// Takes the least unsaturated column out of those that are left.
pub(crate) fn saturate_least(left: &mut [bool])
    requires { length left.old < 2 ^ 32 }
    ensures { (column : ℕ) → IsLeastLeft left.old column → left.new ≡ set left.old column false }
{
    if let Some(column) = least_left(left) {
        left[column as usize] = false;
    }
}

ghost use Rattle.std.specs.Prelude.{◌≡◌, ◌≤◌, min, pos, neg_ℤ, ◌≤ℤ◌, ◌<ℤ◌, IfSome, IfNone, IfOk, IsErrOf};
ghost use Rattle.std.specs.Str.Parse.{digits_value};
ghost use Rattle.mk_model.specs.Tables.{AreDigits, IsCount, IsNumber};
ghost use Rattle.mk_model.specs.TableFaults.{CountAbove, NoCount, EntryBeyond, NoNumber};
ghost use Rattle.mk_files.specs.Bounds.{IsWithin, limits_of};
ghost use Rattle.mk_files.specs.Numbers.{without_plus, NumberBeyond};
ghost use Rattle.mk_model.specs.Vectors.{IsEntry};

use crate::bounds::Bounds;
use mk_model::{ENTRY_MAX, Entry};

/// Why a token's number is not taken.
pub enum NumberFault {
    /// It writes no number of the kind.
    NoNumber,
    /// The number is too small or too large.
    OutOfRange,
}

/// The least number that is larger than each entry.
pub const BEYOND: u128 = ENTRY_MAX as u128 + 1;

/// The number that the digits write, or `BEYOND` where it is larger: none where they aren't digits, one or more.
pub fn magnitude(digits: &[u8]) -> Option<u128>
    ensures found { IfSome result
        (λ n. AreDigits digits.now × (n ≡ min (digits_value 10 digits.now) BEYOND)) }
    ensures none { IfNone result (AreDigits digits.now → ⊥) }
{
    if digits.is_empty() {
        return None;
    }
    let mut value: u128 = 0;
    for digit in digits {
        if !digit.is_ascii_digit() {
            return None;
        }
        value = (value * 10 + u128::from(*digit - b'0')).min(BEYOND);
    }
    Some(value)
}

/// The token with no plus in front.
fn without_plus_sign(token: &[u8]) -> &[u8]
    ensures { result.now ≡ without_plus token.now }
{
    match token {
        [b'+', digits @ ..] => digits,
        _ => token,
    }
}

/// The number of at most `most` that the token writes.
pub fn count_of(token: &[u8], most: u32) -> Result<u32, NumberFault>
    ensures ok { IfOk result (λ n. (n ≤ most) × IsCount token.now n) }
    ensures no_number { IsErrOf result NumberFault.NoNumber → NoCount token.now }
    ensures out_of_range { IsErrOf result NumberFault.OutOfRange → CountAbove most token.now }
{
    let Some(count) = magnitude(without_plus_sign(token)) else {
        return Err(NumberFault::NoNumber);
    };
    if count <= u128::from(most) {
        Ok(count as u32)
    } else {
        Err(NumberFault::OutOfRange)
    }
}

/// The number that the digits write, where it is no larger than the largest entry.
fn entry_of_digits(digits: &[u8]) -> Result<Entry, NumberFault>
    ensures ok { IfOk result
        (λ z. AreDigits digits.now × (z ≡ pos (digits_value 10 digits.now)) × IsEntry z) }
    ensures no_number { IsErrOf result NumberFault.NoNumber → AreDigits digits.now → ⊥ }
    ensures out_of_range { IsErrOf result NumberFault.OutOfRange
        → AreDigits digits.now × (ENTRY_MAX <ℤ pos (digits_value 10 digits.now)) }
{
    let Some(value) = magnitude(digits) else {
        return Err(NumberFault::NoNumber);
    };
    if value < BEYOND {
        Ok(value as Entry)
    } else {
        Err(NumberFault::OutOfRange)
    }
}

/// The number that the token writes, where it is from `-ENTRY_MAX` to `ENTRY_MAX`.
fn number_of(token: &[u8]) -> Result<Entry, NumberFault>
    ensures ok { IfOk result (λ z. IsEntry z × IsNumber token.now z) }
    ensures no_number { IsErrOf result NumberFault.NoNumber → NoNumber token.now }
    ensures out_of_range { IsErrOf result NumberFault.OutOfRange → NumberBeyond token.now }
{
    match token {
        [b'-', digits @ ..] => Ok(-entry_of_digits(digits)?),
        _ => entry_of_digits(without_plus_sign(token)),
    }
}

/// The number that the token writes, where it is within the bounds.
pub fn entry_of(token: &[u8], bounds: &Bounds) -> Result<Entry, NumberFault>
    requires least { neg_ℤ ENTRY_MAX ≤ℤ bounds.now.least }
    requires most { bounds.now.most ≤ℤ ENTRY_MAX }
    ensures ok { IfOk result (λ z. IsWithin bounds.now z × IsNumber token.now z) }
    ensures no_number { IsErrOf result NumberFault.NoNumber → NoNumber token.now }
    ensures out_of_range { IsErrOf result NumberFault.OutOfRange → EntryBeyond (limits_of bounds.now) token.now }
{
    let entry = number_of(token)?;
    if bounds.least <= entry && entry <= bounds.most {
        Ok(entry)
    } else {
        Err(NumberFault::OutOfRange)
    }
}

//! Numbers that words write.

ghost use Rattle.std.specs.Prelude.{◌≡◌, ◌≢◌, ◌<◌, ◌≤◌, ℕ, length, slice_index, IfSome, IfNone};
ghost use Rattle.mk_words.specs.Requests.{IsNumberIn, IsCutAtCross};

use mk_files::magnitude;

/// The number from `least` to `most` that the word writes.
pub(crate) fn number_in(word: &[u8], least: u64, most: u64) -> Option<u64>
    ensures some { IfSome result (IsNumberIn least most word.now) }
    ensures none { IfNone result ((n : ℕ) → IsNumberIn least most word.now n → ⊥) }
{
    let value = magnitude(word)?;
    if u128::from(least) <= value && value <= u128::from(most) {
        Some(value as u64)
    } else {
        None
    }
}

/// A word without its first `x`: what stands before it, and what behind it.
#[derive(Clone, Copy)]
pub(crate) struct CutWord<'a> {
    pub(crate) front: &'a [u8],
    pub(crate) behind: &'a [u8],
}

/// The word, cut at its first `x`.
pub(crate) fn cut_at_cross(word: &[u8]) -> Option<CutWord<'_>>
    ensures some { IfSome result (λ cut. IsCutAtCross word.now cut.front.now cut.behind.now) }
    ensures none { IfNone result ((k : ℕ) → k < length word.now → slice_index word.now k ≢ 120) }
{
    for (at, byte) in word.iter().enumerate() {
        if *byte == b'x' {
            return Some(CutWord {
                front: &word[..at],
                behind: &word[at + 1..],
            });
        }
    }
    None
}

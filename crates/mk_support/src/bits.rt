ghost use Rattle.std.specs.Prelude.{◌≡◌, ◌≤◌, ◌<◌};
ghost use Rattle.std.specs.Int.{bit_at};

/// The bit of a mask at this place: 0 or 1.
pub(crate) fn bit_of(mask: u64, bit: u32) -> u64
    requires { bit < 64 }
    ensures { result ≡ bit_at mask bit }
{
    (mask >> bit) & 1
}

/// The place of the lowest bit of a mask, and 64 where it has none.
pub(crate) fn lowest_bit(mask: u64) -> u32
    ensures range { result ≤ 64 }
    ensures set { result < 64 → bit_at mask result ≡ 1 }
{
    mask.trailing_zeros()
}

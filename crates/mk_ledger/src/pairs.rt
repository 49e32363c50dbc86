ghost use Rattle.std.specs.Prelude.{◌≡◌, ◌+◌, ◌<◌, ◌≤◌, ◌↔◌, ◌^◌, ℕ, IsTrue};
ghost use Rattle.mk_ledger.specs.PairFlags.{pairs_of, pair_number};

use std::marker::Model;

/// The number of the pair of two places, the lesser first: pairs are ordered by their second place, then by their first.
pub fn pair_number(i: u32, j: u32) -> u64
    requires { i < j }
    ensures { result ≡ pair_number i j }
{
    pairs_of(j) + u64::from(i)
}

/// How many pairs so many moves have: fewer than 2^63.
pub fn pairs_of(moves: u32) -> u64
    ensures value { result ≡ pairs_of moves }
    ensures range { result + 2 ^ 32 < 2 ^ 64 }
{
    let count = u64::from(moves);
    if count == 0 {
        return 0;
    }
    count * (count - 1) / 2
}

/// The pair of the next claim. Claims go through the pairs in the order of their numbers, so it is seen as a number: no
/// pair from it on is settled or claimed, and while no worker has halted each pair below it is settled or claimed.
#[derive(Debug, Drop)]
pub struct Frontier {
    i: u32,
    j: u32,
}

impl Model for Frontier {
    ghost use Rattle.std.specs.Prelude.{ℕ};
    ghost use Rattle.mk_ledger.specs.PairFlags.{pair_number, IsPlace};

    ghost Value = { ℕ };

    ghost view = { λ f. pair_number f.i f.j };

    ghost invariant = { λ f. IsPlace f.i f.j };
}

impl Frontier {
    /// The first pair, of the places 0 and 1.
    pub fn new() -> Frontier
        ensures { result ≡ 0 }
    {
        Frontier { i: 0, j: 1 }
    }

    /// The places of the pair, the lesser first.
    pub fn pair(&self) -> (u32, u32)
        ensures ordered { result.0 < result.1 }
        ensures range { result.1 ≤ 65536 }
        ensures number { pair_number result.0 result.1 ≡ self.now }
    {
        (self.i, self.j)
    }

    /// The number of the pair: fewer than 2^63.
    pub fn number(&self) -> u64
        ensures { result ≡ self.now }
    {
        pair_number(self.i, self.j)
    }

    /// Whether the pair is one of so many moves.
    pub fn is_within(&self, moves: u32) -> bool
        ensures { IsTrue result ↔ self.now < pairs_of moves }
    {
        self.j < moves
    }

    /// From this place on each place has its pair with `j` at the next pair or behind it.
    pub fn end_beside(&self, j: u32) -> u32
        ensures first { (k : ℕ) → result ≤ k → k < j → self.now ≤ pair_number k j }
        ensures second { (k : ℕ) → result ≤ k → j < k → self.now ≤ pair_number j k }
    {
        if j < self.j {
            self.j + 1
        } else if j == self.j {
            self.i
        } else {
            0
        }
    }

    /// Goes on to the next pair.
    pub fn advance(&mut self)
        requires { self.old < pairs_of 65536 }
        ensures { self.new ≡ self.old + 1 }
    {
        if self.i + 1 < self.j {
            self.i += 1;
        } else {
            self.i = 0;
            self.j += 1;
        }
    }
}

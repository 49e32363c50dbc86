ghost use Rattle.std.specs.Prelude.{◌≡◌, ℕ, ◌+◌, ◌-◌, ◌<◌, ◌≤◌, ◌++◌, [], true, false, length, take, replicate, IfOk, OnOk, OnErr, slice_index_or, slice_set};
ghost use Rattle.mk_ledger.specs.PairFlags.{pairs_of, pair_number};

use crate::pairs::{pair_number, pairs_of};
use mk_model::NoMemory;
use std::alloc::Global;
use std::marker::Model;

/// Which pairs of at most 65,536 moves are settled: a flag for each pair in the order of their numbers, 64 in a word.
#[derive(Debug, Drop)]
pub struct SettledBits {
    words: Vec<u64>,
    moves: u32,
}

impl Model for SettledBits {
    ghost use Rattle.mk_ledger.specs.PairFlags.{PairFlags, flags_of, pairs_of, AreWords};

    ghost Value = { PairFlags };

    ghost view = { λ b.
        record { moves = b.moves; flags = flags_of b.words.items (pairs_of b.moves) } };

    ghost invariant = { λ b. AreWords b.words.items b.moves };
}

impl SettledBits {
    /// No moves, and so no pairs.
    pub fn new(alloc: Global) -> SettledBits
        ensures { result ≡ record { moves = 0; flags = [] } }
    {
        SettledBits {
            words: Vec::new(alloc),
            moves: 0,
        }
    }

    /// So many moves, at most 65,536, none of whose pairs is settled.
    pub fn of_moves(alloc: Global, moves: u32) -> Result<SettledBits, NoMemory>
        requires { moves ≤ 65536 }
        ensures { IfOk result (λ bits. bits
            ≡ record { moves = moves; flags = replicate (pairs_of moves) false }) }
    {
        let needed = ((pairs_of(moves) + 63) / 64) as usize;
        let mut words = Vec::new(alloc);
        fit(&mut words, needed)?;
        Ok(SettledBits { words, moves })
    }

    /// How many moves there are: at most 65,536.
    pub fn moves(&self) -> u32
        ensures value { result ≡ self.now.moves }
        ensures range { result < 65537 }
    {
        self.moves
    }

    /// Whether the pair of two places is settled, the lesser first.
    pub fn is_settled(&self, i: u32, j: u32) -> bool
        requires ordered { i < j }
        requires within { j < self.now.moves }
        ensures { result ≡ slice_index_or self.now.flags (pair_number i j) false }
    {
        let number = pair_number(i, j);
        let word = self.words[(number / 64) as usize];
        (word >> (number % 64)) & 1 == 1
    }

    /// The pair of two places is settled from now on, the lesser first.
    pub fn mark(&mut self, i: u32, j: u32)
        requires ordered { i < j }
        requires within { j < self.old.moves }
        ensures { self.new
            ≡ record self.old { flags = slice_set self.old.flags (pair_number i j) true } }
    {
        let number = pair_number(i, j);
        let place = (number / 64) as usize;
        self.words[place] |= 1 << (number % 64);
    }

    /// One move more, whose pairs with the others aren't settled. After a refusal all is as before.
    pub fn grow(&mut self) -> Result<(), NoMemory>
        requires { self.old.moves < 65536 }
        ensures ok { OnOk result (self.new ≡ record {
          moves = self.old.moves + 1;
          flags = self.old.flags ++ replicate self.old.moves false;
        }) }
        ensures err { OnErr result (self.new ≡ self.old) }
    {
        let needed = ((pairs_of(self.moves + 1) + 63) / 64) as usize;
        fit(&mut self.words, needed)?;
        self.moves += 1;
        Ok(())
    }

    /// One move fewer: the last, of whose pairs none is settled.
    pub fn shrink(&mut self)
        requires some { 0 < self.old.moves }
        requires clear { (number : ℕ) → pairs_of (self.old.moves - 1) ≤ number →
            slice_index_or self.old.flags number false ≡ false }
        ensures { self.new ≡ record {
          moves = self.old.moves - 1;
          flags = take (pairs_of (self.old.moves - 1)) self.old.flags;
        } }
    {
        self.moves -= 1;
    }
}

/// Puts words of zeros at the end until there are so many. After a refusal they are as before.
fn fit(words: &mut Vec<u64>, needed: usize) -> Result<(), NoMemory>
    ensures ok { OnOk result (words.new.items
        ≡ words.old.items ++ replicate (needed - length words.old.items) 0) }
    ensures err { OnErr result (words.new.items ≡ words.old.items) }
{
    if words.len() < needed {
        words.resize(needed, 0)?;
    }
    Ok(())
}

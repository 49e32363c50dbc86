//! The search for the third move that settles a pair.

ghost use Rattle.std.specs.Prelude.{◌≡◌, ◌<◌, ◌≤◌, ◌^◌, None, [], length, IfOk, IfSome, OnOk};
ghost use Rattle.mk_model.specs.CoreStates.{pair_of};
ghost use Rattle.mk_model.specs.Events.{IsChain};
ghost use Rattle.mk_core.specs.Neighbours.{AreNeighboursBelow, AreDivisorsBetween, IsDivisorOf, IsServingAt};

use mk_criteria::{find_chain, is_chain};
use mk_ledger::Ledger;
use mk_model::NoMemory;
use mk_move::Basis;
use std::alloc::Global;

/// A place that may serve as third move, with the mask of its lead.
#[derive(Clone, Copy, Debug)]
struct Candidate {
    place: u32,
    mask: u64,
}

/// What the search for third moves keeps from pair to pair: the third move that served last; the candidates of one second
/// place; and for each place so far, the first place below it whose lead may divide its own.
///
/// Pairs come by their second place and then by their first. A pair of the second place that a third move has settled needs
/// no candidate: what its first place would settle, that third move settles too. So the candidates are the first places, so
/// far, of pairs that no third move has settled and whose leads have a column in common.
#[derive(Debug, Drop)]
pub(crate) struct ThirdMoves {
    last: Option<u32>,
    second: Option<u32>,
    candidates: Vec<Candidate>,
    divisors: Vec<Option<usize>>,
}

impl ThirdMoves {
    /// Before the first pair.
    pub(crate) fn new(alloc: Global) -> ThirdMoves
        ensures last { result.last ≡ None }
        ensures second { result.second ≡ None }
        ensures divisors { result.divisors.items ≡ [] }
    {
        ThirdMoves {
            last: None,
            second: None,
            candidates: Vec::new(alloc),
            divisors: Vec::new(alloc),
        }
    }

    /// A third move by which the pair of two places is settled: the one that served last, or else one that a search meets.
    /// Which one it is, and whether one is found, is free.
    pub(crate) fn find(&mut self, ledger: &Ledger, i: u32, j: u32) -> Result<Option<u32>, NoMemory>
        requires ordered { i < j }
        requires within { j < length ledger.now.basis.moves }
        ensures { IfOk result (λ found. IfSome found
            (IsChain ledger.now.state.basis ledger.now.state.journal (pair_of i j))) }
    {
        let basis = ledger.basis();
        let masks = basis.lead_masks();
        let outside = !(masks[i as usize] | masks[j as usize]);
        match self.last {
            Some(k)
                if k < basis.len()
                    && masks[k as usize] & outside == 0
                    && is_chain(basis, ledger, i, j, k) => { Ok(Some(k)) }
            _ => self.find_another(ledger, i, j),
        }
    }

    /// A third move that a search meets, which is kept as the last. Where it meets none, the first place is a candidate from
    /// now on.
    fn find_another(&mut self, ledger: &Ledger, i: u32, j: u32) -> Result<Option<u32>, NoMemory>
        requires ordered { i < j }
        requires within { j < length ledger.now.basis.moves }
        ensures { IfOk result (λ found. IfSome found
            (IsChain ledger.now.state.basis ledger.now.state.journal (pair_of i j))) }
    {
        let masks = ledger.basis().lead_masks();
        self.turn_to(masks, i, j)?;
        let found = self.search(ledger, i, j);
        if found.is_some() {
            self.last = found;
        } else {
            self.candidates.push(Candidate {
                place: i,
                mask: masks[i as usize],
            })?;
        }
        Ok(found)
    }

    /// Makes the candidates anew where they are those of another second place: the places below the first whose leads may
    /// have a column in common with that of the second.
    fn turn_to(&mut self, masks: &[u64], i: u32, j: u32) -> Result<(), NoMemory>
        requires ordered { i < j }
        requires within { j < length masks.now }
    {
        if self.second == Some(j) {
            return Ok(());
        }
        self.second = None;
        self.note_divisors(masks, j)?;
        self.list_below(masks, i, j)?;
        self.second = Some(j);
        Ok(())
    }

    /// Extends the divisors to the places below one.
    fn note_divisors(&mut self, masks: &[u64], j: u32) -> Result<(), NoMemory>
        requires { j < length masks.now }
        ensures { OnOk result
            (AreDivisorsBetween masks.now (length self.old.divisors.items) j self.new.divisors.items) }
    {
        for place in self.divisors.len()..j as usize {
            self.divisors.push(first_divisor(masks, place))?;
        }
        Ok(())
    }

    /// Lists the places below `i` whose masks have a bit in common with that of `j`.
    fn list_below(&mut self, masks: &[u64], i: u32, j: u32) -> Result<(), NoMemory>
        requires ordered { i < j }
        requires within { j < length masks.now }
        ensures { OnOk result (AreNeighboursBelow masks.now j i self.new.candidates.items) }
    {
        self.candidates.clear();
        for place in 0..i {
            let mask = masks[place as usize];
            if mask & masks[j as usize] != 0 {
                self.candidates.push(Candidate { place, mask })?;
            }
        }
        Ok(())
    }

    /// A third move that serves: a candidate, unless a lead below the first place may divide that of the first. A lead that
    /// divides the least common multiple of the two has a column in common with the second, or divides the first.
    fn search(&mut self, ledger: &Ledger, i: u32, j: u32) -> Option<u32>
        requires ordered { i < j }
        requires within { j < length ledger.now.basis.moves }
        ensures { IfSome result
            (IsChain ledger.now.state.basis ledger.now.state.journal (pair_of i j)) }
    {
        let basis = ledger.basis();
        match self.divisors.get(i as usize).copied() {
            Some(None) => self.search_candidates(ledger, i, j),
            Some(Some(k)) if k < j as usize && is_chain(basis, ledger, i, j, k as u32) => {
                Some(k as u32)
            }
            _ => find_chain(basis, ledger, i, j),
        }
    }

    /// The first candidate that serves as third move. It moves half way to the front, so that it is met sooner.
    fn search_candidates(&mut self, ledger: &Ledger, i: u32, j: u32) -> Option<u32>
        requires ordered { i < j }
        requires within { j < length ledger.now.basis.moves }
        ensures { IfSome result
            (IsChain ledger.now.state.basis ledger.now.state.journal (pair_of i j)) }
    {
        let at = self.first_serving(ledger, i, j)?;
        let place = self.candidates[at].place;
        self.candidates.swap(at, at / 2);
        Some(place)
    }

    /// Where the first candidate stands that serves as third move.
    fn first_serving(&self, ledger: &Ledger, i: u32, j: u32) -> Option<usize>
        requires ordered { i < j }
        requires within { j < length ledger.now.basis.moves }
        ensures { IfSome result
            (IsServingAt ledger.now.state (pair_of i j) self.now.candidates.items) }
    {
        let basis = ledger.basis();
        let masks = basis.lead_masks();
        let outside = !(masks[i as usize] | masks[j as usize]);
        let candidates = self.candidates.as_slice();
        for at in 0..candidates.len() {
            let Candidate { place, mask } = candidates[at];
            if mask & outside == 0 && place < j && is_chain(basis, ledger, i, j, place) {
                return Some(at);
            }
        }
        None
    }
}

/// The first place below one whose mask lies within its mask.
fn first_divisor(masks: &[u64], place: usize) -> Option<usize>
    requires { place < length masks.now }
    ensures { IsDivisorOf masks.now place result }
{
    let outside = !masks[place];
    for below in 0..place {
        if masks[below] & outside == 0 {
            return Some(below);
        }
    }
    None
}

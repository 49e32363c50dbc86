//! Settles of a seat's claim.
ghost use Rattle.std.specs.Prelude.{◌≡◌, None, Some};
ghost use Rattle.mk_core.specs.Remainders.{IsRestOfClaim};
ghost use Rattle.mk_shared.specs.Placing.{PlacesCopy};
ghost use Rattle.mk_shared.specs.SharedAnswers.{AnswersTryCoprime, AnswersTryChain};
ghost use Rattle.mk_shared.specs.SharedAnswers.{AnswersTrySettle};
ghost use Rattle.mk_shared.specs.SharedSeats.{HasCoprimeClaim, HasThirdMove, HasWorkDone};

use crate::answers::{RefreshFault, SettleFault, SettledBy, TryChainFault};
use crate::completion::SharedCompletion;
use crate::seat::Seat;
use crate::state::SharedLedger;
use mk_ledger::{ChainFault, PlaceFault};
use mk_model::NoMemory;
use mk_move::Move;
use mk_reduce::Work;

impl SharedCompletion {
    /// Settles the seat's claim, whose leads are disjoint by its copy. (Sturmfels, chapter 1)
    pub fn try_settle_coprime(&self, seat: &mut Seat) -> Result<(), RefreshFault>
        requires table { seat.old.table ≡ self.now }
        requires claim { HasCoprimeClaim seat.old }
        ensures { AnswersTryCoprime seat.old result seat.new }
    {
        let Some(mut shared) = self.take(&mut seat.turn) else {
            return Err(RefreshFault::Busy);
        };
        let settled = shared.settle_coprime(seat.number);
        self.table.give(&mut seat.turn, shared);
        match settled {
            Ok(()) => {
                seat.claim = None;
                Ok(())
            }
            Err(NoMemory) => Err(RefreshFault::Memory),
        }
    }

    /// Settles the seat's claim through a third move of its copy, whose lead divides the least
    /// common multiple of the two leads. `Unsettled` names the pair of the first place and the
    /// third where it isn't settled, else that of the second place and the third. (Sturmfels,
    /// chapter 1)
    pub fn try_settle_chain(&self, seat: &mut Seat, k: u32) -> Result<(), TryChainFault>
        requires table { seat.old.table ≡ self.now }
        requires third { HasThirdMove seat.old k }
        ensures { AnswersTryChain seat.old k result seat.new }
    {
        let Some(mut shared) = self.take(&mut seat.turn) else {
            return Err(TryChainFault::Busy);
        };
        let settled = shared.settle_chain(seat.number, k);
        self.table.give(&mut seat.turn, shared);
        match settled {
            Ok(()) => {
                seat.claim = None;
                Ok(())
            }
            Err(ChainFault::Memory) => Err(TryChainFault::Memory),
            Err(ChainFault::Unsettled { i, j }) => Err(TryChainFault::Unsettled { i, j }),
        }
    }

    /// Settles the seat's claim by the work on it, which stays as it is: by nothing where nothing
    /// is left, else by a copy of what is left, oriented, which is placed behind the last move.
    /// (Sturmfels, chapters 1 and 5)
    pub fn try_settle(&self, seat: &mut Seat, work: &Work) -> Result<SettledBy, SettleFault>
        requires table { seat.old.table ≡ self.now }
        requires work { HasWorkDone seat.old work.now }
        ensures { AnswersTrySettle seat.old work.now result seat.new }
    {
        match work.remainder() {
            None => self.try_zero(seat, work),
            Some(rest) => self.try_place(seat, work, rest),
        }
    }

    /// Settles the seat's claim by work of which nothing is left.
    fn try_zero(&self, seat: &mut Seat, work: &Work) -> Result<SettledBy, SettleFault>
        requires table { seat.old.table ≡ self.now }
        requires work { HasWorkDone seat.old work.now }
        requires none { work.now.remainder ≡ None }
        ensures { AnswersTrySettle seat.old work.now result seat.new }
    {
        let Some(mut shared) = self.take(&mut seat.turn) else {
            return Err(SettleFault::Busy);
        };
        let settled = shared.settle_zero(seat.number);
        self.table.give(&mut seat.turn, shared);
        match settled {
            Ok(()) => {
                seat.claim = None;
                Ok(SettledBy::Zero)
            }
            Err(NoMemory) => Err(SettleFault::Memory),
        }
    }

    /// Settles the seat's claim by a copy of what is left of the work, unless the basis has more
    /// moves than reduced it.
    fn try_place(&self, seat: &mut Seat, work: &Work, rest: &Move) -> Result<SettledBy, SettleFault>
        requires table { seat.old.table ≡ self.now }
        requires work { HasWorkDone seat.old work.now }
        requires rest { work.now.remainder ≡ Some rest.now }
        ensures { AnswersTrySettle seat.old work.now result seat.new }
    {
        let Some(mut shared) = self.take(&mut seat.turn) else {
            return Err(SettleFault::Busy);
        };
        let length = shared.basis().len();
        if work.front() < length {
            self.table.give(&mut seat.turn, shared);
            return Err(SettleFault::Behind { length });
        }
        match place_copy(&mut shared, seat.number, rest) {
            Ok(place) => {
                self.table.raise(&mut seat.turn, place as u64 + 1);
                self.table.give(&mut seat.turn, shared);
                seat.claim = None;
                Ok(SettledBy::Placed { place })
            }
            Err(Unplaced::Full) => {
                self.table.give(&mut seat.turn, shared);
                seat.claim = None;
                seat.halted = true;
                Err(SettleFault::BasisFull)
            }
            Err(Unplaced::Memory) => {
                self.table.give(&mut seat.turn, shared);
                Err(SettleFault::Memory)
            }
        }
    }
}

/// Why what is left of a claim isn't placed: want of memory, or the basis has its limit of moves.
enum Unplaced {
    Memory,
    Full,
}

/// Places a copy of what is left of a worker's claim, oriented, behind the last move of the ledger.
fn place_copy(shared: &mut SharedLedger, worker: u32, rest: &Move) -> Result<u32, Unplaced>
    requires { IsRestOfClaim shared.old worker rest.now }
    ensures { PlacesCopy shared.old worker rest.now result shared.new }
{
    let front = shared.basis().len();
    let Ok(mut copy) = rest.try_copy() else {
        return Err(Unplaced::Memory);
    };
    copy.orient(shared.basis().priority());
    match shared.settle_place(worker, front, copy) {
        Ok(place) => Ok(place),
        Err(PlaceFault::BasisFull) => Err(Unplaced::Full),
        Err(PlaceFault::Memory { .. }) => Err(Unplaced::Memory),
        Err(PlaceFault::Behind { .. }) => unreachable!(),
    }
}

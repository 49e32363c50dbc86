//! Completion by one worker: pair after pair is claimed, its difference reduced, and the pair settled.

ghost use Rattle.std.specs.Prelude.{◌≡◌, ◌≢◌, ◌↔◌, IfSome, ◌≤◌, ◌<◌, ℕ, length, None, Some, Ok, Err, IfOk, IfErr, OnOk, OnErr};
ghost use Rattle.mk_model.specs.CoreStates.{Halt as CoreHalt, pair_of, claim_of, halt_of};
ghost use Rattle.mk_model.specs.Events.{HaveCommonColumn};
ghost use Rattle.mk_model.specs.Legal.{IsEnded};
ghost use Rattle.mk_move.specs.MoveLists.{vectors_of};
ghost use Rattle.mk_ledger.specs.FirstHalts.{IsFirstHalt};
ghost use Rattle.mk_reduce.specs.Leads.{leads_of};
ghost use Rattle.mk_core.specs.GoingOn.{AreLeadsOnceMade, ContinuesLedger, GoesOnUnclaimed, IsPairGiven, NoneClaims, FirstClaims, EndsBy, IsPhaseOfLedger};
ghost use Rattle.mk_core.specs.Phases.{ledger_for, phase_in, Finishes, AnswersOverBudget, PhaseIsOverBudget, HandsOn};
ghost use Rattle.mk_core.specs.Remainders.{IsRemainderOfClaim};

use crate::completed::Completed;
use crate::phase::{Job, Phase, Stopped};
use crate::skipping::{skip_disjoint, skip_pair};
use crate::third_moves::ThirdMoves;
use crate::work::{WorkFault, work_on};
use mk_ledger::{Claim, Halt, Ledger, LedgerParts, PlaceFault};
use mk_model::NoMemory;
use mk_move::{Basis, Finder, Move};
use mk_reduce::Scratch;
use mk_support::SupportTree;
use std::alloc::Global;

/// Completes the start of a job: settles each pair of the basis, in their order, until every pair is joined below. A pair
/// whose leads have no column in common, or else that a third move settles, isn't reduced. Any other whose difference doesn't
/// reduce to 0 is settled by its remainder, which becomes the next move.
///
/// `Stopped` has what was done until then: `Overflow` names the first entry out of range; `OverBudget` comes where as many
/// pairs are settled as the budget has while one is left; `BasisFull` where the basis has its limit of moves while a pair needs
/// another. (Sturmfels, chapters 1 and 12: Buchberger's algorithm for a lattice)
pub fn complete_alone(alloc: Global, job: Job) -> Result<Completed, Stopped>
    ensures answer { Finishes (ledger_for job) result }
    ensures over_budget { IfSome (phase_in result)
        (λ phase. AnswersOverBudget result ↔ PhaseIsOverBudget (ledger_for job) phase) }
{
    let Job {
        start,
        budget,
        basis_limit,
    } = job;
    let ledger = Ledger::new(alloc, start, budget, basis_limit, 1)?;
    finish_alone(alloc, ledger)
}

/// Goes on from a ledger in which no worker has a claim, as `complete_alone` does from the start, within the ledger's budget
/// and limit. Where a halt stands already, it is the answer. (Sturmfels, chapters 1 and 12)
pub fn finish_alone(alloc: Global, mut ledger: Ledger) -> Result<Completed, Stopped>
    requires unclaimed { (worker : ℕ) → claim_of ledger.state worker ≡ None }
    ensures answer { Finishes ledger result }
    ensures over_budget { IfSome (phase_in result)
        (λ phase. AnswersOverBudget result ↔ PhaseIsOverBudget ledger phase) }
    ensures halted { (worker : ℕ) (halt : CoreHalt) → ledger.state.first_halted ≡ Some worker →
        halt_of ledger.state worker ≡ Some halt → HandsOn halt result }
{
    match settle_pairs(alloc, &mut ledger)? {
        Ending::Ended => Ok(ended(ledger)),
        Ending::OverBudget => Err(over_budget(ledger)),
        Ending::Halted => Err(stopped_by(ledger)),
    }
}

/// Where settling pairs ends: every pair is settled; as many as the budget has, while one is left; or a worker halted.
#[derive(Clone, Copy, Debug, PartialEq, Eq)]
enum Ending {
    Ended,
    OverBudget,
    Halted,
}

/// The finder of leads that completions, tails and the choice of the essential moves use.
pub type LeadFinder = SupportTree;

/// A finder of the leads of a basis, in their order.
pub fn finder_of(alloc: Global, basis: &Basis) -> Result<LeadFinder, NoMemory>
    ensures { IfOk result (λ finder. finder ≡ leads_of basis.now.moves) }
{
    let mut finder = LeadFinder::new(alloc);
    for place in 0..basis.len() {
        finder.insert(basis.move_at(place))?;
    }
    Ok(finder)
}

/// What reduces pairs one after another: room for a difference, and a finder of the leads of the basis, which is made where the
/// first pair is reduced, since a completion may end without.
#[derive(Drop)]
struct Reducer {
    alloc: Global,
    scratch: Scratch,
    finder: Option<LeadFinder>,
}

impl Reducer {
    /// Before the first reduction.
    fn new(alloc: Global) -> Reducer
        ensures { result.finder ≡ None }
    {
        Reducer {
            alloc,
            scratch: Scratch::new(),
            finder: None,
        }
    }

    /// Makes the finder, unless it is made.
    fn make_finder(&mut self, basis: &Basis) -> Result<(), NoMemory>
        requires { AreLeadsOnceMade self.old.finder basis.now }
        ensures { OnOk result (self.new.finder ≡ Some (leads_of basis.now.moves)) }
    {
        if self.finder.is_none() {
            self.finder = Some(finder_of(self.alloc, basis)?);
        }
        Ok(())
    }
}

/// Settles pair after pair until no pair is claimed, and says why none is.
fn settle_pairs(alloc: Global, ledger: &mut Ledger) -> Result<Ending, NoMemory>
    requires unclaimed { NoneClaims ledger.old.state }
    ensures goes_on { OnOk result (ContinuesLedger ledger.old ledger.new) }
    ensures ending { IfOk result (EndsBy ledger.new.state) }
{
    let mut reducer = Reducer::new(alloc);
    let mut third_moves = ThirdMoves::new(alloc);
    loop {
        skip_disjoint(ledger)?;
        match next_pair(ledger) {
            Ok((i, j)) => settle_pair(ledger, &mut reducer, &mut third_moves, i, j)?,
            Err(ending) => return Ok(ending),
        }
    }
}

/// The next pair, which is the worker's from now on, or why there is none.
fn next_pair(ledger: &mut Ledger) -> Result<(u32, u32), Ending>
    requires { NoneClaims ledger.old.state }
    ensures pair { IfOk result (λ pair. IsPairGiven ledger.old ledger.new (pair_of pair.0 pair.1)) }
    ensures ending { IfErr result (EndsBy ledger.new.state) }
    ensures same { OnErr result (ledger.new ≡ ledger.old) }
{
    // Whoever has its basis knows that it is legal, and has a worker.
    let _ = ledger.basis();
    match ledger.claim(0) {
        Claim::Claimed { i, j } => Ok((i, j)),
        Claim::Ended => Err(Ending::Ended),
        Claim::OverBudget { .. } => Err(Ending::OverBudget),
        Claim::Stopped { .. } => Err(Ending::Halted),
        Claim::NotYet { .. } => unreachable!(),
    }
}

/// Settles the pair that the worker has claimed: without reduction, where its leads have no column in common or a third move
/// is found that settles it, and else by its remainder. Or halts where an entry leaves its range or the basis is full.
fn settle_pair(
    ledger: &mut Ledger,
    reducer: &mut Reducer,
    third_moves: &mut ThirdMoves,
    i: u32,
    j: u32,
) -> Result<(), NoMemory>
    requires claimed { FirstClaims ledger.old.state (pair_of i j) }
    requires leads { AreLeadsOnceMade reducer.old.finder ledger.old.basis }
    ensures goes_on { OnOk result (GoesOnUnclaimed ledger.old ledger.new) }
    ensures leads { OnOk result (AreLeadsOnceMade reducer.new.finder ledger.new.basis) }
{
    if skip_pair(ledger, third_moves, i, j)? {
        return Ok(());
    }
    reducer.make_finder(ledger.basis())?;
    match &mut reducer.finder {
        Some(finder) => reduce_pair(&mut reducer.scratch, ledger, finder, i, j),
        None => unreachable!(),
    }
}

/// Settles the pair that the worker has claimed by its remainder, or halts where an entry leaves its range or the basis is
/// full.
fn reduce_pair(
    scratch: &mut Scratch,
    ledger: &mut Ledger,
    finder: &mut LeadFinder,
    i: u32,
    j: u32,
) -> Result<(), NoMemory>
    requires claimed { FirstClaims ledger.old.state (pair_of i j) }
    requires leads { finder.old ≡ leads_of ledger.old.basis.moves }
    requires common { HaveCommonColumn ledger.old.state.basis (pair_of i j) }
    ensures goes_on { OnOk result (GoesOnUnclaimed ledger.old ledger.new) }
    ensures leads { OnOk result (finder.new ≡ leads_of ledger.new.basis.moves) }
{
    match work_on(scratch, ledger.basis(), finder, i, j) {
        Ok(Some(remainder)) => place_remainder(ledger, finder, remainder),
        Ok(None) => ledger.settle_zero(0),
        Err(WorkFault::Overflow(stop)) => {
            ledger.halt(0, Halt::Overflow(stop));
            Ok(())
        }
        Err(WorkFault::Memory) => Err(NoMemory),
    }
}

/// Settles the claimed pair by its remainder, oriented, and gives the finder its lead; or halts where the basis is full.
fn place_remainder(
    ledger: &mut Ledger,
    finder: &mut LeadFinder,
    mut remainder: Move,
) -> Result<(), NoMemory>
    requires remainder { IsRemainderOfClaim ledger.old remainder }
    requires leads { finder.old ≡ leads_of ledger.old.basis.moves }
    ensures goes_on { OnOk result (GoesOnUnclaimed ledger.old ledger.new) }
    ensures leads { OnOk result (finder.new ≡ leads_of ledger.new.basis.moves) }
{
    remainder.orient(ledger.basis().priority());
    let front = ledger.basis().len();
    match ledger.settle_place(0, front, remainder) {
        Ok(place) => finder.insert(ledger.basis().move_at(place)),
        Err(PlaceFault::BasisFull) => Ok(()),
        Err(PlaceFault::Memory { .. }) => Err(NoMemory),
        Err(PlaceFault::Behind { .. }) => unreachable!(),
    }
}

/// The phase of a ledger in which every pair is settled.
fn ended(ledger: Ledger) -> Completed
    requires { IsEnded ledger.state }
    ensures { Finishes ledger (Ok result) }
{
    let (phase, _) = phase_of(ledger);
    Completed::of_phase(phase)
}

/// Why a ledger stops in which as many pairs are settled as the budget has.
fn over_budget(ledger: Ledger) -> Stopped
    requires { EndsBy ledger.state Ending.OverBudget }
    ensures { Finishes ledger (Err result) }
{
    let (phase, _) = phase_of(ledger);
    Stopped::OverBudget { phase }
}

/// What a ledger has done, and the halt of the worker that halted first.
fn phase_of(ledger: Ledger) -> (Phase, Option<Halt>)
    ensures phase { IsPhaseOfLedger ledger result.0 }
    ensures halt { IsFirstHalt ledger.state result.1 }
{
    let LedgerParts {
        start_len,
        basis,
        journal,
        first_halt,
    } = ledger.into_parts();
    let phase = Phase {
        start_len,
        basis,
        journal,
    };
    (phase, first_halt)
}

/// Why a ledger stops in which a halt stands.
fn stopped_by(ledger: Ledger) -> Stopped
    requires { EndsBy ledger.state Ending.Halted }
    ensures answer { Finishes ledger (Err result) }
    ensures halted { (worker : ℕ) (halt : CoreHalt) → ledger.state.first_halted ≡ Some worker →
        halt_of ledger.state worker ≡ Some halt → HandsOn halt (Err result) }
{
    let (phase, first_halt) = phase_of(ledger);
    match first_halt {
        Some(Halt::Overflow(stop)) => Stopped::Overflow { phase, stop },
        Some(Halt::Full { i, j }) => Stopped::BasisFull { phase, i, j },
        Some(Halt::Memory) => Stopped::Memory,
        None => unreachable!(),
    }
}

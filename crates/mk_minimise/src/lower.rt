use mk_core::LeadFinder;
use mk_model::NoMemory;
use mk_move::{Basis, Finder};
use std::alloc::Global;
use std::marker::Model;

/// The first moves of a basis, with a finder of their leads.
#[derive(Drop)]
pub(crate) struct Lower {
    basis: Basis,
    finder: LeadFinder,
}

impl Model for Lower {
    ghost use Rattle.std.specs.Prelude.{◌≡◌};
    ghost use Rattle.mk_move.specs.MoveLists.{BasisView};
    ghost use Rattle.mk_reduce.specs.Leads.{leads_of};

    ghost Value = { BasisView };

    ghost view = { λ l. l.basis };

    ghost invariant = { λ l. l.finder ≡ leads_of l.basis.moves };
}

impl Lower {
    ghost use Rattle.std.specs.Prelude.{◌≡◌, ◌≤◌, ◌<◌, [], length, take, IfOk};
    ghost use Rattle.mk_move.specs.MoveLists.{BasisView};
    ghost use Rattle.mk_reduce.specs.Leads.{leads_of};
    ghost use Rattle.mk_minimise.specs.Stages.{IsFront, IsWeightCut};

    /// None of the moves of a basis, with its list and its grading.
    pub(crate) fn new(alloc: Global, basis: &Basis) -> Result<Lower, NoMemory>
        requires { length basis.now.priority ≡ length basis.now.grading }
        ensures { IfOk result (λ lower. lower ≡ record basis.now { moves = [] }) }
    {
        Ok(Lower {
            basis: basis.try_copy_bare()?,
            finder: LeadFinder::new(alloc),
        })
    }

    /// How many moves it has.
    pub(crate) fn len(&self) -> u32
        ensures { result ≡ length self.now.moves }
    {
        self.basis.len()
    }

    /// Its moves.
    pub(crate) fn basis(&self) -> &Basis
        ensures { result.now ≡ self.now }
    {
        &self.basis
    }

    /// The finder of their leads.
    pub(crate) fn finder(&self) -> &LeadFinder
        ensures { result.now ≡ leads_of self.now.moves }
    {
        &self.finder
    }

    /// With the moves of the basis up to a place at which the weight rises.
    pub(crate) fn raised(self, basis: &Basis, end: u32) -> Result<Lower, NoMemory>
        requires front { IsFront basis.now self }
        requires more { length self.moves ≤ end }
        requires within { end ≤ length basis.now.moves }
        requires cut { IsWeightCut basis.now end }
        ensures front { IfOk result (IsFront basis.now) }
        ensures count { IfOk result (λ lower. length lower.moves ≡ end) }
    {
        prove!(end <= basis.len());
        let Lower {
            basis: mut moves,
            mut finder,
        } = self;
        for place in moves.len()..end {
            let m = basis.move_at(place);
            finder.insert(m)?;
            let copy = m.try_copy()?;
            moves.push(copy)?;
        }
        Ok(Lower {
            basis: moves,
            finder,
        })
    }
}

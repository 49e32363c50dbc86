//! The seats' copies of the basis.
ghost use Rattle.std.specs.Prelude.{◌≡◌};
ghost use Rattle.mk_core.specs.GrownBases.{IsLonger};
ghost use Rattle.mk_shared.specs.SharedAnswers.{AnswersTryRefresh, CopiesWhole};

use crate::answers::RefreshFault;
use crate::completion::SharedCompletion;
use crate::seat::Seat;
use mk_model::NoMemory;
use mk_move::Basis;

impl SharedCompletion {
    /// Copies what is new of the basis, and answers its length. Where memory runs out, the moves
    /// that were copied stay.
    pub fn try_refresh(&self, seat: &mut Seat) -> Result<u32, RefreshFault>
        requires table { seat.old.table ≡ self.now }
        ensures { AnswersTryRefresh seat.old result seat.new }
    {
        let Some(shared) = self.take(&mut seat.turn) else {
            return Err(RefreshFault::Busy);
        };
        let length = shared.basis().len();
        let copied = copy_new(&mut seat.copy, shared.basis());
        self.table.give(&mut seat.turn, shared);
        match copied {
            Ok(()) => Ok(length),
            Err(NoMemory) => Err(RefreshFault::Memory),
        }
    }
}

/// Copies the moves of a basis that stand behind those of a copy.
fn copy_new(copy: &mut Basis, basis: &Basis) -> Result<(), NoMemory>
    requires { IsLonger copy.old basis.now }
    ensures { CopiesWhole copy.old basis.now result copy.new }
{
    for k in copy.len()..basis.len() {
        let new = basis.move_at(k).try_copy()?;
        copy.push(new)?;
    }
    Ok(())
}

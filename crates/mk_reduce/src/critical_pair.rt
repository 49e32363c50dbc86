ghost use Rattle.std.specs.Prelude.{◌≡◌, ◌<◌, [], length, IfOk, IfErr};
ghost use Rattle.mk_model.specs.CoreStates.{pair_of};
ghost use Rattle.mk_reduce.specs.Works.{WorkOf};
ghost use Rattle.mk_reduce.specs.Stops.{IsDifferenceRefused};

use crate::stop::Stop;
use crate::work::Work;
use mk_move::Basis;
use std::alloc::Global;

/// The work on a pair of places, which begins at the difference of its moves: the second minus the first. `Overflow`
/// has no move, and names the first column whose entry leaves the range. (Sturmfels, chapters 1 and 5: an S-pair)
pub fn critical(alloc: Global, basis: &Basis, i: u32, j: u32) -> Result<Work, Stop>
    requires ordered { i < j }
    requires within { j < length basis.now.moves }
    ensures work { IfOk result (λ work. WorkOf work basis.now) }
    ensures pair { IfOk result (λ work. work.pair ≡ pair_of i j) }
    ensures front { IfOk result (λ work. work.front ≡ 0) }
    ensures trace { IfOk result (λ work. work.trace ≡ []) }
    ensures refused { IfErr result (IsDifferenceRefused basis.now.moves (pair_of i j)) }
{
    prove!(j < basis.len());
    let mut rest = basis.move_at(j).try_copy()?;
    match rest.take_off(1, basis.move_at(i)) {
        Ok(true) => {
            rest.weigh(basis.grading());
            prove!(rest.columns() == basis.grading().columns());
            Ok(Work::new(alloc, i, j, Some(rest)))
        }
        Ok(false) => Ok(Work::new(alloc, i, j, None)),
        Err(at) => Err(Stop::Overflow { by: None, at }),
    }
}

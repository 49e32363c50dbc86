ghost use Rattle.std.specs.Prelude.{◌≡◌, ◌≤◌, IfOk, length};
ghost use Rattle.mk_model.specs.Tables.{rows_of};
ghost use Rattle.mk_saturate.specs.Starts.{Starts, PutsOn, IsPut};

use mk_files::Table;
use mk_move::{Basis, Grading, Move, MoveFault, Priority};
use std::alloc::Global;

/// The basis that a lattice's rows begin: the rows that are not zero, in their order, each oriented by the list. The table,
/// the grading and the list have as many columns. `NotGraded` has the product of the first row that isn't graded, exactly
/// where there is one. (Sturmfels, chapter 12: the binomials of a lattice basis)
pub fn start_basis(
    alloc: Global,
    lat: &Table,
    grading: Grading,
    priority: Priority,
) -> Result<Basis, MoveFault>
    requires columns { length grading ≡ lat.now.columns }
    requires list { length priority ≡ lat.now.columns }
    ensures basis { Starts (rows_of lat.now) grading priority result }
    ensures few_moves { IfOk result (λ basis. length basis.moves ≤ lat.now.rows) }
{
    let mut basis = Basis::new(alloc, priority, grading);
    for r in 0..lat.rows() {
        let found = Move::from_row(alloc, lat.row(r), basis.grading(), basis.priority())?;
        put(&mut basis, found)?;
    }
    Ok(basis)
}

/// Puts a move at the end, if there is one.
fn put(basis: &mut Basis, found: Option<Move>) -> Result<(), MoveFault>
    requires { PutsOn basis.old found }
    ensures { IsPut basis.old found result basis.new }
{
    let Some(found) = found else {
        return Ok(());
    };
    match basis.push(found) {
        Ok(()) => Ok(()),
        Err(_) => Err(MoveFault::Memory),
    }
}

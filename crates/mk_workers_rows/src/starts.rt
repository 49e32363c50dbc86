ghost use Rattle.std.specs.Prelude.{◌≡◌, ◌≤◌, IfOk, None};

use mk_core::Job;
use mk_row_tools::start_of;
use mk_shared::{Seat, SharedCompletion};
use std::alloc::AllocGlobal;
use std::process::Abort;
use std::test::Fail;

// Three moves each two of whose leads have a column in common, along the standard list.
pub(crate) const OVERLAPPING: &str = "3 4\n1 1 -1 -1\n1 -1 1 -1\n-1 1 1 -1\n";

// Two moves whose leads are disjoint, along the standard list.
pub(crate) const DISJOINT: &str = "2 4\n-1 2 -1 0\n0 -1 2 -1\n";

// A completion of the moves in a text by so many workers, and its first seat.
pub(crate) fn begun(
    rt: &(impl Abort + AllocGlobal),
    text: &str,
    limit: u32,
    workers: u32,
) -> Result<(SharedCompletion, Seat), Fail>
    requires workers { (1 ≤ workers) × (workers ≤ 64) }
    ensures table { IfOk result (λ pair. pair.1.table ≡ pair.0) }
    ensures made { IfOk result (λ pair. pair.1.sight.made ≡ 1) }
    ensures first { IfOk result (λ pair. pair.1.sight.number ≡ 0) }
    ensures idle { IfOk result (λ pair. pair.1.sight.claim ≡ None) }
{
    let start = start_of(rt.alloc(), text, &[1; 4], None)?;
    assert!(rt; start.len() <= limit);
    assert!(rt; limit <= 65_536);
    let job = Job {
        start,
        budget: 100,
        basis_limit: limit,
    };
    Ok(SharedCompletion::start(rt.alloc(), job, workers)?)
}

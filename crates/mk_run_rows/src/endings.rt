use mk_run::{BookStop, Status, stop_line};
use std::test::Fail;

// The exit status of each ending.
#[test]
fn each_status_has_its_number(rt: HostRuntime) -> Result<(), Fail> {
    for (status, number) in [
        (Status::Done, 0),
        (Status::Usage, 1),
        (Status::Input, 2),
        (Status::Folder, 3),
        (Status::Overflow, 4),
        (Status::Budget, 5),
        (Status::Memory, 6),
        (Status::Full, 7),
    ] {
        assert_eq!(rt; status.code(), number);
    }
    Ok(())
}

// The lines of the stops that no row reaches.
#[test]
fn says_why_a_run_stopped(rt: HostRuntime) -> Result<(), Fail> {
    let budget = BookStop::Budget { settled: 0 };
    let line = stop_line(rt.alloc(), &budget)?;
    assert_eq!(rt;
        line.as_str(),
        "markov: budget of 0 pairs used and a pair is left\n"
    );
    let full = BookStop::BasisFull {
        phase: 0,
        i: 0,
        j: 1,
    };
    let line = stop_line(rt.alloc(), &full)?;
    assert_eq!(rt;
        line.as_str(),
        "markov: basis holds 65536 moves and needs another\n"
    );
    Ok(())
}

//! Rows of the turn over a number, of which nothing is known.
ghost use Rattle.std.specs.Prelude.{◌≡◌, ◌≤◌, None};
ghost use Rattle.mk_turn.specs.Seats.{turn_view, IsSeatOf};

use crate::{TurnSeat, TurnState, TurnTable};
use std::test::Fail;
use std::thread;
use std::thread::join;

impl TurnState for u64 {
    type Claim = ();

    type Entry = ();

    type Move = ();

    type Fixed = ();

    type Notice = ();

    type Whole = ();

    ghost use Rattle.mk_turn.specs.Numbers.{any_number, any_number_laws};

    ghost meaning = { any_number };

    ghost laws = { any_number_laws };
}

#[test]
fn a_seat_that_gives_lets_another_take(rt: HostRuntime) -> Result<(), Fail> {
    let (table, mut first) = TurnTable::new(rt.alloc(), 7u64, 0, 2)?;
    let mut second = table.split(&mut first);
    let Some(value) = table.try_take(&mut first) else {
        panic!(rt; "the turn was free")
    };
    let missed = table.try_take(&mut second);
    assert!(rt; value == 7 && missed.is_none() && second.misses() == 1 && second.last_word() == 1);
    table.give(&mut first, value);
    let after = table.try_take(&mut second);
    assert!(rt; after == Some(7) && second.misses() == 1 && first.misses() == 0);
    Ok(())
}

#[test]
fn a_raised_length_is_read_without_the_turn(rt: HostRuntime) -> Result<(), Fail> {
    let (table, mut first) = TurnTable::new(rt.alloc(), 7u64, 0, 2)?;
    let mut second = table.split(&mut first);
    assert!(rt; table.length(&mut second) == 0);
    let Some(_value) = table.try_take(&mut first) else {
        panic!(rt; "the turn was free")
    };
    table.raise(&mut first, 1);
    assert!(rt; table.length(&mut second) == 1);
    assert!(rt; table.try_take(&mut second).is_none());
    Ok(())
}

#[test]
fn what_was_given_last_comes_out_at_the_end(rt: HostRuntime) -> Result<(), Fail> {
    let (table, mut first) = TurnTable::new(rt.alloc(), 7u64, 0, 2)?;
    let mut second = table.split(&mut first);
    let Some(value) = table.try_take(&mut second) else {
        panic!(rt; "the turn was free")
    };
    table.give(&mut second, value / 2);
    table.join(&mut first, second);
    assert!(rt; table.close(first) == 3);
    Ok(())
}

// Tries a thousand times to add 1, and tells how often it did.
fn add_often(table: &TurnTable<u64>, seat: TurnSeat<u64>) -> (u64, TurnSeat<u64>)
    requires table { IsSeatOf table.now seat }
    requires away { (turn_view seat).taken ≡ None }
    ensures few { result.0 ≤ 1000 }
    ensures table { IsSeatOf table.now result.1 }
    ensures away { (turn_view result.1).taken ≡ None }
{
    let mut seat = seat;
    let mut done = 0;
    for _ in 0..1000u64 {
        match table.try_take(&mut seat) {
            Some(value) => {
                table.give(&mut seat, value.wrapping_add(1));
                done += 1;
            }
            None => thread::yield_now(),
        }
    }
    (done, seat)
}

#[test]
fn no_turn_of_two_threads_is_lost(rt: HostRuntime) -> Result<(), Fail> {
    let (table, mut first) = TurnTable::new(rt.alloc(), 7u64, 0, 2)?;
    let second = table.split(&mut first);
    let shared = &table;
    let ((a, mut first), (b, _second)) = join(
        &rt,
        || add_often(shared, first),
        || add_often(shared, second),
    );
    let last = table.try_take(&mut first);
    assert!(rt; last == Some(7 + a + b) && a + b > 0);
    Ok(())
}

//! The pauses of a worker between two tries.

use crossbeam_utils::Backoff;

/// So many rounds at most are in one pause, about a thousand spins.
const MOST_ROUNDS: u32 = 16;

/// So many rounds at most are in one rest, some tens of microseconds.
const LONGEST_REST: u32 = 64;

/// The pauses of a worker that waits for others: each is twice as long as the one before, up to a bound, past which it gives the
/// processor away too. They begin longer where the last pair took no reduction, since then turns are most of its work. So a worker that isn't
/// the first rests before each pair, the longer the more pairs in a row took none: the first gets on faster alone.
#[derive(Drop)]
pub(crate) struct Pauses {
    backoff: Backoff,
    rounds: u32,
    rest: u32,
}

impl Pauses {
    /// Pauses that begin short.
    pub(crate) fn new() -> Pauses {
        Pauses {
            backoff: Backoff::new(),
            rounds: 1,
            rest: 0,
        }
    }

    /// Pauses, and makes the next pause longer.
    pub(crate) fn pause(&mut self) {
        for _ in 0..self.rounds {
            self.backoff.spin();
        }
        if self.rounds < MOST_ROUNDS {
            self.rounds *= 2;
        } else {
            self.backoff.snooze();
        }
    }

    /// Rests, for as long as the pairs so far say. The first worker, of number 0, doesn't.
    pub(crate) fn rest(&mut self, number: u32) {
        let rounds = if number == 0 { 0 } else { self.rest };
        for _ in 0..rounds {
            self.backoff.spin();
        }
    }

    /// Begins anew, after a pair that was reduced or wasn't.
    pub(crate) fn restart(&mut self, reduced: bool) {
        self.backoff.reset();
        self.rounds = if reduced { 1 } else { 4 };
        self.rest = if reduced {
            0
        } else {
            LONGEST_REST.min(self.rest.saturating_add(1))
        };
    }
}

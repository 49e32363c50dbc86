use mk_ledger::{Journal, JournalEntry, Kind, Ledger};
use mk_model::NoMemory;
use mk_row_tools::start_of;
use std::mem::size_of;
use std::test::Fail;

#[test]
fn an_entry_takes_eight_bytes(rt: HostRuntime) {
    assert_eq!(rt; size_of::<JournalEntry>(), 8);
}

#[test]
fn a_ledger_without_moves_begins_and_is_ended(rt: HostRuntime) -> Result<(), Fail> {
    let start = start_of(rt.alloc(), "0 2\n", &[1, 1], None)?;
    assert_eq!(rt; start.len(), 0);
    let ledger = Ledger::new(rt.alloc(), start, 10, 100, 2)?;
    assert!(rt; ledger.is_ended());
    Ok(())
}

// Puts an entry for a pair with disjoint leads at the end, for each of these places and workers.
fn push_each(journal: &mut Journal, places: &[(u16, u16, u8)]) -> Result<(), NoMemory> {
    for n in 0..places.len() {
        let (i, j, worker) = places[n];
        journal.push(JournalEntry {
            i,
            j,
            third: 0,
            worker,
            kind: Kind::Coprime,
        })?;
    }
    Ok(())
}

// Has the journal just these entries for pairs with disjoint leads?
fn has_each(journal: &Journal, places: &[(u16, u16, u8)]) -> bool {
    if journal.len() != places.len() as u64 {
        return false;
    }
    for n in 0..places.len() {
        let (i, j, worker) = places[n];
        let entry = journal.entry_at(n as u64);
        if entry.i != i || entry.j != j || entry.worker != worker || entry.third != 0 {
            return false;
        }
    }
    true
}

#[test]
fn a_journal_gives_each_entry_back(rt: HostRuntime) -> Result<(), Fail> {
    // A row of three, another second place, a gap behind two, another worker, and a first place again.
    let places = [
        (0, 3, 0),
        (1, 3, 0),
        (2, 3, 0),
        (3, 5, 0),
        (4, 5, 0),
        (6, 5, 0),
        (7, 5, 1),
        (8, 5, 1),
        (8, 5, 1),
    ];
    let mut journal = Journal::new(rt.alloc());
    push_each(&mut journal, &places)?;
    assert!(rt; has_each(&journal, &places));
    for length in (0..9).rev() {
        if journal.len() > 0 {
            journal.take_back();
        }
        assert!(rt; has_each(&journal, &places[..length]));
    }
    Ok(())
}

#[test]
fn a_long_journal_finds_each_entry(rt: HostRuntime) -> Result<(), Fail> {
    let mut journal = Journal::new(rt.alloc());
    for k in 0..100 {
        push_each(&mut journal, &[(3 * k, 400, 2), (3 * k + 1, 400, 2)])?;
    }
    assert_eq!(rt; journal.len(), 200);
    for n in 0..200 {
        let first = n / 2 * 3 + n % 2;
        assert_eq!(rt; u64::from(journal.entry_at(n).i), first);
    }
    Ok(())
}

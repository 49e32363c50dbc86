ghost use Rattle.std.specs.Prelude.{◌≡◌, ℕ, ◌+◌, ◌-◌, ◌*◌, ◌<◌, ◌≤◌, ◌++◌, [], ◌∷◌, length, take, List, Some, OnOk, OnErr, IsTrue, false, slice_get, slice_index_or};
ghost use Rattle.std.specs.List.{All};
ghost use Rattle.mk_journal.specs.Entries.{HasItsThird, HaveTheirThirds};
ghost use Rattle.mk_journal.specs.JournalRuns.{more_of, entry_in, entries_in, entries_of, IsRun, IsContinuedBy, AreStarts};
ghost use Rattle.mk_journal.specs.declared.journal.Run.{Run as RunView};

use mk_model::NoMemory;
use std::alloc::Global;
use std::marker::Model;

/// How a pair is settled: its leads are disjoint; through a third move; its difference reduces to 0; or by a move that is
/// placed.
#[derive(Clone, Copy, Debug, Drop, PartialEq, Eq)]
pub enum Kind {
    Coprime,
    Chain,
    Zero,
    Place,
}

/// An entry of a journal: the pair of the places `i` and `j`, the worker who settled it, and how. `third` is the third
/// move for Chain, the new place for Place, and 0 else.
#[derive(Clone, Copy, Debug, Drop, PartialEq, Eq)]
pub struct JournalEntry {
    pub i: u16,
    pub j: u16,
    pub third: u16,
    pub worker: u8,
    pub kind: Kind,
}

/// Entries of a journal that follow one another: one, or, for Coprime, those of one worker and the second place `j` whose
/// first places follow one after another from `i` on. `number` is how many entries come behind the first for Coprime, and
/// the entry's third else.
#[derive(Clone, Copy, Debug, Drop)]
struct Run {
    i: u16,
    j: u16,
    number: u16,
    worker: u8,
    kind: Kind,
}

impl Run {
    /// The run of this entry alone.
    fn of(entry: JournalEntry) -> Run
        requires { HasItsThird entry }
        ensures entries { entries_in result ≡ entry ∷ [] }
        ensures run { IsRun result }
    {
        Run {
            i: entry.i,
            j: entry.j,
            number: entry.third,
            worker: entry.worker,
            kind: entry.kind,
        }
    }

    /// How many entries come behind the first.
    fn more(self) -> u16
        ensures { result ≡ more_of self.kind self.number }
    {
        match self.kind {
            Kind::Coprime => self.number,
            Kind::Chain | Kind::Zero | Kind::Place => 0,
        }
    }

    /// Does the entry continue the run?
    fn is_continued_by(self, entry: JournalEntry) -> bool
        ensures { IsTrue result → IsContinuedBy self entry }
    {
        match (self.kind, entry.kind) {
            (Kind::Coprime, Kind::Coprime) => {
                u32::from(self.i) + u32::from(self.number) + 1 == u32::from(entry.i)
                    && self.j == entry.j
                    && self.worker == entry.worker
            }
            _ => false,
        }
    }

    /// The entry that so many of the run come before.
    fn entry(self, before: u16) -> JournalEntry
        requires run { IsRun self }
        requires within { before ≤ more_of self.kind self.number }
        ensures { result ≡ entry_in self before }
    {
        let third = match self.kind {
            Kind::Coprime => 0,
            Kind::Chain | Kind::Zero | Kind::Place => self.number,
        };
        JournalEntry {
            i: self.i + before,
            j: self.j,
            third,
            worker: self.worker,
            kind: self.kind,
        }
    }
}

/// What was settled, in its order: fewer than 2^64 entries. The third of an entry for Zero or Coprime is 0. It is kept in
/// runs, of 8 bytes each; for each 16th of them `starts` has the number of the entries before it.
#[derive(Debug, Drop)]
pub struct Journal {
    runs: Vec<Run>,
    starts: Vec<u64>,
    count: u64,
}

impl Model for Journal {
    ghost use Rattle.std.specs.Prelude.{List};
    ghost use Rattle.mk_journal.specs.declared.journal.JournalEntry.{JournalEntry};

    ghost Value = { List JournalEntry };

    ghost use Rattle.mk_journal.specs.JournalRuns.{entries_of, AreKept};

    ghost view = { λ j. entries_of j.runs.items };

    ghost invariant = { λ j. AreKept j.runs.items j.starts.items j.count };
}

impl Journal {
    /// A journal without entries.
    pub fn new(alloc: Global) -> Journal
        ensures { result ≡ [] }
    {
        Journal {
            runs: Vec::new(alloc),
            starts: Vec::new(alloc),
            count: 0,
        }
    }

    /// Puts an entry at the end. After a refusal the journal is as before.
    #[inline(always)]
    pub fn push(&mut self, entry: JournalEntry) -> Result<(), NoMemory>
        requires { HasItsThird entry }
        ensures ok { OnOk result (self.new ≡ self.old ++ entry ∷ []) }
        ensures err { OnErr result (self.new ≡ self.old) }
    {
        if self.count == u64::MAX {
            return Err(NoMemory);
        }
        if grow_last(&mut self.runs, entry) {
            self.count += 1;
            return Ok(());
        }
        begin_run(&mut self.runs, &mut self.starts, self.count, entry)?;
        self.count += 1;
        Ok(())
    }

    /// Takes the last entry back.
    pub fn take_back(&mut self)
        requires { 0 < length self.old }
        ensures { self.new ≡ take (length self.old - 1) self.old }
    {
        take_last(&mut self.runs);
        self.count -= 1;
    }

    /// How many entries it has.
    pub fn len(&self) -> u64
        ensures value { result ≡ length self.now }
        ensures thirds { HaveTheirThirds self.now }
    {
        self.count
    }

    /// The entry of a place.
    pub fn entry_at(&self, n: u64) -> JournalEntry
        requires { n < length self.now }
        ensures value { slice_get self.now n ≡ Some result }
        ensures third { HasItsThird result }
    {
        let groups = (self.runs.len() + 15) / 16;
        let group = last_start(&self.starts, groups, n);
        entry_behind(&self.runs, 16 * group, self.starts[group], n)
    }
}

/// Lets the last run grow by the entry, where the entry continues it, and says whether it did.
fn grow_last(runs: &mut Vec<Run>, entry: JournalEntry) -> bool
    requires third { HasItsThird entry }
    requires within { All IsRun runs.old.items }
    ensures grown { IsTrue result →
        entries_of runs.new.items ≡ entries_of runs.old.items ++ entry ∷ [] }
    ensures same { result ≡ false → runs.new.items ≡ runs.old.items }
    ensures within { All IsRun runs.new.items }
    ensures starts { (starts : List ℕ) → AreStarts starts runs.old.items →
        AreStarts starts runs.new.items }
{
    let count = runs.len();
    if count == 0 {
        return false;
    }
    if !runs[count - 1].is_continued_by(entry) {
        return false;
    }
    runs[count - 1].number += 1;
    true
}

/// Puts the run of an entry behind the runs, which have so many entries. After a refusal the runs are as before.
fn begin_run(
    runs: &mut Vec<Run>,
    starts: &mut Vec<u64>,
    count: u64,
    entry: JournalEntry,
) -> Result<(), NoMemory>
    requires third { HasItsThird entry }
    requires within { All IsRun runs.old.items }
    requires count { count ≡ length (entries_of runs.old.items) }
    requires starts { AreStarts starts.old.items runs.old.items }
    ensures ok { OnOk result (entries_of runs.new.items ≡ entries_of runs.old.items ++ entry ∷ []) }
    ensures err { OnErr result (runs.new.items ≡ runs.old.items) }
    ensures within { All IsRun runs.new.items }
    ensures starts { AreStarts starts.new.items runs.new.items }
{
    keep_start(starts, runs, count)?;
    runs.push(Run::of(entry))?;
    Ok(())
}

/// Keeps the start of one more run behind the runs, which have so many entries, where it is a 16th one.
fn keep_start(starts: &mut Vec<u64>, runs: &[Run], count: u64) -> Result<(), NoMemory>
    requires count { count ≡ length (entries_of runs.now) }
    requires starts { AreStarts starts.old.items runs.now }
    ensures ok { OnOk result ((run : RunView) → AreStarts starts.new.items (runs.now ++ run ∷ [])) }
    ensures kept { AreStarts starts.new.items runs.now }
{
    if runs.len() % 16 != 0 {
        return Ok(());
    }
    starts.truncate(runs.len() / 16);
    starts.push(count)?;
    Ok(())
}

/// Takes the last entry of the runs back.
fn take_last(runs: &mut Vec<Run>)
    requires some { 0 < length runs.old.items }
    requires within { All IsRun runs.old.items }
    ensures value { entries_of runs.new.items
        ≡ take (length (entries_of runs.old.items) - 1) (entries_of runs.old.items) }
    ensures within { All IsRun runs.new.items }
    ensures starts { (starts : List ℕ) → AreStarts starts runs.old.items →
        AreStarts starts runs.new.items }
{
    let count = runs.len();
    if runs[count - 1].more() > 0 {
        runs[count - 1].number -= 1;
    } else {
        let _ = runs.pop();
    }
}

/// The place of a start that is at most this number, the last one among so many where they ascend.
fn last_start(starts: &[u64], count: usize, n: u64) -> usize
    requires some { 0 < count }
    requires within { count ≤ length starts.now }
    requires first { slice_index_or starts.now 0 0 ≤ n }
    ensures within { result < count }
    ensures start { slice_index_or starts.now result 0 ≤ n }
{
    let mut low = 0;
    let mut high = count;
    while high - low > 1 {
        let middle = low + (high - low) / 2;
        if starts[middle] <= n {
            low = middle;
        } else {
            high = middle;
        }
    }
    low
}

/// The entry of the place `n` of the runs, looked for from the run of the place `first` on, which so many entries come before.
fn entry_behind(runs: &[Run], first: usize, before: u64, n: u64) -> JournalEntry
    requires runs { All IsRun runs.now }
    requires first { first < length runs.now }
    requires before { before ≡ length (entries_of (take first runs.now)) }
    requires from { before ≤ n }
    requires within { n < length (entries_of runs.now) }
    ensures { slice_get (entries_of runs.now) n ≡ Some result }
{
    let mut place = first;
    let mut left = n - before;
    while left > u64::from(runs[place].more()) {
        left -= u64::from(runs[place].more()) + 1;
        place += 1;
    }
    runs[place].entry(left as u16)
}

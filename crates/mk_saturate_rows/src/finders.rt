ghost use Rattle.std.specs.Prelude.{◌≡◌, [], IfOk};
ghost use Rattle.mk_reduce.specs.Leads.{leads_of};

use mk_model::NoMemory;
use mk_move::{Basis, Finder, Move, Side};
use mk_reduce::PlainFinder;
use mk_row_tools::start_of;
use mk_support::SupportTree;
use std::alloc::AllocGlobal;
use std::process::Abort;
use std::test::Fail;

const OVERLAPPING: &str = "3 4\n1 1 -1 -1\n1 -1 1 -1\n-1 1 1 -1\n";

const TWO_OF_ONE_LEAD: &str = "3 3\n1 -1 0\n1 0 -1\n0 2 -2\n";

// The finder, which has no leads yet, with those of a basis.
pub(crate) fn filled<F: Finder + Drop>(basis: &Basis, mut finder: F) -> Result<F, NoMemory>
    requires { F.leads finder ≡ [] }
    ensures { IfOk result (λ filled. F.leads filled ≡ leads_of basis.now.moves) }
{
    for place in 0..basis.len() {
        finder.insert(basis.move_at(place))?;
    }
    Ok(finder)
}

// For the part of the move on a side the finder names one of these places, and none where there are none.
fn assert_found<F: Finder>(
    rt: &impl Abort,
    basis: &Basis,
    finder: &F,
    m: &Move,
    side: Side,
    places: &[u32],
)
    requires { F.leads finder.now ≡ leads_of basis.now.moves }
{
    assert_eq!(rt; finder.count(), basis.len());
    assert_eq!(rt; basis.grading().columns(), m.columns());
    match finder.find(m, side) {
        Some(place) => assert!(rt; places.contains(&place), "{place} on {side:?}"),
        None => assert!(rt; places.is_empty(), "none on {side:?}"),
    }
}

// For the parts of the move in a text both finders, with the leads in another, name one of these places, the first for the positive
// part and the second for the negative, and none where there are none.
fn assert_both_find(
    rt: &(impl Abort + AllocGlobal),
    leads: &str,
    row: &str,
    weights: &[i64],
    plus: &[u32],
    minus: &[u32],
) -> Result<(), Fail> {
    let basis = start_of(rt.alloc(), leads, weights, None)?;
    assert_eq!(rt; basis.len(), 3);
    let divided = start_of(rt.alloc(), row, weights, None)?;
    assert_eq!(rt; divided.len(), 1);
    let m = divided.move_at(0);
    let tree = filled(&basis, SupportTree::new(rt.alloc()))?;
    assert_found(rt, &basis, &tree, m, Side::Plus, plus);
    assert_found(rt, &basis, &tree, m, Side::Minus, minus);
    let plain = filled(&basis, PlainFinder::new(rt.alloc()))?;
    assert_found(rt, &basis, &plain, m, Side::Plus, plus);
    assert_found(rt, &basis, &plain, m, Side::Minus, minus);
    Ok(())
}

// Three leads, of which each two have one column of three in common: moves, with the places of the leads that divide the positive
// part of each, and the negative part.
#[test]
fn overlapping_leads_are_found(rt: HostRuntime) -> Result<(), Fail> {
    let rows = [
        ("1 4\n1 1 -2 0\n", [0].as_slice(), [].as_slice()),
        ("1 4\n0 2 -2 0\n", [].as_slice(), [].as_slice()),
        ("1 4\n2 -1 -1 0\n", [].as_slice(), [2].as_slice()),
        ("1 4\n1 -2 3 -2\n", [1].as_slice(), [].as_slice()),
        ("1 4\n-1 -1 3 -1\n", [].as_slice(), [0].as_slice()),
        ("1 4\n-1 4 -2 -1\n", [].as_slice(), [1].as_slice()),
        ("1 4\n2 3 1 -6\n", [0, 1, 2].as_slice(), [].as_slice()),
    ];
    for (row, plus, minus) in rows {
        assert_both_find(&rt, OVERLAPPING, row, &[1, 1, 1, 1], plus, minus)?;
    }
    Ok(())
}

// Three leads, of which two are the same and the third has a 2: which of two that divide is named is free.
#[test]
fn a_lead_that_stands_twice_is_found(rt: HostRuntime) -> Result<(), Fail> {
    let rows = [
        ("1 3\n0 2 -2\n", [2].as_slice(), [].as_slice()),
        ("1 3\n0 1 -1\n", [].as_slice(), [].as_slice()),
        ("1 3\n3 -3 0\n", [0, 1].as_slice(), [2].as_slice()),
        ("1 3\n-1 2 -1\n", [2].as_slice(), [0, 1].as_slice()),
        ("1 3\n1 2 -3\n", [0, 1, 2].as_slice(), [].as_slice()),
        ("1 3\n1 1 -2\n", [0, 1].as_slice(), [].as_slice()),
    ];
    for (row, plus, minus) in rows {
        assert_both_find(&rt, TWO_OF_ONE_LEAD, row, &[1, 1, 1], plus, minus)?;
    }
    Ok(())
}

const ONE_OF_SIX: [&str; 6] = [
    "1 0 0 0 0 0",
    "0 1 0 0 0 0",
    "0 0 1 0 0 0",
    "0 0 0 1 0 0",
    "0 0 0 0 1 0",
    "0 0 0 0 0 1",
];

// A row of fourteen columns for each pair of one of six columns and one of six others: a 1 in each of the two and in the first
// column, and a -3 in the last.
fn beside_first(rt: &impl AllocGlobal) -> Result<String, Fail> {
    let mut text = String::from_str(rt.alloc(), "36 14\n")?;
    for number in 0..36usize {
        let row = format!(in rt.alloc();
            "1 {} {} -3\n",
            ONE_OF_SIX[number % 6],
            ONE_OF_SIX[number / 6]
        )?;
        text.push_str(&row)?;
    }
    Ok(text)
}

// A leaf of the tree has up to 32 leads: one that gains another is split.
#[test]
fn leads_of_a_split_leaf_are_found(rt: HostRuntime) -> Result<(), Fail> {
    let basis = start_of(rt.alloc(), &beside_first(&rt)?, &[1; 14], None)?;
    assert_eq!(rt; basis.len(), 36);
    let tree = filled(&basis, SupportTree::new(rt.alloc()))?;
    for place in 0..basis.len() {
        let m = basis.move_at(place);
        assert_found(&rt, &basis, &tree, m, Side::Plus, &[place]);
        assert_found(&rt, &basis, &tree, m, Side::Minus, &[]);
    }
    Ok(())
}

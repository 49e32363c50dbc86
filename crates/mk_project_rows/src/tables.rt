use mk_files::{Bounds, Place, TableFault, read_table};
use mk_model::ENTRY_MAX;
use std::test::Fail;

const BOUNDS: Bounds = Bounds {
    rows: 4096,
    columns: 512,
    least: -ENTRY_MAX,
    most: ENTRY_MAX,
};

#[test]
fn reads_any_white_space(rt: HostRuntime) -> Result<(), Fail> {
    let table = read_table(rt.alloc(), b" +2\t2\r\n01 -1 0 0", &BOUNDS)?;
    assert_eq!(rt; table.rows(), 2);
    assert_eq!(rt; table.columns(), 2);
    assert_eq!(rt; table.row(0), [1, -1].as_slice());
    assert_eq!(rt; table.row(1), [0, 0].as_slice());
    Ok(())
}

#[test]
fn reads_tables_with_no_entries(rt: HostRuntime) -> Result<(), Fail> {
    let no_rows = read_table(rt.alloc(), b"0 4", &BOUNDS)?;
    assert_eq!(rt; no_rows.rows(), 0);
    assert_eq!(rt; no_rows.columns(), 4);
    Ok(())
}

// Tables of one row: every kind of white space, the largest entries, and a number of many digits.
#[test]
fn reads_one_row(rt: HostRuntime) -> Result<(), Fail> {
    for (text, row) in [
        ("1\u{b}2\u{c}\u{b}3 4\u{b}", [3, 4].as_slice()),
        (
            "1 2\n1208925819614629174706175 -1208925819614629174706175\n",
            [ENTRY_MAX, -ENTRY_MAX].as_slice(),
        ),
        (
            "1 1\n000000000000000000000000000000000000000000007",
            [7].as_slice(),
        ),
    ] {
        let table = read_table(rt.alloc(), text.as_bytes(), &BOUNDS)?;
        assert_eq!(rt; table.rows(), 1, "{text}");
        assert_eq!(rt; table.row(0), row, "{text}");
    }
    Ok(())
}

fn at(line: u64, byte: u64) -> Place {
    Place { line, byte }
}

// How many numbers a header has, a token that is no number, more rows or columns than are allowed, entries out of range by little
// and by much, and what is missing or follows.
#[test]
fn tells_the_first_fault(rt: HostRuntime) {
    for (text, fault) in [
        (
            "",
            TableFault::NoHeader {
                place: at(1, 0),
                found: 0,
            },
        ),
        (
            "1\n\n",
            TableFault::NoHeader {
                place: at(3, 3),
                found: 1,
            },
        ),
        ("-1 2", TableFault::BadNumber(at(1, 0))),
        ("1 1\n+-1", TableFault::BadNumber(at(2, 4))),
        ("4097 x", TableFault::Rows(at(1, 0))),
        ("1 513\n0\n", TableFault::Columns(at(1, 2))),
        (
            "1 2\n1208925819614629174706176 -1\n",
            TableFault::EntryRange(at(2, 4)),
        ),
        (
            "1 2\n1 -1208925819614629174706176\n",
            TableFault::EntryRange(at(2, 6)),
        ),
        (
            "1 1\n184467440737095516170000000000000000000001",
            TableFault::EntryRange(at(2, 4)),
        ),
        (
            "2 4\n1 -2 1 0\n0 1 -2\n",
            TableFault::Missing {
                place: at(4, 20),
                found: 7,
                wanted: 8,
            },
        ),
        (
            "2 4\n1 -2 1 0\n0 1 -2 1\nx\n",
            TableFault::Trailing(at(4, 22)),
        ),
    ] {
        let found = read_table(rt.alloc(), text.as_bytes(), &BOUNDS).err();
        assert_eq!(rt; found, Some(fault), "{text}");
    }
}

ghost use Rattle.std.specs.Prelude.{◌≡◌, length, IfOk, All};
ghost use Rattle.mk_model.specs.Vectors.{IsEntry};

use crate::calls::{MANY, assert_end, assert_file, assert_started, folder_of};
use mk_desk::{Folder, MemoryFolder};
use mk_model::{ENTRY_MAX, Entry};
use mk_move::{Grading, Move, MoveList, Priority};
use mk_writer::{WriteFault, write_moves};
use std::alloc::AllocGlobal;
use std::marker::Model;
use std::process::Abort;
use std::test::Fail;

// Moves, all of as many columns.
#[derive(Drop)]
struct Moves {
    columns: u32,
    moves: Vec<Move>,
}

impl Model for Moves {
    ghost use Rattle.std.specs.Prelude.{◌≡◌, ◌<◌, ◌^◌, length, All};
    ghost use Rattle.mk_move.specs.MoveLists.{MoveListView};

    ghost Value = { MoveListView };

    ghost view = { λ l. record { columns = l.columns; moves = l.moves.items } };

    ghost invariant = { λ l. (length l.moves.items < 2 ^ 32) × All (λ m. length m.entries ≡ l.columns) l.moves.items };
}

impl MoveList for Moves {
    ghost list = { λ l. l };

    fn columns(&self) -> u32 {
        self.columns
    }

    fn len(&self) -> u32 {
        self.moves.len() as u32
    }

    fn move_at(&self, k: u32) -> &Move {
        &self.moves[k as usize]
    }
}

// The move of a row of three columns, with these weights.
fn move_of(rt: &(impl Abort + AllocGlobal), row: &[Entry], weights: &[i64]) -> Result<Move, Fail>
    requires columns { length row.now ≡ 3 }
    requires weights { length weights.now ≡ 3 }
    requires entries { All IsEntry row.now }
    ensures { IfOk result (λ m. length m.entries ≡ 3) }
{
    let grading = Grading::new(rt.alloc(), weights)?;
    let list = Priority::standard(rt.alloc(), 3)?;
    let found = Move::from_row(rt.alloc(), row, &grading, &list)?;
    assert!(rt; found.is_some());
    let m = found.unwrap();
    assert!(rt; m.columns() == 3);
    Ok(m)
}

// The list is written so far, and then the file can be ended, where the call of this number fails, counted from 1, or none: the
// start of the file is the first. A call moves at most so many bytes, and there are so many till the end.
fn assert_written(
    rt: &(impl Abort + AllocGlobal),
    list: &Moves,
    chunk: usize,
    failing: u64,
    wanted: Result<(), WriteFault>,
    text: &str,
    calls: u64,
) -> Result<(), Fail> {
    let mut folder = folder_of(rt.alloc(), &[], chunk, failing)?;
    assert_started(rt, &mut folder, "new");
    assert!(rt; folder.is_making());
    let answer = write_moves(rt.alloc(), &mut folder, list);
    assert_eq!(rt; answer, wanted, "call {failing} fails");
    assert_eq!(rt; folder.made(), text.as_bytes());
    assert_eq!(rt; folder.calls(), calls);
    assert_end(rt, &mut folder, Ok(()));
    assert_file(rt, &folder, "new", Some(text));
    Ok(())
}

// Two moves, and what is written of them where a line is refused.
#[test]
fn writes_a_line_for_each_move(rt: HostRuntime) -> Result<(), Fail> {
    let mut moves = Vec::new(rt.alloc());
    moves.push(move_of(&rt, &[2, -1, 0], &[1, 2, 3])?)?;
    moves.push(move_of(&rt, &[1, 1, -1], &[1, 2, 3])?)?;
    let list = Moves { columns: 3, moves };
    let failed = Err(WriteFault::Failed);
    for (chunk, failing, wanted, text, calls) in [
        (MANY, 0, Ok(()), "2 3\n2 -1 0\n1 1 -1\n", 4),
        (1, 0, Ok(()), "2 3\n2 -1 0\n1 1 -1\n", 19),
        (MANY, 2, failed, "", 2),
        (MANY, 3, failed, "2 3\n", 3),
        (MANY, 4, failed, "2 3\n2 -1 0\n", 4),
        (1, 8, failed, "2 3\n2 ", 8),
    ] {
        assert_written(&rt, &list, chunk, failing, wanted, text, calls)?;
    }
    Ok(())
}

#[test]
fn has_room_for_the_longest_entries(rt: HostRuntime) -> Result<(), Fail> {
    let mut moves = Vec::new(rt.alloc());
    moves.push(move_of(&rt, &[ENTRY_MAX, ENTRY_MAX, -ENTRY_MAX], &[1, 1, 2])?)?;
    let list = Moves { columns: 3, moves };
    let text =
        "1 3\n1208925819614629174706175 1208925819614629174706175 -1208925819614629174706175\n";
    assert_written(&rt, &list, MANY, 0, Ok(()), text, 3)
}

#[test]
fn writes_a_header_alone(rt: HostRuntime) -> Result<(), Fail> {
    let list = Moves {
        columns: 4,
        moves: Vec::new(rt.alloc()),
    };
    assert_written(&rt, &list, MANY, 0, Ok(()), "0 4\n", 2)
}

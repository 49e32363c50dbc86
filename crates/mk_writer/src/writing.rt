//! The lines of a list of moves, one piece each.

ghost use Rattle.std.specs.Prelude.{◌≡◌, ◌+◌, ◌*◌, ◌≤◌, true, vec_capacity};
ghost use Rattle.mk_desk.specs.Folders.{HasCause, OnlyFaultsRose, WhereTold};
ghost use Rattle.mk_desk.specs.Transfers.{PutsAll};
ghost use Rattle.mk_writer.specs.Writing.{WritesMoves, text_of};

use crate::line::{ENTRY_ROOM, HEADER_ROOM, set_header, set_move};
use mk_desk::{DeskFault, Folder, put_all};
use mk_move::MoveList;
use std::alloc::Global;

/// Why the moves were not all written, which is what a folder may answer.
pub type WriteFault = DeskFault;

/// Appends the text of a list of moves to the file being made: a line with the numbers of moves and columns, and the line
/// of each move. Each line is one piece.
///
/// Its own memory is taken before the first write. `Failed` is the folder's, and `Memory` may be: then a prefix of the text
/// was appended.
pub fn write_moves<F: Folder, L: MoveList>(
    alloc: Global,
    folder: &mut F,
    list: &L,
) -> Result<(), WriteFault>
    requires { (F.state folder.old).making ≡ true }
    ensures state { OnlyFaultsRose (F.state folder.old) (F.state folder.new) }
    ensures cause { HasCause DeskFault.Failed (F.state folder.old) (F.state folder.new) result }
    ensures told { WhereTold (F.told folder.old) (F.told folder.new) (WritesMoves (L.list list.now) result) }
{
    let columns = list.columns() as usize;
    let mut line = Vec::with_capacity(alloc, HEADER_ROOM + ENTRY_ROOM * columns)?;
    write_lines(folder, list, &mut line)
}

/// Appends the lines, each of which the buffer has room for. Only the folder's calls may want memory.
fn write_lines<F: Folder, L: MoveList>(
    folder: &mut F,
    list: &L,
    line: &mut Vec<u8>,
) -> Result<(), DeskFault>
    requires making { (F.state folder.old).making ≡ true }
    requires room { HEADER_ROOM + ENTRY_ROOM * (L.list list.now).columns ≤ vec_capacity line.old }
    ensures state { OnlyFaultsRose (F.state folder.old) (F.state folder.new) }
    ensures cause { HasCause DeskFault.Failed (F.state folder.old) (F.state folder.new) result }
    ensures told { WhereTold (F.told folder.old) (F.told folder.new) (PutsAll (text_of (L.list list.now)) result) }
{
    set_header(line, list.len(), list.columns());
    put_all(folder, line.as_slice())?;
    for place in 0..list.len() {
        set_move(line, list.move_at(place));
        put_all(folder, line.as_slice())?;
    }
    Ok(())
}

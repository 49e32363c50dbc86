//! The lines of the text of a list of moves, put into a buffer that has room for them.

ghost use Rattle.std.specs.Prelude.{◌≡◌, ◌+◌, ◌*◌, ◌≤◌, ◌++◌, length, vec_len, vec_capacity};
ghost use Rattle.std.specs.Fmt.{signed_decimal};
ghost use Rattle.mk_model.specs.Texts.{header_line, move_line};
ghost use Rattle.mk_writer.specs.Lines.{space_before};

use itoa::{Buffer, Integer};
use mk_model::Entry;
use mk_move::Move;

/// How many bytes a header line has at most: two numbers of ten digits, a space and byte 10.
pub(crate) const HEADER_ROOM: usize = 22;

/// The room for an entry: as many bytes as any number of 128 bits has, with a space before it.
pub(crate) const ENTRY_ROOM: usize = 41;

/// Makes the buffer the header line.
pub(crate) fn set_header(line: &mut Vec<u8>, count: u32, columns: u32)
    requires room { HEADER_ROOM ≤ vec_capacity line.old }
    ensures text { line.new.items ≡ header_line count columns }
    ensures room { vec_capacity line.old ≤ vec_capacity line.new }
{
    line.clear();
    push_number(line, count);
    push_bytes(line, b" ");
    push_number(line, columns);
    push_bytes(line, b"\n");
}

/// Makes the buffer the line of a move: its entries, with single spaces between them.
pub(crate) fn set_move(line: &mut Vec<u8>, next: &Move)
    requires room { ENTRY_ROOM * length next.now.entries + 1 ≤ vec_capacity line.old }
    ensures text { line.new.items ≡ move_line next.now.entries }
    ensures room { vec_capacity line.old ≤ vec_capacity line.new }
{
    line.clear();
    for column in 0..next.columns() {
        push_entry(line, column, next.entry(column));
    }
    push_bytes(line, b"\n");
}

/// Appends the entry of a column, with a space before it unless it is the first.
fn push_entry(line: &mut Vec<u8>, column: u32, entry: Entry)
    requires room { vec_len line.old + ENTRY_ROOM ≤ vec_capacity line.old }
    ensures text { line.new.items ≡ line.old.items ++ (space_before column ++ signed_decimal entry) }
    ensures len { vec_len line.new ≤ vec_len line.old + ENTRY_ROOM }
    ensures room { vec_capacity line.old ≤ vec_capacity line.new }
{
    if column > 0 {
        push_bytes(line, b" ");
    }
    push_number(line, entry);
}

/// Appends a number in decimal.
fn push_number<I: Integer>(line: &mut Vec<u8>, number: I)
    requires room { vec_len line.old + I.MAX_STR_LEN ≤ vec_capacity line.old }
    ensures text { line.new.items ≡ line.old.items ++ I.text number }
    ensures len { vec_len line.new ≤ vec_len line.old + I.MAX_STR_LEN }
    ensures room { vec_capacity line.old ≤ vec_capacity line.new }
{
    push_bytes(line, Buffer::new().format(number).as_bytes());
}

/// Appends bytes that there is room for, which takes no memory.
fn push_bytes(line: &mut Vec<u8>, bytes: &[u8])
    requires room { vec_len line.old + length bytes.now ≤ vec_capacity line.old }
    ensures text { line.new.items ≡ line.old.items ++ bytes.now }
    ensures len { vec_len line.new ≡ vec_len line.old + length bytes.now }
    ensures room { vec_capacity line.old ≤ vec_capacity line.new }
{
    line.extend_from_slice(bytes).unwrap();
}

// Rows of numbers, judged and written.
ghost use Rattle.std.specs.Prelude.{◌≡◌, ◌++◌, ◌+◌, ◌*◌, ◌≤◌, length};
ghost use Rattle.forms.specs.Room.{put};
ghost use Rattle.writing.specs.Number.{ofNumber};
ghost use Rattle.writing.specs.Rows.{rows};
ghost use Rattle.writing.specs.Written.{Writes};
ghost use Rattle.write_lists.specs.Inner.Kinds.{row_size, high_size, low_size, item_size, piece_of, list_written};
ghost use Rattle.write_lists.specs.Inner.Kinds.{told_piece, item_of, passed, judged, Judged, bytes_or, joined_rows, list_bytes, Ready, Counted};
ghost use Rattle.write_lists.specs.Inner.Numbers.{told_bits};

use crate::kinds::{Kind, Piece};
use crate::numbers::after;
use crate::{offsets, pieces};
use writing::numbers::put_number;
use writing::{Refusal, room_for};

// An item of two numbers.
#[tactic(auto, unfolding(crate::specs::Inner::Kinds::item_of))]
fn item(high: Option<u64>, low: Option<u64>) -> Option<Piece>
    ensures { (k : Kind) → told_piece k result ≡ item_of k (told_bits high) (told_bits low) }
{
    Some(Piece {
        high: high?,
        low: low?,
    })
}

// The item of the row that some numbers begin with.
fn piece(kind: Kind, row: &[i32]) -> Option<Piece>
    ensures { told_piece kind result ≡ piece_of kind row.now }
{
    match kind {
        Kind::ServiceList => item(Some(0), pieces::service(row)),
        Kind::Content => item(Some(0), pieces::content(row)),
        Kind::ParentalRating => item(Some(0), pieces::rating(row)),
        Kind::LocalTimeOffset => item(offsets::front(row), offsets::back(row)),
    }
}

#[tactic(auto, unfolding(crate::specs::Inner::Kinds::judged))]
fn is_item(kind: Kind, row: &[i32]) -> bool
    ensures { passed result ≡ judged (piece_of kind row.now) }
{
    piece(kind, row).is_some()
}

// Each of n rows is an item.
fn are_items(kind: Kind, numbers: &[i32], n: usize) -> bool
    requires { row_size kind * n ≤ length numbers.now }
    ensures { passed result ≡ judged (rows (row_size kind) (piece_of kind) n numbers.now) }
{
    let k = kind.sizes().row;
    for i in 0..n {
        if !is_item(kind, after(numbers, k * i)) {
            return false;
        }
    }
    true
}

// The two numbers of an item, at a place of the room.
fn put_both(kind: Kind, piece: Piece, room: &mut [u8], to: usize)
    requires { to + (high_size kind + low_size kind) ≤ length room.old }
    ensures { room.new ≡ put room.old to (ofNumber (high_size kind) piece.high ++ ofNumber (low_size kind) piece.low) }
{
    let sizes = kind.sizes();
    put_number(room, to, sizes.high, piece.high);
    put_number(room, to + sizes.high, sizes.low, piece.low);
}

// The item of a row, at a place of the room.
fn put_piece(kind: Kind, row: &[i32], room: &mut [u8], to: usize)
    requires { to + item_size kind ≤ length room.old }
    ensures { room.new ≡ put room.old to (bytes_or (piece_of kind row.now)) }
{
    if let Some(piece) = piece(kind, row) {
        put_both(kind, piece, room, to);
    }
}

// Those of n rows, behind the tag and the length.
fn put_items(kind: Kind, numbers: &[i32], n: usize, room: &mut [u8])
    requires { (row_size kind * n ≤ length numbers.now) × (2 + item_size kind * n ≤ length room.old)
        × Judged (rows (row_size kind) (piece_of kind) n numbers.now) }
    ensures { room.new ≡ put room.old 2
        (joined_rows (rows (row_size kind) (piece_of kind) n numbers.now)) }
{
    let sizes = kind.sizes();
    for i in 0..n {
        let row = after(numbers, sizes.row * i);
        put_piece(kind, row, room, 2 + sizes.item * i);
    }
}

// How many rows there are, or why they make no descriptor.
fn count_rows(kind: Kind, numbers: &[i32]) -> Result<usize, Refusal>
    ensures { Counted kind numbers.now result }
{
    let sizes = kind.sizes();
    let n = numbers.len() / sizes.row;
    if numbers.len() % sizes.row != 0 {
        return Err(Refusal::Field);
    }
    if !are_items(kind, numbers, n) {
        return Err(Refusal::Field);
    }
    if 255 / sizes.item < n {
        return Err(Refusal::Long);
    }
    Ok(n)
}

// The descriptor of n rows, at the room's start; its size.
fn put_list(kind: Kind, numbers: &[i32], n: usize, room: &mut [u8]) -> usize
    requires { (257 ≤ length room.old) × Ready kind numbers.now n }
    ensures { (result ≡ 2 + item_size kind * n)
        × (room.new ≡ put room.old 0 (list_bytes kind n numbers.now)) }
{
    let sizes = kind.sizes();
    let body = sizes.item * n;
    put_number(room, 0, 2, sizes.tag as u64 * 256 + body as u64);
    put_items(kind, numbers, n, room);
    2 + body
}

pub fn write(kind: Kind, numbers: &[i32], room: &mut [u8]) -> Result<usize, Refusal>
    ensures { Writes (list_written kind numbers.now) room.old result room.new }
{
    room_for(room)?;
    let n = count_rows(kind, numbers)?;
    Ok(put_list(kind, numbers, n, room))
}

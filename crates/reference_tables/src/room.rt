//! The memory of a list with one row more, taken before the row.
ghost use Rattle.std.specs.Prelude.{◌≡◌, ◌<◌, ◌≤◌, [], length, vec_len, vec_capacity, IfOk};
ghost use Rattle.std.specs.List.{insert, slice_set};

use money_units::{List, NoMemory};
use std::alloc::Global;
use std::marker::Model;
use std::mem;

/// Memory for a list, which contracts see as the number of rows that it holds.
#[derive(Drop)]
pub struct Room<T> {
    items: Vec<T>,
}

impl<T> Model for Room<T> {
    ghost use Rattle.std.specs.Prelude.{ℕ, ◌≡◌, [], vec_capacity};

    ghost Value = { ℕ };

    ghost view = { λ room. vec_capacity room.items };

    ghost invariant = { λ room. room.items.items ≡ [] };
}

impl<T> Room<T> {
    /// Memory for more than so many rows: twice as many and one, so that few lists have to move.
    pub(crate) fn new(alloc: Global, rows: usize) -> Result<Room<T>, NoMemory>
        ensures { IfOk result (λ room. rows < room) }
    {
        let twice = rows.checked_mul(2).ok_or(NoMemory)?;
        let most = twice.checked_add(1).ok_or(NoMemory)?;
        let items = Vec::with_capacity(alloc, most)?;
        Ok(Room { items })
    }
}

// The number of rows.
fn count<T>(rows: &Vec<T>) -> usize
    ensures len { result ≡ vec_len rows.now }
    ensures items { result ≡ length rows.now.items }
{
    rows.as_slice().len()
}

// Inserts a row for which there is room.
fn insert_within<T: Drop>(rows: &mut Vec<T>, place: usize, row: T)
    requires place { place ≤ vec_len rows.old }
    requires room { vec_len rows.old < vec_capacity rows.old }
    ensures { rows.new.items ≡ insert rows.old.items place row }
{
    let inserted: Result<_, _> = rows.insert(place, row);
    inserted.unwrap();
}

// Moves the rows into the room behind none, and inserts a row.
fn moved_with<T: Drop>(mut rows: Vec<T>, mut room: Vec<T>, place: usize, row: T) -> Vec<T>
    requires empty { room.items ≡ [] }
    requires place { place ≤ vec_len rows }
    requires room { vec_len rows < vec_capacity room }
    ensures { result.items ≡ insert rows.items place row }
{
    let _none = count(&room);
    let appended: Result<_, _> = room.append(&mut rows);
    appended.unwrap();
    insert_within(&mut room, place, row);
    room
}

// The rows with one more, in their own memory where it suffices, else in the room.
fn with_row<T: Drop>(mut rows: Vec<T>, room: Vec<T>, place: usize, row: T) -> Vec<T>
    requires empty { room.items ≡ [] }
    requires place { place ≤ vec_len rows }
    requires room { vec_len rows < vec_capacity room }
    ensures { result.items ≡ insert rows.items place row }
{
    if rows.len() < rows.capacity() {
        insert_within(&mut rows, place, row);
        rows
    } else {
        moved_with(rows, room, place, row)
    }
}

// The rows of a list, which is left empty.
fn rows_out<T: Drop>(list: &mut List<T>, alloc: Global) -> Vec<T>
    ensures { result.items ≡ list.old }
{
    mem::replace(list, List::new(alloc)).into_vec()
}

/// Inserts a row at its place, in the list's own memory where it suffices, else in the room.
pub(crate) fn insert_row<T: Drop>(list: &mut List<T>, room: Room<T>, place: usize, row: T)
    requires place { place ≤ length list.old }
    requires room { length list.old < room }
    ensures { list.new ≡ insert list.old place row }
{
    let Room { items } = room;
    let alloc = *items.allocator();
    let rows = rows_out(list, alloc);
    let _rows = count(&rows);
    *list = List::from_vec(with_row(rows, items, place, row));
}

/// Writes a row in the stead of the one at its place.
pub(crate) fn write_row<T: Copy + Drop>(list: &mut List<T>, room: Room<T>, place: usize, row: T)
    requires { place < length list.old }
    ensures { list.new ≡ slice_set list.old place row }
{
    let Room { items } = room;
    let alloc = *items.allocator();
    let mut rows = rows_out(list, alloc);
    let _rows = count(&rows);
    rows[place] = row;
    *list = List::from_vec(rows);
}

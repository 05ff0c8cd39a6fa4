// Fills in the rows, column by column: the cell of a state in the column of a byte has the number of the next state.
#![tactic(auto)]

ghost use Rattle.std.specs.Prelude.{◌≡◌, ◌+◌, ◌*◌, ◌≤◌, ◌<◌, length};
ghost use Rattle.tables.specs.Layout.{room_for_states};
ghost use Rattle.tables.specs.Reads.{Whole};
ghost use Rattle.cells.specs.Cells.{next_for, with_cell, with_cells, with_column, with_rows};

use counters::State;
use tables::{Tables, layout};

// The column of a byte: where it begins.
#[derive(Clone, Copy)]
struct Column {
    byte: u8,
    start: usize,
}

// The next state: the child by the byte where there is one, and else what the cell of the failure says, which is filled in already.
fn next_of(t: &Tables, states: usize, column: Column, state: State) -> usize
    requires { (states ≤ room_for_states) × (state.0 < states) × (column.start + 2 * state.0 + 2 ≤ length t.now) }
    ensures { (result ≡ next_for t.now states column.start column.byte state.0) × (result < 65536) }
{
    if let Some(child) = stepping::child_by(t, states, state, column.byte) {
        return child.index();
    }
    if state == State::root() {
        return 0;
    }
    let back = t.failure(state);
    t.cell(column.start, back)
}

// Kept, no plainer: with `struct Filled<'a> { bytes: &'a mut [u8] }` each method would need one clause more: that the borrow keeps its ghost name.
fn put_cell(t: &mut [u8], states: usize, column: Column, state: State)
    requires { (Whole t.old) × (states ≤ room_for_states) × (state.0 < states) × (column.start + 2 * state.0 + 2 ≤ 49152) }
    ensures { t.new ≡ with_cell t.old states column.start column.byte state.0 }
{
    let next = next_of(&Tables::of(t), states, column, state);
    lent::put2(t, column.start + 2 * state.index(), next as u16);
}

// The cells of the states that have a row, in the order of their numbers: a failure has a smaller one, so its cell is there already.
fn put_cells(t: &mut [u8], states: usize, dense: usize, column: Column)
    requires { (Whole t.old) × (states ≤ room_for_states) × (dense ≤ states) × (column.start + 2 * dense ≤ 49152) }
    ensures { t.new ≡ with_cells t.old states column.start column.byte dense }
{
    for i in 0..dense {
        put_cell(t, states, column, State::numbered(i as u16));
    }
}

// Fills in the column of a byte. A byte that does not occur has the first column, which is left as it is: by such a byte every state
// leads to the root, as zero memory says already.
fn fill_column(t: &mut [u8], states: usize, dense: usize, byte: u8)
    requires { (Whole t.old) × (states ≤ room_for_states) × (dense ≤ states) }
    ensures { t.new ≡ with_column t.old states dense byte }
{
    let start = Tables::of(t).column(byte);
    if start <= layout::ROWS {
        return;
    }
    // No column of a book's tables ends past the memory.
    if layout::SIZE < start + 2 * dense {
        return;
    }
    put_cells(t, states, dense, Column { byte, start });
}

// Fills in the rows of so many states, where the columns, the children and the failures are.
pub fn fill(t: &mut [u8], states: usize, dense: usize)
    requires { (Whole t.old) × (states ≤ room_for_states) × (dense ≤ states) }
    ensures { t.new ≡ with_rows t.old states dense 256 }
{
    for byte in 0..=255u8 {
        fill_column(t, states, dense, byte);
    }
}

// One turn of the four cursors: each takes the next byte of its quarter.
ghost use Rattle.std.specs.Prelude.{◌≡◌, true, cond, ◌+◌, ◌*◌, ◌≤◌, ◌<◌, ltb};
ghost use Rattle.tables.specs.Layout.{room_for_states};
ghost use Rattle.seeking.specs.Quick.{quick_in};
ghost use Rattle.ahead.specs.Cursors.{Below, ColumnOf, TurnReady, Columned, Found, Turned};

use std::array;
use tables::Tables;

// How many quarters there are.
pub const QUARTERS: usize = 4;

// A number for each quarter: where the cursors stand, the index of a state each; or where the columns begin in which the next bytes have their cells.
pub type Four = [usize; QUARTERS];

// Whether all four are below a number.
fn all_below(limit: usize, cursors: Four) -> bool
    ensures { (result ≡ true → Below limit cursors) × (Below limit cursors → result ≡ true) }
{
    cursors.iter().all(|index| *index < limit)
}

// The columns of the four bytes. They do not depend on the states, so they are read before these are looked at, and both ways of a turn use them.
fn columns_at(
    t: &Tables,
    states: usize,
    dense: usize,
    part: &[u8],
    at: usize,
    quarter: usize,
    from: Four,
) -> Four
    requires { TurnReady t.now part.now states dense at quarter from }
    ensures { Columned t.now part.now dense at quarter result }
{
    array::from_fn(|k| t.column(part[at + k * quarter]))
}

// What is found for the byte of each quarter where all four states are dense: four cells.
fn four_cells(
    t: &Tables,
    states: usize,
    dense: usize,
    part: &[u8],
    at: usize,
    quarter: usize,
    columns: Four,
    from: Four,
) -> Four
    requires { (TurnReady t.now part.now states dense at quarter from) × (Columned t.now part.now dense at quarter columns) × (Below dense from) }
    ensures { Found t.now part.now states dense at quarter from result }
{
    array::from_fn(|k| t.cell_at(columns[k], from[k]))
}

// A number that no state has leads to the root.
fn state_or_root(states: usize, found: usize) -> usize
    ensures { result ≡ cond (ltb found states) found 0 }
{
    if found < states { found } else { 0 }
}

// The next state, whatever the state: its cell where it is dense, and else what is sought.
pub fn next_of(
    t: &Tables,
    states: usize,
    dense: usize,
    index: usize,
    byte: u8,
    column: usize,
) -> usize
    requires { (states ≤ room_for_states) × (1 ≤ dense) × (dense ≤ states) × (index < states) × (ColumnOf t.now dense byte column) }
    ensures { (result ≡ quick_in t.now states dense index byte) × (result < states) }
{
    if index < dense {
        return state_or_root(states, t.cell_at(column, index));
    }
    state_or_root(states, seeking::sought(t, states, dense, index, byte))
}

// One turn where some state has no row.
fn deep_turn(
    t: &Tables,
    states: usize,
    dense: usize,
    part: &[u8],
    at: usize,
    quarter: usize,
    columns: Four,
    from: Four,
) -> Four
    requires { (TurnReady t.now part.now states dense at quarter from) × (Columned t.now part.now dense at quarter columns) }
    ensures { Turned t.now part.now states dense at quarter from result }
{
    array::from_fn(|k| next_of(
        t,
        states,
        dense,
        from[k],
        part[at + k * quarter],
        columns[k],
    ))
}

// One turn: each cursor takes the next byte of its quarter. Two tests are made for all four together.
pub fn turn(
    t: &Tables,
    states: usize,
    dense: usize,
    part: &[u8],
    at: usize,
    quarter: usize,
    from: Four,
) -> Four
    requires { TurnReady t.now part.now states dense at quarter from }
    ensures { Turned t.now part.now states dense at quarter from result }
{
    let columns = columns_at(t, states, dense, part, at, quarter, from);
    if !all_below(dense, from) {
        return deep_turn(t, states, dense, part, at, quarter, columns, from);
    }
    let found = four_cells(t, states, dense, part, at, quarter, columns, from);
    if all_below(states, found) {
        return found;
    }
    found.map(|index| state_or_root(states, index))
}

// The quick next state: one cell of the tables, where the state has a row.
#![tactic(auto)]

ghost use Rattle.std.specs.Prelude.{◌≡◌, ◌≤◌, ◌<◌};
ghost use Rattle.tables.specs.Layout.{room_for_states};
ghost use Rattle.seeking.specs.Quick.{row_in, sought_in};

use counters::State;
use tables::Tables;
use tables::layout::SIZE;

// The state with an index.
pub fn state_at(index: usize) -> State
    requires { index < room_for_states }
    ensures { result.0 ≡ index }
{
    State::numbered(index as u16)
}

// What the row of a dense state has for a byte: its cell. Where no cell of the byte's column can stand it is the number of the
// states, which no state has.
// Kept, no plainer: a cell of bytes from elsewhere can say such a number too, so callers test it against the states anyway: `Some(next) if next < states`.
fn row(t: &Tables, states: usize, dense: usize, state: State, byte: u8) -> usize
    requires { (states ≤ room_for_states) × (dense ≤ states) × (state.0 < dense) }
    ensures { (result ≡ row_in t.now states dense state.0 byte) × (result < 65536) }
{
    let column = t.column(byte);
    if SIZE - 2 * dense < column {
        return states;
    }
    t.cell(column, state)
}

// What is found for a byte from a state on, which is told by its index. The loops over bytes seldom need it: it stays a function of its own, and they have
// their registers to themselves.
#[inline(never)]
pub fn sought(t: &Tables, states: usize, dense: usize, index: usize, byte: u8) -> usize
    requires { (states ≤ room_for_states) × (1 ≤ dense) × (dense ≤ states) × (index < states) }
    ensures { (result ≡ sought_in t.now states dense index byte) × (result < 65536) }
{
    let mut from = state_at(index);
    while dense <= from.index() {
        if let Some(child) = stepping::child_by(t, states, from, byte) {
            return child.index();
        }
        from = t.failure(from);
    }
    row(t, states, dense, from, byte)
}

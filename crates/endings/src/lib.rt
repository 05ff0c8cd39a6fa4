// Fills out, info and the links of the tables: which pieces end in a state, and in which order the scan looks at them.
#![tactic(auto)]

ghost use Rattle.std.specs.Prelude.{◌≡◌, ℕ, ◌+◌, ◌*◌, ◌≤◌, ◌<◌, get_or};
ghost use Rattle.tables.specs.Layout.{room_for_states, room_for_pieces};
ghost use Rattle.tables.specs.Reads.{Whole, as_link};
ghost use Rattle.endings.specs.Filled.{with_ending, with_link, with_first, own_below, with_inherited, inherited_below, with_link_on, linked_below, filled};

use counters::State;
use tables::{Tables, layout};

// Kept, no plainer: with `struct Filled<'a> { bytes: &'a mut [u8] }` each method would need one clause more: that the borrow keeps its ghost name.
fn put_ending(t: &mut [u8], state: State, out: u8, info: u8)
    requires { (Whole t.old) × (state.0 < room_for_states) }
    ensures { t.new ≡ with_ending t.old state.0 out info }
{
    let i = state.index();
    t[layout::OUT + i] = out;
    t[layout::INFO + i] = info;
}

// Links piece p to the one that is looked at after it, if there is one.
fn put_link(t: &mut [u8], p: usize, next: Option<usize>)
    requires { (Whole t.old) × (p < room_for_pieces) × (as_link next ≤ room_for_pieces) }
    ensures { t.new ≡ with_link t.old p (as_link next) }
{
    let link = next.map_or(0, |piece| piece + 1);
    lent::put2(
        t,
        layout::PIECE + layout::PIECE_LENGTH * p + layout::LINK,
        link as u16,
    );
}

// Piece p becomes the first that ends in the state; it is linked to what was the first until now.
fn put_first(t: &mut [u8], state: State, p: usize)
    requires { (Whole t.old) × (state.0 < room_for_states) × (p < room_for_pieces) }
    ensures { t.new ≡ with_first t.old state.0 p }
{
    let next = Tables::of(t).first_link(state);
    put_link(t, p, next);
    put_ending(t, state, p as u8, layout::ENDING);
}

// The pieces of each keyword, linked in their order: the last is put first.
fn put_own(t: &mut [u8], at: &[u16; layout::ROOM_FOR_PIECES], pieces: usize)
    requires { (Whole t.old) × (pieces ≤ room_for_pieces) × ((p : ℕ) → get_or at.now p 0 < room_for_states) }
    ensures { t.new ≡ own_below at.now pieces t.old }
{
    for p in (0..pieces).rev() {
        put_first(t, State::numbered(at[p]), p);
    }
}

// A state that has no piece of its own ends as its failure does.
fn inherit(t: &mut [u8], state: State)
    requires { (Whole t.old) × (state.0 < room_for_states) }
    ensures { t.new ≡ with_inherited t.old state.0 }
{
    let tables = Tables::of(t);
    if tables.has_ending(state) {
        return;
    }
    let back = tables.failure(state);
    let out = tables.out(back);
    let info = tables.info(back);
    put_ending(t, state, out as u8, info);
}

// In the order of their numbers, so that the failure's turn is over.
fn inherit_all(t: &mut [u8], states: usize)
    requires { (Whole t.old) × (states ≤ room_for_states) }
    ensures { t.new ≡ inherited_below states t.old }
{
    for i in 0..states {
        inherit(t, State::numbered(i as u16));
    }
}

// A piece with no later one of its keyword is linked to the first that ends in the failure of its state.
fn link_on(t: &mut [u8], state: State, p: usize)
    requires { (Whole t.old) × (state.0 < room_for_states) × (p < room_for_pieces) }
    ensures { t.new ≡ with_link_on t.old state.0 p }
{
    let tables = Tables::of(t);
    if tables.link(p) == 0 {
        let next = tables.first_link(tables.failure(state));
        put_link(t, p, next);
    }
}

fn link_all(t: &mut [u8], at: &[u16; layout::ROOM_FOR_PIECES], pieces: usize)
    requires { (Whole t.old) × (pieces ≤ room_for_pieces) × ((p : ℕ) → get_or at.now p 0 < room_for_states) }
    ensures { t.new ≡ linked_below at.now pieces t.old }
{
    for p in 0..pieces {
        link_on(t, State::numbered(at[p]), p);
    }
}

// Fills out, info and the links, from the failures and from the state of each piece's keyword.
pub fn fill(t: &mut [u8], at: &[u16; layout::ROOM_FOR_PIECES], states: usize, pieces: usize)
    requires { (Whole t.old) × (states ≤ room_for_states) × (pieces ≤ room_for_pieces) × ((p : ℕ) → get_or at.now p 0 < room_for_states) }
    ensures { t.new ≡ filled at.now states pieces t.old }
{
    put_own(t, at, pieces);
    inherit_all(t, states);
    link_all(t, at, pieces);
}

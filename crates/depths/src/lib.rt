// Fills in how deep each state is, and what is left of one on the way to it from its parent.
#![tactic(auto)]

ghost use Rattle.std.specs.Prelude.{◌≡◌, ◌+◌, ◌≤◌, ◌<◌};
ghost use Rattle.tables.specs.Layout.{room_for_states};
ghost use Rattle.tables.specs.Reads.{Whole};
ghost use Rattle.depths.specs.Depths.{with_depth, with_depths, with_gain, with_gains_of, with_gains_below, filled};

use counters::State;
use tables::{Tables, layout};

// Kept, no plainer: with `struct Filled<'a> { bytes: &'a mut [u8] }` each method would need one clause more: that the borrow keeps its ghost name.
// A state is one deeper than its failure. No state of a book is deeper than its 32 bytes.
fn put_depth(t: &mut [u8], state: State)
    requires { (Whole t.old) × (state.0 < room_for_states) }
    ensures { t.new ≡ with_depth t.old state.0 }
{
    let tables = Tables::of(t);
    let failure = tables.depth(tables.failure(state));
    t[layout::DEPTH + state.index()] = failure.wrapping_add(1);
}

// In the order of their numbers, so that the failure's turn is over. The root has the depth 0, as zero memory says already.
fn put_depths(t: &mut [u8], states: usize)
    requires { (Whole t.old) × (1 ≤ states) × (states ≤ room_for_states) }
    ensures { t.new ≡ with_depths t.old states }
{
    for i in 1..states {
        put_depth(t, State::numbered(i as u16));
    }
}

// Adds to the info of a child what is left of one: one and the depth of its parent, less its own depth.
fn put_gain(t: &mut [u8], parent: State, child: State)
    requires { (Whole t.old) × (parent.0 < room_for_states) × (child.0 < room_for_states) }
    ensures { t.new ≡ with_gain t.old parent.0 child.0 }
{
    let tables = Tables::of(t);
    let from = tables.depth(parent);
    let to = tables.depth(child);
    let gain = from.wrapping_add(1).wrapping_sub(to);
    let info = tables.info(child);
    t[layout::INFO + child.index()] = info.wrapping_add(gain);
}

fn put_gains(t: &mut [u8], states: usize, parent: State)
    requires { (Whole t.old) × (states ≤ room_for_states) × (parent.0 < states) }
    ensures { t.new ≡ with_gains_of t.old states parent.0 }
{
    for child in stepping::children(&Tables::of(t), states, parent) {
        put_gain(t, parent, State::numbered(child as u16));
    }
}

fn put_all_gains(t: &mut [u8], states: usize)
    requires { (Whole t.old) × (states ≤ room_for_states) }
    ensures { t.new ≡ with_gains_below t.old states states }
{
    for parent in 0..states {
        put_gains(t, states, State::numbered(parent as u16));
    }
}

// Fills in depths and gains, where children and failures are. The root is its own parent.
pub fn fill(t: &mut [u8], states: usize)
    requires { (Whole t.old) × (1 ≤ states) × (states ≤ room_for_states) }
    ensures { t.new ≡ filled t.old states }
{
    put_depths(t, states);
    put_gain(t, State::root(), State::root());
    put_all_gains(t, states);
}

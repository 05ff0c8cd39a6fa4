// The failures are filled in by number: a state's failure has a smaller number, so whatever a step goes through is filled in already.
ghost use Rattle.std.specs.Prelude.{◌≡◌, ◌+◌, ◌≤◌, ◌<◌};
ghost use Rattle.tables.specs.Layout.{room_for_states};
ghost use Rattle.tables.specs.Reads.{Whole};
ghost use Rattle.linking.specs.Failures.{failure_of_child, with_failure, with_children_of, linked};

use counters::State;
use tables::Tables;
use tables::layout::FAIL;

// A child fails to where its last byte leads from the failure of its parent.
fn failure_of_child(t: &Tables, states: usize, parent: State, child: State) -> State
    requires { (states ≤ room_for_states) × (parent.0 < states) × (child.0 < states) }
    ensures { result.0 ≡ failure_of_child t.now states parent.0 child.0 }
{
    let from = t.failure(parent);
    let stepped = stepping::next_state(t, states, from, t.label(child));
    stepped.state
}

// Kept, no plainer: with `struct Filled<'a> { bytes: &'a mut [u8] }` each method would need one clause more: that the borrow keeps its ghost name.
fn link_child(t: &mut [u8], states: usize, parent: State, child: State)
    requires { (Whole t.old) × (states ≤ room_for_states) × (parent.0 < states) × (child.0 < states) }
    ensures { t.new ≡ with_failure t.old states parent.0 child.0 }
{
    let failure = failure_of_child(&Tables::of(t), states, parent, child);
    lent::put2(t, FAIL + 2 * child.index(), failure.number());
}

fn link_children(t: &mut [u8], states: usize, parent: State)
    requires { (Whole t.old) × (states ≤ room_for_states) × (parent.0 < states) }
    ensures { t.new ≡ with_children_of t.old states parent.0 }
{
    for child in stepping::children(&Tables::of(t), states, parent) {
        link_child(t, states, parent, State::numbered(child as u16));
    }
}

// Writes the failure of each state. The root and its children fail to the root, as zero memory says already.
pub fn link_failures(t: &mut [u8], states: usize)
    requires { (Whole t.old) × (states ≤ room_for_states) }
    ensures { t.new ≡ linked t.old states }
{
    for parent in 1..states {
        link_children(t, states, State::numbered(parent as u16));
    }
}

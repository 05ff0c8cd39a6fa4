// The step of a byte, from table memory: to the child by it, or along the failures to the nearest state that has one.
#![tactic(auto)]

ghost use Rattle.std.specs.Prelude.{◌≡◌, ◌+◌, ◌-◌, ◌≤◌, ◌<◌, IfSome};
ghost use Rattle.tables.specs.Layout.{room_for_states};
ghost use Rattle.tables.specs.Reads.{first_child_in};
ghost use Rattle.stepping.specs.Steps.{children_end_in, labelled_in, number_or_root, child_by_in, next_in, landed};

use counters::State;
use std::ops::Range;
use tables::Tables;

// Where the step of a byte leads, and how many failures it takes.
#[derive(Clone, Copy)]
pub struct Stepped {
    pub state: State,
    pub steps: u64,
}

// Kept, no plainer: `States { tables, count }` would take `states ≤ room_for_states` from the four functions here, and each of the eighteen that write tables
// would make one for each call.
// The numbers of a state's children, which stand together: no further than there are states.
pub fn children(t: &Tables, states: usize, state: State) -> Range<usize>
    requires { (states ≤ room_for_states) × (state.0 < states) }
    ensures { (result.start ≡ first_child_in t.now state.0) × (result.end ≡ children_end_in t.now states state.0) }
{
    t.first_child(state)..t.children_end(state).min(states)
}

// The first state among some whose label is the byte. The root is nobody's child: where it comes first, there is none.
pub fn labelled(t: &Tables, byte: u8, among: Range<usize>) -> Option<State>
    requires { among.end ≤ room_for_states }
    ensures value { number_or_root result ≡ labelled_in t.now byte (among.end - among.start) among.start }
    ensures bounds { IfSome result (λ state. (0 < state.0) × (state.0 < among.end)) }
{
    // Kept, speed: `for i in among` takes each number from the range by a call, and build of the hostile book took 6.1 ms in place of 3.8.
    for i in among.start..among.end {
        let state = State::numbered(i as u16);
        if t.label(state) == byte {
            return if i == 0 { None } else { Some(state) };
        }
    }
    None
}

// The child of a state by a byte, where there is one.
pub fn child_by(t: &Tables, states: usize, state: State, byte: u8) -> Option<State>
    requires { (states ≤ room_for_states) × (state.0 < states) }
    ensures value { number_or_root result ≡ child_by_in t.now states state.0 byte }
    ensures bounds { IfSome result (λ child. (0 < child.0) × (child.0 < states)) }
{
    labelled(t, byte, children(t, states, state))
}

// The state after one byte more, and the failure steps that it takes.
pub fn next_state(t: &Tables, states: usize, state: State, byte: u8) -> Stepped
    requires { (states ≤ room_for_states) × (state.0 < states) }
    ensures { (landed result ≡ next_in t.now states state.0 byte) × (result.state.0 < states) }
{
    let mut from = state;
    let mut steps = 0u64;
    // Kept, no plainer: the steps are part of the answer; `for steps in 0..=state.index()` would need an answer behind its end, which no walk reaches.
    loop {
        if let Some(next) = child_by(t, states, from, byte) {
            return Stepped { state: next, steps };
        }
        // The root has no failure: the walk ends there.
        if from.number() == 0 {
            return Stepped { state: from, steps };
        }
        from = t.failure(from);
        steps += 1;
    }
}

// Takes the bytes of a part, while any remains and the free room is enough for a report of every phrase: it glides over the
// bytes at which nothing happens, and does what happens at the others. The states of a long part are looked up ahead, block by block.
#![tactic(auto)]

ghost use Rattle.std.specs.Prelude.{◌≡◌, ◌/◌, length};
ghost use Rattle.feeding.specs.Taken.{at_start, run_of, part_taken, steps_of};
ghost use Rattle.feeding.specs.Ready.{Ready, Kept, Countable};

use counters::{Place, State};
use gliding::Way;
use tables::Tables;

mod blocks; // blocks.rt: blocks whose states are looked up ahead
mod bytes; // bytes.rt: the bytes of a quarter of a block, and of the rest of a part

// How far a call has come: the way that it has gone, and the reports written on it.
#[derive(Clone, Copy)]
pub struct Progress {
    pub way: Way,
    pub written: usize,
}

// The bytes of a part, from a state and a place on.
pub fn take_bytes(
    t: &Tables,
    m: &mut [u8],
    part: &[u8],
    room: &mut [u32],
    state: State,
    place: Place,
) -> Progress
    requires { Ready t.now m.old (length part.now) state.0 place.0 }
    ensures { (run_of result m.new room.new ≡ part_taken t.now (length room.old / 2) part.now (at_start state.0 place.0 m.old room.old)) × (Kept t.now part.now result) }
{
    let way = Way {
        state,
        place,
        taken: 0,
        gains: 0,
    };
    let start = Progress { way, written: 0 };
    let progress = blocks::take_ahead(t, m, part, room, start);
    bytes::take_rest(t, m, part, room, progress)
}

// The failure steps of the bytes taken since a state. A byte adds one to the depth of the state, less its gain, and a failure step
// takes one away. With tables from elsewhere it may not come out, and the steps are then 0.
pub fn steps_since(t: &Tables, first: State, progress: Progress) -> u64
    requires { Countable t.now first.0 progress }
    ensures { result ≡ steps_of t.now first.0 progress.way.state.0 progress.way.taken progress.way.gains }
{
    let last = progress.way.state;
    let brought = progress.way.taken as u64 + u64::from(t.depth(first));
    let left = progress.way.gains + u64::from(t.depth(last));
    brought.saturating_sub(left)
}

// The quiet loop: bytes are taken one after the other, most of them with one cell of the tables, until something happens. It
// writes nothing.
#![tactic(auto)]

ghost use Rattle.std.specs.Prelude.{◌≡◌, ◌<◌, drop};
ghost use Rattle.tables.specs.Layout.{room_for_states};
ghost use Rattle.running.specs.Reads.{WholeRunning};
ghost use Rattle.gliding.specs.Glide.{quiet_at, one_on, glide_in, gone_by, glide_of, GlideReady, GlideKept};
ghost use Rattle.gliding.specs.Going.{gone_to, going_of, GoReady, GoKept};

use counters::{Place, State};
use running::layout::FLAG;
use tables::Tables;

// How far the bytes of a part have been taken: the state, the place, how many bytes, and the sum of the gains.
#[derive(Clone, Copy)]
pub struct Way {
    pub state: State,
    pub place: Place,
    pub taken: usize,
    pub gains: u64,
}

// A way that was gone, and whether what happens at the last of its bytes is still to be done.
#[derive(Clone, Copy)]
pub struct Went {
    pub way: Way,
    // Kept, no plainer: in `enum Went { Event(Way), End(Way) }` both variants hold the same way, and a caller takes it out of either in the same words.
    pub event: bool,
}

// Whether nothing happens once a state is reached at a place: no keyword ends in the state, and no window opens at the place.
pub fn is_quiet(t: &Tables, m: &[u8], state: State, place: Place) -> bool
    requires { (WholeRunning m.now) × (state.0 < room_for_states) }
    ensures { result ≡ quiet_at t.now m.now state.0 place.0 }
{
    if t.has_ending(state) {
        return false;
    }
    m[FLAG + running::slot_of(place)] == 0
}

// The same as the way, with the index of the state: the loop keeps it in one register from byte to byte.
#[derive(Clone, Copy)]
struct Going {
    // Kept, no plainer: `struct Going { index: usize, way: Way, event: bool }` would hold the state twice, and each byte would have to set both.
    index: usize,
    place: Place,
    taken: usize,
    gains: u64,
    // Kept, no plainer: as in Went, both variants of an enum would hold the same four values.
    event: bool,
}

// One byte more. What is found for it and is no state leads to the root.
fn go_on(t: &Tables, m: &[u8], states: usize, dense: usize, from: Going, byte: u8) -> Going
    requires { GoReady t.now m.now states dense from }
    ensures { (going_of result ≡ one_on t.now m.now (gone_to from) byte) × (GoKept states from result) }
{
    let next = seeking::sought(t, states, dense, from.index, byte);
    let place = from.place.next();
    let taken = from.taken + 1;
    if states <= next {
        return Going {
            index: 0,
            place,
            taken,
            gains: from.gains + u64::from(t.gain(State::root())),
            event: !is_quiet(t, m, State::root(), place),
        };
    }
    let gains = from.gains + u64::from(t.gain(seeking::state_at(next)));
    if is_quiet(t, m, seeking::state_at(next), place) {
        return Going {
            index: next,
            place,
            taken,
            gains,
            event: false,
        };
    }
    Going {
        index: next,
        place,
        taken,
        gains,
        event: true,
    }
}

// The way, with the state of the index.
fn way_to(going: Going) -> Went
    requires { going.index < room_for_states }
    ensures { glide_of result ≡ going_of going }
{
    let place = going.place;
    let way = Way {
        state: seeking::state_at(going.index),
        place,
        taken: going.taken,
        gains: going.gains,
    };
    Went {
        way,
        event: going.event,
    }
}

// Takes bytes until something happens, or until none is left.
pub fn glide(t: &Tables, m: &[u8], part: &[u8], from: Way) -> Went
    requires { GlideReady t.now m.now part.now from }
    ensures { (glide_of result ≡ glide_in t.now m.now (drop from.taken part.now) (gone_by from)) × (GlideKept t.now part.now from result) }
{
    let states = t.state_count();
    let dense = t.dense();
    let place = from.place;
    let mut going = Going {
        index: from.state.index(),
        place,
        taken: from.taken,
        gains: from.gains,
        event: false,
    };
    for at in from.taken..part.len() {
        going = go_on(t, m, states, dense, going, part[at]);
        if going.event {
            return way_to(going);
        }
    }
    way_to(going)
}

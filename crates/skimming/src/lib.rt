// The quiet loop where the states were looked up ahead: the places of a part are gone over, by eights where nothing happens. It
// writes nothing.
#![tactic(auto)]

ghost use Rattle.std.specs.Prelude.{◌≡◌, false, ◌-◌, ◌<◌, drop};
ghost use Rattle.gliding.specs.Glide.{glide_in, gone_by, glide_of, GlideKept};
ghost use Rattle.seeking.specs.Foreseen.{after_from};
ghost use Rattle.skimming.specs.Look.{look_from};
ghost use Rattle.skimming.specs.Ready.{look_of, LookReady, LookKept, WayReady, way_of, SkimReady};

use counters::{Place, State};
use gliding::{Way, Went};
use running::layout::FLAG;
use tables::Tables;

mod infos; // infos.rt: the sum of what the infos of eight states say

// The states of a part stand four numbers apart.
const APART: usize = 4;

// How many places are gone over together, as a count of bytes, of places, and of the numbers in which their states stand.
const EIGHT: usize = 8;

const EIGHT_PLACES: u64 = 8;

const EIGHT_APART: usize = 32;

// The last slot from which on there are eight flags in a row.
const LAST_SLOT: usize = 248;

// A sum of infos from here on may have an ending in it.
const ENDING: u64 = 128;

// How far the places have been gone over: where the state of the next one stands, how many bytes are left, the place and the sum
// of the gains; and whether what happens at the last of them is still to be done.
#[derive(Clone, Copy)]
struct Looking {
    at: usize,
    left: usize,
    place: Place,
    gains: u64,
    // Kept, no plainer: in `enum Looking { Event(Looked), On(Looked) }` both variants hold the same four values, and a caller takes them out of either in the same words.
    event: bool,
}

// One place more.
fn one_more(t: &Tables, m: &[u8], ahead: &[u16], from: Looking) -> Looking
    requires { (LookReady t.now m.now ahead.now from) × (0 < from.left) }
    ensures { (look_from t.now m.now ahead.now (look_of result) ≡ look_from t.now m.now ahead.now (look_of from)) × (LookKept from result) × (result.left < from.left) }
{
    let at = from.at;
    let state = State::numbered(ahead[at]);
    let place = from.place.next();
    let gains = from.gains + u64::from(t.gain(state));
    Looking {
        at: at + APART,
        left: from.left - 1,
        place,
        gains,
        event: !gliding::is_quiet(t, m, state, place),
    }
}

// At most eight places, one after the other, until something happens.
fn singly(t: &Tables, m: &[u8], ahead: &[u16], from: Looking) -> Looking
    requires { (LookReady t.now m.now ahead.now from) × (0 < from.left) }
    ensures { (look_from t.now m.now ahead.now (look_of result) ≡ look_from t.now m.now ahead.now (look_of from)) × (LookKept from result) × (result.left < from.left) }
{
    let stop = from.left.saturating_sub(EIGHT);
    let mut looking = from;
    while stop < looking.left {
        looking = one_more(t, m, ahead, looking);
        if looking.event {
            return looking;
        }
    }
    looking
}

// Eight places at once, as long as nothing happens at any of them.
fn by_eights(t: &Tables, m: &[u8], ahead: &[u16], from: Looking) -> Looking
    requires { LookReady t.now m.now ahead.now from }
    ensures { (look_from t.now m.now ahead.now (look_of result) ≡ look_from t.now m.now ahead.now (look_of from)) × (LookKept from result) × (result.event ≡ false) }
{
    let mut looking = from;
    while EIGHT <= looking.left {
        let slot = running::slot_of(looking.place.next());
        if LAST_SLOT < slot {
            return looking;
        }
        let sum = infos::eight(t, ahead, looking.at);
        if ENDING <= sum {
            return looking;
        }
        let flags = lent::get8(m, FLAG + slot);
        if flags != 0 {
            return looking;
        }
        let place = looking.place.later(EIGHT_PLACES);
        let at = looking.at + EIGHT_APART;
        let left = looking.left - EIGHT;
        let gains = looking.gains + sum;
        looking = Looking {
            at,
            left,
            place,
            gains,
            event: false,
        };
    }
    looking
}

// The way to here, with the state of the last place that was gone over.
fn way_to(ahead: &[u16], bytes: usize, looking: Looking) -> Went
    requires { WayReady ahead.now bytes looking }
    ensures { glide_of result ≡ way_of ahead.now bytes looking }
{
    let last = looking.at - APART;
    let place = looking.place;
    let way = Way {
        state: State::numbered(ahead[last]),
        place,
        taken: bytes - looking.left,
        gains: looking.gains,
    };
    Went {
        way,
        event: looking.event,
    }
}

// Goes over the places of a part until something happens, or until none is left. The part ends where the states that were looked up
// for it end; the first of them stands at k and is that of the byte first. The places behind one where something happened are taken one by
// one, since there something often happens again.
pub fn skim(
    t: &Tables,
    m: &[u8],
    part: &[u8],
    ahead: &[u16],
    first: usize,
    k: usize,
    from: Way,
) -> Went
    requires { SkimReady t.now m.now part.now ahead.now first k from }
    ensures { (glide_of result ≡ glide_in t.now m.now (drop from.taken part.now) (gone_by from)) × (GlideKept t.now part.now from result) × (result.way.state.0 ≡ after_from t.now part.now from.taken from.state.0 (result.way.taken - from.taken)) }
{
    if part.len() <= from.taken {
        return Went {
            way: from,
            event: false,
        };
    }
    let place = from.place;
    let mut looking = Looking {
        at: APART * (from.taken - first) + k,
        left: part.len() - from.taken,
        place,
        gains: from.gains,
        event: false,
    };
    while 0 < looking.left {
        looking = singly(t, m, ahead, looking);
        if looking.event {
            return way_to(ahead, part.len(), looking);
        }
        looking = by_eights(t, m, ahead, looking);
    }
    way_to(ahead, part.len(), looking)
}

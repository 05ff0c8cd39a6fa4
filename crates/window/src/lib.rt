// The windows in the lent running memory: a piece waits, its window opens, it ends, its phrase is reported.
#![tactic(auto)]

ghost use Rattle.std.specs.Prelude.{◌≡◌, ◌+◌, ◌*◌, ◌≤◌, ◌<◌, length};
ghost use Rattle.counters.specs.Counters.{InLetter};
ghost use Rattle.tables.specs.Layout.{room_for_states, room_for_phrases};
ghost use Rattle.tables.specs.Reads.{phrase_count_in};
ghost use Rattle.running.specs.Reads.{WholeRunning};
ghost use Rattle.window.specs.Happened.{here_with, happened};

use counters::{Place, State};
use tables::Tables;

mod begins; // begins.rt: the windows before the first byte
mod closing; // closing.rt: the window of a piece, lent where it is renewed
mod ends; // ends.rt: which pieces end in a state
mod opens; // opens.rt: what opens at a place
mod waits; // waits.rt: a window waits its turn

pub use begins::begin_windows;
pub use closing::Window;
pub use ends::pieces_end;
pub use opens::open_slot;
pub use waits::wait_from;

// What happens at a place once the state is known: the windows of the place open, the pieces of the state end, and the phrases
// that were marked are reported. The windows open before any piece is looked at: a piece whose window opens here may end here,
// and a window that has to wait 256 places goes into the slot just emptied.
// Kept, no plainer: a struct that holds m: &mut [u8] needs a clause on its ghost name in every method, where WholeRunning m.old stands now.
pub fn happen(
    t: &Tables,
    m: &mut [u8],
    room: &mut [u32],
    written: usize,
    state: State,
    place: Place,
) -> usize
    requires { (WholeRunning m.old) × (phrase_count_in t.now ≤ room_for_phrases) × (2 * (written + phrase_count_in t.now) ≤ length room.old) × (state.0 < room_for_states) × (InLetter place.0) }
    ensures { here_with result room.new m.new ≡ happened t.now state.0 place.0 (here_with written room.old m.old) }
{
    open_slot(t, m, place);
    let marks = pieces_end(t, m, state, place);
    marks::put_reports(t, room, written, marks, place)
}

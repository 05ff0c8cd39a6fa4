// Which pieces are looked at when a state is reached, and what comes of each.
ghost use Rattle.std.specs.Prelude.{◌≡◌, ◌≤◌, ◌<◌};
ghost use Rattle.counters.specs.Counters.{InLetter};
ghost use Rattle.tables.specs.Layout.{room_for_states, room_for_pieces};
ghost use Rattle.marks.specs.Marked.{no_marks};
ghost use Rattle.running.specs.Reads.{WholeRunning};
ghost use Rattle.window.specs.Ending.{pieces_in, ended_with, piece_ended, pieces_ended};

use crate::opens::is_past;
use crate::waits::wait_from;
use counters::{Place, State};
use marks::Marks;
use tables::Tables;
use tables::layout::ROOM_FOR_PIECES;

// The keyword of a piece ends at a place. Where its window has closed nothing comes of it; a last piece marks its phrase;
// after another piece the next one waits.
// Kept, no plainer: a struct that holds m: &mut [u8] needs a clause on its ghost name in every method, where WholeRunning m.old stands now.
fn piece_ends(t: &Tables, m: &mut [u8], marks: Marks, piece: usize, place: Place) -> Marks
    requires { (WholeRunning m.old) × (piece < room_for_pieces) × (InLetter place.0) }
    ensures { ended_with result m.new ≡ piece_ended t.now place.0 (ended_with marks m.old) piece }
{
    if is_past(m, piece, place) {
        return marks;
    }
    if t.is_last(piece) {
        return marks.with(t.rank(piece));
    }
    wait_from(t, m, (piece + 1) % ROOM_FOR_PIECES, place);
    marks
}

// The pieces whose keyword ends in a state, one after the other. At most 256 are looked at: the links of bytes from
// elsewhere may lead round in a circle.
pub fn pieces_end(t: &Tables, m: &mut [u8], state: State, place: Place) -> Marks
    requires { (WholeRunning m.old) × (state.0 < room_for_states) × (InLetter place.0) }
    ensures { ended_with result m.new ≡ pieces_ended t.now place.0 (ended_with no_marks m.old) (pieces_in t.now state.0) }
{
    let mut marks = Marks::none();
    let mut next = t.first_link(state);
    for _looked in 0..ROOM_FOR_PIECES {
        let Some(piece) = next else {
            return marks;
        };
        marks = piece_ends(t, m, marks, piece, place);
        next = t.onward(piece);
    }
    marks
}

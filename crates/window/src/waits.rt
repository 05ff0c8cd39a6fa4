// A window that has not opened yet waits its turn, in the slot of the place at which it opens.
ghost use Rattle.std.specs.Prelude.{◌≡◌, ◌<◌};
ghost use Rattle.counters.specs.Counters.{InLetter};
ghost use Rattle.tables.specs.Layout.{room_for_pieces};
ghost use Rattle.running.specs.Reads.{WholeRunning};
ghost use Rattle.window.specs.Waiting.{with_waiting_from};

use counters::Place;
use running::layout::{FLAG, FLAGGED, RING, SLOT_LENGTH};
use tables::Tables;

// How many pieces have their bits in one byte.
const PIECES_IN_BYTE: usize = 8;

// A piece waits from the place at which the piece before it ended, 0 for a first piece: its window opens a delay later.
// Kept, no plainer: a struct that holds m: &mut [u8] needs a clause on its ghost name in every method, where WholeRunning m.old stands now.
pub fn wait_from(t: &Tables, m: &mut [u8], piece: usize, place: Place)
    requires { (WholeRunning m.old) × (piece < room_for_pieces) × (InLetter place.0) }
    ensures { m.new ≡ with_waiting_from t.now m.old piece place.0 }
{
    let slot = running::slot_of(place.later(u64::from(t.delay(piece))));
    let at = RING + SLOT_LENGTH * slot + piece / PIECES_IN_BYTE;
    m[at] |= 1 << (piece % PIECES_IN_BYTE);
    m[FLAG + slot] = FLAGGED;
}

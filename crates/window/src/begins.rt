// The windows before the first byte: those of the first pieces wait from place 0.
ghost use Rattle.std.specs.Prelude.{◌≡◌, ◌≤◌, ◌<◌};
ghost use Rattle.tables.specs.Layout.{room_for_pieces};
ghost use Rattle.tables.specs.Reads.{piece_count_in};
ghost use Rattle.running.specs.Reads.{WholeRunning};
ghost use Rattle.window.specs.Begun.{waiting_if_first, windows_begun};

use crate::waits::wait_from;
use counters::Place;
use running::layout::SIZE;
use tables::Tables;

// A first piece waits from place 0, and for any other nothing is done.
// Kept, no plainer: a struct that holds m: &mut [u8] needs a clause on its ghost name in every method, where WholeRunning m.old stands now.
fn wait_if_first(t: &Tables, m: &mut [u8], piece: usize)
    requires { (WholeRunning m.old) × (piece < room_for_pieces) }
    ensures { m.new ≡ waiting_if_first t.now m.old piece }
{
    if t.is_first(piece) {
        wait_from(t, m, piece, Place::start());
    }
}

// The running memory before the first byte: all zero, and then the first pieces of the phrases wait from place 0.
pub fn begin_windows(t: &Tables, m: &mut [u8])
    requires { (WholeRunning m.old) × (piece_count_in t.now ≤ room_for_pieces) }
    ensures { m.new ≡ windows_begun t.now m.old }
{
    lent::clear(m, 0, SIZE);
    let pieces = t.piece_count();
    for piece in 0..pieces {
        wait_if_first(t, m, piece);
    }
}

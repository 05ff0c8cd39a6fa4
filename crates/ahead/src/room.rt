// Whether the columns of the tables leave room for all their cells.
ghost use Rattle.std.specs.Prelude.{◌≡◌, ◌≤◌};
ghost use Rattle.tables.specs.Layout.{room_for_states};
ghost use Rattle.tables.specs.Reads.{state_count_in, dense_in};
ghost use Rattle.ahead.specs.Columns.{farthest, columns_fit};

use tables::{Tables, layout};

// The last offset at which the column of a byte begins.
fn farthest_column(t: &Tables) -> usize
    ensures { result ≡ farthest t.now 256 }
{
    // Kept, speed: numbers of two bytes, so that several are compared at once.
    let mut last: u16 = 0;
    for byte in 0..layout::BYTE_VALUES {
        last = last.max(t.column(byte as u8) as u16);
    }
    usize::from(last)
}

// Whether the column of each byte leaves room for the cells of all dense states: then no cell has to be asked for its room.
pub fn columns_fit(t: &Tables) -> bool
    requires { (state_count_in t.now ≤ room_for_states) × (dense_in t.now ≤ state_count_in t.now) }
    ensures { result ≡ columns_fit t.now }
{
    farthest_column(t) <= layout::SIZE - 2 * t.dense()
}

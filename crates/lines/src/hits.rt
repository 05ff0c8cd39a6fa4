// The reports that stand in the room, as hit lines. A report is two numbers there: the phrase number, then the place.
ghost use Rattle.std.specs.Prelude.{◌≡◌, ◌+◌, ◌*◌, ◌≤◌, length};
ghost use Rattle.tables.specs.Layout.{room_for_phrases};
ghost use Rattle.tables.specs.Reads.{phrase_count_in};
ghost use Rattle.listing.specs.Writing.{left};
ghost use Rattle.lines.specs.Hits.{hit_written, hits_written};

use crate::rights::rights_of;
use counters::{Number, Place};
use tables::Tables;

// How many numbers two bytes can hold.
const NUMBERS: u32 = 65536;

// Writes the line of report i, from `at` on.
fn put_hit(t: &Tables, room: &[u32], i: usize, out: &mut [u8], at: usize) -> usize
    requires { (phrase_count_in t.now ≤ room_for_phrases) × (2 * i + 2 ≤ length room.now) }
    ensures { left out.new result ≡ hit_written t.now room.now i (left out.old at) }
{
    let number = Number::of((room[2 * i] % NUMBERS) as u16);
    let place = Place::at(u64::from(room[2 * i + 1]));
    let rights = rights_of(t, number);
    listing::hit_line(out, at, place, number, rights)
}

// Writes the lines of so many reports, one behind the other, and answers where they end.
pub fn put_hits(t: &Tables, room: &[u32], reports: usize, out: &mut [u8]) -> usize
    requires { (phrase_count_in t.now ≤ room_for_phrases) × (2 * reports ≤ length room.now) }
    ensures { left out.new result ≡ hits_written t.now room.now 0 reports (left out.old 0) }
{
    let mut end = 0;
    for i in 0..reports {
        end = put_hit(t, room, i, out, end);
    }
    end
}

// The running memory: its size, where its regions begin, and which slot of its ring is a place's. What they hold after some
// bytes stands in specs/.
#![tactic(auto)]

ghost use Rattle.std.specs.Prelude.{◌≡◌, ◌<◌};
ghost use Rattle.running.specs.Layout.{running_size};
ghost use Rattle.running.specs.Waiting.{slots, slot_of};

use counters::Place;
use layout::{SIZE, SLOTS};

pub mod layout; // layout.rt: where each region begins

// The published size of running memory: a caller lends at least so many bytes.
pub fn size() -> usize
    ensures { result ≡ running_size }
{
    SIZE
}

// The slot of a place, in which the windows wait that open there.
pub fn slot_of(place: Place) -> usize
    ensures { (result ≡ slot_of place.0) × (result < slots) }
{
    (place.bytes() % SLOTS) as usize
}

// The calls of a desk that reads a letter: begin, and then feed, part after part. Each says what it refuses and why.
#![tactic(auto)]

ghost use Rattle.std.specs.Prelude.{◌≡◌, ◌≤◌, length, Ok};
ghost use Rattle.running.specs.Layout.{running_size};
ghost use Rattle.running.specs.Reads.{WholeRunning};
ghost use Rattle.tables.specs.Reads.{piece_count_in};
ghost use Rattle.tables.specs.Layout.{room_for_pieces};
ghost use Rattle.tracking.specs.Head.{begun_with};
ghost use Rattle.feeding.specs.Ready.{Ready};
ghost use Rattle.scanner.specs.Passing.{state_held, place_held};
ghost use Rattle.scanner.specs.Exact.{took_from};
ghost use Rattle.scanner.specs.Promised.{BeginPromise, FeedPromise};

use refusals::{check_memories, check_part, place_of, state_of};
use running::layout::{MARK, PLACE, RUNNING_TAG, STATE, TAG};
use tables::Tables;

mod refusals;

pub use refusals::{FeedError, MemoryError, running_passes};

// What a part that is fed comes to: so many bytes are taken, with so many reports and failure steps.
#[derive(Clone, Copy, Debug, PartialEq, Eq)]
pub struct Took {
    pub taken: usize,
    pub reports: usize,
    pub steps: u64,
}

// The published size of running memory: a caller lends at least so many bytes.
pub fn running_size() -> usize
    ensures { result ≡ running_size }
{
    running::size()
}

// The letter begins. What the running memory held does not matter.
pub fn begin(tables: &[u8], running: &mut [u8]) -> Result<(), MemoryError>
    ensures { BeginPromise tables.now running.old (record { answer = result; memory = running.new }) }
{
    check_memories(tables, running)?;
    let tables = Tables::of(tables);
    write_begun(&tables, running);
    Ok(())
}

// The running memory before the first byte: the windows of the first pieces, the mark of the tables, and at last the tag.
fn write_begun(t: &Tables, m: &mut [u8])
    requires { (WholeRunning m.old) × (piece_count_in t.now ≤ room_for_pieces) }
    ensures { m.new ≡ begun_with t.now m.old }
{
    window::begin_windows(t, m);
    lent::put8(m, MARK, t.mark());
    lent::put8(m, TAG, RUNNING_TAG);
}

// The letter goes on with a part. The room holds a report in two numbers; an odd last number is never touched.
pub fn feed(
    tables: &[u8],
    running: &mut [u8],
    part: &[u8],
    room: &mut [u32],
) -> Result<Took, FeedError>
    ensures { FeedPromise tables.now running.old part.now room.old (record { answer = result; memory = running.new; room = room.new }) }
{
    check_part(tables, running, part, room)?;
    let tables = Tables::of(tables);
    Ok(take_part(&tables, running, part, room))
}

// Takes bytes from the state and the place in the running memory, which are written once, when the call takes no more.
fn take_part(t: &Tables, m: &mut [u8], part: &[u8], room: &mut [u32]) -> Took
    requires { Ready t.now m.old (length part.now) (state_held m.old) (place_held m.old) }
    ensures { record { answer = Ok result; memory = m.new; room = room.new } ≡ took_from t.now m.old part.now room.old (state_held m.old) (place_held m.old) }
{
    let state = state_of(m);
    let place = place_of(m);
    let progress = feeding::take_bytes(t, m, part, room, state, place);
    lent::put2(m, STATE, progress.way.state.number());
    lent::put8(m, PLACE, progress.way.place.bytes());
    Took {
        taken: progress.way.taken,
        reports: progress.written,
        steps: feeding::steps_since(t, state, progress),
    }
}

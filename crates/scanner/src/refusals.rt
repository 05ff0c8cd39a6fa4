// What begin and feed refuse, and why.
ghost use Rattle.std.specs.Prelude.{◌≡◌, OnOk, IfErr};
ghost use Rattle.running.specs.Reads.{WholeRunning};
ghost use Rattle.scanner.specs.declared.refusals.FeedError.TheVariants.{Memory};
ghost use Rattle.scanner.specs.Passing.{state_held, place_held, too_small, running_pass};
ghost use Rattle.scanner.specs.Exact.{MemoriesChecked, feed_refused, feed_of, Taking};

use counters::{Place, State};
use running::layout::{MARK, PLACE, RUNNING_TAG, STATE, TAG};
use tables::Tables;

// The largest place: so many bytes of one letter are taken, and no more.
const LARGEST_PLACE: u64 = 4294967295;

// Why the lent memories are refused.
#[derive(Clone, Copy, Debug, PartialEq, Eq)]
pub enum MemoryError {
    // tables or running memory are shorter than their size
    TooSmall,
    // the tables do not pass the test of document 01, or, to feed, the running memory was not begun with them
    NotPassed,
}

// Why feed refuses a part.
#[derive(Clone, Copy, Debug, PartialEq, Eq)]
pub enum FeedError {
    // the lent memories are refused
    Memory(MemoryError),
    // the room is not enough for a report of every phrase
    NoRoom,
    // the part would pass the largest place
    TooLong,
}

impl From<MemoryError> for FeedError {
    ghost from_gives = { λ why error. error ≡ Memory why };

    fn from(why: MemoryError) -> FeedError {
        FeedError::Memory(why)
    }
}

// Whether lent table memory or running memory is below its published size.
fn too_small(t: &[u8], m: &[u8]) -> bool
    ensures { result ≡ too_small t.now m.now }
{
    t.len() < tables::size() || m.len() < running::size()
}

// The state that running memory stands in.
pub fn state_of(m: &[u8]) -> State
    requires { WholeRunning m.now }
    ensures { result.0 ≡ state_held m.now }
{
    State::numbered(lent::get2(m, STATE))
}

// The place that running memory stands at.
pub fn place_of(m: &[u8]) -> Place
    requires { WholeRunning m.now }
    ensures { result.0 ≡ place_held m.now }
{
    Place::at(lent::get8(m, PLACE))
}

// Test 12 for running memory, beside tables: the tag, a state of the tables, a place that is not past the largest, and the mark of
// the tables. Lent bytes below their size do not pass.
pub fn running_passes(t: &[u8], m: &[u8]) -> bool
    ensures { result ≡ running_pass t.now m.now }
{
    if too_small(t, m) {
        return false;
    }
    if lent::get8(m, TAG) != RUNNING_TAG {
        return false;
    }
    let tables = Tables::of(t);
    if tables.state_count() <= state_of(m).index() {
        return false;
    }
    if LARGEST_PLACE < place_of(m).bytes() {
        return false;
    }
    lent::get8(m, MARK) == tables.mark()
}

// What begin and feed ask first: memories of their published sizes, and tables that pass test 12.
pub fn check_memories(t: &[u8], m: &[u8]) -> Result<(), MemoryError>
    ensures { MemoriesChecked t.now m.now result }
{
    if too_small(t, m) {
        return Err(MemoryError::TooSmall);
    }
    if !tables::passes(t) {
        return Err(MemoryError::NotPassed);
    }
    Ok(())
}

// All that feed asks, in its order. The room holds a report in two numbers.
pub fn check_part(t: &[u8], m: &[u8], part: &[u8], room: &[u32]) -> Result<(), FeedError>
    ensures ok { OnOk result (Taking t.now m.now part.now room.now (feed_of t.now m.now part.now room.now)) }
    ensures err { IfErr result (λ why. feed_of t.now m.now part.now room.now ≡ feed_refused why m.now room.now) }
{
    check_memories(t, m)?;
    if !running_passes(t, m) {
        return Err(FeedError::Memory(MemoryError::NotPassed));
    }
    let tables = Tables::of(t);
    if room.len() / 2 < tables.phrase_count() {
        return Err(FeedError::NoRoom);
    }
    if LARGEST_PLACE - place_of(m).bytes() < part.len() as u64 {
        return Err(FeedError::TooLong);
    }
    Ok(())
}

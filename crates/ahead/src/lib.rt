// The states that the bytes of a part lead to, looked up ahead: four cursors go over four quarters side by side, so that the reads of
// one need not wait for those of another.
#![tactic(auto)]

ghost use Rattle.std.specs.Prelude.{◌≡◌, ◌+◌, ◌*◌, ◌≤◌, ◌<◌, length};
ghost use Rattle.tables.specs.Layout.{room_for_states};
ghost use Rattle.tables.specs.Reads.{state_count_in};
ghost use Rattle.seeking.specs.Foreseen.{after_from, Looked};
ghost use Rattle.ahead.specs.Cursors.{Below, with_four};
ghost use Rattle.ahead.specs.Ahead.{Listed, KeptFrom, RunReady, Ran, Guessed, AgainReady, Mended, LookReady};

use counters::State;
use tables::Tables;
use turn::{Four, QUARTERS};

mod room; // room.rt: whether the columns leave room for all cells
mod turn; // turn.rt: one turn of the four cursors

pub use room::columns_fit;

// How many bytes before its quarter a cursor begins to warm up. No state of a book is longer, so that with the tables of a book the guess is right.
const WARM_UP: usize = 32;

// Writes the four states one after the other.
fn put_four(ahead: &mut [u16], at: usize, cursors: Four)
    requires { (at + 4 ≤ length ahead.old) × (Below room_for_states cursors) }
    ensures { ahead.new ≡ with_four ahead.old at cursors }
{
    for k in 0..QUARTERS {
        ahead[at + k] = cursors[k] as u16;
    }
}

// So many turns, from the byte of the first quarter on. Each writes four numbers.
fn run_four(
    t: &Tables,
    part: &[u8],
    first: usize,
    quarter: usize,
    count: usize,
    start: Four,
    ahead: &mut [u16],
) -> Four
    requires { (RunReady t.now part.now first quarter count ahead.old) × (Below (state_count_in t.now) start) }
    ensures { Ran t.now part.now first quarter count start result ahead.old ahead.new }
{
    let states = t.state_count();
    let dense = t.dense();
    let mut cursors = start;
    for i in 0..count {
        let next = turn::turn(t, states, dense, part, first + i, quarter, cursors);
        put_four(ahead, QUARTERS * i, next);
        cursors = next;
    }
    cursors
}

// Where the cursors begin: the first in the state at hand, each other one in a guess, the state in which a walk over the last bytes before its quarter ends. What is
// written meanwhile is written over later.
fn guessed(
    t: &Tables,
    part: &[u8],
    first: usize,
    quarter: usize,
    state: State,
    ahead: &mut [u16],
) -> Four
    requires { LookReady t.now part.now first quarter state.0 ahead.old }
    ensures { Guessed t.now part.now first quarter state.0 result ahead.old ahead.new }
{
    let roots = [0; QUARTERS];
    let warm = run_four(
        t,
        part,
        first + quarter - WARM_UP,
        quarter,
        WARM_UP,
        roots,
        ahead,
    );
    [state.index(), warm[0], warm[1], warm[2]]
}

// Looks a quarter up again, alone, where the cursor before it ended elsewhere than its own began. Answers where it ends.
fn mend(
    t: &Tables,
    part: &[u8],
    from: usize,
    quarter: usize,
    k: usize,
    state: usize,
    began: usize,
    ended: usize,
    ahead: &mut [u16],
) -> usize
    requires { (AgainReady t.now part.now from quarter k state ahead.old) × (Listed t.now part.now from began quarter k ahead.old) × (ended ≡ after_from t.now part.now from began quarter) }
    ensures { Mended t.now part.now from quarter k state result ahead.old ahead.new }
{
    if state == began {
        return ended;
    }
    let states = t.state_count();
    let dense = t.dense();
    let mut index = state;
    for i in 0..quarter {
        let byte = part[from + i];
        index = turn::next_of(t, states, dense, index, byte, t.column(byte));
        ahead[QUARTERS * i + k] = index as u16;
    }
    index
}

// Looks up the states that the bytes of four quarters lead to, from a byte of the part on: every fourth number is of the same quarter. The numbers behind are as they
// were: a quarter is no shorter than the warming up, so that what was written for the guesses is written over.
pub fn look_ahead(
    t: &Tables,
    part: &[u8],
    first: usize,
    quarter: usize,
    state: State,
    ahead: &mut [u16],
)
    requires { LookReady t.now part.now first quarter state.0 ahead.old }
    ensures { (Looked t.now part.now first quarter state.0 ahead.new) × (length ahead.new ≡ length ahead.old) × (KeptFrom (4 * quarter) ahead.old ahead.new) }
{
    let start = guessed(t, part, first, quarter, state, ahead);
    let ends = run_four(t, part, first, quarter, quarter, start, ahead);
    let mut end = ends[0];
    for k in 1..QUARTERS {
        end = mend(
            t,
            part,
            first + k * quarter,
            quarter,
            k,
            end,
            start[k],
            ends[k],
            ahead,
        );
    }
}

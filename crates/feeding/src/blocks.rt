// Blocks of a part whose states are looked up ahead, in four quarters side by side.
ghost use Rattle.std.specs.Prelude.{◌≡◌, ◌+◌, ◌*◌, ◌/◌, ◌<◌, length, take};
ghost use Rattle.feeding.specs.Blocks.{quarter_of};
ghost use Rattle.feeding.specs.Ready.{ReadyOn, Took, QuartersReady, BlocksReady, BlockReady, TookBlocks, TookAhead};

use crate::Progress;
use crate::bytes::take_quarter;
use tables::Tables;

// The quarters of a block.
const QUARTERS: usize = 4;

// The bytes of the longest quarter.
const LONGEST: usize = 1024;

// The states of the longest block.
const STATES: usize = QUARTERS * LONGEST;

// The bytes of the shortest block: a shorter one is not worth the looking up.
const SHORTEST: usize = 512;

// The reports for which there is room, beside one of every phrase, where a block begins. So a call that ends for want of room has
// written at least so many for the states that were looked up in vain.
const SPARE: usize = 512;

// The quarters of a block one after the other, the first from where a call has come to, as long as each is taken whole.
fn take_quarters(
    t: &Tables,
    m: &mut [u8],
    part: &[u8],
    room: &mut [u32],
    states: &[u16],
    quarter: usize,
    from: Progress,
) -> Progress
    requires { QuartersReady t.now m.old part.now (length room.old / 2) states.now quarter from }
    ensures { Took t.now (take (from.way.taken + 4 * quarter) part.now) (length room.old / 2) m.old room.old from m.new room.new result }
{
    let mut end = from.way.taken;
    let mut progress = from;
    for k in 0..QUARTERS {
        end += quarter;
        progress = take_quarter(t, m, &part[..end], room, states, k, progress);
        if progress.way.taken < end {
            return progress;
        }
    }
    progress
}

// A block: its states are looked up, and then its bytes are taken.
fn take_block(
    t: &Tables,
    m: &mut [u8],
    part: &[u8],
    room: &mut [u32],
    quarter: usize,
    from: Progress,
) -> Progress
    requires { BlockReady t.now m.old part.now (length room.old / 2) quarter from }
    ensures { Took t.now (take (from.way.taken + 4 * quarter) part.now) (length room.old / 2) m.old room.old from m.new room.new result }
{
    let mut states = [0u16; STATES];
    let state = from.way.state;
    ahead::look_ahead(t, part, from.way.taken, quarter, state, &mut states);
    take_quarters(t, m, part, room, &states, quarter, from)
}

// The bytes of a quarter of the next block: a fourth of the bytes that remain, or the most. It is 0 where too few of them remain, or
// too little room.
fn quarter_of(remaining: usize, free: usize, phrases: usize) -> usize
    requires { phrases < 65536 }
    ensures { result ≡ quarter_of remaining free phrases }
{
    if remaining < SHORTEST {
        return 0;
    }
    if free < phrases + SPARE {
        return 0;
    }
    if STATES < remaining {
        return LONGEST;
    }
    remaining / QUARTERS
}

// Blocks one after the other, as long as each is taken whole and another fits.
fn take_blocks(t: &Tables, m: &mut [u8], part: &[u8], room: &mut [u32], from: Progress) -> Progress
    requires { BlocksReady t.now m.old part.now (length room.old / 2) from }
    ensures { TookBlocks t.now part.now (length room.old / 2) m.old room.old from m.new room.new result }
{
    let phrases = t.phrase_count();
    let free = room.len() / 2;
    let mut quarter = quarter_of(part.len() - from.way.taken, free - from.written, phrases);
    let mut progress = from;
    while 0 < quarter {
        let end = progress.way.taken + QUARTERS * quarter;
        progress = take_block(t, m, part, room, quarter, progress);
        if progress.way.taken < end {
            return progress;
        }
        quarter = quarter_of(
            part.len() - progress.way.taken,
            free - progress.written,
            phrases,
        );
    }
    progress
}

// As much of a part as is taken in blocks. It is nothing of a short part, and nothing with tables from elsewhere whose columns do not
// fit.
pub fn take_ahead(
    t: &Tables,
    m: &mut [u8],
    part: &[u8],
    room: &mut [u32],
    from: Progress,
) -> Progress
    requires { ReadyOn t.now m.old part.now (length room.old / 2) from }
    ensures { TookAhead t.now part.now (length room.old / 2) m.old room.old from m.new room.new result }
{
    if part.len() < SHORTEST {
        return from;
    }
    if !ahead::columns_fit(t) {
        return from;
    }
    take_blocks(t, m, part, room, from)
}

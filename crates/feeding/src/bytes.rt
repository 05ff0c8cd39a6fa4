// The bytes of a part one after the other: those of a quarter whose states were looked up ahead, and those of the rest of a part.
ghost use Rattle.std.specs.Prelude.{◌/◌, length};
ghost use Rattle.feeding.specs.Ready.{GoesOn, QuarterReady, ReadyOn, Took};

use crate::Progress;
use gliding::{Way, Went};
use tables::Tables;

// Takes the bytes of a part that are left while there is room: a step goes on over the bytes at which nothing happens, and what happens at the next is done.
fn take_by<F: Fn(&[u8], Way) -> Went>(
    t: &Tables,
    m: &mut [u8],
    part: &[u8],
    room: &mut [u32],
    step: F,
    from: Progress,
) -> Progress
    requires { (ReadyOn t.now m.old part.now (length room.old / 2) from) × (GoesOn F.Fn step t.now part.now from) }
    ensures { Took t.now part.now (length room.old / 2) m.old room.old from m.new room.new result }
{
    let phrases = t.phrase_count();
    let free = room.len() / 2;
    let mut written = from.written;
    let mut way = from.way;
    while phrases <= free - written {
        let went = step(m, way);
        way = went.way;
        if !went.event {
            return Progress { way, written };
        }
        written = window::happen(t, m, room, written, way.state, way.place);
    }
    Progress { way, written }
}

// The bytes of a part that are left, from where a call has come to.
pub fn take_rest(
    t: &Tables,
    m: &mut [u8],
    part: &[u8],
    room: &mut [u32],
    from: Progress,
) -> Progress
    requires { ReadyOn t.now m.old part.now (length room.old / 2) from }
    ensures { Took t.now part.now (length room.old / 2) m.old room.old from m.new room.new result }
{
    take_by(
        t,
        m,
        part,
        room,
        |memory, way| gliding::glide(t, memory, part, way),
        from,
    )
}

// Takes the bytes of quarter k, with which the part ends, while there is room: their states are known.
pub fn take_quarter(
    t: &Tables,
    m: &mut [u8],
    part: &[u8],
    room: &mut [u32],
    states: &[u16],
    k: usize,
    from: Progress,
) -> Progress
    requires { QuarterReady t.now m.old part.now (length room.old / 2) states.now k from }
    ensures { Took t.now part.now (length room.old / 2) m.old room.old from m.new room.new result }
{
    let first = from.way.taken;
    take_by(
        t,
        m,
        part,
        room,
        |memory, way| skimming::skim(t, memory, part, states, first, k, way),
        from,
    )
}

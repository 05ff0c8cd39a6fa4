// Begin and feed, call by call, held against what is due.
use crate::due::Due;
use crate::lines::{Counts, Spot, add, compare};
use crate::room::{ROOM, UNTOUCHED, compare_reports, compare_rest};
use crate::ways::{Parts, Room, Way};
use scanner::Took;

pub(crate) const TABLES: usize = 49152;

const RUNNING: usize = 10528;

// What the running memory holds before.
const OLD: u8 = 0xAA;

// A letter to feed: the tables of its book, which has so many phrases, and what is due along the letter; by how many numbers the room
// is larger than the least one; and where the letter is cut in two.
#[derive(Clone, Copy)]
pub(crate) struct Case<'a> {
    pub(crate) number: u64,
    pub(crate) phrases: usize,
    pub(crate) tables: &'a [u8],
    pub(crate) letter: &'a [u8],
    pub(crate) due: &'a Due,
    pub(crate) more: usize,
    pub(crate) cut: usize,
}

// A refused call is compared like any other, as one that took more bytes than there are.
const REFUSED: Took = Took {
    taken: 65536,
    reports: 0,
    steps: 0,
};

// None where the call is refused.
fn fed(tables: &[u8], running: &mut [u8], part: &[u8], room: &mut [u32]) -> Option<Took> {
    scanner::feed(tables, running, part, room).ok()
}

fn begun(tables: &[u8], running: &mut [u8]) -> bool {
    scanner::begin(tables, running).is_ok()
}

impl<'a> Case<'a> {
    fn spot(&self, way: Way, after: usize) -> Spot {
        Spot {
            case: self.number,
            way: Some(way),
            after,
        }
    }

    // So many numbers are lent as room: with the least room an odd one at times.
    fn slots(&self, way: Way) -> usize {
        let least = self.phrases.wrapping_add(self.phrases);
        match way.room {
            Room::Least => least.wrapping_add(self.more % 2),
            Room::Larger => least.wrapping_add(self.more),
        }
    }

    // The place that a call reaches: it takes bytes one by one while any remain and the free room is at least the number of phrases.
    fn reached(&self, slots: usize, from: usize, until: usize) -> usize {
        (from..until)
            .find(|place| self.due.reports(from, *place).wrapping_add(self.phrases) > slots / 2)
            .unwrap_or(until)
    }

    // Where the part ends that begins here.
    fn part_end(&self, parts: Parts, from: usize) -> usize {
        let length = self.letter.len();
        match parts {
            Parts::Bytes if from < length => from + 1,
            Parts::Two if from < self.cut => self.cut,
            _ => length,
        }
    }

    // ── One call ──

    fn compare_answer(
        &self,
        rt: &impl Print,
        counts: &mut Counts,
        spot: Spot,
        upto: usize,
        found: Took,
    ) {
        let after = spot.after;
        let place = after.wrapping_add(found.taken) as u64;
        let reports = self.due.reports(after, upto) as u64;
        let steps = self.due.steps(after, upto) as u64;
        compare(rt, counts, spot, "bytes taken up to", upto as u64, place);
        compare(rt, counts, spot, "reports", reports, found.reports as u64);
        compare(rt, counts, spot, "steps", steps, found.steps);
        add(&mut counts.calls, 1);
        add(&mut counts.taken, found.taken as u64);
    }

    // Offers a part of the letter; answers the bytes taken.
    fn call(
        &self,
        rt: &impl Print,
        counts: &mut Counts,
        way: Way,
        running: &mut [u8],
        from: usize,
        until: usize,
    ) -> usize {
        let mut room = [UNTOUCHED; ROOM];
        let slots = self.slots(way);
        let spot = self.spot(way, from);
        let found = self
            .fed_part(running, from, until, &mut room, slots)
            .unwrap_or(REFUSED);
        let upto = self.reached(slots, from, until);
        self.compare_answer(rt, counts, spot, upto, found);
        compare_reports(rt, counts, spot, self.due, &room, upto);
        let first = self.due.reports(from, upto).wrapping_mul(2);
        let rest = room[..].get(first..slots).unwrap_or(&[]);
        compare_rest(rt, counts, spot, rest);
        found.taken
    }

    // A part of the letter, with so much of the room.
    fn fed_part(
        &self,
        running: &mut [u8],
        from: usize,
        until: usize,
        room: &mut [u32],
        slots: usize,
    ) -> Option<Took> {
        let letter = self.letter;
        let part = letter.get(from..until)?;
        let lent = room.get_mut(..slots)?;
        let tables = self.tables;
        fed(tables, running, part, lent)
    }

    // ── One letter ──

    // A part is offered until it is used up, then the next; at last an empty one.
    fn feed_parts(&self, rt: &impl Print, counts: &mut Counts, way: Way, running: &mut [u8]) {
        let length = self.letter.len();
        let mut at = 0;
        while at < length {
            let until = self.part_end(way.parts, at);
            let taken = self.call(rt, counts, way, running, at, until);
            if taken == 0 || taken > length - at {
                return;
            }
            at += taken;
        }
        self.call(rt, counts, way, running, at, at);
    }

    pub(crate) fn feed(&self, rt: &impl Print, counts: &mut Counts, way: Way) {
        let mut running = [OLD; RUNNING];
        let tables = self.tables;
        if !begun(tables, &mut running) {
            compare(rt, counts, self.spot(way, 0), "begin", 0, 1);
            return;
        }
        self.feed_parts(rt, counts, way, &mut running);
    }
}

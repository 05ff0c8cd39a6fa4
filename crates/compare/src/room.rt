// The reports in the room, held against what is due.
use crate::due::Due;
use crate::lines::{Counts, Spot, compare};

// Room for 512 reports, and an odd last element.
pub(crate) const ROOM: usize = 1025;

// What it holds before each call.
pub(crate) const UNTOUCHED: u32 = 4294967295;

fn compare_report(
    rt: &impl Print,
    counts: &mut Counts,
    spot: Spot,
    number: u16,
    place: usize,
    found: [u32; 2],
) {
    let [phrase, at] = found;
    compare(
        rt,
        counts,
        spot,
        "phrase",
        u64::from(number),
        u64::from(phrase),
    );
    compare(rt, counts, spot, "place", place as u64, u64::from(at));
}

// The reports up to a place stand in the room one after the other.
pub(crate) fn compare_reports(
    rt: &impl Print,
    counts: &mut Counts,
    spot: Spot,
    due: &Due,
    room: &[u32; ROOM],
    upto: usize,
) {
    let (pairs, _) = room.as_chunks::<2>();
    let mut found = pairs.iter();
    for (n, place) in due.between(spot.after, upto).iter().enumerate() {
        let at = spot.after.wrapping_add(n).wrapping_add(1);
        for number in place.numbers.iter() {
            let report = found.next().copied().unwrap_or([0, 0]);
            compare_report(rt, counts, spot, *number, at, report);
        }
    }
}

// Room past the reports is unchanged.
pub(crate) fn compare_rest(rt: &impl Print, counts: &mut Counts, spot: Spot, rest: &[u32]) {
    for found in rest {
        compare(
            rt,
            counts,
            spot,
            "room past the reports",
            u64::from(UNTOUCHED),
            u64::from(*found),
        );
    }
}

// The lines that are written, and what is counted.
use crate::ways::Way;
use std::fmt;

// ── Counts ──

// What the books and letters held, and how much was compared.
#[derive(Drop, Default)]
pub(crate) struct Counts {
    pub(crate) cases: u64,
    pub(crate) phrases: u64,
    pub(crate) pieces: u64,
    pub(crate) bytes: u64,
    pub(crate) steps: u64,
    // letters with a report, reports, and those at a place with another
    pub(crate) reported: u64,
    pub(crate) reports: u64,
    pub(crate) shared: u64,
    // reports of several pieces, and behind a far gap
    pub(crate) several: u64,
    pub(crate) far: u64,
    pub(crate) calls: u64,
    pub(crate) taken: u64,
    pub(crate) differences: u64,
}

pub(crate) fn add(count: &mut u64, more: u64) {
    *count = count.wrapping_add(more);
}

// ── Lines ──

// Where something is compared: in which case, in which way, and after how many bytes of the letter; in no way before it is fed.
#[derive(Clone, Copy)]
pub(crate) struct Spot {
    pub(crate) case: u64,
    pub(crate) way: Option<Way>,
    pub(crate) after: usize,
}

impl Spot {
    // Before the letter of a case is fed.
    pub(crate) fn before(case: u64) -> Spot {
        Spot {
            case,
            way: None,
            after: 0,
        }
    }

    // The way's number, and one above all ways for none.
    fn way_number(self) -> u64 {
        match self.way {
            Some(way) => way.number(),
            None => Way::COUNT,
        }
    }
}

impl fmt::Display for Spot {
    fn fmt<W: fmt::Write>(&self, f: &mut fmt::Formatter<W>) -> fmt::Result {
        let case = self.case;
        let way = self.way_number();
        let after = self.after;
        write!(f, "case {case} way {way} after {after}")
    }
}

// Kept, speed: a function of its own, for the few lines that are written; in compare its room for a line is made ready at each of the
// millions of calls.
#[inline(never)]
fn differ(rt: &impl Print, spot: Spot, what: &str, due: u64, found: u64) {
    let _ = println!(rt; "{spot} {what} due {due} found {found}");
}

// A line where two numbers differ.
pub(crate) fn compare(
    rt: &impl Print,
    counts: &mut Counts,
    spot: Spot,
    what: &str,
    due: u64,
    found: u64,
) {
    if due == found {
        return;
    }
    add(&mut counts.differences, 1);
    differ(rt, spot, what, due, found);
}

// ── What was compared ──

fn letters(rt: &impl Print, counts: &Counts) {
    let _ = println!(rt; "phrases: {}", counts.phrases);
    let _ = println!(rt; "pieces: {}", counts.pieces);
    let _ = println!(rt; "bytes of letters: {}", counts.bytes);
    let _ = println!(rt; "failure steps: {}", counts.steps);
}

fn reports(rt: &impl Print, counts: &Counts) {
    let _ = println!(rt; "letters with a report: {}", counts.reported);
    let _ = println!(rt; "reports: {}", counts.reports);
    let _ = println!(rt; "at a place with another: {}", counts.shared);
    let _ = println!(rt; "of several pieces: {}", counts.several);
    let _ = println!(rt; "behind a far gap: {}", counts.far);
}

pub(crate) fn summary(rt: &impl Print, counts: &Counts) {
    letters(rt, counts);
    reports(rt, counts);
    let _ = println!(rt; "calls: {}", counts.calls);
    let _ = println!(rt; "bytes taken: {}", counts.taken);
    let cases = counts.cases;
    let reports = counts.reports;
    let differences = counts.differences;
    let _ = println!(rt;
        "compared {cases} books and letters, {reports} reports, {differences} differences"
    );
}

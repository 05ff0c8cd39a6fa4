// What the second matcher finds due, place by place.
use crate::lines::{Counts, add};
use crate::list::{Book, LETTER, Piece};
use crate::matcher::{AllEnds, Ends, find_ends};
use crate::steps::steps_for;
use arrayvec::ArrayVec;

// The most reports of a place. A letter with more of them at one is not compared, and counts as a difference.
const NUMBERS: usize = 8;

type Numbers = ArrayVec<u16, NUMBERS>;

// What is due at a place: the failure steps of the byte that ends there, and the phrase numbers of the reports.
#[derive(Drop, Default)]
pub(crate) struct Place {
    steps: usize,
    pub(crate) numbers: Numbers,
}

type Places = ArrayVec<Place, LETTER>;

// The places of a letter, from that behind its first byte on.
#[derive(Drop, Default)]
pub(crate) struct Due {
    places: Places,
}

impl Due {
    // The places after one and up to another.
    pub(crate) fn between(&self, from: usize, upto: usize) -> &[Place] {
        self.places.as_slice().get(from..upto).unwrap_or(&[])
    }

    // How many reports these have.
    pub(crate) fn reports(&self, from: usize, upto: usize) -> usize {
        self.between(from, upto)
            .iter()
            .fold(0usize, |sum, place| sum.wrapping_add(place.numbers.len()))
    }

    // Their failure steps.
    pub(crate) fn steps(&self, from: usize, upto: usize) -> usize {
        self.between(from, upto)
            .iter()
            .fold(0usize, |sum, place| sum.wrapping_add(place.steps))
    }
}

// ── Finding it ──

const FAR_LEAST: u16 = 150;

// Counts a report by the phrase's last piece.
fn count_report(counts: &mut Counts, piece: &Piece) {
    if piece.nth > 0 {
        add(&mut counts.several, 1);
    }
    if piece.gap.least >= FAR_LEAST {
        add(&mut counts.far, 1);
    }
}

// A report for each phrase whose last piece ends behind byte n. The phrases stand by their number. None where there is no room for them.
fn reports_at(counts: &mut Counts, book: &Book, ends: &[Ends], n: usize) -> Option<Numbers> {
    let mut numbers = Numbers::new();
    for (piece, places) in book.pieces.iter().zip(ends.iter()) {
        let ended = places.as_slice().get(n).copied().unwrap_or(false);
        if piece.last && ended {
            numbers.try_push(piece.number).ok()?;
            count_report(counts, piece);
        }
    }
    if numbers.len() > 1 {
        add(&mut counts.shared, numbers.len() as u64);
    }
    Some(numbers)
}

fn find_places(counts: &mut Counts, book: &Book, letter: &[u8], places: &mut Places) -> Option<()> {
    let pieces = book.pieces.as_slice();
    let mut ends = AllEnds::new();
    find_ends(pieces, letter, &mut ends)?;
    for n in 0..letter.len() {
        let steps = steps_for(pieces, &letter[..n], &letter[..=n]);
        let numbers = reports_at(counts, book, ends.as_slice(), n)?;
        places.try_push(Place { steps, numbers }).ok()?;
    }
    Some(())
}

// None where there is no room for it.
pub(crate) fn find_due(
    counts: &mut Counts,
    book: &Book,
    letter: &[u8],
    due: &mut Due,
) -> Option<()> {
    find_places(counts, book, letter, &mut due.places)?;
    let reports = due.reports(0, letter.len());
    add(&mut counts.reports, reports as u64);
    if reports > 0 {
        add(&mut counts.reported, 1);
    }
    add(&mut counts.steps, due.steps(0, letter.len()) as u64);
    Some(())
}

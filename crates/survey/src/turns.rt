// What one record of the book leaves in the table memory and among the keywords.
ghost use Rattle.std.specs.Prelude.{◌≡◌, List, ◌<◌, length};
ghost use Rattle.tables.specs.Reads.{Whole};
ghost use Rattle.survey.specs.declared.stretch.Stretch.{Stretch};
ghost use Rattle.survey.specs.Turns.{noted, reading, gap_at, phrase_turn, keyword_turn, turn_at};

use crate::entries::{Entry, delay_of, ends_of, put_phrase, put_piece, span_of};
use crate::progress::Progress;
use crate::stretch::{KEYWORDS, Stretch};
use counters::{Number, Rank};
use records::{Cursor, Record, read};
use tables::layout::{NEVER_CLOSES, ROOM_FOR_PHRASES};

// Does a gap begin at an offset? Then a further piece of the phrase follows.
fn gap_at(book: &[u8], at: usize) -> bool
    ensures { result ≡ gap_at book.now at }
{
    let Ok(found) = read(book, Cursor { at }) else {
        return false;
    };
    matches!(found.says, Record::Bounded { .. } | Record::Open { .. })
}

// Kept, no plainer: with `struct Filled<'a> { bytes: &'a mut [u8] }` each method would need one clause more: that the borrow keeps its ghost name.
// Enters a phrase, whose rank is the number of those before it. One that there is no room for is passed over.
fn phrase(t: &mut [u8], progress: Progress, number: Number, rights: u8, next: usize) -> Progress
    requires { Whole t.old }
    ensures { (words : List Stretch) → reading result (noted t.new words) ≡ phrase_turn number rights next (reading progress (noted t.old words)) }
{
    let j = progress.phrases;
    if ROOM_FOR_PHRASES <= j {
        return progress.moved(next);
    }
    let rank = Rank::of(j as u8);
    put_phrase(t, rank, number, rights);
    progress.named(rank, next)
}

// Enters the piece that a keyword ends, and notes where the keyword stands. One that there is no room for is passed over.
fn keyword(
    book: &[u8],
    t: &mut [u8],
    words: &mut [Stretch; KEYWORDS],
    progress: Progress,
    word: Stretch,
    next: usize,
) -> Progress
    requires { Whole t.old }
    ensures { reading result (noted t.new words.new) ≡ keyword_turn book.now word next (reading progress (noted t.old words.old)) }
{
    let p = progress.pieces;
    if KEYWORDS <= p {
        return progress.moved(next);
    }
    words[p] = word;
    let entry = Entry {
        delay: delay_of(progress.least, word.count),
        span: progress.span,
        rank: progress.rank,
        ends: ends_of(!gap_at(book, next), progress.first),
    };
    put_piece(t, p, entry);
    progress.worded(next)
}

// Reads the record at which the progress stands and enters what it says. Where there is none, the survey ends.
pub fn turn(
    book: &[u8],
    t: &mut [u8],
    words: &mut [Stretch; KEYWORDS],
    progress: Progress,
) -> Progress
    requires whole { Whole t.old }
    requires book_len_bound { length book.now < 65536 }
    ensures { reading result (noted t.new words.new) ≡ turn_at book.now (reading progress (noted t.old words.old)) }
{
    let Ok(found) = read(book, Cursor { at: progress.at }) else {
        return progress.moved(book.len());
    };
    let next = found.next.at;
    match found.says {
        Record::Phrase { number, rights } => phrase(t, progress, number, rights, next),
        Record::Bounded { least, most } => progress.gapped(least, span_of(least, most), next),
        Record::Open { least } => progress.gapped(least, NEVER_CLOSES, next),
        Record::Keyword { start, length } => {
            let word = Stretch {
                offset: start as u16,
                count: length as u8,
            };
            keyword(book, t, words, progress, word, next)
        }
        _ => progress.moved(next),
    }
}

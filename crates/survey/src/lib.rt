// The second reading of a phrase book: enters its phrases and pieces into the table memory, and notes where its keywords stand.
// It is made for a book that was judged sound, and is safe and ends for any bytes.
#![tactic(auto)]

ghost use Rattle.std.specs.Prelude.{◌<◌, length};
ghost use Rattle.tables.specs.Reads.{Whole};
ghost use Rattle.survey.specs.Turns.{noted};
ghost use Rattle.survey.specs.Survey.{SurveyExact};

use progress::Progress;
use turns::turn;

mod entries;
mod mark;
mod progress;
mod stretch;
mod turns;

pub use mark::mark_of;
pub use stretch::{KEYWORDS, Stretch};

// How many phrases and pieces were entered.
#[derive(Clone, Copy)]
pub struct Surveyed {
    pub phrases: usize,
    pub pieces: usize,
}

// Kept, no plainer: with `struct Filled<'a> { bytes: &'a mut [u8] }` each method would need one clause more: that the borrow keeps its ghost name.
// Reads the book record by record. Afterwards the keyword of piece p is the stretch `words[p]` of the book. The links of the pieces
// are left as they are.
pub fn survey(book: &[u8], t: &mut [u8], words: &mut [Stretch; KEYWORDS]) -> Surveyed
    requires whole { Whole t.old }
    requires book_len_bound { length book.now < 65536 }
    ensures { SurveyExact book.now (noted t.old words.old) result (noted t.new words.new) }
{
    let mut progress = Progress::start();
    while progress.at < book.len() {
        progress = turn(book, t, words, progress);
    }
    Surveyed {
        phrases: progress.phrases,
        pieces: progress.pieces,
    }
}

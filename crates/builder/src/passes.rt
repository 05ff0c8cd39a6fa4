// The passes that fill the tables of an accepted book, each over what the one before it leaves.
ghost use Rattle.std.specs.Prelude.{◌≡◌, ◌≤◌};
ghost use Rattle.meaning.specs.Books.{Book};
ghost use Rattle.tables.specs.Layout.{room_for_states};
ghost use Rattle.tables.specs.Reads.{Whole};
ghost use Rattle.survey.specs.Turns.{noted};
ghost use Rattle.builder.specs.Passes.{Fresh, Readied, StatesExact, rows_by, tables_from};

use crate::header::put_header;
use filling::{Keywords, number_states};
use linking::{keyword_states, link_failures};
use survey::{KEYWORDS, Stretch, mark_of, survey};
use tables::Tables;

// Kept, no plainer: with `struct Filled<'a> { bytes: &'a mut [u8] }` each method would need one clause more: that the borrow keeps its ghost name.
// The states of the keywords get their numbers, their failures, and the pieces that end in them. Answers how many states there are.
fn fill_states(t: &mut [u8], keywords: Keywords) -> usize
    requires { (sound : Book) × Readied sound keywords.book.now (noted t.old keywords.words.now) }
    ensures { StatesExact keywords.entry.book.now (noted t.old keywords.entry.words.now) result t.new }
{
    let states = number_states(t, keywords);
    link_failures(t, states);
    let at = keyword_states(&Tables::of(t), states, keywords);
    endings::fill(t, &at, states, keywords.words.len());
    states
}

// Where the states are, the bytes get their columns, the first states their rows, and all states their depths.
fn fill_rows(t: &mut [u8], states: usize)
    requires { (Whole t.old) × (1 ≤ states) × (states ≤ room_for_states) }
    ensures { t.new ≡ rows_by states t.old }
{
    let dense = columns::fill(t, states);
    cells::fill(t, states, dense);
    depths::fill(t, states);
}

// Fills cleared memory with the tables of an accepted book: its pieces and phrases from a second reading, then its states and their rows.
pub fn fill(book: &[u8], t: &mut [u8])
    requires { (sound : Book) × Fresh sound book.now t.old }
    ensures { t.new ≡ tables_from book.now t.old }
{
    let mut words = [Stretch::NOWHERE; KEYWORDS];
    let surveyed = survey(book, t, &mut words);
    let keywords = Keywords {
        book,
        words: &words[..surveyed.pieces],
    };
    let states = fill_states(t, keywords);
    fill_rows(t, states);
    put_header(t, states, surveyed.pieces, surveyed.phrases, mark_of(book));
}

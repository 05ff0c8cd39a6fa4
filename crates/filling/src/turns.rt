// The states get their numbers, by length and then by bytes: each has its turn, and in it its children get the next numbers.
ghost use Rattle.std.specs.Prelude.{◌≡◌, ◌+◌, ◌≤◌, ◌<◌, length, get_or, IsSome};
ghost use Rattle.format.specs.Limits.{longest_keyword, most_prefixes};
ghost use Rattle.format.specs.Prefixes.{prefix_count};
ghost use Rattle.numbering.specs.States.{byte_values};
ghost use Rattle.tables.specs.Layout.{room_for_states};
ghost use Rattle.tables.specs.Reads.{Whole};
ghost use Rattle.filling.specs.Keywords.{keywords_in};
ghost use Rattle.filling.specs.Turns.{progress, root, stretch_of, state_stretch, with_child, with_children, with_turn, numbered, closed};

use crate::keywords::Keywords;
use crate::onward::{BYTES, onward_from};
use survey::Stretch;
use tables::layout::{CHILD, LABEL, ROOM_FOR_STATES};

// Where the bytes of a state stand: they are the first so many of a keyword.
#[derive(Clone, Copy)]
pub struct Start {
    pub keyword: u8,
    pub count: u8,
}

impl Start {
    // The root has no bytes, of whatever keyword.
    const ROOT: Start = Start {
        keyword: 0,
        count: 0,
    };

    // The stretch of the book.
    fn stretch(self, words: &[Stretch]) -> Stretch
        ensures { result ≡ stretch_of words.now self }
    {
        let offset = match words.get(usize::from(self.keyword)) {
            Some(keyword) => keyword.offset,
            None => 0,
        };
        Stretch {
            offset,
            count: self.count,
        }
    }
}

// The states that have a number: where their bytes stand, and how many they are.
#[derive(Drop)]
struct Numbering {
    starts: [Start; ROOM_FOR_STATES],
    states: usize,
}

// Kept, no plainer: with `struct Filled<'a> { bytes: &'a mut [u8] }` each method would need one clause more: that the borrow keeps its ghost name.
// The child by a byte, of so many bytes, gets the next number, if a keyword is noted of the byte.
fn number_child(t: &mut [u8], numbering: &mut Numbering, count: u8, byte: usize, noted: Option<u8>)
    requires whole { Whole t.old }
    requires byte_lt_byte_values { byte < byte_values }
    requires states_lt_room_for_states { IsSome noted → numbering.old.states < room_for_states }
    ensures { progress t.new numbering.new.starts numbering.new.states ≡ with_child count byte noted (progress t.old numbering.old.starts numbering.old.states) }
{
    let Some(keyword) = noted else {
        return;
    };
    t[LABEL + numbering.states] = byte as u8;
    numbering.starts[numbering.states] = Start { keyword, count };
    numbering.states += 1;
}

// The children of a state get the next numbers, in the order of the bytes by which keywords go on from it.
fn number_children(t: &mut [u8], numbering: &mut Numbering, count: u8, onward: &[Option<u8>; BYTES])
    requires whole { Whole t.old }
    requires states_bound { (with_children count onward.now byte_values (progress t.old numbering.old.starts numbering.old.states)).states ≤ room_for_states }
    ensures { progress t.new numbering.new.starts numbering.new.states ≡ with_children count onward.now byte_values (progress t.old numbering.old.starts numbering.old.states) }
{
    for (byte, noted) in onward.iter().enumerate() {
        number_child(t, numbering, count, byte, *noted);
    }
}

// The turn of a state: its first child has the next number, and its children get their numbers.
fn take_turn(t: &mut [u8], keywords: Keywords, numbering: &mut Numbering, turn: usize)
    requires whole { Whole t.old }
    requires turn_lt_states { (turn < numbering.old.states) × (numbering.old.states ≤ room_for_states) }
    requires state_inside { (state_stretch keywords.words.now (progress t.old numbering.old.starts numbering.old.states) turn).offset + (get_or numbering.old.starts turn root).count ≤ length keywords.book.now }
    requires state_bound { (get_or numbering.old.starts turn root).count ≤ longest_keyword }
    requires states_bound { (with_turn keywords.book.now keywords.words.now turn (progress t.old numbering.old.starts numbering.old.states)).states ≤ room_for_states }
    ensures { progress t.new numbering.new.starts numbering.new.states ≡ with_turn keywords.entry.book.now keywords.entry.words.now turn (progress t.old numbering.old.starts numbering.old.states) }
{
    lent::put2(t, CHILD + 2 * turn, numbering.states as u16);
    let state = numbering.starts[turn].stretch(keywords.words);
    let onward = onward_from(keywords, state);
    number_children(t, numbering, state.count + 1, &onward);
}

// Gives the states of the keywords their numbers: the tables get the label and the first child of each. Answers how many there are.
pub fn number_states(t: &mut [u8], keywords: Keywords) -> usize
    requires whole { Whole t.old }
    requires keywords_bound { prefix_count (keywords_in keywords.book.now keywords.words.now) ≤ most_prefixes }
    ensures value { result ≡ (numbered keywords.entry.book.now keywords.entry.words.now t.old).states }
    ensures t_after { t.new ≡ closed (numbered keywords.entry.book.now keywords.entry.words.now t.old) }
{
    let mut numbering = Numbering {
        starts: [Start::ROOT; ROOM_FOR_STATES],
        states: 1,
    };
    for turn in 0..ROOM_FOR_STATES {
        if numbering.states <= turn {
            break;
        }
        take_turn(t, keywords, &mut numbering, turn);
    }
    let states = numbering.states;
    lent::put2(t, CHILD + 2 * states, states as u16);
    states
}

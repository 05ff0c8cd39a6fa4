// Fills in which column each byte has: the bytes that occur in keywords have one each, in their order, and all others share the first.
#![tactic(auto)]

ghost use Rattle.std.specs.Prelude.{◌≡◌, ◌+◌, ◌*◌, ◌≤◌, ◌<◌};
ghost use Rattle.tables.specs.Layout.{column_at, room_for_states};
ghost use Rattle.tables.specs.Reads.{Whole};
ghost use Rattle.columns.specs.Columns.{next_class, with_class, classed, most_rows, with_column, with_columns, dense_for, columned};

use tables::{Tables, layout};

// How many numbers two bytes can hold.
const PAIR: usize = 65536;

// Where the entry of a byte stands.
fn entry(byte: u8) -> usize
    ensures { result ≡ column_at + 2 * byte }
{
    layout::COLUMN + 2 * usize::from(byte)
}

// Kept, no plainer: with `struct Filled<'a> { bytes: &'a mut [u8] }` each method would need one clause more: that the borrow keeps its ghost name.
// Notes the class of a byte in its entry: the next one where some state has the byte as its label, and else 0. Answers which class is next.
fn put_class(t: &mut [u8], states: usize, next: usize, byte: u8) -> usize
    requires { (Whole t.old) × (states ≤ room_for_states) × (next ≤ 256) }
    ensures value { (result ≡ next_class t.old states next byte) × (t.new ≡ with_class t.old states next byte) }
    ensures lower_bound { (next ≤ result) × (result ≤ next + 1) }
{
    let (class, after) = match stepping::labelled(&Tables::of(t), byte, 1..states) {
        Some(_) => (next, next + 1),
        None => (0, next),
    };
    lent::put2(t, entry(byte), class as u16);
    after
}

// Notes the class of each byte. Answers how many classes there are.
fn put_classes(t: &mut [u8], states: usize) -> usize
    requires { (Whole t.old) × (states ≤ room_for_states) }
    ensures value { (result ≡ (classed t.old states 256).next) × (t.new ≡ (classed t.old states 256).tables) }
    ensures lower_bound { 1 ≤ result }
{
    let mut next = 1;
    for byte in 0..=255u8 {
        next = put_class(t, states, next, byte);
    }
    next
}

// How many states have a row: all, or as many as there is room for with so many classes.
fn most_rows(states: usize, classes: usize) -> usize
    requires { 1 ≤ classes }
    ensures value { result ≡ most_rows states classes }
    ensures upper_bound { result ≤ states }
{
    states.min(layout::ROOM_FOR_CELLS / classes)
}

// Writes where the column of a byte begins over the class that was noted there. In the tables of a book that is a place of the memory,
// and two bytes can say it.
fn put_column(t: &mut [u8], dense: usize, byte: u8)
    requires { (Whole t.old) × (dense ≤ room_for_states) }
    ensures { t.new ≡ with_column t.old dense byte }
{
    let class = Tables::of(t).column(byte);
    let column = layout::ROWS + 2 * (dense * class);
    lent::put2(t, entry(byte), (column % PAIR) as u16);
}

fn put_columns(t: &mut [u8], dense: usize)
    requires { (Whole t.old) × (dense ≤ room_for_states) }
    ensures { t.new ≡ with_columns t.old dense 256 }
{
    for byte in 0..=255u8 {
        put_column(t, dense, byte);
    }
}

// Fills in the columns, from the labels of the states. Answers how many states have a row.
pub fn fill(t: &mut [u8], states: usize) -> usize
    requires { (Whole t.old) × (states ≤ room_for_states) }
    ensures value { (result ≡ dense_for t.old states) × (t.new ≡ columned t.old states) }
    ensures upper_bound { result ≤ states }
{
    let classes = put_classes(t, states);
    let dense = most_rows(states, classes);
    lent::put2(t, layout::DENSE, dense as u16);
    put_columns(t, dense);
    dense
}

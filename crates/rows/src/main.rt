// Runs rows A to M of document 01 through build, begin and feed, and writes a line for each way to feed the letter: whole, cut
// at every place, byte by byte, and with the least room. Each line has the reports, as (phrase, place), and the failure steps. The
// last line is that of a refused build.
#![tactic(auto)]

ghost use Rattle.std.specs.Prelude.{◌<◌, length, IfSome};

mod refused;

use refused::refused_build;
use scanner::FeedError;
use sheet::Sheet;

type Book = Sheet<256>;

const TABLES: usize = 49152;

const RUNNING: usize = 10528;

// The most reports of one call here, and the room for them.
const REPORTS: usize = 32;

const ROOM: usize = 2 * REPORTS;

// ── Calls ──

// What one call took, and its steps.
#[derive(Clone, Copy, Default)]
struct Took {
    taken: usize,
    steps: u64,
}

// The first so many reports in the room.
fn show(rt: &impl Print, room: &[u32; ROOM], reports: usize) {
    let (pairs, _) = room.as_chunks::<2>();
    for [phrase, place] in pairs.iter().take(reports) {
        let _ = print!(rt; " ({phrase},{place})");
    }
}

// What an answer says, with the reports that the room holds; none where the call was refused.
fn said(
    rt: &impl Print,
    answer: Result<scanner::Took, FeedError>,
    room: &[u32; ROOM],
) -> Option<Took> {
    match answer {
        Ok(took) => {
            show(rt, room, took.reports);
            Some(Took {
                taken: took.taken,
                steps: took.steps,
            })
        }
        Err(FeedError::NoRoom) => {
            let _ = print!(rt; " refused with 10");
            None
        }
        Err(_) => None,
    }
}

// What is left behind the bytes that a call took; nothing where it took none.
fn behind(rest: &[u8], taken: usize) -> Option<&[u8]>
    ensures { IfSome result (λ more. length more.now < length rest.now) }
{
    if taken == 0 {
        return None;
    }
    rest.get(taken..)
}

// A letter's run over the tables of a book. It is made where it stays: moving it would copy its memory.
#[derive(Drop)]
struct Run<'a> {
    tables: &'a [u8],
    running: [u8; RUNNING],
}

impl<'a> Run<'a> {
    // Begins; false where that is refused.
    fn begin(&mut self) -> bool {
        let tables = self.tables;
        scanner::begin(tables, &mut self.running).is_ok()
    }

    // One call, with room for so many reports.
    fn call(&mut self, rt: &impl Print, part: &[u8], reports: usize) -> Option<Took> {
        let mut room = [0u32; ROOM];
        let slots = reports.saturating_mul(2);
        let Some(lent) = room.get_mut(..slots) else {
            return None;
        };
        let tables = self.tables;
        let answer = scanner::feed(tables, &mut self.running, part, lent);
        said(rt, answer, &room)
    }

    // The part, in as many calls as it takes; answers the failure steps.
    fn use_up(&mut self, rt: &impl Print, part: &[u8], reports: usize) -> u64 {
        let mut rest = part;
        let mut steps = 0u64;
        while !rest.is_empty() {
            let Some(took) = self.call(rt, rest, reports) else {
                return steps;
            };
            steps = steps.wrapping_add(took.steps);
            let Some(more) = behind(rest, took.taken) else {
                return steps;
            };
            rest = more;
        }
        steps
    }

    // The letter, in as many calls as it takes, each on a line of its own.
    fn call_by_call(&mut self, rt: &impl Print, letter: &[u8], reports: usize) {
        let mut rest = letter;
        while !rest.is_empty() {
            let _ = print!(rt; "L with room for {reports}:");
            let took = self.call(rt, rest, reports).unwrap_or_default();
            let taken = took.taken;
            let steps = took.steps;
            let _ = println!(rt; " took {taken} steps {steps}");
            let Some(more) = behind(rest, taken) else {
                return;
            };
            rest = more;
        }
    }
}

// ── Ways to feed a letter ──

fn whole(rt: &impl Print, tables: &[u8], letter: &[u8], reports: usize) {
    let mut run = Run {
        tables,
        running: [0u8; RUNNING],
    };
    if !run.begin() {
        return;
    }
    let steps = run.use_up(rt, letter, reports);
    let _ = println!(rt; " steps {steps}");
}

// The letter in these parts.
fn in_parts(rt: &impl Print, tables: &[u8], first: &[u8], second: &[u8]) {
    let mut run = Run {
        tables,
        running: [0u8; RUNNING],
    };
    if !run.begin() {
        return;
    }
    let before = run.use_up(rt, first, REPORTS);
    let steps = before.wrapping_add(run.use_up(rt, second, REPORTS));
    let _ = println!(rt; " steps {steps}");
}

fn by_bytes(rt: &impl Print, tables: &[u8], letter: &[u8]) {
    let mut run = Run {
        tables,
        running: [0u8; RUNNING],
    };
    if !run.begin() {
        return;
    }
    let mut steps = 0u64;
    for byte in letter.chunks(1) {
        steps = steps.wrapping_add(run.use_up(rt, byte, REPORTS));
    }
    let _ = println!(rt; " steps {steps}");
}

fn cuts(rt: &impl Print, row: &str, tables: &[u8], letter: &[u8]) {
    for at in 0..letter.len() {
        let _ = print!(rt; "{row} cut at {at}:");
        in_parts(rt, tables, &letter[..at], &letter[at..]);
    }
}

// Every way, for a book of so many phrases.
fn ways(rt: &impl Print, row: &str, tables: &[u8], letter: &[u8], phrases: usize) {
    let _ = print!(rt; "{row} whole:");
    whole(rt, tables, letter, REPORTS);
    let _ = print!(rt; "{row} with the least room:");
    whole(rt, tables, letter, phrases);
    let _ = print!(rt; "{row} byte by byte:");
    by_bytes(rt, tables, letter);
    cuts(rt, row, tables, letter);
}

// ── The books ──

fn built(book: &[u8], tables: &mut [u8]) -> bool {
    builder::build(book, tables).is_ok()
}

// Builds the book of so many phrases that is written on an empty sheet; false where it is refused.
fn built_of<W: FnOnce(&mut Book)>(tables: &mut [u8], phrases: u16, write: W) -> bool
    requires { W.IsAlwaysCallable write }
{
    let mut book = Book::new();
    book.header(1);
    write(&mut book);
    book.end(phrases);
    built(book.as_slice(), tables)
}

// Every way, for such a book.
fn listed<W: FnOnce(&mut Book)>(rt: &impl Print, row: &str, letter: &[u8], phrases: u16, write: W)
    requires { W.IsAlwaysCallable write }
{
    let mut tables = [0u8; TABLES];
    if !built_of(&mut tables, phrases, write) {
        return;
    }
    ways(rt, row, &tables, letter, usize::from(phrases));
}

// A phrase of one keyword, anywhere.
fn phrase(book: &mut Book, number: u16, keyword: &[u8]) {
    book.phrase(number, 1);
    book.open(0);
    book.keyword(keyword);
}

// A phrase of two keywords with a bounded gap between them.
fn pair(book: &mut Book, number: u16, first: &[u8], least: u16, most: u16, second: &[u8]) {
    phrase(book, number, first);
    book.bounded(least, most);
    book.keyword(second);
}

// Row A's phrase: at the very start.
fn at_start(rt: &impl Print, row: &str, keyword: &[u8], letter: &[u8]) {
    listed(rt, row, letter, 1, |book| {
        book.phrase(1, 1);
        book.bounded(0, 0);
        book.keyword(keyword);
    });
}

fn anywhere(rt: &impl Print, row: &str, keyword: &[u8], letter: &[u8]) {
    listed(rt, row, letter, 1, |book| phrase(book, 1, keyword));
}

fn between(
    rt: &impl Print,
    row: &str,
    first: &[u8],
    least: u16,
    most: u16,
    second: &[u8],
    letter: &[u8],
) {
    listed(rt, row, letter, 1, |book| {
        pair(book, 1, first, least, most, second);
    });
}

// Two keywords with an open gap between them.
fn later(rt: &impl Print, row: &str, first: &[u8], second: &[u8], letter: &[u8]) {
    listed(rt, row, letter, 1, |book| {
        phrase(book, 1, first);
        book.open(0);
        book.keyword(second);
    });
}

// 1 ~aa, 2 ~abaaa, 3 ~abab.
fn three(book: &mut Book) {
    phrase(book, 1, b"aa");
    phrase(book, 2, b"abaaa");
    phrase(book, 3, b"abab");
}

fn of_three(rt: &impl Print, row: &str, letter: &[u8]) {
    listed(rt, row, letter, 3, |book| three(book));
}

// ── The rows ──

// Row L, call by call.
fn in_calls(rt: &impl Print, letter: &[u8], reports: usize) {
    let mut tables = [0u8; TABLES];
    if !built_of(&mut tables, 3, |book| three(book)) {
        return;
    }
    let mut run = Run {
        tables: &tables,
        running: [0u8; RUNNING],
    };
    if !run.begin() {
        return;
    }
    run.call_by_call(rt, letter, reports);
}

// Two letters a, with one or two bytes between them.
fn near(rt: &impl Print, row: &str, letter: &[u8]) {
    between(rt, row, b"a", 1, 2, b"a", letter);
}

// Twice aa, with nothing between them.
fn doubled(rt: &impl Print, row: &str, letter: &[u8]) {
    between(rt, row, b"aa", 0, 0, b"aa", letter);
}

fn rows_c_to_g(rt: &impl Print) {
    near(rt, "C", b"aa");
    near(rt, "D", b"aba");
    near(rt, "E", b"abba");
    near(rt, "F", b"abbba");
    near(rt, "G", b"aaaaa");
}

fn rows_h_to_k(rt: &impl Print) {
    between(rt, "H", b"a", 2, 2, b"b", b"aaxb");
    doubled(rt, "I", b"aaa");
    doubled(rt, "J", b"aaaa");
    later(rt, "K", b"a", b"b", b"aab");
}

fn rows_l_and_m(rt: &impl Print) {
    of_three(rt, "L", b"abaaabab");
    of_three(rt, "M", b"");
    in_calls(rt, b"abaaabab", 3);
    in_calls(rt, b"abaaabab", 2);
}

// What can't be written is left out; what comes after it is written still.
fn main(rt: HostRuntime) {
    at_start(&rt, "A", b"ab", b"abab");
    anywhere(&rt, "B", b"ab", b"abab");
    rows_c_to_g(&rt);
    rows_h_to_k(&rt);
    rows_l_and_m(&rt);
    refused_build(&rt);
}

// The calls of a desk, for programs in C or Rust: every argument is a slice, every answer is made of numbers. A slice comes
// as a pointer and the number of its elements. No call asks anything of what the lent memory holds, and none keeps anything between calls.
#![tactic(auto)]

ghost use Rattle.std.specs.Prelude.{◌≡◌};
ghost use Rattle.tables.specs.Layout.{tables_size};
ghost use Rattle.running.specs.Layout.{running_size};
ghost use Rattle.desk.specs.Answers.{built_given, BuildAnswers, BeginAnswers, fed_given, FeedAnswers};

mod numbers;

pub use numbers::{TsuvrankheBuilt, TsuvrankheFed};

// The published size of table memory, in bytes.
#[unsafe(no_mangle)]
pub extern "C" fn tsuvrankhe_table_size() -> usize
    ensures { result ≡ tables_size }
{
    tables::size()
}

// The published size of running memory, in bytes.
#[unsafe(no_mangle)]
pub extern "C" fn tsuvrankhe_running_size() -> usize
    ensures { result ≡ running_size }
{
    scanner::running_size()
}

// From a phrase book to its tables.
#[unsafe(no_mangle)]
pub extern "C" fn tsuvrankhe_build(book: &[u8], tables: &mut [u8]) -> TsuvrankheBuilt
    ensures { BuildAnswers book.now tables.old (built_given result tables.new) }
{
    TsuvrankheBuilt::from(builder::build(book, tables))
}

// A letter begins.
#[unsafe(no_mangle)]
pub extern "C" fn tsuvrankhe_begin(tables: &[u8], running: &mut [u8]) -> u32
    ensures { BeginAnswers tables.now running.old (record { number = result; memory = running.new }) }
{
    numbers::begun_number(scanner::begin(tables, running))
}

// A letter goes on with a part. The room's length is in numbers of 32 bits, two of which hold a report: the phrase number and the place.
#[unsafe(no_mangle)]
pub extern "C" fn tsuvrankhe_feed(
    tables: &[u8],
    running: &mut [u8],
    part: &[u8],
    room: &mut [u32],
) -> TsuvrankheFed
    ensures { FeedAnswers tables.now running.old part.now room.old (fed_given result running.new room.new) }
{
    TsuvrankheFed::from(scanner::feed(tables, running, part, room))
}

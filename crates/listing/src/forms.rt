// Lines from their forms: a form is the text of a line with a mark for each number that stands in it.
ghost use Rattle.std.specs.Prelude.{◌≡◌, ◌+◌, ◌≤◌, ◌<◌, length, get_or};
ghost use Rattle.lent.specs.Numbers.{with_bytes};
ghost use Rattle.listing.specs.Forms.{shown, next_number, filled};
ghost use Rattle.listing.specs.Lines.{longest_line};
ghost use Rattle.listing.specs.Writing.{left, with_line};

use crate::LONGEST_LINE;
use crate::decimal::write_number;

// The mark of a number.
const MARK: u8 = b'#';

// Writes the line that a form makes, whole or not at all. It is made in an array of its own first: only then is it known whether
// it fits, and the buffer must not show a part of it.
pub(crate) fn put_line(out: &mut [u8], at: usize, form: &[u8], numbers: &[u64]) -> usize
    requires { length (filled form.now numbers.now 0) ≤ longest_line }
    ensures { left out.new result ≡ with_line out.old at (filled form.now numbers.now 0) }
{
    let mut line = [0u8; LONGEST_LINE];
    let end = fill(&mut line, form, numbers);
    put_text(out, at, &line[..end])
}

// Writes a text from `at` on, if it fits there.
fn put_text(out: &mut [u8], at: usize, text: &[u8]) -> usize
    ensures { left out.new result ≡ with_line out.old at text.now }
{
    if out.len() < at {
        return at;
    }
    if out.len() - at < text.len() {
        return at;
    }
    let end = at + text.len();
    out[at..end].copy_from_slice(text);
    end
}

// Makes the line of a form with a number for each mark, and answers how long it is.
fn fill(line: &mut [u8], form: &[u8], numbers: &[u64]) -> usize
    requires { length (filled form.now numbers.now 0) ≤ length line.old }
    ensures value { result ≡ length (filled form.now numbers.now 0) }
    ensures line_after { line.new ≡ with_bytes line.old 0 (filled form.now numbers.now 0) }
{
    let mut end = 0;
    let mut k = 0;
    for &byte in form {
        end = show(line, end, byte, number_at(numbers, k));
        k = next_number(byte, k);
    }
    end
}

// Writes what a byte of a form brings to the line.
fn show(line: &mut [u8], at: usize, byte: u8, number: u64) -> usize
    requires { at + length (shown byte number) ≤ length line.old }
    ensures value { result ≡ at + length (shown byte number) }
    ensures line_after { line.new ≡ with_bytes line.old at (shown byte number) }
{
    if byte == MARK {
        return write_number(line, at, number);
    }
    line[at] = byte;
    at + 1
}

// Which number is next behind a byte of a form.
fn next_number(byte: u8, k: usize) -> usize
    requires { k < 18446744073709551615 }
    ensures { result ≡ next_number byte k }
{
    if byte == MARK {
        return k + 1;
    }
    k
}

// The number at k, and 0 past the last.
fn number_at(numbers: &[u64], k: usize) -> u64
    ensures { result ≡ get_or numbers.now k 0 }
{
    numbers.get(k).copied().unwrap_or(0)
}

// Lines one behind the other at the start of a lent buffer, each as crate `listing` words it: the hit lines of the reports that stand in the
// room, and the last lines. Each function answers where its lines end.
// Kept, no plainer: a writer that held `out` and its end needs, on each function, `self.new.out.ghost_name ≡ self.old.out.ghost_name` beside its lines.
#![tactic(auto)]

ghost use Rattle.std.specs.Prelude.{◌≡◌, ◌≤◌, length};
ghost use Rattle.listing.specs.Writing.{left};
ghost use Rattle.lines.specs.Last.{without_hits, LastPromise, TooLongPromise};

use counters::Place;
use listing::{end_line, letter_line, no_statement};

mod answers;
mod hits;
mod rights;

pub use answers::{BookRefused, Listed, PartRefused};
pub use hits::put_hits;

// Whether a letter had no hits.
fn without_hits(hits: u64) -> bool
    ensures { result ≡ without_hits hits }
{
    hits == 0
}

// The end line, and `no statement` behind it where there were no hits.
pub fn last_lines(out: &mut [u8], taken: Place, hits: u64, steps: u64) -> usize
    ensures last_promise { LastPromise out.old taken.0 hits steps (left out.new result) }
    ensures upper_bound { result ≤ length out.old }
{
    let end = end_line(out, 0, taken, hits, steps);
    if without_hits(hits) {
        return no_statement(out, end);
    }
    end
}

// The line of a letter that is too long, in place of the last lines: the bytes taken before the part that was refused.
pub fn too_long_line(out: &mut [u8], taken: Place) -> usize
    ensures too_long_promise { TooLongPromise out.old taken.0 (left out.new result) }
    ensures upper_bound { result ≤ length out.old }
{
    letter_line(out, 0, taken)
}

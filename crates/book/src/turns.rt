// What a header, a keyword, an end record and the book's end do to what was read before. A record's kind and length were looked at
// already; its other tests stand in document 01's order.
ghost use Rattle.std.specs.Prelude.{◌≡◌, ◌+◌, ◌≤◌, length};
ghost use Rattle.book.specs.Judging.{Small, header_turn, keyword_turn, end_turn, stop_answer};

use crate::answers::Accepted;
use crate::limits::{MOST_PREFIXES, THE_EDITION};
use crate::progress::{Reached, Stage, Tally};
use records::{Refusal, Refused, most_shared};

// A header.
#[tactic(auto, unfolding(crate::specs::Judging::header_turn))]
pub fn header(tally: Tally, edition: u8) -> Result<Reached, Refusal>
    ensures { result ≡ header_turn tally edition }
{
    if edition != THE_EDITION {
        return Err(Refusal::Field);
    }
    Ok(Reached {
        stage: Stage::Headed,
        tally,
    })
}

// A keyword of `count` bytes from `start` on, whose record is at an offset. Prefixes that it shares with an earlier keyword are not
// new. It ends its piece, which is counted here.
#[tactic(auto, unfolding(crate::specs::Judging::keyword_turn, crate::specs::Judging::prefixes_with))]
pub fn keyword(
    book: &[u8],
    mut tally: Tally,
    start: usize,
    count: usize,
    at: usize,
) -> Result<Reached, Refusal>
    requires small { Small tally }
    requires count_in_bounds { start + count ≤ length book.now }
    requires at_in_bounds { at ≤ length book.now }
    ensures { result ≡ keyword_turn book.now tally start count at }
{
    tally.prefixes += count - most_shared(book, at, start, count);
    if MOST_PREFIXES < tally.prefixes {
        return Err(Refusal::Full);
    }
    tally.own += 1;
    tally.pieces += 1;
    Ok(Reached {
        stage: Stage::Worded,
        tally,
    })
}

// An end record. Its number has no range of its own: any wrong one is a wrong total.
#[tactic(auto, unfolding(crate::specs::Judging::end_turn))]
pub fn end(mut tally: Tally, count: u16) -> Result<Reached, Refusal>
    ensures { result ≡ end_turn tally count }
{
    if usize::from(count) != tally.phrases {
        return Err(Refusal::Total);
    }
    tally.own = 0;
    Ok(Reached {
        stage: Stage::Ended,
        tally,
    })
}

// The book stops at an offset.
#[tactic(auto, unfolding(crate::specs::Judging::stop_answer))]
pub fn stop(reached: Reached, at: usize) -> Result<Accepted, Refused>
    ensures { result ≡ stop_answer reached.stage reached.tally at }
{
    if !reached.stage.may_stop() {
        return Err(Refused {
            why: Refusal::Cut,
            at,
        });
    }
    Ok(Accepted {
        length: at,
        phrases: reached.tally.phrases,
    })
}

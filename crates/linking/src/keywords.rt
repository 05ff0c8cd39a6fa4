// The state of a keyword: down from the root, child by child.
ghost use Rattle.std.specs.Prelude.{◌≡◌, ℕ, ◌≤◌, ◌<◌, length, get_or};
ghost use Rattle.tables.specs.Layout.{room_for_states};
ghost use Rattle.linking.specs.Keywords.{state_down, keyword_states};

use counters::State;
use filling::Keywords;
use survey::KEYWORDS;
use tables::Tables;

// The state that some bytes lead to from the root.
pub fn state_of_keyword(t: &Tables, states: usize, keyword: &[u8]) -> State
    requires { (0 < states) × (states ≤ room_for_states) }
    ensures { (result.0 ≡ state_down t.now states keyword.now (length keyword.now)) × (result.0 < states) }
{
    let mut state = State::root();
    for byte in keyword {
        let child = stepping::child_by(t, states, state, *byte);
        state = child.unwrap_or(State::root());
    }
    state
}

// The number of the state of each keyword.
pub fn keyword_states(t: &Tables, states: usize, keywords: Keywords) -> [u16; KEYWORDS]
    requires { (0 < states) × (states ≤ room_for_states) }
    ensures value { result ≡ keyword_states t.now states keywords.entry.book.now keywords.entry.words.now (length keywords.entry.words.now) }
    ensures by_index { (q : ℕ) → get_or result q 0 < states }
{
    let mut found = [0u16; KEYWORDS];
    for (q, word) in keywords.words.iter().enumerate() {
        let state = state_of_keyword(t, states, word.bytes(keywords.book));
        found[q] = state.number();
    }
    found
}

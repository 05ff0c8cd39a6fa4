// What the survey keeps from one record to the next.
ghost use Rattle.std.specs.Prelude.{◌≡◌, ◌<◌};
ghost use Rattle.tables.specs.Layout.{room_for_pieces, room_for_phrases};
ghost use Rattle.survey.specs.Progress.{at_start, moved_to, after_name, after_gap, after_piece};

use counters::Rank;

#[derive(Clone, Copy)]
pub struct Progress {
    // The offset at which the next record begins.
    pub at: usize,
    // The phrases and the pieces that were entered.
    pub phrases: usize,
    pub pieces: usize,
    // The phrase that is being read: its rank, and whether its first piece is still to come.
    pub rank: Rank,
    pub first: bool,
    // The gap that was read last: its least, and how much later than it opens its window closes.
    pub least: u16,
    pub span: u16,
}

impl Progress {
    pub fn start() -> Progress
        ensures { result ≡ at_start }
    {
        Progress {
            at: 0,
            phrases: 0,
            pieces: 0,
            rank: Rank::of(0),
            first: false,
            least: 0,
            span: 0,
        }
    }

    // Goes on at an offset.
    pub fn moved(mut self, at: usize) -> Progress
        ensures { result ≡ moved_to at self }
    {
        self.at = at;
        self
    }

    // The phrase of this rank was entered: its pieces come next.
    pub fn named(mut self, rank: Rank, at: usize) -> Progress
        requires { self.phrases < room_for_phrases }
        ensures { result ≡ after_name rank at self }
    {
        self.at = at;
        self.phrases += 1;
        self.rank = rank;
        self.first = true;
        self
    }

    // A gap was read: its keyword comes next.
    pub fn gapped(mut self, least: u16, span: u16, at: usize) -> Progress
        ensures { result ≡ after_gap least span at self }
    {
        self.at = at;
        self.least = least;
        self.span = span;
        self
    }

    // A piece was entered: the next one of its phrase is not the first.
    pub fn worded(mut self, at: usize) -> Progress
        requires { self.pieces < room_for_pieces }
        ensures { result ≡ after_piece at self }
    {
        self.at = at;
        self.pieces += 1;
        self.first = false;
        self
    }
}

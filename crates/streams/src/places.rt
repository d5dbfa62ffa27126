// Which of a stream's sixteen places holds a number, is free, or is past a limit.
ghost use Rattle.std.specs.Prelude.{◌≡◌};
ghost use Rattle.streams.specs.Places.{holds, within, some_place, place_of, place_between, is_held, in_limits, is_full, place_for};

use crate::state::{LONGEST, PLACES, StreamState};

// Whether a place of that number and length holds `seq`.
#[tactic(auto, unfolding(crate::specs::Places::holds))]
fn holds(number: u16, length: u16, seq: u16) -> bool
    ensures { result ≡ holds number length seq }
{
    length != 0 && number == seq
}

#[tactic(auto, unfolding(crate::specs::Places::within))]
fn within(length: u16, least: u16, most: u16) -> bool
    ensures { result ≡ within length least most }
{
    least <= length && length <= most
}

impl StreamState {
    // The place that holds `seq`.
    pub(crate) fn find_place(self, seq: u16) -> Option<usize>
        ensures { result ≡ some_place (place_of self seq) }
    {
        self.numbers
            .iter()
            .zip(self.lengths.iter())
            .position(|(number, length)| holds(*number, *length, seq))
    }

    // The place that holds `seq`, or 16.
    #[tactic(auto, using(crate::proofs::places::Laws::placed_or), unfolding(crate::specs::Places::place_of))]
    pub fn place_of(self, seq: u16) -> usize
        ensures { result ≡ place_of self seq }
    {
        self.find_place(seq).unwrap_or(PLACES)
    }

    #[tactic(auto, unfolding(crate::specs::Places::is_held), using(crate::proofs::places::Laws::is_placed))]
    pub fn is_held(self, seq: u16) -> bool
        ensures { result ≡ is_held self seq }
    {
        self.find_place(seq).is_some()
    }

    // The first place whose length lies between the two.
    fn place_between(self, least: u16, most: u16) -> Option<usize>
        ensures { result ≡ some_place (place_between self least most) }
    {
        self.lengths
            .iter()
            .position(|length| within(*length, least, most))
    }

    // Whether no length is past LONGEST, as where the state is what the last call left.
    #[tactic(auto, unfolding(crate::specs::Places::in_limits), using(crate::proofs::places::Laws::none_placed))]
    pub fn in_limits(self) -> bool
        ensures { result ≡ in_limits self }
    {
        self.place_between(LONGEST + 1, u16::MAX).is_none()
    }

    // Whether no place is free (document 02, W5: "With 16 held").
    #[tactic(auto, unfolding(crate::specs::Places::is_full), using(crate::proofs::places::Laws::none_placed))]
    pub fn is_full(self) -> bool
        ensures { result ≡ is_full self }
    {
        self.place_between(0, 0).is_none()
    }

    // The place for a message under `seq`: the one that holds it already, else the first free one.
    pub(crate) fn place_for(self, seq: u16) -> Option<usize>
        ensures { result ≡ some_place (place_for self seq) }
    {
        self.find_place(seq).or_else(|| self.place_between(0, 0))
    }
}

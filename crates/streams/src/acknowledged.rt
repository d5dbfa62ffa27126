// What an ACKNACK acknowledges and asks for, and the HEARTBEAT that says what is still held.
ghost use Rattle.std.specs.Prelude.{◌≡◌, ◌<◌};
ghost use Rattle.streams.specs.Acknowledged.{kept_length, drop_before, wanted, repeats_of, acknowledge, further, first_unacked, heartbeat_of};

use crate::sequence::{seq_add, seq_lt, seq_sub};
use crate::state::{PLACES, StreamState};
use codec::submessages::HeartbeatPayload;
use std::array;

// How many messages the bitmap asks for (document 02, W5), and the numbers to repeat, in the order of their bits: the
// first `count` of the sixteen. An array and a count: the type is public, and there is no heap to collect into.
#[derive(Clone, Copy, Debug, PartialEq, Eq)]
pub struct Acknowledged {
    pub state: StreamState,
    pub asked: u32,
    pub repeats: [u16; PLACES],
    pub count: usize,
}

// The length of a place when what comes before `first` is dropped.
#[tactic(auto, unfolding(crate::specs::Acknowledged::kept_length))]
fn kept_length(number: u16, length: u16, first: u16) -> u16
    ensures { result ≡ kept_length number length first }
{
    if seq_lt(number, first) { 0 } else { length }
}

// The greatest forward distance to the next to send, with one more place (document 02, W2): free places have no say.
#[tactic(auto, unfolding(crate::specs::Acknowledged::further))]
fn further(next: u16, best: u16, number: u16, length: u16) -> u16
    ensures { result ≡ further next best number length }
{
    if length == 0 {
        best
    } else {
        best.max(seq_sub(next, number))
    }
}

impl StreamState {
    // The stream without the numbers before the first unacknowledged one.
    pub fn drop_before(self, first_unacked_seq: u16) -> StreamState
        ensures { result ≡ drop_before self first_unacked_seq }
    {
        let lengths = array::from_fn(|i| kept_length(
            self.numbers[i],
            self.lengths[i],
            first_unacked_seq,
        ));
        StreamState { lengths, ..self }
    }

    // Whether a bit is set and its number is held.
    #[tactic(auto, unfolding(crate::specs::Acknowledged::wanted))]
    fn wanted(self, first_unacked_seq: u16, nack_bitmap: u16, bit: u16) -> bool
        requires { bit < 16 }
        ensures { result ≡ wanted self first_unacked_seq nack_bitmap bit }
    {
        (nack_bitmap >> bit) % 2 == 1 && self.is_held(seq_add(first_unacked_seq, bit))
    }

    pub fn list_repeats(self, first_unacked_seq: u16, nack_bitmap: u16) -> Acknowledged
        ensures { result ≡ repeats_of self first_unacked_seq nack_bitmap }
    {
        let mut repeats = [0u16; PLACES];
        let mut count = 0;
        for bit in 0..16u16 {
            if self.wanted(first_unacked_seq, nack_bitmap, bit) {
                repeats[count] = seq_add(first_unacked_seq, bit);
                count += 1;
            }
        }
        Acknowledged {
            state: self,
            asked: nack_bitmap.count_ones(),
            repeats,
            count,
        }
    }

    // Drops what is acknowledged, and lists what of the rest is asked for.
    #[tactic(auto, unfolding(crate::specs::Acknowledged::acknowledge))]
    pub fn process_acknack(self, first_unacked_seq: u16, nack_bitmap: u16) -> Acknowledged
        ensures { result ≡ acknowledge self first_unacked_seq nack_bitmap }
    {
        self.drop_before(first_unacked_seq)
            .list_repeats(first_unacked_seq, nack_bitmap)
    }

    // Numbers are compared by their distances, so that the next to send itself, at distance 0, stands for none held.
    fn first_unacked(self) -> u16
        ensures { result ≡ first_unacked self }
    {
        let next = self.next_send_seq;
        let places = self.numbers.iter().zip(self.lengths.iter());
        let best = places.fold(0, |best, (n, len)| further(next, best, *n, *len));
        seq_sub(next, best)
    }

    #[tactic(auto, unfolding(crate::specs::Acknowledged::heartbeat_of))]
    pub fn make_heartbeat(self) -> HeartbeatPayload
        ensures { result ≡ heartbeat_of self }
    {
        let first = self.first_unacked();
        HeartbeatPayload {
            first_unacked_seq: first,
            last_seq: seq_sub(self.next_send_seq, 1),
        }
    }
}

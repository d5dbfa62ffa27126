// What a stream has received: the number it expects, and the ACKNACK that asks for what is missing.
ghost use Rattle.std.specs.Prelude.{◌≡◌, ◌<◌};
ghost use Rattle.streams.specs.Received.{bit_value, bitmap_of, acknack_of, received_of};

use crate::sequence::{seq_add, seq_lt};
use crate::state::StreamState;
use codec::submessages::AcknackPayload;

// A flag, and no Option: the state is the one to keep either way, the one that was handed in where the number is not accepted.
#[derive(Clone, Copy, Debug, PartialEq, Eq)]
pub struct Received {
    pub accepted: bool,
    pub state: StreamState,
}

// The value of a bit: set unless its number differs from the expected one and comes before `first`.
#[tactic(auto, using(crate::proofs::received::Laws::one_shl), unfolding(crate::specs::Received::bit_value))]
fn bit_value(expected: u16, first: u16, seq: u16, bit: u16) -> u16
    requires { bit < 16 }
    ensures { result ≡ bit_value expected first seq bit }
{
    if seq != expected && seq_lt(seq, first) {
        0
    } else {
        1 << bit
    }
}

// The bits 0 to 15 of an ACKNACK, up to the first number that `last` comes before.
fn missing(expected: u16, first: u16, last: u16) -> u16
    ensures { result ≡ bitmap_of expected first last }
{
    let mut bitmap: u16 = 0;
    for bit in 0..16u16 {
        let seq = seq_add(expected, bit);
        if seq_lt(last, seq) {
            return bitmap;
        }
        bitmap += bit_value(expected, first, seq, bit);
    }
    bitmap
}

impl StreamState {
    // Best effort accepts every number; a reliable stream the expected one alone, and expects the next.
    #[tactic(auto, unfolding(crate::specs::Received::received_of, crate::specs::Received::expecting))]
    pub fn check_recv_seq(self, seq: u16) -> Received
        ensures { result ≡ received_of self seq }
    {
        if self.stream_id == 0 {
            return Received {
                accepted: true,
                state: self,
            };
        }
        if seq != self.next_recv_seq {
            return Received {
                accepted: false,
                state: self,
            };
        }
        let state = StreamState {
            next_recv_seq: seq_add(seq, 1),
            ..self
        };
        Received {
            accepted: true,
            state,
        }
    }

    #[tactic(auto, unfolding(crate::specs::Received::acknack_of))]
    pub fn make_acknack(self, first: u16, last: u16) -> AcknackPayload
        ensures { result ≡ acknack_of self first last }
    {
        let expected = self.next_recv_seq;
        AcknackPayload {
            first_unacked_seq: expected,
            nack_bitmap: missing(expected, first, last),
        }
    }
}

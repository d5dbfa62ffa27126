// What a stream has sent: the next number, and the messages held until they are acknowledged.
ghost use Rattle.std.specs.Prelude.{◌≡◌, ◌<◌, ◌≤◌, length};
ghost use Rattle.streams.specs.Sent.{alloc_of, slot_for, with_message, record_of, record_bytes, held_of, held_bytes};

use crate::sequence::seq_add;
use crate::state::{BUFFER_BYTES, LONGEST, SLOT_BYTES, StreamState};
use codec::bytes::put_bytes;
use codec::refusals::Refusal;

#[derive(Clone, Copy, Debug, PartialEq, Eq)]
pub struct Allocated {
    pub seq: u16,
    pub state: StreamState,
}

// On a refusal the state is the one that was handed in.
#[derive(Clone, Copy, Debug, PartialEq, Eq)]
pub struct Recorded {
    pub slot: Result<Option<usize>, Refusal>,
    pub state: StreamState,
}

impl StreamState {
    #[tactic(auto, unfolding(crate::specs::Sent::alloc_of))]
    pub fn alloc_send_seq(self) -> Allocated
        ensures { result ≡ alloc_of self }
    {
        let seq = self.next_send_seq;
        let state = StreamState {
            next_send_seq: seq_add(seq, 1),
            ..self
        };
        Allocated { seq, state }
    }

    // What `record_sent` answers for a message of `len` bytes and a buffer of `room` bytes.
    #[tactic(auto, unfolding(crate::specs::Sent::slot_for))]
    pub fn slot_for(self, seq: u16, len: usize, room: usize) -> Result<Option<usize>, Refusal>
        ensures { result ≡ slot_for self seq len room }
    {
        if self.stream_id == 0 {
            return Ok(None);
        }
        if room < BUFFER_BYTES {
            return Err(Refusal::OverLimit);
        }
        if !self.in_limits() {
            return Err(Refusal::OverLimit);
        }
        if SLOT_BYTES < len {
            return Err(Refusal::StoreFull);
        }
        let place = self.place_for(seq).ok_or(Refusal::StoreFull)?;
        Ok(Some(place))
    }

    #[tactic(auto, unfolding(crate::specs::Sent::with_message))]
    fn with_message(mut self, place: usize, seq: u16, len: usize) -> StreamState
        requires { (place < 16) × (len ≤ 1024) }
        ensures { result ≡ with_message self place seq len }
    {
        self.numbers[place] = seq;
        self.lengths[place] = (len as u16) + 1;
        self
    }

    // Holds a message that is sent under `seq`, for the case that it must be repeated.
    pub fn record_sent(self, seq: u16, message: &[u8], buffer: &mut [u8]) -> Recorded
        ensures { (result ≡ record_of self seq (length message.now) (length buffer.old))
            × (buffer.new ≡ record_bytes self seq message.now buffer.old) }
    {
        let slot = self.slot_for(seq, message.len(), buffer.len());
        let state = match slot.unwrap_or(None) {
            Some(place) => {
                // A slot has room for it: `slot_for` has refused what is longer.
                let _ = put_bytes(buffer, place * SLOT_BYTES, message);
                self.with_message(place, seq, message.len())
            }
            None => self,
        };
        Recorded { slot, state }
    }

    // Where the message `seq` lies in a buffer of `room` bytes.
    pub fn find_held(self, seq: u16, room: usize) -> Result<Option<(usize, usize)>, Refusal>
        ensures { result ≡ held_of self seq room }
    {
        if room < BUFFER_BYTES {
            return Err(Refusal::OverLimit);
        }
        let Some(place) = self.find_place(seq) else {
            return Ok(None);
        };
        let length = self.lengths[place];
        if LONGEST < length {
            return Err(Refusal::OverLimit);
        }
        Ok(Some((place, usize::from(length) - 1)))
    }

    // The message `seq` as that part of the buffer, or an empty part; `find_held` tells the two apart.
    pub fn held_message<'a>(self, seq: u16, buffer: &'a [u8]) -> &'a [u8]
        ensures { result.now ≡ held_bytes (held_of self seq (length buffer.now)) buffer.now }
    {
        match self.find_held(seq, buffer.len()).unwrap_or(None) {
            Some((place, len)) => {
                let at = place * SLOT_BYTES;
                &buffer[at..at + len]
            }
            None => &[],
        }
    }
}

// The state of one stream, and where its held messages lie.
ghost use Rattle.std.specs.Prelude.{◌≡◌};
ghost use Rattle.streams.specs.State.{stream_kind, new_stream};

// A stream holds up to PLACES messages of up to SLOT_BYTES bytes each, in a lent buffer of at least BUFFER_BYTES.
pub const PLACES: usize = 16;

pub const SLOT_BYTES: usize = 1024;

pub const BUFFER_BYTES: usize = 16384;
// A message of SLOT_BYTES bytes, as `lengths` writes it.
pub const LONGEST: u16 = 1025;

#[derive(Clone, Copy, Debug, PartialEq, Eq)]
pub enum StreamKind {
    BestEffort,
    Reliable,
}

impl StreamKind {
    pub fn from_stream_id(id: u8) -> StreamKind
        ensures { result ≡ stream_kind id }
    {
        match id {
            0 => StreamKind::BestEffort,
            _ => StreamKind::Reliable,
        }
    }
}

// Numbers only, so that a row of numbers can hold one. Of the sixteen places, place i is free where
// lengths[i] is 0; else it holds the message numbers[i], whose lengths[i] - 1 bytes lie from 1,024 * i on in
// the lent buffer. A message is dropped by its length alone: no byte moves.
// Two arrays and not one of pairs: specs/State.antt names both fields, and the rows that the host lends have this layout.
#[derive(Clone, Copy, Debug, PartialEq, Eq)]
pub struct StreamState {
    pub stream_id: u8,
    pub next_send_seq: u16,
    pub next_recv_seq: u16,
    pub numbers: [u16; PLACES],
    pub lengths: [u16; PLACES],
}

impl StreamState {
    pub fn new(stream_id: u8) -> StreamState
        ensures { result ≡ new_stream stream_id }
    {
        StreamState {
            stream_id,
            next_send_seq: 0,
            next_recv_seq: 0,
            numbers: [0; PLACES],
            lengths: [0; PLACES],
        }
    }
}

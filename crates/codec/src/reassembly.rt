// Reassembly: the fragments of one payload, kept in lent slots of one width, with lengths.
// Slot k is the `width` bytes from `k * width` on. `lengths[k]` is 0 while it is free, and 1 more than its body's length while it
// holds one, since a body may have no bytes. So the store's need is its slots and 4 bytes for each.
// Entries and no Options, and slots and lengths beside the buffer: the host lends both (fixed memory, a C interface), and the methods are public.
ghost use Rattle.std.specs.Prelude.{◌≡◌, false, ◌++◌, ◌+◌, ◌*◌, ◌-◌, ◌≤◌, ◌<◌, length, take, drop, get_or, replicate};
ghost use Rattle.codec.specs.Bytes.{put_at};
ghost use Rattle.codec.specs.Cutting.{joined};
ghost use Rattle.codec.specs.Reassembly.{under_need, new_of, new_lengths, grown, insert_check, insert_of, insert_slots, insert_lengths, has_fragment, is_free, is_past, any_of, bytes_held, bodies_held, over_limit, assemble_check, assemble_of, assemble_out};

use crate::bytes::copy_in;
use crate::refusals::Refusal;

#[derive(Clone, Copy, Debug, PartialEq, Eq)]
pub struct ReassemblyBuffer {
    pub total_fragments: u16,
    pub received_count: u16,
    pub width: u16,
}

impl ReassemblyBuffer {
    // An empty store for `total_fragments` bodies of up to `width` bytes, over the lent slots and lengths.
    pub fn new(
        total_fragments: u16,
        width: u16,
        slots: &[u8],
        lengths: &mut [u32],
    ) -> Result<ReassemblyBuffer, Refusal>
        ensures { (result ≡ new_of total_fragments width slots.now lengths.old)
            × (lengths.new ≡ new_lengths total_fragments width slots.now lengths.old) }
    {
        if under_need(total_fragments, width, slots.len(), lengths.len()) {
            return Err(Refusal::OverLimit);
        }
        free_all(lengths, total_fragments);
        Ok(ReassemblyBuffer {
            total_fragments,
            received_count: 0,
            width,
        })
    }

    // Keeps a fragment's body, in place of one of that number: 16, then 10, then 14, and then nothing changes.
    pub fn insert(
        self,
        slots: &mut [u8],
        lengths: &mut [u32],
        fragment_nr: u16,
        body: &[u8],
    ) -> Result<(ReassemblyBuffer, bool), Refusal>
        ensures { (result ≡ insert_of self slots.old lengths.old fragment_nr body.now)
            × ((slots.new ≡ insert_slots self slots.old lengths.old fragment_nr body.now)
            × (lengths.new ≡ insert_lengths self slots.old lengths.old fragment_nr body.now)) }
    {
        let held = entry_at(lengths, fragment_nr);
        self.insert_check(slots.len(), lengths.len(), held, fragment_nr, body.len())?;
        let nr = fragment_nr as usize;
        let start = nr * (self.width as usize);
        copy_in(slots, start, body);
        lengths[nr] = body.len() as u32 + 1;
        let count = grown_count(self.received_count, held);
        let all = count == (self.total_fragments as u32);
        Ok((
            ReassemblyBuffer {
                received_count: count as u16,
                ..self
            },
            all,
        ))
    }

    // The first of 16, 10 and 14 that an insert meets: `held` is the slot's entry, `len` the body's length.
    #[tactic(auto, using(crate::proofs::reassembly::Laws::insert_laws))]
    fn insert_check(
        self,
        slots: usize,
        lengths: usize,
        held: u32,
        fragment_nr: u16,
        len: usize,
    ) -> Result<(), Refusal>
        ensures { result ≡ insert_check self slots lengths held fragment_nr len }
    {
        if under_need(self.total_fragments, self.width, slots, lengths) {
            return Err(Refusal::OverLimit);
        }
        if self.total_fragments < self.received_count {
            return Err(Refusal::OverLimit);
        }
        if self.total_fragments <= fragment_nr {
            return Err(Refusal::FragmentNumber);
        }
        if (self.width as u32) + 1 < held {
            return Err(Refusal::OverLimit);
        }
        if (self.total_fragments as u32) < grown_count(self.received_count, held) {
            return Err(Refusal::OverLimit);
        }
        if (self.width as usize) < len {
            return Err(Refusal::StoreFull);
        }
        Ok(())
    }

    // 16 of a store, as one check: under its need, more fragments received than there are, or a length past the width.
    #[tactic(auto, using(crate::proofs::reassembly::Laws::over_laws))]
    pub fn is_over(self, slots: usize, lengths: &[u32]) -> bool
        ensures { result ≡ over_limit self slots lengths.now }
    {
        if under_need(self.total_fragments, self.width, slots, lengths.len()) {
            return true;
        }
        if self.total_fragments < self.received_count {
            return true;
        }
        any_past(lengths, self.total_fragments, self.width)
    }

    // Whether the fragment of that number is held.
    #[tactic(auto, unfolding(crate::specs::Reassembly::has_fragment))]
    pub fn has_fragment(self, lengths: &[u32], fragment_nr: u16) -> bool
        ensures { result ≡ has_fragment self lengths.now fragment_nr }
    {
        if self.total_fragments <= fragment_nr {
            return false;
        }
        entry_at(lengths, fragment_nr) != 0
    }

    pub fn received_count(self) -> u16
        ensures { result ≡ self.received_count }
    {
        self.received_count
    }

    pub fn total_fragments(self) -> u16
        ensures { result ≡ self.total_fragments }
    {
        self.total_fragments
    }

    // Writes the bodies in order at the start of the output: 16, then 11, then 13, and then no byte changes.
    pub fn assemble(self, slots: &[u8], lengths: &[u32], out: &mut [u8]) -> Result<usize, Refusal>
        ensures { (result ≡ assemble_of self slots.now lengths.now out.old)
            × (out.new ≡ assemble_out self slots.now lengths.now out.old) }
    {
        self.assemble_check(slots.len(), lengths)?;
        let len = bytes_held(lengths, self.total_fragments);
        if out.len() < len {
            return Err(Refusal::OutputTooShort);
        }
        join(slots, lengths, self.total_fragments, self.width, out);
        Ok(len)
    }

    // The first of 16 and 11 that an assembly meets.
    #[tactic(auto, using(crate::proofs::reassembly::Laws::assemble_laws))]
    fn assemble_check(self, slots: usize, lengths: &[u32]) -> Result<(), Refusal>
        ensures { result ≡ assemble_check self slots lengths.now }
    {
        // Not by `is_over`: its answer alone doesn't say that the lengths are there, which `any_free` asks for.
        if under_need(self.total_fragments, self.width, slots, lengths.len()) {
            return Err(Refusal::OverLimit);
        }
        if self.total_fragments < self.received_count {
            return Err(Refusal::OverLimit);
        }
        if any_past(lengths, self.total_fragments, self.width) {
            return Err(Refusal::OverLimit);
        }
        if self.received_count < self.total_fragments {
            return Err(Refusal::MissingFragments);
        }
        if any_free(lengths, self.total_fragments) {
            return Err(Refusal::MissingFragments);
        }
        Ok(())
    }
}

// Whether a lent store is under its need.
#[tactic(auto, unfolding(crate::specs::Reassembly::under_need))]
fn under_need(total: u16, width: u16, slots: usize, lengths: usize) -> bool
    ensures { result ≡ under_need total width slots lengths }
{
    if slots < (total as usize) * (width as usize) {
        return true;
    }
    lengths < (total as usize)
}

// Marks the first `total` slots free.
fn free_all(lengths: &mut [u32], total: u16)
    requires { total ≤ length lengths.old }
    ensures { lengths.new ≡ replicate total 0 ++ drop total lengths.old }
{
    lengths[..total as usize].fill(0);
}

// The entry of a slot, 0 where the lengths end before it.
fn entry_at(lengths: &[u32], fragment_nr: u16) -> u32
    ensures { result ≡ get_or lengths.now fragment_nr 0 }
{
    let nr = fragment_nr as usize;
    if nr < lengths.len() { lengths[nr] } else { 0 }
}

// The count after an insert into a slot with that entry.
#[tactic(auto, unfolding(crate::specs::Reassembly::grown))]
fn grown_count(received: u16, held: u32) -> u32
    ensures { result ≡ grown received held }
{
    if held == 0 {
        (received as u32) + 1
    } else {
        received as u32
    }
}

// Whether one of the first `total` lengths is past the width.
fn any_past(lengths: &[u32], total: u16, width: u16) -> bool
    requires { total ≤ length lengths.now }
    ensures { result ≡ any_of (is_past width) (take total lengths.now) }
{
    let most = (width as u32) + 1;
    lengths[..total as usize].iter().any(|held| most < *held)
}

// Whether one of the first `total` slots is free.
#[tactic(auto, using(crate::proofs::reassembly::Laws::any_same))]
fn any_free(lengths: &[u32], total: u16) -> bool
    requires { total ≤ length lengths.now }
    ensures { result ≡ any_of is_free (take total lengths.now) }
{
    lengths[..total as usize].contains(&0)
}

// How many bytes the first `total` bodies have together.
fn bytes_held(lengths: &[u32], total: u16) -> usize
    requires { (total ≤ length lengths.now) × (any_of is_free (take total lengths.now) ≡ false) }
    ensures { result ≡ bytes_held (take total lengths.now) }
{
    // A `for`, and no `sum`: each step is shown to fit by what the bodies before it have.
    let mut sum: usize = 0;
    for held in &lengths[..total as usize] {
        sum += (*held - 1) as usize;
    }
    sum
}

// Copies the body at `start`, whose slot has the entry `held`, to `at`, and gives the place behind it.
fn copy_slot(slots: &[u8], start: usize, held: u32, out: &mut [u8], at: usize) -> usize
    requires { (0 < held) × ((start + (held - 1) ≤ length slots.now) × (at + (held - 1) ≤ length out.old)) }
    ensures { (result ≡ at + (held - 1)) × (out.new ≡ put_at out.old at (take (held - 1) (drop start slots.now))) }
{
    let len = (held - 1) as usize;
    let end = start + len;
    copy_in(out, at, &slots[start..end]);
    at + len
}

// Copies the first `total` bodies to the start of the output, one behind the other.
fn join(slots: &[u8], lengths: &[u32], total: u16, width: u16, out: &mut [u8])
    requires { (total * width ≤ length slots.now) × ((total ≤ length lengths.now)
        × ((any_of (is_past width) (take total lengths.now) ≡ false) × ((any_of is_free (take total lengths.now) ≡ false)
        × (bytes_held (take total lengths.now) ≤ length out.old)))) }
    ensures { out.new ≡ put_at out.old 0 (joined (bodies_held width slots.now (take total lengths.now))) }
{
    let mut at = 0;
    for (i, held) in lengths[..total as usize].iter().enumerate() {
        at = copy_slot(slots, i * (width as usize), *held, out, at);
    }
}

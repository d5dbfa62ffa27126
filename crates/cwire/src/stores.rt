// A store of fragments for C: its record is three numbers (total, received, width), its slots and lengths are lent with each call.
ghost use Rattle.std.specs.Prelude.{◌≡◌, ◌≤◌, length, OnOk};
ghost use Rattle.codec.specs.Answers.{written_answer};
ghost use Rattle.cwire.specs.Answer.{packed};
ghost use Rattle.cwire.specs.Stores.{store_in, store_put, new_by, new_answer, new_store, new_entries};
ghost use Rattle.cwire.specs.Stores.{insert_by, insert_answer, insert_store, slots_by, lengths_by, assemble_by, out_by};

use crate::answers::answer;
use crate::limits::field;
use codec::reassembly::ReassemblyBuffer;
use codec::refusals::Refusal;

// The store that a record says: 16 where it has under three numbers, or one of them is over 65,535.
#[tactic(auto, unfolding(crate::specs::Stores::store_in, crate::specs::Stores::record_over))]
fn store_in(words: &[u64]) -> Result<ReassemblyBuffer, Refusal>
    ensures says { result ≡ store_in words.now }
    ensures room { OnOk result (3 ≤ length words.now) }
{
    let [total, received, width, ..] = words else {
        return Err(Refusal::OverLimit);
    };
    Ok(ReassemblyBuffer {
        total_fragments: field(*total)?,
        received_count: field(*received)?,
        width: field(*width)?,
    })
}

// The store's numbers at the start of the record.
#[tactic(auto, unfolding(crate::specs::Stores::store_put, codec::specs::Bytes::put_at))]
fn put_store(words: &mut [u64], b: ReassemblyBuffer)
    requires { 3 ≤ length words.old }
    ensures { words.new ≡ store_put words.old b }
{
    words[0] = b.total_fragments.into();
    words[1] = b.received_count.into();
    words[2] = b.width.into();
}

// An empty store in the record; it gives 0.
#[tactic(auto, unfolding(crate::specs::Stores::new_by, crate::specs::Stores::new_entries))]
fn put_new(
    store: &mut [u64],
    total: u16,
    width: u16,
    slots: &[u8],
    lengths: &mut [u32],
) -> Result<usize, Refusal>
    ensures { (packed (written_answer result) ≡ new_answer (new_by store.old total width slots.now lengths.old))
        × ((store.new ≡ new_store store.old (new_by store.old total width slots.now lengths.old))
        × (lengths.new ≡ new_entries store.old total width slots.now lengths.old)) }
{
    if store.len() < 3 {
        return Err(Refusal::OverLimit);
    }
    // No `?`: with it the store's three numbers are read back wider than they were written, and a call takes 14.2 ns and not 7.6.
    match ReassemblyBuffer::new(total, width, slots, lengths) {
        Ok(b) => {
            put_store(store, b);
            Ok(0)
        }
        Err(why) => Err(why),
    }
}

// Keeps a fragment's body; it gives 1 where every fragment is there then, else 0.
fn put_fragment(
    store: &mut [u64],
    slots: &mut [u8],
    lengths: &mut [u32],
    number: u16,
    body: &[u8],
) -> Result<usize, Refusal>
    ensures { (packed (written_answer result) ≡ insert_answer (insert_by (store_in store.old) slots.old lengths.old number body.now))
        × ((store.new ≡ insert_store store.old (insert_by (store_in store.old) slots.old lengths.old number body.now))
        × ((slots.new ≡ slots_by (store_in store.old) slots.old lengths.old number body.now)
        × (lengths.new ≡ lengths_by (store_in store.old) slots.old lengths.old number body.now))) }
{
    // No `?` here: with it a call takes 17.6 ns and not 12.5.
    match store_in(store) {
        Ok(b) => match b.insert(slots, lengths, number, body) {
            Ok((after, all)) => {
                put_store(store, after);
                Ok(usize::from(all))
            }
            Err(why) => Err(why),
        },
        Err(why) => Err(why),
    }
}

// The bodies in order, with the bytes written.
fn assembled(store: &[u64], slots: &[u8], lengths: &[u32], out: &mut [u8]) -> Result<usize, Refusal>
    ensures { (result ≡ assemble_by (store_in store.now) slots.now lengths.now out.old)
        × (out.new ≡ out_by (store_in store.now) slots.now lengths.now out.old) }
{
    store_in(store)?.assemble(slots, lengths, out)
}

// An empty store over the lent slots and lengths.
pub fn xrce_wire_store(
    store: &mut [u64],
    total: u16,
    width: u16,
    slots: &[u8],
    lengths: &mut [u32],
) -> u64
    ensures { (result ≡ new_answer (new_by store.old total width slots.now lengths.old))
        × ((store.new ≡ new_store store.old (new_by store.old total width slots.now lengths.old))
        × (lengths.new ≡ new_entries store.old total width slots.now lengths.old)) }
{
    answer(put_new(store, total, width, slots, lengths))
}

// Keeps a fragment's body, in place of one of that number.
pub fn xrce_wire_insert(
    store: &mut [u64],
    slots: &mut [u8],
    lengths: &mut [u32],
    number: u16,
    body: &[u8],
) -> u64
    ensures { (result ≡ insert_answer (insert_by (store_in store.old) slots.old lengths.old number body.now))
        × ((store.new ≡ insert_store store.old (insert_by (store_in store.old) slots.old lengths.old number body.now))
        × ((slots.new ≡ slots_by (store_in store.old) slots.old lengths.old number body.now)
        × (lengths.new ≡ lengths_by (store_in store.old) slots.old lengths.old number body.now))) }
{
    answer(put_fragment(store, slots, lengths, number, body))
}

// The bodies in order at the start of the output.
pub fn xrce_wire_assemble(store: &[u64], slots: &[u8], lengths: &[u32], out: &mut [u8]) -> u64
    ensures { (result ≡ packed (written_answer (assemble_by (store_in store.now) slots.now lengths.now out.old)))
        × (out.new ≡ out_by (store_in store.now) slots.now lengths.now out.old) }
{
    answer(assembled(store, slots, lengths, out))
}

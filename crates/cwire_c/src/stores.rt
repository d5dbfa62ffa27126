// The exports of cwire's `stores`: each is that function, with its clauses.
ghost use Rattle.std.specs.Prelude.{◌≡◌};
ghost use Rattle.codec.specs.Answers.{written_answer};
ghost use Rattle.cwire.specs.Answer.{packed};
ghost use Rattle.cwire.specs.Stores.{store_in, new_by, new_answer, new_store, new_entries};
ghost use Rattle.cwire.specs.Stores.{insert_by, insert_answer, insert_store, slots_by, lengths_by, assemble_by, out_by};

#[unsafe(no_mangle)]
pub extern "C" fn xrce_wire_store(
    store: &mut [u64],
    total: u16,
    width: u16,
    slots: &[u8],
    lengths: &mut [u32],
) -> u64
    ensures { (result ≡ new_answer (new_by store.old total width slots.now lengths.old))
        × ((store.new ≡ new_store store.old (new_by store.old total width slots.now lengths.old))
        × (lengths.new ≡ new_entries store.old total width slots.now lengths.old)) }
{
    cwire::stores::xrce_wire_store(store, total, width, slots, lengths)
}

#[unsafe(no_mangle)]
pub extern "C" fn xrce_wire_insert(
    store: &mut [u64],
    slots: &mut [u8],
    lengths: &mut [u32],
    number: u16,
    body: &[u8],
) -> u64
    ensures { (result ≡ insert_answer (insert_by (store_in store.old) slots.old lengths.old number body.now))
        × ((store.new ≡ insert_store store.old (insert_by (store_in store.old) slots.old lengths.old number body.now))
        × ((slots.new ≡ slots_by (store_in store.old) slots.old lengths.old number body.now)
        × (lengths.new ≡ lengths_by (store_in store.old) slots.old lengths.old number body.now))) }
{
    cwire::stores::xrce_wire_insert(store, slots, lengths, number, body)
}

#[unsafe(no_mangle)]
pub extern "C" fn xrce_wire_assemble(
    store: &[u64],
    slots: &[u8],
    lengths: &[u32],
    out: &mut [u8],
) -> u64
    ensures { (result ≡ packed (written_answer (assemble_by (store_in store.now) slots.now lengths.now out.old)))
        × (out.new ≡ out_by (store_in store.now) slots.now lengths.now out.old) }
{
    cwire::stores::xrce_wire_assemble(store, slots, lengths, out)
}

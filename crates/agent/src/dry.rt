// 13 is exact: where the output may be too short, the call runs once on an output of its own, which tells what it would
// write, and the records that it may have changed are put back: all sessions', the first stream's of each, the named
// session's streams and objects, the buffer of its stream, its fragments, and the place of rebuilt bytes.
ghost use Rattle.std.specs.Prelude.{◌≡◌, true, [], ◌+◌, ◌-◌, ◌<◌, ◌≤◌, length};
ghost use Rattle.agent.specs.Run.{run_at};
ghost use Rattle.agent.specs.Legs.{entered};
ghost use Rattle.agent.specs.Host.{Prepared, LongEnough, performed};
ghost use Rattle.agent.specs.Dry.{same, stream_spot, copied, restored, kept_in, back_in};
ghost use Rattle.agent.specs.Stores.{stores_of, SamePlaces};

use crate::judge::Start;
use crate::leg::{Mode, lead};
use crate::perform::resume;
use crate::run::run;
use crate::stores::Stores;
use crate::turn::{Frame, Ran};
use codec::submessages::ObjectNumber;
use sessions::fragments::{lengths_stretch, parts_stretch};
use sessions::objects::Object;
use sessions::sending::{Stretch, buffer_stretch};
use sessions::stream_rows::StreamRow;

// Keeps a stretch of a store at the start of a line of its own. By a loop, since the library's copy, of records that it can't tell apart from the
// store's, is `memmove`, and the archive of the C interface asks its host for `memcpy` and `memset` alone.
fn keep<T: Copy>(line: &mut [T], store: &[T], b: Stretch)
    requires { (b.start ≤ b.end) × (b.end ≤ length store.now) × (b.end - b.start ≤ length line.old) }
    ensures { line.new ≡ kept_in line.old store.now b.start (b.end - b.start) }
{
    for i in 0..b.end - b.start {
        line[i] = store[b.start + i];
    }
}

// And puts it back.
fn put_back<T: Copy>(store: &mut [T], line: &[T], b: Stretch)
    requires { (b.start ≤ b.end) × (b.end ≤ length store.old) × (b.end - b.start ≤ length line.now) }
    ensures { store.new ≡ back_in store.old line.now b.start (b.end - b.start) }
{
    for i in 0..b.end - b.start {
        store[b.start + i] = line[i];
    }
}

// The row of the k-th stream that is kept.
fn stream_spot(id: u8, k: usize) -> usize
    requires { k < 264 }
    ensures { (result ≡ stream_spot id k) × (result < 2048) }
{
    if k < 256 {
        return 8 * k;
    }
    8 * usize::from(id) + (k - 256)
}

fn keep_streams(rows: &mut [StreamRow], streams: &[StreamRow], id: u8)
    requires { (264 ≤ length rows.old) × (2048 ≤ length streams.now) }
    ensures { rows.new ≡ copied same [] (stream_spot id) 264 streams.now rows.old }
{
    for k in 0..264 {
        rows[k] = streams[stream_spot(id, k)];
    }
}

fn put_streams_back(streams: &mut [StreamRow], rows: &[StreamRow], id: u8)
    requires { (264 ≤ length rows.now) × (2048 ≤ length streams.old) }
    ensures { streams.new ≡ restored same [] (stream_spot id) 264 rows.now streams.old }
{
    for k in 0..264 {
        streams[stream_spot(id, k)] = rows[k];
    }
}

// The number of bytes that the submessages from a run's place on would write, with the session's fragments and the place of rebuilt bytes
// put back: the session is live, so that its slot is known.
fn dry_run(stores: &mut Stores, d: &[u8], f: Frame, start: Ran) -> usize
    requires room { f.room ≤ 9223372036854775807 }
    requires rebuilt_long { 32768 ≤ length stores.old.rebuilt.now }
    requires entered { entered f (length d.now) start stores.old.sessions.now ≡ true }
    ensures wrote { result ≡ (run_at f d.now start (stores_of stores.old)).ran.wrote }
    ensures stores { stores_of stores.new ≡ record (run_at f d.now start (stores_of stores.old)).tables { parts = stores.old.parts.now; lengths = stores.old.lengths.now; rebuilt = stores.old.rebuilt.now } }
    ensures places { SamePlaces stores.old stores.new }
{
    let bodies_room = stores.parts.len();
    let lengths_room = stores.lengths.len();
    let sessions = &mut *stores.sessions;
    let b = parts_stretch(sessions, bodies_room, f.session_id);
    let l = lengths_stretch(sessions, lengths_room, f.session_id);
    let parts = &mut *stores.parts;
    let mut bodies = [0u8; 32768];
    keep(&mut bodies, parts, b);
    let lengths = &mut *stores.lengths;
    let mut entries = [0u32; 64];
    keep(&mut entries, lengths, l);
    let place = Stretch {
        start: 0,
        end: 32768,
    };
    let rebuilt = &mut *stores.rebuilt;
    let mut bytes = [0u8; 32768];
    keep(&mut bytes, rebuilt, place);
    let mut none = [0u8; 2];
    let ran = run(stores, &mut none, d, f, start);
    put_back(stores.rebuilt, &bytes, place);
    put_back(stores.lengths, &entries, l);
    put_back(stores.parts, &bodies, b);
    ran.wrote
}

// The whole call: the answer's part, what comes before the session is live, and the rest.
fn dry_call(stores: &mut Stores, d: &[u8], sample: &[u8], start: Start) -> usize
    requires prepared { Prepared start sample.now }
    requires rebuilt_long { 32768 ≤ length stores.old.rebuilt.now }
    ensures wrote { result ≡ (performed start (stores_of stores.old) d.now sample.now).ran.wrote }
    ensures stores { stores_of stores.new ≡ record (performed start (stores_of stores.old) d.now sample.now).tables { parts = stores.old.parts.now; lengths = stores.old.lengths.now; rebuilt = stores.old.rebuilt.now } }
    ensures places { SamePlaces stores.old stores.new }
{
    let mut none = [0u8; 2];
    let frame = start.frame;
    let r = resume(stores, &mut none, sample, start);
    let held = &mut *stores.held;
    let l = lead(
        stores.sessions,
        stores.streams,
        stores.objects,
        held,
        &mut none,
        d,
        frame,
        Mode::Entering,
        r,
    );
    dry_run(stores, d, frame, l.ran)
}

// With the sessions' rows put back, the streams' and the objects', and the buffer of the call's stream, which a DATA reply may have joined: every lent
// store is left as it was. It has large copies on its stack: a function of its own, so that no other call pays for them.
#[inline(never)]
pub(crate) fn dry(stores: &mut Stores, d: &[u8], sample: &[u8], start: Start) -> usize
    requires prepared { Prepared start sample.now }
    requires long { LongEnough (stores_of stores.old) }
    ensures wrote { result ≡ (performed start (stores_of stores.old) d.now sample.now).ran.wrote }
    ensures stores { stores_of stores.new ≡ stores_of stores.old }
    ensures places { SamePlaces stores.old stores.new }
{
    let frame = start.frame;
    let id = frame.session_id;
    let room = stores.held.len();
    let sessions = &mut *stores.sessions;
    let streams = &mut *stores.streams;
    let b = buffer_stretch(sessions, streams, room, id, frame.stream_id);
    let slots = Stretch { start: 0, end: 256 };
    let mut session_rows = [[0u64; 8]; 256];
    keep(&mut session_rows, sessions, slots);
    let mut stream_rows = [[0u16; 35]; 264];
    keep_streams(&mut stream_rows, streams, id);
    let first = 32 * usize::from(id);
    let own = Stretch {
        start: first,
        end: first + 32,
    };
    let mut records = [Object::implicit(ObjectNumber(0), 0, 0); 32];
    let objects = &mut *stores.objects;
    keep(&mut records, objects, own);
    let held = &mut *stores.held;
    let mut buffer = [0u8; 32768];
    keep(&mut buffer, held, b);
    let n = dry_call(stores, d, sample, start);
    put_back(stores.sessions, &session_rows, slots);
    put_streams_back(stores.streams, &stream_rows, id);
    put_back(stores.objects, &records, own);
    put_back(stores.held, &buffer, b);
    n
}

//! Events in frames: nine bytes each.
ghost use Rattle.std.specs.Prelude.{◌≡◌, ◌*◌, ◌≤◌, length, take, true};
ghost use Rattle.std.specs.Int.{w32, from_be_bytes};
ghost use Rattle.trace_model.specs.Protocol.Frames.{batch_fault, cells_fault, event_bytes, event_of, events_in, is_event_kind, kind_of, object_of, op_of};

use trace_model::{Event, EventBatch, Fault, Op};

/// Returns the big-endian number in the first four bytes.
pub(crate) fn word(bytes: &[u8]) -> u32
    requires { 4 ≤ length bytes.now }
    ensures { result ≡ from_be_bytes w32 (take 4 bytes.now) }
{
    u32::from_be_bytes([bytes[0], bytes[1], bytes[2], bytes[3]])
}

/// Returns the operation with this kind byte and object.
pub(crate) fn op_of(kind: u8, object: u32) -> Op
    ensures { result ≡ op_of kind object }
{
    match kind {
        1 => Op::Fork(object),
        2 => Op::Join(object),
        3 => Op::Acquire(object),
        4 => Op::Release(object),
        5 => Op::Read(object),
        _ => Op::Write(object),
    }
}

/// Returns the kind byte of an operation.
fn kind_of(op: Op) -> u8
    ensures { result ≡ kind_of op }
{
    match op {
        Op::Fork(_) => 1,
        Op::Join(_) => 2,
        Op::Acquire(_) => 3,
        Op::Release(_) => 4,
        Op::Read(_) => 5,
        Op::Write(_) => 6,
    }
}

/// Returns the object of an operation: the thread, lock or variable that it names.
fn object_of(op: Op) -> u32
    ensures { result ≡ object_of op }
{
    match op {
        Op::Fork(object) => object,
        Op::Join(object) => object,
        Op::Acquire(object) => object,
        Op::Release(object) => object,
        Op::Read(object) => object,
        Op::Write(object) => object,
    }
}

/// Returns the nine bytes of an event: kind, thread, object.
pub(crate) fn event_bytes(event: &Event) -> [u8; 9]
    ensures { result ≡ event_bytes event.now }
{
    let [a, b, c, d] = event.thread.to_be_bytes();
    let [e, f, g, h] = object_of(event.op).to_be_bytes();
    [kind_of(event.op), a, b, c, d, e, f, g, h]
}

/// Returns whether the byte is the kind of an event.
pub(crate) fn is_event_kind(kind: u8) -> bool
    ensures { result ≡ is_event_kind kind }
{
    1 <= kind && kind <= 6
}

/// Returns the fault of `count` events, in the bytes that have arrived.
fn cells_fault(count: usize, cells: &[u8]) -> Option<Fault>
    requires few { count ≤ 65_536 }
    ensures { result ≡ cells_fault count cells.now }
{
    let mut index = 0;
    while index < count {
        let Some(kind) = cells.get(9 * index) else {
            return None;
        };
        if !is_event_kind(*kind) {
            return Some(Fault::BadBatch);
        }
        index += 1;
    }
    None
}

/// Returns the fault of a batch of `count` events, in the bytes that have arrived.
pub(crate) fn batch_fault(count: usize, fields: &[u8]) -> Option<Fault>
    requires few { count ≤ 65_536 }
    ensures { result ≡ batch_fault count fields.now }
{
    let [first, cells @ ..] = fields else {
        return None;
    };
    if usize::from(*first) != count {
        return Some(Fault::BadBatch);
    }
    cells_fault(count, cells)
}

/// Returns the event in the first nine bytes.
fn event_of(cells: &[u8]) -> Event
    requires { 9 ≤ length cells.now }
    ensures { result ≡ event_of cells.now }
{
    Event {
        thread: word(&cells[1..]),
        op: op_of(cells[0], word(&cells[5..])),
    }
}

/// Returns the batch of the `count` events in the first `9 * count` bytes.
pub(crate) fn read_batch(count: usize, cells: &[u8]) -> EventBatch
    requires some { 1 ≤ count }
    requires few { count ≤ 64 }
    requires whole { 9 * count ≤ length cells.now }
    ensures { result ≡ events_in count cells.now }
{
    let mut batch = EventBatch::of(event_of(cells));
    let mut index = 1;
    while index < count {
        batch.push(event_of(&cells[9 * index..]));
        index += 1;
    }
    batch
}

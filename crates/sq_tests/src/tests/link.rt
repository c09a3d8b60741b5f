// Links in one thread and between two.
ghost use Rattle.std.specs.Prelude.{◌≡◌, ◌<◌, [], IfOk};

use super::fixtures::{family, note};
use sq_plan::PartId;
use sq_schema::RowKey;
use sq_shared::{RecvPass, SendPass, SharedLink};
use sq_store::{Chunk, Note};
use std::alloc::Global;
use std::sync::Wait;
use std::test::Fail;
use std::thread;

const CHUNKS: u32 = 1000;

const TRIES: u64 = 50_000_000;

// The chunk of this number, from partition 3 to partition 5, with the family of that root key.
fn chunk(alloc: Global, number: u32) -> Result<Chunk, Fail> {
    let mut families = Vec::new(alloc);
    families.push(family(alloc, number)?)?;
    let lo = u64::from(number);
    let note = Note {
        src: PartId::new(3),
        dst: PartId::new(5),
        lo,
        hi: lo + 1,
        ..note(lo)?
    };
    Ok(Chunk::new(note, families))
}

// Whether it is the chunk of this number, with its family.
fn is_chunk(chunk: &Chunk, number: u32) -> bool {
    let note = chunk.note();
    let [family] = chunk.families() else {
        return false;
    };
    let Some(row) = family.rows().get(RowKey::ROOT) else {
        return false;
    };
    note.number == u64::from(number)
        && note.src.number() == 3
        && note.dst.number() == 5
        && family.root().number() == u64::from(number)
        && row.number() == 7 * i64::from(number)
}

// Whether these are the chunks of the numbers from this one on.
fn are_chunks(chunks: &[Chunk], first: u32) -> bool {
    for (number, chunk) in (first..u32::MAX).zip(chunks) {
        if !is_chunk(chunk, number) {
            return false;
        }
    }
    true
}

// The chunks of the numbers below this one.
fn chunks(alloc: Global, count: u32) -> Result<Vec<Chunk>, Fail> {
    let mut chunks = Vec::new(alloc);
    for number in 0..count {
        chunks.push(chunk(alloc, number)?)?;
    }
    Ok(chunks)
}

// Sends the chunks in order, with at most this many tries, and gives back those that didn't go.
fn send_all<R: Wait>(
    rt: &R,
    link: &SharedLink,
    mut pass: SendPass,
    chunks: Vec<Chunk>,
    tries: u64,
) -> (SendPass, Option<Chunk>)
    requires { pass.queue ≡ link.now.queue }
    ensures { result.0.queue ≡ link.now.queue }
{
    let mut chunks = chunks.into_iter();
    let mut next = chunks.next();
    for _ in 0..tries {
        let Some(chunk) = next else {
            return (pass, None);
        };
        match link.send(rt, &mut pass, chunk) {
            Ok(()) => next = chunks.next(),
            Err(back) => {
                next = Some(back);
                thread::yield_now();
            }
        }
    }
    (pass, next)
}

// Receives as many chunks as the list has room for, if they come.
fn receive_all<R: Wait>(
    rt: &R,
    link: &SharedLink,
    mut pass: RecvPass,
    mut into: Vec<Chunk>,
    tries: u64,
) -> (RecvPass, Vec<Chunk>)
    requires { pass.queue ≡ link.now.queue }
    ensures { result.0.queue ≡ link.now.queue }
{
    for _ in 0..tries {
        if into.len() >= into.capacity() {
            return (pass, into);
        }
        match link.recv(rt, &mut pass) {
            Some(chunk) => into.push_reserved(chunk),
            None => thread::yield_now(),
        }
    }
    (pass, into)
}

// The outcome of one chunk more than a link holds; as many are received as there is room for.
#[derive(Drop)]
struct Carried {
    // The chunk that found no place.
    unsent: Option<Chunk>,
    received: Vec<Chunk>,
    // The chunks that were left when the link was closed.
    left: Vec<Chunk>,
}

// Sends one chunk more than a link holds, and then receives.
fn carry<R: Wait>(rt: &R, alloc: Global, capacity: u32, room: u32) -> Result<Carried, Fail>
    requires { 0 < capacity }
{
    let to_send = chunks(alloc, capacity.saturating_add(1))?;
    let into = Vec::with_capacity(alloc, room as usize)?;
    let count = u64::from(capacity);
    let (link, sender, receiver) = SharedLink::open(alloc, PartId::new(3), PartId::new(5), count)?;
    let (sender, unsent) = send_all(rt, &link, sender, to_send, count + 1);
    let (receiver, received) = receive_all(rt, &link, receiver, into, count + 1);
    Ok(Carried {
        unsent,
        received,
        left: link.close(rt, sender, receiver),
    })
}

// Whether all of them came in their order: as many as there was room for, those that were left, and the one that found no
// place.
fn are_in_order(carried: &Carried, capacity: u32, room: u32) -> bool {
    let came = room.min(capacity);
    let Some(unsent) = &carried.unsent else {
        return false;
    };
    carried.received.len() == came as usize
        && carried.left.len() == (capacity - came) as usize
        && are_chunks(&carried.received, 0)
        && are_chunks(&carried.left, came)
        && is_chunk(unsent, capacity)
}

// How many chunks more than one a link holds, and how many are received.
const SIZES: [(u8, u32); 7] = [(0, 2), (1, 3), (2, 4), (6, 8), (63, 65), (1, 1), (63, 0)];

// Whether all come in their order through such a link.
fn come_in_order<R: Wait>(rt: &R, alloc: Global, capacity: u32, room: u32) -> Result<bool, Fail>
    requires { 0 < capacity }
{
    let carried = carry(rt, alloc, capacity, room)?;
    Ok(are_in_order(&carried, capacity, room))
}

#[test]
fn as_many_as_the_link_holds(rt: HostRuntime) -> Result<(), Fail> {
    for (more, room) in &SIZES {
        let capacity = u32::from(*more) + 1;
        assert!(rt;
            come_in_order(&rt, rt.alloc(), capacity, *room)?,
            "{room} of {capacity}"
        );
    }
    Ok(())
}

#[test]
fn a_thousand_chunks_between_two_threads(rt: HostRuntime) -> Result<(), Fail> {
    let to_send = chunks(rt.alloc(), CHUNKS)?;
    let into = Vec::with_capacity(rt.alloc(), CHUNKS as usize)?;
    let (link, sender, receiver) = SharedLink::open(rt.alloc(), PartId::new(3), PartId::new(5), 4)?;
    let shared = &link;
    let runtime = &rt;
    let (sent, came) = thread::join(
        runtime,
        move ||
            requires { sender.queue ≡ shared.now.queue }
            ensures { result.0.queue ≡ shared.entry.now.queue }
        { send_all(runtime, shared, sender, to_send, TRIES) },
        move ||
            requires { receiver.queue ≡ shared.now.queue }
            ensures { result.0.queue ≡ shared.entry.now.queue }
        { receive_all(runtime, shared, receiver, into, TRIES) },
    );
    let (sender, left) = sent;
    let (receiver, received) = came;
    assert!(rt; left.is_none() && received.len() == CHUNKS as usize && are_chunks(&received, 0));
    assert!(rt; link.close(&rt, sender, receiver).is_empty());
    Ok(())
}

// A teller whose ring is full while nobody takes from it.
use rtrb::RingBuffer;
use sq_driver::{RingTeller, Teller};
use sq_node::Receipt;
use sq_schema::{Cause, Op, Reply, RowKey, Schema, Txn};
use std::alloc::Global;
use std::process::Abort;

// How many receipts the ring holds.
const PLACES: u64 = 2;

// A transaction that deletes a row that there isn't.
fn txn<R: Abort>(rt: &R, alloc: Global, id: u64) -> Txn {
    let schema = Schema::new(1).expect(rt, "a schema");
    let mut ops = Vec::new(alloc);
    ops.push(Op::Del(RowKey::ROOT))
        .expect(rt, "no memory for an operation");
    match Txn::new(&schema, id, 9, ops) {
        Ok(txn) => txn,
        Err(_) => rt.panic("no transaction"),
    }
}

fn receipt<R: Abort>(rt: &R, alloc: Global, id: u64) -> Receipt {
    Receipt {
        txn: txn(rt, alloc, id),
        position: id,
        reply: Reply::Aborted {
            at: 0,
            cause: Cause::Absent,
        },
    }
}

#[test]
fn a_teller_breaks_off_where_nobody_takes(rt: HostRuntime) {
    let ring = RingBuffer::new(rt.alloc(), PLACES as usize);
    let (producer, consumer) = ring.expect(&rt, "no memory for a ring");
    let mut teller = RingTeller {
        producer,
        broke_off: false,
    };
    for id in 0..PLACES {
        teller.tell(&rt, receipt(&rt, rt.alloc(), id));
        assert!(rt; !teller.broke_off, "the ring has room for {id}");
    }
    drop(consumer);
    teller.tell(&rt, receipt(&rt, rt.alloc(), PLACES));
    assert!(rt; teller.broke_off, "the ring has no room");
}

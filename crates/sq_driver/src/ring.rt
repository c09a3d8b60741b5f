// Tellers that send receipts over a ring.
ghost use Rattle.std.specs.Prelude.{◌≡◌, true, false, [], ◌∷◌, ◌++◌};
ghost use Rattle.rtrb.specs.Ring.{sent, SameProducer};

use crate::gate::rest;
use crate::teller::Teller;
use rtrb::{Producer, PushError};
use sq_node::Receipt;
use std::sync::Wait;

// The longest sleep before a full ring is tried again, in microseconds.
const LONGEST_REST: u64 = 2_000;

/// A teller that sends each receipt over a ring to another thread. It waits while the ring is full.
/// If the ring is full and its other end is gone, it breaks off: it sends neither that receipt nor
/// any later one.
#[derive(Drop)]
pub struct RingTeller {
    /// The sending end of the ring.
    pub producer: Producer<Receipt>,
    /// Whether it broke off.
    pub broke_off: bool,
}

impl Teller for RingTeller {
    ghost use Rattle.sq_driver.specs.Sent.{SendsOrBreaksOff};

    ghost Tells = { SendsOrBreaksOff };

    fn tell<R: Wait>(&mut self, rt: &R, receipt: Receipt) {
        if self.broke_off {
            drop(receipt);
        } else {
            self.broke_off = !push_waiting(rt, &mut self.producer, receipt);
        }
    }
}

// Sends `receipt` and returns true. Waits while the ring is full, and returns false if its other
// end is gone.
fn push_waiting<R: Wait>(rt: &R, producer: &mut Producer<Receipt>, receipt: Receipt) -> bool
    ensures ring { SameProducer producer.old producer.new }
    ensures sent { result ≡ true → sent producer.new ≡ sent producer.old ++ receipt ∷ [] }
    ensures not_sent { result ≡ false → sent producer.new ≡ sent producer.old }
{
    let mut receipt = receipt;
    let mut tries = 0u64;
    for _ in rt.forever() {
        match producer.push(receipt) {
            Ok(()) => return true,
            Err(PushError::Full(back)) => receipt = back,
        }
        if producer.is_abandoned() {
            return false;
        }
        tries = tries.saturating_add(1);
        rest(rt, tries, LONGEST_REST);
    }
    unreachable!()
}

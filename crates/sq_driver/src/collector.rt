// Tellers that collect receipts.
ghost use Rattle.std.specs.Prelude.{◌≡◌, false, []};

use crate::teller::Teller;
use sq_node::Receipt;
use std::alloc::Global;
use std::sync::Wait;

/// A teller that collects the receipts. If there is no memory for one, it breaks off: it drops that
/// receipt and any later one.
#[derive(Drop)]
pub struct Collector {
    /// The receipts, in the order in which they were written.
    pub receipts: Vec<Receipt>,
    /// Whether it broke off.
    pub broke_off: bool,
}

impl Collector {
    /// Returns a collector without receipts.
    pub fn new(alloc: Global) -> Collector
        ensures receipts { result.receipts.items ≡ [] }
        ensures goes_on { result.broke_off ≡ false }
    {
        Collector {
            receipts: Vec::new(alloc),
            broke_off: false,
        }
    }
}

impl Teller for Collector {
    ghost use Rattle.sq_driver.specs.Collected.{CollectsOrBreaksOff};

    ghost Tells = { CollectsOrBreaksOff };

    fn tell<R: Wait>(&mut self, _rt: &R, receipt: Receipt) {
        if self.broke_off {
            drop(receipt);
        } else {
            self.broke_off = self.receipts.push(receipt).is_err();
        }
    }
}

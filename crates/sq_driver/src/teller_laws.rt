//! Laws of receipts that are sent or collected. The functions do nothing: each states a law, which
//! the checker proves.
ghost use Rattle.std.specs.Prelude.{List};
ghost use Rattle.rtrb.specs.Ring.{SameProducer};
ghost use Rattle.sq_node_model.specs.Prelude.{ReceiptValue};
ghost use Rattle.sq_driver.specs.Told.{HasTold};
ghost use Rattle.sq_driver.specs.declared.ring.RingTeller.{RingTeller};
ghost use Rattle.sq_driver.specs.Sent.{SendsWhatIsWritten};
ghost use Rattle.sq_driver.specs.declared.collector.Collector.{Collector};
ghost use Rattle.sq_driver.specs.Collected.{CollectsWhatIsWritten};

use crate::collector::Collector;
use crate::ring::RingTeller;
use crate::teller::Teller;

/// After a node was driven, what its collector has grew by exactly the receipts that the node
/// wrote, each once and in their order, unless it broke off.
pub fn a_collector_has_what_is_written()
    ensures { (old new : List ReceiptValue) (before after : Collector)
        → HasTold ⟦<Collector as Teller>⟧.Tells old before new after
        → CollectsWhatIsWritten old before new after }
{}

/// After a node was driven, what its teller has sent has grown by exactly the receipts that the
/// node wrote, each once and in their order, unless the teller broke off; and the teller still
/// sends on the same ring.
pub fn a_ring_sends_what_is_written()
    ensures sent { (old new : List ReceiptValue) (before after : RingTeller)
        → HasTold ⟦<RingTeller as Teller>⟧.Tells old before new after
        → SendsWhatIsWritten old before new after }
    ensures ring { (old new : List ReceiptValue) (before after : RingTeller)
        → HasTold ⟦<RingTeller as Teller>⟧.Tells old before new after
        → SameProducer before.producer after.producer }
{}

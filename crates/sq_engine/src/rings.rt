// The rings that carry the answers of an epoch.
ghost use Rattle.std.specs.Prelude.{◌≡◌, ◌++◌, length};
ghost use Rattle.rtrb.specs.Ring.{received, known_items, SameConsumer};
ghost use Rattle.sq_engine.specs.Rings.{GivesGrown, GivesArrived};
ghost use Rattle.sq_driver.specs.Told.{nodes_of};
ghost use Rattle.sq_engine.specs.Telling.{ArePaired, HasAllSent};

use crate::client::Client;
use crate::open_jobs::OpenJobs;
use rtrb::Consumer;
use sq_driver::{RingTeller, TellingNode};
use sq_node::Receipt;
use sq_plan::PartId;

/// Gives `client` each receipt of an open job that has arrived, closes these jobs, and drops the
/// other receipts. Returns true if a receipt has arrived.
pub(crate) fn give_arrived<C: Client>(
    parts: u8,
    rings: &mut [Consumer<Receipt>],
    jobs: &mut OpenJobs,
    client: &mut C,
) -> bool
    requires { length rings.old ≡ parts }
    ensures { GivesArrived C.Becomes jobs.old rings.old client.old jobs.new rings.new client.new }
{
    let mut has_come = false;
    for number in 0..parts {
        let ring = &mut rings[usize::from(number)];
        ring.slots();
        has_come |= give_known(PartId::new(number), ring, jobs, client);
    }
    has_come
}

/// Does the same with each receipt that is still on its way, once the tellers send no more. Then
/// all that they sent was received.
pub(crate) fn give_rest<C: Client>(
    parts: u8,
    pairs: &mut [TellingNode<RingTeller>],
    rings: &mut [Consumer<Receipt>],
    jobs: &mut OpenJobs,
    client: &mut C,
)
    requires pairs { length pairs.old ≡ parts }
    requires rings { length rings.old ≡ parts }
    requires paired { ArePaired pairs.old rings.old }
    ensures nodes { nodes_of pairs.new ≡ nodes_of pairs.old }
    ensures given { GivesArrived C.Becomes jobs.old rings.old client.old
        jobs.new rings.new client.new }
    ensures all { HasAllSent pairs.old rings.new }
{
    for number in 0..parts {
        let at = usize::from(number);
        let pair = &mut pairs[at];
        let ring = &mut rings[at];
        ring.slots_beside(&mut pair.teller.producer);
        give_known(PartId::new(number), ring, jobs, client);
    }
}

// Gives `client` each receipt of an open job that is known to be in the ring of partition `part`,
// closes these jobs, and drops the other receipts. Returns true if there was a receipt.
fn give_known<C: Client>(
    part: PartId,
    ring: &mut Consumer<Receipt>,
    jobs: &mut OpenJobs,
    client: &mut C,
) -> bool
    ensures ring { SameConsumer ring.old ring.new }
    ensures given { GivesGrown C.Becomes part jobs.old (received ring.old) client.old
        jobs.new (received ring.new) client.new }
    ensures all { received ring.new ≡ received ring.old ++ known_items ring.old }
{
    let known = ring.cached_slots();
    for _receipt in 0..known {
        let arrived = ring.pop_known();
        if let Some((asked, receipt)) = jobs.answer(part, arrived) {
            client.note_answered(asked);
            client.take(part, receipt);
        }
    }
    known > 0
}

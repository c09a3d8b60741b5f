//! What threads share. The split tree of one segment: 63 statuses, each one word that changes by
//! single exchanges, without a lock. Links: queues that carry chunks from one partition to another,
//! in order and without loss, for every schedule of the two threads. Pulls: claims of nodes of the
//! split trees, each with a request to the partition that the node leaves; a claim is won by one
//! exchange of one word, and only operations on a request queue may wait.
#![tactic(auto)]

pub mod laws;
mod link;
mod numbers;
mod order;
mod pass;
mod puller;
mod pump;
mod request;
mod rule;
mod seats;
mod shared;
mod tree;
mod view;
mod wins;

pub use link::SharedLink;
pub use numbers::{MAX_CLAIMS, MAX_OWNERS, MAX_PUMPS};
pub use order::{Receives, Sends};
pub use pass::{LinkPass, RecvPass, SendPass, Side};
pub use puller::{Puller, ReactivePull};
pub use pump::{Pump, PumpTurn};
pub use request::{PendingRequest, Request};
pub use shared::Shared;
pub use tree::{LeafClaim, StatusTree, TreeSeat};
pub use view::View;

//! The families of one partition, by root key: what a store of them does; the store in use, a slab
//! with an index by root key; and chunks, families on their way from one partition to another, with
//! a note of the keys that they cover.
#![tactic(auto)]

mod blocks;
mod chunk;
pub mod chunk_laws;
mod command;
mod cut;
mod family_run;
pub mod laws;
mod merge;
mod owned;
mod putting;
mod run;
mod run_iter;
mod runs;
mod search;
mod slab_store;
pub mod sorted;
mod store;
mod taking;
mod vec_store;

pub use chunk::{Chunk, Note};
pub use command::{StoreAnswer, StoreCommand};
pub use cut::cut_next;
pub use owned::OwnedEntries;
pub use run::run_store;
pub use run_iter::RunIter;
pub use search::Place;
pub use slab_store::SlabStore;
pub use store::{Cut, FamilyStore};
pub use vec_store::VecStore;

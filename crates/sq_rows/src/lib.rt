//! The rows of one root key: how they are stored, and writes of them.
#![tactic(auto)]

pub mod entry_iter;
mod entry_list;
pub mod keyed_entries;
pub mod row;
mod row_map;
pub mod rows;
pub mod short_list;

pub use entry_iter::{EntryIter, RowIter};
pub use row::{MAX_NOTE, NotAdded, NotPut, Row, RowKey, RowWrite};
pub use rows::Rows;
pub use short_list::ShortList;

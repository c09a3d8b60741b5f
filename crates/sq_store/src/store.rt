// The contract of every store of families.
ghost use Rattle.std.specs.Prelude.{◌≡◌, ◌≤◌, ◌↔◌, IfOk, IfErr, IfSome, OnOk, OnErr, IsErrOf, IsTrue};
ghost use Rattle.std.specs.Option.{option_copied};
ghost use Rattle.std.specs.FinMap.{get};
ghost use Rattle.sq_schema.specs.declared.family.TheConstants.{MAX_LOG};
ghost use Rattle.sq_store.specs.StoreValue.{StoreValue, log_length, store_reply, store_after, without_between, with_families, folded_store, roots_differ, has_none_of};
ghost use Rattle.sq_store.specs.InOrder.{family_from, are_within, AreKeyed, HoldsByRoot};

use sq_moves::Extent;
use sq_schema::{ApplyFault, Family, Reply, Root, Txn};
use std::alloc::AllocError;

/// The families that a chunk takes, by rising root key, and where it ends.
#[derive(Debug, Drop)]
pub struct Cut {
    pub families: Vec<Family>,
    /// The root key of the first family that the chunk doesn't take, or the extent's high end.
    pub end: u64,
    /// True if the chunk ends at the extent's high end.
    pub last: bool,
}

/// The families of one partition: a finite map from root keys to families, however they are stored.
pub trait FamilyStore {
    ghost use Rattle.sq_store.specs.Cut.{IsCutOf};

    /// The families by root key.
    ghost contents: { Self → StoreValue };

    /// Returns the family of `root`; `None` if there is none.
    fn get(&self, root: Root) -> Option<&Family>
        ensures family { option_copied result ≡ get (contents self.now) root }
        ensures root { IfSome result (λ family. family.now.root ≡ root) }
        ensures rooted { HoldsByRoot (contents self.now) };

    /// Returns the family with the least root key from `at` on; `None` if there is none.
    fn walk(&self, at: u64) -> Option<&Family>
        ensures family { option_copied result ≡ family_from (contents self.now) at }
        ensures rooted { HoldsByRoot (contents self.now) };

    /// Runs `txn` on the family of its root key, or on a new one without rows if the root key has
    /// none, and returns the reply. If it commits, the family is in the store, with `txn` at the
    /// end of its log; if it aborts or fails, the store stays as it was. A full log refuses it
    /// before any operation is looked at.
    fn apply(&mut self, txn: &Txn) -> Result<Reply, ApplyFault>
        ensures full { IsErrOf result ApplyFault.LogFull
            ↔ (MAX_LOG ≤ log_length (contents self.old) txn.now.root) }
        ensures reply { IfOk result (λ reply. reply ≡ store_reply (contents self.old) txn.now) }
        ensures store { IfOk result (λ reply. contents self.new
            ≡ store_after (contents self.old) txn.now reply) }
        ensures err { OnErr result (contents self.new ≡ contents self.old) };

    /// Takes families of `extent` out, by rising root key: the first, and then as many as fit with
    /// it into `limit` bytes. If memory runs out, the store stays as it was.
    fn take(&mut self, extent: Extent, limit: u64) -> Result<Cut, AllocError>
        ensures cut { IfOk result (IsCutOf (contents self.old) extent limit) }
        ensures store { IfOk result (λ cut. contents self.new
            ≡ without_between (contents self.old) extent.lo cut.end) }
        ensures err { OnErr result (contents self.new ≡ contents self.old) }

        ensures from { extent.lo ≤ extent.hi → IfOk result (λ cut. extent.lo ≤ cut.end) }
        ensures upto { IfOk result (λ cut. cut.end ≤ extent.hi) }
        ensures within { IfOk result (λ cut. IsTrue
            (are_within extent.lo cut.end cut.families.items)) }
        ensures keyed { IfOk result (λ cut. AreKeyed cut.families.items) };

    /// Puts `families` in, in any order. Their root keys differ, and the store has none of them. If
    /// memory runs out, all are returned and the store stays as it was.
    fn give(&mut self, families: Vec<Family>) -> Result<(), Vec<Family>>
        requires differ { IsTrue (roots_differ families.items) }
        requires absent { IsTrue (has_none_of (contents self.old) families.items) }
        ensures ok { OnOk result (contents self.new
            ≡ with_families (contents self.old) families.items) }
        ensures families_returned { IfErr result (λ back. back.items ≡ families.items) }
        ensures err { OnErr result (contents self.new ≡ contents self.old) };

    /// Folds the logs of all families: each family restarts from its rows, and families without
    /// rows are dropped. It takes no memory.
    fn fold(&mut self)
        ensures { contents self.new ≡ folded_store (contents self.old) };
}

// Families: the rows of a root key, with the transactions that led to them.
ghost use Rattle.std.specs.Prelude.{◌≡◌, ◌≤◌, ◌↔◌, [], length, IfOk, OnErr, IsErrOf, IsTrue};
ghost use Rattle.std.specs.List.{All};
ghost use Rattle.sq_schema.specs.Effect.{reply};
ghost use Rattle.sq_rows.specs.Sizes.{rows_size};
ghost use Rattle.sq_schema.specs.Family.{rows_of, family_stands, folded, answered};
ghost use Rattle.sq_rows.specs.Rows.{is_rooted};

use crate::fault::ApplyFault;
use crate::root::Root;
use crate::txn::{Reply, Txn};
use sq_history::{History, Kept};
use sq_rows::Rows;
use std::alloc::Global;
use std::fmt::{self, Debug, Formatter, Write};
use std::marker::Model;

/// The most transactions that a log counts. A partition may refuse more sooner.
pub const MAX_LOG: u64 = u64::MAX;

/// A family: a root key with its rows, the base rows that its log starts from, and its log. The
/// rows are the replay of the log on the base rows. Only the rows and the length of the log take
/// memory: only proofs read the base rows and the transactions. To a contract it is a
/// `FamilyValue`.
#[derive(Drop)]
pub struct Family {
    root: Root,
    alloc: Global,
    position: u64,
    rows: Rows,
    base: Kept<Rows>,
    log: History<Txn>,
}

impl Model for Family {
    ghost use Rattle.std.specs.Prelude.{◌≡◌, length};
    ghost use Rattle.sq_schema.specs.Family.{FamilyValue};
    ghost use Rattle.sq_schema.specs.Standing.{IsKept};

    ghost Value = { FamilyValue };

    ghost view = { λ f. record { root = f.root; base = f.base.value; log = f.log.items } };

    ghost invariant = { λ f. (f.position ≡ length f.log.items)
        × IsKept (record { root = f.root; base = f.base.value; log = f.log.items }) f.rows };
}

impl Family {
    /// Creates a family of `root` without rows.
    pub fn empty(alloc: Global, root: Root) -> Family
        ensures { result ≡ record { root = root; base = []; log = [] } }
    {
        Family::opened(alloc, root, Rows::new(alloc))
    }

    /// Creates a family of `root` that starts from `rows`, which have rows of other tables only
    /// under the root row. It takes no memory.
    pub fn opened(alloc: Global, root: Root, rows: Rows) -> Family
        requires { IsTrue (is_rooted rows) }
        ensures { result ≡ record { root = root; base = rows; log = [] } }
    {
        Family {
            root,
            alloc,
            position: 0,
            base: Kept::of(&rows),
            rows,
            log: History::new(),
        }
    }

    /// Runs `txn`, a transaction of this root key, on the rows and returns its reply. If it
    /// commits, it is appended to the log; if it aborts or fails, the family stays as it was. A
    /// full log refuses it before any operation is looked at.
    pub fn apply(&mut self, txn: &Txn) -> Result<Reply, ApplyFault>
        requires { txn.now.root ≡ self.old.root }
        ensures full { IsErrOf result ApplyFault.LogFull ↔ (MAX_LOG ≤ length self.old.log) }
        ensures reply { IfOk result (λ r. r ≡ reply (rows_of self.old) txn.now) }
        ensures family { IfOk result (λ r. self.new ≡ answered self.old txn.now r) }
        ensures err { OnErr result (self.new ≡ self.old) }
    {
        if self.position >= MAX_LOG {
            return Err(ApplyFault::LogFull);
        }
        let reply = txn.apply_to(self.alloc, &mut self.rows)?;
        if let Reply::Committed(_) = reply {
            self.log = self.log.and(txn);
            self.position += 1;
        }
        Ok(reply)
    }

    /// Folds the log: the family restarts from its rows, with an empty log.
    pub fn fold(&mut self)
        ensures { self.new ≡ folded self.old }
    {
        self.base = Kept::of(&self.rows);
        self.log = History::new();
        self.position = 0;
    }

    pub fn root(&self) -> Root
        ensures { result ≡ self.now.root }
    {
        self.root
    }

    /// Returns the rows, which have rows of other tables only under the root row.
    pub fn rows(&self) -> &Rows
        ensures rows { result.now ≡ rows_of self.now }
        ensures rooted { IsTrue (is_rooted result.now) }
    {
        &self.rows
    }

    /// Returns the length of the log: how many transactions committed since it was last folded, at
    /// most [`MAX_LOG`].
    pub fn position(&self) -> u64
        ensures position { result ≡ length self.now.log }
        ensures short { length self.now.log ≤ MAX_LOG }
        ensures own { All (λ txn. txn.root ≡ self.now.root) self.now.log }
    {
        self.position
    }

    /// Returns the size in bytes: 32, plus 24 and the length of its note for each row.
    pub fn size(&self) -> u64
        ensures { result ≡ rows_size (rows_of self.now) }
    {
        self.rows.size()
    }

    /// Returns true if the family has base rows or a log.
    pub fn stands(&self) -> bool
        ensures { result ≡ family_stands self.now }
    {
        self.position != 0 || !self.rows.is_empty()
    }
}

impl Debug for Family {
    fn fmt<W: Write>(&self, f: &mut Formatter<W>) -> fmt::Result {
        f.debug_struct("Family")
            .field("root", &self.root)
            .field("position", &self.position)
            .field("rows", &self.rows)
            .finish()
    }
}

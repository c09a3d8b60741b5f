// The operations of a transaction in memory.
ghost use Rattle.std.specs.Prelude.{◌≡◌, IfOk};
ghost use Rattle.sq_rows.specs.ShortList.{short_items};
ghost use Rattle.sq_schema.specs.OpList.{ops_of};

use crate::txn::Op;
use sq_rows::ShortList;
use std::alloc::{AllocError, Global};
use std::fmt::{self, Debug, Formatter, Write};
use std::slice;
use std::sync::ArcSlice;

/// Operations. One alone takes no memory of its own: most transactions have one, and logs hold
/// many. Clones of a shared list use the same memory.
#[derive(Clone, Drop)]
pub(crate) enum OpList {
    One(Op),
    Many(Vec<Op>),
    Shared(ArcSlice<Op, Global>),
}

impl OpList {
    /// Makes a list of `ops`.
    pub(crate) fn of(ops: ShortList<Op>) -> OpList
        ensures { ops_of result ≡ short_items ops }
    {
        match ops {
            ShortList::One(op) => OpList::One(op),
            ShortList::Many(ops) => OpList::Many(ops),
        }
    }

    /// Returns the same operations; if there are several, their clones share memory.
    pub(crate) fn share(self) -> Result<OpList, AllocError>
        ensures { IfOk result (λ ops. ops_of ops ≡ ops_of self) }
    {
        match self {
            OpList::Many(ops) => Ok(OpList::Shared(ArcSlice::from_vec(ops)?)),
            ops => Ok(ops),
        }
    }

    /// Returns the operations in their order.
    pub(crate) fn as_slice(&self) -> &[Op]
        ensures { result.now ≡ ops_of self.now }
    {
        match self {
            OpList::One(op) => slice::from_ref(op),
            OpList::Many(ops) => ops,
            OpList::Shared(ops) => ops.as_slice(),
        }
    }
}

impl Debug for OpList {
    fn fmt<W: Write>(&self, f: &mut Formatter<W>) -> fmt::Result {
        f.debug_list().entries(self.as_slice()).finish()
    }
}

// Lists that mostly have one item.
ghost use Rattle.std.specs.Prelude.{◌≡◌, [], ◌∷◌, ◌++◌, OnOk, OnErr};
ghost use Rattle.std.specs.Mem.{FitsInMemory};
ghost use Rattle.sq_rows.specs.ShortList.{short_items, IsSingle};

use std::alloc::{AllocError, Global};
use std::mem::replace;
use std::slice;

/// Items in their order. One item alone takes no memory of its own: most transactions have one
/// operation.
#[derive(Clone, Drop)]
pub enum ShortList<T> {
    One(T),
    Many(Vec<T>),
}

impl<T> ShortList<T> {
    /// Creates an empty list.
    pub fn new(alloc: Global) -> ShortList<T>
        ensures { short_items result ≡ [] }
    {
        ShortList::Many(Vec::new(alloc))
    }

    /// Returns the items in their order.
    pub fn as_slice(&self) -> &[T]
        requires { FitsInMemory T.row }
        ensures { result.now ≡ short_items self.now }
    {
        match self {
            ShortList::One(item) => slice::from_ref(item),
            ShortList::Many(items) => items,
        }
    }
}

impl<T: Drop> ShortList<T> {
    /// Makes a list of `items`.
    pub fn of(mut items: Vec<T>) -> ShortList<T>
        ensures { short_items result ≡ items.items }
    {
        if items.len() == 1 {
            if let Some(item) = items.pop() {
                return ShortList::One(item);
            }
        }
        ShortList::Many(items)
    }

    /// Appends `item` to a list that is expected to hold at most `most` items. If memory runs out,
    /// nothing changes.
    pub fn push(&mut self, alloc: Global, most: usize, item: T) -> Result<(), AllocError>
        ensures ok { OnOk result (short_items self.new ≡ short_items self.old ++ item ∷ []) }
        ensures err { OnErr result (short_items self.new ≡ short_items self.old) }
    {
        match self {
            ShortList::One(_) => self.push_second(alloc, most, item)?,
            ShortList::Many(items) if items.is_empty() => *self = ShortList::One(item),
            ShortList::Many(items) => items.push(item)?,
        }
        Ok(())
    }

    // Appends `item` to a list of one.
    fn push_second(&mut self, alloc: Global, most: usize, item: T) -> Result<(), AllocError>
        requires { IsSingle self.old }
        ensures ok { OnOk result (short_items self.new ≡ short_items self.old ++ item ∷ []) }
        ensures err { OnErr result (short_items self.new ≡ short_items self.old) }
    {
        let mut items = Vec::with_capacity(alloc, most.max(2))?;
        let ShortList::One(first) = replace(self, ShortList::new(alloc)) else {
            unreachable!()
        };
        items.push_reserved(first);
        items.push_reserved(item);
        *self = ShortList::Many(items);
        Ok(())
    }
}

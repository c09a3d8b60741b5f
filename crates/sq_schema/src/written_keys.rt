// Which keys were written.
ghost use Rattle.std.specs.Prelude.{◌≡◌, ◌%◌, true};
ghost use Rattle.sq_rows.specs.declared.row.RowKey.{RowKey};
ghost use Rattle.sq_schema.specs.WrittenKeys.{has_its_mark};

use sq_rows::RowKey;

// The number of marks.
const MARKS: u32 = 256;

/// Marks of the written keys, which rule out most other keys quickly. Some keys share a mark.
#[derive(Drop)]
pub(crate) struct WrittenKeys {
    marks: [bool; MARKS as usize],
}

impl WrittenKeys {
    pub(crate) fn new() -> WrittenKeys {
        WrittenKeys {
            marks: [false; MARKS as usize],
        }
    }

    /// Returns false only if `key` wasn't written.
    pub(crate) fn may_have(&self, key: RowKey) -> bool
        ensures { result ≡ has_its_mark self.now.marks key }
    {
        self.marks[place(key)]
    }

    /// Marks `key` as written.
    pub(crate) fn add(&mut self, key: RowKey)
        ensures added { has_its_mark self.new.marks key ≡ true }
        ensures kept { (other : RowKey) → has_its_mark self.old.marks other ≡ true
            → has_its_mark self.new.marks other ≡ true }
    {
        self.marks[place(key)] = true;
    }
}

// Returns the place of the mark of `key`.
fn place(key: RowKey) -> usize
    ensures { result ≡ key.sub % MARKS }
{
    (key.sub % MARKS) as usize
}

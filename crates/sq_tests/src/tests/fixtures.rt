// What the tests of several crates start from, read from the texts of a run.
ghost use Rattle.std.specs.Prelude.{◌≡◌, [], IfOk};

use sq_model::Step;
use sq_moves::{NodeId, Opening, Recon, SegId};
use sq_plan::{PartId, Plan};
use sq_schema::{Family, Root, Row, RowKey, Rows, Schema, Table, Txn};
use sq_store::Note;
use sq_text::{LineReader, read_header, read_step};
use std::alloc::Global;
use std::test::Fail;

// The lines of two plans, by which the root keys 4 to 7 go from partition 0 to partition 1.
const PLANS: &str = r#"old {"version":1,"partitions":2,"ranges":[[0,4294967296,0]]}
new {"version":1,"partitions":2,"ranges":[[0,4,0],[4,8,1],[8,4294967296,0]]}
"#;

/// A plan by which partition 0 of two has all root keys.
pub const ALL: &str = r#"{"version":1,"partitions":2,"ranges":[[0,4294967296,0]]}"#;

/// The plan by which the root keys 4 to 7 go from there to partition 1, in one segment.
pub const FOUR_KEYS: &str =
    r#"{"version":1,"partitions":2,"ranges":[[0,4,0],[4,8,1],[8,4294967296,0]]}"#;

/// A plan by which partition 0 of three has all root keys.
pub const ALL_OF_THREE: &str = r#"{"version":1,"partitions":3,"ranges":[[0,4294967296,0]]}"#;

/// What moves between the plans of these texts, with leaves of one root key.
pub fn between(alloc: Global, old: &str, new: &str) -> Result<Recon, Fail> {
    let old = Plan::read(alloc, old.as_bytes())?;
    let new = Plan::read(alloc, new.as_bytes())?;
    Ok(Recon::between(alloc, &old, &new, 1)?)
}

// The schema of 8 tables.
fn schema() -> Result<Schema, Fail> {
    Ok(Schema::new(8).ok_or("8 tables are a schema")?)
}

/// The transaction of a line.
pub fn transaction(alloc: Global, line: &str) -> Result<Txn, Fail> {
    match read_step(alloc, &schema()?, line.as_bytes())? {
        Step::Submit(_, txn) => Ok(txn),
        _ => Err("no transaction")?,
    }
}

/// The opening of a header: the lines of [`PLANS`], and then these.
pub fn opening(alloc: Global, lines: &str) -> Result<Opening, Fail> {
    let header = format!(in alloc; "{PLANS}{lines}")?;
    let mut lines = LineReader::new(alloc, header.as_bytes())?;
    Ok(read_header(alloc, schema()?, &mut lines)?)
}

/// The family of this root key, of 56 bytes: its root row has seven times the key.
pub fn family(alloc: Global, key: u32) -> Result<Family, Fail>
    ensures root { IfOk result (λ family. family.root ≡ key) }
    ensures log { IfOk result (λ family. family.log ≡ []) }
{
    let root = Root::new(u64::from(key)).ok_or("not a root key")?;
    let mut rows = Rows::new(alloc);
    rows.insert(RowKey::ROOT, Row::new(7 * i64::from(key), Vec::new(alloc)))?;
    Ok(Family::opened(alloc, root, rows))
}

/// Whether these families have the root keys.
pub fn have(families: &[Family], roots: &[u64]) -> bool {
    for (family, root) in families.iter().zip(roots) {
        if family.root().number() != *root {
            return false;
        }
    }
    families.len() == roots.len()
}

// The row of a table at a key, if there is one.
fn row_at(table: &Table, root: u64, key: RowKey) -> Option<&Row> {
    table.rows(Root::new(root)?)?.get(key)
}

/// Whether the table has this number and note at a key, or no row.
pub fn has(table: &Table, root: u64, key: RowKey, want: Option<(i64, &[u8])>) -> bool {
    match (row_at(table, root, key), want) {
        (None, None) => true,
        (Some(row), Some((number, note))) => row.number() == number && row.note() == note,
        _ => false,
    }
}

/// The note of the chunk of this number from partition 0 to partition 1, on the keys 4 to 7 of the first segment. More
/// chunks of it follow.
pub fn note(number: u64) -> Result<Note, Fail> {
    Ok(Note {
        src: PartId::new(0),
        dst: PartId::new(1),
        number,
        seg: SegId::new(0).ok_or("no segment")?,
        node: NodeId::WHOLE,
        lo: 4,
        hi: 8,
        last: false,
    })
}

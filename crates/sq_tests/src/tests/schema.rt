// A table on which transactions are replayed.
use super::fixtures::{has, opening, transaction};
use sq_schema::{RowKey, Table, Txn};
use std::alloc::Global;
use std::test::Fail;

fn transactions(alloc: Global, lines: &[&str]) -> Result<Vec<Txn>, Fail> {
    let mut txns = Vec::new(alloc);
    for line in lines {
        txns.push(transaction(alloc, line)?)?;
    }
    Ok(txns)
}

// The lines of an opening's rows, and of transactions on its table.
const ROWS: &str = "config 1 64 1\nrow 7 0 0 10 -\nrow 5 0 0 10 -\nrow 5 1 7 10 -\n";

const LINES: [&str; 4] = [
    "txn 0 1 5 add 1 7 2",
    "txn 0 1 7 del 0 0",
    "txn 0 1 6 put 0 0 3 6869",
    "txn 0 1 5 del 0 0",
];

// What is there then: a root key, a table and a sub key, and the number and the note of the row, if there is one.
const REPLAYED: [(u64, u8, u32, Option<(i64, &[u8])>); 5] = [
    (5, 0, 0, Some((10, b""))),
    (5, 1, 7, Some((12, b""))),
    (5, 2, 0, None),
    (6, 0, 0, Some((3, b"hi"))),
    (7, 0, 0, None),
];

// Whether a table has rows of these root keys alone.
fn has_roots(table: &Table, roots: &[u64]) -> bool {
    table
        .iter()
        .map(|(root, _)| root.number())
        .eq(roots.iter().copied())
}

#[test]
fn a_table(rt: HostRuntime) -> Result<(), Fail> {
    let alloc = rt.alloc();
    let txns = transactions(alloc, &LINES)?;
    let mut rows = opening(alloc, ROWS)?.into_parts().table;
    assert!(rt; has_roots(&rows, &[5, 7]));
    rows.replay(&txns)?;
    assert!(rt; has_roots(&rows, &[5, 6]));
    for (root, table, sub, want) in &REPLAYED {
        let (table, sub) = (*table, *sub);
        assert!(rt;
            has(&rows, *root, RowKey { table, sub }, *want),
            "{table} {sub} of {root}"
        );
    }
    Ok(())
}

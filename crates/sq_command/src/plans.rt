// The plans of a sample input.
use crate::sizes::DemoSizes;
use sq_schema::ROOT_END;
use std::io;
use std::io::Write;

/// Writes the plan before the move: each partition has its share, in their order.
pub(crate) fn write_old(text: &mut Vec<u8>, sizes: &DemoSizes) -> io::Result<()> {
    let partitions = sizes.partitions;
    write!(
        text,
        r#"{{"version":1,"partitions":{partitions},"ranges":["#
    )?;
    write_shares(text, sizes, 0)?;
    text.write_all(b"]}\n")
}

/// Writes the plan after the move: the other partitions have the first keys of partition 0, as
/// evenly as possible.
pub(crate) fn write_new(text: &mut Vec<u8>, sizes: &DemoSizes) -> io::Result<()> {
    let partitions = sizes.partitions;
    if sizes.stages {
        write!(
            text,
            r#"{{"version":2,"partitions":{partitions},"stages":"auto","ranges":["#
        )?;
    } else {
        write!(
            text,
            r#"{{"version":1,"partitions":{partitions},"ranges":["#
        )?;
    }
    write_hot(text, sizes)?;
    write_shares(text, sizes, sizes.hot_keys())?;
    text.write_all(b"]}\n")
}

// Writes the ranges of the first keys, up to those that stay, each with a comma after it.
fn write_hot(text: &mut Vec<u8>, sizes: &DemoSizes) -> io::Result<()> {
    let (keys, others) = (sizes.hot_keys(), sizes.partitions - 1);
    for part in 1..sizes.partitions {
        let lo = (part - 1) * keys / others;
        let hi = part * keys / others;
        if lo < hi {
            write!(text, "[{lo},{hi},{part}],")?;
        }
    }
    Ok(())
}

// Writes the ranges of the shares of the partitions. The share of partition 0 begins with the key
// `first`.
fn write_shares(text: &mut Vec<u8>, sizes: &DemoSizes, first: u64) -> io::Result<()> {
    let (share, last) = (sizes.share(), sizes.partitions - 1);
    for part in 0..last {
        let lo = (part * share).max(first);
        let hi = (part + 1) * share;
        write!(text, "[{lo},{hi},{part}],")?;
    }
    let lo = last * share;
    write!(text, "[{lo},{ROOT_END},{last}]")
}

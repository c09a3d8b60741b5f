//! As many jobs as the word of its command line says are answered by an engine while root keys move: from one partition to four in
//! three stages, and back in one, ten times. Each job is answered once, and each root key's numbers are 1, 2, 3 and so on.
#![tactic(auto)]

use anyhow::Context;
use sq_trial::{PARTS, PlanChoice, ROOTS, Workload, rounds, try_engine};
use std::env;

// How often the root keys go there and back, in three stages and one.
const ROUNDS: u64 = 10;

const STAGES: u64 = 4;

fn main(rt: HostRuntime) -> anyhow::Result<()> {
    let words: Vec<String> = env::args(&rt)?.collect(rt.alloc())?;
    let word = words.get(1).context("how many jobs?")?;
    let jobs: u64 = word.as_str().parse()?;
    let workload = Workload {
        seed: 1,
        jobs,
        parts: PARTS,
        roots: ROOTS,
    };
    let deeds = rounds(rt.alloc(), ROUNDS, jobs)?;
    try_engine(&rt, rt.alloc(), workload, PlanChoice::Gathered, &deeds)?;
    let stages = ROUNDS * STAGES;
    println!(&rt; "{jobs} jobs are answered, each once, in {stages} stages of moves")?;
    Ok(())
}

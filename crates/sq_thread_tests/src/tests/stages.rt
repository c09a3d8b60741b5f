// Stages that continue with what the one before left.
ghost use Rattle.std.specs.Prelude.{IfOk, All};
ghost use Rattle.sq_node.specs.NodeState.{IsNodeOf};
ghost use Rattle.sq_driver.specs.Pumps.{HasAllSeats};

use super::node::PAIR;
use super::run::{TestRun, job, pairs_of, read_opening, work_to_end};
use sq_driver::OpenGate;
use sq_history::History;
use sq_moves::Opening;
use sq_node::{Fabric, RunParts};
use sq_schema::Txn;
use sq_store::SlabStore;
use std::alloc::{AllocError, Global};
use std::process::Abort;
use std::test::Fail;

// For each of two partitions the jobs that were left at it: at the first more than its queue has places for.
fn many_left<R: Abort>(rt: &R, alloc: Global) -> Result<Vec<Vec<Txn>>, AllocError> {
    let mut jobs = Vec::new(alloc);
    for _job in 0..5000 {
        jobs.push(job(rt, alloc, "txn 0 1 9 check 0 0 1").txn)?;
    }
    Ok(vec![in alloc; jobs, Vec::new(alloc)]?)
}

// The families of each of two partitions, which have none.
fn no_families(alloc: Global) -> Result<Vec<SlabStore>, AllocError> {
    Ok(vec![in alloc; SlabStore::new(alloc), SlabStore::new(alloc)]?)
}

// The stage of an opening that continues with these, with one pump.
fn begun(
    alloc: Global,
    opening: &Opening,
    stores: Vec<SlabStore>,
    left: Vec<Vec<Txn>>,
) -> Result<RunParts, Fail>
    ensures nodes { IfOk result (λ stage. All (IsNodeOf stage.fabric) stage.nodes.items) }
    ensures pumps { IfOk result (λ stage. All (HasAllSeats stage.fabric) stage.pumps.items) }
{
    let Ok(stage) = Fabric::resumed(alloc, opening, 0, stores, left, History::new(), 1) else {
        return Err("the stage doesn't begin")?;
    };
    Ok(stage)
}

// Each of the jobs that were left is answered, once, and the workers end then.
#[test]
fn jobs_that_were_left_are_answered(rt: HostRuntime) -> Result<(), Fail> {
    let alloc = rt.alloc();
    let opening = read_opening(&rt, alloc, PAIR);
    let left = many_left(&rt, alloc)?;
    let RunParts {
        fabric,
        nodes,
        pumps,
    } = begun(alloc, &opening, no_families(alloc)?, left)?;
    assert_eq!(rt;
        work_to_end(&rt, &fabric, pairs_of(alloc, nodes)?, pumps),
        5000
    );
    Ok(())
}

// Three partitions; the first gives four root keys to the second, and four to the third in a second stage.
const STAGED: &str = r#"old {"version":1,"partitions":3,"ranges":[[0,4294967296,0]]}
new {"version":2,"partitions":3,"ranges":[[0,4,1],[4,8,2],[8,4294967296,0]],"stages":"auto"}
config 1 64 1
row 2 0 0 1 -
row 5 0 0 1 -
"#;

// Once the workers of the first stage have ended: the rows that move in the second one are where they were.
const FIRST_STAGE: &str = "at 0 5 0 0.0=1/-
at 1 2 0 0.0=1/-
";

// The workers of a stage that isn't the last one end once its segments are complete, long before their turns are over.
#[test]
fn the_workers_of_a_first_stage_end(rt: HostRuntime) {
    let alloc = rt.alloc();
    let mut run = TestRun::opened(&rt, alloc, STAGED, 1);
    run.work(&rt, 1_000_000_000_000, &OpenGate);
    assert!(rt; run.text(&rt, alloc).as_str().starts_with(FIRST_STAGE));
}

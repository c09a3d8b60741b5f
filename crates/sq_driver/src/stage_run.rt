// A stage of a run.
ghost use Rattle.std.specs.Prelude.{◌≡◌, ◌≤◌, ◌++◌, false, IfOk, OnOk};
ghost use Rattle.sq_schema.specs.Prelude.{TableValue};
ghost use Rattle.sq_moves.specs.Prelude.{OpeningValue, IsOpening, IsSetUp};
ghost use Rattle.sq_shared.specs.declared.numbers.TheConstants.{MAX_PUMPS};
ghost use Rattle.sq_node_model.specs.Prelude.{BeganWith, first_began, folded_opening};
ghost use Rattle.sq_driver.specs.Nodes.{AllDriven};
ghost use Rattle.sq_driver.specs.Told.{nodes_of};
ghost use Rattle.sq_gather.specs.Gathered.{AreAllOf, InPartOrder};
ghost use Rattle.sq_driver.specs.Pumps.{AllPumpsDriven};
ghost use Rattle.sq_gather.specs.Reopened.{IsNextStageOf};
ghost use Rattle.sq_driver.specs.StageRunValue.{BeganFrom, StaysBegun, RanFrom, HaveCollected, AreUnanswered, stage_run_of};

use crate::attendance::WorkersEnd;
use crate::collector::Collector;
use crate::gate::Gate;
use crate::teller::TellingNode;
use crate::workers::run_workers;
use sq_gather::{Gathered, gather, reopen};
use sq_moves::Opening;
use sq_node::{Fabric, Node, Receipt, RunParts};
use sq_shared::Pump;
use std::alloc::{AllocError, Global};
use std::marker::Model;
use std::sync::Wait;
use std::thread::Threads;

/// A stage of a run: what its workers share, a node for each partition, with a teller that collects
/// its receipts, and its pumps. To a contract it is a `StageRunValue`.
#[derive(Drop)]
pub struct StageRun {
    fabric: Fabric,
    pairs: Vec<TellingNode<Collector>>,
    pumps: Vec<Pump>,
}

impl Model for StageRun {
    ghost use Rattle.std.specs.Coded.{codes};
    ghost use Rattle.sq_store.specs.Prelude.{store_coded};
    ghost use Rattle.sq_gather.specs.Gathered.{AreAllOf, InPartOrder};
    ghost use Rattle.sq_driver.specs.StageRunValue.{StageRunValue, HaveCollected, stage_run_of};

    ghost Value = { StageRunValue };

    ghost coded = { Prim.hlevel (codes, store_coded) };

    ghost use Rattle.sq_driver.specs.Told.{nodes_of};

    ghost view = { λ run.
        stage_run_of run.fabric (nodes_of run.pairs.items) run.pumps.items };

    ghost invariant = { λ run.
        AreAllOf run.fabric (nodes_of run.pairs.items) run.pumps.items
        × InPartOrder (nodes_of run.pairs.items)
        × HaveCollected run.pairs.items };
}

impl StageRun {
    /// Returns the first stage of the move of `opening`, with `pumps` pumps. If there are many root
    /// keys, the families of each partition are created in a thread of its own, if the system
    /// grants one.
    pub fn open_in_threads<R: Threads + Sync>(
        rt: &R,
        alloc: Global,
        opening: &Opening,
        pumps: u32,
    ) -> Result<StageRun, AllocError>
        requires { pumps ≤ MAX_PUMPS }
        ensures run { IfOk result (BeganFrom opening.now (first_began opening.now)) }
        ensures set_up { OnOk result (IsSetUp opening.now) }
    {
        let parts = Fabric::open_in_threads(rt, alloc, opening, pumps)?;
        StageRun::with_tellers(alloc, parts)
    }

    /// Returns the stage after the one that `g` was gathered of, as [`reopen`] opens it, with
    /// `pumps` pumps.
    ///
    /// It fails if `g` doesn't have the families and the jobs of as many partitions as `opening`
    /// has, if there is no further stage, or if memory runs out.
    pub fn next_stage(
        alloc: Global,
        opening: &Opening,
        g: Gathered,
        pumps: u32,
    ) -> Result<StageRun, AllocError>
        requires { pumps ≤ MAX_PUMPS }
        ensures run { IfOk result (λ run. (table : TableValue)
            → IsNextStageOf (folded_opening opening.now table) g run.fabric run.nodes run.pumps) }
    {
        match reopen(alloc, opening, g, pumps) {
            Ok(parts) => StageRun::with_tellers(alloc, parts),
            Err(_) => Err(AllocError),
        }
    }

    // Gives a collector to each node of `parts`.
    fn with_tellers(alloc: Global, parts: RunParts) -> Result<StageRun, AllocError>
        requires all { AreAllOf parts.fabric parts.nodes.items parts.pumps.items }
        requires in_order { InPartOrder parts.nodes.items }
        requires unanswered { AreUnanswered parts.nodes.items }
        ensures { IfOk result (λ run. run
            ≡ stage_run_of parts.fabric parts.nodes.items parts.pumps.items) }
    {
        let RunParts {
            fabric,
            nodes,
            pumps,
        } = parts;
        let pairs = pairs_of(alloc, nodes)?;
        Ok(StageRun {
            fabric,
            pairs,
            pumps,
        })
    }

    /// Returns what the workers share.
    pub fn fabric(&self) -> &Fabric
        ensures { result.now ≡ self.now.fabric }
    {
        &self.fabric
    }

    /// Returns the nodes with their tellers, in the order of their partitions.
    pub fn pairs(&self) -> &[TellingNode<Collector>]
        ensures { nodes_of result.now ≡ self.now.nodes }
    {
        &self.pairs
    }

    /// Drives each node and each pump in a thread of its own, as [`run_workers`] does, and returns
    /// how they ended.
    pub fn drive<R: Threads + Wait + Sync, G: Gate>(
        &mut self,
        rt: &R,
        turns: u64,
        gate: &G,
    ) -> WorkersEnd
        ensures fabric { self.new.fabric ≡ self.old.fabric }
        ensures nodes { AllDriven self.old.fabric self.old.nodes self.new.nodes }
        ensures pumps { AllPumpsDriven self.old.fabric self.old.pumps self.new.pumps }
        ensures stays { StaysBegun self.old self.new }
    {
        run_workers(
            rt,
            &self.fabric,
            &mut self.pairs,
            &mut self.pumps,
            turns,
            gate,
        )
    }

    /// Gathers what the stage left once its threads are done, as [`gather`] does, and adds its
    /// receipts to `told`, those of earlier stages. It fails if memory runs out, or if a teller
    /// broke off.
    pub fn gather<R: Wait>(
        self,
        rt: &R,
        alloc: Global,
        told: Vec<Receipt>,
    ) -> Result<(Gathered, Vec<Receipt>), AllocError>
        ensures ran { IfOk result (λ left. (o : OpeningValue) (began : BeganWith)
            → IsOpening o → BeganFrom o began self → RanFrom o began left.0) }
        ensures told { IfOk result (λ left. told.items ≡ self.fabric.receipts
            → left.1.items ≡ left.0.receipts) }
    {
        let StageRun {
            fabric,
            pairs,
            pumps,
        } = self;
        let mut nodes = Vec::with_capacity(alloc, pairs.len())?;
        let mut told = told;
        for pair in pairs {
            let TellingNode { node, teller } = pair;
            add_told(&mut told, teller)?;
            nodes.push_reserved(node);
        }
        let run = RunParts {
            fabric,
            nodes,
            pumps,
        };
        match gather(rt, alloc, run) {
            Ok(gathered) => Ok((gathered, told)),
            Err(_) => Err(AllocError),
        }
    }
}

// Gives a collector to each of `nodes`.
fn pairs_of(alloc: Global, nodes: Vec<Node>) -> Result<Vec<TellingNode<Collector>>, AllocError>
    requires { AreUnanswered nodes.items }
    ensures nodes { IfOk result (λ pairs. nodes_of pairs.items ≡ nodes.items) }
    ensures collected { IfOk result (λ pairs. HaveCollected pairs.items) }
{
    let mut pairs = Vec::with_capacity(alloc, nodes.len())?;
    for node in nodes {
        let teller = Collector::new(alloc);
        pairs.push_reserved(TellingNode { node, teller });
    }
    Ok(pairs)
}

// Adds to `told` what a teller collected. Fails if it broke off, or if memory runs out.
fn add_told(told: &mut Vec<Receipt>, teller: Collector) -> Result<(), AllocError>
    ensures told { OnOk result (told.new.items ≡ told.old.items ++ teller.receipts.items) }
    ensures goes_on { OnOk result (teller.broke_off ≡ false) }
{
    let Collector {
        mut receipts,
        broke_off,
    } = teller;
    if broke_off {
        return Err(AllocError);
    }
    if told.is_empty() {
        *told = receipts;
        return Ok(());
    }
    told.append(&mut receipts)
}

// The workers of an epoch, beside its client.
ghost use Rattle.std.specs.Prelude.{◌≡◌, length};
ghost use Rattle.sq_engine.specs.Crew.{IsCrewOf, IsDriven};
ghost use Rattle.sq_engine.specs.Clients.{InStage};
ghost use Rattle.sq_engine.specs.Rings.{Serves};

use crate::client::Client;
use crate::epoch_gate::EpochGate;
use crate::meeting::serve_client;
use crate::open_jobs::OpenJobs;
use rtrb::Consumer;
use sq_driver::{RingTeller, TellingNode, WorkersEnd, run_workers};
use sq_node::{Fabric, Receipt};
use sq_shared::Pump;
use std::sync::Wait;
use std::thread::{Threads, join_mut};

/// The workers of an epoch: its nodes, with tellers that send over rings, and its pumps.
#[derive(Drop)]
pub(crate) struct Crew {
    pub(crate) pairs: Vec<TellingNode<RingTeller>>,
    pub(crate) pumps: Vec<Pump>,
}

impl Crew {
    // Drives the workers until the epoch ends, and returns how they ended.
    fn run<R: Threads + Wait + Sync>(
        &mut self,
        rt: &R,
        fabric: &Fabric,
        turns: u64,
        gate: &EpochGate,
    ) -> WorkersEnd
        requires { IsCrewOf fabric.now self.old }
        ensures { IsDriven fabric.now self.old self.new }
    {
        let end = run_workers(rt, fabric, &mut self.pairs, &mut self.pumps, turns, gate);
        gate.workers_end(end);
        end
    }
}

/// Drives the workers in threads of their own, and serves `client` in this one. Returns how the
/// workers ended, and whether each node had a thread.
pub(crate) fn run_and_serve<C: Client, R: Threads + Wait + Sync>(
    rt: &R,
    fabric: &Fabric,
    crew: &mut Crew,
    turns: u64,
    gate: &EpochGate,
    rings: &mut [Consumer<Receipt>],
    jobs: &mut OpenJobs,
    client: &mut C,
) -> (WorkersEnd, bool)
    requires crew { IsCrewOf fabric.now crew.old }
    requires rings { length rings.old ≡ fabric.now.parts }
    ensures crew { IsDriven fabric.now crew.old crew.new }
    ensures served { Serves (InStage gate.now.segments C.Becomes)
        jobs.old rings.old client.old jobs.new rings.new client.new result.1 }
{
    join_mut(
        rt,
        &mut ||
            requires { IsCrewOf fabric.now crew.now }
            ensures { IsDriven fabric.entry.now crew.entry.now crew.exit.now }
        { crew.run(rt, fabric, turns, gate) },
        &mut || -> bool
            requires { length rings.now ≡ fabric.now.parts }
            ensures { Serves (InStage gate.entry.now.segments C.Becomes)
                jobs.entry.now rings.entry.now client.entry.now
                jobs.exit.now rings.exit.now client.exit.now result }
        { serve_client(rt, fabric, gate, rings, jobs, client) },
    )
}

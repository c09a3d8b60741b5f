//! Calls of the library of which one allocation may be refused. The first letter of the input
//! chooses the call; for a call on a stored run the lines of the run follow.
#![tactic(auto)]

mod call;
mod chain;
mod engine;
mod engine_calls;
mod gathered_text;
mod hand_run;
mod input;
mod lines;
mod nodes;
mod poster;
mod printing;
mod steps;
mod stores;
mod two_stages;
mod unfinished;

use anyhow::Context;
use call::Call;
use printing::print_line;
use std::alloc::Global;
use std::io;
use std::io::Read;
use std::sync::Wait;
use std::thread::Threads;
use two_stages::Fold;
use unfinished::Unfinished;

// Tries `call`; what `reader` reads is its input.
fn try_call<R: Threads + Wait + Print + Sync, I: Read>(
    rt: &R,
    alloc: Global,
    call: Call,
    reader: &mut I,
) -> Result<(), Unfinished> {
    let mut writer = io::writer(rt);
    match call {
        Call::Steps => steps::try_steps(alloc, reader, &mut writer),
        Call::List => steps::try_list(alloc, reader, &mut writer),
        Call::Input => steps::try_input(alloc, reader, &mut writer),
        Call::VecStore => stores::try_vec_store(alloc, &mut writer),
        Call::BlockStore => stores::try_block_store(alloc, &mut writer),
        Call::Nodes => nodes::try_nodes(rt, alloc),
        Call::TwoStages => two_stages::try_two_stages(rt, alloc, Fold::InOneThread),
        Call::Folds => two_stages::try_two_stages(rt, alloc, Fold::InThreads),
        Call::Engine => engine::try_engine(rt, alloc),
        Call::Chain => chain::try_chain(rt, alloc),
    }
}

// If an allocation outside the calls that are tried was refused, the last line says so.
fn main(rt: HostRuntime) -> anyhow::Result<()> {
    let mut reader = rt.reader();
    let mut letter = [0];
    reader.read_exact(&mut letter)?;
    let call = Call::of(letter[0]).context("no call has this letter")?;
    let outcome = try_call(&rt, rt.alloc(), call, &mut reader);
    if outcome == Err(Unfinished::Memory) {
        print_line(&rt, "no memory");
    }
    outcome?;
    Ok(())
}

// Lists of deeds.
use crate::deed::{Deed, PlanChoice};
use crate::dice::Dice;
use crate::failure::Failure;
use std::alloc::Global;

/// The root keys move from one partition to four, in a stage for each of three, and back in one
/// stage, `rounds` times, while jobs come. After each move some more jobs are answered at rest. In
/// the end `jobs` are answered. Fails if memory runs out.
pub fn rounds(alloc: Global, rounds: u64, jobs: u64) -> Result<Vec<Deed>, Failure> {
    let mut deeds = Vec::new(alloc);
    let part = jobs / rounds.saturating_mul(2).saturating_add(1);
    for round in 0..rounds {
        let answers = round
            .saturating_mul(2)
            .saturating_add(1)
            .saturating_mul(part);
        add_round(&mut deeds, answers, part)?;
    }
    add(&mut deeds, Deed::ServeUntil(jobs))?;
    Ok(deeds)
}

// A move there, until `answers` jobs are answered, and a move back, until `more` further ones are.
fn add_round(deeds: &mut Vec<Deed>, answers: u64, more: u64) -> Result<(), Failure> {
    add_move(deeds, PlanChoice::Spread, 3)?;
    add(deeds, Deed::ServeUntil(answers))?;
    add_move(deeds, PlanChoice::Gathered, 1)?;
    add(deeds, Deed::ServeUntil(answers.saturating_add(more)))
}

// A move of `stages` stages.
fn add_move(deeds: &mut Vec<Deed>, choice: PlanChoice, stages: u64) -> Result<(), Failure> {
    add(deeds, Deed::GoTo(choice))?;
    add(deeds, Deed::ServeStages(Some(stages)))
}

/// Does `moves` moves, each to a random plan, in one stage or in several. Some jobs are answered
/// during each of them, or it ends before. In the end `jobs` jobs are answered. Fails if memory
/// runs out.
pub fn any_moves(alloc: Global, seed: u64, moves: u64, jobs: u64) -> Result<Vec<Deed>, Failure> {
    let mut deeds = Vec::new(alloc);
    let mut dice = Dice::new(seed);
    let mut answers = 0u64;
    for _move in 0..moves {
        answers = answers.saturating_add(dice.below(100)).min(jobs);
        add_any_move(&mut deeds, &mut dice, answers)?;
    }
    add(&mut deeds, Deed::ServeUntil(jobs))?;
    Ok(deeds)
}

// A move to any plan, until `answers` jobs are answered.
fn add_any_move(deeds: &mut Vec<Deed>, dice: &mut Dice, answers: u64) -> Result<(), Failure> {
    add(deeds, Deed::GoTo(PlanChoice::Any(dice.below(u64::MAX))))?;
    add(deeds, Deed::ServeUntil(answers))?;
    add(deeds, Deed::ServeStages(None))
}

/// Runs `epochs` epochs, with some jobs posted before each; each ends after some turns. If the
/// engine is at rest then, it may move to a random plan. In the end all jobs are answered. Fails if
/// memory runs out.
pub fn any_epochs(alloc: Global, seed: u64, epochs: u64) -> Result<Vec<Deed>, Failure> {
    let mut deeds = Vec::new(alloc);
    let mut dice = Dice::new(seed);
    for _epoch in 0..epochs {
        add_epoch(&mut deeds, &mut dice)?;
    }
    add(&mut deeds, Deed::ServeToEnd)?;
    Ok(deeds)
}

// Some jobs, an epoch of some turns, and perhaps a deed at rest.
fn add_epoch(deeds: &mut Vec<Deed>, dice: &mut Dice) -> Result<(), Failure> {
    add(deeds, Deed::Post(dice.below(50)))?;
    add(deeds, Deed::Run(dice.below(64)))?;
    match dice.below(4) {
        0 => add(deeds, Deed::GoTo(PlanChoice::Any(dice.below(u64::MAX)))),
        _ => Ok(()),
    }
}

// Adds one more deed.
fn add(deeds: &mut Vec<Deed>, deed: Deed) -> Result<(), Failure> {
    match deeds.push(deed) {
        Ok(()) => Ok(()),
        Err(_) => Err(Failure::Memory),
    }
}

// Runs commands on a store.
ghost use Rattle.std.specs.Prelude.{◌≡◌, ◌==◌, nat_lt, IsTrue, IfOk, IfErr, OnErr};
ghost use Rattle.std.specs.List.{list_any};
ghost use Rattle.sq_store.specs.StoreValue.{roots_differ, has_none_of};
ghost use Rattle.sq_store.specs.Listed.{roots_rise};
ghost use Rattle.sq_store.specs.Commands.{IsStoreAnswer, AreStoreAnswers};

use crate::command::{StoreAnswer, StoreCommand};
use crate::store::FamilyStore;
use sq_schema::{Family, Root};
use std::alloc::Global;

/// Runs `commands` in order and answers each as a finite map by root key does. A command for which
/// memory runs out answers so and changes nothing. Families that share a root key, or one of whose
/// root keys the store has, are returned without a call of the store. If there is no memory for the
/// answers, `commands` are returned and none has run.
pub fn run_store<S: FamilyStore>(
    alloc: Global,
    store: &mut S,
    commands: Vec<StoreCommand>,
) -> Result<Vec<StoreAnswer>, Vec<StoreCommand>>
    ensures ok { IfOk result (λ answers. AreStoreAnswers
        (S.contents store.old) commands.items answers.items (S.contents store.new)) }
    ensures commands_returned { IfErr result (λ back. back.items ≡ commands.items) }
    ensures err { OnErr result (S.contents store.new ≡ S.contents store.old) }
{
    let mut answers = Vec::new(alloc);
    if answers.reserve(commands.len()).is_err() {
        return Err(commands);
    }
    for command in commands {
        answers.push_reserved(answer(store, command));
    }
    Ok(answers)
}

fn answer<S: FamilyStore>(store: &mut S, command: StoreCommand) -> StoreAnswer
    ensures { IsStoreAnswer (S.contents store.old) command result (S.contents store.new) }
{
    match command {
        StoreCommand::Apply(txn) => StoreAnswer::Applied(store.apply(&txn)),
        StoreCommand::Take(extent, limit) => StoreAnswer::Taken(store.take(extent, limit)),
        StoreCommand::Give(families) if differ(&families) && has_none(store, &families) => {
            StoreAnswer::Given(store.give(families))
        }
        StoreCommand::Give(families) => StoreAnswer::NotGiven(families),
    }
}

// Returns true if no two of `families` have the same root key. Families that left a store together
// are sorted, which shows it at once; otherwise each family is looked for among those after it.
fn differ(families: &[Family]) -> bool
    ensures { result ≡ roots_differ families.now }
{
    are_sorted(families) || differ_in_pairs(families)
}

// Returns true only if the root keys rise.
fn are_sorted(families: &[Family]) -> bool
    ensures { IsTrue result → IsTrue (roots_rise families.now) }
{
    families.is_sorted_by(
        |family: &Family, next: &Family| -> bool
            ensures { result ≡ nat_lt family.now.root next.now.root }
        { family.root() < next.root() },
    )
}

// Returns true if no family is followed by one with the same root key.
fn differ_in_pairs(families: &[Family]) -> bool
    ensures { result ≡ roots_differ families.now }
{
    for (at, family) in families.iter().enumerate() {
        if has(&families[at + 1..], family.root()) {
            return false;
        }
    }
    true
}

// Returns true if one of `families` has the root key `root`.
fn has(families: &[Family], root: Root) -> bool
    ensures { result ≡ list_any (λ family. family.root == root) families.now }
{
    families.iter().any(|family| family.root() == root)
}

// Returns true if the store has no family with the root key of one of `families`.
fn has_none<S: FamilyStore>(store: &S, families: &[Family]) -> bool
    ensures { result ≡ has_none_of (S.contents store.now) families.now }
{
    families
        .iter()
        .all(|family| store.get(family.root()).is_none())
}

// Commands to a store of each kind, which answers as a finite map by root key does.
use super::fixtures::{family, have, transaction};
use sq_moves::Extent;
use sq_schema::{Family, Reply, Root, RowKey};
use sq_store::{Cut, FamilyStore, SlabStore, StoreAnswer, StoreCommand, VecStore, run_store};
use std::alloc::Global;
use std::test::Fail;

// The low and the high end of extents of which families of at most 64 bytes are taken, one after another, where 4, 7 and 9 stand; the
// root key that is taken (a second one doesn't fit), the end of the cut, and whether that is its last one.
const TAKES: [(u64, u64, Option<u64>, u64, bool); 3] = [
    (4, 9, Some(4), 7, false),
    (7, 9, Some(7), 9, true),
    (7, 9, None, 9, true),
];

// The answer to one command.
fn answer<S: FamilyStore>(
    alloc: Global,
    store: &mut S,
    command: StoreCommand,
) -> Result<StoreAnswer, Fail> {
    let mut commands = Vec::new(alloc);
    commands.push(command)?;
    let mut answers = run_store(alloc, store, commands)?;
    Ok(answers.pop().ok_or("no answer")?)
}

// The command that gives families with one row each.
fn gift(alloc: Global, roots: &[u32]) -> Result<StoreCommand, Fail> {
    let mut families = Vec::new(alloc);
    for root in roots {
        families.push(family(alloc, *root)?)?;
    }
    Ok(StoreCommand::Give(families))
}

// Whether families were put in.
fn are_given(answer: &StoreAnswer) -> bool {
    matches!(answer, StoreAnswer::Given(Ok(())))
}

// Gives families with one row each, and returns whether they were put in.
fn give<S: FamilyStore>(alloc: Global, store: &mut S, roots: &[u32]) -> Result<bool, Fail> {
    let answer = answer(alloc, store, gift(alloc, roots)?)?;
    Ok(are_given(&answer))
}

// A list of commands: three families are given, and then come [`TAKES`].
fn commands(alloc: Global) -> Result<Vec<StoreCommand>, Fail> {
    let mut commands = Vec::new(alloc);
    commands.push(gift(alloc, &[7, 4, 9])?)?;
    for (lo, hi, ..) in &TAKES {
        commands.push(StoreCommand::Take(Extent { lo: *lo, hi: *hi }, 64))?;
    }
    Ok(commands)
}

// Whether a cut is of this family alone, or of none, and ends so.
fn is_cut(cut: &Cut, root: Option<u64>, end: u64, last: bool) -> bool {
    have(&cut.families, root.as_slice()) && cut.end == end && cut.last == last
}

// Whether what is taken by these answers is what [`TAKES`] says.
fn are_taken(answers: &[StoreAnswer]) -> bool {
    for (answer, (_, _, root, end, last)) in answers.iter().zip(&TAKES) {
        match answer {
            StoreAnswer::Taken(Ok(cut)) if is_cut(cut, *root, *end, *last) => {}
            _ => return false,
        }
    }
    answers.len() == TAKES.len()
}

// Whether a list of commands is answered so, one answer for each.
fn answers_a_list<S: FamilyStore>(alloc: Global, store: &mut S) -> Result<bool, Fail> {
    let answers = run_store(alloc, store, commands(alloc)?)?;
    match answers.split_first() {
        Some((given, taken)) => Ok(are_given(given) && are_taken(taken)),
        None => Ok(false),
    }
}

// The root key of the first family from this number on.
fn walk<S: FamilyStore>(store: &S, at: u64) -> Option<u64> {
    Some(store.walk(at)?.root().number())
}

// The family of a root key.
fn get<S: FamilyStore>(store: &S, root: u64) -> Option<&Family> {
    store.get(Root::new(root)?)
}

// The number in the root row of a family that stands.
fn number_of<S: FamilyStore>(store: &S, root: u64) -> Option<i64> {
    Some(get(store, root)?.rows().get(RowKey::ROOT)?.number())
}

// Whether a transaction commits that adds 1 to the number in the root row.
fn adds_one<S: FamilyStore>(alloc: Global, store: &mut S, root: u64) -> Result<bool, Fail> {
    let line = format!(in alloc; "txn 0 1 {root} add 0 0 1")?;
    let txn = transaction(alloc, line.as_str())?;
    let answer = answer(alloc, store, StoreCommand::Apply(txn))?;
    Ok(matches!(answer, StoreAnswer::Applied(Ok(Reply::Committed(_)))))
}

// Whether three families are given and two of them taken, which are given again; and one that stands isn't given.
fn comes_and_goes<S: FamilyStore>(alloc: Global, store: &mut S) -> Result<bool, Fail> {
    let listed = answers_a_list(alloc, store)?;
    let left = walk(store, 0) == Some(9) && walk(store, 10).is_none() && get(store, 7).is_none();
    let given_again = !give(alloc, store, &[7, 9])? && give(alloc, store, &[4, 7])?;
    let stand = walk(store, 0) == Some(4) && walk(store, 5) == Some(7);
    let added = adds_one(alloc, store, 7)? && number_of(store, 7) == Some(50);
    Ok(listed && left && given_again && stand && added)
}

#[test]
fn families_come_and_go(rt: HostRuntime) -> Result<(), Fail> {
    let alloc = rt.alloc();
    assert!(rt; comes_and_goes(alloc, &mut VecStore::new(alloc))?);
    assert!(rt; comes_and_goes(alloc, &mut SlabStore::new(alloc))?);
    Ok(())
}

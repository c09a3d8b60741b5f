// A small caller of the library: it opens a world, moves a root key from one partition to another,
// and reads its row there.

ghost use Rattle.std.specs.Prelude.{◌≡◌, IfSome};
ghost use Rattle.std.specs.List.{AllPass};
ghost use Rattle.sq_examples.specs.Moves.{LeadsWithRow, is_of_the_move};

use sq_moves::LOG_LIMIT;
use sq_world::{Config, FamilyStore, GivenRow, Plan, Root, RowKey, Schema, Step, World};
use std::alloc::Global;

// Partition 0 owns all root keys; after the move partition 1 owns those from 4 up to 8.
const OLD: &[u8] = br#"{"version":1,"partitions":2,"ranges":[[0,4294967296,0]]}"#;

const NEW: &[u8] = br#"{"version":1,"partitions":2,"ranges":[[0,4,0],[4,8,1],[8,4294967296,0]]}"#;

/// Opens a world in which root key 5 has a root row with the number `number`, moves it from
/// partition 0 to partition 1, and returns the number that it reads there, which is the same.
/// Returns `None` if memory runs out.
pub fn move_one_root(alloc: Global, number: i64) -> Option<i64>
    ensures { IfSome result (λ read. read ≡ number) }
{
    let mut world = open(alloc, number)?;
    for step in &whole_move() {
        drop(world.step(step));
    }
    let family = world.store(1)?.get(Root::new(5)?)?;
    let row = family.rows().get(RowKey { table: 0, sub: 0 })?;
    Some(row.number())
}

// Returns a world in which root key 5 has a root row with the number `number`.
fn open(alloc: Global, number: i64) -> Option<World>
    ensures { IfSome result (LeadsWithRow number) }
{
    let config = Config {
        width: 1,
        limit: 64,
        capacity: 1,
        log_limit: LOG_LIMIT,
    };
    let row = GivenRow {
        root: 5,
        table: 0,
        sub: 0,
        number,
        note: Vec::new(alloc),
    };
    let old = Plan::read(alloc, OLD).ok()?;
    let new = Plan::read(alloc, NEW).ok()?;
    let rows = vec![in alloc; row].ok()?;
    World::open(alloc, Schema::new(8)?, old, new, config, rows).ok()
}

// Returns the steps of a move of segment 0 in one chunk: those of the partitions, of pull 2, and of
// the leader.
fn whole_move() -> [Step; 12]
    ensures { AllPass is_of_the_move result }
{
    [
        Step::Prepare(0),
        Step::Prepare(1),
        Step::Start,
        Step::Claim {
            seg: 0,
            node: 1,
            pull: 2,
        },
        Step::Begin {
            seg: 0,
            node: 1,
            pull: 2,
        },
        Step::Cut { src: 0, dst: 1 },
        Step::Push { src: 0, dst: 1 },
        Step::Pop { src: 0, dst: 1 },
        Step::Load { src: 0, dst: 1 },
        Step::Complete {
            seg: 0,
            node: 1,
            pull: 2,
        },
        Step::Report(1),
        Step::Finish,
    ]
}

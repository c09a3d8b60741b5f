// Pulls in one thread: claims, the requests for them, and queues of requests that are full.
ghost use Rattle.std.specs.Prelude.{◌≡◌, ◌<◌, length, IfOk};
ghost use Rattle.sq_shared.specs.Seats.{AreSeatsOf};

use super::fixtures::{ALL, ALL_OF_THREE, FOUR_KEYS, between};
use crossbeam_queue::ArrayQueue;
use sq_moves::{Leaf, Recon, SegId, Status};
use sq_plan::PartId;
use sq_shared::{Puller, Pump, PumpTurn, ReactivePull, Request, Shared, StatusTree, TreeSeat};
use std::alloc::{AllocError, Global};
use std::sync::Wait;
use std::test::Fail;

// The root keys 0 to 39 go from partition 0 to partition 1, in two segments.
const FORTY_KEYS: &str = r#"{"version":1,"partitions":2,"ranges":[[0,40,1],[40,4294967296,0]]}"#;

// The first of three partitions gives four root keys to the second, and then four to the third.
const IN_TWO_STAGES: &str =
    r#"{"version":2,"partitions":3,"ranges":[[0,4,1],[4,8,2],[8,4294967296,0]],"stages":"auto"}"#;

// What moves, what all that pull share, the reactive pulls of partition 1 with its seats, and pump 0.
#[derive(Drop)]
struct Setting {
    recon: Recon,
    trees: Vec<StatusTree>,
    requests: Vec<ArrayQueue<Request>>,
    puller: Puller,
    seats: Vec<TreeSeat>,
    pump: Pump,
    ghost some: { 0 < length recon.segments },
    ghost whole: { length trees.items ≡ length recon.segments },
    ghost seats_of: { AreSeatsOf trees.items seats.items },
    ghost pump_seats_of: { AreSeatsOf trees.items pump.seats },
}

#[derive(Clone, Copy, Debug)]
enum Call {
    // A reactive pull for this leaf of segment 0.
    Reactive(u64),
    // A turn of the pump.
    Turn,
    // Whether the pump is done.
    IsDone,
    // Sends the requests of the reactive pulls for which there was no room.
    Send,
    // Takes the next request to this partition.
    Take(usize),
}

#[derive(Clone, Copy, Debug, PartialEq, Eq)]
enum Answer {
    // The segment and the node.
    Won(u64, u64),
    Held(u64, Status),
    Nothing,
    Spent,
    Done,
    // So many requests are pending.
    Pending(usize),
    // The segment, the node and the pull.
    Asked(u64, u64, u32),
}

impl Setting {
    // What moves from one plan to another, with a fresh tree for each segment, queues for this many requests to each of two
    // partitions, nothing claimed, and a pump of a stage.
    fn opened(
        alloc: Global,
        old: &str,
        new: &str,
        stage: u64,
        capacity: usize,
    ) -> Result<Setting, Fail>
        requires { 0 < capacity }
    {
        let recon = between(alloc, old, new)?;
        if recon.segments().is_empty() {
            return Err("nothing moves")?;
        }
        let (trees, seats, others) = fresh_trees(alloc, recon.segments().len())?;
        let Ok(pump) = Pump::new(alloc, &recon, stage, 0, others) else {
            return Err("no memory for a pump")?;
        };
        Ok(Setting {
            recon,
            trees,
            requests: queues(alloc, capacity)?,
            puller: Puller::new(alloc, PartId::new(1)),
            seats,
            pump,
        })
    }

    // The outcome of a reactive pull for a leaf of segment 0.
    fn reactive<R: Wait>(&mut self, rt: &R, leaf: u64) -> Result<Answer, Fail> {
        let shared = Shared {
            recon: &self.recon,
            trees: &self.trees,
            requests: &self.requests,
        };
        let leaf = Leaf::new(leaf).ok_or("no leaf")?;
        let seg = SegId::new(0).ok_or("no segment")?;
        let pull = self
            .puller
            .reactive(rt, &shared, &mut self.seats, seg, leaf)?;
        Ok(match pull {
            ReactivePull::Won(node) => Answer::Won(0, node.number()),
            ReactivePull::Held(node, status) => Answer::Held(node.number(), status),
            ReactivePull::Spent => Answer::Spent,
        })
    }

    // The outcome of a turn of the pump.
    fn turn<R: Wait>(&mut self, rt: &R) -> Result<Answer, Fail> {
        let shared = Shared {
            recon: &self.recon,
            trees: &self.trees,
            requests: &self.requests,
        };
        Ok(match self.pump.turn(rt, &shared)? {
            PumpTurn::Won(seg, node) => Answer::Won(seg.number(), node.number()),
            PumpTurn::Nothing => Answer::Nothing,
            PumpTurn::Spent => Answer::Spent,
        })
    }

    // The next request to a partition, which is taken out of its queue.
    fn asked<R: Wait>(&self, rt: &R, part: usize) -> Answer {
        let Some(queue) = self.requests.get(part) else {
            return Answer::Nothing;
        };
        match queue.pop(rt) {
            Some(Request { seg, node, pull }) => Answer::Asked(seg, node, pull),
            None => Answer::Nothing,
        }
    }

    // What a call is answered.
    fn answer<R: Wait>(&mut self, rt: &R, call: Call) -> Result<Answer, Fail> {
        Ok(match call {
            Call::Reactive(leaf) => self.reactive(rt, leaf)?,
            Call::Turn => self.turn(rt)?,
            Call::IsDone if self.pump.is_done() => Answer::Done,
            Call::IsDone => Answer::Pending(self.pump.pending().len()),
            Call::Send => {
                self.puller.send_pending(rt, &self.requests);
                Answer::Pending(self.puller.pending().len())
            }
            Call::Take(part) => self.asked(rt, part),
        })
    }
}

// Trees with nothing claimed, and two seats of each.
fn fresh_trees(
    alloc: Global,
    count: usize,
) -> Result<(Vec<StatusTree>, Vec<TreeSeat>, Vec<TreeSeat>), AllocError>
    ensures trees { IfOk result (λ made. length made.0.items ≡ count) }
    ensures seats { IfOk result (λ made. AreSeatsOf made.0.items made.1.items
        × AreSeatsOf made.0.items made.2.items) }
    ensures count { IfOk result (λ made. length made.2.items ≡ count) }
{
    let mut trees = Vec::new(alloc);
    let mut seats = Vec::new(alloc);
    let mut others = Vec::new(alloc);
    for _place in 0..count {
        let (tree, mut first) = StatusTree::open(alloc)?;
        others.push(tree.share(&mut first))?;
        seats.push(first)?;
        trees.push(tree)?;
    }
    Ok((trees, seats, others))
}

// A queue to each of two partitions.
fn queues(alloc: Global, capacity: usize) -> Result<Vec<ArrayQueue<Request>>, AllocError>
    requires { 0 < capacity }
{
    let mut queues = Vec::new(alloc);
    for _ in 0..2 {
        queues.push(ArrayQueue::new(alloc, capacity)?)?;
    }
    Ok(queues)
}

// A list of calls with their answers.
type Story = &'static [(Call, Answer)];

// A leaf is claimed for a waiting transaction, and again; the pump takes what is left. Each claim is asked for once.
const IN_ONE_SEGMENT: Story = &[
    (Call::Reactive(1), Answer::Won(0, 33)),
    (Call::Reactive(1), Answer::Held(33, Status::Claimed(3))),
    (Call::Turn, Answer::Won(0, 32)),
    (Call::Reactive(2), Answer::Won(0, 34)),
    (Call::Turn, Answer::Won(0, 35)),
    (Call::Turn, Answer::Won(0, 9)),
    (Call::Turn, Answer::Won(0, 5)),
    (Call::Turn, Answer::Won(0, 3)),
    (Call::Reactive(31), Answer::Held(3, Status::Claimed(512))),
    (Call::Turn, Answer::Nothing),
    (Call::IsDone, Answer::Done),
    (Call::Take(0), Answer::Asked(0, 33, 3)),
    (Call::Take(0), Answer::Asked(0, 32, 0)),
    (Call::Take(0), Answer::Asked(0, 34, 131)),
    (Call::Take(0), Answer::Asked(0, 35, 128)),
    (Call::Take(0), Answer::Asked(0, 9, 256)),
    (Call::Take(0), Answer::Asked(0, 5, 384)),
    (Call::Take(0), Answer::Asked(0, 3, 512)),
    (Call::Take(0), Answer::Nothing),
    (Call::Take(1), Answer::Nothing),
];

// A pump goes round its segments.
const IN_TWO_SEGMENTS: Story = &[
    (Call::IsDone, Answer::Pending(0)),
    (Call::Turn, Answer::Won(0, 1)),
    (Call::Turn, Answer::Won(1, 1)),
    (Call::Turn, Answer::Nothing),
    (Call::Turn, Answer::Nothing),
    (Call::IsDone, Answer::Done),
    (Call::Take(0), Answer::Asked(0, 1, 0)),
    (Call::Take(0), Answer::Asked(1, 1, 128)),
    (Call::Take(0), Answer::Nothing),
];

// A pump claims in its stage alone, which has one of two segments.
const IN_THE_FIRST_STAGE: Story = &[
    (Call::Turn, Answer::Won(0, 1)),
    (Call::Turn, Answer::Nothing),
    (Call::IsDone, Answer::Done),
    (Call::Take(0), Answer::Asked(0, 1, 0)),
    (Call::Take(0), Answer::Nothing),
];

const IN_THE_SECOND_STAGE: Story = &[
    (Call::Turn, Answer::Won(1, 1)),
    (Call::Turn, Answer::Nothing),
    (Call::IsDone, Answer::Done),
    (Call::Take(0), Answer::Asked(1, 1, 0)),
    (Call::Take(0), Answer::Nothing),
];

// A pump whose request finds no room sends it at a later turn.
const FULL_FOR_THE_PUMP: Story = &[
    (Call::Turn, Answer::Won(0, 1)),
    (Call::Turn, Answer::Won(1, 1)),
    (Call::Turn, Answer::Nothing),
    (Call::Turn, Answer::Nothing),
    (Call::IsDone, Answer::Pending(1)),
    (Call::Take(0), Answer::Asked(0, 1, 0)),
    (Call::Take(0), Answer::Nothing),
    (Call::Turn, Answer::Nothing),
    (Call::IsDone, Answer::Done),
    (Call::Take(0), Answer::Asked(1, 1, 128)),
];

// The request of a reactive pull that finds no room is sent later.
const FULL_FOR_A_PARTITION: Story = &[
    (Call::Reactive(1), Answer::Won(0, 33)),
    (Call::Reactive(2), Answer::Won(0, 34)),
    (Call::Send, Answer::Pending(1)),
    (Call::Take(0), Answer::Asked(0, 33, 3)),
    (Call::Take(0), Answer::Nothing),
    (Call::Send, Answer::Pending(0)),
    (Call::Take(0), Answer::Asked(0, 34, 131)),
];

// Two plans, the stage of the pump, how many requests more than one a queue holds, and a list of calls.
const STORIES: [(&str, &str, u64, u8, Story); 6] = [
    (ALL, FOUR_KEYS, 0, 15, IN_ONE_SEGMENT),
    (ALL, FORTY_KEYS, 0, 15, IN_TWO_SEGMENTS),
    (ALL_OF_THREE, IN_TWO_STAGES, 0, 15, IN_THE_FIRST_STAGE),
    (ALL_OF_THREE, IN_TWO_STAGES, 1, 15, IN_THE_SECOND_STAGE),
    (ALL, FORTY_KEYS, 0, 0, FULL_FOR_THE_PUMP),
    (ALL, FOUR_KEYS, 0, 0, FULL_FOR_A_PARTITION),
];

// The first call that isn't answered as wanted, with its answer.
fn first_wrong<R: Wait>(
    rt: &R,
    setting: &mut Setting,
    story: Story,
) -> Result<Option<(Call, Answer)>, Fail> {
    for (call, wanted) in story {
        let answer = setting.answer(rt, *call)?;
        if answer != *wanted {
            return Ok(Some((*call, answer)));
        }
    }
    Ok(None)
}

// The same in a fresh setting.
fn first_wrong_between<R: Wait>(
    rt: &R,
    alloc: Global,
    plans: (&str, &str),
    stage: u64,
    capacity: usize,
    story: Story,
) -> Result<Option<(Call, Answer)>, Fail>
    requires { 0 < capacity }
{
    let mut setting = Setting::opened(alloc, plans.0, plans.1, stage, capacity)?;
    first_wrong(rt, &mut setting, story)
}

#[test]
fn stories(rt: HostRuntime) -> Result<(), Fail> {
    for (old, new, stage, more, story) in &STORIES {
        let capacity = usize::from(*more) + 1;
        let wrong = first_wrong_between(&rt, rt.alloc(), (old, new), *stage, capacity, story)?;
        assert!(rt;
            wrong.is_none(),
            "{wrong:?} in stage {stage} to {new} with {capacity}"
        );
    }
    Ok(())
}

//! Laws about epochs that were served. The functions do nothing: each states a law, which the
//! checker proves.
ghost use Rattle.std.specs.Prelude.{ℕ, List, length};
ghost use Rattle.sq_node.specs.NodeState.{NodeState};
ghost use Rattle.sq_engine.specs.declared.event.Event.{Event};
ghost use Rattle.sq_engine.specs.Clients.{ChangesClientEach, InStage};
ghost use Rattle.sq_serving.specs.Becoming.{ServeDeskValue, Becomes};
ghost use Rattle.sq_serving.specs.Written.{ServesEpoch, WritesInterleaved, AnswersEach};

/// The receipts whose lines a desk writes over an epoch are an interleaving of those that the
/// partitions gave it: each once, those of each partition in their order, and no others.
pub fn an_epoch_writes_an_interleaving()
    ensures { (events : List Event) (nodes : List NodeState) (before after : ServeDeskValue)
        (epoch : ServesEpoch events nodes before after)
        → WritesInterleaved (length nodes) events epoch.writes.said }
{}

/// Over the events of an epoch a desk writes the line of each answer that it is given, and
/// settles each line that it hears: by exactly one line that it writes, by a job, or by a wish that
/// it keeps.
pub fn an_epoch_settles_each_line()
    ensures { (segments : ℕ) (events : List Event) (first last : ServeDeskValue)
        → ChangesClientEach (InStage segments Becomes) first events last
        → AnswersEach events first last }
{}

// The moves that wait until no rows move.
ghost use Rattle.std.specs.Prelude.{◌≡◌, ◌==◌, [], ◌∷◌, ◌++◌, length, nat_le, IsTrue, OnOk, OnErr, MatchOption};

use crate::desk::AskedMove;
use std::alloc::{AllocError, Global};
use std::collections::VecDeque;
use std::marker::Model;

/// How many moves may wait.
pub const QUEUE_ROOM: usize = 16;

/// The moves that wait until no rows move, in the order of their lines. Contracts see a list.
#[derive(Drop)]
pub struct MoveQueue {
    moves: VecDeque<AskedMove>,
}

impl Model for MoveQueue {
    ghost use Rattle.std.specs.Prelude.{List};
    ghost use Rattle.sq_serving.specs.declared.desk.AskedMove.{AskedMove};

    ghost Value = { List AskedMove };

    ghost view = { λ q. q.moves.items };
}

impl MoveQueue {
    /// A queue in which no move waits.
    pub fn new(alloc: Global) -> MoveQueue
        ensures { result ≡ [] }
    {
        MoveQueue {
            moves: VecDeque::new(alloc),
        }
    }

    /// How many moves wait.
    pub fn len(&self) -> usize
        ensures { result ≡ length self.now }
    {
        self.moves.len()
    }

    pub fn is_empty(&self) -> bool
        ensures length { result ≡ (length self.now == 0) }
        ensures empty { IsTrue result → self.now ≡ [] }
    {
        self.moves.is_empty()
    }

    /// Returns whether as many wait as may.
    pub fn is_full(&self) -> bool
        ensures { result ≡ nat_le QUEUE_ROOM (length self.now) }
    {
        self.moves.len() >= QUEUE_ROOM
    }

    /// Lets a move wait after the others. Fails, and changes nothing, if memory runs out.
    pub fn put(&mut self, asked: AskedMove) -> Result<(), AllocError>
        ensures ok { OnOk result (self.new ≡ self.old ++ asked ∷ []) }
        ensures err { OnErr result (self.new ≡ self.old) }
    {
        match self.moves.push_back(asked) {
            Ok(()) => Ok(()),
            Err(_) => Err(AllocError),
        }
    }

    /// Takes the move that waits first.
    pub fn take_first(&mut self) -> Option<AskedMove>
        ensures { MatchOption result ((self.old ≡ []) × (self.new ≡ []))
            (λ asked. self.old ≡ asked ∷ self.new) }
    {
        self.moves.pop_front()
    }

    /// Takes the move that waits last.
    pub fn take_last(&mut self) -> Option<AskedMove>
        ensures { MatchOption result ((self.old ≡ []) × (self.new ≡ []))
            (λ asked. self.old ≡ self.new ++ asked ∷ []) }
    {
        self.moves.pop_back()
    }
}

// Ways to write what moves.
ghost use Rattle.std.specs.Prelude.{ℕ, List, IfOk};
ghost use Rattle.sq_moves.specs.Prelude.{ReconValue};
ghost use Rattle.sq_world.specs.Listing.{IsTold};

use sq_moves::Recon;
use std::alloc::Global;
use std::io;
use std::io::Write;

/// Whether what moves was written.
#[derive(Clone, Copy, Debug, PartialEq, Eq)]
pub enum Told {
    Written,
    /// Memory ran out, and nothing was written.
    NoMemory,
}

/// A way to write what moves.
pub trait Telling {
    /// The texts that it may write for a reconfiguration.
    ghost tells: { Self → ReconValue → List ℕ → Type 0 };

    /// Writes what moves by `recon`, or returns [`Told::NoMemory`]. Fails if a write fails.
    fn tell<W: Write>(&self, alloc: Global, writer: &mut W, recon: &Recon) -> io::Result<Told>
        ensures { IfOk result (IsTold (tells self.now) recon.now (W.contents writer.old)
            (W.contents writer.new)) };
}

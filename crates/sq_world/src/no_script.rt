// Why a script wasn't written.
ghost use Rattle.std.specs.Prelude.{◌≡◌};
ghost use Rattle.sq_world.specs.Scripts.{fault_of};

use sq_text::{InputFault, LocatedFault};
use std::io;

/// Why a script wasn't written.
#[derive(Clone, Copy, Debug, PartialEq, Eq)]
pub(crate) enum NoScript {
    /// Memory ran out.
    Memory,
    /// The header and the script would have too many lines.
    TooLong,
}

impl NoScript {
    pub(crate) fn fault(self) -> LocatedFault
        ensures { result ≡ fault_of self }
    {
        match self {
            NoScript::Memory => InputFault::Memory.at_no_line(),
            NoScript::TooLong => InputFault::TooLong.at_no_line(),
        }
    }
}

impl From<io::Error> for NoScript {
    ghost use Rattle.std.specs.Prelude.{◌≡◌};
    ghost use Rattle.sq_world.specs.declared.no_script.NoScript.TheVariants.{Memory};

    ghost from_gives = { λ _ refused. refused ≡ Memory };

    fn from(_error: io::Error) -> NoScript {
        NoScript::Memory
    }
}

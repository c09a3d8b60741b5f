// Options that don't go together, and their errors.
ghost use Rattle.std.specs.Prelude.{◌≡◌, IfOk};
ghost use Rattle.clap.specs.Values.{kind_of};
ghost use Rattle.sq_command.specs.Options.{clash_kind};

use clap::Command;
use clap::error::{Error, ErrorKind};
use std::alloc::{AllocError, AllocFailed, Global};

/// Why the options of a subcommand are refused.
#[derive(Clone, Copy, Debug, PartialEq, Eq)]
pub enum Clash {
    /// `--new` is given without `--old`.
    NoOld,
    /// `--old` is given without `--new`.
    NoNew,
    /// The plans are missing: `--rows` is given without them, or the subcommand requires them.
    NoPlans,
    /// `--json` and `--svg` are both given.
    TwoForms,
    /// No root key is named.
    NoKeys,
    /// A word isn't a root key.
    BadKey,
    /// No folder is named.
    NoFolder,
    /// `--rows` is given without `--plan`.
    NoEnginePlan,
    /// `--json` is given without `--echo`.
    NoEcho,
    /// Memory ran out.
    Memory,
}

impl From<AllocFailed<u32>> for Clash {
    ghost use Rattle.std.specs.Prelude.{◌≡◌};
    ghost use Rattle.sq_command.specs.declared.clash.Clash.TheVariants.{Memory};

    ghost from_gives = { λ _ clash. clash ≡ Memory };

    fn from(_error: AllocFailed<u32>) -> Clash {
        Clash::Memory
    }
}

impl Clash {
    // The kind of the error, in `clap`'s terms.
    fn kind(self) -> ErrorKind
        ensures { result ≡ clash_kind self }
    {
        match self {
            Clash::TwoForms => ErrorKind::ArgumentConflict,
            Clash::BadKey => ErrorKind::ValueValidation,
            Clash::Memory => ErrorKind::OutOfMemory,
            _ => ErrorKind::MissingRequiredArgument,
        }
    }

    // The message, in `clap`'s words.
    fn message(self) -> &'static str {
        match self {
            Clash::NoOld => "the following required arguments were not provided:\n  --old <FILE>",
            Clash::NoNew => "the following required arguments were not provided:\n  --new <FILE>",
            Clash::NoPlans => {
                "the following required arguments were not provided:\n  --old <FILE>\n  --new <FILE>"
            }
            Clash::TwoForms => "the argument '--json' cannot be used with '--svg'",
            Clash::NoKeys => "the following required arguments were not provided:\n  <KEY>...",
            Clash::BadKey => "a root key is a whole number below 4294967296",
            Clash::NoFolder => "the following required arguments were not provided:\n  <DIR>",
            Clash::NoEnginePlan =>
                "the following required arguments were not provided:\n  --plan <FILE>",
            Clash::NoEcho => "the following required arguments were not provided:\n  --echo",
            Clash::Memory => "out of memory",
        }
    }

    // What may follow the subcommand's name.
    fn usage(self) -> &'static str {
        match self {
            Clash::NoOld | Clash::NoNew => "--old <FILE> --new <FILE> [FILE]",
            Clash::NoPlans => "--old <FILE> --new <FILE> --rows <FILE> [FILE]",
            Clash::TwoForms | Clash::Memory => "[OPTIONS] [FILE]",
            Clash::NoKeys | Clash::BadKey => "--old <FILE> --new <FILE> <KEY>...",
            Clash::NoFolder => "<DIR>",
            Clash::NoEnginePlan => "--plan <FILE> --rows <FILE> [FILE]",
            Clash::NoEcho => "--echo --json [FILE]",
        }
    }
}

/// The error that reports `clash` among the options of the subcommand `name`. Fails if memory runs
/// out.
pub fn refusal(alloc: Global, name: &str, clash: Clash) -> Result<Error, AllocError>
    ensures { IfOk result (λ error. kind_of error ≡ clash_kind clash) }
{
    let usage = format!(in alloc; "squall {name} {}", clash.usage())?;
    Command::new(alloc, name)
        .override_usage(usage.as_str())
        .error(clash.kind(), clash.message())
}

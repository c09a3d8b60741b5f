// The outcome of a live run as JSON.
use serde_json::{Value, json};
use sq_live::{LiveEnding, LiveOutcome};
use std::alloc::{AllocError, Global};
use std::io;
use std::io::Write;

/// Writes how a live run ended as one line of JSON, with its exit `status`. Fails if a write fails
/// or memory runs out.
pub fn write_outcome<W: Write>(
    alloc: Global,
    writer: &mut W,
    ending: LiveEnding,
) -> io::Result<()> {
    let text = outcome_value(alloc, ending)?.to_string(alloc)?;
    writeln!(writer, "{text}")?;
    writer.flush()
}

// How a live run ended, as JSON: the words of its line, and the exit status.
fn outcome_value(alloc: Global, ending: LiveEnding) -> Result<Value, AllocError> {
    let status = ending.status();
    match ending {
        LiveEnding::Done(
            LiveOutcome::Sound {
                families,
                committed,
            },
        ) => json!(in alloc; {
            "committed": committed,
            "families": families,
            "outcome": "sound",
            "status": status
        }),
        LiveEnding::Done(
            LiveOutcome::Stopped {
                answered,
                jobs,
                complete,
                segments,
            },
        ) => json!(in alloc; {
            "answered": answered,
            "complete": complete,
            "jobs": jobs,
            "outcome": "stopped",
            "segments": segments,
            "status": status
        }),
        LiveEnding::Done(LiveOutcome::Unsound(defect)) => json!(in alloc; {
            "number": defect.number(),
            "outcome": "unsound",
            "status": status
        }),
        LiveEnding::Fault(fault) => json!(in alloc; {
            "number": fault.number(),
            "outcome": "fault",
            "status": status
        }),
    }
}

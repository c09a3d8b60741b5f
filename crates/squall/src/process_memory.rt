// The memory of the process.
use std::fs;
use std::io::Read;
use std::rt::Files;

// Where Linux says how much memory a process has.
const STATUS: &str = "/proc/self/status";

// The word before the number of kibibytes that are in main memory.
const RESIDENT: &str = "VmRSS:";

/// How many bytes of main memory the process has; `None` if the system doesn't say it.
pub fn process_memory<T: Files + AllocGlobal>(rt: &T) -> Option<u64> {
    let mut text = Vec::new(rt.alloc());
    let mut file = fs::open(rt, STATUS).ok()?;
    file.read_to_end(&mut text).ok()?;
    let text = String::from_utf8(text).ok()?;
    resident_in(text.as_str())
}

// The bytes of main memory that the text of the system names.
fn resident_in(text: &str) -> Option<u64> {
    let mut is_next = false;
    for word in text.split_whitespace() {
        if is_next {
            let kibibytes = word.parse::<u64>().ok()?;
            return kibibytes.checked_mul(1024);
        }
        is_next = word == RESIDENT;
    }
    None
}

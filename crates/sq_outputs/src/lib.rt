//! Files that a run writes: each whole or not at all, and never over a file that it reads; and an
//! output that may be a pipe, or JSON.
#![tactic(auto)]

mod conflict;
mod echo_json;
mod folder;
mod pipe;
mod saving;
mod system;

pub use conflict::{Conflict, Output, conflict_among};
pub use echo_json::EchoAsJson;
pub use folder::Folder;
pub use pipe::PipeEnd;
pub use saving::{NewFile, Unsaved, part_name, save};
pub use system::{
    SystemFolder, file_to_write, is_folder, is_other_than_file, leads_nowhere, place_of,
    place_of_standard_input, place_of_standard_output, try_to_make, write_device,
};

//! What moves between two plans, as JSON and as a picture, and texts about an opening before it
//! runs: how large its move is, and who owns a root key.
#![tactic(auto)]

mod asked;
mod cutting;
mod json_text;
mod listing;
mod moves_svg;
mod owners;
mod owners_json;
mod proposal;
mod size;
mod size_json;
mod size_lines;
mod size_svg;
mod sizes;
mod svg;

pub use asked::{OpeningTelling, tell_opening};
pub use json_text::moves_json;
pub use listing::{AsJson, AsSvg};
pub use moves_svg::write_moves_svg;
pub use owners::OwnersAsLines;
pub use owners_json::OwnersAsJson;
pub use size::{MovePart, Size};
pub use sizes::SizesAs;

// Moves that an engine refuses.
use crate::line_place::LinePlace;

/// A move that an engine refuses.
#[derive(Clone, Copy, Debug)]
pub struct RefusedMove<'a> {
    /// The number of the refusal.
    pub number: u16,
    /// The place of the line that asks for it.
    pub place: LinePlace,
    /// The text of the plan in force.
    pub old: &'a str,
    /// The text of the plan that is asked for.
    pub new: &'a str,
    /// How many root keys a leaf has.
    pub width: u64,
}

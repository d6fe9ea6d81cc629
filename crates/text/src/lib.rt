// Text for a person to read: a line that is being written, and numbers.
#![tactic(auto, using(crate::proofs::Adding::added_append), unfolding(crate::specs::Lines::added))]

mod buffer;
mod numbers;

pub use buffer::Line;

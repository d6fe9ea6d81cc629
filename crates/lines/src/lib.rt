// The lines that the tool prints for a figure, a way and a listing, in words or, with `plain`, as one name and value a line. Each function promises the exact text.
#![tactic(auto, using(text::proofs::Adding::added_append, text::proofs::Adding::padded), unfolding(text::specs::Lines::added))]

mod calls;
mod figures;
mod places;
mod ports;

pub use calls::level;
pub use figures::{figure, longest};
pub use places::{Code, list_heading, way_heading};
pub use ports::ports_wrong;

// The lines that the tool prints for a run, a routine's run, a trace and a replay, in words or, with `plain`, as one name and value a line. Each function promises the exact text.
#![tactic(auto, using(text::proofs::Adding::added_append, text::proofs::Adding::padded), unfolding(text::specs::Lines::added))]

mod replays;
mod routines;
mod runs;
mod traces;

pub use replays::{differs, replayed, stopped, there};
pub use routines::{out_registers, ran_out};
pub use runs::{Given, ran, registers, wrong};
pub use traces::{trace_heading, traced};

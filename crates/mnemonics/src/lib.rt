// An instruction as the maker's assembler writes it.
#![tactic(auto, using(text::proofs::Adding::added_append), unfolding(text::specs::Lines::added))]

mod instructions;
mod names;
mod operands;

pub use instructions::instruction;

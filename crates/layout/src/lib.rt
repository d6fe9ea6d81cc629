// How instructions, registers and answers travel as numbers in lent arrays: the tables of host/h8.h.
#![tactic(auto)]

pub mod choices;
pub mod lent;
pub mod rows;

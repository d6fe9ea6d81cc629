// What a step is told as, the conditions of branches, and where PC can be. The step itself is `run::single`: a step is compiled once, into the loop of a run.
#![tactic(auto)]

ghost use Rattle.std.specs.Prelude.{◌≡◌};
ghost use Rattle.step.specs.Follow.{even_condition, holds_of};
ghost use Rattle.step.specs.Step.{good_pc};

use refusal::Refusal;
use registers::{Condition, Registers};

// The registers after a step, its states, and whether it was refused.
#[derive(Clone, Copy, Debug, PartialEq, Eq)]
pub struct StepAnswer {
    pub regs: Registers,
    pub states: u32,
    pub outcome: Result<(), Refusal>,
}

// The condition of an even digit, by half of it.
pub fn even_condition(k: u8, f: Condition) -> bool
    ensures { result ≡ even_condition k f }
{
    match k {
        0 => true,
        1 => !(f.c | f.z),
        2 => !f.c,
        3 => !f.z,
        4 => !f.v,
        5 => !f.n,
        6 => !(f.n ^ f.v),
        _ => !(f.z | (f.n ^ f.v)),
    }
}

// Whether the condition of a digit holds.
pub fn holds(c: u8, f: Condition) -> bool
    ensures { result ≡ holds_of c f }
{
    even_condition(c / 2, f) ^ (c % 2 == 1)
}

pub fn good_pc(pc: u32) -> bool
    ensures { result ≡ good_pc pc }
{
    (pc % 2 == 0) & (pc < 16777216)
}

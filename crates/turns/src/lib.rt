// What an entry comes to: the registers are written where they lie, and the rest is handed back.
#![tactic(auto)]

ghost use Rattle.std.specs.Prelude.{◌≡◌, Ok, Err};
ghost use Rattle.turns.specs.MirrorTurn.{turn, ended_of};

use operate::Deed;
use refusal::Refusal;
use registers::Condition;

// The condition byte after it, where PC goes, the states, and how it went.
#[derive(Clone, Copy)]
pub struct Turn {
    pub condition: Condition,
    pub pc: u32,
    pub states: u32,
    pub outcome: Result<(), Refusal>,
}

pub fn done(f: Condition, p: u32, n: u32) -> Turn
    ensures { result ≡ turn f p n (Ok tt) }
{
    Turn {
        condition: f,
        pc: p,
        states: n,
        outcome: Ok(()),
    }
}

// A refused turn sets no PC and adds no states; f is the condition byte before it.
pub fn refuse(f: Condition, x: Refusal) -> Turn
    ensures { result ≡ turn f 0 0 (Err x) }
{
    Turn {
        condition: f,
        pc: 0,
        states: 0,
        outcome: Err(x),
    }
}

// A deed that may have been refused, with PC set to p.
pub fn ended(e: Deed, p: u32, n: u32) -> Turn
    ensures { result ≡ ended_of e.outcome e.condition p n }
{
    let o = e.outcome;
    match o {
        Ok(()) => done(e.condition, p, n),
        Err(x) => refuse(e.condition, x),
    }
}

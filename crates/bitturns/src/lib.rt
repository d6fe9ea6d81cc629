// The bit instructions as entries: variant k, operands x. A group is called once, from the loop of a run.
#![tactic(auto)]

ghost use Rattle.std.specs.Borrow.{Bor};
ghost use Rattle.std.specs.Prelude.{◌≡◌};
ghost use Rattle.turns.specs.MirrorTurn.{Turns, TurnsOn, Trails, touched_by};
ghost use Rattle.entry.specs.Entry.{take_as, give_as, index_as, taken_in, given_in, taken_at, given_at};
ghost use Rattle.bitturns.specs.MirrorBitturns.{address_in};

use arith::Width;
use codes::{Give, Index, Take};
use memory::Board;
use registers::Condition;
use turns::Turn;

fn take_as(k: u8) -> Take
    ensures { result ≡ take_as k }
{
    match k {
        0 => Take::Btst,
        1 => Take::Bor,
        2 => Take::Bior,
        3 => Take::Bxor,
        4 => Take::Bixor,
        5 => Take::Band,
        6 => Take::Biand,
        7 => Take::Bld,
        _ => Take::Bild,
    }
}

fn give_as(k: u8) -> Give
    ensures { result ≡ give_as k }
{
    match k {
        0 => Give::Bset,
        1 => Give::Bnot,
        2 => Give::Bclr,
        3 => Give::Bst,
        _ => Give::Bist,
    }
}

// A number of the code, or 16 and a register's digit.
fn index_as(i: u8) -> Index
    ensures { result ≡ index_as i }
{
    if i < 16 {
        Index::Numbered(i % 8)
    } else {
        Index::ByPart(i % 16)
    }
}

// An ER's digit, or 256 and aa:8.
fn address(s: u32, er: &[u32; 8]) -> u32
    ensures { result ≡ address_in s er.now }
{
    if s < 256 {
        registers::get(Width::Long, er, (s % 8) as u8)
    } else {
        0xFFFF00 + s % 256
    }
}

// Kind 16: BTST to BILD of a byte register.
pub fn take(k: u8, x: u64, pc: u32, er: &[u32; 8], f: Condition) -> Turn
    ensures { Turns (taken_in k x) er.now er.now pc f result }
{
    let index = index_as((x / 16 % 32) as u8);
    let g = bitwork::take(take_as(k), index, (x % 16) as u8, er, f);
    turns::done(g, flow::next(pc, 2), 2)
}

// Kind 17: BSET to BIST of a byte register.
pub fn give(k: u8, x: u64, pc: u32, er: &mut [u32; 8], f: Condition) -> Turn
    ensures { Turns (given_in k x) er.old er.new pc f result }
{
    let index = index_as((x / 16 % 32) as u8);
    let g = bitwork::give(give_as(k), index, (x % 16) as u8, er, f);
    turns::done(g, flow::next(pc, 2), 2)
}

// Kind 18: BTST to BILD of a byte in memory.
pub fn take_at(
    k: u8,
    x: u64,
    pc: u32,
    er: &[u32; 8],
    f: Condition,
    b: Board,
    rom: &[u8],
    ram: &[u8],
    trail: &mut u64,
) -> Turn
    ensures did { TurnsOn (taken_at k x) er.now er.now pc f b rom.now ram.now ram.now result }
    ensures told { Trails (touched_by (taken_at k x)) er.now f trail.old trail.new result }
{
    let index = index_as((x / 512 % 32) as u8);
    let a = address((x % 512) as u32, er);
    let e = bitwork::take_at(take_as(k), index, a, er, f, b, rom, ram, trail);
    let n = timing::access(b.site, Width::Byte, a);
    turns::ended(e, flow::next(pc, 4), 4 + n)
}

// Kind 19: BSET to BIST of a byte in memory, which is read and written.
pub fn give_at(
    k: u8,
    x: u64,
    pc: u32,
    er: &[u32; 8],
    f: Condition,
    b: Board,
    rom: &[u8],
    ram: &mut [u8],
    trail: &mut u64,
) -> Turn
    ensures did { TurnsOn (given_at k x) er.now er.now pc f b rom.now ram.old ram.new result }
    ensures told { Trails (touched_by (given_at k x)) er.now f trail.old trail.new result }
{
    let index = index_as((x / 512 % 32) as u8);
    let a = address((x % 512) as u32, er);
    let e = bitwork::give_at(give_as(k), index, a, er, f, b, rom, ram, trail);
    let n = timing::access(b.site, Width::Byte, a);
    turns::ended(e, flow::next(pc, 4), 4 + n + n)
}

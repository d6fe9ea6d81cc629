// The entries with memory, jumps, calls and products, by their kind: variant k, operands x. A group is called once, from the loop of a run: the compiler then
// puts it into that loop. MOV with memory is in `moving`.
#![tactic(auto)]

ghost use Rattle.std.specs.Prelude.{◌≡◌, ◌%◌, Ok};
ghost use Rattle.codes.specs.Cycles.{pushes, touches_of};
ghost use Rattle.codes.specs.declared.Reach.TheVariants.{Near, Far};
ghost use Rattle.codes.specs.declared.Target.TheVariants.{Vector};
ghost use Rattle.codes.specs.declared.Instruction.TheVariants.{Jmp, Bsr, Jsr, Rts};
ghost use Rattle.turns.specs.MirrorTurn.{TurnsOn, Trails, touched_by};
ghost use Rattle.entry.specs.Entry as Entry;
ghost use Rattle.transfer.specs.MirrorTransfer.{Anywhere, AnyCode, Called};

use arith::Width;
use codes::Reach;
use memory::Board;
use products::Half;
use refusal::Refusal;
use registers::Condition;
use turns::Turn;

pub mod moving;

// RTS: PC is what lies at ER7, and ER7 is raised.
fn returned(
    er: &mut [u32; 8],
    f: Condition,
    b: Board,
    rom: &[u8],
    ram: &[u8],
    trail: &mut u64,
) -> Turn
    ensures did { Anywhere Rts er.old er.new f b rom.now ram.now result }
    ensures told { Trails (touches_of Rts) er.old f trail.old trail.new result }
{
    let at = registers::get(Width::Long, er, 7);
    match memory::read(Width::Long, b, rom, ram, at, trail) {
        Ok(p) => {
            let n = 6 + timing::access(b.site, Width::Long, at);
            turns::done(moves::popped(er, f), p, n)
        }
        Err(x) => turns::refuse(f, x),
    }
}

// Kind 9: what has few operands, RTS, and the refusals at a place that has no code.
pub fn single(
    k: u8,
    x: u64,
    pc: u32,
    er: &mut [u32; 8],
    f: Condition,
    b: Board,
    rom: &[u8],
    ram: &[u8],
    trail: &mut u64,
) -> Turn
    ensures did { TurnsOn (Entry.single pc k x) er.old er.new pc f b rom.now ram.now ram.now result }
    ensures told { Trails (touched_by (Entry.single pc k x)) er.old f trail.old trail.new result }
{
    let d = (x % 16) as u8;
    let v = (x % 256) as u32;
    let next = flow::next(pc, 2);
    match k {
        0 => turns::done(f, next, 2),
        1 => turns::done(operate::stc(er, d, f), next, 2),
        2 => turns::done(operate::ldc_reg(er, d), next, 2),
        3 => turns::done(operate::orc(v, f), next, 2),
        4 => turns::done(operate::xorc(v, f), next, 2),
        5 => turns::done(operate::andc(v, f), next, 2),
        6 => turns::done(operate::ldc(v), next, 2),
        7 => turns::done(operate::extu(Width::Word, er, d, f), next, 2),
        8 => turns::done(operate::extu(Width::Long, er, d, f), next, 2),
        9 => turns::done(operate::exts(Width::Word, er, d, f), next, 2),
        10 => turns::done(operate::exts(Width::Long, er, d, f), next, 2),
        11 => turns::ended(operate::daa(er, d, pc, f), next, 2),
        12 => turns::ended(operate::das(er, d, pc, f), next, 2),
        13 => returned(er, f, b, rom, ram, trail),
        14 => turns::refuse(f, left::refusal(pc, (x % 256) as u8)),
        _ => turns::refuse(f, Refusal::CutShort(pc)),
    }
}

// JMP @@aa:8.
fn jump_vector(
    a: u8,
    er: &[u32; 8],
    f: Condition,
    b: Board,
    rom: &[u8],
    ram: &[u8],
    trail: &mut u64,
) -> Turn
    ensures did { Anywhere (Jmp (Vector a)) er.now er.now f b rom.now ram.now result }
    ensures told { Trails (touches_of (Jmp (Vector a))) er.now f trail.old trail.new result }
{
    let at = a as u32;
    match memory::read(Width::Long, b, rom, ram, at, trail) {
        Ok(p) => turns::done(f, p, 6 + timing::access(b.site, Width::Long, at)),
        Err(x) => turns::refuse(f, x),
    }
}

// A call of the address `to`, which was found before anything is pushed: so 5 is looked for before 6. n is the states without the push, which
// was made where ER7 then points.
fn called(
    next: u32,
    to: u32,
    n: u16,
    er: &mut [u32; 8],
    f: Condition,
    b: Board,
    ram: &mut [u8],
    trail: &mut u64,
) -> Turn
    ensures did { Called next to n er.old er.new f b ram.old ram.new result }
    ensures told { Trails pushes er.old f trail.old trail.new result }
{
    let e = moves::call(next, er, f, b, ram, trail);
    let at = registers::get(Width::Long, er, 7);
    turns::ended(e, to, n as u32 + timing::access(b.site, Width::Long, at))
}

// BSR.
fn call_near(
    d: u8,
    pc: u32,
    er: &mut [u32; 8],
    f: Condition,
    b: Board,
    ram: &mut [u8],
    trail: &mut u64,
) -> Turn
    ensures did { AnyCode (Ok (Bsr (Near d), 2)) er.old er.new pc f b ram.old ram.new result }
    ensures told { Trails pushes er.old f trail.old trail.new result }
{
    let next = flow::next(pc, 2);
    let to = flow::target(next, Reach::Near(d));
    called(next, to, 4, er, f, b, ram, trail)
}

fn call_far(
    d: u16,
    pc: u32,
    er: &mut [u32; 8],
    f: Condition,
    b: Board,
    ram: &mut [u8],
    trail: &mut u64,
) -> Turn
    ensures did { AnyCode (Ok (Bsr (Far d), 4)) er.old er.new pc f b ram.old ram.new result }
    ensures told { Trails pushes er.old f trail.old trail.new result }
{
    let next = flow::next(pc, 4);
    let to = flow::target(next, Reach::Far(d));
    called(next, to, 6, er, f, b, ram, trail)
}

// JSR @@aa:8.
fn call_vector(
    a: u8,
    pc: u32,
    er: &mut [u32; 8],
    f: Condition,
    b: Board,
    rom: &[u8],
    ram: &mut [u8],
    trail: &mut u64,
) -> Turn
    ensures did { TurnsOn (Ok (Jsr (Vector a), 2)) er.old er.new pc f b rom.now ram.old ram.new result }
    ensures told { Trails (touches_of (Jsr (Vector a))) er.old f trail.old trail.new result }
{
    let at = a as u32;
    match memory::read(Width::Long, b, rom, &ram[..], at, trail) {
        Ok(p) => {
            let n = 4 + timing::access(b.site, Width::Long, at);
            called(flow::next(pc, 2), p, n as u16, er, f, b, ram, trail)
        }
        Err(x) => turns::refuse(f, x),
    }
}

// Kind 15: jumps and calls, products and quotients.
pub fn jump(
    k: u8,
    x: u64,
    pc: u32,
    er: &mut [u32; 8],
    f: Condition,
    b: Board,
    rom: &[u8],
    ram: &mut [u8],
    trail: &mut u64,
) -> Turn
    ensures did { TurnsOn (Entry.jumps k x) er.old er.new pc f b rom.now ram.old ram.new result }
    ensures told { Trails (touched_by (Entry.jumps k x)) er.old f trail.old trail.new result }
{
    match k {
        0 => turns::done(f, registers::get(Width::Long, er, (x % 8) as u8), 4),
        1 => turns::done(f, (x % 16777216) as u32, 6),
        2 => jump_vector((x % 256) as u8, er, f, b, rom, &ram[..], trail),
        3 => call_near((x % 256) as u8, pc, er, f, b, ram, trail),
        4 => call_far((x % 65536) as u16, pc, er, f, b, ram, trail),
        5 => called(
            flow::next(pc, 2),
            registers::get(Width::Long, er, (x % 8) as u8),
            4,
            er,
            f,
            b,
            ram,
            trail,
        ),
        6 => called(
            flow::next(pc, 4),
            (x % 16777216) as u32,
            6,
            er,
            f,
            b,
            ram,
            trail,
        ),
        7 => call_vector((x % 256) as u8, pc, er, f, b, rom, ram, trail),
        8 => turns::done(
            multiply::mulxu(Half::Eight, er, (x / 16 % 16) as u8, (x % 16) as u8, f),
            flow::next(pc, 2),
            14,
        ),
        9 => turns::done(
            multiply::mulxu(Half::Sixteen, er, (x / 8 % 16) as u8, (x % 8) as u8, f),
            flow::next(pc, 2),
            22,
        ),
        10 => turns::done(
            multiply::mulxs(Half::Eight, er, (x / 16 % 16) as u8, (x % 16) as u8, f),
            flow::next(pc, 4),
            16,
        ),
        11 => turns::done(
            multiply::mulxs(Half::Sixteen, er, (x / 8 % 16) as u8, (x % 8) as u8, f),
            flow::next(pc, 4),
            24,
        ),
        12 => turns::ended(
            multiply::divxu(Half::Eight, er, (x / 16 % 16) as u8, (x % 16) as u8, pc, f),
            flow::next(pc, 2),
            14,
        ),
        13 => turns::ended(
            multiply::divxu(Half::Sixteen, er, (x / 8 % 16) as u8, (x % 8) as u8, pc, f),
            flow::next(pc, 2),
            22,
        ),
        14 => turns::ended(
            multiply::divxs(Half::Eight, er, (x / 16 % 16) as u8, (x % 16) as u8, pc, f),
            flow::next(pc, 4),
            16,
        ),
        _ => turns::ended(
            multiply::divxs(Half::Sixteen, er, (x / 8 % 16) as u8, (x % 8) as u8, pc, f),
            flow::next(pc, 4),
            24,
        ),
    }
}

// MOV with memory, kinds 10 to 12. Variants 0 to 5 load, 8 to 13 store: @ER, @ER+ or @-ER, d:16, aa:8, aa:16, aa:24. Each width has functions of its own that are
// called once: the compiler then puts all of them into the loop of a run.
ghost use Rattle.std.specs.Prelude.{◌≡◌, ◌/◌, ◌%◌, [], ◌∷◌, Ok};
ghost use Rattle.arith.specs.declared.Width.TheVariants.{Byte, Word, Long};
ghost use Rattle.arith.specs.Logic.{exts_of};
ghost use Rattle.codes.specs.Cycles.{touch};
ghost use Rattle.codes.specs.declared.Place.TheVariants.{Step, Abs24};
ghost use Rattle.codes.specs.declared.Instruction.TheVariants.{Move};
ghost use Rattle.turns.specs.MirrorTurn.{TurnsOn, Trails, touched_by};
ghost use Rattle.entry.specs.Entry.{dir_of, moved};
ghost use Rattle.transfer.specs.MirrorTransfer.{low_of, high_of, displaced_of, aim, aim_in, Transfers};

use arith::Width;
use memory::Board;
use registers::Condition;
use turns::Turn;

// The operand's address and the digit of the register, where PC goes, and the states without the access.
#[derive(Clone, Copy)]
pub struct Aim {
    pub address: u32,
    pub register: u8,
    pub next: u32,
    pub states: u16,
}

fn at(address: u32, register: u8, next: u32, states: u16) -> Aim
    ensures { result ≡ aim address register next states }
{
    Aim {
        address,
        register,
        next,
        states,
    }
}

// The digit of the register: below 8 for a long, which m says.
fn low(m: u8, x: u64) -> u8
    ensures { result ≡ low_of m x }
{
    if m == 8 {
        (x % 8) as u8
    } else {
        (x % 16) as u8
    }
}

// The register of the address, above it.
fn high(m: u8, x: u64) -> u8
    ensures { result ≡ high_of m x }
{
    if m == 8 {
        (x / 8 % 8) as u8
    } else {
        (x / 16 % 8) as u8
    }
}

fn extended(x: u64) -> u32
    ensures { result ≡ (exts_of 32 (x % 65536)).value }
{
    arith::logic::exts(Width::Long, (x % 65536) as u32).value
}

// A register and a signed displacement.
fn displaced(e: u32, x: u64) -> u32
    ensures { result ≡ displaced_of e (x % 65536) }
{
    arith::sums::add(Width::Long, e, extended(x), false).value
}

// All but @ER+ and @-ER, by the variant. n is the bytes of the shortest code, s its states without the access.
fn aimed(k: u8, m: u8, x: u64, pc: u32, n: u8, s: u8, er: &[u32; 8]) -> Aim
    ensures { result ≡ aim_in k m x pc n s er.now }
{
    let bytes = n as usize;
    let states = s as u16;
    match k {
        0 => at(
            registers::get(Width::Long, er, high(m, x)),
            low(m, x),
            flow::next(pc, bytes),
            states,
        ),
        2 => at(
            displaced(registers::get(Width::Long, er, high(m, x / 65536)), x),
            low(m, x / 65536),
            flow::next(pc, bytes + 2),
            states + 2,
        ),
        3 => at(
            0xFFFF00 + (x % 256) as u32,
            low(m, x / 256),
            flow::next(pc, bytes),
            states,
        ),
        4 => at(
            extended(x),
            low(m, x / 65536),
            flow::next(pc, bytes + 2),
            states + 2,
        ),
        _ => at(
            (x % 16777216) as u32,
            low(m, x / 16777216),
            flow::next(pc, bytes + 4),
            states + 4,
        ),
    }
}

fn step_byte(
    k: u8,
    x: u64,
    pc: u32,
    er: &mut [u32; 8],
    f: Condition,
    b: Board,
    rom: &[u8],
    ram: &mut [u8],
    trail: &mut u64,
) -> Turn
    ensures did { TurnsOn (Ok (Move (dir_of k) Byte (Step (x / 16 % 8)) (x % 16), 2)) er.old er.new pc f b rom.now ram.old ram.new result }
    ensures told { Trails (touch (dir_of k) Byte (Step (x / 16 % 8)) ∷ []) er.old f trail.old trail.new result }
{
    let e = (x / 16 % 8) as u8;
    let r = (x % 16) as u8;
    let next = flow::next(pc, 2);
    if k < 8 {
        let at = registers::get(Width::Long, er, e);
        let d = moves::pop(Width::Byte, e, r, er, f, b, rom, &ram[..], trail);
        turns::ended(d, next, 4 + timing::access(b.site, Width::Byte, at))
    } else {
        let d = moves::push(Width::Byte, e, r, er, f, b, ram, trail);
        let at = registers::get(Width::Long, er, e);
        turns::ended(d, next, 4 + timing::access(b.site, Width::Byte, at))
    }
}

fn transfer_byte(
    k: u8,
    a: Aim,
    er: &mut [u32; 8],
    f: Condition,
    b: Board,
    rom: &[u8],
    ram: &mut [u8],
    trail: &mut u64,
) -> Turn
    ensures did { Transfers (dir_of k) Byte a er.old er.new f b rom.now ram.old ram.new result }
    ensures told { Trails (touch (dir_of k) Byte (Abs24 a.address) ∷ []) er.old f trail.old trail.new result }
{
    let n = a.states as u32 + timing::access(b.site, Width::Byte, a.address);
    if k < 8 {
        turns::ended(
            moves::load(
                Width::Byte,
                a.address,
                a.register,
                er,
                f,
                b,
                rom,
                &ram[..],
                trail,
            ),
            a.next,
            n,
        )
    } else {
        turns::ended(
            moves::store(Width::Byte, a.address, a.register, er, f, b, ram, trail),
            a.next,
            n,
        )
    }
}

// Kind 10: MOV.B.
pub fn byte(
    k: u8,
    x: u64,
    pc: u32,
    er: &mut [u32; 8],
    f: Condition,
    b: Board,
    rom: &[u8],
    ram: &mut [u8],
    trail: &mut u64,
) -> Turn
    ensures did { TurnsOn (moved Byte 16 2 k x) er.old er.new pc f b rom.now ram.old ram.new result }
    ensures told { Trails (touched_by (moved Byte 16 2 k x)) er.old f trail.old trail.new result }
{
    if k % 8 == 1 {
        step_byte(k, x, pc, er, f, b, rom, ram, trail)
    } else {
        transfer_byte(
            k,
            aimed(k % 8, 16, x, pc, 2, 2, er),
            er,
            f,
            b,
            rom,
            ram,
            trail,
        )
    }
}

fn step_word(
    k: u8,
    x: u64,
    pc: u32,
    er: &mut [u32; 8],
    f: Condition,
    b: Board,
    rom: &[u8],
    ram: &mut [u8],
    trail: &mut u64,
) -> Turn
    ensures did { TurnsOn (Ok (Move (dir_of k) Word (Step (x / 16 % 8)) (x % 16), 2)) er.old er.new pc f b rom.now ram.old ram.new result }
    ensures told { Trails (touch (dir_of k) Word (Step (x / 16 % 8)) ∷ []) er.old f trail.old trail.new result }
{
    let e = (x / 16 % 8) as u8;
    let r = (x % 16) as u8;
    let next = flow::next(pc, 2);
    if k < 8 {
        let at = registers::get(Width::Long, er, e);
        let d = moves::pop(Width::Word, e, r, er, f, b, rom, &ram[..], trail);
        turns::ended(d, next, 4 + timing::access(b.site, Width::Word, at))
    } else {
        let d = moves::push(Width::Word, e, r, er, f, b, ram, trail);
        let at = registers::get(Width::Long, er, e);
        turns::ended(d, next, 4 + timing::access(b.site, Width::Word, at))
    }
}

fn transfer_word(
    k: u8,
    a: Aim,
    er: &mut [u32; 8],
    f: Condition,
    b: Board,
    rom: &[u8],
    ram: &mut [u8],
    trail: &mut u64,
) -> Turn
    ensures did { Transfers (dir_of k) Word a er.old er.new f b rom.now ram.old ram.new result }
    ensures told { Trails (touch (dir_of k) Word (Abs24 a.address) ∷ []) er.old f trail.old trail.new result }
{
    let n = a.states as u32 + timing::access(b.site, Width::Word, a.address);
    if k < 8 {
        turns::ended(
            moves::load(
                Width::Word,
                a.address,
                a.register,
                er,
                f,
                b,
                rom,
                &ram[..],
                trail,
            ),
            a.next,
            n,
        )
    } else {
        turns::ended(
            moves::store(Width::Word, a.address, a.register, er, f, b, ram, trail),
            a.next,
            n,
        )
    }
}

// Kind 11: MOV.W.
pub fn word(
    k: u8,
    x: u64,
    pc: u32,
    er: &mut [u32; 8],
    f: Condition,
    b: Board,
    rom: &[u8],
    ram: &mut [u8],
    trail: &mut u64,
) -> Turn
    ensures did { TurnsOn (moved Word 16 2 k x) er.old er.new pc f b rom.now ram.old ram.new result }
    ensures told { Trails (touched_by (moved Word 16 2 k x)) er.old f trail.old trail.new result }
{
    if k % 8 == 1 {
        step_word(k, x, pc, er, f, b, rom, ram, trail)
    } else {
        transfer_word(
            k,
            aimed(k % 8, 16, x, pc, 2, 2, er),
            er,
            f,
            b,
            rom,
            ram,
            trail,
        )
    }
}

fn step_long(
    k: u8,
    x: u64,
    pc: u32,
    er: &mut [u32; 8],
    f: Condition,
    b: Board,
    rom: &[u8],
    ram: &mut [u8],
    trail: &mut u64,
) -> Turn
    ensures did { TurnsOn (Ok (Move (dir_of k) Long (Step (x / 8 % 8)) (x % 8), 4)) er.old er.new pc f b rom.now ram.old ram.new result }
    ensures told { Trails (touch (dir_of k) Long (Step (x / 8 % 8)) ∷ []) er.old f trail.old trail.new result }
{
    let e = (x / 8 % 8) as u8;
    let r = (x % 8) as u8;
    let next = flow::next(pc, 4);
    if k < 8 {
        let at = registers::get(Width::Long, er, e);
        let d = moves::pop(Width::Long, e, r, er, f, b, rom, &ram[..], trail);
        turns::ended(d, next, 6 + timing::access(b.site, Width::Long, at))
    } else {
        let d = moves::push(Width::Long, e, r, er, f, b, ram, trail);
        let at = registers::get(Width::Long, er, e);
        turns::ended(d, next, 6 + timing::access(b.site, Width::Long, at))
    }
}

fn transfer_long(
    k: u8,
    a: Aim,
    er: &mut [u32; 8],
    f: Condition,
    b: Board,
    rom: &[u8],
    ram: &mut [u8],
    trail: &mut u64,
) -> Turn
    ensures did { Transfers (dir_of k) Long a er.old er.new f b rom.now ram.old ram.new result }
    ensures told { Trails (touch (dir_of k) Long (Abs24 a.address) ∷ []) er.old f trail.old trail.new result }
{
    let n = a.states as u32 + timing::access(b.site, Width::Long, a.address);
    if k < 8 {
        turns::ended(
            moves::load(
                Width::Long,
                a.address,
                a.register,
                er,
                f,
                b,
                rom,
                &ram[..],
                trail,
            ),
            a.next,
            n,
        )
    } else {
        turns::ended(
            moves::store(Width::Long, a.address, a.register, er, f, b, ram, trail),
            a.next,
            n,
        )
    }
}

// Kind 12: MOV.L.
pub fn long(
    k: u8,
    x: u64,
    pc: u32,
    er: &mut [u32; 8],
    f: Condition,
    b: Board,
    rom: &[u8],
    ram: &mut [u8],
    trail: &mut u64,
) -> Turn
    ensures did { TurnsOn (moved Long 8 4 k x) er.old er.new pc f b rom.now ram.old ram.new result }
    ensures told { Trails (touched_by (moved Long 8 4 k x)) er.old f trail.old trail.new result }
{
    if k % 8 == 1 {
        step_long(k, x, pc, er, f, b, rom, ram, trail)
    } else {
        transfer_long(
            k,
            aimed(k % 8, 8, x, pc, 4, 4, er),
            er,
            f,
            b,
            rom,
            ram,
            trail,
        )
    }
}

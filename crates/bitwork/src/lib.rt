// The bit instructions where the registers lie. PC is none of theirs. Where one is refused, nothing is left written.
#![tactic(auto)]

ghost use Rattle.std.specs.Prelude.{[], ◌∷◌};
ghost use Rattle.arith.specs.declared.Width.TheVariants.{Byte};
ghost use Rattle.codes.specs.Cycles.{touch};
ghost use Rattle.codes.specs.declared.Dir.TheVariants.{Load, Store};
ghost use Rattle.codes.specs.declared.Place.TheVariants.{Abs24};
ghost use Rattle.registers.specs.declared.Registers.{Registers};
ghost use Rattle.registers.specs.Parts.{part_of, with_part};
ghost use Rattle.operate.specs.MirrorLent.{Does};
ghost use Rattle.moves.specs.MirrorMoves.{Leaves, LeavesBoth, Notes};
ghost use Rattle.bitwork.specs.Bitwork.{took_of, gave_of, takes_at, gives_at};
ghost use Rattle.bitwork.specs.MirrorBitwork.{Numbers, Took, Gave};

use arith::Width;
use codes::{Give, Index, Take};
use memory::Board;
use operate::Deed;
use registers::Condition;

// A bit's number: the low three bits of a byte register, or of a number in the code.
fn number(index: Index, er: &[u32; 8]) -> u32
    ensures { Numbers index er.now result }
{
    match index {
        Index::Numbered(n) => n as u32 % 8,
        Index::ByPart(s) => registers::get(Width::Byte, er, s) % 8,
    }
}

// A reader, where its bit is in the byte x.
fn took(take: Take, index: Index, x: u32, er: &[u32; 8], f: Condition) -> Condition
    ensures { Took take index x er.now f result }
{
    let n = number(index, er);
    bits::taken(take, bits::bit(x, n), f)
}

// The byte x as a writer leaves it.
fn gave(give: Give, index: Index, x: u32, er: &[u32; 8], f: Condition) -> u32
    ensures { Gave give index x er.now f result }
{
    let n = number(index, er);
    let v = bits::given(give, bits::bit(x, n), f.c);
    bits::with_bit(x, n, v)
}

// In the byte register of digit d.
pub fn take(take: Take, index: Index, d: u8, er: &[u32; 8], f: Condition) -> Condition
    ensures { Does (λ (r : Registers). took_of take index (part_of Byte r d) r) er.now er.now f result }
{
    took(take, index, registers::get(Width::Byte, er, d), er, f)
}

pub fn give(give: Give, index: Index, d: u8, er: &mut [u32; 8], f: Condition) -> Condition
    ensures { Does (λ (r : Registers). with_part Byte r d (gave_of give index (part_of Byte r d) r)) er.old er.new f result }
{
    let x = registers::get(Width::Byte, er, d);
    registers::put(Width::Byte, er, d, gave(give, index, x, er, f));
    f
}

// In memory at the address a.
pub fn take_at(
    take: Take,
    index: Index,
    a: u32,
    er: &[u32; 8],
    f: Condition,
    b: Board,
    rom: &[u8],
    ram: &[u8],
    trail: &mut u64,
) -> Deed
    ensures did { Leaves (λ (r : Registers). takes_at take index a r b rom.now ram.now) er.now er.now f result }
    ensures told { Notes (touch Load Byte (Abs24 a) ∷ []) er.now f result trail.old trail.new }
{
    match memory::read(Width::Byte, b, rom, ram, a, trail) {
        Ok(x) => operate::did(took(take, index, x, er, f)),
        Err(x) => operate::refused(f, x),
    }
}

// The byte is read first: where it cannot be, nothing is written.
pub fn give_at(
    give: Give,
    index: Index,
    a: u32,
    er: &[u32; 8],
    f: Condition,
    b: Board,
    rom: &[u8],
    ram: &mut [u8],
    trail: &mut u64,
) -> Deed
    ensures did { LeavesBoth (λ (r : Registers). gives_at give index a r b rom.now ram.old) er.now er.now f result ram.new }
    ensures told { Notes (touch Load Byte (Abs24 a) ∷ touch Store Byte (Abs24 a) ∷ []) er.now f result trail.old trail.new }
{
    match memory::read(Width::Byte, b, rom, &ram[..], a, trail) {
        Ok(x) => {
            let y = gave(give, index, x, er, f);
            moves::kept(memory::write(Width::Byte, b, ram, a, y, trail), f, f)
        }
        Err(x) => operate::refused(f, x),
    }
}

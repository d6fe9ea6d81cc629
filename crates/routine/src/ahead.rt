// Whether a call would complete, without making it: its target is read first, then its four bytes are written.
ghost use Rattle.std.specs.Prelude.{◌≡◌, length};
ghost use Rattle.memory.specs.Access.{inside};
ghost use Rattle.routine.specs.MirrorTurn.{was_read, aims, room_at, below_of, completes_in};

use arith::Width;
use codes::{Goes, Target};
use memory::Board;
use refusal::Refusal;
use registers::Registers;

fn was_read(g: Result<u32, Refusal>) -> bool
    ensures { result ≡ was_read g }
{
    match g {
        Ok(_) => true,
        Err(_) => false,
    }
}

fn aim(t: Target, b: Board, rom: &[u8], ram: &[u8]) -> bool
    ensures { result ≡ aims t b rom.now ram.now }
{
    match t {
        Target::ByReg(_) => true,
        Target::Direct(_) => true,
        Target::Vector(a) => was_read(memory::look(Width::Long, b, rom, ram, a as u32)),
    }
}

// Whether the word at p lies in the working memory that begins at base.
fn holds(base: u32, ram: &[u8], p: u32) -> bool
    ensures { result ≡ inside base (length ram.now) p 2 }
{
    let from = base as usize;
    let at = p as usize;
    (from <= at) & (at + 2 <= from + ram.len())
}

// Whether a longword at a can be written.
fn room(base: u32, ram: &[u8], a: u32) -> bool
    ensures { result ≡ room_at base (length ram.now) a }
{
    holds(base, ram, memory::even_address(a)) & holds(base, ram, memory::second_address(a))
}

// Where a call pushes: ER7 less 4.
fn below(r: Registers) -> u32
    ensures { result ≡ below_of r }
{
    let mut er = r.er;
    let f = r.condition;
    operate::lower(&mut er, 7, 4, f);
    registers::get(Width::Long, &er, 7)
}

pub fn completes(g: Goes, r: Registers, b: Board, rom: &[u8], ram: &[u8]) -> bool
    ensures { result ≡ completes_in g r b rom.now ram.now }
{
    match g {
        Goes::Onward => false,
        Goes::Branches(_, _) => false,
        Goes::Jumps(_) => false,
        Goes::CallsNear(_) => room(b.base, ram, below(r)),
        Goes::Calls(target) => aim(target, b, rom, ram) & room(b.base, ram, below(r)),
        Goes::Returns => false,
    }
}

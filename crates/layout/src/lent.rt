// Numbers out of lent arrays and into them. What an array lacks reads as 0 and is not written: whoever promises more looks at the length first.
ghost use Rattle.std.specs.Prelude.{◌≡◌, [], ◌∷◌, ◌<◌, get_or, set};
ghost use Rattle.std.proofs.lemmas.List.Edits.{sets};
ghost use Rattle.layout.specs.Rows.{nine};
ghost use Rattle.layout.specs.Lent.{eight_of};
ghost use Rattle.layout.specs.Board.{site_of, board_of};
ghost use Rattle.layout.specs.Registers.{registers_of, ten_of};
ghost use Rattle.layout.specs.MirrorLent.{row_in};

use crate::rows;
use crate::rows::{Operand, Row};
use memory::Board;
use registers::{Condition, Registers};
use site::{Area, Site};

// How many numbers lent registers are; `registers_length` in the definitions, H8_REGISTERS in host/h8.h.
pub const REGISTERS: usize = 10;

pub fn number_at(l: &[u32], i: usize) -> u32
    ensures { result ≡ get_or l.now i 0 }
{
    l.get(i).copied().unwrap_or(0)
}

pub fn put<T: Copy>(l: &mut [T], i: usize, x: T)
    ensures { l.new ≡ set l.old i x }
{
    if i < l.len() {
        l[i] = x;
    }
}

// The numbers of an answer, one after the other from the first place on.
pub fn put_all<T: Copy>(l: &mut [T], xs: &[T])
    ensures { l.new ≡ sets l.old 0 xs.now }
{
    for (i, x) in xs.iter().enumerate() {
        put(l, i, *x);
    }
}

// Six numbers, how many addresses a run keeps, and these.
#[tactic(auto, unfolding(crate::specs::Lent::eight_of))]
pub fn put_kept(
    l: &mut [u64],
    a: u64,
    b: u64,
    c: u64,
    d: u64,
    e: u64,
    f: u64,
    count: u64,
    k: [u32; 8],
)
    ensures { l.new ≡ sets l.old 0 (a ∷ b ∷ c ∷ d ∷ e ∷ f ∷ count ∷ eight_of k) }
{
    let [k0, k1, k2, k3, k4, k5, k6, k7] = k.map(u64::from);
    put_all(
        l,
        &[a, b, c, d, e, f, count, k0, k1, k2, k3, k4, k5, k6, k7],
    )
}

#[tactic(auto, unfolding(crate::specs::MirrorLent::row_in))]
pub fn row_in(l: &[u32]) -> Row
    ensures { result ≡ row_in l.now }
{
    Row {
        kind: number_at(l, 0),
        which: number_at(l, 1),
        width: number_at(l, 2),
        operand: Operand {
            form: number_at(l, 3),
            other: number_at(l, 4),
            value: number_at(l, 5),
        },
        reg: number_at(l, 6),
    }
}

// A row, the length n and the states s.
pub fn put_row(l: &mut [u32], f: Row, n: u32, s: u32)
    ensures { l.new ≡ sets l.old 0 (nine f n s) }
{
    let o = f.operand;
    put_all(
        l,
        &[
            f.kind, f.which, f.width, o.form, o.other, o.value, f.reg, n, s,
        ],
    )
}

// What a board has beside its memories.
#[tactic(auto, unfolding(crate::specs::Board::site_of))]
pub fn site_in(l: &[u32]) -> Site
    ensures { result ≡ site_of l.now }
{
    Site {
        area: Area {
            base: number_at(l, 1),
            end: number_at(l, 2),
            bus: number_at(l, 3),
        },
    }
}

#[tactic(auto, unfolding(crate::specs::Board::board_of))]
pub fn board_in(l: &[u32]) -> Board
    ensures { result ≡ board_of l.now }
{
    Board {
        base: number_at(l, 0),
        site: site_in(l),
    }
}

#[tactic(auto, unfolding(crate::specs::Registers::registers_of))]
pub fn registers_in(l: &[u32]) -> Registers
    ensures { result ≡ registers_of l.now }
{
    let er = [
        number_at(l, 0),
        number_at(l, 1),
        number_at(l, 2),
        number_at(l, 3),
        number_at(l, 4),
        number_at(l, 5),
        number_at(l, 6),
        number_at(l, 7),
    ];
    let pc = number_at(l, 8);
    let condition = Condition::from(rows::low8(number_at(l, 9)));
    Registers { er, pc, condition }
}

#[tactic(auto, unfolding(crate::specs::Registers::ten_of))]
pub fn put_registers(l: &mut [u32], r: Registers)
    ensures { l.new ≡ sets l.old 0 (ten_of r) }
{
    let [e0, e1, e2, e3, e4, e5, e6, e7] = r.er;
    put_all(
        l,
        &[
            e0,
            e1,
            e2,
            e3,
            e4,
            e5,
            e6,
            e7,
            r.pc,
            u32::from(u8::from(r.condition)),
        ],
    )
}

// The condition byte and the registers.
#![tactic(auto)]

ghost use Rattle.std.specs.Prelude.{◌≡◌, ◌/◌, ◌*◌, ◌%◌};
ghost use Rattle.registers.specs.Condition.{condition_of, byte_of, with_sum, with_extended, with_counted, with_shifted, with_moved, with_adjusted, with_product};
ghost use Rattle.registers.specs.Parts.{Below, below_of, insert_of, pc_of};
ghost use Rattle.registers.specs.Lent.{part_in, put_in};

use arith::{Counted, Moved, Shifted, Sum, Width};

// The condition byte as its eight bits: each change of flags is then a record, and "the others stay" can be seen.
#[derive(Clone, Copy, Debug, PartialEq, Eq)]
pub struct Condition {
    pub i: bool,
    pub ui: bool,
    pub h: bool,
    pub u: bool,
    pub n: bool,
    pub z: bool,
    pub v: bool,
    pub c: bool,
}

impl Condition {
    pub const I: u8 = 0x80;

    pub const UI: u8 = 0x40;

    pub const H: u8 = 0x20;

    pub const U: u8 = 0x10;

    pub const N: u8 = 0x08;

    pub const Z: u8 = 0x04;

    pub const V: u8 = 0x02;

    pub const C: u8 = 0x01;

    pub fn with_sum(self, s: Sum) -> Condition
        ensures { result ≡ with_sum self s }
    {
        Condition {
            h: s.h,
            n: s.n,
            z: s.z,
            v: s.v,
            c: s.c,
            ..self
        }
    }

    // Z is that of a longer number, whose lower parts came before.
    pub fn with_extended(self, s: Sum) -> Condition
        ensures { result ≡ with_extended self s }
    {
        Condition {
            h: s.h,
            n: s.n,
            z: self.z & s.z,
            v: s.v,
            c: s.c,
            ..self
        }
    }

    pub fn with_counted(self, s: Counted) -> Condition
        ensures { result ≡ with_counted self s }
    {
        Condition {
            n: s.n,
            z: s.z,
            v: s.v,
            ..self
        }
    }

    pub fn with_shifted(self, s: Shifted) -> Condition
        ensures { result ≡ with_shifted self s }
    {
        Condition {
            n: s.n,
            z: s.z,
            v: s.v,
            c: s.c,
            ..self
        }
    }

    pub fn with_moved(self, s: Moved) -> Condition
        ensures { result ≡ with_moved self s }
    {
        Condition {
            n: s.n,
            z: s.z,
            v: false,
            ..self
        }
    }

    pub fn with_adjusted(self, s: Moved, c: bool) -> Condition
        ensures { result ≡ with_adjusted self s c }
    {
        Condition {
            n: s.n,
            z: s.z,
            c,
            ..self
        }
    }

    pub fn with_product(self, s: Moved) -> Condition
        ensures { result ≡ with_product self s }
    {
        Condition {
            n: s.n,
            z: s.z,
            ..self
        }
    }
}

impl From<u8> for Condition {
    ghost from_gives = { λ b f. f ≡ condition_of b };

    fn from(b: u8) -> Condition {
        Condition {
            i: b / Condition::I % 2 == 1,
            ui: b / Condition::UI % 2 == 1,
            h: b / Condition::H % 2 == 1,
            u: b / Condition::U % 2 == 1,
            n: b / Condition::N % 2 == 1,
            z: b / Condition::Z % 2 == 1,
            v: b / Condition::V % 2 == 1,
            c: b / Condition::C % 2 == 1,
        }
    }
}

impl From<Condition> for u8 {
    ghost from_gives = { λ f b. b ≡ byte_of f };

    fn from(f: Condition) -> u8 {
        Condition::I * u8::from(f.i)
            + Condition::UI * u8::from(f.ui)
            + Condition::H * u8::from(f.h)
            + Condition::U * u8::from(f.u)
            + Condition::N * u8::from(f.n)
            + Condition::Z * u8::from(f.z)
            + Condition::V * u8::from(f.v)
            + Condition::C * u8::from(f.c)
    }
}

#[derive(Clone, Copy, Debug, PartialEq, Eq)]
pub struct Registers {
    pub er: [u32; 8],
    pub pc: u32,
    pub condition: Condition,
}

// 2 to the number of bits below a part.
fn below(w: Width, d: u8) -> u32
    ensures { Below (below_of w d) result }
{
    match w {
        Width::Byte => if d < 8 { 0x100 } else { 1 },
        Width::Word => if d < 8 { 1 } else { 0x10000 },
        Width::Long => 1,
    }
}

// A register's value where a part is replaced.
fn insert(w: Width, d: u8, old: u32, x: u32) -> u32
    ensures { result ≡ insert_of w d old x }
{
    match w {
        Width::Byte => if d < 8 {
            old / 0x10000 * 0x10000 + x % 0x100 * 0x100 + old % 0x100
        } else {
            old / 0x100 * 0x100 + x % 0x100
        },
        Width::Word => if d < 8 {
            old / 0x10000 * 0x10000 + x % 0x10000
        } else {
            x % 0x10000 * 0x10000 + old % 0x10000
        },
        Width::Long => x,
    }
}

// The part of digit d, where the registers lie.
pub fn get(w: Width, er: &[u32; 8], d: u8) -> u32
    ensures { result ≡ part_in w er.now d }
{
    let k = (d % 8) as usize;
    let x = er[k];
    let p = below(w, d);
    arith::low_bits(w, x / p)
}

// The part of digit d becomes the low bits of x, where the registers lie.
pub fn put(w: Width, er: &mut [u32; 8], d: u8, x: u32)
    ensures { er.new ≡ put_in w er.old d x }
{
    let k = (d % 8) as usize;
    let old = er[k];
    er[k] = insert(w, d, old, x);
}

// What PC holds when it is set to an address.
pub fn pc(a: u32) -> u32
    ensures { result ≡ pc_of a }
{
    a % 0x1000000 / 2 * 2
}

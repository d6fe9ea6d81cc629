// One bit of a byte, and what the bit instructions do with it.
#![tactic(auto)]

ghost use Rattle.std.specs.Borrow.{Bor};
ghost use Rattle.std.specs.Prelude.{◌≡◌, ◌*◌, ◌%◌, ◌^◌};
ghost use Rattle.arith.specs.Widths.{num};
ghost use Rattle.bits.specs.Bits.{bit_of, with_bit, OthersStay};
ghost use Rattle.bits.specs.Effects.{with_z, with_c, taken_of, given_of};

use codes::{Give, Take};
use registers::Condition;

// A bit's number is the low three bits of n.
pub fn bit(x: u32, n: u32) -> bool
    ensures { result ≡ bit_of (n % 8) x }
{
    (x >> (n % 8)) % 2 == 1
}

// A bit in its place.
fn placed(v: bool, n: u32) -> u64
    ensures { result ≡ num v * 2 ^ (n % 8) }
{
    u64::from(v) << (n % 8)
}

// The bit is taken away, and v is put in its place.
pub fn with_bit(x: u32, n: u32, v: bool) -> u32
    ensures value { result ≡ with_bit (n % 8) x v }
    ensures others { OthersStay (n % 8) x result }
{
    let old = placed(bit(x, n), n);
    (x as u64 - old + placed(v, n)) as u32
}

fn with_z(f: Condition, z: bool) -> Condition
    ensures { result ≡ with_z f z }
{
    Condition {
        i: f.i,
        ui: f.ui,
        h: f.h,
        u: f.u,
        n: f.n,
        z: z,
        v: f.v,
        c: f.c,
    }
}

fn with_c(f: Condition, c: bool) -> Condition
    ensures { result ≡ with_c f c }
{
    Condition {
        i: f.i,
        ui: f.ui,
        h: f.h,
        u: f.u,
        n: f.n,
        z: f.z,
        v: f.v,
        c: c,
    }
}

// The condition byte after a reader whose bit is v.
pub fn taken(take: Take, v: bool, f: Condition) -> Condition
    ensures { result ≡ taken_of take v f }
{
    match take {
        Take::Btst => with_z(f, !v),
        Take::Bor => with_c(f, f.c | v),
        Take::Bior => with_c(f, f.c | !v),
        Take::Bxor => with_c(f, f.c ^ v),
        Take::Bixor => with_c(f, f.c ^ !v),
        Take::Band => with_c(f, f.c & v),
        Take::Biand => with_c(f, f.c & !v),
        Take::Bld => with_c(f, v),
        Take::Bild => with_c(f, !v),
    }
}

// The bit after a writer that found v, where C is c.
pub fn given(give: Give, v: bool, c: bool) -> bool
    ensures { result ≡ given_of give v c }
{
    match give {
        Give::Bset => true,
        Give::Bnot => !v,
        Give::Bclr => false,
        Give::Bst => c,
        Give::Bist => !c,
    }
}

// The records of a recording, beside a run.
ghost use Rattle.std.specs.Prelude.{◌≡◌, not, ◌+◌, ◌≤◌, eqb, length};
ghost use Rattle.registers.specs.Condition.{byte_of};
ghost use Rattle.run.specs.MirrorAlong.{longer, two_at, four_at, apart, strays_of, Covers};

use registers::Condition;

// A number with one byte more below it.
pub fn longer_by(n: u32, x: u8) -> u32
    ensures { result ≡ longer n x }
{
    n % 16777216 * 256 + x as u32
}

// Whether the length of a record is not 9. Its two bytes are taken with the lower one first: so the compiler compares them as they lie in
// memory, in one test.
fn other_length(w: &[u8], i: usize) -> bool
    requires { i + 2 ≤ length w.now }
    ensures { eqb (two_at w.now i) 9 ≡ not result }
{
    let a = longer_by(0, w[i + 1]);
    longer_by(a, w[i]) != 0x0900
}

fn four(w: &[u8], i: usize) -> u32
    requires { i + 4 ≤ length w.now }
    ensures { result ≡ four_at w.now i }
{
    let a = longer_by(0, w[i]);
    let b = longer_by(a, w[i + 1]);
    let c = longer_by(b, w[i + 2]);
    longer_by(c, w[i + 3])
}

// The upper four flags, each in a byte of its own, the first in the lowest. They lie so in a `Condition`, so the compiler makes one mask of
// this; of four bools as parameters it would not.
fn upper(f: Condition) -> u64
    ensures { (result ≡ apart f.i f.ui f.h f.u) × (result ≤ 16843009) }
{
    u64::from(f.i) + 256 * u64::from(f.ui) + 65536 * u64::from(f.h) + 16777216 * u64::from(f.u)
}

fn lower(f: Condition) -> u64
    ensures { (result ≡ apart f.n f.z f.v f.c) × (result ≤ 16843009) }
{
    u64::from(f.n) + 256 * u64::from(f.z) + 65536 * u64::from(f.v) + 16777216 * u64::from(f.c)
}

// The same as `u8::from`, which brings its flags together one by one: that was most of what a record cost. Here each of four bytes
// holds an upper flag in bit 4 and a lower one in bit 0, and one product brings the four into byte 3, each a bit further up than the next.
// What else the product makes lies above byte 3, or below it and without a carry.
fn condition_byte(f: Condition) -> u8
    ensures { result ≡ byte_of f }
{
    let x = 16 * upper(f) + lower(f);
    (x * 0x08040201 / 0x1000000 % 256) as u8
}

// Whether the next record does not describe the moment before its step. Without records nothing differs.
pub fn strays(w: &[u8], steps: u32, pc: u32, f: Condition, states: u64) -> bool
    requires { Covers w.now (steps + 1) }
    ensures { result ≡ strays_of w.now steps pc f states }
{
    if w.len() == 0 {
        return false;
    }
    let i = steps as usize * 11;
    let byte = condition_byte(f);
    if other_length(w, i) {
        return true;
    }
    if four(w, i + 2) != pc {
        return true;
    }
    if w[i + 6] != byte {
        return true;
    }
    four(w, i + 7) as u64 != states
}

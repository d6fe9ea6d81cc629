// The bytes of a code into lent bytes.
ghost use Rattle.std.specs.Prelude.{◌≡◌, ◌+◌, ◌≤◌, length};
ghost use Rattle.encoder.specs.MirrorWrite.{set2, set4, start_of, tail_size, size_of, prefix_set, tail_set, write_of, answer_of, left_of};

use crate::parts::{Parts, Tail};
use refusal::Refusal;

fn put2(out: &mut [u8], at: usize, x: u32, y: u32)
    requires { at + 2 ≤ length out.old }
    ensures { out.new ≡ set2 out.old at x y }
{
    out[at] = (x % 256) as u8;
    out[at + 1] = (y % 256) as u8;
}

fn put4(out: &mut [u8], at: usize, v: u32)
    requires { at + 4 ≤ length out.old }
    ensures { out.new ≡ set4 out.old at v }
{
    put2(out, at, v / 16777216, v / 65536);
    put2(out, at + 2, v / 256, v)
}

// Where the word stands
fn start_of(prefix: Option<(u32, u32)>) -> u8
    ensures { (result ≡ start_of prefix) × (result ≤ 2) }
{
    if prefix.is_some() { 2 } else { 0 }
}

fn tail_size(tail: Option<Tail>) -> u8
    ensures { (result ≡ tail_size tail) × (result ≤ 4) }
{
    match tail {
        None => 0,
        Some(Tail::Bits16(_)) => 2,
        Some(Tail::Bits32(_)) => 4,
    }
}

fn size_of(h: Parts) -> u8
    ensures { result ≡ size_of h }
{
    start_of(h.prefix) + 2 + tail_size(h.tail)
}

fn put_prefix(out: &mut [u8], prefix: Option<(u32, u32)>)
    requires { start_of prefix ≤ length out.old }
    ensures { out.new ≡ prefix_set out.old prefix }
{
    if let Some((x, y)) = prefix {
        put2(out, 0, x, y);
    }
}

fn put_tail(out: &mut [u8], at: usize, tail: Option<Tail>)
    requires { at + tail_size tail ≤ length out.old }
    ensures { out.new ≡ tail_set out.old at tail }
{
    match tail {
        None => {}
        Some(Tail::Bits16(v)) => put2(out, at, v / 256, v),
        Some(Tail::Bits32(v)) => put4(out, at, v),
    }
}

fn write(h: Parts, out: &mut [u8])
    requires { size_of h ≤ length out.old }
    ensures { out.new ≡ write_of h out.old }
{
    let at = start_of(h.prefix) as usize;
    put_prefix(out, h.prefix);
    put2(out, at, h.a, h.b);
    put_tail(out, at + 2, h.tail)
}

// The code, if it has room; else nothing changes, and the answer has the needed length.
pub fn put(h: Parts, out: &mut [u8]) -> Result<usize, Refusal>
    ensures { (result ≡ answer_of h out.old) × (out.new ≡ left_of h out.old) }
{
    let n = size_of(h);
    if out.len() < n as usize {
        return Err(Refusal::LentTooShort(n as u32));
    }
    write(h, out);
    Ok(n as usize)
}

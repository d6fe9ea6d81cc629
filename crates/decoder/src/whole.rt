// What bytes begin with: a word's plan, and the bytes that it lacks.
ghost use Rattle.std.specs.Prelude.{◌≡◌, get_or};
ghost use Rattle.decoder.specs.MirrorDecode.{tail_of_rest, fill_of, with16, with24, with32, by_tail, finish_of, begun_of, two_words, alone_of, prefix01, prefix_of, short_of, lead_of, planned_of, found_of};

use crate::plan::{Plan, Rest};
use arith::Width;
use codes::{Instruction, Place, Reach, Source, Target};

// What a code lacks after its words: 16 or 32 bits, or a byte 00 and 24 bits.
#[derive(Clone, Copy)]
enum Tail {
    Bits16,
    Bits24,
    Bits32,
}

// Why bytes begin with no instruction: they are a proper beginning of a code, or of none.
#[derive(Clone, Copy, Debug, PartialEq, Eq)]
pub enum Fault {
    Cut,
    Unlisted,
}

fn lacking(q: Rest) -> Tail
    ensures { result ≡ tail_of_rest q }
{
    match q {
        Rest::Imm32(_, _) => Tail::Bits32,
        Rest::Aa24(_, _, _) => Tail::Bits24,
        _ => Tail::Bits16,
    }
}

// The instruction with the number that it lacked.
fn filled(q: Rest, v: u32) -> Instruction
    ensures { result ≡ fill_of q v }
{
    match q {
        Rest::Imm16(op, r) => Instruction::Alu(op, Width::Word, Source::Imm(v), r),
        Rest::Imm32(op, r) => Instruction::Alu(op, Width::Long, Source::Imm(v), r),
        Rest::Disp16(dir, w, e, r) => Instruction::Move(
            dir,
            w,
            Place::Disp(e, (v % 65536) as u16),
            r,
        ),
        Rest::Aa16(dir, w, r) => Instruction::Move(dir, w, Place::Abs16((v % 65536) as u16), r),
        Rest::Aa24(dir, w, r) => Instruction::Move(dir, w, Place::Abs24(v), r),
        Rest::Bcc16(c) => Instruction::Bcc(c, Reach::Far((v % 65536) as u16)),
        Rest::Bsr16 => Instruction::Bsr(Reach::Far((v % 65536) as u16)),
        Rest::Jmp24(b) => Instruction::Jmp(Target::Direct((b as u32) * 65536 + v % 65536)),
        Rest::Jsr24(b) => Instruction::Jsr(Target::Direct((b as u32) * 65536 + v % 65536)),
    }
}

// n bytes are passed.
fn with_16(q: Rest, rest: &[u8], n: u8) -> Result<(Instruction, usize), Fault>
    ensures { result ≡ with16 q rest.now n }
{
    match rest {
        [x, y, ..] => Ok((
            filled(q, u32::from(*x) * 256 + u32::from(*y)),
            n as usize + 2,
        )),
        _ => Err(Fault::Cut),
    }
}

fn with_32(q: Rest, rest: &[u8], n: u8) -> Result<(Instruction, usize), Fault>
    ensures { result ≡ with32 q rest.now n }
{
    match rest {
        [x, y, z, w, ..] => {
            let high = u32::from(*x) * 16777216 + u32::from(*y) * 65536;
            Ok((
                filled(q, high + u32::from(*z) * 256 + u32::from(*w)),
                n as usize + 4,
            ))
        }
        _ => Err(Fault::Cut),
    }
}

fn with_24(q: Rest, rest: &[u8], n: u8) -> Result<(Instruction, usize), Fault>
    ensures { result ≡ with24 q rest.now n }
{
    match rest {
        [] => Err(Fault::Cut),
        [0, ..] => with_32(q, rest, n),
        _ => Err(Fault::Unlisted),
    }
}

fn more(k: Tail, q: Rest, rest: &[u8], n: u8) -> Result<(Instruction, usize), Fault>
    ensures { result ≡ by_tail k q rest.now n }
{
    match k {
        Tail::Bits16 => with_16(q, rest, n),
        Tail::Bits24 => with_24(q, rest, n),
        Tail::Bits32 => with_32(q, rest, n),
    }
}

fn finish(p: Option<Plan>, rest: &[u8], n: u8) -> Result<(Instruction, usize), Fault>
    ensures { result ≡ finish_of p rest.now n }
{
    match p {
        Some(Plan::Whole(i)) => Ok((i, n as usize)),
        Some(Plan::Lacks(q)) => more(lacking(q), q, rest, n),
        None => Err(Fault::Unlisted),
    }
}

// Of a word whose second byte is 0: some code has it, or none.
fn begun(p: Option<Plan>) -> Fault
    ensures { result ≡ begun_of p }
{
    match p {
        Some(Plan::Whole(_)) => Fault::Cut,
        Some(Plan::Lacks(_)) => Fault::Cut,
        None => Fault::Unlisted,
    }
}

// Whether the codes that begin with a have two words.
fn two_words(a: u8) -> bool
    ensures { result ≡ two_words a }
{
    matches!(a, 0x01 | 0x7C..=0x7F)
}

// A single byte, and the plan of its word with the second byte 0: a byte that begins a code of one word begins one with 0, but for 54.
fn alone(a: u8, p: Option<Plan>) -> Fault
    ensures { result ≡ alone_of a p }
{
    if two_words(a) || a == 0x54 {
        Fault::Cut
    } else {
        begun(p)
    }
}

// 01 and a byte, and nothing more.
fn prefix_01(b: u8) -> Fault
    ensures { result ≡ prefix01 b }
{
    match b {
        0x00 | 0xC0 | 0xD0 | 0xF0 => Fault::Cut,
        _ => Fault::Unlisted,
    }
}

// A code of two words, of which there is the first.
fn prefix(a: u8, b: u8) -> Fault
    ensures { result ≡ prefix_of a b }
{
    if a == 0x01 {
        return prefix_01(b);
    }
    if crate::words::names_byte(a, b) {
        Fault::Cut
    } else {
        Fault::Unlisted
    }
}

// Bytes that are fewer than their words: none, one, or two or three of a code of two words.
fn short(p: Option<Plan>, s: &[u8]) -> Fault
    ensures { result ≡ short_of p s.now }
{
    match s {
        [] => Fault::Cut,
        [a] => alone(*a, p),
        [a, b] => prefix(*a, *b),
        _ => begun(p),
    }
}

// A byte that is missing counts as 0.
fn byte_at(s: &[u8], i: usize) -> u8
    ensures { result ≡ get_or s.now i 0 }
{
    s.get(i).copied().unwrap_or(0)
}

// How many bytes the words have of a code that begins with a.
fn lead(a: u8) -> u8
    ensures { result ≡ lead_of a }
{
    if two_words(a) { 4 } else { 2 }
}

fn planned(s: &[u8]) -> Option<Plan>
    ensures { result ≡ planned_of s.now }
{
    let a = byte_at(s, 0);
    if two_words(a) {
        return crate::words::second_word(a, byte_at(s, 1), byte_at(s, 2), byte_at(s, 3));
    }
    crate::words::first_word(a, byte_at(s, 1))
}

// The words are planned before it is known that they are whole. So `first_word`, `second_word` and `finish` are each called
// in one place, where the compiler puts them in, and no plan is copied through memory.
pub fn begins(s: &[u8]) -> Result<(Instruction, usize), Fault>
    ensures { result ≡ found_of s.now }
{
    let n = lead(byte_at(s, 0));
    let p = planned(s);
    let k = n as usize;
    if s.len() < k {
        return Err(short(p, s));
    }
    finish(p, &s[k..], n)
}

// The entries of one form each, from its operands.
ghost use Rattle.std.specs.Prelude.{◌≡◌, ◌+◌, ◌*◌, ◌<◌};
ghost use Rattle.entry.specs.Entry.{made, digits_of, factors, reg_entry, imm_entry, alu_entry, shift_entry, unary_entry, move_entry, bcc_entry, target_entry, bsr_entry, index_number, bit_entry};

use crate::numbers;
use arith::Width;
use codes::{Dir, Index, Op, Place, Reach, Single, Source, Spot, Target, Turn};
use products::Half;

// kind k, variant v, operands x
#[tactic(auto, unfolding(crate::specs::Entry::made))]
pub fn build(k: u8, v: u8, x: u64) -> u64
    requires { x < 2199023255552 }
    ensures { result ≡ made k v x }
{
    k as u64 * 16 + v as u64 + 512 * x
}

// Two digits of registers, which are 8 for a long.
fn pair(w: Width, s: u8, d: u8) -> u64
    ensures { (result ≡ s * digits_of w + d) × (result < 4352) }
{
    match w {
        Width::Byte | Width::Word => s as u64 * 16 + d as u64,
        Width::Long => s as u64 * 8 + d as u64,
    }
}

fn reg_entry(op: Op, w: Width, s: u8, d: u8) -> u64
    ensures { result ≡ reg_entry op w s d }
{
    match w {
        Width::Byte => build(0, op as u8, pair(w, s, d)),
        Width::Word => build(1, op as u8, pair(w, s, d)),
        Width::Long => build(2, op as u8, pair(w, s, d)),
    }
}

fn imm_entry(op: Op, w: Width, v: u32, d: u8) -> u64
    ensures { result ≡ imm_entry op w v d }
{
    match w {
        Width::Byte => build(3, op as u8, d as u64 * 256 + v as u64),
        Width::Word => build(4, op as u8, d as u64 * 65536 + v as u64),
        Width::Long => build(5, op as u8, d as u64 * 4294967296 + v as u64),
    }
}

pub fn alu_entry(op: Op, w: Width, source: Source, d: u8) -> u64
    ensures { result ≡ alu_entry op w source d }
{
    match source {
        Source::Reg(s) => reg_entry(op, w, s, d),
        Source::Imm(v) => imm_entry(op, w, v, d),
    }
}

pub fn shift_entry(turn: Turn, w: Width, d: u8) -> u64
    ensures { result ≡ shift_entry turn w d }
{
    match w {
        Width::Byte => build(7, numbers::turn_number(turn), d as u64),
        Width::Word => build(7, 8 + numbers::turn_number(turn), d as u64),
        Width::Long => build(8, numbers::turn_number(turn), d as u64),
    }
}

// EXTU and EXTS have no byte.
pub fn unary_entry(single: Single, w: Width, d: u8) -> u64
    ensures { result ≡ unary_entry single w d }
{
    match single {
        Single::Not => build(8, 8 + numbers::width_number(w), d as u64),
        Single::Neg => build(8, 11 + numbers::width_number(w), d as u64),
        Single::Extu => build(9, 6 + numbers::width_number(w), d as u64),
        Single::Exts => build(9, 8 + numbers::width_number(w), d as u64),
    }
}

pub fn factors_of(h: Half, s: u8, d: u8) -> u64
    ensures { (result ≡ factors h s d) × (result < 4352) }
{
    pair(products::product_width(h), s, d)
}

pub fn move_entry(dir: Dir, w: Width, p: Place, r: u8) -> u64
    ensures { result ≡ move_entry dir w p r }
{
    let k = 10 + numbers::width_number(w);
    let v = numbers::dir_number(dir);
    match p {
        Place::At(e) => build(k, v, pair(w, e, r)),
        Place::Step(e) => build(k, v + 1, pair(w, e, r)),
        Place::Disp(e, d) => build(k, v + 2, pair(w, e, r) * 65536 + d as u64),
        Place::Abs8(a) => build(k, v + 3, r as u64 * 256 + a as u64),
        Place::Abs16(a) => build(k, v + 4, r as u64 * 65536 + a as u64),
        Place::Abs24(a) => build(k, v + 5, r as u64 * 16777216 + a as u64),
    }
}

pub fn bcc_entry(c: u8, reach: Reach) -> u64
    ensures { result ≡ bcc_entry c reach }
{
    match reach {
        Reach::Near(d) => build(13, c % 16, d as u64),
        Reach::Far(d) => build(14, c % 16, d as u64),
    }
}

// The variants of JMP begin with 0, those of JSR with 5.
pub fn target_entry(first: u8, target: Target) -> u64
    requires { first < 14 }
    ensures { result ≡ target_entry first target }
{
    match target {
        Target::ByReg(e) => build(15, first, e as u64),
        Target::Direct(a) => build(15, first + 1, a as u64),
        Target::Vector(a) => build(15, first + 2, a as u64),
    }
}

pub fn bsr_entry(reach: Reach) -> u64
    ensures { result ≡ bsr_entry reach }
{
    match reach {
        Reach::Near(d) => build(15, 3, d as u64),
        Reach::Far(d) => build(15, 4, d as u64),
    }
}

// A number of the code, or a register's digit behind those.
fn index_number(index: Index) -> u64
    ensures { (result ≡ index_number index) × (result < 272) }
{
    match index {
        Index::Numbered(n) => n as u64,
        Index::ByPart(r) => 16 + r as u64,
    }
}

// k is the kind of a byte register, and k + 2 that of a byte in memory.
pub fn bit_entry(k: u8, v: u8, index: Index, spot: Spot) -> u64
    requires { k < 30 }
    ensures { result ≡ bit_entry k v index spot }
{
    let i = index_number(index);
    match spot {
        Spot::InPart(d) => build(k, v, i * 16 + d as u64),
        Spot::AtEr(e) => build(k + 2, v, i * 512 + e as u64),
        Spot::AtAbs(a) => build(k + 2, v, i * 512 + (256 + a as u64)),
    }
}

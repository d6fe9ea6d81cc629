// The parts of an instruction's code, group by group as in the code list.
ghost use Rattle.std.specs.Prelude.{◌≡◌, ◌+◌, Some, None};
ghost use Rattle.codes.specs.Code.{◌·◌};
ghost use Rattle.encoder.specs.MirrorParts.{mk, mk1, mk2, long_parts, reg_parts, imm_parts, alu_parts, inc_dec_parts, shift_parts, unary_parts, product_parts, spot_parts, bit_parts, place_parts, move_parts, bcc_parts, target_parts, bsr_parts, parts_of};

use crate::tables;
use crate::tables::Coded;
use arith::Width;
use codes::{
    By, Dir, Index, Instruction, Op, Place, Reach, Sign, Single, Source, Spot, Target, Turn, Way,
};

// What follows the word: a number of 16 or of 32 bits.
#[derive(Clone, Copy)]
pub enum Tail {
    Bits16(u32),
    Bits32(u32),
}

// Two bytes before the word, the word's two, and what follows it.
#[derive(Clone, Copy)]
pub struct Parts {
    pub prefix: Option<(u32, u32)>,
    pub a: u32,
    pub b: u32,
    pub tail: Option<Tail>,
}

fn made(prefix: Option<(u32, u32)>, a: u32, b: u32, tail: Option<Tail>) -> Parts
    ensures { result ≡ mk prefix a b tail }
{
    Parts { prefix, a, b, tail }
}

// A code of one word
fn one(a: u32, b: u32) -> Parts
    ensures { result ≡ mk1 a b }
{
    made(None, a, b, None)
}

// A code of two words
fn two(x: u32, y: u32, a: u32, b: u32) -> Parts
    ensures { result ≡ mk2 x y a b }
{
    made(Some((x, y)), a, b, None)
}

// A word, and the number that follows it
fn long(a: u32, b: u32, tail: Tail) -> Parts
    ensures { result ≡ mk None a b (Some tail) }
{
    made(None, a, b, Some(tail))
}

// The byte of two digits
fn digits(hi: u8, lo: u8) -> u32
    ensures { result ≡ hi · lo }
{
    u32::from(hi) * 16 + u32::from(lo)
}

// A code of one word whose second byte is two digits
fn word(a: u32, hi: u8, lo: u8) -> Parts
    ensures { result ≡ mk1 a (hi · lo) }
{
    one(a, digits(hi, lo))
}

// The byte of two digits with `up` added to the upper one
fn raised(up: u8, hi: u8, lo: u8) -> u32
    ensures { result ≡ (up + hi) · lo }
{
    (u32::from(up) + u32::from(hi)) * 16 + u32::from(lo)
}

fn long_parts(op: Op, s: u8, d: u8) -> Parts
    ensures { result ≡ long_parts op s d }
{
    let up = raised(8, s, d);
    let b = digits(s, d);
    match op {
        Op::Add => one(0x0A, up),
        Op::Sub => one(0x1A, up),
        Op::Cmp => one(0x1F, up),
        Op::Mov => one(0x0F, up),
        Op::Addx => one(0, 0),
        Op::Subx => one(0, 0),
        Op::Or => two(0x01, 0xF0, 0x64, b),
        Op::Xor => two(0x01, 0xF0, 0x65, b),
        Op::And => two(0x01, 0xF0, 0x66, b),
    }
}

fn reg_parts(op: Op, w: Width, s: u8, d: u8) -> Parts
    ensures { result ≡ reg_parts op w s d }
{
    match w {
        Width::Byte => word(tables::byte_code(op), s, d),
        Width::Word => word(tables::word_code(op), s, d),
        Width::Long => long_parts(op, s, d),
    }
}

fn imm_parts(op: Op, w: Width, v: u32, d: u8) -> Parts
    ensures { result ≡ imm_parts op w v d }
{
    match w {
        Width::Byte => one(digits(tables::first_digit(op), d), v),
        Width::Word => long(0x79, digits(tables::next_digit(op), d), Tail::Bits16(v)),
        Width::Long => long(0x7A, digits(tables::next_digit(op), d), Tail::Bits32(v)),
    }
}

fn alu_parts(op: Op, w: Width, source: Source, d: u8) -> Parts
    ensures { result ≡ alu_parts op w source d }
{
    match source {
        Source::Reg(s) => reg_parts(op, w, s, d),
        Source::Imm(v) => imm_parts(op, w, v, d),
    }
}

fn inc_dec_parts(way: Way, w: Width, by: By, r: u8) -> Parts
    ensures { result ≡ inc_dec_parts way w by r }
{
    let k = tables::way_digit(way);
    match w {
        Width::Byte => word(digits(k, 0xA), 0, r),
        Width::Word => word(digits(k, 0xB), tables::word_digit(by), r),
        Width::Long => word(digits(k, 0xB), tables::long_digit(by), r),
    }
}

fn shift_parts(turn: Turn, w: Width, r: u8) -> Parts
    ensures { result ≡ shift_parts turn w r }
{
    let k = tables::digit_013(w);
    let l = tables::digit_89b(w);
    match turn {
        Turn::Shll => word(0x10, k, r),
        Turn::Shlr => word(0x11, k, r),
        Turn::Rotxl => word(0x12, k, r),
        Turn::Rotxr => word(0x13, k, r),
        Turn::Shal => word(0x10, l, r),
        Turn::Shar => word(0x11, l, r),
        Turn::Rotl => word(0x12, l, r),
        Turn::Rotr => word(0x13, l, r),
    }
}

fn unary_parts(single: Single, w: Width, r: u8) -> Parts
    ensures { result ≡ unary_parts single w r }
{
    match single {
        Single::Not => word(0x17, tables::digit_013(w), r),
        Single::Neg => word(0x17, tables::digit_89b(w), r),
        Single::Extu => word(0x17, tables::extu_digit(w), r),
        Single::Exts => word(0x17, tables::exts_digit(w), r),
    }
}

// MULXS and DIVXS have 01 and the byte c before the word of MULXU and DIVXU.
fn product_parts(sign: Sign, c: u32, a: u32, s: u8, d: u8) -> Parts
    ensures { result ≡ product_parts sign c a (s · d) }
{
    let b = digits(s, d);
    match sign {
        Sign::Unsigned => one(a, b),
        Sign::Signed => two(0x01, c, a, b),
    }
}

// The word of a bit instruction: alone for a byte register, else behind the one that names the byte in memory, which has rd 0
fn spot_parts(lead: u8, spot: Spot, byte: u32, side: u8, digit: u8) -> Parts
    ensures { result ≡ spot_parts lead spot byte side digit }
{
    match spot {
        Spot::InPart(d) => one(byte, raised(side, digit, d)),
        Spot::AtEr(e) => two(u32::from(lead), digits(e, 0), byte, raised(side, digit, 0)),
        Spot::AtAbs(a) => two(
            u32::from(lead) + 2,
            u32::from(a),
            byte,
            raised(side, digit, 0),
        ),
    }
}

// The bit's number with the digit that inverts, or the register's digit and a byte of 10 less. 7C stands before one that reads, 7D before
// one that writes.
fn bit_parts<K: Coded>(lead: u8, kind: K, index: Index, spot: Spot) -> Parts
    ensures { result ≡ bit_parts lead spot index (K.byte kind) (K.side kind) }
{
    match index {
        Index::Numbered(n) => spot_parts(lead, spot, kind.byte(), kind.side(), n),
        Index::ByPart(r) => spot_parts(lead, spot, kind.byte() - 0x10, 0, r),
    }
}

// The first byte for a byte, and 1 more for a word or a long
fn place_parts(prefix: Option<(u32, u32)>, more: u8, dir: Dir, p: Place, r: u8) -> Parts
    ensures { result ≡ place_parts prefix more dir p r }
{
    let k = tables::dir_digit(dir);
    let m = u32::from(more);
    match p {
        Place::At(e) => made(prefix, 0x68 + m, raised(k, e, r), None),
        Place::Abs8(a) => made(
            prefix,
            digits(tables::abs8_digit(dir), r),
            u32::from(a),
            None,
        ),
        Place::Step(e) => made(prefix, 0x6C + m, raised(k, e, r), None),
        Place::Disp(e, d) => {
            let tail = Tail::Bits16(u32::from(d));
            made(prefix, 0x6E + m, raised(k, e, r), Some(tail))
        }
        Place::Abs16(a) => {
            let tail = Tail::Bits16(u32::from(a));
            made(prefix, 0x6A + m, raised(k, 0, r), Some(tail))
        }
        Place::Abs24(a) => made(prefix, 0x6A + m, raised(k, 2, r), Some(Tail::Bits32(a))),
    }
}

fn move_parts(dir: Dir, w: Width, p: Place, r: u8) -> Parts
    ensures { result ≡ move_parts dir w p r }
{
    match w {
        Width::Byte => place_parts(None, 0, dir, p, r),
        Width::Word => place_parts(None, 1, dir, p, r),
        Width::Long => place_parts(Some((0x01, 0x00)), 1, dir, p, r),
    }
}

fn bcc_parts(c: u8, reach: Reach) -> Parts
    ensures { result ≡ bcc_parts c reach }
{
    match reach {
        Reach::Near(d) => one(digits(4, c), u32::from(d)),
        Reach::Far(d) => long(0x58, digits(c, 0), Tail::Bits16(u32::from(d))),
    }
}

// JMP 59, 5A, 5B, and JSR with 4 more
fn target_parts(more: u8, target: Target) -> Parts
    ensures { result ≡ target_parts more target }
{
    match target {
        Target::ByReg(e) => one(0x59 + u32::from(more), digits(e, 0)),
        Target::Direct(a) => long(0x5A + u32::from(more), a / 65536, Tail::Bits16(a % 65536)),
        Target::Vector(a) => one(0x5B + u32::from(more), u32::from(a)),
    }
}

fn bsr_parts(reach: Reach) -> Parts
    ensures { result ≡ bsr_parts reach }
{
    match reach {
        Reach::Near(d) => one(0x55, u32::from(d)),
        Reach::Far(d) => long(0x5C, 0x00, Tail::Bits16(u32::from(d))),
    }
}

pub fn parts_of(i: Instruction) -> Parts
    ensures { result ≡ parts_of i }
{
    match i {
        Instruction::Nop => one(0x00, 0x00),
        Instruction::Stc(r) => word(0x02, 0, r),
        Instruction::LdcReg(r) => word(0x03, 0, r),
        Instruction::Ccr(change, v) => one(tables::change_code(change), u32::from(v)),
        Instruction::Alu(op, w, source, d) => alu_parts(op, w, source, d),
        Instruction::IncDec(way, w, by, r) => inc_dec_parts(way, w, by, r),
        Instruction::AddsSubs(way, by, e) => word(
            digits(tables::way_digit(way), 0xB),
            tables::adds_digit(by),
            e,
        ),
        Instruction::Decimal(way, r) => word(digits(tables::way_digit(way), 0xF), 0, r),
        Instruction::Shift(turn, w, r) => shift_parts(turn, w, r),
        Instruction::Unary(single, w, r) => unary_parts(single, w, r),
        Instruction::Multiply(sign, h, s, d) => product_parts(
            sign,
            0xC0,
            tables::unsigned_multiply(h),
            s,
            d,
        ),
        Instruction::Divide(sign, h, s, d) => product_parts(
            sign,
            0xD0,
            tables::unsigned_divide(h),
            s,
            d,
        ),
        Instruction::Takes(take, index, spot) => bit_parts(0x7C, take, index, spot),
        Instruction::Gives(give, index, spot) => bit_parts(0x7D, give, index, spot),
        Instruction::Move(dir, w, p, r) => move_parts(dir, w, p, r),
        Instruction::Bcc(c, reach) => bcc_parts(c, reach),
        Instruction::Jmp(target) => target_parts(0, target),
        Instruction::Bsr(reach) => bsr_parts(reach),
        Instruction::Jsr(target) => target_parts(4, target),
        Instruction::Rts => one(0x54, 0x70),
    }
}

// What a word of a code says. The tables are document 01's, by digits.
ghost use Rattle.std.specs.Borrow.{Bor};
ghost use Rattle.std.specs.Prelude.{◌≡◌};
ghost use Rattle.decoder.specs.MirrorWords.{inc_dec_of, multiplied, divided, shift_of, unary_of, row0, row1, row5, reads_of, writes_of, row6, row7, plan_of, after00, after_c0, after_d0, after_f0, after01, names_byte, named_spot, bit_word, memory_bit, after_of};

use crate::plan;
use crate::plan::{Mode, Plan, Rest};
use arith::Width;
use codes::{
    By, Change, Dir, Give, Instruction, Op, Place, Reach, Sign, Single, Source, Spot, Take, Target,
    Turn, Way,
};
use products::Half;

// 0B and 1B
fn inc_dec(way: Way, b: u8) -> Option<Plan>
    ensures { result ≡ inc_dec_of way b }
{
    let d = b % 16;
    match b / 16 {
        0x0 => plan::stepped(way, By::One, d),
        0x8 => plan::stepped(way, By::Two, d),
        0x9 => plan::stepped(way, By::Four, d),
        0x5 => plan::counted(way, Width::Word, By::One, d),
        0xD => plan::counted(way, Width::Word, By::Two, d),
        0x7 => plan::counted(way, Width::Long, By::One, d),
        0xF => plan::counted(way, Width::Long, By::Two, d),
        _ => None,
    }
}

// 10 to 13
fn shift(t: Turn, u: Turn, b: u8) -> Option<Plan>
    ensures { result ≡ shift_of t u b }
{
    let d = b % 16;
    match b / 16 {
        0x0 => plan::turned(t, Width::Byte, d),
        0x1 => plan::turned(t, Width::Word, d),
        0x3 => plan::turned(t, Width::Long, d),
        0x8 => plan::turned(u, Width::Byte, d),
        0x9 => plan::turned(u, Width::Word, d),
        0xB => plan::turned(u, Width::Long, d),
        _ => None,
    }
}

// 17
fn unary(b: u8) -> Option<Plan>
    ensures { result ≡ unary_of b }
{
    let d = b % 16;
    match b / 16 {
        0x0 => plan::single(Single::Not, Width::Byte, d),
        0x1 => plan::single(Single::Not, Width::Word, d),
        0x3 => plan::single(Single::Not, Width::Long, d),
        0x8 => plan::single(Single::Neg, Width::Byte, d),
        0x9 => plan::single(Single::Neg, Width::Word, d),
        0xB => plan::single(Single::Neg, Width::Long, d),
        0x5 => plan::single(Single::Extu, Width::Word, d),
        0x7 => plan::single(Single::Extu, Width::Long, d),
        0xD => plan::single(Single::Exts, Width::Word, d),
        0xF => plan::single(Single::Exts, Width::Long, d),
        _ => None,
    }
}

// First digit 0
fn row_0(lo: u8, b: u8) -> Option<Plan>
    ensures { result ≡ row0 lo b }
{
    match lo {
        0x0 => plan::nop(b),
        0x2 => plan::below(b, 16, Plan::Whole(Instruction::Stc(b))),
        0x3 => plan::below(b, 16, Plan::Whole(Instruction::LdcReg(b))),
        0x4 => Some(Plan::Whole(Instruction::Ccr(Change::Orc, b))),
        0x5 => Some(Plan::Whole(Instruction::Ccr(Change::Xorc, b))),
        0x6 => Some(Plan::Whole(Instruction::Ccr(Change::Andc, b))),
        0x7 => Some(Plan::Whole(Instruction::Ccr(Change::Ldc, b))),
        0x8 => plan::reg_reg(Op::Add, Width::Byte, b),
        0x9 => plan::reg_reg(Op::Add, Width::Word, b),
        0xA => plan::inc_or_long(Way::Up, Op::Add, b),
        0xB => inc_dec(Way::Up, b),
        0xC => plan::reg_reg(Op::Mov, Width::Byte, b),
        0xD => plan::reg_reg(Op::Mov, Width::Word, b),
        0xE => plan::reg_reg(Op::Addx, Width::Byte, b),
        0xF => plan::decimal_or_long(Way::Up, Op::Mov, b),
        _ => None,
    }
}

// First digit 1
fn row_1(lo: u8, b: u8) -> Option<Plan>
    ensures { result ≡ row1 lo b }
{
    match lo {
        0x0 => shift(Turn::Shll, Turn::Shal, b),
        0x1 => shift(Turn::Shlr, Turn::Shar, b),
        0x2 => shift(Turn::Rotxl, Turn::Rotl, b),
        0x3 => shift(Turn::Rotxr, Turn::Rotr, b),
        0x4 => plan::reg_reg(Op::Or, Width::Byte, b),
        0x5 => plan::reg_reg(Op::Xor, Width::Byte, b),
        0x6 => plan::reg_reg(Op::And, Width::Byte, b),
        0x7 => unary(b),
        0x8 => plan::reg_reg(Op::Sub, Width::Byte, b),
        0x9 => plan::reg_reg(Op::Sub, Width::Word, b),
        0xA => plan::inc_or_long(Way::Down, Op::Sub, b),
        0xB => inc_dec(Way::Down, b),
        0xC => plan::reg_reg(Op::Cmp, Width::Byte, b),
        0xD => plan::reg_reg(Op::Cmp, Width::Word, b),
        0xE => plan::reg_reg(Op::Subx, Width::Byte, b),
        0xF => plan::decimal_or_long(Way::Down, Op::Cmp, b),
        _ => None,
    }
}

// These two differ in the constructor alone, which as a parameter would need clauses of its own.
fn multiply(sign: Sign, h: Half, b: u8) -> Option<Plan>
    ensures { result ≡ multiplied sign h b }
{
    plan::product(h, b, Instruction::Multiply(sign, h, b / 16, b % 16))
}

fn divide(sign: Sign, h: Half, b: u8) -> Option<Plan>
    ensures { result ≡ divided sign h b }
{
    plan::product(h, b, Instruction::Divide(sign, h, b / 16, b % 16))
}

// First digit 5
fn row_5(lo: u8, b: u8) -> Option<Plan>
    ensures { result ≡ row5 lo b }
{
    match lo {
        0x0 => multiply(Sign::Unsigned, Half::Eight, b),
        0x1 => divide(Sign::Unsigned, Half::Eight, b),
        0x2 => multiply(Sign::Unsigned, Half::Sixteen, b),
        0x3 => divide(Sign::Unsigned, Half::Sixteen, b),
        0x4 => plan::rts(b),
        0x5 => Some(Plan::Whole(Instruction::Bsr(Reach::Near(b)))),
        0x8 => plan::bcc_16(b),
        0x9 => plan::e_zero(b, Plan::Whole(Instruction::Jmp(Target::ByReg(b / 16)))),
        0xA => Some(Plan::Lacks(Rest::Jmp24(b))),
        0xB => Some(Plan::Whole(Instruction::Jmp(Target::Vector(b)))),
        0xC => plan::bsr_16(b),
        0xD => plan::e_zero(b, Plan::Whole(Instruction::Jsr(Target::ByReg(b / 16)))),
        0xE => Some(Plan::Lacks(Rest::Jsr24(b))),
        0xF => Some(Plan::Whole(Instruction::Jsr(Target::Vector(b)))),
        _ => None,
    }
}

// The word of a bit instruction that reads: its bit is in `spot`
fn reads(c: u8, d: u8, spot: Spot) -> Option<Plan>
    ensures { result ≡ reads_of c d spot }
{
    match c {
        0x63 => plan::by_part(Take::Btst, d, spot),
        0x73 => plan::numbered(Take::Btst, d, spot),
        0x74 => plan::either(Take::Bor, Take::Bior, d, spot),
        0x75 => plan::either(Take::Bxor, Take::Bixor, d, spot),
        0x76 => plan::either(Take::Band, Take::Biand, d, spot),
        0x77 => plan::either(Take::Bld, Take::Bild, d, spot),
        _ => None,
    }
}

// and of one that writes
fn writes(c: u8, d: u8, spot: Spot) -> Option<Plan>
    ensures { result ≡ writes_of c d spot }
{
    match c {
        0x60 => plan::by_part(Give::Bset, d, spot),
        0x61 => plan::by_part(Give::Bnot, d, spot),
        0x62 => plan::by_part(Give::Bclr, d, spot),
        0x67 => plan::either(Give::Bst, Give::Bist, d, spot),
        0x70 => plan::numbered(Give::Bset, d, spot),
        0x71 => plan::numbered(Give::Bnot, d, spot),
        0x72 => plan::numbered(Give::Bclr, d, spot),
        _ => None,
    }
}

// First digit 6
fn row_6(lo: u8, b: u8) -> Option<Plan>
    ensures { result ≡ row6 lo b }
{
    // a bit in a byte register: the lower digit
    let part = Spot::InPart(b % 16);
    match lo {
        0x0 => writes(0x60, b, part),
        0x1 => writes(0x61, b, part),
        0x2 => writes(0x62, b, part),
        0x3 => reads(0x63, b, part),
        0x4 => plan::reg_reg(Op::Or, Width::Word, b),
        0x5 => plan::reg_reg(Op::Xor, Width::Word, b),
        0x6 => plan::reg_reg(Op::And, Width::Word, b),
        0x7 => writes(0x67, b, part),
        0x8 => plan::memory(Width::Byte, Mode::Plain, b),
        0x9 => plan::memory(Width::Word, Mode::Plain, b),
        0xA => plan::memory(Width::Byte, Mode::Absolute, b),
        0xB => plan::memory(Width::Word, Mode::Absolute, b),
        0xC => plan::memory(Width::Byte, Mode::Stepping, b),
        0xD => plan::memory(Width::Word, Mode::Stepping, b),
        0xE => plan::memory(Width::Byte, Mode::Displaced, b),
        0xF => plan::memory(Width::Word, Mode::Displaced, b),
        _ => None,
    }
}

// First digit 7
fn row_7(lo: u8, b: u8) -> Option<Plan>
    ensures { result ≡ row7 lo b }
{
    // a bit in a byte register: the lower digit
    let part = Spot::InPart(b % 16);
    match lo {
        0x0 => writes(0x70, b, part),
        0x1 => writes(0x71, b, part),
        0x2 => writes(0x72, b, part),
        0x3 => reads(0x73, b, part),
        0x4 => reads(0x74, b, part),
        0x5 => reads(0x75, b, part),
        0x6 => reads(0x76, b, part),
        0x7 => reads(0x77, b, part),
        0x9 => plan::imm_16(b),
        0xA => plan::imm_32(b),
        _ => None,
    }
}

// The first word of a code that has no second
pub fn first_word(a: u8, b: u8) -> Option<Plan>
    ensures { result ≡ plan_of a b }
{
    let lo = a % 16;
    match a / 16 {
        0 => row_0(lo, b),
        1 => row_1(lo, b),
        2 => Some(Plan::Whole(Instruction::Move(Dir::Load, Width::Byte, Place::Abs8(b), lo))),
        3 => Some(Plan::Whole(Instruction::Move(Dir::Store, Width::Byte, Place::Abs8(b), lo))),
        4 => Some(Plan::Whole(Instruction::Bcc(lo, Reach::Near(b)))),
        5 => row_5(lo, b),
        6 => row_6(lo, b),
        7 => row_7(lo, b),
        hi => Some(Plan::Whole(Instruction::Alu(
            plan::first_op(hi),
            Width::Byte,
            Source::Imm(b as u32),
            lo,
        ))),
    }
}

// The word after 0100
fn after_00(c: u8, d: u8) -> Option<Plan>
    ensures { result ≡ after00 c d }
{
    match c {
        0x69 => plan::long_memory(Mode::Plain, d),
        0x6B => plan::long_memory(Mode::Absolute, d),
        0x6D => plan::long_memory(Mode::Stepping, d),
        0x6F => plan::long_memory(Mode::Displaced, d),
        _ => None,
    }
}

// The word after 01C0
fn after_c0(c: u8, d: u8) -> Option<Plan>
    ensures { result ≡ after_c0 c d }
{
    match c {
        0x50 => multiply(Sign::Signed, Half::Eight, d),
        0x52 => multiply(Sign::Signed, Half::Sixteen, d),
        _ => None,
    }
}

// The word after 01D0
fn after_d0(c: u8, d: u8) -> Option<Plan>
    ensures { result ≡ after_d0 c d }
{
    match c {
        0x51 => divide(Sign::Signed, Half::Eight, d),
        0x53 => divide(Sign::Signed, Half::Sixteen, d),
        _ => None,
    }
}

// The word after 01F0
fn after_f0(c: u8, d: u8) -> Option<Plan>
    ensures { result ≡ after_f0 c d }
{
    match c {
        0x64 => plan::long_logic(Op::Or, d),
        0x65 => plan::long_logic(Op::Xor, d),
        0x66 => plan::long_logic(Op::And, d),
        _ => None,
    }
}

// The word after 01 and b
fn after_01(b: u8, c: u8, d: u8) -> Option<Plan>
    ensures { result ≡ after01 b c d }
{
    match b {
        0x00 => after_00(c, d),
        0xC0 => after_c0(c, d),
        0xD0 => after_d0(c, d),
        0xF0 => after_f0(c, d),
        _ => None,
    }
}

// Whether a and b name a byte in memory: e0 behind 7C and 7D, aa:8 behind 7E and 7F
pub fn names_byte(a: u8, b: u8) -> bool
    ensures { result ≡ names_byte a b }
{
    match a {
        0x7C | 0x7D => plan::is_e_zero(b),
        0x7E | 0x7F => true,
        _ => false,
    }
}

fn named_spot(a: u8, b: u8) -> Spot
    ensures { result ≡ named_spot a b }
{
    if a < 0x7E {
        return Spot::AtEr(b / 16);
    }
    Spot::AtAbs(b)
}

// Behind 7C and 7E a bit is read, behind 7D and 7F it is written. The two tables are asked in one place for all four, where the
// compiler puts them in, and no plan goes through memory.
fn bit_word(a: u8, c: u8, d: u8, spot: Spot) -> Option<Plan>
    ensures { result ≡ bit_word a c d spot }
{
    if a % 2 == 0 {
        reads(c, d, spot)
    } else {
        writes(c, d, spot)
    }
}

// The word after a and b of 7C to 7F: its last digit is 0
fn memory_bit(a: u8, b: u8, c: u8, d: u8) -> Option<Plan>
    ensures { result ≡ memory_bit a b c d }
{
    if names_byte(a, b) && d % 16 == 0 {
        bit_word(a, c, d, named_spot(a, b))
    } else {
        None
    }
}

// The second word of a code that begins with a and b
pub fn second_word(a: u8, b: u8, c: u8, d: u8) -> Option<Plan>
    ensures { result ≡ after_of a b c d }
{
    match a {
        0x01 => after_01(b, c, d),
        _ => memory_bit(a, b, c, d),
    }
}

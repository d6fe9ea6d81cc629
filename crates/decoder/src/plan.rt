// The forms that a word of a code can have: a whole instruction, or one that lacks its last bytes. A word of no code has no plan.
ghost use Rattle.std.specs.Prelude.{◌≡◌, ◌%◌, Some};
ghost use Rattle.products.specs.Products.{product_width};
ghost use Rattle.decoder.specs.Names.{Whole};
ghost use Rattle.decoder.specs.MirrorWords.{exactly, below, held, nop_of, counted, stepped, turned, single_of, rts_of, bcc16, bsr16, imm16, imm32, reg_reg, long_reg, inc_or_long, decimal_or_long, absolute_of, move_of, memory_of, first_op, next_op, long_memory, long_logic, is_ezero, e_zero, by_part, numbered, either};

use arith::Width;
use codes::{Bit, By, Dir, Index, Instruction, Op, Place, Single, Source, Spot, Turn, Way};
use products::Half;

// What a code still lacks after its words.
#[derive(Clone, Copy)]
pub enum Rest {
    Imm16(Op, u8),
    Imm32(Op, u8),
    Disp16(Dir, Width, u8, u8),
    Aa16(Dir, Width, u8),
    Aa24(Dir, Width, u8),
    Bcc16(u8),
    Bsr16,
    // with the upper byte of aa:24
    Jmp24(u8),
    Jsr24(u8),
}

#[derive(Clone, Copy)]
pub enum Plan {
    Whole(Instruction),
    Lacks(Rest),
}

// How a MOV reaches memory: @ER; @ER+ and @-ER; d:16; aa:16 and aa:24.
#[derive(Clone, Copy)]
pub enum Mode {
    Plain,
    Stepping,
    Displaced,
    Absolute,
}

// Only where x is k.
pub fn exactly(x: u8, k: u8, p: Plan) -> Option<Plan>
    ensures { result ≡ exactly x k (Some p) }
{
    (x == k).then_some(p)
}

// Only where x is below k: a digit e is below 8, a byte 0r below 16.
pub fn below(x: u8, k: u8, p: Plan) -> Option<Plan>
    ensures { result ≡ below x k (Some p) }
{
    (x < k).then_some(p)
}

pub fn is_e_zero(b: u8) -> bool
    ensures { result ≡ is_ezero b }
{
    b % 16 == 0 && b / 16 < 8
}

// Only where the byte is e0.
pub fn e_zero(b: u8, p: Plan) -> Option<Plan>
    ensures { result ≡ e_zero b (Some p) }
{
    is_e_zero(b).then_some(p)
}

// A register digit: r of a byte or a word, e of a long.
fn held(w: Width, d: u8, i: Instruction) -> Option<Plan>
    ensures { result ≡ held w d (Some (Whole i)) }
{
    match w {
        Width::Byte | Width::Word => Some(Plan::Whole(i)),
        Width::Long => below(d, 8, Plan::Whole(i)),
    }
}

pub fn nop(b: u8) -> Option<Plan>
    ensures { result ≡ nop_of b }
{
    exactly(b, 0, Plan::Whole(Instruction::Nop))
}

// rs then rd
pub fn reg_reg(op: Op, w: Width, b: u8) -> Option<Plan>
    ensures { result ≡ reg_reg op w b }
{
    Some(Plan::Whole(Instruction::Alu(op, w, Source::Reg(b / 16), b % 16)))
}

// MULXU to DIVXS: rs then rd, or rs then e
pub fn product(h: Half, b: u8, i: Instruction) -> Option<Plan>
    ensures { result ≡ held (product_width h) (b % 16) (Some (Whole i)) }
{
    held(products::product_width(h), b % 16, i)
}

// (8+e)e
pub fn long_reg(op: Op, b: u8) -> Option<Plan>
    ensures { result ≡ long_reg op b }
{
    if b < 128 {
        return None;
    }
    below(
        b % 16,
        8,
        Plan::Whole(Instruction::Alu(op, Width::Long, Source::Reg(b / 16 - 8), b % 16)),
    )
}

// 0A and 1A
pub fn inc_or_long(way: Way, op: Op, b: u8) -> Option<Plan>
    ensures { result ≡ inc_or_long way op b }
{
    if b < 16 {
        return Some(Plan::Whole(Instruction::IncDec(way, Width::Byte, By::One, b)));
    }
    long_reg(op, b)
}

// 0F and 1F
pub fn decimal_or_long(way: Way, op: Op, b: u8) -> Option<Plan>
    ensures { result ≡ decimal_or_long way op b }
{
    if b < 16 {
        return Some(Plan::Whole(Instruction::Decimal(way, b)));
    }
    long_reg(op, b)
}

pub fn counted(way: Way, w: Width, by: By, d: u8) -> Option<Plan>
    ensures { result ≡ counted way w by d }
{
    held(w, d, Instruction::IncDec(way, w, by, d))
}

pub fn stepped(way: Way, by: By, d: u8) -> Option<Plan>
    ensures { result ≡ stepped way by d }
{
    below(d, 8, Plan::Whole(Instruction::AddsSubs(way, by, d)))
}

pub fn turned(t: Turn, w: Width, d: u8) -> Option<Plan>
    ensures { result ≡ turned t w d }
{
    held(w, d, Instruction::Shift(t, w, d))
}

pub fn single(s: Single, w: Width, d: u8) -> Option<Plan>
    ensures { result ≡ single_of s w d }
{
    held(w, d, Instruction::Unary(s, w, d))
}

pub fn rts(b: u8) -> Option<Plan>
    ensures { result ≡ rts_of b }
{
    exactly(b, 0x70, Plan::Whole(Instruction::Rts))
}

// 58c0
pub fn bcc_16(b: u8) -> Option<Plan>
    ensures { result ≡ bcc16 b }
{
    exactly(b % 16, 0, Plan::Lacks(Rest::Bcc16(b / 16)))
}

pub fn bsr_16(b: u8) -> Option<Plan>
    ensures { result ≡ bsr16 b }
{
    exactly(b, 0, Plan::Lacks(Rest::Bsr16))
}

fn absolute(w: Width, dir: Dir, e: u8, r: u8) -> Option<Plan>
    ensures { result ≡ absolute_of w dir e r }
{
    match e {
        0 => Some(Plan::Lacks(Rest::Aa16(dir, w, r))),
        2 => Some(Plan::Lacks(Rest::Aa24(dir, w, r))),
        _ => None,
    }
}

// The second byte's upper digit is taken apart: a load or a store, and what is left of it.
pub fn moves(w: Width, mode: Mode, dir: Dir, e: u8, r: u8) -> Option<Plan>
    ensures { result ≡ move_of w mode dir e r }
{
    match mode {
        Mode::Plain => Some(Plan::Whole(Instruction::Move(dir, w, Place::At(e), r))),
        Mode::Stepping => Some(Plan::Whole(Instruction::Move(dir, w, Place::Step(e), r))),
        Mode::Displaced => Some(Plan::Lacks(Rest::Disp16(dir, w, e, r))),
        Mode::Absolute => absolute(w, dir, e, r),
    }
}

// A load, or a store with 8 added to the upper digit
pub fn memory(w: Width, mode: Mode, b: u8) -> Option<Plan>
    ensures { result ≡ memory_of w mode b }
{
    if b < 128 {
        return moves(w, mode, Dir::Load, b / 16, b % 16);
    }
    moves(w, mode, Dir::Store, b / 16 - 8, b % 16)
}

// The first digit of an immediate byte. There are two tables of this kind, so neither is the type's own `TryFrom`.
pub fn first_op(d: u8) -> Op
    ensures { result ≡ first_op d }
{
    match d {
        0x8 => Op::Add,
        0x9 => Op::Addx,
        0xA => Op::Cmp,
        0xB => Op::Subx,
        0xC => Op::Or,
        0xD => Op::Xor,
        0xE => Op::And,
        _ => Op::Mov,
    }
}

// The next digit of 79 and 7A
pub fn next_op(d: u8) -> Op
    ensures { result ≡ next_op d }
{
    match d {
        0 => Op::Mov,
        1 => Op::Add,
        2 => Op::Cmp,
        3 => Op::Sub,
        4 => Op::Or,
        5 => Op::Xor,
        _ => Op::And,
    }
}

// 79 and 7A: the upper digit is 0 to 6
pub fn imm_16(b: u8) -> Option<Plan>
    ensures { result ≡ imm16 b }
{
    below(b, 0x70, Plan::Lacks(Rest::Imm16(next_op(b / 16), b % 16)))
}

pub fn imm_32(b: u8) -> Option<Plan>
    ensures { result ≡ imm32 b }
{
    if b < 0x70 {
        below(b % 16, 8, Plan::Lacks(Rest::Imm32(next_op(b / 16), b % 16)))
    } else {
        None
    }
}

pub fn long_memory(mode: Mode, d: u8) -> Option<Plan>
    ensures { result ≡ long_memory mode d }
{
    if d % 16 < 8 {
        memory(Width::Long, mode, d)
    } else {
        None
    }
}

pub fn long_logic(op: Op, d: u8) -> Option<Plan>
    ensures { result ≡ long_logic op d }
{
    if d < 128 && d % 16 < 8 {
        reg_reg(op, Width::Long, d)
    } else {
        None
    }
}

// A bit's number in a byte register: the upper digit
pub fn by_part<K: Bit>(kind: K, b: u8, spot: Spot) -> Option<Plan>
    ensures { result ≡ by_part K.instruction kind b spot }
{
    Some(Plan::Whole(kind.at(Index::ByPart(b / 16), spot)))
}

// A bit's number in the code: an upper digit 0 to 7
pub fn numbered<K: Bit>(kind: K, b: u8, spot: Spot) -> Option<Plan>
    ensures { result ≡ numbered K.instruction kind b spot }
{
    below(b, 128, Plan::Whole(kind.at(Index::Numbered(b / 16), spot)))
}

// or with 8 added to it, for the inverted instruction
pub fn either<K: Bit>(kind: K, inverted: K, b: u8, spot: Spot) -> Option<Plan>
    ensures { result ≡ either K.instruction kind inverted b spot }
{
    if b < 128 {
        return Some(Plan::Whole(kind.at(Index::Numbered(b / 16), spot)));
    }
    Some(Plan::Whole(inverted.at(Index::Numbered(b / 16 - 8), spot)))
}

// What the instructions without memory do, where the registers lie: a function writes them and answers the condition byte. PC is none of theirs.
#![tactic(auto)]

ghost use Rattle.std.specs.Prelude.{◌≡◌, ◌%◌, Ok, Err};
ghost use Rattle.arith.specs.Widths.{bits_of};
ghost use Rattle.arith.specs.Sums.{inc_of, dec_of};
ghost use Rattle.registers.specs.Condition.{condition_of};
ghost use Rattle.registers.specs.Parts.{part_of};
ghost use Rattle.registers.specs.Lent.{lent};
ghost use Rattle.codes.specs.declared.Op.TheVariants.{Add, Sub, Cmp, Mov, Addx, Subx, Or, Xor, And};
ghost use Rattle.codes.specs.declared.Way.TheVariants.{Up, Down};
ghost use Rattle.codes.specs.declared.Turn.TheVariants.{Shll, Shlr, Rotxl, Rotxr, Shal, Shar, Rotl, Rotr};
ghost use Rattle.codes.specs.declared.Single.TheVariants.{Not, Neg, Extu, Exts};
ghost use Rattle.codes.specs.declared.Change.TheVariants.{Orc, Xorc, Andc, Ldc};
ghost use Rattle.operate.specs.Results.{counted};
ghost use Rattle.operate.specs.Operate.{stc_of, ldc_of, ccr_of, carried_of, adjusted_of, decimal_of, shift_of, unary_of};
ghost use Rattle.operate.specs.MirrorLent.{Does, Operates, Marks, Replaces, Fills, deed, effect_in};

use arith::Width;
use refusal::Refusal;
use registers::Condition;

// The condition byte after an instruction, and how it went. A refused one has written nothing.
#[derive(Clone, Copy)]
pub struct Deed {
    pub condition: Condition,
    pub outcome: Result<(), Refusal>,
}

pub fn did(f: Condition) -> Deed
    ensures { result ≡ deed f (Ok tt) }
{
    Deed {
        condition: f,
        outcome: Ok(()),
    }
}

pub fn refused(f: Condition, x: Refusal) -> Deed
    ensures { result ≡ deed f (Err x) }
{
    Deed {
        condition: f,
        outcome: Err(x),
    }
}

// ADD to AND: s is the source, d the digit of the destination.
pub fn add(w: Width, er: &mut [u32; 8], d: u8, s: u32, f: Condition) -> Condition
    ensures { Operates Add w s d er.old er.new f result }
{
    let x = arith::sums::add(w, registers::get(w, er, d), s, false);
    registers::put(w, er, d, x.value);
    f.with_sum(x)
}

pub fn sub(w: Width, er: &mut [u32; 8], d: u8, s: u32, f: Condition) -> Condition
    ensures { Operates Sub w s d er.old er.new f result }
{
    let x = arith::sums::sub(w, registers::get(w, er, d), s, false);
    registers::put(w, er, d, x.value);
    f.with_sum(x)
}

pub fn cmp(w: Width, er: &[u32; 8], d: u8, s: u32, f: Condition) -> Condition
    ensures { Operates Cmp w s d er.now er.now f result }
{
    f.with_sum(arith::sums::sub(w, registers::get(w, er, d), s, false))
}

pub fn mov(w: Width, er: &mut [u32; 8], d: u8, s: u32, f: Condition) -> Condition
    ensures { Operates Mov w s d er.old er.new f result }
{
    let x = arith::mov(w, s);
    registers::put(w, er, d, x.value);
    f.with_moved(x)
}

pub fn addx(w: Width, er: &mut [u32; 8], d: u8, s: u32, f: Condition) -> Condition
    ensures { Operates Addx w s d er.old er.new f result }
{
    let x = arith::sums::add(w, registers::get(w, er, d), s, f.c);
    registers::put(w, er, d, x.value);
    f.with_extended(x)
}

pub fn subx(w: Width, er: &mut [u32; 8], d: u8, s: u32, f: Condition) -> Condition
    ensures { Operates Subx w s d er.old er.new f result }
{
    let x = arith::sums::sub(w, registers::get(w, er, d), s, f.c);
    registers::put(w, er, d, x.value);
    f.with_extended(x)
}

pub fn or(w: Width, er: &mut [u32; 8], d: u8, s: u32, f: Condition) -> Condition
    ensures { Operates Or w s d er.old er.new f result }
{
    let x = arith::logic::or(w, registers::get(w, er, d), s);
    registers::put(w, er, d, x.value);
    f.with_moved(x)
}

pub fn xor(w: Width, er: &mut [u32; 8], d: u8, s: u32, f: Condition) -> Condition
    ensures { Operates Xor w s d er.old er.new f result }
{
    let x = arith::logic::xor(w, registers::get(w, er, d), s);
    registers::put(w, er, d, x.value);
    f.with_moved(x)
}

pub fn and(w: Width, er: &mut [u32; 8], d: u8, s: u32, f: Condition) -> Condition
    ensures { Operates And w s d er.old er.new f result }
{
    let x = arith::logic::and(w, registers::get(w, er, d), s);
    registers::put(w, er, d, x.value);
    f.with_moved(x)
}

// INC and DEC by n.
pub fn inc(w: Width, er: &mut [u32; 8], d: u8, n: u32, f: Condition) -> Condition
    ensures { Does (λ r. counted w d r (inc_of (bits_of w) (part_of w r d) n)) er.old er.new f result }
{
    let x = arith::sums::inc(w, registers::get(w, er, d), n);
    registers::put(w, er, d, x.value);
    f.with_counted(x)
}

pub fn dec(w: Width, er: &mut [u32; 8], d: u8, n: u32, f: Condition) -> Condition
    ensures { Does (λ r. counted w d r (dec_of (bits_of w) (part_of w r d) n)) er.old er.new f result }
{
    let x = arith::sums::dec(w, registers::get(w, er, d), n);
    registers::put(w, er, d, x.value);
    f.with_counted(x)
}

// ADDS and SUBS, @ER+ and @-ER, and the stack: a register of 32 bits, higher or lower by n; no flag changes.
pub fn raise(er: &mut [u32; 8], e: u8, n: u32, f: Condition) -> Condition
    ensures { Does (carried_of Up n e) er.old er.new f result }
{
    let x = registers::get(Width::Long, er, e);
    registers::put(Width::Long, er, e, std::num::wrapping_add_u32(x, n));
    f
}

pub fn lower(er: &mut [u32; 8], e: u8, n: u32, f: Condition) -> Condition
    ensures { Does (carried_of Down n e) er.old er.new f result }
{
    let x = registers::get(Width::Long, er, e);
    registers::put(Width::Long, er, e, std::num::wrapping_sub_u32(x, n));
    f
}

// Shifts and rotates.
pub fn shll(w: Width, er: &mut [u32; 8], d: u8, f: Condition) -> Condition
    ensures { Does (shift_of Shll w d) er.old er.new f result }
{
    let x = arith::shifts::shll(w, registers::get(w, er, d));
    registers::put(w, er, d, x.value);
    f.with_shifted(x)
}

pub fn shlr(w: Width, er: &mut [u32; 8], d: u8, f: Condition) -> Condition
    ensures { Does (shift_of Shlr w d) er.old er.new f result }
{
    let x = arith::shifts::shlr(w, registers::get(w, er, d));
    registers::put(w, er, d, x.value);
    f.with_shifted(x)
}

pub fn rotxl(w: Width, er: &mut [u32; 8], d: u8, f: Condition) -> Condition
    ensures { Does (shift_of Rotxl w d) er.old er.new f result }
{
    let x = arith::shifts::rotxl(w, registers::get(w, er, d), f.c);
    registers::put(w, er, d, x.value);
    f.with_shifted(x)
}

pub fn rotxr(w: Width, er: &mut [u32; 8], d: u8, f: Condition) -> Condition
    ensures { Does (shift_of Rotxr w d) er.old er.new f result }
{
    let x = arith::shifts::rotxr(w, registers::get(w, er, d), f.c);
    registers::put(w, er, d, x.value);
    f.with_shifted(x)
}

pub fn shal(w: Width, er: &mut [u32; 8], d: u8, f: Condition) -> Condition
    ensures { Does (shift_of Shal w d) er.old er.new f result }
{
    let x = arith::shifts::shal(w, registers::get(w, er, d));
    registers::put(w, er, d, x.value);
    f.with_shifted(x)
}

pub fn shar(w: Width, er: &mut [u32; 8], d: u8, f: Condition) -> Condition
    ensures { Does (shift_of Shar w d) er.old er.new f result }
{
    let x = arith::shifts::shar(w, registers::get(w, er, d));
    registers::put(w, er, d, x.value);
    f.with_shifted(x)
}

pub fn rotl(w: Width, er: &mut [u32; 8], d: u8, f: Condition) -> Condition
    ensures { Does (shift_of Rotl w d) er.old er.new f result }
{
    let x = arith::shifts::rotl(w, registers::get(w, er, d));
    registers::put(w, er, d, x.value);
    f.with_shifted(x)
}

pub fn rotr(w: Width, er: &mut [u32; 8], d: u8, f: Condition) -> Condition
    ensures { Does (shift_of Rotr w d) er.old er.new f result }
{
    let x = arith::shifts::rotr(w, registers::get(w, er, d));
    registers::put(w, er, d, x.value);
    f.with_shifted(x)
}

// NOT, NEG, EXTU and EXTS.
pub fn not(w: Width, er: &mut [u32; 8], d: u8, f: Condition) -> Condition
    ensures { Does (unary_of Not w d) er.old er.new f result }
{
    let x = arith::logic::not(w, registers::get(w, er, d));
    registers::put(w, er, d, x.value);
    f.with_moved(x)
}

pub fn neg(w: Width, er: &mut [u32; 8], d: u8, f: Condition) -> Condition
    ensures { Does (unary_of Neg w d) er.old er.new f result }
{
    let x = arith::sums::neg(w, registers::get(w, er, d));
    registers::put(w, er, d, x.value);
    f.with_sum(x)
}

pub fn extu(w: Width, er: &mut [u32; 8], d: u8, f: Condition) -> Condition
    ensures { Does (unary_of Extu w d) er.old er.new f result }
{
    let x = arith::logic::extu(w, registers::get(w, er, d));
    registers::put(w, er, d, x.value);
    f.with_moved(x)
}

pub fn exts(w: Width, er: &mut [u32; 8], d: u8, f: Condition) -> Condition
    ensures { Does (unary_of Exts w d) er.old er.new f result }
{
    let x = arith::logic::exts(w, registers::get(w, er, d));
    registers::put(w, er, d, x.value);
    f.with_moved(x)
}

// STC: no flag changes.
pub fn stc(er: &mut [u32; 8], d: u8, f: Condition) -> Condition
    ensures { Does (stc_of d) er.old er.new f result }
{
    registers::put(Width::Byte, er, d, u32::from(u8::from(f)));
    f
}

// The condition byte whose bits are the low ones of a number.
fn condition(x: u32) -> Condition
    ensures { result ≡ condition_of (x % 256) }
{
    Condition::from((x % 256) as u8)
}

// LDC from a byte register: all eight bits.
pub fn ldc_reg(er: &[u32; 8], s: u8) -> Condition
    ensures { Replaces (ldc_of s) er.now result }
{
    condition(registers::get(Width::Byte, er, s))
}

// ORC, XORC, ANDC and LDC with the number v of the code.
pub fn orc(v: u32, f: Condition) -> Condition
    ensures { Marks (ccr_of Orc v) f result }
{
    condition(arith::logic::or(Width::Byte, u32::from(u8::from(f)), v).value)
}

pub fn xorc(v: u32, f: Condition) -> Condition
    ensures { Marks (ccr_of Xorc v) f result }
{
    condition(arith::logic::xor(Width::Byte, u32::from(u8::from(f)), v).value)
}

pub fn andc(v: u32, f: Condition) -> Condition
    ensures { Marks (ccr_of Andc v) f result }
{
    condition(arith::logic::and(Width::Byte, u32::from(u8::from(f)), v).value)
}

pub fn ldc(v: u32) -> Condition
    ensures { Fills (ccr_of Ldc v) result }
{
    condition(arith::mov(Width::Byte, v).value)
}

// The row's value is added; where no row fits, refusal 7 at the instruction.
fn adjusted(a: Option<(u8, bool)>, x: u32, er: &mut [u32; 8], d: u8, pc: u32, f: Condition) -> Deed
    ensures { effect_in er.new pc result ≡ adjusted_of a x d (lent er.old pc f) }
{
    match a {
        Some((v, c)) => {
            let y = arith::mov(Width::Byte, x % 256 + v as u32);
            registers::put(Width::Byte, er, d, y.value);
            did(f.with_adjusted(y, c))
        }
        None => refused(f, Refusal::NoAdjustRow(pc)),
    }
}

// DAA and DAS.
pub fn daa(er: &mut [u32; 8], d: u8, pc: u32, f: Condition) -> Deed
    ensures { effect_in er.new pc result ≡ decimal_of Up d (lent er.old pc f) }
{
    let x = registers::get(Width::Byte, er, d);
    adjusted(arith::decimal::daa(f.c, f.h, x), x, er, d, pc, f)
}

pub fn das(er: &mut [u32; 8], d: u8, pc: u32, f: Condition) -> Deed
    ensures { effect_in er.new pc result ≡ decimal_of Down d (lent er.old pc f) }
{
    let x = registers::get(Width::Byte, er, d);
    adjusted(arith::decimal::das(f.c, f.h, x), x, er, d, pc, f)
}

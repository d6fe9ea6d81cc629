// MULXU, MULXS, DIVXU and DIVXS where the registers lie. PC is none of theirs.
#![tactic(auto)]

ghost use Rattle.std.specs.Prelude.{◌≡◌};
ghost use Rattle.codes.specs.declared.Sign.TheVariants.{Unsigned, Signed};
ghost use Rattle.registers.specs.Lent.{lent};
ghost use Rattle.operate.specs.MirrorLent.{Does, effect_in};
ghost use Rattle.multiply.specs.Multiply.{multiply_of, divided_of, divide_of};

use arith::Moved;
use operate::Deed;
use products::Half;
use refusal::Refusal;
use registers::Condition;

pub fn mulxu(h: Half, er: &mut [u32; 8], s: u8, d: u8, f: Condition) -> Condition
    ensures { Does (multiply_of Unsigned h s d) er.old er.new f result }
{
    let w = products::product_width(h);
    let a = registers::get(w, er, d);
    let b = registers::get(products::factor_width(h), er, s);
    registers::put(w, er, d, products::mulxu(h, a, b));
    f
}

pub fn mulxs(h: Half, er: &mut [u32; 8], s: u8, d: u8, f: Condition) -> Condition
    ensures { Does (multiply_of Signed h s d) er.old er.new f result }
{
    let w = products::product_width(h);
    let a = registers::get(w, er, d);
    let b = registers::get(products::factor_width(h), er, s);
    let x = products::mulxs(h, a, b);
    registers::put(w, er, d, x.value);
    f.with_product(x)
}

// The destination gets quotient and remainder; where there are none, refusal 14 at the instruction.
fn divided(q: Option<Moved>, h: Half, er: &mut [u32; 8], d: u8, pc: u32, f: Condition) -> Deed
    ensures { effect_in er.new pc result ≡ divided_of q h d (lent er.old pc f) }
{
    match q {
        Some(x) => {
            registers::put(products::product_width(h), er, d, x.value);
            operate::did(f.with_product(x))
        }
        None => operate::refused(f, Refusal::DivideFails(pc)),
    }
}

pub fn divxu(h: Half, er: &mut [u32; 8], s: u8, d: u8, pc: u32, f: Condition) -> Deed
    ensures { effect_in er.new pc result ≡ divide_of Unsigned h s d (lent er.old pc f) }
{
    let a = registers::get(products::product_width(h), er, d);
    let b = registers::get(products::factor_width(h), er, s);
    divided(products::divxu(h, a, b), h, er, d, pc, f)
}

pub fn divxs(h: Half, er: &mut [u32; 8], s: u8, d: u8, pc: u32, f: Condition) -> Deed
    ensures { effect_in er.new pc result ≡ divide_of Signed h s d (lent er.old pc f) }
{
    let a = registers::get(products::product_width(h), er, d);
    let b = registers::get(products::factor_width(h), er, s);
    divided(products::divxs(h, a, b), h, er, d, pc, f)
}

// Whether each field of an instruction is in range: document 01's refusal 11. The tests are those of `Valid`, in its order, but for those
// that a field's type makes true.
ghost use Rattle.std.specs.Borrow.{Bor};
ghost use Rattle.std.specs.Prelude.{◌≡◌, ◌&&◌};
ghost use Rattle.encoder.specs.MirrorValid.{digit_ok, number_ok, has_reg, has_imm, has_by, has_unary, has_product, has_index, has_spot, has_place, has_target, has_alu, valid_of};

use crate::tables::Coded;
use arith::Width;
use codes::{By, Index, Instruction, Op, Place, Single, Source, Spot, Target};
use products::Half;

fn digit_ok(w: Width, r: u8) -> bool
    ensures { result ≡ digit_ok w r }
{
    match w {
        Width::Byte | Width::Word => r < 16,
        Width::Long => r < 8,
    }
}

fn number_ok(w: Width, v: u32) -> bool
    ensures { result ≡ number_ok w v }
{
    match w {
        Width::Byte => v < 0x100,
        Width::Word => v < 0x10000,
        Width::Long => true,
    }
}

fn has_reg(op: Op, w: Width) -> bool
    ensures { result ≡ has_reg op w }
{
    match op {
        Op::Addx | Op::Subx => w == Width::Byte,
        _ => true,
    }
}

fn has_imm(op: Op, w: Width) -> bool
    ensures { result ≡ has_imm op w }
{
    match op {
        Op::Sub => w != Width::Byte,
        Op::Addx | Op::Subx => w == Width::Byte,
        _ => true,
    }
}

fn has_by(w: Width, by: By) -> bool
    ensures { result ≡ has_by w by }
{
    match by {
        By::One => true,
        By::Two => w != Width::Byte,
        By::Four => false,
    }
}

fn has_unary(single: Single, w: Width) -> bool
    ensures { result ≡ has_unary single w }
{
    match single {
        Single::Not | Single::Neg => true,
        Single::Extu | Single::Exts => w != Width::Byte,
    }
}

fn has_product(h: Half, s: u8, d: u8) -> bool
    ensures { result ≡ has_product h s d }
{
    digit_ok(products::factor_width(h), s) && digit_ok(products::product_width(h), d)
}

fn has_index(part: bool, index: Index) -> bool
    ensures { result ≡ has_index part index }
{
    match index {
        Index::Numbered(n) => n < 8,
        Index::ByPart(r) => part && r < 16,
    }
}

fn has_spot(spot: Spot) -> bool
    ensures { result ≡ has_spot spot }
{
    match spot {
        Spot::InPart(d) => d < 16,
        Spot::AtEr(e) => e < 8,
        Spot::AtAbs(_) => true,
    }
}

fn has_place(w: Width, p: Place) -> bool
    ensures { result ≡ has_place w p }
{
    match p {
        Place::At(e) | Place::Step(e) | Place::Disp(e, _) => e < 8,
        Place::Abs8(_) => w == Width::Byte,
        Place::Abs16(_) => true,
        Place::Abs24(a) => a < 0x1000000,
    }
}

fn has_target(target: Target) -> bool
    ensures { result ≡ has_target target }
{
    match target {
        Target::ByReg(e) => e < 8,
        Target::Direct(a) => a < 0x1000000,
        Target::Vector(_) => true,
    }
}

fn has_alu(op: Op, w: Width, source: Source, d: u8) -> bool
    ensures { result ≡ has_alu op w source d }
{
    match source {
        Source::Reg(s) => has_reg(op, w) && digit_ok(w, s) && digit_ok(w, d),
        Source::Imm(v) => has_imm(op, w) && number_ok(w, v) && digit_ok(w, d),
    }
}

fn has_bit<K: Coded>(kind: K, index: Index, spot: Spot) -> bool
    ensures { result ≡ (has_index (K.by_part kind) index && has_spot spot) }
{
    has_index(kind.by_part(), index) && has_spot(spot)
}

pub fn valid(i: Instruction) -> bool
    ensures { result ≡ valid_of i }
{
    match i {
        Instruction::Nop | Instruction::Rts => true,
        Instruction::Stc(r) | Instruction::LdcReg(r) | Instruction::Decimal(_, r) => r < 16,
        Instruction::Ccr(_, _) | Instruction::Bsr(_) => true,
        Instruction::Alu(op, w, source, d) => has_alu(op, w, source, d),
        Instruction::IncDec(_, w, by, r) => has_by(w, by) && digit_ok(w, r),
        Instruction::AddsSubs(_, _, e) => e < 8,
        Instruction::Shift(_, w, r) => digit_ok(w, r),
        Instruction::Unary(single, w, r) => has_unary(single, w) && digit_ok(w, r),
        Instruction::Multiply(_, h, s, d) | Instruction::Divide(_, h, s, d) => has_product(h, s, d),
        Instruction::Takes(take, index, spot) => has_bit(take, index, spot),
        Instruction::Gives(give, index, spot) => has_bit(give, index, spot),
        Instruction::Move(_, w, p, r) => has_place(w, p) && digit_ok(w, r),
        Instruction::Bcc(c, _) => c < 16,
        Instruction::Jmp(target) | Instruction::Jsr(target) => has_target(target),
    }
}
